// A metacube as one whose relays know the next hop.
ghost use Rattle.meta_parts.specs.Meta as metas;
ghost use Rattle.meta_parts.specs.Sizes.{short-ways};
ghost use Rattle.meta.specs.Says as says;

use crate::steps;
use meta_parts::Metacube;
use requests::{Facts, Hops, Ways};

#[derive(Clone, Copy)]
pub struct Walked(pub Metacube);

impl Facts for Walked {
    ghost is_known = { λ walked. metas.known walked.0.0 };

    ghost mesh = { λ walked. metas.metacube walked.0.0 };

    ghost short = { λ walked known. short-ways walked.0.0 known };

    fn known(self) -> bool {
        self.0.known()
    }

    fn relays_in(self) -> u64 {
        self.0.relays_in()
    }

    fn links_in(self) -> u64 {
        self.0.links_in()
    }

    fn longest_in(self) -> u64 {
        self.0.longest_in()
    }
}

impl Hops for Walked {
    ghost next = { λ walked. says.next walked.0.0 };

    ghost hops = { λ walked. says.hops walked.0.0 };

    fn hop(self, u: u64, t: u64) -> u64 {
        steps::hop(self.0, u, t)
    }
}

impl Ways for Walked {
    fn joined(self, u: u64, v: u64) -> bool {
        meta_parts::joined(self.0, u, v)
    }

    fn short(self, s: u64, t: u64, n: usize) -> bool {
        n <= self.count(s, t)
    }
}
