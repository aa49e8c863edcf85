// The two-level mesh as one whose relays know the next hop.
ghost use Rattle.two_parts.specs.Two as twos;
ghost use Rattle.two_parts.specs.Parts.{short-ways};
ghost use Rattle.two.specs.Next as walk;

use crate::steps;
use requests::{Facts, Hops, Ways};
use two_parts::Order;

#[derive(Clone, Copy)]
pub struct Walked(pub Order);

impl Facts for Walked {
    ghost is_known = { λ walked. twos.known walked.0.0 };

    ghost mesh = { λ walked. twos.two walked.0.0 };

    ghost short = { λ walked known. short-ways walked.0.0 known };

    fn known(self) -> bool {
        self.0.known()
    }

    fn relays_in(self) -> u64 {
        self.0.relays_in()
    }

    fn links_in(self) -> u64 {
        self.0.links_in()
    }

    fn longest_in(self) -> u64 {
        self.0.longest_in()
    }
}

impl Hops for Walked {
    ghost next = { λ walked. walk.next walked.0.0 };

    ghost hops = { λ walked. walk.hops walked.0.0 };

    fn hop(self, u: u64, t: u64) -> u64 {
        steps::hop(self.0, u, t)
    }
}

impl Ways for Walked {
    fn joined(self, u: u64, v: u64) -> bool {
        two_parts::link(self.0, u, v)
    }

    // No route takes more than 2 ^ (order + 1) + 2 * order places, so that where there are as many it need not be walked to be counted.
    fn short(self, s: u64, t: u64, n: usize) -> bool {
        let m = self.0.0;
        let most = 2 * two_parts::slots_in(self.0) + 2 * m;
        if most as usize <= n {
            return false;
        }
        n <= self.count(s, t)
    }
}
