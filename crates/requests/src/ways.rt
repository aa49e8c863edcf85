// Links, next hops and plain routes, whatever the kind.
ghost use Rattle.std.specs.Prelude.{◌≡◌, ℕ, ◌<◌, Bool, true, leb, length};
ghost use Rattle.answers.specs.Told.{answer_told, yes_no_told};
ghost use Rattle.paths.specs.Routed.{Routed};
ghost use Rattle.requests.specs.Ways.{Between, linked_told, next_told, route_told, route_leaves, routed};

use crate::facts::Facts;
use answers::Refusal;

// A kind of mesh whose relays know the next hop.
pub trait Hops: Facts {
    ghost next: { Self → ℕ → ℕ → ℕ };

    ghost hops: { Self → ℕ → ℕ → ℕ };

    // The relay after u on the way to t, and t itself where u is t.
    fn hop(self, u: u64, t: u64) -> u64
        requires { Between (Self.is_known self) (Self.mesh self) u t }
        ensures { result ≡ next self u t };

    // How many hops it is from s to t: as many as it takes to arrive.
    final fn count(self, s: u64, t: u64) -> usize
        requires between { Between (Self.is_known self) (Self.mesh self) s t }
        requires way { Routed (Self.mesh self) (next self) s t (hops self s t) }
        ensures { result ≡ hops self s t }
    {
        let mut at = s;
        let mut n: usize = 0;
        while at != t {
            at = self.hop(at, t);
            n += 1;
        }
        n
    }
}

// The same with its links, and what is told of a source and a target.
pub trait Ways: Hops {
    // Whether two numbers are linked relays, where there is such a mesh.
    fn joined(self, u: u64, v: u64) -> bool
        requires { Self.is_known self ≡ true }
        ensures { result ≡ (Self.mesh self).linked u v };

    // Whether n places are too few for the route from s to t, which arrives.
    fn short(self, s: u64, t: u64, n: usize) -> bool
        requires { Between (Self.is_known self) (Self.mesh self) s t }
        ensures value { result ≡ leb n (Self.hops self s t) }
        ensures way { Routed (Self.mesh self) (Self.next self) s t (Self.hops self s t) };

    // Writes the route from s to t at the front of `out`, and counts its hops.
    final fn walk(self, s: u64, t: u64, out: &mut [u64]) -> usize
        requires between { Between (Self.is_known self) (Self.mesh self) s t }
        requires way { Routed (Self.mesh self) (Self.next self) s t (Self.hops self s t) }
        requires room { Self.hops self s t < length out.old }
        ensures value { result ≡ Self.hops self s t }
        ensures out_after { out.new ≡ routed (Self.next self) (Self.hops self s t) s t out.old }
    {
        let mut at = s;
        let mut k: usize = 0;
        while at != t {
            out[k] = at;
            at = self.hop(at, t);
            k += 1;
        }
        out[k] = at;
        k
    }

    // Whether source and target are linked. Refuses with 1, 2, 5.
    final fn linked(self, source: u64, target: u64) -> Result<bool, Refusal>
        ensures { yes_no_told result ≡ linked_told (Self.is_known self) (Self.mesh self) source target }
    {
        self.pair(source, target)?;
        Ok(self.joined(source, target))
    }

    // The relay after the source on the way to the target, and the target itself where they are the same. Refuses with 1, 2, 5.
    final fn next_hop(self, source: u64, target: u64) -> Result<u64, Refusal>
        ensures { answer_told result ≡ next_told (Self.is_known self) (Self.mesh self) (Self.next self) source target }
    {
        self.pair(source, target)?;
        Ok(self.hop(source, target))
    }

    // Writes the plain route from the source to the target from place 0 of `out`, and answers its hops; what stands after the route stays. Refuses with 1, 2, 5, 8,
    // and then `out` stays as it was.
    final fn route(self, source: u64, target: u64, out: &mut [u64]) -> Result<u64, Refusal>
        ensures result_value { answer_told result ≡ route_told (Self.is_known self) (Self.mesh self) (Self.hops self source target) source target out.old }
        ensures out_after { out.new ≡ route_leaves (Self.is_known self) (Self.mesh self) (Self.next self) (Self.hops self source target) source target out.old }
    {
        self.pair(source, target)?;
        if self.short(source, target, out.len()) {
            return Err(Refusal::NoRoom);
        }
        Ok(self.walk(source, target, out) as u64)
    }
}
