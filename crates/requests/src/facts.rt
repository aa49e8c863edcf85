// What every size of a mesh is asked, whatever the kind.
ghost use Rattle.std.specs.Prelude.{◌≡◌, ℕ, ◌<◌, Bool, true, not};
ghost use Rattle.answers.specs.Told.{answer_told, against};
ghost use Rattle.answers.specs.Order.{first, size_faults};
ghost use Rattle.paths.specs.Mesh.{Mesh, width};
ghost use Rattle.requests.specs.Facts.{fact_told, pair_faults_of};

use crate::pair;
use answers::Refusal;

// The size of a mesh of one kind. Every value can be asked; what is no size is refused by each routine.
pub trait Facts: Copy {
    ghost is_known: { Self → Bool };

    ghost mesh: { Self → Mesh };

    // Whether there is a mesh of this size.
    fn known(self) -> bool
        ensures { result ≡ is_known self };

    // The facts as plain numbers, where there is such a mesh.
    fn relays_in(self) -> u64
        requires { is_known self ≡ true }
        ensures { result ≡ (mesh self).relays };

    fn links_in(self) -> u64
        requires { is_known self ≡ true }
        ensures { result ≡ (mesh self).links };

    fn longest_in(self) -> u64
        requires { is_known self ≡ true }
        ensures { result ≡ (mesh self).longest };

    // No path is longer than 206 hops where there is such a mesh.
    ghost short: { (x : Self) → is_known x ≡ true → (mesh x).longest < 207 };

    // What stands against the size: 1.
    #[inline(always)]
    final fn checked(self) -> Result<(), Refusal>
        ensures { against result ≡ first (size_faults (not (is_known self))) }
    {
        if self.known() {
            Ok(())
        } else {
            Err(Refusal::UnknownSize)
        }
    }

    // How many relays.
    final fn relays(self) -> Result<u64, Refusal>
        ensures { answer_told result ≡ fact_told (is_known self) (mesh self).relays }
    {
        self.checked()?;
        Ok(self.relays_in())
    }

    // How many links each relay has.
    final fn links(self) -> Result<u64, Refusal>
        ensures { answer_told result ≡ fact_told (is_known self) (mesh self).links }
    {
        self.checked()?;
        Ok(self.links_in())
    }

    // The hops of the longest path.
    final fn longest(self) -> Result<u64, Refusal>
        ensures { answer_told result ≡ fact_told (is_known self) (mesh self).longest }
    {
        self.checked()?;
        Ok(self.longest_in())
    }

    // The places that a path takes.
    final fn places(self) -> Result<u64, Refusal>
        ensures { answer_told result ≡ fact_told (is_known self) (width (mesh self)) }
    {
        self.checked()?;
        Ok(self.longest_in() + 1)
    }

    // What stands against a source and a target in a mesh of this size: 1, 2, 5.
    #[inline(always)]
    final fn pair(self, source: u64, target: u64) -> Result<(), Refusal>
        ensures { against result ≡ first (pair_faults_of (is_known self) (mesh self).relays source target) }
    {
        self.checked()?;
        pair(self.relays_in(), source, target)
    }
}
