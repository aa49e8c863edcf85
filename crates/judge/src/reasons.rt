// What stands against a set of paths, as what can stand against any call: its number, path and place.
ghost use Rattle.std.specs.Prelude.{◌≡◌};
ghost use Rattle.judge.specs.Says as specs;
ghost use Rattle.judge.specs.declared.Fault.TheVariants as fault;

use crate::{Fault, Finding};
use answers::{Reason, Refusal};

impl From<Finding> for Fault {
    ghost from_gives = { λ f given. given ≡ fault.Found f };

    fn from(f: Finding) -> Fault {
        Fault::Found(f)
    }
}

impl From<Refusal> for Fault {
    ghost from_gives = { λ why given. given ≡ fault.Refused why };

    fn from(why: Refusal) -> Fault {
        Fault::Refused(why)
    }
}

impl Reason for Finding {
    ghost number_told = { λ f. specs.number_of (specs.found_told f) };

    ghost path_told = { λ f. specs.path_of (specs.found_told f) };

    ghost place_told = { λ f. specs.place_of (specs.found_told f) };

    // The specification's number: `Finding::NotLinked(1, 3).number()` is 22.
    fn number(self) -> u64 {
        match self {
            Finding::TooLong(_) => 20,
            Finding::NotFromSource(_) => 21,
            Finding::NotLinked(_, _) => 22,
            Finding::NotToTarget(_, _) => 23,
            Finding::SeenAgain(_, _) => 24,
            Finding::NotFilled(_, _) => 25,
        }
    }

    // The path: of `Finding::NotLinked(1, 3)` it is 1.
    fn path(self) -> usize {
        match self {
            Finding::TooLong(i) => i,
            Finding::NotFromSource(i) => i,
            Finding::NotLinked(i, _) => i,
            Finding::NotToTarget(i, _) => i,
            Finding::SeenAgain(i, _) => i,
            Finding::NotFilled(i, _) => i,
        }
    }

    // The place on the path: of `Finding::NotLinked(1, 3)` it is 3.
    fn place(self) -> usize {
        match self {
            Finding::TooLong(_) => 0,
            Finding::NotFromSource(_) => 0,
            Finding::NotLinked(_, p) => p,
            Finding::NotToTarget(_, p) => p,
            Finding::SeenAgain(_, p) => p,
            Finding::NotFilled(_, p) => p,
        }
    }
}

impl Reason for Fault {
    ghost number_told = { λ f. specs.number_of (specs.fault_told f) };

    ghost path_told = { λ f. specs.path_of (specs.fault_told f) };

    ghost place_told = { λ f. specs.place_of (specs.fault_told f) };

    // The finding's or the reason's number.
    fn number(self) -> u64 {
        match self {
            Fault::Found(f) => f.number(),
            Fault::Refused(why) => why.number(),
        }
    }

    // The finding's path; no refusal is about one.
    fn path(self) -> usize {
        match self {
            Fault::Found(f) => f.path(),
            Fault::Refused(why) => why.path(),
        }
    }

    // The finding's or the reason's place.
    fn place(self) -> usize {
        match self {
            Fault::Found(f) => f.place(),
            Fault::Refused(why) => why.place(),
        }
    }
}
