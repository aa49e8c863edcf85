// What comes back: a value, or the reason why there is none, with the specification's number and place for each.
#![tactic(auto)]

ghost use Rattle.std.specs.Prelude.{◌≡◌, ℕ};
ghost use Rattle.answers.specs.Told as specs;

// Why a request is refused. A reason that is about one target has its place in the list of targets, from 0.
#[derive(Clone, Copy)]
pub enum Refusal {
    // 10: a request line that cannot be read, or target bytes that are no multiple of 8.
    Unreadable,
    // 1: a kind or size that is not known.
    UnknownSize,
    // 52: a kind of mesh that the routine does not serve.
    NotServed,
    // 9: a distance asked of a mesh that does not answer it.
    NoDistance,
    // 2: the source is no relay of the mesh.
    SourceOut,
    // 3: no target.
    NoTarget,
    // 4: more targets than a relay has links.
    TooMany,
    // 5: a target is no relay of the mesh.
    TargetOut(usize),
    // 6: a target is the source.
    TargetIsSource(usize),
    // 7: a target stands earlier in the list.
    TargetAgain(usize),
    // 11: doors that the mesh does not have, or fewer of them than targets.
    BadDoors,
    // 43: the source has stopped.
    SourceStopped,
    // 44: the target has stopped.
    TargetStopped,
    // 46: a size that is too large for export.
    TooLarge,
    // 8: a lent slice is too short.
    NoRoom,
    // 45: no path of running relays joins the two.
    NoPath,
}

// What can stand against a call: the specification's number, and the path and the place that are told with it, which are 0 where it is about none.
pub trait Reason: Copy {
    ghost number_told: { Self → ℕ };

    ghost path_told: { Self → ℕ };

    ghost place_told: { Self → ℕ };

    fn number(self) -> u64
        ensures { result ≡ number_told self };

    fn path(self) -> usize
        ensures { result ≡ path_told self };

    fn place(self) -> usize
        ensures { result ≡ place_told self };
}

impl Reason for Refusal {
    ghost number_told = { specs.number };

    ghost path_told = { λ why. 0 };

    ghost place_told = { specs.place };

    // The specification's number of the reason: `Refusal::SourceOut.number()` is 2.
    fn number(self) -> u64 {
        match self {
            Refusal::Unreadable => 10,
            Refusal::UnknownSize => 1,
            Refusal::NotServed => 52,
            Refusal::NoDistance => 9,
            Refusal::SourceOut => 2,
            Refusal::NoTarget => 3,
            Refusal::TooMany => 4,
            Refusal::TargetOut(_) => 5,
            Refusal::TargetIsSource(_) => 6,
            Refusal::TargetAgain(_) => 7,
            Refusal::BadDoors => 11,
            Refusal::SourceStopped => 43,
            Refusal::TargetStopped => 44,
            Refusal::TooLarge => 46,
            Refusal::NoRoom => 8,
            Refusal::NoPath => 45,
        }
    }

    // No reason of a request is about a path.
    fn path(self) -> usize {
        0
    }

    // The place that is told with it: `Refusal::TargetOut(3).place()` is 3.
    fn place(self) -> usize {
        match self {
            Refusal::TargetOut(at) => at,
            Refusal::TargetIsSource(at) => at,
            Refusal::TargetAgain(at) => at,
            _ => 0,
        }
    }
}

// 0, or the reason's number: of `Err(Refusal::SourceOut)` it is 2.
pub fn number<T: Copy, R: Reason>(answer: Result<T, R>) -> u64
    ensures { result ≡ specs.of_reason R.number_told answer }
{
    match answer {
        Ok(_) => 0,
        Err(why) => why.number(),
    }
}

// 0, or the reason's path.
pub fn path<T: Copy, R: Reason>(answer: Result<T, R>) -> usize
    ensures { result ≡ specs.of_reason R.path_told answer }
{
    match answer {
        Ok(_) => 0,
        Err(why) => why.path(),
    }
}

// 0, or the reason's place.
pub fn place<T: Copy, R: Reason>(answer: Result<T, R>) -> usize
    ensures { result ≡ specs.of_reason R.place_told answer }
{
    match answer {
        Ok(_) => 0,
        Err(why) => why.place(),
    }
}

// The value, and 0 of a refusal.
pub fn value(answer: Result<u64, Refusal>) -> u64
    ensures { result ≡ specs.value_of (specs.answer_told answer) }
{
    answer.unwrap_or(0)
}

// Whether it is yes: a refusal is no.
pub fn yes(answer: Result<bool, Refusal>) -> bool
    ensures { result ≡ specs.value_of (specs.yes_no_told answer) }
{
    answer.unwrap_or(false)
}
