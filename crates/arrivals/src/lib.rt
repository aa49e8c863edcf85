// Copies of a frame told apart: the record that a receiver keeps, and what it says of a number that arrives.
#![tactic(auto)]

ghost use Rattle.std.specs.Prelude.{◌≡◌, ◌*◌, ◌%◌, ◌^◌, ◌<◌, ◌≤◌};
ghost use Rattle.arrivals.specs.Says as specs;

pub use answers::Reason;

// The newest number, and marks: bit e says whether the number e before the newest was passed. No marks, no frame yet: a fresh record.
#[repr(C)]
#[derive(Clone, Copy)]
pub struct Record {
    pub newest: u16,
    pub marks: u64,
}

// Why a number is not passed. The record stays as it was.
#[derive(Clone, Copy, PartialEq, Eq)]
pub enum Dropped {
    // 41: a frame of this number was passed before.
    Seen,
    // 42: the number is neither ahead of the newest nor among the newest 64.
    Old,
}

impl Reason for Dropped {
    ghost number_told = { specs.number };

    ghost path_told = { λ why. 0 };

    ghost place_told = { λ why. 0 };

    // The specification's number: `Dropped::Seen.number()` is 41.
    fn number(self) -> u64 {
        match self {
            Dropped::Seen => 41,
            Dropped::Old => 42,
        }
    }

    // It is about no path and no place.
    fn path(self) -> usize {
        0
    }

    fn place(self) -> usize {
        0
    }
}

// The record to keep after an arrival: the new one, or of a number that is not passed the one that was.
pub fn kept(was: Record, arrived: Result<Record, Dropped>) -> Record
    ensures { result ≡ specs.record_of (specs.arrival_of was arrived) }
{
    arrived.unwrap_or(was)
}

// The marks so many places further; those that fall out of 64 bits are lost.
fn shifted(marks: u64, by: u16) -> u64
    requires { (1 ≤ by) × (by < 64) }
    ensures { result ≡ marks * 2 ^ by % 2 ^ 64 }
{
    marks << by
}

// The marks when the newest number moves on by so many, itself marked.
fn moved(marks: u64, by: u16) -> u64
    requires { 1 ≤ by }
    ensures { result ≡ specs.moved marks by }
{
    if by < 64 { shifted(marks, by) | 1 } else { 1 }
}

// The record after the arrival of a number, or why it is not passed: of 7, 7, 8, 7 at a fresh record the first and the third are passed.
#[tactic(auto, using(crate::proofs::Rules::passed_ahead))]
pub fn arrive(was: Record, number: u16) -> Result<Record, Dropped>
    ensures { specs.arrival_of was result ≡ specs.arrival was number }
{
    let newest = was.newest;
    let marks = was.marks;
    if marks == 0 {
        return Ok(Record {
            newest: number,
            marks: 1,
        });
    }
    let ahead = number.wrapping_sub(newest);
    let behind = newest.wrapping_sub(number);
    if behind < 64 {
        if bits::bit(marks, u32::from(behind)) {
            return Err(Dropped::Seen);
        }
        return Ok(Record {
            newest,
            marks: bits::flip(marks, u32::from(behind)),
        });
    }
    if ahead <= 32767 {
        return Ok(Record {
            newest: number,
            marks: moved(marks, ahead),
        });
    }
    Err(Dropped::Old)
}
