// A book of sheets: its head, and what its routines answer. docs/BOOKS.md has it byte by byte.
#![tactic(auto)]

ghost use Rattle.std.specs.Prelude.{◌≡◌};
ghost use Rattle.book.specs.declared.NotAdded.TheVariants as NotAdded;
ghost use Rattle.book.specs.Told as told;

pub use answers::Reason;
use sheet::Flaw;

// How many bytes are in use, removed sheets counted, and how many places of the index. An empty book is 0, 0, over any slices.
#[repr(C)]
#[derive(Clone, Copy)]
pub struct Book {
    pub used: usize,
    pub entries: usize,
}

// Why a sheet is not added. A refusal changes nothing.
#[derive(Clone, Copy)]
pub enum NotAdded {
    // what the reader has against it, but 8
    Flawed(Flaw),
    // 39: there is a sheet of this kind, size and source
    There,
    // 40: the index is full
    Full,
    // 8: no room after the last sheet
    NoRoom,
}

// Why bytes are not opened as a book.
#[derive(Clone, Copy)]
pub enum NotOpened {
    // 53, with its start as the place: no accepted or removed sheet, or one whose kind, size and source are there already
    Bad(usize),
    // 40: the index is too short
    Full,
}

// Why one piece of them is not entered into the index.
#[derive(Clone, Copy)]
pub enum NotEntered {
    // its key is there already
    Again,
    Full,
}

// Where a sheet is.
#[derive(Clone, Copy)]
pub struct Found {
    pub start: usize,
    pub length: usize,
}

// The same, with its place in the index.
#[derive(Clone, Copy)]
pub struct Sought {
    pub place: usize,
    pub found: Found,
}

impl From<Flaw> for NotAdded {
    ghost from_gives = { λ flaw why. why ≡ NotAdded.Flawed flaw };

    fn from(flaw: Flaw) -> NotAdded {
        NotAdded::Flawed(flaw)
    }
}

impl Reason for NotAdded {
    ghost number_told = { told.reason_number };

    ghost path_told = { told.reason_path };

    ghost place_told = { told.reason_place };

    // The reader's number, 39, 40 or 8.
    fn number(self) -> u64 {
        match self {
            NotAdded::Flawed(f) => f.number(),
            NotAdded::There => 39,
            NotAdded::Full => 40,
            NotAdded::NoRoom => 8,
        }
    }

    // The path that the reader tells, and 0 of all else.
    fn path(self) -> usize {
        match self {
            NotAdded::Flawed(f) => f.path(),
            _ => 0,
        }
    }

    // The place that the reader tells, and 0 of all else.
    fn place(self) -> usize {
        match self {
            NotAdded::Flawed(f) => f.place(),
            _ => 0,
        }
    }
}

impl Reason for NotOpened {
    ghost number_told = { told.unopened_number };

    ghost path_told = { λ why. 0 };

    ghost place_told = { told.unopened_place };

    // 53 or 40.
    fn number(self) -> u64 {
        match self {
            NotOpened::Bad(_) => 53,
            NotOpened::Full => 40,
        }
    }

    // No reason is about a path.
    fn path(self) -> usize {
        0
    }

    // The start that 53 tells, and 0 of all else.
    fn place(self) -> usize {
        match self {
            NotOpened::Bad(start) => start,
            NotOpened::Full => 0,
        }
    }
}

// 0, or 51 where there is no such sheet.
pub fn found_number(found: Option<Found>) -> u64
    ensures { result ≡ told.found_number found }
{
    found.map_or(51, |_| 0)
}

// Where the sheet starts, and 0 of none.
pub fn start(found: Option<Found>) -> usize
    ensures { result ≡ told.found_start found }
{
    found.map_or(0, |sheet| sheet.start)
}

// Its length, and 0 of none.
pub fn length(found: Option<Found>) -> usize
    ensures { result ≡ told.found_length found }
{
    found.map_or(0, |sheet| sheet.length)
}

// 0, or 51 where there was no such sheet to be removed.
pub fn removed_number(removed: Option<Book>) -> u64
    ensures { result ≡ told.removed_number removed }
{
    removed.map_or(51, |_| 0)
}
