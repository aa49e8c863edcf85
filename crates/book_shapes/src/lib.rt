// What the routines of a book give back to C: number, path and place as the specification tells them, and the head to keep.
#![tactic(auto)]

ghost use Rattle.std.specs.Prelude.{◌≡◌};
ghost use Rattle.book_shapes.specs.Shapes as specs;

use book::{Book, Found, NotAdded, NotOpened};

// What becomes of a book: the head to keep is the one before, where it is refused.
#[repr(C)]
#[derive(Clone, Copy)]
pub struct GustBooked {
    pub number: u64,
    pub path: u64,
    pub place: u64,
    pub book: Book,
}

// Where a sheet starts and how long it is.
#[repr(C)]
#[derive(Clone, Copy)]
pub struct GustFound {
    pub number: u64,
    pub start: u64,
    pub length: u64,
}

pub fn of_added(added: Result<Book, NotAdded>, was: Book) -> GustBooked
    ensures { result ≡ specs.added_in added was }
{
    GustBooked {
        number: answers::number(added),
        path: answers::path(added) as u64,
        place: answers::place(added) as u64,
        book: added.unwrap_or(was),
    }
}

pub fn of_found(found: Option<Found>) -> GustFound
    ensures { result ≡ specs.found_in found }
{
    GustFound {
        number: book::found_number(found),
        start: book::start(found) as u64,
        length: book::length(found) as u64,
    }
}

pub fn of_removed(removed: Option<Book>, was: Book) -> GustBooked
    ensures { result ≡ specs.removed_in removed was }
{
    GustBooked {
        number: book::removed_number(removed),
        path: 0,
        place: 0,
        book: removed.unwrap_or(was),
    }
}

pub fn of_opened(opened: Result<Book, NotOpened>, was: Book) -> GustBooked
    ensures { result ≡ specs.opened_in opened was }
{
    GustBooked {
        number: answers::number(opened),
        path: 0,
        place: answers::place(opened) as u64,
        book: opened.unwrap_or(was),
    }
}
