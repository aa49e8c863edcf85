// A book opened again from its used bytes: the index worked out afresh. docs/BOOKS.md has the bytes and the index place by place.
#![tactic(auto)]

mod steps;

ghost use Rattle.std.specs.Prelude.{◌≡◌, ◌≤◌, length, take};
ghost use Rattle.std.proofs.lemmas.List.Edits.{sets};
ghost use Rattle.book.specs.Says.{capacity};
ghost use Rattle.book.specs.Open.{open_says, open_index};
ghost use Rattle.book_open.specs.Opens.{Gathered};

use book::{Book, NotEntered, NotOpened};

// The pieces one after another, their places gathered in the room, of which so many can be used.
fn gather(bytes: &[u8], places: usize, room: &mut [u64]) -> Result<Book, NotOpened>
    requires { places ≤ length room.old }
    ensures { Gathered bytes.now places result room.new }
{
    let end = bytes.len();
    let mut at: usize = 0;
    let mut n: usize = 0;
    while at < end {
        let rest = &bytes[at..];
        let Some(size) = steps::piece(rest, at) else {
            return Err(NotOpened::Bad(at));
        };
        match steps::enter(rest, at, places, n, room) {
            Ok(m) => n = m,
            Err(NotEntered::Again) => return Err(NotOpened::Bad(at)),
            Err(NotEntered::Full) => return Err(NotOpened::Full),
        }
        at += size;
    }
    Ok(Book {
        used: end,
        entries: n,
    })
}

// Opens a book from its used bytes: works the index out afresh and gives the head. Refuses with 53 and, as its place, the start of the first piece that is no accepted or removed sheet
// or whose kind, size and source are there already; with 40 where the index is too short; and then changes nothing. A removed sheet is known by its version and its length.
pub fn open(bytes: &[u8], index: &mut [u64]) -> Result<Book, NotOpened>
    ensures { (result ≡ open_says bytes.now index.old) × (index.new ≡ open_index bytes.now index.old) }
{
    let mut room = [0u64; 256];
    let places = index.len().min(256);
    let book = gather(bytes, places, &mut room)?;
    steps::keep(&room, book.entries, index);
    Ok(book)
}
