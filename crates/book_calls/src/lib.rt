// A book of sheets kept in two lent slices: a sheet added, found, removed. docs/BOOKS.md has the bytes and the index place by place.
#![tactic(auto)]

mod puts;

ghost use Rattle.std.specs.Prelude.{◌≡◌};
ghost use Rattle.book.specs.Says.{find_says, remove_says, remove_bytes, remove_index, add_says, add_bytes, add_index};

use book::{Book, Found, NotAdded};

// Adds one sheet behind the last, of either version, and its place to the index; gives the head afterwards. Where there is no room behind the last the book is closed up first. Refuses, in this
// order, with the reader's numbers but 8; 39, where the book has a sheet of this kind, size and source; 40, where the index is full; 8, where the live sheets and the new one are together longer than
// the bytes lent, or than 65,536; and then changes nothing.
pub fn add(book: Book, bytes: &mut [u8], index: &mut [u64], sheet: &[u8]) -> Result<Book, NotAdded>
    ensures { (result ≡ add_says book bytes.old index.old sheet.now) × (bytes.new ≡ add_bytes book bytes.old index.old sheet.now) × (index.new ≡ add_index book bytes.old index.old sheet.now) }
{
    let read = sheet_check::check_either(sheet)?;
    let head = read.head;
    let key = book_keys::key(head.mesh.kind, head.mesh.size, head.source);
    puts::put(book, bytes, index, sheet, key)
}

// Finds the sheet of a kind, a size and a source: where it starts and how long it is. Refuses with 51 alone, whatever numbers are asked.
pub fn find(
    book: Book,
    bytes: &[u8],
    index: &[u64],
    kind: u64,
    size: u64,
    source: u64,
) -> Option<Found>
    ensures { result ≡ find_says book bytes.now index.now kind size source }
{
    book_keys::sought(book, bytes, index, kind, size, source).map(|sought| sought.found)
}

// Removes the sheet of a kind, a size and a source: its version becomes 0, and its place goes out of the index; gives the head afterwards. Refuses with 51 alone, and then changes
// nothing.
pub fn remove(
    book: Book,
    bytes: &mut [u8],
    index: &mut [u64],
    kind: u64,
    size: u64,
    source: u64,
) -> Option<Book>
    ensures { (result ≡ remove_says book bytes.old index.old kind size source) × (bytes.new ≡ remove_bytes book bytes.old index.old kind size source) × (index.new ≡ remove_index book bytes.old index.old kind size source) }
{
    let sought = book_keys::sought(book, bytes, index, kind, size, source)?;
    let n = book_keys::count(book, index);
    bytes[sought.found.start + 4] = 0;
    book_parts::take_out(index, sought.place, n);
    Some(Book {
        used: book.used,
        entries: n - 1,
    })
}
