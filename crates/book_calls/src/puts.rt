// A sheet that is accepted put into a book.
ghost use Rattle.std.specs.Prelude.{◌≡◌, length};
ghost use Rattle.std.proofs.Math.Option.{none};
ghost use Rattle.book.specs.Pieces.{key_at};
ghost use Rattle.book.specs.Sheets.{against};
ghost use Rattle.book.specs.Says as says;
ghost use Rattle.book_calls.specs.Puts.{ClosedPut, AllPut};

use book::{Book, NotAdded};

// Whether there is no room for the sheet after the last one.
fn short(book: Book, bytes: &[u8], sheet: &[u8]) -> bool
    ensures { result ≡ says.short book bytes.now sheet.now }
{
    let room = bytes.len().min(65536);
    let n = sheet.len();
    if room < n {
        return true;
    }
    room - n < book.used
}

// Whether there is none with the live sheets alone.
fn crammed(book: Book, bytes: &[u8], sheet: &[u8]) -> bool
    ensures { result ≡ says.crammed book bytes.now sheet.now }
{
    let room = bytes.len().min(65536);
    let live = book_close::live_bytes(bytes, book.used.min(room));
    let n = sheet.len();
    if room < n {
        return true;
    }
    room - n < live
}

// Whether no place of the index is left.
fn full(book: Book, index: &[u64]) -> bool
    ensures { result ≡ says.full book index.now }
{
    index.len().min(256) <= book_keys::count(book, index)
}

// Puts a sheet that was checked behind the last one, and its place into the index.
fn put_last(
    book: Book,
    bytes: &mut [u8],
    index: &mut [u64],
    sheet: &[u8],
    key: u64,
) -> Result<Book, NotAdded>
    requires { (against sheet.now ≡ none) × (key ≡ key_at sheet.now) }
    ensures { (result ≡ says.end_says book bytes.old index.old sheet.now) × (bytes.new ≡ says.end_bytes book bytes.old index.old sheet.now) × (index.new ≡ says.end_index book bytes.old index.old sheet.now) }
{
    let n = book_keys::count(book, index);
    let i = book_parts::place(index, n, key * 65536);
    let stands = book_keys::there(index, n, i, key);
    let filled = full(book, index);
    let lacking = short(book, bytes, sheet);
    if stands {
        return Err(NotAdded::There);
    }
    if filled {
        return Err(NotAdded::Full);
    }
    if lacking {
        return Err(NotAdded::NoRoom);
    }
    let used = book.used;
    book_parts::insert(index, i, n, key * 65536 + used as u64);
    book_parts::copy(sheet, used, bytes);
    Ok(Book {
        used: used + sheet.len(),
        entries: n + 1,
    })
}

// The same where there was no room behind the last one: behind the live ones, once the book is closed up, if there is room then.
fn put_closed(
    book: Book,
    bytes: &mut [u8],
    index: &mut [u64],
    sheet: &[u8],
    key: u64,
) -> Result<Book, NotAdded>
    requires { (against sheet.now ≡ none) × (key ≡ key_at sheet.now) }
    ensures { ClosedPut book bytes.old index.old sheet.now result bytes.new index.new }
{
    if crammed(book, bytes, sheet) {
        return Err(NotAdded::NoRoom);
    }
    let closed = book_close::close(book, bytes, index);
    put_last(closed, bytes, index, sheet, key)
}

// Puts a sheet that was checked into a book.
pub fn put(
    book: Book,
    bytes: &mut [u8],
    index: &mut [u64],
    sheet: &[u8],
    key: u64,
) -> Result<Book, NotAdded>
    requires { (against sheet.now ≡ none) × (key ≡ key_at sheet.now) }
    ensures { AllPut book bytes.old index.old sheet.now result bytes.new index.new }
{
    match put_last(book, bytes, index, sheet, key) {
        Ok(added) => Ok(added),
        Err(why) => match why {
            NotAdded::NoRoom => put_closed(book, bytes, index, sheet, key),
            _ => Err(why),
        },
    }
}
