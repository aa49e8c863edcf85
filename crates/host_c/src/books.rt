// The exports of host/src/books.rt.
ghost use Rattle.std.specs.Prelude.{◌≡◌};
ghost use Rattle.book.specs.Says.{add_says, add_bytes, add_index, find_says, remove_says, remove_bytes, remove_index, close_book, close_bytes, close_index, book_of};
ghost use Rattle.book.specs.Open.{open_says, open_index};
ghost use Rattle.book_shapes.specs.Shapes as specs;

use book::Book;
use book_shapes::{GustBooked, GustFound};

#[unsafe(no_mangle)]
pub extern "C" fn gust_book_add(
    book: Book,
    bytes: &mut [u8],
    index: &mut [u64],
    sheet: &[u8],
) -> GustBooked
    ensures { (result ≡ specs.added_in (add_says book bytes.old index.old sheet.now) book) × (bytes.new ≡ add_bytes book bytes.old index.old sheet.now) × (index.new ≡ add_index book bytes.old index.old sheet.now) }
{
    host::gust_book_add(book, bytes, index, sheet)
}

#[unsafe(no_mangle)]
pub extern "C" fn gust_book_find(
    book: Book,
    bytes: &[u8],
    index: &[u64],
    kind: u64,
    size: u64,
    source: u64,
) -> GustFound
    ensures { result ≡ specs.found_in (find_says book bytes.now index.now kind size source) }
{
    host::gust_book_find(book, bytes, index, kind, size, source)
}

#[unsafe(no_mangle)]
pub extern "C" fn gust_book_remove(
    book: Book,
    bytes: &mut [u8],
    index: &mut [u64],
    kind: u64,
    size: u64,
    source: u64,
) -> GustBooked
    ensures { (result ≡ specs.removed_in (remove_says book bytes.old index.old kind size source) book) × (bytes.new ≡ remove_bytes book bytes.old index.old kind size source) × (index.new ≡ remove_index book bytes.old index.old kind size source) }
{
    host::gust_book_remove(book, bytes, index, kind, size, source)
}

#[unsafe(no_mangle)]
pub extern "C" fn gust_book_open(bytes: &[u8], index: &mut [u64]) -> GustBooked
    ensures { (result ≡ specs.opened_in (open_says bytes.now index.old) (book_of 0 0)) × (index.new ≡ open_index bytes.now index.old) }
{
    host::gust_book_open(bytes, index)
}

#[unsafe(no_mangle)]
pub extern "C" fn gust_book_close(book: Book, bytes: &mut [u8], index: &mut [u64]) -> Book
    ensures { (result ≡ close_book book bytes.old index.old) × (bytes.new ≡ close_bytes book bytes.old index.old) × (index.new ≡ close_index book bytes.old index.old) }
{
    host::gust_book_close(book, bytes, index)
}
