// Kinds, sizes and sources as keys, and a key looked up in a book. Inner: callers meet each `requires`.
#![tactic(auto)]

ghost use Rattle.std.specs.Prelude.{◌≡◌, false, ◌<◌, ◌≤◌, ltb, eqb, length, get_or};
ghost use Rattle.scan.specs.Scan.{pick};
ghost use Rattle.book.specs.Ordered.{key_of};
ghost use Rattle.book.specs.Pieces as pieces;
ghost use Rattle.book.specs.Sheets.{Keyed};
ghost use Rattle.book.specs.Says as says;

use book::{Book, Found, Sought};

// Whether a sheet can have this kind, size and source.
fn is_key(kind: u64, size: u64, source: u64) -> bool
    ensures { result ≡ says.is_key kind size source }
{
    kind != 0 && kind <= 2 && size <= 255 && source < 137438953472
}

// The three as one number, in order as they are: 16 bits are left for a start.
pub fn key(kind: u64, size: u64, source: u64) -> u64
    requires { Keyed kind size source }
    ensures { result ≡ pieces.key kind size source }
{
    (kind * 256 + size) * 137438953472 + source
}

// How many places of the index are looked at.
pub fn count(book: Book, index: &[u64]) -> usize
    ensures { result ≡ says.count book index.now }
{
    book.entries.min(index.len().min(256))
}

// Whether place i, of n that are looked at, is that of a key.
pub fn there(index: &[u64], n: usize, i: usize, key: u64) -> bool
    requires { n ≤ length index.now }
    ensures { result ≡ pick (ltb i n) (eqb (key_of (get_or index.now i 0)) key) false }
{
    i < n && index[i] / 65536 == key
}

// The sheet from `start` on, where the bytes hold it whole.
fn held_at(bytes: &[u8], place: usize, start: usize) -> Option<Sought>
    requires { start < 65536 }
    ensures { result ≡ says.held_at bytes.now place start }
{
    let room = bytes.len();
    if room < start + 16 {
        return None;
    }
    let length = 4 + octets::number(bytes, start, 4) as usize;
    if room < start + length {
        return None;
    }
    let found = Found { start, length };
    Some(Sought { place, found })
}

// The sheet of a kind, a size and a source, with its place in the index.
pub fn sought(
    book: Book,
    bytes: &[u8],
    index: &[u64],
    kind: u64,
    size: u64,
    source: u64,
) -> Option<Sought>
    ensures { result ≡ says.seeks book bytes.now index.now kind size source }
{
    if !is_key(kind, size, source) {
        return None;
    }
    let k = key(kind, size, source);
    let n = count(book, index);
    let i = book_parts::place(index, n, k * 65536);
    if !there(index, n, i, k) {
        return None;
    }
    held_at(bytes, i, (index[i] % 65536) as usize)
}
