// A book closed up: its live sheets move down in their order, over those that were removed, and the index follows.
#![tactic(auto)]

ghost use Rattle.std.specs.Prelude.{◌≡◌, map, ◌+◌, ◌-◌, ◌≤◌, min, length, take, drop};
ghost use Rattle.std.proofs.lemmas.List.Edits.{sets};
ghost use Rattle.scan.specs.Scan.{pick};
ghost use Rattle.book.specs.Pieces as pieces;
ghost use Rattle.book.specs.Closed.{kept, slid};
ghost use Rattle.book.specs.Says.{close_book, close_bytes, close_index};

use book::Book;

// Whether the piece from `at` on is live.
fn live(bytes: &[u8], at: usize) -> bool
    requires { at + 16 ≤ length bytes.now }
    ensures { result ≡ pieces.live (drop at bytes.now) }
{
    bytes[at + 4] != 0
}

// How long it is, in bytes of which the last is before `end`.
fn piece(bytes: &[u8], at: usize, end: usize) -> usize
    requires { (at + 16 ≤ end) × (end ≤ length bytes.now) }
    ensures { result ≡ min (end - at) (pieces.length_of (drop at bytes.now)) }
{
    (end - at).min(4 + octets::number(bytes, at, 4) as usize)
}

// How many of its n bytes are kept: all, or none.
fn staying(bytes: &[u8], at: usize, n: usize) -> usize
    requires { at + 16 ≤ length bytes.now }
    ensures { result ≡ pick (pieces.live (drop at bytes.now)) n 0 }
{
    if live(bytes, at) { n } else { 0 }
}

// How many of the first bytes are those of live pieces.
pub fn live_bytes(bytes: &[u8], end: usize) -> usize
    requires { end ≤ length bytes.now }
    ensures { result ≡ length (kept (take end bytes.now)) }
{
    let mut at: usize = 0;
    let mut sum: usize = 0;
    while 16 <= end - at {
        let n = piece(bytes, at, end);
        sum += staying(bytes, at, n);
        at += n;
    }
    sum
}

// Moves the live pieces of the first bytes down to the front; gives how long they are.
fn close_bytes(bytes: &mut [u8], end: usize) -> usize
    requires { end ≤ length bytes.old }
    ensures value { result ≡ length (kept (take end bytes.old)) }
    ensures bytes_after { bytes.new ≡ sets bytes.old 0 (kept (take end bytes.old)) }
{
    let mut at: usize = 0;
    let mut to: usize = 0;
    while 16 <= end - at {
        let n = piece(bytes, at, end);
        let m = staying(bytes, at, n);
        bytes.copy_within(at..at + m, to);
        to += m;
        at += n;
    }
    to
}

// The place of the index that x becomes.
fn moved(bytes: &[u8], end: usize, x: u64) -> u64
    requires { end ≤ length bytes.now }
    ensures { result ≡ slid (take end bytes.now) x }
{
    let start = ((x % 65536) as usize).min(end);
    x / 65536 * 65536 + live_bytes(bytes, start) as u64
}

// The first n places of the index become those of the bytes when they are closed up.
fn close_index(bytes: &[u8], end: usize, index: &mut [u64], n: usize)
    requires { (end ≤ length bytes.now) × (n ≤ length index.old) }
    ensures { index.new ≡ sets index.old 0 (map (slid (take end bytes.now)) (take n index.old)) }
{
    for i in 0..n {
        index[i] = moved(bytes, end, index[i]);
    }
}

// Closes a book up, and gives the head afterwards: live sheets move down in their order, their bytes unchanged, and bytes from the new end on stay as they were. Every sheet is found
// that was found before. It refuses nothing.
pub fn close(book: Book, bytes: &mut [u8], index: &mut [u64]) -> Book
    ensures { (result ≡ close_book book bytes.old index.old) × (bytes.new ≡ close_bytes book bytes.old index.old) × (index.new ≡ close_index book bytes.old index.old) }
{
    let n = book_keys::count(book, index);
    let end = book.used.min(bytes.len().min(65536));
    close_index(bytes, end, index, n);
    let used = close_bytes(bytes, end);
    Book { used, entries: n }
}
