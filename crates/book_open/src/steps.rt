// One piece of a book, and its place put into the index.
ghost use Rattle.std.specs.Prelude.{◌≡◌, ◌<◌, ◌≤◌, length, take, MatchOption};
ghost use Rattle.std.proofs.lemmas.List.Edits.{sets};
ghost use Rattle.book.specs.Open as specs;
ghost use Rattle.book_open.specs.Needs.{Enterable, Kept, fine};

use book::NotEntered;

// Whether the first n bytes are a sheet of either version.
fn accepted(rest: &[u8], n: usize) -> bool
    requires { n ≤ length rest.now }
    ensures { result ≡ fine (take n rest.now) }
{
    sheet_check::check_either(&rest[..n]).is_ok()
}

// The length of the piece that the bytes begin with, which stand at the place `at`.
pub fn piece(rest: &[u8], at: usize) -> Option<usize>
    requires { at ≤ 65536 }
    ensures { MatchOption result (specs.piece_length at rest.now ≡ 0) (λ n. (n ≡ specs.piece_length at rest.now) × (0 < n)) }
{
    let room = rest.len();
    if room < 16 {
        return None;
    }
    let n = 4 + octets::number(rest, 0, 4) as usize;
    if n < 16 {
        return None;
    }
    if room < n {
        return None;
    }
    if 65536 < at + n {
        return None;
    }
    if rest[4] == 0 {
        return Some(n);
    }
    if accepted(rest, n) { Some(n) } else { None }
}

// Puts the place of the piece that the bytes begin with into the first n places of the room, where it is live. A function of its own, so that the loop over removed pieces is short.
#[inline(never)]
pub fn enter(
    rest: &[u8],
    at: usize,
    places: usize,
    n: usize,
    room: &mut [u64],
) -> Result<usize, NotEntered>
    requires { Enterable rest.now at places n room.old }
    ensures { Kept rest.now at places n room.old result room.new }
{
    if rest[4] == 0 {
        return Ok(n);
    }
    let k = book_keys::key(
        u64::from(rest[5]),
        u64::from(rest[6]),
        octets::number_eight(rest, 8),
    );
    let i = book_parts::place(room, n, k * 65536);
    if book_keys::there(room, n, i, k) {
        return Err(NotEntered::Again);
    }
    if places <= n {
        return Err(NotEntered::Full);
    }
    book_parts::insert(room, i, n, k * 65536 + at as u64);
    Ok(n + 1)
}

// The first n places of the room, put into the index.
pub fn keep(room: &[u64], n: usize, index: &mut [u64])
    requires { (n ≤ length room.now) × (n ≤ length index.old) }
    ensures { index.new ≡ sets index.old 0 (take n room.now) }
{
    index[..n].copy_from_slice(&room[..n]);
}
