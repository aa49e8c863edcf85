// What the routines of a book do to the slices lent to them: the index searched, a place put into it and taken out of it, a sheet copied. Inner: callers meet each
// `requires`.
#![tactic(auto)]

ghost use Rattle.std.specs.Prelude.{◌≡◌, ◌+◌, ◌≤◌, ◌<◌, length};
ghost use Rattle.std.proofs.lemmas.List.Edits.{sets};
ghost use Rattle.book_parts.specs.Place as search;
ghost use Rattle.book_parts.specs.Moved.{opened, closed};

// How many of the first n numbers are below x, where they ascend: by halves.
// Stays: std's `partition_point` says nothing of numbers that do not ascend, and what is told of a book is told of any index that is lent (`place` in the specs).
pub fn place(index: &[u64], n: usize, x: u64) -> usize
    requires { n ≤ length index.now }
    ensures { result ≡ search.place index.now 0 n x }
{
    let mut from: usize = 0;
    let mut left = n;
    while 0 < left {
        let half = left / 2;
        if index[from + half] < x {
            from = from + half + 1;
            left = left - half - 1;
        } else {
            left = half;
        }
    }
    from
}

// Puts x at place i of the first n; those from i on move up by one.
pub fn insert(index: &mut [u64], i: usize, n: usize, x: u64)
    requires { (i ≤ n) × (n < length index.old) }
    ensures { index.new ≡ opened index.old i n x }
{
    index.copy_within(i..n, i + 1);
    index[i] = x;
}

// Takes place i out of the first n; those after it move down by one, and the last place stays as it was.
pub fn take_out(index: &mut [u64], i: usize, n: usize)
    requires { (i < n) × (n ≤ length index.old) }
    ensures { index.new ≡ closed index.old i n }
{
    index.copy_within(i + 1..n, i);
}

// Copies the bytes to the place `at` and those after it.
pub fn copy(bytes: &[u8], at: usize, out: &mut [u8])
    requires { at + length bytes.now ≤ length out.old }
    ensures { out.new ≡ sets out.old at bytes.now }
{
    for q in 0..bytes.len() {
        out[at + q] = bytes[q];
    }
}
