// Runs of numbers searched, filled, and moved. Inner: called by other crates of the library, which meet the `requires`.
#![tactic(auto)]

ghost use Rattle.std.specs.Prelude.{◌≡◌, ◌+◌, ◌≤◌, length, replicate};
ghost use Rattle.std.proofs.lemmas.List.Edits.{sets};
ghost use Rattle.scan.specs.Runs.{Shifted};
ghost use Rattle.scan.specs.Scan as specs;

// Whether x stands in the list at one of the n places from i on. `among(&[4, 7, 9], 1, 2, 9)` is true.
pub fn among(list: &[u64], i: usize, n: usize, x: u64) -> bool
    requires { i + n ≤ length list.now }
    ensures { result ≡ specs.among list.now i n x }
{
    list[i..i + n].contains(&x)
}

// Puts x into the n places from `from` on.
pub fn fill(list: &mut [u64], from: usize, n: usize, x: u64)
    requires { from + n ≤ length list.old }
    ensures { list.new ≡ sets list.old from (replicate n x) }
{
    list[from..from + n].fill(x);
}

// Moves n numbers to the front, from `from` to `to`.
pub fn shift(places: &mut [u64], to: usize, from: usize, n: usize)
    requires { (to ≤ from) × (from + n ≤ length places.old) }
    ensures { Shifted to from n places.old places.new }
{
    places.copy_within(from..from + n, to);
}
