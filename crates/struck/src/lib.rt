// What failures strike of a set of paths, by marks: its relays, or its links, are marked, and one pass over what has failed keeps the marks of those that are there. What has no such mark
// has not failed; the rest is looked for. One code for both: d is 0 for relays and 1 for links, from a relay to the one d places on. Inner functions of survivors.
#![tactic(auto)]

ghost use Rattle.std.specs.Prelude.{◌≡◌, ℕ, ◌+◌, ◌≤◌, ◌<◌, length};
ghost use Rattle.marks.specs.Marks.{words};
ghost use Rattle.marks.specs.Noted.{Noted};
ghost use Rattle.judge_rows.specs.Needs.{Held};
ghost use Rattle.struck.specs.Struck as specs;
ghost use Rattle.struck.specs.Struck.{thing, things, Kept, Hits, Struck};

// One number for two relays, the same in either order: of a relay and itself its own.
pub fn key(u: u64, v: u64) -> u64
    ensures { result ≡ specs.key u v }
{
    u | v
}

// Marks what path i has.
fn note_path(w: usize, places: &[u64], counts: &[u64], i: usize, d: usize, marks: &mut [u64])
    requires held { Held w (length places.now) counts.now i }
    requires d_bound { d ≤ 1 }
    requires noted { Noted (thing w places.now d) (things counts.now d) marks.old i 0 }
    ensures { Noted (thing w places.now d) (things counts.now d) marks.new (i + 1) 0 }
{
    let n = counts[i] as usize + 1 - d;
    for p in 0..n {
        let u = judge_rows::relay(w, places, i, p);
        let v = judge_rows::relay(w, places, i, p + d);
        marks::put(marks, key(u, v));
    }
}

// Marks what the first k paths have.
fn note(w: usize, places: &[u64], counts: &[u64], k: usize, d: usize, marks: &mut [u64])
    requires by_index { (j : ℕ) → j < k → Held w (length places.now) counts.now j }
    requires d_bound { d ≤ 1 }
    requires marks_len { length marks.old ≡ words }
    ensures { Noted (thing w places.now d) (things counts.now d) marks.new k 0 }
{
    for i in 0..k {
        note_path(w, places, counts, i, d, marks);
    }
}

// Marks x where the paths have it.
fn keep(paths: &[u64], hit: &mut [u64], x: u64)
    requires paths_len { length paths.now ≡ words }
    requires hit_len { length hit.old ≡ words }
    ensures { Kept paths.now x hit.old hit.new }
{
    if marks::marked(paths, x) {
        marks::put(hit, x);
    }
}

// Marks what of the list the paths have.
fn hits(list: &[u64], d: usize, paths: &[u64], hit: &mut [u64])
    requires paths_len { length paths.now ≡ words }
    requires hit_len { length hit.old ≡ words }
    ensures { Hits list.now d paths.now hit.new }
{
    for j in 0..list.len().saturating_sub(d) {
        keep(paths, hit, key(list[j], list[j + d]));
    }
}

// Marks what of the first k paths is listed as failed: relays that stand in the list, or links whose two relays stand there side by side.
pub fn struck(
    w: usize,
    places: &[u64],
    counts: &[u64],
    list: &[u64],
    k: usize,
    d: usize,
    hit: &mut [u64],
)
    requires by_index { (j : ℕ) → j < k → Held w (length places.now) counts.now j }
    requires d_bound { d ≤ 1 }
    requires hit_len { length hit.old ≡ words }
    ensures { (i : ℕ) → i < k → Struck hit.new w places.now counts.now list.now d i }
{
    if list.len() <= d {
        return;
    }
    let mut paths = [0u64; marks::WORDS];
    note(w, places, counts, k, d, &mut paths);
    hits(list, d, &paths, hit);
}
