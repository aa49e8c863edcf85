// The links of a mesh marked one by one: bit i of a relay's mark is its link i, where that leads higher. Inner: callers meet each `requires`.
#![tactic(auto)]

ghost use Rattle.std.specs.Prelude.{◌≡◌, Bool, true, false, ◌<◌, length};
ghost use Rattle.scan.specs.Scan.{any};
ghost use Rattle.dimacs_size.specs.Sizes.{Rows};
ghost use Rattle.dimacs.specs.Needs.{Rowed, Linking};
ghost use Rattle.dimacs_marks.specs.Marks as marks;

use mesh::Mesh;

// Which link of a relay leads to another.
fn link_to(mesh: Mesh, links: u64, u: u64, v: u64) -> Option<u64>
    requires { Rowed mesh.kind mesh.size links u }
    ensures { marks.Leads mesh.kind mesh.size links u v result }
{
    for i in 0..links {
        if mesh::near(mesh, u, i) == v {
            return Some(i);
        }
    }
    None
}

// Marks link i of a relay, if it is not marked yet.
fn put(u: usize, i: u32, seen: &mut [u16]) -> bool
    requires { (u < length seen.old) × (i < 16) }
    ensures { marks.Put seen.old u i result seen.new }
{
    let mark = u64::from(seen[u]);
    if bits::bit(mark, i) {
        return false;
    }
    seen[u] = bits::flip(mark, i) as u16;
    true
}

// Marks the link of two relays as a file numbers them, the lower first. Says whether it is a link, and was not marked.
fn mark_up(mesh: Mesh, relays: u64, links: u64, a: u64, b: u64, seen: &mut [u16]) -> bool
    requires rows { Rows mesh.kind mesh.size relays links }
    requires seen_len { (length seen.old ≡ 2048) × (a < b) }
    ensures { marks.Marks mesh.kind mesh.size a b seen.old result seen.new }
{
    if a == 0 || relays < b {
        return false;
    }
    let Some(i) = link_to(mesh, links, a - 1, b - 1) else {
        return false;
    };
    put((a - 1) as usize, i as u32, seen)
}

// The same in either order.
pub fn mark(mesh: Mesh, relays: u64, links: u64, a: u64, b: u64, seen: &mut [u16]) -> bool
    requires rows { Rows mesh.kind mesh.size relays links }
    requires seen_len { length seen.old ≡ 2048 }
    ensures { marks.Marks mesh.kind mesh.size a b seen.old result seen.new }
{
    if a < b {
        return mark_up(mesh, relays, links, a, b, seen);
    }
    if b < a {
        return mark_up(mesh, relays, links, b, a, seen);
    }
    false
}

// Whether link i of a relay leads higher, and is not marked.
fn lacking(mesh: Mesh, u: u64, i: u64, mark: u64) -> bool
    requires { Linking mesh.kind mesh.size u i }
    ensures { result ≡ marks.lacks mesh.kind mesh.size u mark i }
{
    u < mesh::near(mesh, u, i) && !bits::bit(mark, i as u32)
}

// Whether a link of a relay is lacking.
fn any_link(mesh: Mesh, links: u64, u: u64, mark: u64) -> bool
    requires { Rowed mesh.kind mesh.size links u }
    ensures { result ≡ any (marks.lacks mesh.kind mesh.size u mark) 0 links }
{
    for i in 0..links {
        if lacking(mesh, u, i, mark) {
            return true;
        }
    }
    false
}

// Whether a link of the mesh is lacking.
pub fn any_lacking(mesh: Mesh, relays: u64, links: u64, seen: &[u16]) -> bool
    requires rows { Rows mesh.kind mesh.size relays links }
    requires seen_len { length seen.now ≡ 2048 }
    ensures { result ≡ any (marks.lacks_any mesh.kind mesh.size links seen.now) 0 relays }
{
    for u in 0..relays {
        if any_link(mesh, links, u, u64::from(seen[u as usize])) {
            return true;
        }
    }
    false
}
