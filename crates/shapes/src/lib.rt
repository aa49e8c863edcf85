// What the routines give back to C: number, path and place as the specification tells them, and the values, which are 0 where something stands against the call.
#![tactic(auto)]

ghost use Rattle.std.specs.Prelude.{◌≡◌};
ghost use Rattle.scan.specs.Scan.{pick};
ghost use Rattle.answers.specs.Told.{answer_told, yes_no_told, against, tell};
ghost use Rattle.mesh.specs.Kinds.{kind_of};
ghost use Rattle.judge.specs.Says.{verdict_told};
ghost use Rattle.survivors.specs.Tally.{tally_told};
ghost use Rattle.sheet.specs.Says.{written_told, reading_told, head_told, version_told};
ghost use Rattle.arrivals.specs.Says.{arrival_of};
ghost use Rattle.shapes.specs.Shapes as specs;

use answers::{Reason, Refusal};
use arrivals::{Dropped, Record};
use judge::Fault;
use mesh::Mesh;
use requests::Facts;
use sheet::{Flaw, Head, Version, Versioned};

// One value: hops, a distance, 1 or 0 for yes or no, how many paths are planned or are whole, how many bytes were written.
#[repr(C)]
#[derive(Clone, Copy)]
pub struct GustAnswer {
    pub number: u64,
    pub path: u64,
    pub place: u64,
    pub value: u64,
}

// The facts of a size.
#[repr(C)]
#[derive(Clone, Copy)]
pub struct GustFacts {
    pub number: u64,
    pub path: u64,
    pub place: u64,
    pub relays: u64,
    pub links: u64,
    pub longest: u64,
    pub places: u64,
}

// What the judge says.
#[repr(C)]
#[derive(Clone, Copy)]
pub struct GustVerdict {
    pub number: u64,
    pub path: u64,
    pub place: u64,
}

// What a sheet tells: the mesh, the source and how many paths.
#[repr(C)]
#[derive(Clone, Copy)]
pub struct GustReading {
    pub number: u64,
    pub path: u64,
    pub place: u64,
    pub kind: u64,
    pub size: u64,
    pub source: u64,
    pub paths: u64,
}

// The same of a sheet of either version, and its version.
#[repr(C)]
#[derive(Clone, Copy)]
pub struct GustZonedReading {
    pub number: u64,
    pub path: u64,
    pub place: u64,
    pub kind: u64,
    pub size: u64,
    pub source: u64,
    pub paths: u64,
    pub version: u64,
}

// What becomes of a number that arrives, and the record to keep: 16 bytes, so that they come back in registers.
#[repr(C)]
#[derive(Clone, Copy)]
pub struct GustArrival {
    pub number: u16,
    pub newest: u16,
    pub marks: u64,
}

// 1 for yes, 0 for no.
fn flag(b: bool) -> u64
    ensures { result ≡ pick b 1 0 }
{
    u64::from(b)
}

// Number, path and place of what stands against a call, whatever that can be, and the value, which is 0 then.
fn of<R: Reason>(answer: Result<u64, R>) -> GustAnswer
    ensures { result ≡ specs.told_in R.number_told R.path_told R.place_told answer }
{
    GustAnswer {
        number: answers::number(answer),
        path: answers::path(answer) as u64,
        place: answers::place(answer) as u64,
        value: answer.unwrap_or(0),
    }
}

// The same where there is no value.
pub fn of_reason<R: Reason>(checked: Result<(), R>) -> GustVerdict
    ensures { result ≡ specs.reason_in R.number_told R.path_told R.place_told checked }
{
    GustVerdict {
        number: answers::number(checked),
        path: answers::path(checked) as u64,
        place: answers::place(checked) as u64,
    }
}

pub fn of_facts(mesh: Mesh) -> GustFacts
    ensures { result ≡ specs.facts_in (kind_of mesh.kind) mesh.size }
{
    let relays = mesh.relays();
    GustFacts {
        number: answers::number(relays),
        path: 0,
        place: answers::place(relays) as u64,
        relays: answers::value(relays),
        links: answers::value(mesh.links()),
        longest: answers::value(mesh.longest()),
        places: answers::value(mesh.places()),
    }
}

pub fn of_answer(a: Result<u64, Refusal>) -> GustAnswer
    ensures { result ≡ specs.answer_in (answer_told a) }
{
    of(a)
}

pub fn of_yes_no(a: Result<bool, Refusal>) -> GustAnswer
    ensures { result ≡ specs.yes_no_in (yes_no_told a) }
{
    of(a.map(flag))
}

// What a planner says, with how many paths it was asked for.
pub fn of_checked(c: Result<(), Refusal>, paths: u64) -> GustAnswer
    ensures { result ≡ specs.answer_in (tell (against c) 0 paths) }
{
    of(c.map(|()| paths))
}

pub fn of_verdict(v: Result<(), Fault>) -> GustVerdict
    ensures { result ≡ specs.verdict_in (verdict_told v) }
{
    of_reason(v)
}

pub fn of_tally(t: Result<u64, Fault>) -> GustAnswer
    ensures { result ≡ specs.tally_in (tally_told t) }
{
    of(t)
}

pub fn of_written(w: Result<usize, Flaw>) -> GustAnswer
    ensures { result ≡ specs.written_in (written_told w) }
{
    of(w.map(|bytes| bytes as u64))
}

pub fn of_reading(read: Result<Head, Flaw>) -> GustReading
    ensures { result ≡ specs.reading_in (reading_told read) }
{
    let head = sheet::told(read);
    GustReading {
        number: answers::number(read),
        path: answers::path(read) as u64,
        place: answers::place(read) as u64,
        kind: head.mesh.kind,
        size: head.mesh.size,
        source: head.source,
        paths: head.paths as u64,
    }
}

pub fn of_versioned(read: Result<Versioned<Version>, Flaw>) -> GustZonedReading
    ensures { result ≡ specs.versioned_in (version_told read) (reading_told (head_told read)) }
{
    let told = of_reading(read.map(|sheet| sheet.head));
    GustZonedReading {
        number: told.number,
        path: told.path,
        place: told.place,
        kind: told.kind,
        size: told.size,
        source: told.source,
        paths: told.paths,
        version: sheet::version_told(read),
    }
}

pub fn of_arrival(was: Record, arrived: Result<Record, Dropped>) -> GustArrival
    ensures { result ≡ specs.arrival_in (arrival_of was arrived) }
{
    let number = answers::number(arrived) as u16;
    let kept = arrivals::kept(was, arrived);
    GustArrival {
        number,
        newest: kept.newest,
        marks: kept.marks,
    }
}
