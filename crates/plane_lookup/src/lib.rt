// The lookup of an identifier in a plane, for any bytes as either: the post's call. Its definition is plane/specs/Lookup.antt.
#![tactic(auto)]

ghost use Rattle.std.specs.Prelude.{◌≡◌, ◌≤◌, ◌<◌, length, get_or};
ghost use Rattle.lists.specs.Entries.{find};
ghost use Rattle.gf2.specs.Vectors.{product};
ghost use Rattle.identifier.specs.Identifier.{token};
ghost use Rattle.plane.specs.Record.{format1, bucket_length, bucket_from};
ghost use Rattle.plane.specs.Plane.{wrong_at, plane_from};
ghost use Rattle.plane.specs.Right.{buckets_read, entries_read};
ghost use Rattle.table.specs.Calls.{solutions};
ghost use Rattle.plane.specs.Lookup.{or_desk, level_plan, second_plan, plan_from, looked, lookup_call};

use answer::{Answer, Cause};
use bucket::Bucket;
use identifier::Identifier;
use plane::{Plane, Record};
use table_layout::Table;

// Solution word i of the bucket in front.
pub(crate) fn solution(p: &[u8], i: usize) -> u64
    requires { i < solutions }
    ensures { result ≡ get_or (bucket_from format1 p.now).sols i 0 }
{
    codec::get_u64(p, Record::SOLUTIONS_AT + i * Record::WORD_LEN)
}

// The plan that the bucket in front gives for the vector v.
pub(crate) fn bucket_plan(p: &[u8], v: u64) -> u64
    ensures { result ≡ product (bucket_from format1 p.now).sols v }
{
    let mut plan: u64 = 0;
    for i in (0..Bucket::SOLUTIONS).rev() {
        plan = bucket::dot(v, solution(p, i)) + 2 * plan;
    }
    plan
}

// The plan of the word v among the base entries, or the desk's.
pub(crate) fn base_plan(entries: &[u8], v: u64) -> u64
    ensures { result ≡ or_desk (find v (entries_read entries.now)) }
{
    for e in entries.chunks_exact(Record::ENTRY_LEN) {
        if plane::entry_word(e) == v {
            return u64::from(e[Record::PLAN_AT]);
        }
    }
    Table::DESK_PLAN
}

// The plan that a level gives for the vector v, if it holds v.
pub(crate) fn level_plan(level: &[u8], v: u64) -> Option<u64>
    requires { bucket_length format1 ≤ length level.now }
    ensures { result ≡ level_plan (buckets_read level.now) v }
{
    let m = level.len() / Record::BUCKET_LEN;
    let at = identifier::bucket(v, m as u64) as usize * Record::BUCKET_LEN;
    let b = &level[at..at + Record::BUCKET_LEN];
    if identifier::threshold(v) < u64::from(b[Record::BOUND_AT]) {
        Some(bucket_plan(b, v))
    } else {
        None
    }
}

// The plan of the vector v of level 2.
pub(crate) fn second_plan(plane: &Plane, v: u64) -> u64
    ensures { result ≡ second_plan (plane_from format1 plane.now.bytes.now) v }
{
    match level_plan(plane.level_2(), v) {
        Some(plan) => plan,
        None => base_plan(plane.base(), v),
    }
}

// The plan of the word w.
pub(crate) fn plan_in(plane: &Plane, w: u64) -> u64
    ensures { result ≡ plan_from (plane_from format1 plane.now.bytes.now) w }
{
    match level_plan(plane.level_1(), w) {
        Some(plan) => plan,
        None => second_plan(plane, identifier::second(w)),
    }
}

// The lookup from the word on.
pub(crate) fn lookup_word(w: u64, plane: &[u8]) -> Answer
    ensures { result ≡ looked plane.now w (wrong_at format1 plane.now) }
{
    match Plane::read(plane) {
        Err(at) => Err(Cause::WrongPlane(at as u64)),
        Ok(plane) => Ok(plan_in(&plane, w)),
    }
}

// The plan that the plane gives for the identifier: causes 15, 1, 2, 10.
pub fn lookup(kind: u8, id: &[u8], plane: &[u8]) -> Answer
    ensures { result ≡ lookup_call (token kind id.now) plane.now }
{
    let word = Identifier::read(kind, id.len(), id)?;
    lookup_word(word, plane)
}
