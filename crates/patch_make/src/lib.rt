// Making a patch from one plane to another; document 02, order 1.
// Definitions: those of patch (specs/Calls.antt, `make_call`); specs/Steps.antt is for the inner steps alone, specs/After.antt for the
// statements. proofs/Costs.antt: what a changed plan costs, for any sound table and after any list of calls; proofs/Lists.antt: patches between
// the planes of one opening.
#![tactic(auto)]

ghost use Rattle.std.specs.Prelude.{◌≡◌, true, ◌+◌, ◌*◌, ◌≤◌, length};
ghost use Rattle.codec.specs.Parts.{written};
ghost use Rattle.lists.specs.Entries.{Ascending};
ghost use Rattle.model.specs.Model.{base_limit};
ghost use Rattle.plane.specs.Record.{format1, bytes_of, bucket_body};
ghost use Rattle.plane.specs.Plane.{plane_from, bucket_count};
ghost use Rattle.plane_write.specs.Write.{Writes};
ghost use Rattle.patch.specs.Base.{gone_of, news_of};
ghost use Rattle.patch.specs.Record.{sums_record, change_length, change_record, gone_length, gone_record, new_length, new_record};
ghost use Rattle.patch.specs.Patch.{patch_bytes, patch_of, changes_of, buckets_of};
ghost use Rattle.patch.specs.Wrong.{changes_at};
ghost use Rattle.patch.specs.Calls.{alike, make_call};
ghost use Rattle.patch_make.specs.Steps.{change_part, base_records, made_right, made_from};

use answer::{Answer, Cause};
use patch::{BaseList, Entry, Patch};
use plane::{Plane, Record};

// Writes the record of bucket i, whose bytes are b, at the offset at, unless those in the old plane, a, are the same. Returns where it ends.
pub(crate) fn put_change(out: &mut [u8], at: usize, i: u8, a: &[u8], b: &[u8]) -> usize
    requires { (length b.now ≡ bucket_body format1) × (at + change_length format1 ≤ length out.old) }
    ensures { (result ≡ at + length (change_part format1 i a.now b.now)) × (out.new ≡ written at (change_part format1 i a.now b.now) out.old) }
{
    if codec::same(a, b) {
        return at;
    }
    out[at] = Patch::CHANGE;
    out[at + Patch::INDEX_AT] = i;
    codec::put_bytes(out, at + Patch::BUCKET_AT, b);
    at + Patch::CHANGE_LEN
}

// Writes a record for each bucket that differs between two planes of equal bucket numbers, from the offset first on. Returns where they end.
pub(crate) fn put_changes(out: &mut [u8], first: usize, old: &Plane, new: &Plane) -> usize
    requires { (alike old.now.bytes.now new.now.bytes.now ≡ true) × (first + bucket_count old.now.bytes.now * change_length format1 ≤ length out.old) }
    ensures { (result ≡ first + length (bytes_of (change_record format1) (changes_of 0 (buckets_of (plane_from format1 old.now.bytes.now)) (buckets_of (plane_from format1 new.now.bytes.now))))) × (out.new ≡ written first (bytes_of (change_record format1) (changes_of 0 (buckets_of (plane_from format1 old.now.bytes.now)) (buckets_of (plane_from format1 new.now.bytes.now)))) out.old) }
{
    let mut at = first;
    for i in 0..old.buckets() {
        let from = Record::BUCKETS_AT + i * Record::BUCKET_LEN + 1;
        let to = from + Record::BUCKET_BODY;
        at = put_change(out, at, i as u8, &old.bytes[from..to], &new.bytes[from..to]);
    }
    at
}

// Writes a record for each word of the base list `old` that `new` lacks, from the offset first on. Returns where they end.
// Beside `put_news`: which entries are sent, and what of each, differ, so that one function for both would take two closures.
pub(crate) fn put_gone(out: &mut [u8], first: usize, old: &[Entry], new: &[Entry]) -> usize
    requires { Ascending old.now × Ascending new.now × (first + length old.now * gone_length ≤ length out.old) }
    ensures { (result ≡ first + length (bytes_of gone_record (gone_of old.now new.now))) × (out.new ≡ written first (bytes_of gone_record (gone_of old.now new.now)) out.old) }
{
    let mut at = first;
    let mut left = new;
    for e in old {
        let place = patch::seek(left, e.word);
        if place.plan.is_none() {
            out[at] = Patch::GONE;
            codec::put_u64(out, at + 1, e.word);
            at += Patch::GONE_LEN;
        }
        left = place.above;
    }
    at
}

// Writes a record for each entry of the base list `new` that `old` lacks, from the offset first on. Returns where they end.
pub(crate) fn put_news(out: &mut [u8], first: usize, old: &[Entry], new: &[Entry]) -> usize
    requires { Ascending old.now × Ascending new.now × (first + length new.now * new_length ≤ length out.old) }
    ensures { (result ≡ first + length (bytes_of new_record (news_of old.now new.now))) × (out.new ≡ written first (bytes_of new_record (news_of old.now new.now)) out.old) }
{
    let mut at = first;
    let mut left = old;
    for e in new {
        let place = patch::seek(left, e.word);
        if place.plan != Some(e.plan) {
            e.put(out, at, Patch::NEW);
            at += Patch::NEW_LEN;
        }
        left = place.above;
    }
    at
}

// Writes the record of the two sums in front.
pub(crate) fn put_sums(out: &mut [u8], old: u64, new: u64)
    requires { changes_at ≤ length out.old }
    ensures { out.new ≡ written 0 (sums_record old new) out.old }
{
    out[0] = Patch::SUMS;
    codec::put_u64(out, Patch::OLD_SUM_AT, old);
    codec::put_u64(out, Patch::NEW_SUM_AT, new);
}

// Writes the records of the base lists of two planes, from the offset first on. Returns where they end.
pub(crate) fn put_base(out: &mut [u8], first: usize, old: &Plane, new: &Plane) -> usize
    requires { first + base_limit * (gone_length + new_length) ≤ length out.old }
    ensures { (result ≡ first + length (base_records (plane_from format1 old.now.bytes.now).base (plane_from format1 new.now.bytes.now).base)) × (out.new ≡ written first (base_records (plane_from format1 old.now.bytes.now).base (plane_from format1 new.now.bytes.now).base) out.old) }
{
    let mut before = BaseList::new();
    let mut after = BaseList::new();
    patch::load_base(old, &mut before);
    patch::load_base(new, &mut after);
    let news_at = put_gone(out, first, before.entries(), after.entries());
    put_news(out, news_at, before.entries(), after.entries())
}

// The patch from one plane to another of equal bucket numbers, to the front of the output, which has room for the longest. Returns its length.
pub(crate) fn build(old: &Plane, new: &Plane, out: &mut [u8]) -> usize
    requires value { alike old.now.bytes.now new.now.bytes.now ≡ true }
    requires room { Patch.LONGEST ≤ length out.old }
    ensures { (result ≡ length (patch_bytes format1 (patch_of format1 old.now.bytes.now new.now.bytes.now))) × (out.new ≡ written 0 (patch_bytes format1 (patch_of format1 old.now.bytes.now new.now.bytes.now)) out.old) }
{
    put_sums(out, hash::fnv(old.bytes), hash::fnv(new.bytes));
    let base_at = put_changes(out, Patch::CHANGES_AT, old, new);
    let end_at = put_base(out, base_at, old, new);
    plane_write::put_end(out, end_at);
    end_at + Record::END_LEN
}

// From two planes on: causes 11 and 9.
pub(crate) fn make_right(old: &Plane, new: &Plane, out: &mut [u8]) -> Answer
    ensures { Writes (made_right format1 old.now.bytes.now new.now.bytes.now out.old) result out.new }
{
    if old.bytes[Record::BUCKETS_1_AT] != new.bytes[Record::BUCKETS_1_AT] {
        return Err(Cause::UnlikePlanes);
    }
    if old.bytes[Record::BUCKETS_2_AT] != new.bytes[Record::BUCKETS_2_AT] {
        return Err(Cause::UnlikePlanes);
    }
    let mut made = [0u8; Patch::LONGEST];
    let len = build(old, new, &mut made);
    patch::put_front(&made[..len], out)
}

// The new plane is looked at after the old one: causes 10, 11, 9.
pub(crate) fn make_from(old: &Plane, new: &[u8], out: &mut [u8]) -> Answer
    ensures { Writes (made_from format1 old.now.bytes.now new.now out.old) result out.new }
{
    match Plane::read(new) {
        Err(at) => Err(Cause::WrongPlane(at as u64)),
        Ok(new) => make_right(old, &new, out),
    }
}

// Makes the patch from one plane to another, to the front of the output: causes 10 (old), 10 (new), 11, 9. Nothing is written where it is turned down.
pub fn make(old: &[u8], new: &[u8], out: &mut [u8]) -> Answer
    ensures { Writes (make_call old.now new.now out.old) result out.new }
{
    match Plane::read(old) {
        Err(at) => Err(Cause::WrongPlane(at as u64)),
        Ok(old) => make_from(&old, new, out),
    }
}
