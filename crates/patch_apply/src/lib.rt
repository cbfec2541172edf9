// Applying a patch to a plane: the new plane, the sums, and the call; document 02, order 1.
// Definitions: those of patch (specs/Calls.antt, `apply_call`); specs/Steps.antt is for the inner steps alone. Nothing is written to the output before all is decided.
#![tactic(auto)]

ghost use Rattle.std.specs.Prelude.{◌≡◌, ◌+◌, ◌*◌, ◌≤◌, length, drop};
ghost use Rattle.codec.specs.Parts.{written};
ghost use Rattle.plane.specs.Record.{format1, bytes_of, read_all, entry_length, entry_record};
ghost use Rattle.plane.specs.Plane.{plane_from};
ghost use Rattle.plane_write.specs.Write.{Writes};
ghost use Rattle.patch.specs.Record.{change_length, change_from};
ghost use Rattle.patch.specs.Patch.{patched};
ghost use Rattle.patch.specs.Wrong.{changes_at, patch_from, patch_wrong_at};
ghost use Rattle.patch.specs.Calls.{applied, apply_call};
ghost use Rattle.patch_apply.specs.Steps.{changed, applied_right, summed};

use answer::{Answer, Cause};
use patch::{Entry, Patch};
use plane::{Plane, Record};

// Writes the buckets of the first k changes over those of the plane in front of `new`.
pub(crate) fn put_changes(d: &[u8], k: usize, new: &mut [u8])
    requires { changes_at + k * change_length format1 ≤ length d.now }
    ensures { new.new ≡ changed format1 (read_all (change_length format1) (change_from format1) k (drop changes_at d.now)) new.old }
{
    for i in 0..k {
        let at = Patch::CHANGES_AT + i * Patch::CHANGE_LEN;
        let c = &d[at..at + Patch::CHANGE_LEN];
        let index = c[Patch::INDEX_AT] as usize;
        codec::put_bytes(
            new,
            Record::BUCKETS_AT + index * Record::BUCKET_LEN + 1,
            &c[Patch::BUCKET_AT..],
        );
    }
}

// Writes the records of the entries of a base list, from the offset at on.
pub(crate) fn put_entries(out: &mut [u8], at: usize, base: &[Entry])
    requires { at + length base.now * entry_length ≤ length out.old }
    ensures { out.new ≡ written at (bytes_of entry_record base.now) out.old }
{
    for (i, e) in base.iter().enumerate() {
        e.put(out, at + i * Record::ENTRY_LEN, Record::ENTRY);
    }
}

// The new plane, whose base list is given, to the front of `new`. Returns its length.
pub(crate) fn build(plane: &Plane, d: &[u8], base: &[Entry], new: &mut [u8]) -> usize
    requires plane_value { (patch_wrong_at format1 (plane_from format1 plane.now.bytes.now) d.now ≡ Ok tt) × (base.now ≡ (patched (plane_from format1 plane.now.bytes.now) (patch_from format1 d.now)).base) }
    requires room { Patch.LONGEST_PLANE ≤ length new.old }
    ensures { (result ≡ length (applied format1 plane.now.bytes.now d.now)) × (new.new ≡ written 0 (applied format1 plane.now.bytes.now d.now) new.old) }
{
    let buckets1 = plane.bytes[Record::BUCKETS_1_AT];
    let buckets2 = plane.bytes[Record::BUCKETS_2_AT];
    let entries_at = plane.base_at();
    let end_at = entries_at + base.len() * Record::ENTRY_LEN;
    let changes = patch::run(d, Patch::CHANGES_AT, Patch::CHANGE, Patch::CHANGE_LEN);
    codec::put_bytes(new, 0, &plane.bytes[..entries_at]);
    put_changes(d, changes, new);
    plane_write::put_header(new, buckets1 as u64, buckets2 as u64, base.len() as u64);
    put_entries(new, entries_at, base);
    plane_write::put_end(new, end_at);
    end_at + Record::END_LEN
}

// The bytes to the front of the output, if `sum` is their sum: causes 13 and 9.
pub(crate) fn put_summed(bytes: &[u8], sum: u64, out: &mut [u8]) -> Answer
    ensures { Writes (summed sum bytes.now out.old) result out.new }
{
    if sum != hash::fnv(bytes) {
        return Err(Cause::WrongSum);
    }
    patch::put_front(bytes, out)
}

// The new plane of a patch that is right, whose base list is given, to the front of the output: causes 13 and 9. Not inlined: its arrays lie in its frame alone.
#[inline(never)]
pub(crate) fn apply_right(plane: &Plane, d: &[u8], base: &[Entry], out: &mut [u8]) -> Answer
    requires { (patch_wrong_at format1 (plane_from format1 plane.now.bytes.now) d.now ≡ Ok tt) × (base.now ≡ (patched (plane_from format1 plane.now.bytes.now) (patch_from format1 d.now)).base) }
    ensures { Writes (applied_right format1 plane.now.bytes.now d.now out.old) result out.new }
{
    if codec::get_u64(d, Patch::OLD_SUM_AT) != hash::fnv(plane.bytes) {
        return Err(Cause::WrongSum);
    }
    let mut new = [0u8; Patch::LONGEST_PLANE];
    let len = build(plane, d, base, &mut new);
    let sum = codec::get_u64(d, Patch::NEW_SUM_AT);
    put_summed(&new[..len], sum, out)
}

// Applies the patch d to a plane, to the front of the output: causes 10, 12, 13, 9. Nothing is written where it is turned down.
pub fn apply(plane: &[u8], d: &[u8], out: &mut [u8]) -> Answer
    ensures { Writes (apply_call plane.now d.now out.old) result out.new }
{
    match Plane::read(plane) {
        Err(at) => Err(Cause::WrongPlane(at as u64)),
        Ok(plane) => match patch_check::check(&plane, d) {
            Err(at) => Err(Cause::WrongPatch(at as u64)),
            Ok(base) => apply_right(&plane, d, base.entries(), out),
        },
    }
}
