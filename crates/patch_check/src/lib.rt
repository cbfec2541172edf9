// The check of a patch for a plane: where the patch is wrong, or the base list that it leaves; document 02, order 1.
// Definitions: those of patch (specs/Wrong.antt); specs/Steps.antt is for the inner steps alone. The check edits a copy of the
// base list as it goes, so that what is accepted is there.
#![tactic(auto)]

ghost use Rattle.std.specs.Prelude.{◌≡◌, ◌≤◌, [], length, drop};
ghost use Rattle.std.specs.Result.{result_and};
ghost use Rattle.lists.specs.Entries.{Ascending};
ghost use Rattle.model.specs.Model.{base_limit};
ghost use Rattle.plane.specs.Record.{format1, read_all, entry_from};
ghost use Rattle.plane.specs.Plane.{wrong_in, plane_from};
ghost use Rattle.patch.specs.Base.{remove_all, enter_all};
ghost use Rattle.patch.specs.Record.{gone_length, gone_from, gone_records, new_length, new_records};
ghost use Rattle.patch.specs.Patch.{patched};
ghost use Rattle.patch.specs.Wrong.{gone_allowed, next_word, filled, gone_at, patch_from, patch_wrong_at};
ghost use Rattle.patch_check.specs.Steps.{new_allowed_by, started, base_wrong};

use patch::{BaseList, Entry, Patch};
use plane::Plane;

// The k words gone from the offset first on are taken out of the base list `old`. What stays goes to `kept`, or the offset of what is wrong is returned.
pub(crate) fn remove_gone(
    d: &[u8],
    first: usize,
    k: usize,
    old: &[Entry],
    kept: &mut BaseList,
) -> Result<(), usize>
    requires { (first ≤ length d.now) × (length old.now ≤ base_limit) × Ascending old.now × (kept.old ≡ []) }
    ensures { result_and result (Ok kept.new) ≡ result_and (wrong_in gone_records (gone_allowed old.now) next_word 0 k first (drop first d.now)) (Ok (remove_all (read_all gone_length gone_from k (drop first d.now)) old.now)) }
{
    let mut left = old;
    for i in 0..k {
        let at = first + i * Patch::GONE_LEN;
        let p = &d[at..];
        if !plane::whole(p, Patch::GONE, Patch::GONE_BODY) {
            return Err(at);
        }
        let place = patch::seek(left, codec::get_u64(p, 1));
        if place.plan.is_none() {
            return Err(at);
        }
        kept.extend(place.below);
        left = place.above;
    }
    kept.extend(left);
    Ok(())
}

// The k entries new or changed from the offset first on are entered in `kept`, the base list `old` without the words gone. What comes of it goes
// to `new`, or the offset of what is wrong is returned.
pub(crate) fn enter_news(
    d: &[u8],
    first: usize,
    k: usize,
    old: &[Entry],
    kept: &[Entry],
    new: &mut BaseList,
) -> Result<(), usize>
    requires { (first ≤ length d.now) × (length kept.now ≤ base_limit) × Ascending old.now × Ascending kept.now × (new.old ≡ []) }
    ensures { result_and result (Ok new.new) ≡ result_and (wrong_in new_records (new_allowed_by old.now kept.now) filled (started kept.now) k first (drop first d.now)) (Ok (enter_all (read_all new_length entry_from k (drop first d.now)) kept.now)) }
{
    let mut old_left = old;
    let mut left = kept;
    let mut last = None;
    for i in 0..k {
        let at = first + i * Patch::NEW_LEN;
        let p = &d[at..];
        if !patch_fits::new_follows(p, last) {
            return Err(at);
        }
        let e = Entry::read(p);
        let w = e.word;
        let was = patch::seek(old_left, w);
        let place = patch::seek(left, w);
        let count = new.entries().len() + left.len();
        if !patch_fits::new_fits(place.plan.is_some(), was.plan.is_some(), count) {
            return Err(at);
        }
        new.extend(place.below);
        new.push(e);
        old_left = was.above;
        left = place.above;
        last = Some(w);
    }
    new.extend(left);
    Ok(())
}

// From kind 7 on, which starts at first: the new plane's base list goes to `new`, or the offset of what is wrong is returned.
pub(crate) fn check_base(
    plane: &Plane,
    d: &[u8],
    first: usize,
    new: &mut BaseList,
) -> Result<(), usize>
    requires { (first ≡ gone_at format1 d.now) × (first ≤ length d.now) × (new.old ≡ []) }
    ensures { result_and result (Ok new.new) ≡ result_and (base_wrong format1 (plane_from format1 plane.now.bytes.now) d.now) (Ok (patched (plane_from format1 plane.now.bytes.now) (patch_from format1 d.now)).base) }
{
    let mut old = BaseList::new();
    let mut kept = BaseList::new();
    patch::load_base(plane, &mut old);
    let gone = patch::run(d, first, Patch::GONE, Patch::GONE_LEN);
    remove_gone(d, first, gone, old.entries(), &mut kept)?;
    let news_at = first + gone * Patch::GONE_LEN;
    let news = patch::run(d, news_at, Patch::NEW, Patch::NEW_LEN);
    enter_news(d, news_at, news, old.entries(), kept.entries(), new)?;
    plane::end_wrong(d, news_at + news * Patch::NEW_LEN)
}

// The whole patch, for a plane: the new plane's base list, or the offset of what is wrong. Not inlined: its lists lie in its frame alone.
#[inline(never)]
pub fn check(plane: &Plane, d: &[u8]) -> Result<BaseList, usize>
    ensures { result ≡ result_and (patch_wrong_at format1 (plane_from format1 plane.now.bytes.now) d.now) (Ok (patched (plane_from format1 plane.now.bytes.now) (patch_from format1 d.now)).base) }
{
    if !plane::whole(d, Patch::SUMS, Patch::SUMS_BODY) {
        return Err(0);
    }
    let changes = patch::run(d, Patch::CHANGES_AT, Patch::CHANGE, Patch::CHANGE_LEN);
    patch_fits::changes_wrong(d, changes, plane.buckets())?;
    let mut new = BaseList::new();
    check_base(
        plane,
        d,
        Patch::CHANGES_AT + changes * Patch::CHANGE_LEN,
        &mut new,
    )?;
    Ok(new)
}
