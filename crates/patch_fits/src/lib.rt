// The records of a patch, one by one: which changes, and which entries new or changed, fit; document 02, order 1.
// Definitions: those of patch (specs/Wrong.antt); specs/Steps.antt is for the inner steps alone.
#![tactic(auto)]

ghost use Rattle.std.specs.Prelude.{◌≡◌, ◌&&◌, ◌≤◌, length, drop};
ghost use Rattle.plane.specs.Record.{format1, entry_body, entry_from};
ghost use Rattle.plane.specs.Plane.{whole, fits, wrong_in, entry_allowed};
ghost use Rattle.patch.specs.Record.{change_records, new_kind};
ghost use Rattle.patch.specs.Wrong.{change_allowed, next_index, changes_at};
ghost use Rattle.patch_fits.specs.Steps.{least_after, taken};

use bucket::Bucket;
use patch::{BaseList, Patch};

// A change in front: an index of at least `least`, below the number of buckets, and a bound of at most 8.
pub(crate) fn change_fits(p: &[u8], least: usize, buckets: usize) -> bool
    ensures { result ≡ fits (change_records format1) (change_allowed buckets) least p.now }
{
    if !plane::whole(p, Patch::CHANGE, Patch::CHANGE_BODY) {
        return false;
    }
    let index = p[Patch::INDEX_AT] as usize;
    least <= index && index < buckets && (p[Patch::BUCKET_AT] as u64) <= Bucket::LARGEST_BOUND
}

// The first k changes.
pub fn changes_wrong(d: &[u8], k: usize, buckets: usize) -> Result<(), usize>
    requires { changes_at ≤ length d.now }
    ensures { result ≡ wrong_in (change_records format1) (change_allowed buckets) next_index 0 k changes_at (drop changes_at d.now) }
{
    let mut least: usize = 0;
    for i in 0..k {
        let at = Patch::CHANGES_AT + i * Patch::CHANGE_LEN;
        let p = &d[at..];
        if !change_fits(p, least, buckets) {
            return Err(at);
        }
        least = (p[Patch::INDEX_AT] as usize) + 1;
    }
    Ok(())
}

// A new entry in front, with a plan that may be given, whose word exceeds the last one, if there is one.
pub fn new_follows(p: &[u8], last: Option<u64>) -> bool
    ensures { result ≡ (whole new_kind entry_body p.now && entry_allowed (least_after last) (entry_from p.now)) }
{
    plane::entry_assignable(p, Patch::NEW) && last.is_none_or(|w| w < plane::entry_word(p))
}

// Whether a base list of `count` entries takes one whose word is there, or was there in the old one: the word is not gone, and makes no
// 65 entries.
pub fn new_fits(there: bool, was: bool, count: usize) -> bool
    ensures { result ≡ taken there was count }
{
    there || (!was && count < BaseList::MOST)
}
