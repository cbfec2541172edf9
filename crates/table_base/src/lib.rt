// The base list of document 01 as it lies in the table: pairs (w', plan), of which the first `count` are used and the others 0. The
// slice tells for how many entries there is room, in a table 64. Each function is an equation with a definition of lists
// (specs/Entries.antt) on the entries that the pairs stand for; what lies there afterwards is the whole slice. specs/Base.antt says what
// a slice is that holds `count` entries, proofs/Shift.antt how a pair comes in or goes out, proofs/Moves.antt how the words behind it move by a loop.
#![tactic(auto)]

ghost use Rattle.std.specs.Prelude.{◌≡◌, ◌+◌, ◌<◌, ◌≤◌, length};
ghost use Rattle.std.specs.List.{copy_within};
ghost use Rattle.lists.specs.Entries.{find, insert, update, remove};
ghost use Rattle.table.specs.Layout.{pairs_from};
ghost use Rattle.table_base.specs.Base.{capacity, pairs_in, Pairs, hits, before, found_of};

// Whether x is larger than v, or equal to it.
fn hits(larger: bool, v: u64, x: u64) -> bool
    ensures { result ≡ hits larger v x }
{
    if larger { v < x } else { v == x }
}

// How many pairs stand before the first whose w' is larger than v, or equal to it.
pub(crate) fn first_hit(pairs: &[u64], larger: bool, v: u64) -> usize
    ensures in_range { result ≤ capacity pairs.now }
    ensures place { result ≡ before (hits larger v) (pairs_from (capacity pairs.now) pairs.now) }
{
    let count = pairs.len() / 2;
    for i in 0..count {
        if hits(larger, v, pairs[2 * i]) {
            return i;
        }
    }
    count
}

// The plan of v, if it has an entry. The count goes beside the pairs, as in the functions below, whose slice is longer than the pairs in use.
pub fn find(pairs: &[u64], count: usize, v: u64) -> Option<u64>
    requires { Pairs (capacity pairs.now) count pairs.now }
    ensures { result ≡ found_of (find v (pairs_from count pairs.now)) }
{
    let i = first_hit(&pairs[..2 * count], false, v);
    if i < count {
        return Some(pairs[2 * i + 1]);
    }
    None
}

// v, if it has an entry, gets this plan.
pub fn update(pairs: &mut [u64], count: usize, v: u64, plan: u64)
    requires { Pairs (capacity pairs.old) count pairs.old }
    ensures { pairs.new ≡ pairs_in (capacity pairs.old) (update (record { word = v; plan = plan }) (pairs_from count pairs.old)) }
{
    let i = first_hit(&pairs[..2 * count], false, v);
    if i < count {
        pairs[2 * i + 1] = plan;
    }
}

// The words up to `end` from two behind `at` on move down by two. By loops, here and below: `copy_within` calls C's memmove, and the library asks of C only
// memcpy and memset.
fn move_down(words: &mut [u64], at: usize, end: usize)
    requires { (at + 2 ≤ end) × (end ≤ length words.old) }
    ensures moved { words.new ≡ copy_within words.old (at + 2) end at }
    ensures len { length words.new ≡ length words.old }
{
    for i in 0..end - (at + 2) {
        words[at + i] = words[at + 2 + i];
    }
}

// The words up to `end` from `at` on move up by two.
fn move_up(words: &mut [u64], at: usize, end: usize)
    requires { (at ≤ end) × (end + 2 ≤ length words.old) }
    ensures { words.new ≡ copy_within words.old at end (at + 2) }
{
    for i in (0..end - at).rev() {
        words[at + 2 + i] = words[at + i];
    }
}

// Without the entry of v, if there is one. Returns how many there are.
pub fn remove(pairs: &mut [u64], count: usize, v: u64) -> usize
    requires { Pairs (capacity pairs.old) count pairs.old }
    ensures { (result ≡ length (remove v (pairs_from count pairs.old))) × (pairs.new ≡ pairs_in (capacity pairs.old) (remove v (pairs_from count pairs.old))) }
{
    let i = first_hit(&pairs[..2 * count], false, v);
    if i < count {
        let end = 2 * count;
        move_down(pairs, 2 * i, end);
        pairs[end - 2..end].fill(0);
        return count - 1;
    }
    count
}

// v with its plan, before the first entry with a larger w'.
pub fn insert(pairs: &mut [u64], count: usize, v: u64, plan: u64)
    requires { Pairs (capacity pairs.old) count pairs.old × (count < capacity pairs.old) }
    ensures { pairs.new ≡ pairs_in (capacity pairs.old) (insert (record { word = v; plan = plan }) (pairs_from count pairs.old)) }
{
    let end = 2 * count;
    let at = 2 * first_hit(&pairs[..end], true, v);
    move_up(pairs, at, end);
    pairs[at] = v;
    pairs[at + 1] = plan;
}
