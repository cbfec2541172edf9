// The words that leave level 1 in an add go on to level 2, and what leaves that to the base list, or nothing is written: each is tried on a draft first, and
// then only the stretches of the buckets that changed, the base list and its count are written.
// specs/Passing.antt has the words that go on, one after the other, as the code goes about them. Laws: proofs/Arrivals.antt (they lead to
// the table of the crate table's `added_to`), proofs/Passing.antt (the loops over them and the draft).
#![tactic(auto)]

ghost use Rattle.std.specs.Prelude.{◌≡◌, true, false, ◌+◌, ◌<◌, ◌≤◌, length};
ghost use Rattle.lists.specs.Entries.{words};
ghost use Rattle.hash.specs.Mix.{mix_of};
ghost use Rattle.table.specs.Table.{second, with_base};
ghost use Rattle.table.specs.Layout.{numbers_of};
ghost use Rattle.table.specs.Calls.{rows, solutions, table_of};
ghost use Rattle.table_arrive.specs.Arrival.{Passed, FlatKept};
ghost use Rattle.table_pass.specs.Passing.{seconds, all_to_second, take_over, Drafted, SameSize};

use bucket_settle::Entry;
use table_layout::{Level, Table};

// The words that leave level 1 arrive at level 2 one after the other, on a draft. False as soon as the base list has no room: then nothing is
// said of the draft.
pub(crate) fn carry(t: &mut [u64], entries: &[Entry]) -> bool
    requires { FlatKept rows solutions t.old }
    ensures { Drafted rows solutions (all_to_second rows solutions mix_of (table_of t.old) (seconds mix_of entries.now)) result t.new }
{
    for e in entries {
        if !table_arrive::arrive_second(t, identifier::second(e.word), e.plan) {
            return false;
        }
    }
    true
}

// The level 2 buckets of these words become those of another table.
pub(crate) fn take_buckets(t: &mut [u64], from: &[u64], entries: &[Entry])
    requires { SameSize rows solutions t.old from.now }
    ensures { t.new ≡ numbers_of (take_over rows solutions mix_of (table_of from.now) (words (seconds mix_of entries.now)) (table_of t.old)) }
{
    for e in entries {
        let at = table_layout::place(from, Level::Second, identifier::second(e.word));
        table_arrive::store_at(t, at, table_layout::bucket_at(from, at));
    }
}

// The base list becomes that of another table.
pub(crate) fn take_base(t: &mut [u64], from: &[u64])
    requires { SameSize rows solutions t.old from.now }
    ensures { t.new ≡ numbers_of (with_base (table_of t.old) (table_of from.now).base) }
{
    let a = table_layout::base_place(t);
    bucket_words::put(&mut t[a..], &from[a..]);
    t[Table::BASE_COUNT_AT] = from[Table::BASE_COUNT_AT];
}

// The words that leave level 1 go on, each tried on a draft first; then what they changed is written.
pub(crate) fn pass_drafted(t: &mut [u64], draft: &mut [u64], entries: &[Entry]) -> bool
    requires { FlatKept rows solutions t.old × (length draft.old ≡ length t.old) }
    ensures { Passed rows solutions t.old (all_to_second rows solutions mix_of (table_of t.old) (seconds mix_of entries.now)) result t.new }
{
    bucket_words::put(draft, t);
    if !carry(draft, entries) {
        return false;
    }
    take_buckets(t, draft, entries);
    take_base(t, draft);
    true
}

// The words that leave level 1 go on, or nothing is written. One word alone needs no draft.
pub fn pass_on(t: &mut [u64], entries: &[Entry]) -> bool
    requires { FlatKept rows solutions t.old }
    ensures { Passed rows solutions t.old (all_to_second rows solutions mix_of (table_of t.old) (seconds mix_of entries.now)) result t.new }
{
    let count = entries.len();
    if count == 0 {
        return true;
    }
    if count == 1 {
        let e = entries[0];
        return table_arrive::arrive_second(t, identifier::second(e.word), e.plan);
    }
    let n = t.len();
    let mut draft = [0u64; Table::LONGEST];
    pass_drafted(t, &mut draft[..n], entries)
}
