// Document 01's cause 5: the test whether a table of the right shape that is handed in is sound, for any contents, with the totals of
// document 02, order 2: each row and base entry found is counted off a copy of them. That of the desk's plan must be 0, so an entry with that
// plan (order 3) cannot be counted off. The test is an equation with those of the crate table
// (specs/Test.antt, Calls.antt); specs/Held.antt is for the crate's own functions: the base list and the counts.
#![tactic(auto)]

ghost use Rattle.std.specs.Prelude.{◌≡◌, true, ◌+◌, ◌*◌, ◌/◌, ◌≤◌, eqb, length, get_or, take, drop};
ghost use Rattle.table.specs.Table.{total_numbers};
ghost use Rattle.table.specs.Layout.{base_count_at, totals_at, level_from, pairs_from};
ghost use Rattle.table.specs.Content.{occupied};
ghost use Rattle.table.specs.Test.{all_of, ascends};
ghost use Rattle.table.specs.Calls.{rows, solutions, shaped, sound};
ghost use Rattle.table_rows.specs.Counting.{one_off, count_off, Leaves};
ghost use Rattle.table_sound.specs.Held.{pair_test, counts_sound, base_left};

use bucket::Bucket;
use table_layout::{Level, Table};

// The totals of the table, plan 0 first.
pub(crate) fn totals_of(t: &[u64]) -> [u64; Table::TOTALS]
    requires { shaped t.now ≡ true }
    ensures { result ≡ take total_numbers (drop totals_at t.now) }
{
    let mut out = [0u64; Table::TOTALS];
    bucket_words::put(&mut out, &t[Table::TOTALS_AT..Table::HEADER]);
    out
}

// The occupied rows of these buckets and the base entries.
pub(crate) fn live_count(buckets: &[u64], base: u64) -> u64
    requires { base ≤ Table.BASE_ENTRIES }
    ensures { result ≡ occupied (level_from rows solutions (length buckets.now / Bucket.WORDS) buckets.now) + base }
{
    let mut sum = base;
    for i in 0..buckets.len() / Bucket::WORDS {
        sum += u64::count_ones(buckets[i * Bucket::WORDS + Bucket::MARK_AT]) as u64;
    }
    sum
}

// The entry of a word by its w' is held in the base list.
pub(crate) fn pair_held(t: &[u64], word: u64, plan: u64) -> bool
    requires { shaped t.now ≡ true }
    ensures { result ≡ pair_test t.now (record { word = word; plan = plan }) }
{
    table_layout::assignable(plan)
        && !table_layout::holds(t, Level::Second, word)
        && !table_layout::holds(t, Level::First, identifier::first(word))
}

// Such an entry is held so, and counted off.
pub(crate) fn pair_off(t: &[u64], word: u64, plan: u64, left: &mut [u64; Table::TOTALS]) -> bool
    requires { shaped t.now ≡ true }
    ensures { Leaves (one_off (pair_test t.now) (record { word = word; plan = plan }) left.old) result left.new }
{
    pair_held(t, word, plan) && table_rows::count_off(left, plan)
}

// Each of the pairs is held so, and counted off.
pub(crate) fn pairs_off(t: &[u64], pairs: &[u64], left: &mut [u64; Table::TOTALS]) -> bool
    requires { shaped t.now ≡ true }
    ensures { Leaves (count_off (pair_test t.now) (pairs_from (length pairs.now / 2) pairs.now) left.old) result left.new }
{
    for i in 0..pairs.len() / 2 {
        if !pair_off(t, pairs[2 * i], pairs[2 * i + 1], left) {
            return false;
        }
    }
    true
}

// The words of the pairs ascend.
pub(crate) fn pairs_ascend(pairs: &[u64]) -> bool
    ensures { result ≡ ascends (pairs_from (length pairs.now / 2) pairs.now) }
{
    for i in 1..pairs.len() / 2 {
        if pairs[2 * i] <= pairs[2 * (i - 1)] {
            return false;
        }
    }
    true
}

// Each number is 0: their bits together are, a loop without an early return, so that it can be vectorised.
pub(crate) fn all_zero(words: &[u64]) -> bool
    ensures { result ≡ all_of (λ x. eqb x 0) words.now }
{
    let mut seen: u64 = 0;
    for x in words {
        seen |= *x;
    }
    seen == 0
}

// The base count is in range, the total of the desk's plan is 0, and the live count is right.
pub(crate) fn counts_sound(t: &[u64]) -> bool
    requires { shaped t.now ≡ true }
    ensures { result ≡ counts_sound t.now }
{
    let count = t[Table::BASE_COUNT_AT];
    let buckets = &t[Table::HEADER..table_layout::base_place(t)];
    count <= Table::BASE_ENTRIES
        && t[Table::DESK_TOTAL_AT] == 0
        && t[Table::LIVE_COUNT_AT] == live_count(buckets, count)
}

// The base list is sound, and its entries are counted off.
pub(crate) fn base_off(t: &[u64], left: &mut [u64; Table::TOTALS]) -> bool
    requires { (shaped t.now ≡ true) × (get_or t.now base_count_at 0 ≤ Table.BASE_ENTRIES) }
    ensures { Leaves (base_left t.now left.old) result left.new }
{
    let place = table_layout::base_place(t);
    let end = place + 2 * (t[Table::BASE_COUNT_AT] as usize);
    let pairs = &t[place..end];
    pairs_ascend(pairs) && all_zero(&t[end..]) && pairs_off(t, pairs, left)
}

// Not cause 5. What is cheap is tested first; each entry found is counted off a copy of the totals, and nothing may be left over.
pub fn sound(t: &[u64]) -> bool
    requires { shaped t.now ≡ true }
    ensures { result ≡ sound t.now }
{
    let first = t[Table::BUCKETS_1_AT];
    let second = t[Table::BUCKETS_2_AT];
    if !counts_sound(t) {
        return false;
    }
    let mut left = totals_of(t);
    if !base_off(t, &mut left) {
        return false;
    }
    if !table_rows::level_off(t, Level::First, first, Table::HEADER, &mut left) {
        return false;
    }
    let place = table_layout::bucket_place(first as usize);
    table_rows::level_off(t, Level::Second, second, place, &mut left) && all_zero(&left)
}
