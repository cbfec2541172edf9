// What a table of document 01 has where: its limits, its length, the test of its shape (cause 4), the places of buckets, their bounds, which
// level holds a vector; and the totals of document 02, order 2, raised and lowered by one. Each function is an equation with a definition of the crate table (specs/Layout.antt, Table.antt, Calls.antt);
// specs/Level.antt has these at a level.
// proofs/Shape.antt has the laws of the places, and what one bucket or the base list changes.
#![tactic(auto)]

ghost use Rattle.std.specs.Prelude.{◌≡◌, true, ◌+◌, ◌*◌, ◌^◌, ◌<◌, ◌≤◌, length, get_or, drop};
ghost use Rattle.lists.specs.Entries.{assignable};
ghost use Rattle.lists.specs.Totals.{one_more, one_less};
ghost use Rattle.hash.specs.Mix.{mix_of};
ghost use Rattle.bucket_words.specs.Words.{bucket_from};
ghost use Rattle.table.specs.Table.{total_numbers, holds};
ghost use Rattle.table.specs.Layout.{buckets1_at, buckets2_at, totals_at, in_range, bucket_place, length_of};
ghost use Rattle.table.specs.Calls.{rows, solutions, table_of, shaped};
ghost use Rattle.table_layout.specs.Level.{index_at, level_of};

use bucket::Bucket;

// The table of document 01: its limits and the places of its parts.
#[derive(Clone, Copy)]
pub struct Table {}

impl Table {
    // The numbers that every table has, and what stands where among them.
    pub const LEADING: usize = 4;

    pub const BUCKETS_1_AT: usize = 0;

    pub const BUCKETS_2_AT: usize = 1;

    pub const BASE_COUNT_AT: usize = 2;

    pub const LIVE_COUNT_AT: usize = 3;

    // Then the totals: one for each number that a byte may be, 0 first.
    pub const TOTALS_AT: usize = Self::LEADING;

    pub const TOTALS: usize = 256;

    // The numbers before the buckets.
    pub const HEADER: usize = Self::LEADING + Self::TOTALS;

    // Level 1 has 1 to this many buckets.
    pub const MOST_BUCKETS_1: u64 = 48;

    // Level 2 has 1 to this many buckets.
    pub const MOST_BUCKETS_2: u64 = 32;

    pub const MOST_BUCKETS: usize = (Self::MOST_BUCKETS_1 + Self::MOST_BUCKETS_2) as usize;

    // Entries of the base list, and a pair of numbers for each, used or not.
    pub const BASE_ENTRIES: u64 = 64;

    pub const BASE_NUMBERS: usize = 2 * (Self::BASE_ENTRIES as usize);

    // The plan that means "call the desk": no word is given it, and a post answers it for a word that is nowhere.
    pub const DESK_PLAN: u64 = 255;

    // Where its total stands.
    pub const DESK_TOTAL_AT: usize = Self::TOTALS_AT + (Self::DESK_PLAN as usize);

    // The longest table.
    pub const LONGEST: usize = Self::HEADER
        + Self::MOST_BUCKETS * Bucket::WORDS
        + Self::BASE_NUMBERS;
}

// A level of the table.
#[derive(Clone, Copy)]
pub enum Level {
    First,
    Second,
}

// The bucket numbers are in range.
pub fn in_range(b1: u64, b2: u64) -> bool
    ensures { result ≡ in_range b1 b2 }
{
    (1..=Table::MOST_BUCKETS_1).contains(&b1) && (1..=Table::MOST_BUCKETS_2).contains(&b2)
}

// The plan may be given to a word.
pub fn assignable(plan: u64) -> bool
    ensures { result ≡ assignable plan }
{
    plan < Table::DESK_PLAN
}

// The place of bucket i, level 1 first.
pub fn bucket_place(i: usize) -> usize
    requires { i ≤ Table.MOST_BUCKETS }
    ensures { result ≡ bucket_place rows solutions i }
{
    Table::HEADER + i * Bucket::WORDS
}

// The length that the bucket numbers give.
pub fn length_of(b1: u64, b2: u64) -> usize
    requires { in_range b1 b2 ≡ true }
    ensures { result ≡ length_of rows solutions b1 b2 }
{
    bucket_place((b1 + b2) as usize) + Table::BASE_NUMBERS
}

// Not cause 4. The functions below ask for it in a clause: the calls that write hold `&mut`, and would have to make a type of it anew at each read.
pub fn shaped(t: &[u64]) -> bool
    ensures { result ≡ shaped t.now }
{
    if t.len() < Table::LEADING {
        return false;
    }
    let b1 = t[Table::BUCKETS_1_AT];
    let b2 = t[Table::BUCKETS_2_AT];
    in_range(b1, b2) && t.len() == length_of(b1, b2)
}

// The bound of bucket i, level 1 first.
pub fn bound_at(t: &[u64], i: usize) -> u64
    requires { (shaped t.now ≡ true) × (i < get_or t.now buckets1_at 0 + get_or t.now buckets2_at 0) }
    ensures { result ≡ (bucket_from rows solutions (drop (bucket_place rows solutions i) t.now)).bound }
{
    t[bucket_place(i) + Bucket::BOUND_AT]
}

// The number of the bucket of v at a level, those of level 1 first.
pub fn index(t: &[u64], level: Level, v: u64) -> usize
    requires { shaped t.now ≡ true }
    ensures { result ≡ index_at level t.now v }
{
    let i = match level {
        Level::First => identifier::bucket(v, t[Table::BUCKETS_1_AT]),
        Level::Second => { t[Table::BUCKETS_1_AT] + identifier::bucket(v, t[Table::BUCKETS_2_AT]) }
    };
    i as usize
}

// The place of v's bucket at a level.
pub fn place(t: &[u64], level: Level, v: u64) -> usize
    requires { shaped t.now ≡ true }
    ensures { result ≡ bucket_place rows solutions (index_at level t.now v) }
{
    bucket_place(index(t, level, v))
}

// A level holds v.
pub fn holds(t: &[u64], level: Level, v: u64) -> bool
    requires { shaped t.now ≡ true }
    ensures { result ≡ holds rows solutions mix_of (level_of level (table_of t.now)) v }
{
    identifier::threshold(v) < bound_at(t, index(t, level, v))
}

// The place of the base list.
pub fn base_place(t: &[u64]) -> usize
    requires { shaped t.now ≡ true }
    ensures { result ≡ bucket_place rows solutions (get_or t.now buckets1_at 0 + get_or t.now buckets2_at 0) }
{
    bucket_place((t[Table::BUCKETS_1_AT] + t[Table::BUCKETS_2_AT]) as usize)
}

// The bucket whose words start at a place.
pub fn bucket_at(t: &[u64], place: usize) -> Bucket
    requires { place + Bucket.WORDS ≤ length t.now }
    ensures { result ≡ bucket_from rows solutions (drop place t.now) }
{
    let end = place + Bucket::WORDS;
    bucket_words::load(&t[place..end])
}

// One live word more has this plan.
pub fn raise_total(t: &mut [u64], plan: u64)
    requires { (totals_at + total_numbers ≤ length t.old) × ((plan < total_numbers) × (get_or t.old (totals_at + plan) 0 + 1 < 2 ^ 64)) }
    ensures { t.new ≡ one_more (totals_at + plan) t.old }
{
    let at = Table::TOTALS_AT + (plan as usize);
    t[at] += 1;
}

// One live word less has it.
pub fn lower_total(t: &mut [u64], plan: u64)
    requires { (totals_at + total_numbers ≤ length t.old) × ((plan < total_numbers) × (0 < get_or t.old (totals_at + plan) 0)) }
    ensures { t.new ≡ one_less (totals_at + plan) t.old }
{
    let at = Table::TOTALS_AT + (plan as usize);
    t[at] -= 1;
}
