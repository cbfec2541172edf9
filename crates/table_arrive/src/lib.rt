// A word arrives at a bucket, at level 2 and at the base list: an add's steps on the table. Its product is formed once for a bucket that holds
// it; by it the bucket takes the word straight in, or the word settles there; what leaves level 2 goes to the base list, and where that has no
// room nothing is written.
// specs/Arrival.antt has the steps as the code goes about them, at every number of rows and of solution words, and `Kept`, what each of
// them keeps. Laws: proofs/Tables.antt (such a table and its numbers, words into the pairs of the base list),
// proofs/Settled.antt (what the code finds settled is what the crate table's `arrive_at` leaves).
#![tactic(auto)]

ghost use Rattle.std.specs.Prelude.{◌≡◌, None, true, false, cond, ◌+◌, ◌≤◌, length, get_or, drop};
ghost use Rattle.lists.specs.Entries.{insert_all};
ghost use Rattle.gf2.specs.Vectors.{product};
ghost use Rattle.hash.specs.Mix.{mix_of};
ghost use Rattle.bucket.specs.Bucket.{add};
ghost use Rattle.bucket_words.specs.Words.{bucket_from};
ghost use Rattle.bucket_settle.specs.Settle.{SoundBucket, threshold_of};
ghost use Rattle.bucket_fall.specs.Settled.{settled_of};
ghost use Rattle.model.specs.Model.{base_limit};
ghost use Rattle.table.specs.Table.{with_base, holds};
ghost use Rattle.table.specs.Layout.{base_count_at, pairs_from, base_pairs, numbers_of};
ghost use Rattle.table.specs.Calls.{rows, solutions, table_of};
ghost use Rattle.table_base.specs.Base.{Pairs};
ghost use Rattle.table_arrive.specs.Arrival.{settled_at, product_at, stored_at, goes_in, added_in, product_in, DependsIn, to_second, Straight, Passed, FlatKept};

use bucket::Bucket;
use bucket_fall::Settled;
use bucket_settle::Entry;
use table_layout::{Level, Table};

// The product of v in the bucket at a place. An add forms it here, once for each bucket that holds the word: whether the word is live, the
// straight attempt and the dependence go on from it.
pub fn product_at(t: &[u64], at: usize, v: u64) -> u64
    requires { at + Bucket.WORDS ≤ length t.now }
    ensures { result ≡ product_at rows solutions at v t.now }
{
    let end = at + Bucket::ROWS;
    bucket::product(bucket_words::array_of(&t[at..end]), v)
}

// v, which depends there, settles with its plan in the bucket at a place. Nothing is written.
pub fn fallen_at(t: &[u64], at: usize, v: u64, plan: u64) -> Settled
    requires { (at + Bucket.WORDS ≤ length t.now) × (SoundBucket rows solutions (bucket_from rows solutions (drop at t.now)) × (add rows v plan (bucket_from rows solutions (drop at t.now)) ≡ None)) }
    ensures { result ≡ settled_of (settled_at rows solutions threshold_of at (record { word = v; plan = plan }) t.now) }
{
    bucket_fall::fall(table_layout::bucket_at(t, at), v, plan)
}

// The bucket into its stretch of the table.
pub fn store_at(t: &mut [u64], at: usize, b: Bucket)
    requires { at + Bucket.WORDS ≤ length t.old }
    ensures { t.new ≡ stored_at rows solutions at b t.old }
{
    let end = at + Bucket::WORDS;
    bucket_words::store(&mut t[at..end], b);
}

// The bucket step of an add, on the stretch of one bucket: v, whose product is p, goes in, where its threshold is below the bound and it
// does not depend. False if not: then nothing is written.
pub(crate) fn put_part_by(part: &mut [u64], v: u64, p: u64, plan: u64) -> bool
    requires { (length part.old ≡ Bucket.WORDS) × (p ≡ product (bucket_from rows solutions part.old).cols v) }
    ensures { (result ≡ goes_in rows solutions threshold_of (record { word = v; plan = plan }) part.old) × (part.new ≡ cond result (added_in rows solutions (record { word = v; plan = plan }) part.old) part.old) }
{
    identifier::threshold(v) < part[Bucket::BOUND_AT] && bucket_words::add_by(part, v, p, plan)
}

// The word v, whose product there is p, goes straight into the bucket at a place, whose stretch alone is lent to the bucket step. False if it
// does not go in: then nothing is written.
pub fn put_by(t: &mut [u64], at: usize, v: u64, p: u64, plan: u64) -> bool
    requires { (at + Bucket.WORDS ≤ length t.old) × (p ≡ product_at rows solutions at v t.old) }
    ensures { Straight rows solutions threshold_of at (record { word = v; plan = plan }) t.old result t.new }
{
    let end = at + Bucket::WORDS;
    put_part_by(&mut t[at..end], v, p, plan)
}

// The words into the base list, one after the other.
pub(crate) fn insert_all(pairs: &mut [u64], count: usize, entries: &[Entry])
    requires { Pairs base_limit count pairs.old × (count + length entries.now ≤ base_limit) }
    ensures { pairs.new ≡ base_pairs (insert_all entries.now (pairs_from count pairs.old)) }
{
    for (i, e) in entries.iter().enumerate() {
        table_base::insert(pairs, count + i, e.word, e.plan);
    }
}

// The words into the base list of a table, and its count.
// FlatKept is a clause, no field of a type: between the pairs and the count it need not hold, and the steps take `&mut` of the same numbers.
pub(crate) fn enter_base(t: &mut [u64], entries: &[Entry])
    requires { FlatKept rows solutions t.old × (get_or t.old base_count_at 0 + length entries.now ≤ base_limit) }
    ensures { t.new ≡ numbers_of (with_base (table_of t.old) (insert_all entries.now (table_of t.old).base)) }
{
    let a = table_layout::base_place(t);
    let count = t[Table::BASE_COUNT_AT] as usize;
    let more = entries.len();
    insert_all(&mut t[a..], count, entries);
    t[Table::BASE_COUNT_AT] = (count + more) as u64;
}

// The word v, which depends in its bucket at level 2, settles there, and what leaves that arrives at the base list. False if that has no room:
// then nothing is written.
pub fn fall_second(t: &mut [u64], v: u64, plan: u64) -> bool
    requires { FlatKept rows solutions t.old × DependsIn rows solutions mix_of (table_of t.old).level2 (record { word = v; plan = plan }) }
    ensures { Passed rows solutions t.old (to_second rows solutions mix_of (table_of t.old) (record { word = v; plan = plan })) result t.new }
{
    let at = table_layout::place(t, Level::Second, v);
    let s = fallen_at(t, at, v, plan);
    let out = s.out.entries();
    let more = out.len() as u64;
    if Table::BASE_ENTRIES < t[Table::BASE_COUNT_AT] + more {
        return false;
    }
    store_at(t, at, s.bucket);
    enter_base(t, out);
    true
}

// The word v, which level 2 holds and whose product in its bucket there is p, arrives there: straight in, or it settles.
pub(crate) fn arrive_by(t: &mut [u64], v: u64, p: u64, plan: u64) -> bool
    requires { FlatKept rows solutions t.old × ((holds rows solutions mix_of (table_of t.old).level2 v ≡ true) × (p ≡ product_in rows solutions mix_of (table_of t.old).level2 v)) }
    ensures { Passed rows solutions t.old (to_second rows solutions mix_of (table_of t.old) (record { word = v; plan = plan })) result t.new }
{
    let at = table_layout::place(t, Level::Second, v);
    put_by(t, at, v, p, plan) || fall_second(t, v, plan)
}

// The word v, which level 2 does not hold, goes on to the base list. False if that has no room: then nothing is written.
pub fn pass_second(t: &mut [u64], v: u64, plan: u64) -> bool
    requires { FlatKept rows solutions t.old × (holds rows solutions mix_of (table_of t.old).level2 v ≡ false) }
    ensures { Passed rows solutions t.old (to_second rows solutions mix_of (table_of t.old) (record { word = v; plan = plan })) result t.new }
{
    if t[Table::BASE_COUNT_AT] < Table::BASE_ENTRIES {
        enter_base(t, &[Entry { word: v, plan }]);
        return true;
    }
    false
}

// The word v arrives at level 2: into its bucket if that holds it, else at the base list.
pub fn arrive_second(t: &mut [u64], v: u64, plan: u64) -> bool
    requires { FlatKept rows solutions t.old }
    ensures { Passed rows solutions t.old (to_second rows solutions mix_of (table_of t.old) (record { word = v; plan = plan })) result t.new }
{
    if table_layout::holds(t, Level::Second, v) {
        let p = product_at(t, table_layout::place(t, Level::Second, v), v);
        return arrive_by(t, v, p, plan);
    }
    pass_second(t, v, plan)
}
