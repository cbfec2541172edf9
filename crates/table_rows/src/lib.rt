// The occupied rows of a level, tested and counted off the totals: each bucket is sound, its rows are held where the tests send them, and each is taken off
// the total of its plan. Free rows of the solutions must be 0 (document 02, order 6).
// specs/Counting.antt has what is left of the totals, specs/Several.antt the plans of a bucket's rows; proofs/Counting.antt has their loops.
#![tactic(auto)]

ghost use Rattle.std.specs.Prelude.{◌≡◌, true, cond, ◌+◌, ◌*◌, ◌<◌, ◌≤◌, eqb, ltb, length, get_or, drop};
ghost use Rattle.lists.specs.Totals.{one_less};
ghost use Rattle.gf2.specs.Vectors.{outside};
ghost use Rattle.gf2.specs.Select.{chosen};
ghost use Rattle.bucket.specs.Bucket.{lookup};
ghost use Rattle.bucket_words.specs.Words.{bucket_from};
ghost use Rattle.bucket_settle.specs.Settle.{listed};
ghost use Rattle.table.specs.Table.{total_numbers};
ghost use Rattle.table.specs.Test.{all_of};
ghost use Rattle.table.specs.Calls.{rows, solutions, shaped};
ghost use Rattle.table_rows.specs.Several.{products};
ghost use Rattle.table_rows.specs.Counting.{held_test, row_of, one_off, count_off, bucket_off, level_left, Leaves};

use bucket::Bucket;
use table_layout::{Level, Table};

// An entry with this plan is counted off. False where its total is 0: then nothing is written.
pub fn count_off(left: &mut [u64; Table::TOTALS], plan: u64) -> bool
    requires { plan < total_numbers }
    ensures { (result ≡ ltb 0 (get_or left.old plan 0)) × (left.new ≡ cond result (one_less plan left.old) left.old) }
{
    let at = plan as usize;
    if left[at] == 0 {
        return false;
    }
    left[at] -= 1;
    true
}

// A vector v in bucket i of m, under its bound, is held where the tests send it: at level 2 also by its level 1 form.
// Table, level, m and i stand apart here and below: as fields of a struct they would make each clause longer.
pub(crate) fn row_held(t: &[u64], level: Level, m: u64, i: u64, bound: u64, v: u64) -> bool
    requires { shaped t.now ≡ true }
    ensures { result ≡ held_test t.now level m i bound v }
{
    identifier::bucket(v, m) == i
        && identifier::threshold(v) < bound
        && match level {
            Level::First => true,
            Level::Second => !table_layout::holds(t, Level::First, identifier::first(v)),
        }
}

// An occupied row v of the bucket b is held so, and counted off with its plan.
pub(crate) fn row_off(
    t: &[u64],
    level: Level,
    m: u64,
    i: u64,
    b: Bucket,
    v: u64,
    plan: u64,
    left: &mut [u64; Table::TOTALS],
) -> bool
    requires { (shaped t.now ≡ true) × (plan ≡ lookup b v) }
    ensures { Leaves (one_off (row_of t.now level m i b) (record { word = v; plan = lookup b v }) left.old) result left.new }
{
    row_held(t, level, m, i, b.bound, v) && count_off(left, plan)
}

// The plans that the solutions give for the first n vectors; 0 in the place of each other vector. One loop, so that two vectors are counted at once.
pub(crate) fn plans_of(
    sols: [u64; Bucket::SOLUTIONS],
    vectors: [u64; Bucket::ROWS],
    n: usize,
) -> [u64; Bucket::ROWS]
    requires { n ≤ Bucket.ROWS }
    ensures { result ≡ products n sols vectors }
{
    let mut out = [0u64; Bucket::ROWS];
    for i in 0..n {
        out[i] = bucket::product_in(&sols, vectors[i]);
    }
    out
}

// Each of the rows that the mark names is held so, and counted off. The plans of the rows, up to the highest of these, are looked up together.
pub(crate) fn rows_off(
    t: &[u64],
    level: Level,
    m: u64,
    i: u64,
    b: Bucket,
    vectors: [u64; Bucket::ROWS],
    left: &mut [u64; Table::TOTALS],
) -> bool
    requires { shaped t.now ≡ true }
    ensures { Leaves (count_off (row_of t.now level m i b) (listed b (chosen b.mark vectors)) left.old) result left.new }
{
    let sols = b.sols;
    let n = Bucket::ROWS - (u64::leading_zeros(b.mark) as usize);
    let plans = plans_of(sols, vectors, n);
    let mut rest = b.mark;
    while rest != 0 {
        let a = u64::trailing_zeros(rest) as usize;
        if !row_off(t, level, m, i, b, vectors[a], plans[a], left) {
            return false;
        }
        rest &= rest - 1;
    }
    true
}

// No solution word has a bit outside the mark: the rows of the solutions that are free are 0.
pub(crate) fn rows_clear(mark: u64, sols: [u64; Bucket::SOLUTIONS]) -> bool
    ensures { result ≡ all_of (λ s. eqb (outside s mark) 0) sols }
{
    sols.iter().all(|s| *s ^ (*s & mark) == 0)
}

// The bucket at a place, number i of m, is sound, and its rows are counted off.
pub(crate) fn bucket_off(
    t: &[u64],
    level: Level,
    m: u64,
    i: u64,
    place: usize,
    left: &mut [u64; Table::TOTALS],
) -> bool
    requires { (shaped t.now ≡ true) × (place + Bucket.WORDS ≤ length t.now) }
    ensures { Leaves (bucket_off rows (row_of t.now level m i (bucket_from rows solutions (drop place t.now))) (bucket_from rows solutions (drop place t.now)) left.old) result left.new }
{
    let b = table_layout::bucket_at(t, place);
    if Bucket::LARGEST_BOUND < b.bound {
        return false;
    }
    let sols = b.sols;
    if !rows_clear(b.mark, sols) {
        return false;
    }
    match bucket_rows::rows_of(b.cols, b.mark) {
        Some(vectors) => rows_off(t, level, m, i, b, vectors, left),
        None => false,
    }
}

// The m buckets of a level, from a place on, are sound, and their rows are counted off. False at the first that is not: those before it stay counted off.
pub fn level_off(
    t: &[u64],
    level: Level,
    m: u64,
    place: usize,
    left: &mut [u64; Table::TOTALS],
) -> bool
    requires { (shaped t.now ≡ true) × (place + m * Bucket.WORDS ≤ length t.now) }
    ensures { Leaves (level_left t.now level m place left.old) result left.new }
{
    for i in 0..m {
        let at = place + (i as usize) * Bucket::WORDS;
        if !bucket_off(t, level, m, i, at, left) {
            return false;
        }
    }
    true
}
