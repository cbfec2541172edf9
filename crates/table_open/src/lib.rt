// Opening a table of document 01 on a lent slice of any length and contents: an equation with `open_call` of the crate table (specs/Calls.antt), the
// answer, causes 3 and 4, and every number of the table afterwards. proofs/Opened.antt has the numbers of an opened table, part by part.
#![tactic(auto)]

ghost use Rattle.std.specs.Prelude.{◌≡◌, true, ◌++◌, ◌*◌, ◌≤◌, length, drop, replicate};
ghost use Rattle.bucket.specs.Bucket.{empty_bucket};
ghost use Rattle.table.specs.Table.{open_table};
ghost use Rattle.table.specs.Layout.{header, level_numbers, heads, numbers_of, in_range, length_of};
ghost use Rattle.table.specs.Calls.{rows, solutions, open_call, Performs};

use answer::{Answer, Cause};
use bucket::Bucket;
use table_layout::Table;

// Empty buckets one after the other.
pub(crate) fn empty_buckets(words: &mut [u64], count: usize)
    requires { length words.old ≡ count * Bucket.WORDS }
    ensures { words.new ≡ level_numbers (replicate count (empty_bucket rows solutions)) }
{
    let empty = Bucket::empty();
    for i in 0..count {
        let at = i * Bucket::WORDS;
        let end = at + Bucket::WORDS;
        bucket_words::store(&mut words[at..end], empty);
    }
}

// The header of an opened table: its leading numbers, and every total 0.
pub(crate) fn put_header(t: &mut [u64], b1: u64, b2: u64)
    requires { Table.HEADER ≤ length t.old }
    ensures { t.new ≡ heads (open_table rows solutions b1 b2) ++ drop header t.old }
{
    t[Table::BUCKETS_1_AT] = b1;
    t[Table::BUCKETS_2_AT] = b2;
    t[Table::BASE_COUNT_AT] = 0;
    t[Table::LIVE_COUNT_AT] = 0;
    let first = Table::TOTALS_AT;
    let end = Table::HEADER;
    t[first..end].fill(0);
}

// The numbers of an opened table: header, empty buckets, base pairs 0.
pub(crate) fn lay_out(t: &mut [u64], b1: u64, b2: u64)
    requires { (in_range b1 b2 ≡ true) × (length t.old ≡ length_of rows solutions b1 b2) }
    ensures { t.new ≡ numbers_of (open_table rows solutions b1 b2) }
{
    put_header(t, b1, b2);
    let count = (b1 + b2) as usize;
    let first = Table::HEADER;
    let base = table_layout::bucket_place(count);
    empty_buckets(&mut t[first..base], count);
    t[base..].fill(0);
}

// Opening: cause 3, then 4 for a wrong length alone. Earlier contents are not tested.
pub fn open(t: &mut [u64], b1: u64, b2: u64) -> Answer
    ensures { Performs (open_call b1 b2 t.old) result t.new }
{
    if !table_layout::in_range(b1, b2) {
        return Err(Cause::WrongBuckets);
    }
    let size = t.len();
    if size != table_layout::length_of(b1, b2) {
        return Err(Cause::WrongTable(size as u64));
    }
    lay_out(t, b1, b2);
    Ok(0)
}
