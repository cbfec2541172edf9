// A bucket as its words in a part of a table: columns, mark, solutions, bound, as load and store find and leave them there; an add and the
// withdrawal, which read and write what they change of it and no more.
// Definitions: specs/Words.antt, at every number of rows and of solution words. Laws: proofs/Words.antt (there and back),
// proofs/Parts.antt (what each write of columns, mark and solutions leaves) and proofs/OnWords.antt (the bucket after an add, after a
// withdrawal).
#![tactic(auto)]

ghost use Rattle.std.specs.Prelude.{◌≡◌, length, get_or};
ghost use Rattle.gf2.specs.Vectors.{product};
ghost use Rattle.bucket.specs.Bucket.{rows, solutions, add, withdraw};
ghost use Rattle.bucket_words.specs.Words.{bucket_words, bound_at, bucket_from, words_of, Stepped};

use bucket::Bucket;

// The words of `from` into `to`. By a loop: `copy_from_slice` calls C's memmove, and the library asks of C only memcpy and memset.
pub fn put(to: &mut [u64], from: &[u64])
    requires { length to.old ≡ length from.now }
    ensures { to.new ≡ from.now }
{
    for (i, x) in to.iter_mut().enumerate() {
        *x = from[i];
    }
}

// These N words as an array: the columns of a bucket, or its solutions.
pub fn array_of<const N: usize>(words: &[u64]) -> [u64; N]
    requires { length words.now ≡ N }
    ensures { result ≡ words.now }
{
    let mut out = [0; N];
    put(&mut out, words);
    out
}

// The bucket that the words of a part of a table stand for.
pub fn load(part: &[u64]) -> Bucket
    requires { length part.now ≡ bucket_words rows solutions }
    ensures { result ≡ bucket_from rows solutions part.now }
{
    Bucket {
        cols: array_of(&part[0..Bucket::ROWS]),
        mark: part[Bucket::MARK_AT],
        sols: array_of(&part[Bucket::SOLUTIONS_AT..Bucket::BOUND_AT]),
        bound: part[Bucket::BOUND_AT],
    }
}

// Columns, mark and solutions into a part of a table; the bound stays.
pub(crate) fn store_step(
    part: &mut [u64],
    cols: &[u64; Bucket::ROWS],
    mark: u64,
    sols: &[u64; Bucket::SOLUTIONS],
)
    requires { length part.old ≡ bucket_words rows solutions }
    ensures { part.new ≡ words_of (record { cols = cols.now; mark = mark; sols = sols.now; bound = get_or part.old (bound_at rows solutions) 0 }) }
{
    put(&mut part[0..Bucket::ROWS], cols);
    part[Bucket::MARK_AT] = mark;
    put(&mut part[Bucket::SOLUTIONS_AT..Bucket::BOUND_AT], sols);
}

// The words of a bucket into a part of a table.
pub fn store(part: &mut [u64], b: Bucket)
    requires { length part.old ≡ bucket_words rows solutions }
    ensures { part.new ≡ words_of b }
{
    store_step(part, &b.cols, b.mark, &b.sols);
    part[Bucket::BOUND_AT] = b.bound;
}

// The add of k, whose product is p, to the bucket of a part of a table. False where k depends on the live vectors: then nothing is written.
pub fn add_by(part: &mut [u64], k: u64, p: u64, plan: u64) -> bool
    requires { (length part.old ≡ bucket_words rows solutions) × (p ≡ product (bucket_from rows solutions part.old).cols k) }
    ensures { Stepped rows solutions (add rows k plan) part.old result part.new }
{
    let mark = part[Bucket::MARK_AT];
    let Some(i) = bucket::lowest(p ^ (p & mark)) else {
        return false;
    };
    let cols = array_of(&part[0..Bucket::ROWS]);
    let sols = array_of(&part[Bucket::SOLUTIONS_AT..Bucket::BOUND_AT]);
    let stepped = bucket::col_step(i, p, cols);
    let solved = bucket::sol_step(stepped[i], bucket::product_in(&sols, k) ^ plan, sols);
    store_step(part, &stepped, mark | bits::power(i), &solved);
    true
}

// The withdrawal of k from the bucket of a part of a table: the row freed is the lowest set bit of k's column, and its plan bits are XORed
// away along its new column. False where k is not live: then nothing is written.
pub fn withdraw(part: &mut [u64], k: u64) -> bool
    requires { length part.old ≡ bucket_words rows solutions }
    ensures { Stepped rows solutions (withdraw rows k) part.old result part.new }
{
    let mark = part[Bucket::MARK_AT];
    let cols = array_of(&part[0..Bucket::ROWS]);
    let p = bucket::product(cols, k);
    let Some(i) = bucket::row_by(mark, p) else {
        return false;
    };
    let j = u64::trailing_zeros(cols[i]) as usize; // a live vector's column is not 0
    let freed = bits::power(j); // k's product once the columns are exchanged
    let next = bucket::col_step(j, freed, bucket::exchanged(i, j, cols));
    let sols = array_of(&part[Bucket::SOLUTIONS_AT..Bucket::BOUND_AT]);
    let cleared = bucket::sol_step(next[j], bucket::product_in(&sols, freed), sols);
    store_step(part, &next, mark ^ (mark & freed), &cleared);
    true
}
