// One bucket of document 01: 64 columns of the inverse of K, the mark word of occupied rows, 8 solution words and the bound.
// Each step is an equation with a definition of specs/Bucket.antt, which follows document 01's "One bucket" sentence by sentence
// at every number of rows and of solution words; proofs/Steps.antt has what the steps keep (K and its inverse, live vectors, plans),
// proofs/Answers.antt what a bucket answers to any vector, proofs/Laws.antt an add and a withdrawal by product and row. The step on the
// columns gets a row and a product, and no vector. A withdrawal is made on a bucket's words alone: bucket_words.
#![tactic(auto)]

ghost use Rattle.std.specs.Prelude.{◌≡◌, ◌*◌, ◌/◌, ◌<◌, ◌≤◌, ◌^◌, length, get_or, drop};
ghost use Rattle.bits.specs.Width.{width};
ghost use Rattle.gf2.specs.Vectors.{dot, product, row_step, sol_step, exchange};
ghost use Rattle.bucket.specs.Bucket.{rows, solutions, empty_bucket, lowest, row_by, row_of, lookup, add, change};

// The bucket by value. The columns travel as one array.
#[derive(Clone, Copy)]
pub struct Bucket {
    pub cols: [u64; Bucket::ROWS],
    pub mark: u64,
    pub sols: [u64; Bucket::SOLUTIONS],
    pub bound: u64,
}

// The parity of ones in (k AND c).
pub fn dot(k: u64, c: u64) -> u64
    ensures { result ≡ dot k c }
{
    (u64::count_ones(k & c) % 2) as u64
}

// The product of the last word where their number is odd, which has no word to be paired with; else 0.
fn unpaired(words: &[u64], k: u64) -> u64
    ensures { result ≡ product (drop (2 * (length words.now / 2)) words.now) k }
{
    let at = 2 * (words.len() / 2);
    if at < words.len() {
        return dot(k, words[at]);
    }
    0
}

// Bit i is the parity of ones in (k AND word i), for at most 64 words. Two words at a time, each in a sum of its own, so that both are
// counted at once.
pub fn product_in(words: &[u64], k: u64) -> u64
    requires { length words.now ≤ width }
    ensures { result ≡ product words.now k }
{
    let mut even = unpaired(words, k);
    let mut odd: u64 = 0;
    for i in (0..words.len() / 2).rev() {
        even = dot(k, words[2 * i]) + 4 * even;
        odd = dot(k, words[2 * i + 1]) + 4 * odd;
    }
    even + 2 * odd
}

// The columns of a product that are written out, so that no loop is left for them.
const STRETCH: usize = 16;

// Bit i is the parity of ones in (k AND column i).
pub fn product(cols: [u64; Bucket::ROWS], k: u64) -> u64
    ensures { result ≡ product cols k }
{
    let mut p: u64 = 0;
    for i in (0..Bucket::ROWS / STRETCH).rev() {
        let start = STRETCH * i;
        p = product_in(&cols[start..start + STRETCH], k) + 65536 * p;
    }
    p
}

// The step on the columns for row i, by the product p and no vector: u = column i is XORed into each column a where bit a of p and
// bit i of a differ.
pub fn col_step(i: usize, p: u64, cols: [u64; Bucket::ROWS]) -> [u64; Bucket::ROWS]
    requires { i < rows }
    ensures { result ≡ row_step (get_or cols i 0) i p cols }
{
    let mut out = cols;
    let u = cols[i];
    for (at, a) in out.iter_mut().enumerate() {
        *a = bits::flip_if(((p >> at) ^ (*a >> i)) % 2, u, *a);
    }
    out
}

// u is XORed into each solution word whose bit of d is set.
pub fn sol_step(u: u64, d: u64, sols: [u64; Bucket::SOLUTIONS]) -> [u64; Bucket::SOLUTIONS]
    ensures { result ≡ sol_step u d sols }
{
    let mut out = sols;
    let mut left = d;
    for s in out.iter_mut() {
        *s = bits::flip_if(left % 2, u, *s);
        left /= 2;
    }
    out
}

// Columns i and j change places.
pub fn exchanged(i: usize, j: usize, cols: [u64; Bucket::ROWS]) -> [u64; Bucket::ROWS]
    requires { (i < rows) × (j < rows) }
    ensures { result ≡ exchange i j cols }
{
    let mut out = cols;
    out.swap(i, j);
    out
}

// The lowest set bit of x; none where x is 0.
pub fn lowest(x: u64) -> Option<usize>
    ensures { result ≡ lowest rows x }
{
    if x == 0 {
        return None;
    }
    Some(u64::trailing_zeros(x) as usize)
}

// The row of a vector whose product is p, under this mark, if it is live.
pub fn row_by(mark: u64, p: u64) -> Option<usize>
    ensures { result ≡ row_by rows p mark }
{
    let i = lowest(p)?;
    if p == bits::power(i) && (mark >> i) % 2 == 1 {
        return Some(i);
    }
    None
}

impl Bucket {
    // Rows and columns.
    pub const ROWS: usize = bits::WIDTH;

    // Solution words, one for each bit of a plan.
    pub const SOLUTIONS: usize = 8;

    // The bound of an empty bucket, and the largest.
    pub const LARGEST_BOUND: u64 = 8;

    // The places of the parts among the words of a bucket: columns, mark, solutions, bound.
    pub const MARK_AT: usize = Self::ROWS;

    pub const SOLUTIONS_AT: usize = Self::MARK_AT + 1;

    pub const BOUND_AT: usize = Self::SOLUTIONS_AT + Self::SOLUTIONS;

    // The words of a bucket besides its solutions, and all of them.
    pub const FRAME: usize = Self::ROWS + 2;

    pub const WORDS: usize = Self::FRAME + Self::SOLUTIONS;

    pub fn empty() -> Self
        ensures { result ≡ empty_bucket rows solutions }
    {
        Self {
            cols: bits::unit_rows(),
            mark: 0,
            sols: [0; Self::SOLUTIONS],
            bound: Self::LARGEST_BOUND,
        }
    }

    // The plan that the solutions give for k.
    pub fn lookup(self, k: u64) -> u64
        ensures { result ≡ lookup self k }
    {
        let sols = self.sols;
        product_in(&sols, k)
    }

    // The row of k, if it is live.
    pub fn row_of(self, k: u64) -> Option<usize>
        ensures { result ≡ row_of rows k self }
    {
        let cols = self.cols;
        row_by(self.mark, product(cols, k))
    }

    // k with its plan in the lowest free row whose product bit is 1; none where there is no such row: k depends on the live vectors.
    pub fn add(self, k: u64, plan: u64) -> Option<Self>
        ensures { result ≡ add rows k plan self }
    {
        let cols = self.cols;
        let mark = self.mark;
        let p = product(cols, k);
        let i = lowest(p ^ (p & mark))?;
        let next = col_step(i, p, cols);
        let sols = sol_step(next[i], self.lookup(k) ^ plan, self.sols);
        Some(Self {
            cols: next,
            mark: mark | bits::power(i),
            sols,
            bound: self.bound,
        })
    }

    // k with another plan; none where k is not live.
    pub fn change(self, k: u64, plan: u64) -> Option<Self>
        ensures { result ≡ change rows k plan self }
    {
        let i = self.row_of(k)?;
        let cols = self.cols;
        let sols = sol_step(cols[i], self.lookup(k) ^ plan, self.sols);
        Some(Self { sols, ..self })
    }
}
