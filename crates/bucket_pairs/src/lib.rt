// Words in pairs, the left one the product of the right one: what is XORed of them, and what is read off them at the end. Where the left words are the
// units, the right ones are K's rows; where one is 0 and its right word is not, there is no K. The contracts are equations (specs/Pairs.antt). Pairs are
// XORed and moved, and nothing else, so the left words stay the products, whichever pairs are chosen: proofs/Tied.antt and proofs/Read.antt say so.
#![tactic(auto)]

ghost use Rattle.std.specs.Prelude.{◌≡◌, ◌<◌, map};
ghost use Rattle.bits.specs.Width.{width};
ghost use Rattle.bucket_pairs.specs.Pairs.{added, index_of, swept, only_bit, read_rows, dependence};

use bits::WIDTH;

// Pairs of a table: one for each sum of four pivots.
pub const TABLE: usize = 16;

// A word beside the vector whose product it is.
#[derive(Clone, Copy)]
pub struct Pair {
    pub left: u64,
    pub right: u64,
}

impl Pair {
    pub const ZERO: Pair = Pair { left: 0, right: 0 };

    // The sum, word by word.
    pub fn plus(self, other: Pair) -> Pair
        ensures { result ≡ added self other }
    {
        Pair {
            left: self.left ^ other.left,
            right: self.right ^ other.right,
        }
    }
}

// That of the first four columns of eight, and that of the last four.
#[derive(Clone, Copy)]
pub struct Tables {
    pub first: [Pair; TABLE],
    pub second: [Pair; TABLE],
}

// What is guessed.
#[derive(Clone, Copy)]
pub enum Guess {
    Rows([u64; WIDTH]),
    // there are no rows
    Singular,
    // it is not known whether there are
    Unknown,
}

// The index in a table: those of the lowest four bits that it is made for.
pub fn index_in(x: u64, have: u64) -> usize
    requires { have < 16 }
    ensures { result ≡ index_of x have }
{
    (x & have) as usize
}

// Each pair is XORed with the pair of each table that has its bits: the first table is for the four columns from `c` on, the second for the next four.
pub fn sweep(ws: &mut [Pair], tables: &Tables, c: usize, have: u64)
    requires { (c < width) × (have < 256) }
    ensures { ws.new ≡ map (swept tables.now c have) ws.old }
{
    for p in ws {
        let x = p.left >> c;
        let u = tables.first[index_in(x, have % 16)];
        let v = tables.second[index_in(x >> 4, have / 16)];
        *p = p.plus(u).plus(v);
    }
}

// The bit of a word that has one bit alone.
fn only_bit(x: u64) -> Option<usize>
    ensures { result ≡ only_bit width x }
{
    let j = x.trailing_zeros() as usize;
    if j < WIDTH && x == bits::power(j) {
        Some(j)
    } else {
        None
    }
}

// The right words, as rows, if the left ones are the units of the rows that the mark names. The other rows are units.
pub fn rows_in(ws: &[Pair], mark: u64) -> Guess
    ensures { result ≡ read_rows width mark ws.now }
{
    let mut rows = bits::unit_rows();
    let mut left = mark;
    for p in ws {
        let Some(j) = only_bit(p.left) else {
            return Guess::Unknown;
        };
        rows[j] = p.right;
        left ^= left & p.left;
    }
    if left != 0 {
        return Guess::Unknown;
    }
    Guess::Rows(rows)
}

// The first right word other than 0 whose left word is 0.
pub fn dependence(window: &[Pair]) -> Option<u64>
    ensures { result ≡ dependence window.now }
{
    window
        .iter()
        .find(|p| p.left == 0 && p.right != 0)
        .map(|p| p.right)
}
