// K's rows from the columns of its inverse, or the fact that there are none. The crate bucket_blocks guesses them, eight columns at a time, and tests the
// guess; where it says nothing, and where few rows are occupied, the elimination column by column decides, without counting ones.
// The rows that the mark does not name must be units; their columns need no pass, and an empty bucket none at all.
// The contract is an equation (`sound_rows`); proofs/Exact.antt says that it is exact both ways.
#![tactic(auto)]

ghost use Rattle.std.specs.Prelude.{◌≡◌, true, ◌/◌, ◌%◌, ◌^◌, ◌<◌, get_or};
ghost use Rattle.std.specs.Int.Count.{count_trailing_zeros};
ghost use Rattle.gf2.specs.Vectors.{sol_step};
ghost use Rattle.bits.specs.Width.{width};
ghost use Rattle.bucket_rows.specs.Elimination.{clear, passed, below, pick, ordered, eliminated, free_cols, sound_rows};

use bits::WIDTH;
use bucket_pairs::Guess;

// Up to so many occupied rows the elimination takes less time than the guess.
const FEW: u32 = 2;

// `w` is XORed into each number that has bit `p`.
fn clear(t: &mut [u64], p: usize, w: u64)
    requires { p < width }
    ensures { t.new ≡ clear p w t.old }
{
    for a in t {
        *a = bits::flip_if((*a >> p) % 2, w, *a);
    }
}

// The same from number `j` on; where row `j` is free, only `y` at `j`.
fn pass(t: &mut [u64; WIDTH], occupied: u64, j: usize, p: usize, w: u64, y: u64)
    requires { (j < width) × (p < width) }
    ensures { t.new ≡ passed (occupied / 2 ^ j % 2) j p w y t.old }
{
    if (occupied >> j) % 2 == 0 {
        t[j] = y;
    } else {
        clear(&mut t[j..], p, w);
    }
}

// `u` is XORed into each number whose bit of `d` is set.
fn flip_all(t: &mut [u64; WIDTH], u: u64, d: u64)
    ensures { t.new ≡ sol_step u d t.old }
{
    let mut left = d;
    while left != 0 {
        let a = left.trailing_zeros() as usize;
        t[a] ^= u;
        left &= left - 1;
    }
}

// `j` if `f` has bit `j`, else the lowest bit of `f`.
fn pick_of(j: usize, f: u64) -> Option<usize>
    requires { j < width }
    ensures { result ≡ below width (pick width j f) }
{
    if (f >> j) % 2 != 0 {
        return Some(j);
    }
    if f == 0 {
        return None;
    }
    Some(f.trailing_zeros() as usize)
}

fn dual_at(ds: &[u64; WIDTH], x: u64) -> u64
    ensures { result ≡ get_or ds.now (count_trailing_zeros width x) 0 }
{
    let a = x.trailing_zeros() as usize;
    if a < WIDTH { ds[a] } else { 0 }
}

fn in_order(ds: &[u64; WIDTH], t: &mut [u64; WIDTH])
    ensures { t.new ≡ ordered width ds.now t.old }
{
    for x in t {
        *x = dual_at(ds, *x);
    }
}

// The elimination. Outside `occupied` each column has its own bit alone, so the column of a free row needs no pass.
fn eliminate(cols: [u64; WIDTH], occupied: u64) -> Option<[u64; WIDTH]>
    requires { free_cols 0 occupied cols ≡ true }
    ensures { result ≡ eliminated width cols }
{
    let mut prods = cols;
    let mut duals = bits::unit_rows();
    let mut mark: u64 = 0;
    for j in 0..WIDTH {
        let x = prods[j];
        let p = pick_of(j, x ^ (x & mark))?;
        let unit = bits::power(p);
        let w = x ^ unit;
        if w != 0 {
            pass(&mut prods, occupied, j, p, w, unit);
            let u = duals[p];
            flip_all(&mut duals, u, w);
        }
        mark |= unit;
    }
    in_order(&duals, &mut prods);
    Some(prods)
}

// Each column has, outside `mark`, its own bit alone.
fn free_cols(cols: &[u64; WIDTH], mark: u64) -> bool
    ensures { result ≡ free_cols 0 mark cols.now }
{
    for (i, c) in cols.iter().enumerate() {
        let u = bits::power(i);
        if *c ^ (*c & mark) != u ^ (u & mark) {
            return false;
        }
    }
    true
}

// K's rows, if there are any and those outside `mark` are units.
pub fn rows_of(cols: [u64; WIDTH], mark: u64) -> Option<[u64; WIDTH]>
    ensures { result ≡ sound_rows width mark cols }
{
    if !free_cols(&cols, mark) {
        return None;
    }
    if mark == 0 {
        return Some(cols);
    }
    if FEW < mark.count_ones() {
        match bucket_blocks::guess_rows(cols, mark) {
            Guess::Rows(rows) => return Some(rows),
            Guess::Singular => return None,
            Guess::Unknown => {}
        }
    }
    eliminate(cols, mark)
}
