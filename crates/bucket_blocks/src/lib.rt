// K's rows from the columns of its inverse, by a guess that is tested: elimination of eight columns at a time, on words in pairs (crate bucket_pairs). Of
// pivots and tables nothing is proved but that they are sums of pairs: at the end the left words are tested.
#![tactic(auto)]

ghost use Rattle.std.specs.Prelude.{◌≡◌, [], ◌∷◌, ◌+◌, ◌≤◌, ◌<◌, ◌^◌};
ghost use Rattle.bits.specs.Width.{width};
ghost use Rattle.bucket_pairs.specs.Pairs.{pairs_room, Keeps, OwnOutside, PairsOf, Guessed};

use bits::WIDTH;
use bucket_pairs::{Guess, Pair, TABLE, Tables};

// The pairs of the window: so many are looked at for pivots.
const AHEAD: usize = 16;

// The pairs that are worked on: 64, and as many behind them, all 0, as are read past them.
const ROOM: usize = 88;

// The lowest of each four bits.
const LOWEST: u64 = 0x1111_1111_1111_1111;

// The lower half of each byte.
const HALVES: u64 = 0x0f0f_0f0f_0f0f_0f0f;

// How far the choice of pivots for four columns is: bit k of `have` is set where column k has one. `mine` has what the pivots leave of these columns' bits
// of 16 pairs, four bits for each pair, and `others` of four other columns'; `next` is the pair that takes the next pivot's place.
#[derive(Clone, Copy)]
struct Choice {
    mine: u64,
    others: u64,
    have: u64,
    next: usize,
}

// How far the elimination is: so many pairs are done, and these columns lack a pivot.
#[derive(Clone, Copy)]
struct Progress {
    done: usize,
    lack: u64,
}

// The k sums so far, each with the pair added, become sums k to 2 * k - 1. Each is filed under its own bits.
fn double(
    sums: &mut [Pair; TABLE],
    table: &mut [Pair; TABLE],
    k: usize,
    pair: Pair,
    c: usize,
    have: u64,
)
    requires { (k ≤ 8) × (c < width) × (have < 16) }
    ensures { Keeps ((pair ∷ []) ∷ sums.old ∷ table.old ∷ []) (sums.new ∷ table.new ∷ []) }
{
    for i in 0..k {
        let sum = sums[i].plus(pair);
        sums[i + k] = sum;
        table[bucket_pairs::index_in(sum.left >> c, have)] = sum;
    }
}

// The sums of four pairs, each filed under its own bits at the four columns from `c` on.
fn file(table: &mut [Pair; TABLE], four: [Pair; 4], c: usize, have: u64)
    requires { (c < width) × (have < 16) }
    ensures { Keeps (four ∷ table.old ∷ []) (table.new ∷ []) }
{
    let mut sums = [Pair::ZERO; TABLE];
    double(&mut sums, table, 1, four[0], c, have);
    double(&mut sums, table, 2, four[1], c, have);
    double(&mut sums, table, 4, four[2], c, have);
    double(&mut sums, table, 8, four[3], c, have);
}

// The bits of the pairs at the eight columns from `c` on, a byte for each pair.
fn packed(pairs: &[Pair], c: usize) -> u64
    requires { c < width }
{
    pairs
        .iter()
        .rev()
        .fold(0, |w, p| (w << 8) ^ ((p.left >> c) % 256))
}

// The pair whose four bits begin at bit z: those of the first eight pairs and of the last eight take turns.
fn pair_at(z: usize) -> usize
    requires { z < width }
    ensures { result < 16 }
{
    z / 8 + 8 * (z / 4 % 2)
}

// The lowest four bits of v are XORed into each four bits of x whose lowest bit the mask has.
fn flip_fours(x: u64, mask: u64, v: u64) -> u64 {
    x ^ (mask & LOWEST) * (v % 16)
}

// A pivot for column k, if one of the 16 pairs in the window has its bit. Its place is taken by the next pair of `ws`.
fn pick(
    ws: &[Pair; ROOM],
    window: &mut [Pair; AHEAD],
    pairs: &mut [Pair; 4],
    k: usize,
    choice: Choice,
) -> Choice
    requires { (k < 4) × (choice.have < 2 ^ k) × (choice.next < pairs_room) }
    ensures { (result.have < 2 ^ (k + 1)) × (result.next ≤ choice.next + 1) × Keeps (ws.now ∷ window.old ∷ pairs.old ∷ []) (window.new ∷ pairs.new ∷ []) }
{
    let mask = (choice.mine >> k) & LOWEST;
    if mask == 0 {
        return choice;
    }
    let z = (mask.trailing_zeros() % 64) as usize;
    let p = pair_at(z);
    pairs[k] = window[p];
    window[p] = ws[choice.next];
    Choice {
        mine: flip_fours(choice.mine, mask, choice.mine >> z),
        others: flip_fours(choice.others, mask, choice.others >> z),
        have: choice.have + bits::power(k),
        next: choice.next + 1,
    }
}

// A pivot for each of four columns, of the 16 pairs in the window. Where a column has none, its pair is 0 and 0.
fn pick_four(ws: &[Pair; ROOM], window: &mut [Pair; AHEAD], choice: &mut Choice) -> [Pair; 4]
    requires { (choice.old.have ≡ 0) × (choice.old.next + 4 ≤ pairs_room) }
    ensures { (choice.new.have < 16) × (choice.new.next ≤ choice.old.next + 4) × Keeps (ws.now ∷ window.old ∷ []) (window.new ∷ result ∷ []) }
{
    let mut pairs = [Pair::ZERO; 4];
    for k in 0..4 {
        *choice = pick(ws, window, &mut pairs, k, *choice);
    }
    pairs
}

// Both tables, of pivots from the window: first those of four columns, and then those of the next four, cleared of the bits that the first table can clear.
// Bit k of the result is set where column k of the eight has one.
fn make_tables(
    ws: &[Pair; ROOM],
    window: &mut [Pair; AHEAD],
    tables: &mut Tables,
    c: usize,
    next: usize,
) -> u64
    requires { (c ≤ 56) × (next + 8 ≤ pairs_room) }
    ensures { (result < 256) × Keeps (ws.now ∷ window.old ∷ tables.old.first ∷ tables.old.second ∷ []) (window.new ∷ tables.new.first ∷ tables.new.second ∷ []) }
{
    let even = packed(&window[..8], c);
    let odd = packed(&window[8..], c);
    let mut choice = Choice {
        mine: (even & HALVES) ^ ((odd & HALVES) << 4),
        others: ((even >> 4) & HALVES) ^ (odd ^ (odd & HALVES)),
        have: 0,
        next,
    };
    let four = pick_four(ws, window, &mut choice);
    let low = choice.have;
    file(&mut tables.first, four, c, low);
    choice = Choice {
        mine: choice.others,
        others: 0,
        have: 0,
        next: choice.next,
    };
    let mut four = pick_four(ws, window, &mut choice);
    bucket_pairs::sweep(&mut four, tables, c, low);
    file(&mut tables.second, four, c + 4, choice.have);
    low + 16 * choice.have
}

// The pairs of the first table are cleared of their bits at the four columns of the second, which begin at `c`.
fn join(first: &mut [Pair; TABLE], second: &[Pair; TABLE], c: usize, have: u64)
    requires { (c < width) × (have < 16) }
    ensures { Keeps (first.old ∷ second.now ∷ []) (first.new ∷ []) }
{
    for p in first {
        *p = p.plus(second[bucket_pairs::index_in(p.left >> c, have)]);
    }
}

// The pivots of four columns, as their table has them, become the pairs from `at` on. The number of the pair after them.
fn lay(ws: &mut [Pair; ROOM], table: &[Pair; TABLE], have: u64, at: usize) -> usize
    requires { at + 4 ≤ pairs_room }
    ensures { (result ≤ at + 4) × Keeps (table.now ∷ ws.old ∷ []) (ws.new ∷ []) }
{
    let mut p = at;
    for k in 0..4 {
        if (have >> k) % 2 != 0 {
            ws[p] = table[bits::power(k) as usize];
            p += 1;
        }
    }
    p
}

// The pairs before `done` and those to come, before `count`, are swept; between them come the pivots. The number of pairs that are done then.
fn spread(
    ws: &mut [Pair; ROOM],
    tables: &Tables,
    c: usize,
    have: u64,
    done: usize,
    count: usize,
) -> usize
    requires { (c < width) × (have < 256) × (done + 8 ≤ pairs_room) × (count ≤ pairs_room) }
    ensures { Keeps (tables.now.first ∷ tables.now.second ∷ ws.old ∷ []) (ws.new ∷ []) }
{
    bucket_pairs::sweep(&mut ws[..done], tables, c, have);
    let middle = lay(ws, &tables.first, have % 16, done);
    let end = lay(ws, &tables.second, have / 16, middle);
    let todo = (end + AHEAD).min(count);
    bucket_pairs::sweep(&mut ws[todo..count], tables, c, have);
    end
}

// The eight columns from `c` on are eliminated, with pivots from the window; nothing is done where none of them lacks one. The pairs before `p.done`
// are done, those from AHEAD after it on, before `count`, are to come; the window stands between them. What the tables have from before is not used.
fn block(
    ws: &mut [Pair; ROOM],
    window: &mut [Pair; AHEAD],
    tables: &mut Tables,
    c: usize,
    count: usize,
    p: Progress,
) -> Progress
    requires { (c ≤ 56) × (count ≤ width) }
    ensures { Keeps (ws.old ∷ window.old ∷ tables.old.first ∷ tables.old.second ∷ []) (ws.new ∷ window.new ∷ tables.new.first ∷ tables.new.second ∷ []) }
{
    if (p.lack >> c) % 256 == 0 || WIDTH <= p.done {
        return p;
    }
    let have = make_tables(ws, window, tables, c, p.done + AHEAD);
    join(&mut tables.first, &tables.second, c + 4, have / 16);
    bucket_pairs::sweep(window, tables, c, have);
    Progress {
        done: spread(ws, tables, c, have, p.done, count),
        lack: p.lack ^ (have << c),
    }
}

// The pairs of the occupied rows: a row of the matrix, less its bits outside the mark, beside the vector whose product that is. What a free row
// would give is 0 and 0. The number of the pairs.
fn pairs_of(ws: &mut [Pair; ROOM], rows: [u64; WIDTH], mark: u64) -> usize
    ensures { (result ≤ width) × PairsOf width mark rows ws.old ws.new }
{
    let mut count = 0;
    for (a, x) in rows.iter().enumerate() {
        let inside = *x & mark;
        ws[count] = Pair {
            left: inside,
            right: bits::power(a) ^ (*x ^ inside),
        };
        count += ((mark >> a) % 2) as usize;
    }
    count
}

// K's rows, or the fact that there are none, or neither. Each column must have, outside the mark, its own bit alone.
pub fn guess_rows(cols: [u64; WIDTH], mark: u64) -> Guess
    requires { OwnOutside width mark cols }
    ensures { Guessed width cols result }
{
    let mut ws = [Pair::ZERO; ROOM];
    let count = pairs_of(&mut ws, transpose::transpose(cols), mark);
    let mut window: [Pair; AHEAD] = std::array::from_fn(|i| ws[i]);
    let mut tables = Tables {
        first: [Pair::ZERO; TABLE],
        second: [Pair::ZERO; TABLE],
    };
    let mut p = Progress {
        done: 0,
        lack: mark,
    };
    for b in 0..16 {
        p = block(&mut ws, &mut window, &mut tables, b % 8 * 8, count, p);
    }
    if p.lack == 0 {
        return bucket_pairs::rows_in(&ws[..count], mark);
    }
    match bucket_pairs::dependence(&window) {
        Some(_) => Guess::Singular,
        None => Guess::Unknown,
    }
}
