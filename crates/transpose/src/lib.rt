// The transpose of a matrix of bits: the rows of the matrix whose columns are the words. In six steps words are shuffled in pairs, by blocks of 32, 16, 8, 4, 2
// and 1 bits: the first of the two new words has the even blocks of both in turn, the second the odd ones.
// specs/Transposed.antt has the transpose, at every number of rows, and specs/Shuffle.antt the step, at every number of pairs. proofs/Transposed.antt has the rows
// of the transpose; proofs/Shuffling.antt that m steps are the transpose of 2 ^ m words, for every m; proofs/Below.antt a test of each number below n.
// That m is 6 here, and that the six masks are right, is shown in the proof of `transpose` alone.
#![tactic(auto)]

ghost use Rattle.std.specs.Prelude.{◌≡◌, ◌/◌, ◌<◌};
ghost use Rattle.bits.specs.Width.{width};
ghost use Rattle.transpose.specs.Shuffle.{Shuffled};
ghost use Rattle.transpose.specs.Transposed.{transposed};

use bits::WIDTH;

// Half of the words: each of the first half is paired with one of the second.
const HALF: usize = WIDTH / 2;

// Words `i` and `i + HALF` become words `2 * i` and `2 * i + 1`: their even blocks of `h` bits, and their odd ones. `mask` has the bits of the even blocks.
fn shuffle(words: [u64; WIDTH], h: usize, mask: u64) -> [u64; WIDTH]
    requires { h < width }
    ensures { Shuffled (width / 2) h mask words result }
{
    let mut out = [0u64; WIDTH];
    for i in 0..HALF {
        let x = words[i];
        let y = words[i + HALF];
        out[2 * i] = (x & mask) ^ ((y & mask) << h);
        out[2 * i + 1] = ((x >> h) & mask) ^ (y ^ (y & mask));
    }
    out
}

// Bit `a` of word `i` becomes bit `i` of word `a`.
pub fn transpose(words: [u64; WIDTH]) -> [u64; WIDTH]
    ensures { result ≡ transposed width words }
{
    let a = shuffle(words, 32, 0xffff_ffff);
    let b = shuffle(a, 16, 0xffff_0000_ffff);
    let c = shuffle(b, 8, 0xff_00ff_00ff_00ff);
    let d = shuffle(c, 4, 0x0f0f_0f0f_0f0f_0f0f);
    let e = shuffle(d, 2, 0x3333_3333_3333_3333);
    shuffle(e, 1, 0x5555_5555_5555_5555)
}
