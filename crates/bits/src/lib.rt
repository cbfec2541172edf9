// Code on words of bits that the elimination and the bucket share: a power of two, an XOR under a condition, the unit vectors.
// Each is an equation with a definition of gf2; contracts name the width by specs/Width.antt.
#![tactic(auto)]

ghost use Rattle.std.specs.Prelude.{◌≡◌, ◌^◌, ◌<◌};
ghost use Rattle.gf2.specs.Vectors.{flip_if, units};
ghost use Rattle.bits.specs.Width.{width};

use std::array;

// The bits of a word, and so the rows and columns of a matrix of bits.
pub const WIDTH: usize = 64;

// 2^i.
pub fn power(i: usize) -> u64
    requires { i < width }
    ensures { result ≡ 2 ^ i }
{
    1 << i
}

// a with u XORed into it where d is set.
pub fn flip_if(d: u64, u: u64, a: u64) -> u64
    ensures { result ≡ flip_if d u a }
{
    if d == 0 { a } else { a ^ u }
}

// The unit vectors.
pub fn unit_rows() -> [u64; WIDTH]
    ensures { result ≡ units width }
{
    array::from_fn(power)
}
