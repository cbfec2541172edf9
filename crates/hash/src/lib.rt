// Hashing: FNV-1a 64 over bytes, S (the SplitMix64 output step) and the inverse of S, all modulo 2^64.
// Definitions: specs/Mix.antt and specs/Fnv.antt, in document 01's words. Laws: proofs/Inverse.antt (each of S and its
// inverse undoes the other, so S is one to one), proofs/FnvLaws.antt and proofs/FnvOne.antt (FNV is one to one in its first byte).
#![tactic(auto)]

ghost use Rattle.std.specs.Prelude.{◌≡◌, ◌*◌, ◌%◌, ◌^◌, ◌<◌};
ghost use Rattle.hash.specs.Mix.{xor_shift, un_xor_shift, mix_of, unmix_of};
ghost use Rattle.hash.specs.Fnv.{fnv_step, fnv_of};

// a * b, modulo 2^64, by halves of 32 bits: the product of the high halves does not count. In this form the compiler
// makes one multiplication of it.
pub fn wrapping_mul(a: u64, b: u64) -> u64
    ensures { result ≡ (a * b) % 2 ^ 64 }
{
    let a0 = a % 0x1_0000_0000;
    let a1 = a >> 32;
    let b0 = b % 0x1_0000_0000;
    let b1 = b >> 32;
    let cross = (a1 * b0).wrapping_add(a0 * b1);
    (cross << 32).wrapping_add(a0 * b0)
}

// x XOR x >> s.
fn xor_shift(x: u64, s: u64) -> u64
    requires { s < 64 }
    ensures { result ≡ xor_shift s x }
{
    x ^ (x >> s)
}

// The inverse of xor_shift where 64 bits are at most three shifts.
fn un_xor_shift(x: u64, s: u64) -> u64
    requires { s < 64 }
    ensures { result ≡ un_xor_shift s 2 x }
{
    let y = x >> s;
    x ^ (y ^ (y >> s))
}

// S(n).
#[tactic(auto, unfolding(crate::specs::Mix::mix_of))]
pub fn mix(n: u64) -> u64
    ensures { result ≡ mix_of n }
{
    let z1 = n.wrapping_add(0x9e37_79b9_7f4a_7c15);
    let z2 = wrapping_mul(xor_shift(z1, 30), 0xbf58_476d_1ce4_e5b9);
    let z3 = wrapping_mul(xor_shift(z2, 27), 0x94d0_49bb_1331_11eb);
    xor_shift(z3, 31)
}

// The inverse of S.
#[tactic(auto, unfolding(crate::specs::Mix::unmix_of))]
pub fn unmix(n: u64) -> u64
    ensures { result ≡ unmix_of n }
{
    let z3 = un_xor_shift(n, 31);
    let z2 = un_xor_shift(wrapping_mul(z3, 0x3196_42b2_d24d_8ec3), 27);
    let z1 = un_xor_shift(wrapping_mul(z2, 0x96de_1b17_3f11_9089), 30);
    z1.wrapping_add(0x61c8_8646_80b5_83eb)
}

// One byte of FNV-1a 64, h being the hash of the bytes before it.
pub fn fnv_step(h: u64, b: u8) -> u64
    ensures { result ≡ fnv_step h b }
{
    wrapping_mul(h ^ (b as u64), 0x100_0000_01b3)
}

// The hash of no bytes.
pub const FNV_START: u64 = 0xcbf2_9ce4_8422_2325;

// FNV-1a 64 of the bytes.
#[tactic(auto, unfolding(crate::specs::Fnv::fnv_from))]
pub fn fnv(bytes: &[u8]) -> u64
    ensures { result ≡ fnv_of bytes.now }
{
    bytes.iter().fold(FNV_START, |h, b| fnv_step(h, *b))
}
