// Bytes: 64-bit numbers as 8 bytes, lowest first, and byte strings, read and written at any place of a slice.
// Definitions: specs/Bytes.antt and specs/Parts.antt. Laws: proofs/Round.antt (numbers and their bytes, both ways, for any
// number of bytes) and proofs/Part.antt (what a written part leaves of the rest, for lists of bytes and of words alike).
// No function asks that the place lies within the slice: what lies past the end is not read and not written.
#![tactic(auto)]

ghost use Rattle.std.specs.Prelude.{◌≡◌, ◌+◌, ◌*◌, ◌%◌, ◌^◌, ◌≤◌, ◌<◌, length, drop};
ghost use Rattle.codec.specs.Bytes.{from_bytes, to_bytes, eq_list};
ghost use Rattle.codec.specs.Parts.{part_at, written};

// One more byte, below those of x.
fn push_low(x: u64, b: u8) -> u64
    requires { x < 2 ^ 56 }
    ensures { result ≡ b + 256 * x }
{
    x << 8 | (b as u64)
}

// The lowest byte of x.
fn low(x: u64) -> u8
    ensures { result ≡ x % 256 }
{
    (x & 0xff) as u8
}

// The number of these bytes.
fn number(s: &[u8]) -> u64
    requires { length s.now ≤ 8 }
    ensures { result ≡ from_bytes s.now }
{
    let mut x = 0;
    for b in s.iter().rev() {
        x = push_low(x, *b);
    }
    x
}

// The bytes from index at on.
fn rest(s: &[u8], at: usize) -> &[u8]
    ensures { result.now ≡ drop at s.now }
{
    &s[at.min(s.len())..]
}

// The number of the 8 bytes from index at on, or of as many as there are.
pub fn get_u64(s: &[u8], at: usize) -> u64
    ensures { result ≡ from_bytes (part_at 8 at s.now) }
{
    let left = rest(s, at);
    match left.get(..8) {
        Some(word) => number(word),
        None => number(left),
    }
}

// The 8 bytes of x.
fn bytes(x: u64) -> [u8; 8]
    ensures { result ≡ to_bytes 8 x }
{
    std::array::from_fn(|i| low(x >> (8 * i)))
}

// Makes to a copy of from. By a loop: `copy_from_slice` calls C's memmove, and the library asks of C only memcpy and memset.
fn copy(to: &mut [u8], from: &[u8])
    requires { length to.old ≡ length from.now }
    ensures { to.new ≡ from.now }
{
    for (i, b) in to.iter_mut().enumerate() {
        *b = from[i];
    }
}

// Writes the bytes of s from index at on, as many as fit.
pub fn put_bytes(d: &mut [u8], at: usize, s: &[u8])
    ensures { d.new ≡ written at s.now d.old }
{
    if d.len() <= at {
        return;
    }
    let left = d.len() - at;
    if left < s.len() {
        copy(&mut d[at..], &s[..left]);
        return;
    }
    copy(&mut d[at..at + s.len()], s);
}

// Writes x as 8 bytes from index at on, as many as fit.
pub fn put_u64(d: &mut [u8], at: usize, x: u64)
    ensures { d.new ≡ written at (to_bytes 8 x) d.old }
{
    put_bytes(d, at, &bytes(x));
}

// Whether the bytes of p stand at index at of s.
pub fn same_at(s: &[u8], at: usize, p: &[u8]) -> bool
    ensures { result ≡ eq_list (part_at (length p.now) at s.now) p.now }
{
    rest(s, at).starts_with(p)
}

// Whether a and b are equal.
pub fn same(a: &[u8], b: &[u8]) -> bool
    ensures { result ≡ eq_list a.now b.now }
{
    a == b
}
