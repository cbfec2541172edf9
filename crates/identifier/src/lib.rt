// Identifiers: which kinds and bytes are one, the word of an identifier, and the place of a word at each level.
// Definitions: specs/Identifier.antt, specs/Kinds.antt, specs/Place.antt and specs/Causes.antt, in the documents' words; specs/Scan.antt has what one pass
// finds.
// Laws: proofs/Folding.antt (what folding changes), proofs/Causes.antt (each cause is given if and only if it is the first met),
// proofs/Words.antt (either case of a letter gives the same word, the same letters under two kinds give two, the vector at level 2
// determines the word).
#![tactic(auto)]

mod fold;

ghost use Rattle.std.specs.Prelude.{◌≡◌, ◌≤◌, length};
ghost use Rattle.identifier.specs.Identifier.{most_bytes, read_of, with_plan};
ghost use Rattle.identifier.specs.Kinds.{kind_of};
ghost use Rattle.identifier.specs.Scan.{scan};
ghost use Rattle.identifier.specs.Place.{second_of, first_of, place_of, threshold_at, bucket_at};

use answer::Cause;

// An identifier is 1 to 36 bytes of a kind. Only its word is kept of it.
#[derive(Clone, Copy)]
pub struct Identifier {}

// The kinds of identifiers and their numbers, document 02, order 4.
#[derive(Clone, Copy)]
pub enum Kind {
    Central = 1,
    Emaid = 2,
    Iso14443 = 3,
    Iso15693 = 4,
    KeyCode = 5,
    Local = 6,
    MacAddress = 7,
}

// The kind of a number, or cause 15.
impl TryFrom<u8> for Kind {
    type Error = Cause;

    ghost try_from_gives = { λ n r. r ≡ kind_of n };

    fn try_from(n: u8) -> Result<Kind, Cause> {
        match n {
            1 => Ok(Kind::Central),
            2 => Ok(Kind::Emaid),
            3 => Ok(Kind::Iso14443),
            4 => Ok(Kind::Iso15693),
            5 => Ok(Kind::KeyCode),
            6 => Ok(Kind::Local),
            7 => Ok(Kind::MacAddress),
            _ => Err(Cause::WrongKind),
        }
    }
}

impl Identifier {
    pub const MAX_LEN: usize = 36;

    // The threshold of a word at a level is a number below this.
    pub const THRESHOLDS: u64 = 8;

    // The word of the first n bytes as an identifier of this kind, or the cause for which they are turned down.
    pub fn read(kind: u8, n: usize, s: &[u8]) -> Result<u64, Cause>
        requires { n ≤ most_bytes → n ≤ length s.now }
        ensures { result ≡ read_of (record { kind = kind; stated = n; bytes = s.now }) }
    {
        Kind::try_from(kind)?;
        if n == 0 || Identifier::MAX_LEN < n {
            return Err(Cause::WrongLength(n as u64));
        }
        read_bytes(hash::fnv_step(hash::FNV_START, kind), &s[..n])
    }
}

// The word of the bytes of an identifier, start being the hash of its kind, or the index of the first byte that is not allowed. One pass;
// the table of bytes is made once.
fn read_bytes(start: u64, s: &[u8]) -> Result<u64, Cause>
    ensures { result ≡ scan 0 start s.now }
{
    let table = fold::table();
    let mut h = start;
    for (i, b) in s.iter().enumerate() {
        let folded = table[*b as usize];
        if fold::REFUSED <= folded {
            return Err(Cause::WrongByte(i as u64));
        }
        h = hash::fnv_step(h, folded);
    }
    Ok(hash::mix(h))
}

// What was read, for a call that gives a plan: cause 14, after those of the identifier, where the plan may not be given.
pub fn with_plan(read: Result<u64, Cause>, allowed: bool) -> Result<u64, Cause>
    ensures { result ≡ with_plan allowed read }
{
    if allowed {
        read
    } else {
        read.and(Err(Cause::DeskPlanGiven))
    }
}

// The threshold of the vector v at its level.
pub fn threshold(v: u64) -> u64
    ensures { result ≡ threshold_at (place_of v) }
{
    hash::mix(v) % Identifier::THRESHOLDS
}

// The bucket of the vector v, of n buckets. Modulo 0 a number stays as it is.
pub fn bucket(v: u64, n: u64) -> u64
    ensures { result ≡ bucket_at n (place_of v) }
{
    let place = hash::mix(v);
    if n == 0 {
        return place / Identifier::THRESHOLDS;
    }
    place / Identifier::THRESHOLDS % n
}

// The vector at level 2 of the word w.
pub fn second(w: u64) -> u64
    ensures { result ≡ second_of w }
{
    hash::mix(hash::mix(w))
}

// The word whose vector at level 2 is v.
pub fn first(v: u64) -> u64
    ensures { result ≡ first_of v }
{
    hash::unmix(hash::unmix(v))
}
