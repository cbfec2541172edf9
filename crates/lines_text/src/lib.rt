// The line program's text: decimal numbers, the fields of a line, answers printed.
// Definitions: specs/Decimal.antt, specs/Line.antt (what a line asks for), specs/Printed.antt (what is printed for one line);
// specs/Parsed.antt has the forms that the code gives a line.
// Laws: proofs/Exact.antt (a field is read as a number exactly if it is its decimal, not above the limit; KIND exactly if it is one digit),
// proofs/Parted.antt (the parts between single bytes), proofs/Printed.antt (the longest line that is printed).
#![tactic(auto)]

ghost use Rattle.std.specs.Prelude.{◌≡◌, ◌+◌, ◌^◌, ◌≤◌, ◌<◌, ◌∷◌, [], ◌++◌, length, IfSome, MatchOption};
ghost use Rattle.codec.specs.Parts.{written};
ghost use Rattle.lines_text.specs.Decimal.{grown, number_to, digit_of, decimal};
ghost use Rattle.lines_text.specs.Line.{lf, most_buckets, parted, ask, ask_with, of_three, of_four, command_of};
ghost use Rattle.lines_text.specs.Parsed.{call_of, meant_or_bad, PlanWithin, Within};
ghost use Rattle.lines_text.specs.Printed.{bad_line, printed};

use answer::Answer;

// Which call a line asks for: its first word, and the plan that `add` and `set` give.
#[derive(Clone, Copy)]
pub enum Verb {
    Add(u64),
    Set(u64),
    Del,
    Get,
}

// What a line asks for: an opening with B1 and B2, or a call.
#[derive(Clone, Copy)]
pub enum Parsed<'a> {
    Open(u64, u64),
    Ask { verb: Verb, kind: u8, id: &'a [u8] },
}

impl Parsed<'_> {
    // The largest B1 and B2.
    pub(crate) const MOST_BUCKETS: u64 = 999;

    // The largest KIND.
    pub(crate) const MOST_KIND: u64 = 9;

    // The largest PLAN.
    pub(crate) const MOST_PLAN: u64 = 255;
}

// The digits of a 64-bit number, at most.
pub(crate) const MOST_DIGITS: usize = 20;

// The index of the last of them.
pub(crate) const LAST_DIGIT: usize = MOST_DIGITS - 1;

// The longest line that is printed: `ok `, the digits of a number and LF.
pub const MOST_PRINTED: usize = 3 + MOST_DIGITS + 1;

// One digit more.
pub(crate) fn push_digit(n: u64, b: u8) -> u64
    requires { (n ≤ most_buckets) × (digit_of 0 ≤ b) }
    ensures { result ≡ grown n b }
{
    10 * n + (b - b'0') as u64
}

// The number that the field says, to limit: decimal without leading zeros.
pub(crate) fn read_number(s: &[u8], limit: u64) -> Option<u64>
    requires { limit ≤ most_buckets }
    ensures value { result ≡ number_to limit s.now }
    ensures within { IfSome result (λ n. n ≤ limit) }
{
    if s.is_empty() || (s.len() > 1 && s[0] == b'0') {
        return None;
    }
    let mut n = 0;
    for b in s {
        if !b.is_ascii_digit() {
            return None;
        }
        n = push_digit(n, *b);
        if limit < n {
            return None;
        }
    }
    Some(n)
}

// The byte of a digit.
pub(crate) fn digit(d: u64) -> u8
    requires { d < 10 }
    ensures { result ≡ digit_of d }
{
    (48 + d) as u8
}

// Prints x from index at on, as much as fits. The next index. Digit by digit: the library's writer to a slice says nothing of the bytes that it writes.
pub(crate) fn put_decimal(out: &mut [u8], at: usize, x: u64) -> usize
    requires { at < 2 ^ 32 }
    ensures { (result ≡ at + length (decimal x)) × (out.new ≡ written at (decimal x) out.old) }
{
    let mut digits = [0u8; MOST_DIGITS];
    let mut left = x;
    let mut i: usize = LAST_DIGIT;
    while 10 <= left {
        digits[i] = digit(left % 10);
        left = left / 10;
        i -= 1;
    }
    digits[i] = digit(left);
    codec::put_bytes(out, at, &digits[i..]);
    at + (MOST_DIGITS - i)
}

// A call with what KIND says.
pub(crate) fn ask_form<'a>(verb: Verb, kind: &[u8], id: &'a [u8]) -> Option<Parsed<'a>>
    ensures means { meant_or_bad result ≡ ask_with kind.now id.now (λ i. ask (call_of verb i)) }
    ensures within { PlanWithin verb → IfSome result Within }
{
    let kind = read_number(kind, Parsed::MOST_KIND)? as u8;
    Some(Parsed::Ask { verb, kind, id })
}

// A line of three fields.
pub(crate) fn three_fields<'a>(word: &[u8], second: &[u8], third: &'a [u8]) -> Option<Parsed<'a>>
    ensures means { meant_or_bad result ≡ of_three word.now second.now third.now }
    ensures within { IfSome result Within }
{
    if codec::same(word, b"open") {
        let b1 = read_number(second, Parsed::MOST_BUCKETS)?;
        let b2 = read_number(third, Parsed::MOST_BUCKETS)?;
        return Some(Parsed::Open(b1, b2));
    }
    if codec::same(word, b"del") {
        return ask_form(Verb::Del, second, third);
    }
    if codec::same(word, b"get") {
        return ask_form(Verb::Get, second, third);
    }
    None
}

// A line of four fields.
pub(crate) fn four_fields<'a>(
    word: &[u8],
    second: &[u8],
    third: &'a [u8],
    fourth: &[u8],
) -> Option<Parsed<'a>>
    ensures means { meant_or_bad result ≡ of_four word.now second.now third.now fourth.now }
    ensures within { IfSome result Within }
{
    let plan = read_number(fourth, Parsed::MOST_PLAN);
    if codec::same(word, b"add") {
        return ask_form(Verb::Add(plan?), second, third);
    }
    if codec::same(word, b"set") {
        return ask_form(Verb::Set(plan?), second, third);
    }
    None
}

// The bytes before the first b and those after it, if there is one.
pub fn split_once(s: &[u8], b: u8) -> Option<(&[u8], &[u8])>
    ensures parts { MatchOption result (parted b s.now ≡ s.now ∷ []) (λ p. parted b s.now ≡ p.0.now ∷ parted b p.1.now) }
    ensures lengths { IfSome result (λ p. length p.0.now + 1 + length p.1.now ≡ length s.now) }
{
    let i = s.iter().position(|x| *x == b)?;
    Some((&s[..i], &s[i + 1..]))
}

// What a line asks for, without its LF.
pub fn parse(s: &[u8]) -> Option<Parsed>
    ensures means { meant_or_bad result ≡ command_of s.now }
    ensures within { IfSome result Within }
{
    let (word, rest) = split_once(s, b' ')?;
    let (second, rest) = split_once(rest, b' ')?;
    match split_once(rest, b' ') {
        None => three_fields(word, second, rest),
        Some((third, rest)) => match split_once(rest, b' ') {
            None => four_fields(word, second, third, rest),
            Some(_) => None,
        },
    }
}

// Prints the bytes of start, n and LF from index at on, as much as fits. The next index.
pub(crate) fn put_line(out: &mut [u8], at: usize, start: &[u8], n: u64) -> usize
    requires { at + length start.now < 2 ^ 32 }
    ensures { (result ≡ at + length (start.now ++ (decimal n ++ (lf ∷ [])))) × (out.new ≡ written at (start.now ++ (decimal n ++ (lf ∷ []))) out.old) }
{
    let next = at + start.len();
    codec::put_bytes(out, at, start);
    let end = put_decimal(out, next, n);
    codec::put_bytes(out, end, b"\n");
    end + 1
}

// Prints an answer.
pub fn put_answer(out: &mut [u8], at: usize, a: Answer) -> usize
    requires { at < 2 ^ 31 }
    ensures { (result ≡ at + length (printed a)) × (out.new ≡ written at (printed a) out.old) }
{
    match a {
        Ok(n) => put_line(out, at, b"ok ", n),
        Err(_) => put_line(out, at, b"no ", answer::number(a)),
    }
}

// Prints `bad`.
pub fn put_bad(out: &mut [u8], at: usize) -> usize
    requires { at < 2 ^ 32 }
    ensures { (result ≡ at + length bad_line) × (out.new ≡ written at bad_line out.old) }
{
    codec::put_bytes(out, at, b"bad\n");
    at + 4
}
