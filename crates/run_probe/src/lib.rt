// Entries for other languages over the parts of the library: a program made without this code is compared with them.
// Definitions: specs/Steps.antt (one bucket), specs/Fill.antt (a table that is filled).
#![tactic(auto)]

ghost use Rattle.std.specs.Prelude.{◌≡◌, ◌*◌, length};
ghost use Rattle.answer.specs.Numbers.{number_of, value_of};
ghost use Rattle.codec.specs.Bytes.{from_bytes, to_bytes};
ghost use Rattle.codec.specs.Parts.{part_at, written};
ghost use Rattle.hash.specs.Mix.{mix_of, unmix_of};
ghost use Rattle.hash.specs.Fnv.{fnv_of};
ghost use Rattle.identifier.specs.Identifier.{token, read_of};
ghost use Rattle.bucket.specs.Bucket.{add, withdraw};
ghost use Rattle.lines_text.specs.Printed.{most_printed};
ghost use Rattle.lines_run.specs.Run.{counted, output};
ghost use Rattle.lines_run.specs.Buffer.{Printed};
ghost use Rattle.run_probe.specs.Steps.{probed, probed_row, probed_matrix};
ghost use Rattle.model.specs.Machine.{accepted};
ghost use Rattle.table_edit.specs.Ready.{Ready};
ghost use Rattle.run_probe.specs.Fill.{taken_from, filled};

use bucket::Bucket;
use identifier::Identifier;

// The number of the answer to the bytes of an identifier of this kind, 0 if they are accepted. What is returned with it goes into value:
// the word, if they are accepted.
#[unsafe(no_mangle)]
pub extern "C" fn probe_word(kind: u8, id: &[u8], value: &mut u64) -> u64
    ensures { (result ≡ number_of (read_of (token kind id.now))) × (value.new ≡ value_of (read_of (token kind id.now))) }
{
    let read = Identifier::read(kind, id.len(), id);
    *value = answer::value(read);
    answer::number(read)
}

// S(n).
#[unsafe(no_mangle)]
pub extern "C" fn probe_mix(n: u64) -> u64
    ensures { result ≡ mix_of n }
{
    hash::mix(n)
}

// The inverse of S.
#[unsafe(no_mangle)]
pub extern "C" fn probe_unmix(n: u64) -> u64
    ensures { result ≡ unmix_of n }
{
    hash::unmix(n)
}

// FNV-1a 64 of the bytes.
#[unsafe(no_mangle)]
pub extern "C" fn probe_fnv(bytes: &[u8]) -> u64
    ensures { result ≡ fnv_of bytes.now }
{
    hash::fnv(bytes)
}

// The number of the 8 bytes from index at on, or of as many as there are.
#[unsafe(no_mangle)]
pub extern "C" fn probe_get(s: &[u8], at: usize) -> u64
    ensures { result ≡ from_bytes (part_at 8 at s.now) }
{
    codec::get_u64(s, at)
}

// Writes x as 8 bytes from index at on, as many as fit.
#[unsafe(no_mangle)]
pub extern "C" fn probe_put(d: &mut [u8], at: usize, x: u64)
    ensures { d.new ≡ written at (to_bytes 8 x) d.old }
{
    codec::put_u64(d, at, x);
}

// An add to the bucket of these words: 1 if it is done, 0 if the vector depends, 2 if they are not as many as a bucket has.
#[unsafe(no_mangle)]
pub extern "C" fn probe_add(part: &mut [u64], k: u64, plan: u64) -> u64
    ensures { (result ≡ (probed (add 64 k plan) part.old).number) × (part.new ≡ (probed (add 64 k plan) part.old).words) }
{
    if part.len() != Bucket::WORDS {
        return 2;
    }
    let p = bucket::product(bucket_words::array_of(&part[0..Bucket::ROWS]), k);
    if bucket_words::add_by(part, k, p, plan) {
        return 1;
    }
    0
}

// A withdrawal from the bucket of these words: 1 if it is done, 0 if the vector is not live, 2 as above.
#[unsafe(no_mangle)]
pub extern "C" fn probe_withdraw(part: &mut [u64], k: u64) -> u64
    ensures { (result ≡ (probed (withdraw 64 k) part.old).number) × (part.new ≡ (probed (withdraw 64 k) part.old).words) }
{
    if part.len() != Bucket::WORDS {
        return 2;
    }
    if bucket_words::withdraw(part, k) {
        return 1;
    }
    0
}

// The row of a vector in the bucket of these words: 64 if it is not live, 65 if they are not as many as a bucket has. Numbers, for C.
#[unsafe(no_mangle)]
pub extern "C" fn probe_row(part: &[u64], k: u64) -> u64
    ensures { result ≡ probed_row k part.now }
{
    if part.len() != Bucket::WORDS {
        return 65;
    }
    let b = bucket_words::load(part);
    b.row_of(k).unwrap_or(Bucket::ROWS) as u64
}

// Row i of the matrix K of the bucket of these words, or 0 where there is none.
#[unsafe(no_mangle)]
pub extern "C" fn probe_matrix(part: &[u64], i: usize) -> u64
    ensures { result ≡ probed_matrix i part.now }
{
    if part.len() != Bucket::WORDS {
        return 0;
    }
    let b = bucket_words::load(part);
    let Some(rows) = bucket_rows::rows_of(b.cols, b.mark) else {
        return 0;
    };
    if i < Bucket::ROWS { rows[i] } else { 0 }
}

// Adds of the words to a sound table, each with its low seven bits as plan, until the first refusal: how many were accepted.
fn add_all(t: &mut [u64], words: &[u64]) -> u64
    requires { Ready t.old }
    ensures { (result ≡ (taken_from 0 t.old words.now).number) × (t.new ≡ (taken_from 0 t.old words.now).words) }
{
    for (i, w) in words.iter().enumerate() {
        if table_add::add_word(t, *w, *w % 128).is_err() {
            return i as u64;
        }
    }
    words.len() as u64
}

// A table is opened, and filled with the words so. How many were accepted; 0 if the opening is refused.
#[unsafe(no_mangle)]
pub extern "C" fn probe_fill(t: &mut [u64], b1: u64, b2: u64, words: &[u64]) -> u64
    ensures { (result ≡ (filled b1 b2 t.old words.now).number) × (t.new ≡ (filled b1 b2 t.old words.now).words) }
{
    if table_open::open(t, b1, b2).is_err() {
        return 0;
    }
    add_all(t, words)
}

// The line program on an input: what it prints goes to out, as much as fits. The number of bytes printed.
#[unsafe(no_mangle)]
pub extern "C" fn probe_lines(input: &[u8], out: &mut [u8]) -> usize
    ensures { Printed (output input.now) (most_printed * length (counted input.now)) out.old result out.new }
{
    lines_run::run(input, out)
}
