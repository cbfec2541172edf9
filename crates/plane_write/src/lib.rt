// The writer of planes: the plane of a table of any numbers, to the front of the output.
// Definitions: specs/Write.antt (the call, in document 01's words, and what the plane of a table gives), specs/Causes.antt; specs/Steps.antt
// is for the inner steps alone. Statements of the plane: proofs/Statements.antt.
#![tactic(auto)]

ghost use Rattle.std.specs.Prelude.{◌≡◌, true, ℕ, ◌+◌, ◌*◌, ◌≤◌, ◌<◌, length, drop};
ghost use Rattle.codec.specs.Bytes.{to_bytes};
ghost use Rattle.codec.specs.Parts.{written};
ghost use Rattle.bucket_words.specs.Words.{bucket_words};
ghost use Rattle.model.specs.Model.{base_limit};
ghost use Rattle.table.specs.Layout.{most_buckets1, most_buckets2, header, bucket_place};
ghost use Rattle.plane.specs.Record.{format1, word_bytes, bytes_of, read_all, bucket_length, entry_length, end_length, header_record, bucket_record, entry_record, end_record};
ghost use Rattle.plane.specs.Plane.{plane_bytes, buckets_at, plane_length};
ghost use Rattle.table.specs.Calls.{rows, solutions, table_of, shaped, sound};
ghost use Rattle.plane_write.specs.Write.{plane_of, in_front, put_front, write_call, Writes};
ghost use Rattle.plane_write.specs.Steps.{seen_from, pair_from, records_of};

use answer::{Answer, Cause};
use bucket::Bucket;
use plane::Record;
use table_layout::Table;

// Writes the words from the offset at on, 8 bytes each.
pub(crate) fn put_words(out: &mut [u8], at: usize, words: &[u64])
    requires { at + length words.now * word_bytes ≤ length out.old }
    ensures { out.new ≡ written at (bytes_of (to_bytes word_bytes) words.now) out.old }
{
    for (i, word) in words.iter().enumerate() {
        codec::put_u64(out, at + i * Record::WORD_LEN, *word);
    }
}

// Writes the record of the bucket whose numbers are b at the offset at.
pub(crate) fn put_bucket(out: &mut [u8], at: usize, b: &[u64])
    requires { (length b.now ≡ bucket_words rows solutions) × ((seen_from rows solutions b.now).bound < 256) × (at + bucket_length format1 ≤ length out.old) }
    ensures { out.new ≡ written at (bucket_record format1 (seen_from rows solutions b.now)) out.old }
{
    out[at] = Record::BUCKET;
    out[at + Record::BOUND_AT] = b[Bucket::BOUND_AT] as u8;
    put_words(
        out,
        at + Record::SOLUTIONS_AT,
        &b[Bucket::SOLUTIONS_AT..Bucket::BOUND_AT],
    );
}

// Writes the record of a base entry at the offset at.
pub(crate) fn put_entry(out: &mut [u8], at: usize, word: u64, plan: u64)
    requires { (plan < 256) × (at + entry_length ≤ length out.old) }
    ensures { out.new ≡ written at (entry_record (record { word = word; plan = plan })) out.old }
{
    out[at] = Record::ENTRY;
    codec::put_u64(out, at + 1, word);
    out[at + Record::PLAN_AT] = plan as u8;
}

// Writes the records of m buckets, whose numbers stand one after the other in b, from the offset at on.
pub(crate) fn put_buckets(out: &mut [u8], at: usize, b: &[u64], m: usize)
    requires solutions_in_bounds { (m * bucket_words rows solutions ≤ length b.now) × (at + m * bucket_length format1 ≤ length out.old) }
    requires low { (i : ℕ) → i < m → (seen_from rows solutions (drop (i * bucket_words rows solutions) b.now)).bound < 256 }
    ensures { out.new ≡ written at (bytes_of (bucket_record format1) (read_all (bucket_words rows solutions) (seen_from rows solutions) m b.now)) out.old }
{
    for i in 0..m {
        let from = i * Bucket::WORDS;
        put_bucket(
            out,
            at + i * Record::BUCKET_LEN,
            &b[from..from + Bucket::WORDS],
        );
    }
}

// Writes the records of k base entries, whose pairs stand in front, from the offset at on.
pub fn put_entries(out: &mut [u8], at: usize, pairs: &[u64], k: usize)
    requires k_in_bounds { (k * 2 ≤ length pairs.now) × (at + k * entry_length ≤ length out.old) }
    requires plans { (i : ℕ) → i < k → (pair_from (drop (i * 2) pairs.now)).plan < 256 }
    ensures { out.new ≡ written at (bytes_of entry_record (read_all 2 pair_from k pairs.now)) out.old }
{
    for i in 0..k {
        put_entry(
            out,
            at + i * Record::ENTRY_LEN,
            pairs[i * 2],
            pairs[i * 2 + 1],
        );
    }
}

// Writes the end at the offset at.
pub fn put_end(out: &mut [u8], at: usize)
    requires { at + end_length ≤ length out.old }
    ensures { out.new ≡ written at end_record out.old }
{
    out[at] = Record::END;
    codec::put_bytes(out, at + 1, b"END\n");
}

// Writes the header.
pub fn put_header(out: &mut [u8], buckets1: u64, buckets2: u64, entries: u64)
    requires { (buckets1 < 256) × (buckets2 < 256) × (entries < 256) }
    ensures { out.new ≡ written 0 (header_record format1 buckets1 buckets2 entries) out.old }
{
    let head = [
        Record::HEADER,
        Record::FORMAT,
        buckets1 as u8,
        buckets2 as u8,
        entries as u8,
    ];
    codec::put_bytes(out, 0, &head);
}

// Writes the records after the header, of these numbers of buckets and base entries of the table t.
pub(crate) fn put_records(out: &mut [u8], t: &[u64], buckets: usize, entries: usize)
    requires entries_in_bounds { (bucket_place rows solutions buckets + entries * 2 ≤ length t.now) × (plane_length format1 buckets entries ≤ length out.old) }
    requires low { (i : ℕ) → i < buckets → (seen_from rows solutions (drop (i * bucket_words rows solutions) (drop header t.now))).bound < 256 }
    requires plans { (i : ℕ) → i < entries → (pair_from (drop (i * 2) (drop (bucket_place rows solutions buckets) t.now))).plan < 256 }
    ensures { out.new ≡ written buckets_at (records_of rows format1 buckets entries t.now) out.old }
{
    let pairs_at = Table::HEADER + buckets * Bucket::WORDS;
    let entries_at = Record::BUCKETS_AT + buckets * Record::BUCKET_LEN;
    put_buckets(out, Record::BUCKETS_AT, &t[Table::HEADER..], buckets);
    put_entries(out, entries_at, &t[pairs_at..], entries);
    put_end(out, entries_at + entries * Record::ENTRY_LEN);
}

// Writes the plane of the sound table t in front of the output, which has room for it.
pub(crate) fn write_plane(t: &[u64], out: &mut [u8])
    requires { (shaped t.now ≡ true) × (sound t.now ≡ true) × (length (plane_bytes format1 (plane_of (table_of t.now))) ≤ length out.old) }
    ensures { out.new ≡ (in_front (plane_bytes format1 (plane_of (table_of t.now))) out.old).output }
{
    let buckets1 = t[Table::BUCKETS_1_AT];
    let buckets2 = t[Table::BUCKETS_2_AT];
    let entries = t[Table::BASE_COUNT_AT];
    put_header(out, buckets1, buckets2, entries);
    put_records(out, t, (buckets1 + buckets2) as usize, entries as usize);
}

// The length of a plane.
pub(crate) fn plane_len(buckets: usize, entries: usize) -> usize
    requires { (buckets ≤ most_buckets1 + most_buckets2) × (entries ≤ base_limit) }
    ensures { result ≡ plane_length format1 buckets entries }
{
    Record::BUCKETS_AT
        + buckets * Record::BUCKET_LEN
        + entries * Record::ENTRY_LEN
        + Record::END_LEN
}

// Writes the plane of the sound table t, if the output has room for it: cause 9.
pub(crate) fn write_sound(t: &[u64], out: &mut [u8]) -> Answer
    requires { (shaped t.now ≡ true) × (sound t.now ≡ true) }
    ensures { Writes (put_front (plane_bytes format1 (plane_of (table_of t.now))) out.old) result out.new }
{
    let buckets = (t[Table::BUCKETS_1_AT] + t[Table::BUCKETS_2_AT]) as usize;
    let needed = plane_len(buckets, t[Table::BASE_COUNT_AT] as usize);
    if out.len() < needed {
        return Err(Cause::ShortOutput(needed as u64));
    }
    write_plane(t, out);
    Ok(needed as u64)
}

// The plane of a table of any numbers, to the front of the output: causes 4, 5, 9. Nothing is written where it is turned down.
pub fn write(t: &[u64], out: &mut [u8]) -> Answer
    ensures { Writes (write_call t.now out.old) result out.new }
{
    if !table_layout::shaped(t) {
        return Err(Cause::WrongTable(t.len() as u64));
    }
    if !table_sound::sound(t) {
        return Err(Cause::NotSound);
    }
    write_sound(t, out)
}
