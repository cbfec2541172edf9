// The plane: the small file that every post reads to find the plan of an identifier. Its records and its reader, for any bytes.
// Definitions, in document 01's words: specs/Record.antt and specs/Plane.antt (the bytes in each format, which planes are wrong, what the
// bytes say), specs/Lookup.antt (the lookup, crate plane_lookup), specs/Fits.antt (its limits), specs/Offset.antt (the offset of what is wrong, without the
// scan), specs/Causes.antt; specs/Right.antt (the parts of a right plane) and specs/Steps.antt are for the inner steps alone. Laws: proofs/Scan.antt (a scan of
// records of any kind), proofs/Round.antt and proofs/Exact.antt (just the planes within the limits have bytes that are wrong nowhere), proofs/Offset.antt,
// proofs/Causes.antt, proofs/Desk.antt (who gets plan 255); the statements stand with the writer.
#![tactic(auto)]

ghost use Rattle.std.specs.Prelude.{◌≡◌, leb, ◌&&◌, ◌+◌, ◌*◌, ◌≤◌, ◌<◌, length, drop};
ghost use Rattle.lists.specs.Entries.{assignable};
ghost use Rattle.model.specs.Model.{base_limit};
ghost use Rattle.table.specs.Layout.{most_buckets1, most_buckets2};
ghost use Rattle.plane.specs.Record.{format1, entry_body, entry_length, entry_from};
ghost use Rattle.plane.specs.Steps.{least_after};
ghost use Rattle.plane.specs.Plane.{buckets_at, whole, header_fits, bucket_fits, buckets_wrong, entries_wrong, end_fits, end_wrong, records_wrong, wrong_at};

use bucket::Bucket;
use table_layout::Table;

mod right;

pub use right::Plane;

// The records of a plane: the kind byte of each, and how many bytes follow it. Kinds are numbers and no enum: each is only compared with a byte or written as
// one, and those of a patch (crate patch) go on from these.
#[derive(Clone, Copy)]
pub struct Record {}

impl Record {
    // The bytes of a 64-bit number.
    pub const WORD_LEN: usize = 8;

    pub const HEADER: u8 = 1;

    pub const HEADER_BODY: usize = 4;

    pub const BUCKET: u8 = 2;

    pub const BUCKET_BODY: usize = 1 + Record::WORD_LEN * Bucket::SOLUTIONS;

    pub const ENTRY: u8 = 3;

    pub const ENTRY_BODY: usize = Record::WORD_LEN + 1;

    pub const END: u8 = 4;

    pub const END_BODY: usize = 4;

    // The format of the planes.
    pub const FORMAT: u8 = 1;

    // Where the numbers of a header stand.
    pub const FORMAT_AT: usize = 1;

    pub const BUCKETS_1_AT: usize = 2;

    pub const BUCKETS_2_AT: usize = 3;

    pub const BASE_COUNT_AT: usize = 4;

    // Where the bound of a bucket stands in its record, and its solution words.
    pub const BOUND_AT: usize = 1;

    pub const SOLUTIONS_AT: usize = 2;

    // Where the plan stands in the record of a base entry, after its word.
    pub const PLAN_AT: usize = 1 + Record::WORD_LEN;

    // Where the buckets start.
    pub const BUCKETS_AT: usize = 1 + Record::HEADER_BODY;

    // With the kind byte.
    pub const BUCKET_LEN: usize = 1 + Record::BUCKET_BODY;

    pub const ENTRY_LEN: usize = 1 + Record::ENTRY_BODY;

    pub const END_LEN: usize = 1 + Record::END_BODY;
}

// A record of this kind, not cut, stands in front.
pub fn whole(p: &[u8], kind: u8, body: usize) -> bool
    ensures { result ≡ whole kind body p.now }
{
    body < p.len() && p[0] == kind
}

// The header: format 1, bucket numbers in range, at most 64 entries.
pub(crate) fn header_fits(p: &[u8]) -> bool
    ensures { result ≡ header_fits format1 p.now }
{
    whole(p, Record::HEADER, Record::HEADER_BODY)
        && p[Record::FORMAT_AT] == Record::FORMAT
        && table_layout::in_range(
            u64::from(p[Record::BUCKETS_1_AT]),
            u64::from(p[Record::BUCKETS_2_AT]),
        )
        && u64::from(p[Record::BASE_COUNT_AT]) <= Table::BASE_ENTRIES
}

// A bucket in front, with a bound of at most 8.
pub(crate) fn bucket_fits(p: &[u8]) -> bool
    ensures { result ≡ bucket_fits format1 p.now }
{
    whole(p, Record::BUCKET, Record::BUCKET_BODY)
        && u64::from(p[Record::BOUND_AT]) <= Bucket::LARGEST_BOUND
}

// m buckets from the offset first on.
pub(crate) fn buckets_wrong(plane: &[u8], first: usize, m: usize) -> Result<(), usize>
    requires { first ≤ length plane.now }
    ensures { result ≡ buckets_wrong format1 m first (drop first plane.now) }
{
    for i in 0..m {
        let at = first + i * Record::BUCKET_LEN;
        if !bucket_fits(&plane[at..]) {
            return Err(at);
        }
    }
    Ok(())
}

// The word of the base entry in front.
pub fn entry_word(p: &[u8]) -> u64
    ensures { result ≡ (entry_from p.now).word }
{
    codec::get_u64(p, 1)
}

// A base entry in a record of this kind stands in front, not cut, with a plan that a word may be given.
pub fn entry_assignable(p: &[u8], kind: u8) -> bool
    ensures { result ≡ (whole kind entry_body p.now && assignable (entry_from p.now).plan) }
{
    whole(p, kind, Record::ENTRY_BODY) && table_layout::assignable(u64::from(p[Record::PLAN_AT]))
}

// Whether the word exceeds the last one, if there is one.
pub(crate) fn exceeds(word: u64, last: Option<u64>) -> bool
    ensures { result ≡ leb (least_after last) word }
{
    last.is_none_or(|before| before < word)
}

// k base entries from the offset first on, none of them cut.
pub(crate) fn ascending(plane: &[u8], first: usize, k: usize) -> Result<(), usize>
    requires { first + k * entry_length ≤ length plane.now }
    ensures { result ≡ entries_wrong 0 k first (drop first plane.now) }
{
    let mut last = None;
    for i in 0..k {
        let at = first + i * Record::ENTRY_LEN;
        let e = &plane[at..at + Record::ENTRY_LEN];
        if !entry_assignable(e, Record::ENTRY) {
            return Err(at);
        }
        let word = entry_word(e);
        if !exceeds(word, last) {
            return Err(at); // not above the one before
        }
        last = Some(word);
    }
    Ok(())
}

// k base entries from the offset first on: how many are not cut is found once.
pub(crate) fn entries_wrong(plane: &[u8], first: usize, k: usize) -> Result<(), usize>
    requires { first ≤ length plane.now }
    ensures { result ≡ entries_wrong 0 k first (drop first plane.now) }
{
    let there = (plane.len() - first) / Record::ENTRY_LEN;
    if k <= there {
        return ascending(plane, first, k);
    }
    ascending(plane, first, there)?;
    Err(first + there * Record::ENTRY_LEN)
}

// The end in front, with its fixed byte string.
pub(crate) fn end_fits(p: &[u8]) -> bool
    ensures { result ≡ end_fits p.now }
{
    whole(p, Record::END, Record::END_BODY) && codec::same_at(p, 1, b"END\n")
}

// The end at the offset at, and nothing after it.
pub fn end_wrong(plane: &[u8], at: usize) -> Result<(), usize>
    requires { at ≤ length plane.now }
    ensures { result ≡ end_wrong at (drop at plane.now) }
{
    let p = &plane[at..];
    if !end_fits(p) {
        return Err(at);
    }
    if p.len() != Record::END_LEN {
        return Err(at + Record::END_LEN);
    }
    Ok(())
}

// The records after the header.
pub(crate) fn records_wrong(plane: &[u8], buckets: usize, entries: usize) -> Result<(), usize>
    requires { (buckets_at ≤ length plane.now) × (buckets ≤ most_buckets1 + most_buckets2) × (entries ≤ base_limit) }
    ensures { result ≡ records_wrong format1 buckets entries plane.now }
{
    let entries_at = Record::BUCKETS_AT + buckets * Record::BUCKET_LEN;
    let end_at = entries_at + entries * Record::ENTRY_LEN;
    buckets_wrong(plane, Record::BUCKETS_AT, buckets)?;
    entries_wrong(plane, entries_at, entries)?;
    end_wrong(plane, end_at)
}

// The whole plane, in one pass: `Err` is the offset where it is wrong first, as in the parts above.
pub fn wrong_at(plane: &[u8]) -> Result<(), usize>
    ensures { result ≡ wrong_at format1 plane.now }
{
    if !header_fits(plane) {
        return Err(0);
    }
    records_wrong(
        plane,
        usize::from(plane[Record::BUCKETS_1_AT]) + usize::from(plane[Record::BUCKETS_2_AT]),
        usize::from(plane[Record::BASE_COUNT_AT]),
    )
}
