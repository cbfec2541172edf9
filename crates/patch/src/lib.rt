// Patches: what changes from one plane to the next, for posts on slow links; document 02, order 1. Definitions, laws, and what making and
// applying share.
// Definitions, in the order's words: specs/Base.antt (the base list edited), specs/Record.antt (kinds 5 to 8), specs/Patch.antt (what a
// patch says, made and applied), specs/Wrong.antt (which patches are wrong, what the bytes say), specs/Calls.antt (the two calls),
// specs/Fits.antt (the limits), specs/Offset.antt (the offset of what is wrong, without the scan), specs/Causes.antt;
// specs/Cursor.antt is for the inner steps alone. The statements stand in proofs/Statements.antt and proofs/Calls.antt.
#![tactic(auto)]

ghost use Rattle.std.specs.Prelude.{◌≡◌, ◌+◌, ◌*◌, ◌≤◌, ◌<◌, length, take, drop, [], ◌∷◌, ◌++◌};
ghost use Rattle.model.specs.Model.{base_limit};
ghost use Rattle.codec.specs.Parts.{written};
ghost use Rattle.plane.specs.Record.{format1, entry_length, entry_bytes, entry_from};
ghost use Rattle.plane.specs.Plane.{plane_from};
ghost use Rattle.plane_write.specs.Write.{put_front, Writes};
ghost use Rattle.patch.specs.Cursor.{below, plan_first, after};
ghost use Rattle.patch.specs.Wrong.{run};

use answer::{Answer, Cause};
use plane::{Plane, Record};
use std::marker::Model;
use table_layout::Table;

// The records of a patch: the kind byte of each (numbers, as those of a plane), how many bytes follow it, how long it is with the kind byte.
#[derive(Clone, Copy)]
pub struct Patch {}

impl Patch {
    pub const SUMS: u8 = 5;

    pub const SUMS_BODY: usize = 2 * Record::WORD_LEN;

    pub const CHANGE: u8 = 6;

    pub const CHANGE_BODY: usize = 1 + Record::BUCKET_BODY;

    pub const GONE: u8 = 7;

    pub const GONE_BODY: usize = Record::WORD_LEN;

    pub const NEW: u8 = 8;

    pub const NEW_BODY: usize = Record::ENTRY_BODY;

    pub const CHANGE_LEN: usize = 1 + Patch::CHANGE_BODY;

    pub const GONE_LEN: usize = 1 + Patch::GONE_BODY;

    pub const NEW_LEN: usize = 1 + Patch::NEW_BODY;

    // Where the sums stand, of the old plane and of the new one.
    pub const OLD_SUM_AT: usize = 1;

    pub const NEW_SUM_AT: usize = 1 + Record::WORD_LEN;

    // Where the changes start.
    pub const CHANGES_AT: usize = 1 + Patch::SUMS_BODY;

    // Where the index of a change stands in its record, and its bucket without the kind byte.
    pub const INDEX_AT: usize = 1;

    pub const BUCKET_AT: usize = 2;

    // The longest patch, and the longest plane.
    pub const LONGEST: usize = Patch::CHANGES_AT
        + Table::MOST_BUCKETS * Patch::CHANGE_LEN
        + (Table::BASE_ENTRIES as usize) * (Patch::GONE_LEN + Patch::NEW_LEN)
        + Record::END_LEN;

    pub const LONGEST_PLANE: usize = Record::BUCKETS_AT
        + Table::MOST_BUCKETS * Record::BUCKET_LEN
        + (Table::BASE_ENTRIES as usize) * Record::ENTRY_LEN
        + Record::END_LEN;
}

// A base entry: its word, and its plan.
#[derive(Clone, Copy, PartialEq, Eq)]
pub struct Entry {
    pub word: u64,
    pub plan: u8,
}

impl Model for Entry {
    ghost use Rattle.lists.specs.Entries.{Entry};

    ghost Value = { Entry };

    ghost view = { λ e. record { word = e.word; plan = e.plan } };

    ghost inverse = { λ e. record { word = e.word; plan = e.plan } };
}

impl Entry {
    // The entry whose record is in front, of any kind.
    pub fn read(p: &[u8]) -> Entry
        requires { entry_length ≤ length p.now }
        ensures { result ≡ entry_from p.now }
    {
        Entry {
            word: plane::entry_word(p),
            plan: p[Record::PLAN_AT],
        }
    }

    // Writes its record, of this kind, at the offset at.
    pub fn put(self, out: &mut [u8], at: usize, kind: u8)
        requires { at + entry_length ≤ length out.old }
        ensures { out.new ≡ written at (kind ∷ entry_bytes self) out.old }
    {
        out[at] = kind;
        codec::put_u64(out, at + 1, self.word);
        out[at + Record::PLAN_AT] = self.plan;
    }
}

// A base list: at most 64 entries.
#[derive(Drop)]
pub struct BaseList {
    entries: [Entry; BaseList::MOST],
    count: usize,
}

impl Model for BaseList {
    ghost use Rattle.std.specs.Prelude.{List, take, ◌≤◌};
    ghost use Rattle.lists.specs.Entries.{Entry};
    ghost use Rattle.model.specs.Model.{base_limit};

    ghost Value = { List Entry };

    ghost view = { λ b. take b.count b.entries };

    ghost invariant = { λ b. b.count ≤ base_limit };
}

impl BaseList {
    pub const MOST: usize = Table::BASE_ENTRIES as usize;

    pub fn new() -> BaseList
        ensures { result ≡ [] }
    {
        BaseList {
            entries: [Entry { word: 0, plan: 0 }; BaseList::MOST],
            count: 0,
        }
    }

    pub fn entries(&self) -> &[Entry]
        ensures { (result.now ≡ self.now) × (length self.now ≤ base_limit) }
    {
        &self.entries[..self.count]
    }

    // No entry.
    fn clear(&mut self)
        ensures { self.new ≡ [] }
    {
        self.count = 0;
    }

    // One entry more.
    pub fn push(&mut self, e: Entry)
        requires { length self.old < base_limit }
        ensures { self.new ≡ self.old ++ (e ∷ []) }
    {
        self.entries[self.count] = e;
        self.count += 1;
    }

    // More entries.
    pub fn extend(&mut self, more: &[Entry])
        requires { length self.old + length more.now ≤ base_limit }
        ensures { self.new ≡ self.old ++ more.now }
    {
        // By a loop: `copy_from_slice` calls C's memmove, and the library asks of C only memcpy and memset.
        for e in more {
            self.push(*e);
        }
    }
}

// A word in an ascending list of entries.
#[derive(Clone, Copy)]
pub struct Place<'a> {
    // The entries of smaller words.
    pub below: &'a [Entry],
    // The plan of the word, if it has an entry.
    pub plan: Option<u8>,
    // The entries of larger words.
    pub above: &'a [Entry],
}

// How many records of this kind and size stand one after the other from the offset `first` on; the last may be cut. A `while`: how many there are is not
// known before.
pub fn run(d: &[u8], first: usize, kind: u8, size: usize) -> usize
    requires { (0 < kind) × (0 < size) × (size < 256) }
    ensures { result ≡ run kind size (length d.now) (drop first d.now) }
{
    let mut n = 0;
    let mut at = first;
    while d.get(at) == Some(&kind) {
        at += size;
        n += 1;
    }
    n
}

// The base list of a plane, into `base`: lent, as a list that is returned is copied.
pub fn load_base(plane: &Plane, base: &mut BaseList)
    ensures { base.new ≡ (plane_from format1 plane.now.bytes.now).base }
{
    base.clear();
    for e in plane.base().chunks_exact(Record::ENTRY_LEN) {
        base.push(Entry::read(e));
    }
}

// How many entries in front have a word below w.
fn below(entries: &[Entry], w: u64) -> usize
    ensures { result ≡ below w entries.now }
{
    entries
        .iter()
        .position(|e| w <= e.word)
        .unwrap_or(entries.len())
}

// Where the word w stands among these entries.
pub fn seek(entries: &[Entry], w: u64) -> Place
    ensures below { result.below.now ≡ take (below w entries.now) entries.now }
    ensures plan { result.plan ≡ plan_first w (drop (below w entries.now) entries.now) }
    ensures above { result.above.now ≡ after w (drop (below w entries.now) entries.now) }
{
    let (below, from) = entries.split_at(below(entries, w));
    match from.split_first() {
        Some((e, above)) if e.word == w => Place {
            below,
            plan: Some(e.plan),
            above,
        },
        _ => Place {
            below,
            plan: None,
            above: from,
        },
    }
}

// The bytes to the front of the output, if they fit: cause 9.
pub fn put_front(bytes: &[u8], out: &mut [u8]) -> Answer
    ensures { Writes (put_front bytes.now out.old) result out.new }
{
    let needed = bytes.len();
    if out.len() < needed {
        return Err(Cause::ShortOutput(needed as u64));
    }
    codec::put_bytes(out, 0, bytes);
    Ok(needed as u64)
}
