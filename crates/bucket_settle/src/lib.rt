// Settling under a bound: a word that depends in one bucket comes to it, the bound falls while it depends, and the words that leave go one
// level further. specs/Settle.antt has the definition, in document 01's order. The code finds the words that leave at one bound, in order, and
// withdraws them; the fall itself is bucket_fall's.
// Laws: proofs/Hold.antt (what a bucket holds, as a list of entries), proofs/Settling.antt (where the bound comes to stand, who stays and
// who leaves), proofs/Sound.antt (`settle_meaning`; the bucket stays sound).
#![tactic(auto)]

ghost use Rattle.std.specs.Prelude.{◌≡◌, [], ◌∷◌, ◌++◌, ◌+◌, ◌<◌, ◌≤◌, length};
ghost use Rattle.lists.specs.Entries.{words, insert};
ghost use Rattle.gf2.specs.Select.{chosen};
ghost use Rattle.bucket.specs.Bucket.{rows, solutions};
ghost use Rattle.bucket_settle.specs.Settle.{SoundBucket, threshold_of, leaving, withdraw_all};
ghost use Rattle.bucket_settle.specs.Outgoing.{most_outgoing};
ghost use Rattle.bucket_settle.specs.Steps.{put_in, position_of, leaves, leaving_of};

use bucket::Bucket;
use identifier::threshold;
use std::marker::Model;

// A word that leaves a bucket, and its plan.
#[derive(Clone, Copy)]
pub struct Entry {
    pub word: u64,
    pub plan: u64,
}

impl Model for Entry {
    ghost use Rattle.lists.specs.Entries.{Entry};

    ghost Value = { Entry };

    ghost view = { λ e. record { word = e.word; plan = e.plan } };

    ghost inverse = { λ e. record { word = e.word; plan = e.plan } };
}

// The words that leave a bucket, with their plans, in order; the entries behind them are zeros.
#[derive(Clone, Copy)]
pub struct Outgoing {
    entries: [Entry; Outgoing::MOST],
    count: usize,
}

impl Model for Outgoing {
    ghost use Rattle.std.specs.Prelude.{List, length, take, ◌≤◌, ◌≡◌};
    ghost use Rattle.std.proofs.Common.{length-take-le, subst, sym};
    ghost use Rattle.lists.specs.Entries.{Entry};
    ghost use Rattle.bucket_settle.specs.Outgoing.{most_outgoing, padded};

    ghost Value = { List Entry };

    ghost view = { λ o. take o.count o.entries };

    ghost invariant = { λ o. (o.count ≤ most_outgoing) × (length o.entries ≡ most_outgoing) × (padded most_outgoing (take o.count o.entries) ≡ o.entries) };

    ghost inverse = { λ es. record { entries = padded most_outgoing es; count = length es } };

    ghost inverse_ok = { λ o h i. record {
      entries = h.2 i;
      count = length-take-le o.count o.entries (subst (λ n. o.count ≤ n) (sym h.1) h.0) i;
    } };
}

// e before entry i; the last entry goes.
pub(crate) fn put_into(entries: &mut [Entry], i: usize, e: Entry)
    ensures { entries.new ≡ put_in i e entries.old }
{
    let mut carried = e;
    for at in i..entries.len() {
        let next = entries[at];
        entries[at] = carried;
        carried = next;
    }
}

// How many of the entries stand before the first of a larger word.
pub(crate) fn position_among(entries: &[Entry], word: u64) -> usize
    ensures { result ≡ position_of word entries.now }
{
    entries
        .iter()
        .position(|e| word < e.word)
        .unwrap_or(entries.len())
}

impl Outgoing {
    // All rows of a bucket, and the new word.
    pub const MOST: usize = Bucket::ROWS + 1;

    pub fn new() -> Self
        ensures { result ≡ [] }
    {
        Self {
            entries: [Entry { word: 0, plan: 0 }; Self::MOST],
            count: 0,
        }
    }

    pub fn entries(&self) -> &[Entry]
        ensures { (result.now ≡ self.now) × (length self.now ≤ most_outgoing) }
    {
        &self.entries[..self.count]
    }

    // One word more, after all others.
    pub fn push(&mut self, e: Entry)
        requires { length self.old < most_outgoing }
        ensures { self.new ≡ self.old ++ (e ∷ []) }
    {
        self.entries[self.count] = e;
        self.count += 1;
    }

    // One word more, before the first larger one.
    pub(crate) fn insert(&mut self, e: Entry)
        requires { length self.old < most_outgoing }
        ensures { self.new ≡ insert e self.old }
    {
        let at = position_among(&self.entries[..self.count], e.word);
        self.count += 1;
        put_into(&mut self.entries[..self.count], at, e);
    }

    // More words.
    pub fn extend(&mut self, more: &[Entry])
        requires { length self.old + length more.now ≤ most_outgoing }
        ensures { self.new ≡ self.old ++ more.now }
    {
        for e in more {
            self.push(*e);
        }
    }
}

// v leaves: d is set, and its threshold is t.
pub(crate) fn leaves(d: u64, v: u64, t: u64) -> bool
    ensures { result ≡ leaves d threshold_of t v }
{
    d != 0 && threshold(v) == t
}

// Of the rows that are occupied in b those of threshold t, with their plans, smallest first.
pub(crate) fn leaving_of(b: Bucket, rows: [u64; Bucket::ROWS], t: u64) -> Outgoing
    ensures { result ≡ leaving_of threshold_of t b (chosen b.mark rows) }
{
    let mark = b.mark;
    let mut out = Outgoing::new();
    for i in (0..Bucket::ROWS).rev() {
        let v = rows[i];
        if leaves((mark >> i) % 2, v, t) {
            out.insert(Entry {
                word: v,
                plan: b.lookup(v),
            });
        }
    }
    out
}

// The words of threshold t, with their plans, smallest first.
pub fn leaving(b: Bucket, t: u64) -> Outgoing
    requires { SoundBucket rows solutions b }
    ensures { result ≡ leaving rows threshold_of t b }
{
    let rows = bucket_rows::rows_of(b.cols, b.mark).unwrap();
    leaving_of(b, rows, t)
}

// Each of the words is withdrawn.
pub fn withdraw_all(b: Bucket, entries: &[Entry]) -> Bucket
    ensures { result ≡ withdraw_all rows (words entries.now) b }
{
    let mut left = [0u64; Bucket::WORDS];
    bucket_words::store(&mut left, b);
    for e in entries {
        bucket_words::withdraw(&mut left, e.word);
    }
    bucket_words::load(&left)
}
