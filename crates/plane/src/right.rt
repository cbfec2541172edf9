// A plane that is right, and its parts.
ghost use Rattle.std.specs.Prelude.{ℕ, ◌≡◌, ◌+◌, ◌≤◌, ◌<◌, length, get_or, MatchResult, Ok, Err};
ghost use Rattle.std.proofs.Props.{props};
ghost use Rattle.table.specs.Layout.{most_buckets1, most_buckets2};
ghost use Rattle.plane.specs.Record.{format1, bucket_length, end_length};
ghost use Rattle.plane.specs.Plane.{buckets1, bucket_count, entries_at, wrong_at, plane_from};
ghost use Rattle.plane.specs.Right.{buckets_read, entries_read};

use crate::Record;

// The bytes of a plane that is wrong nowhere.
#[derive(Clone, Copy)]
pub struct Plane<'a> {
    pub bytes: &'a [u8],
    pub ghost right: { wrong_at format1 bytes.now ≡ Ok tt } by { Prim.hlevel props },
    pub ghost octets: { (i : ℕ) → get_or bytes.now i 0 < 256 } by { Prim.hlevel props },
}

impl<'a> Plane<'a> {
    // The plane that the bytes are, or where they are wrong first.
    pub fn read(bytes: &'a [u8]) -> Result<Plane<'a>, usize>
        ensures { MatchResult result (λ p. p.bytes.now ≡ bytes.now) (λ at. wrong_at format1 bytes.now ≡ Err at) }
    {
        crate::wrong_at(bytes)?;
        Ok(Plane { bytes })
    }

    // How many buckets both levels have.
    pub fn buckets(&self) -> usize
        ensures count { result ≡ bucket_count self.now.bytes.now }
        ensures few { result ≤ most_buckets1 + most_buckets2 }
    {
        usize::from(self.bytes[Record::BUCKETS_1_AT])
            + usize::from(self.bytes[Record::BUCKETS_2_AT])
    }

    // Where level 2 starts.
    fn level_2_at(&self) -> usize
        ensures { result ≡ entries_at format1 (buckets1 self.now.bytes.now) }
    {
        Record::BUCKETS_AT + usize::from(self.bytes[Record::BUCKETS_1_AT]) * Record::BUCKET_LEN
    }

    // Where the base entries start.
    pub fn base_at(&self) -> usize
        ensures at { result ≡ entries_at format1 (bucket_count self.now.bytes.now) }
        ensures within { result + end_length ≤ length self.now.bytes.now }
    {
        Record::BUCKETS_AT + self.buckets() * Record::BUCKET_LEN
    }

    // The records of level 1.
    pub fn level_1(&self) -> &'a [u8]
        ensures read { buckets_read result.now ≡ (plane_from format1 self.now.bytes.now).level1 }
        ensures some { bucket_length format1 ≤ length result.now }
    {
        &self.bytes[Record::BUCKETS_AT..self.level_2_at()]
    }

    // Those of level 2.
    pub fn level_2(&self) -> &'a [u8]
        ensures read { buckets_read result.now ≡ (plane_from format1 self.now.bytes.now).level2 }
        ensures some { bucket_length format1 ≤ length result.now }
    {
        &self.bytes[self.level_2_at()..self.base_at()]
    }

    // Those of the base entries.
    pub fn base(&self) -> &'a [u8]
        ensures { entries_read result.now ≡ (plane_from format1 self.now.bytes.now).base }
    {
        &self.bytes[self.base_at()..self.bytes.len() - Record::END_LEN]
    }
}
