// What a call answers: accepted, or the cause for which it is turned down, with what is returned with each.
// Definitions: specs/Numbers.antt, the number and value of each case by documents 01 and 02; specs/Causes.antt, a list of causes and the first of them
// that is met. Laws: proofs/Determined.antt, proofs/Causes.antt.
// A later order's cause gets its case, number and value here; it is tested by the call that can meet it, and stated and proved there too.
#![tactic(auto)]

ghost use Rattle.std.specs.Prelude.{◌≡◌};
ghost use Rattle.answer.specs.Numbers.{number_of, value_of, cause_number, cause_value};

// Accepted: what the call returns. Else the cause for which it is turned down.
pub type Answer = Result<u64, Cause>;

// One case for each cause of document 01's table, in its order; then those of document 02's orders.
#[derive(Clone, Copy)]
pub enum Cause {
    // Identifier of 0 or over 36 bytes: its length.
    WrongLength(u64),
    // Byte not allowed: index of the first.
    WrongByte(u64),
    // Bucket numbers out of range at opening.
    WrongBuckets,
    // Table under 4 numbers, header bucket numbers out of range, or length not as they give: the length.
    WrongTable(u64),
    // Table not sound.
    NotSound,
    // Add: word live: its plan.
    Live(u64),
    // Change, withdraw, query: not live.
    NotLive,
    // Base list full.
    Full,
    // Output shorter than the plane: length needed.
    ShortOutput(u64),
    // Plane wrong: offset of the first record that is cut, of a wrong kind or with a value not allowed, or of the first
    // byte after kind 4.
    WrongPlane(u64),
    // Order 1: planes differ in bucket numbers.
    UnlikePlanes,
    // Order 1: patch wrong: the offset, as for a plane.
    WrongPatch(u64),
    // Order 1: a sum does not fit.
    WrongSum,
    // Order 3: plan 255 given.
    DeskPlanGiven,
    // Order 4: kind not 1 to 7.
    WrongKind,
}

impl Cause {
    // The number of the cause.
    fn number(self) -> u64
        ensures { result ≡ cause_number self }
    {
        match self {
            Cause::WrongLength(_) => 1,
            Cause::WrongByte(_) => 2,
            Cause::WrongBuckets => 3,
            Cause::WrongTable(_) => 4,
            Cause::NotSound => 5,
            Cause::Live(_) => 6,
            Cause::NotLive => 7,
            Cause::Full => 8,
            Cause::ShortOutput(_) => 9,
            Cause::WrongPlane(_) => 10,
            Cause::UnlikePlanes => 11,
            Cause::WrongPatch(_) => 12,
            Cause::WrongSum => 13,
            Cause::DeskPlanGiven => 14,
            Cause::WrongKind => 15,
        }
    }

    // What is returned with it: 0 where document 01's table has nothing.
    fn value(self) -> u64
        ensures { result ≡ cause_value self }
    {
        match self {
            Cause::WrongLength(n) | Cause::WrongTable(n) | Cause::ShortOutput(n) => n,
            Cause::WrongByte(i) | Cause::WrongPlane(i) | Cause::WrongPatch(i) => i,
            Cause::Live(p) => p,
            Cause::WrongBuckets | Cause::NotSound | Cause::NotLive | Cause::Full => 0,
            Cause::UnlikePlanes | Cause::WrongSum | Cause::DeskPlanGiven | Cause::WrongKind => 0,
        }
    }
}

// The number of an answer: 0 if accepted, else that of the cause.
pub fn number(a: Answer) -> u64
    ensures { result ≡ number_of a }
{
    match a {
        Ok(_) => 0,
        Err(c) => c.number(),
    }
}

// What is returned with it.
pub fn value(a: Answer) -> u64
    ensures { result ≡ value_of a }
{
    match a {
        Ok(n) => n,
        Err(c) => c.value(),
    }
}
