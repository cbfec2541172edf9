// The line `open` of the line program, in a buffer for the longest table: only the numbers that the new table needs are lent to the opening.
// Definitions: specs/Desk.antt (what takes openings and calls, and what a command does), specs/Buffer.antt (what is open, in the code's buffer, and what the code
// does at a line). proofs/Opening.antt has what an opening leaves there.
#![tactic(auto)]

ghost use Rattle.std.specs.Prelude.{◌≡◌, None, Some};
ghost use Rattle.lines_text.specs.Line.{opening};
ghost use Rattle.lines_open.specs.Desk.{obey, tables};
ghost use Rattle.lines_open.specs.Buffer.{held_in, Fits, Did};

use answer::{Answer, Cause};
use table_layout::Table;

// A buffer for the longest table, and how many numbers the one that is open has. `Fits` is no ghost field: a field beside one cannot be lent.
#[derive(Drop)]
pub struct Buffer {
    pub numbers: [u64; Table::LONGEST],
    pub held: Option<usize>,
}

impl Buffer {
    // No table is open.
    pub fn new() -> Self
        ensures { result.held ≡ None }
    {
        Buffer {
            numbers: [0; Table::LONGEST],
            held: None,
        }
    }

    // `open`.
    pub fn open_line(&mut self, b1: u64, b2: u64) -> Answer
        requires { Fits self.old }
        ensures { Did (obey tables (held_in self.old) (opening b1 b2)) self.old (Some result) self.new }
    {
        if table_layout::in_range(b1, b2) {
            let n = table_layout::length_of(b1, b2);
            self.held = Some(n);
            return table_open::open(&mut self.numbers[..n], b1, b2);
        }
        Err(Cause::WrongBuckets)
    }
}
