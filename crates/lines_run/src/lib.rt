// The line program of document 01 as a function on byte slices, `run`: calls put to a table that is sound by proof, the lines one after
// the other.
// Definitions: specs/Run.antt (what is printed for an input: the calls of the crate table folded over the lines); specs/Buffer.antt has what the code keeps.
// Laws: proofs/Agree.antt (the model would print the same; the table is sound at each line), proofs/Session.antt (document 01's
// session; lines with plan 255; lines with each form of a kind).
#![tactic(auto)]

ghost use Rattle.std.specs.Prelude.{◌≡◌, ◌+◌, ◌*◌, ◌^◌, ◌≤◌, ◌<◌, true, length, None};
ghost use Rattle.codec.specs.Parts.{written};
ghost use Rattle.identifier.specs.Identifier.{token};
ghost use Rattle.table.specs.Calls.{served, call, Performs};
ghost use Rattle.table_edit.specs.Ready.{Ready};
ghost use Rattle.lines_text.specs.Line.{lf, parted, ask};
ghost use Rattle.lines_text.specs.Parsed.{call_of, meant_or_bad};
ghost use Rattle.lines_text.specs.Printed.{most_printed};
ghost use Rattle.lines_open.specs.Desk.{obey, tables};
ghost use Rattle.lines_open.specs.Buffer.{held_in, said, Did};
ghost use Rattle.lines_run.specs.Run.{input_limit, counted, turn, output_from, output};
ghost use Rattle.lines_run.specs.Buffer.{Holds, verb_allowed, Printed};

use answer::Answer;
use lines_open::Buffer;
use lines_text::{Parsed, Verb};

// The first bytes of an input that count.
pub const INPUT_LIMIT: usize = 65536;

// The bytes of a line with its LF, at most.
pub(crate) const LINE_LIMIT: usize = 64;

// The longest output: the longest line that is printed for each byte of an input.
pub const MOST_OUTPUT: usize = lines_text::MOST_PRINTED * INPUT_LIMIT;

// The plan that a call of this verb gives, if it gives one, may be given.
pub(crate) fn plan_allowed(verb: Verb) -> bool
    ensures { result ≡ verb_allowed verb }
{
    match verb {
        Verb::Add(plan) => table_layout::assignable(plan),
        Verb::Set(plan) => table_layout::assignable(plan),
        Verb::Del => true,
        Verb::Get => true,
    }
}

// A call put to a sound table by its word.
pub(crate) fn serve(t: &mut [u64], w: u64, verb: Verb) -> Answer
    requires { Ready t.old × (verb_allowed verb ≡ true) }
    ensures { Performs (served t.old (call_of verb w)) result t.new }
{
    match verb {
        Verb::Add(plan) => table_add::add_word(t, w, plan),
        Verb::Set(plan) => table_edit::change_word(t, w, plan),
        Verb::Del => table_edit::withdraw_word(t, w),
        Verb::Get => table_edit::query_word(t, w),
    }
}

// A call put to a sound table.
pub(crate) fn ask(t: &mut [u64], kind: u8, id: &[u8], verb: Verb) -> Answer
    requires { Ready t.old }
    ensures { Performs (call t.old (call_of verb (token kind id.now))) result t.new }
{
    let word = table_calls::word_for(kind, id, plan_allowed(verb))?;
    serve(t, word, verb)
}

// Any other call: its answer, or none if no table is open.
pub(crate) fn ask_line(b: &mut Buffer, kind: u8, id: &[u8], verb: Verb) -> Option<Answer>
    requires { Holds b.old }
    ensures { Did (obey tables (held_in b.old) (ask (call_of verb (token kind id.now)))) b.old result b.new }
{
    let n = b.held?;
    Some(ask(&mut b.numbers[..n], kind, id, verb))
}

// A line by its parsed form: the answer to it, or none for `bad`.
pub(crate) fn obey(b: &mut Buffer, p: Option<Parsed>) -> Option<Answer>
    requires { Holds b.old }
    ensures { Did (obey tables (held_in b.old) (meant_or_bad p.entry)) b.old result b.new }
{
    match p? {
        Parsed::Open(b1, b2) => Some(b.open_line(b1, b2)),
        Parsed::Ask { verb, kind, id } => ask_line(b, kind, id, verb),
    }
}

// A line that had its LF.
pub(crate) fn turn(b: &mut Buffer, s: &[u8]) -> Option<Answer>
    requires { Holds b.old }
    ensures { Did (turn tables (held_in b.old) s.now) b.old result b.new }
{
    if s.len() < LINE_LIMIT {
        return obey(b, lines_text::parse(s));
    }
    None
}

// Prints an answer, or `bad` if there is none, from index at on, as much as fits. The next index. Inlined: for a line that is
// `bad` no answer is stored then.
#[inline(always)]
pub(crate) fn put_said(out: &mut [u8], at: usize, a: Option<Answer>) -> usize
    requires { at < 2 ^ 31 }
    ensures { (result ≡ at + length (said a)) × (out.new ≡ written at (said a) out.old) }
{
    match a {
        Some(a) => lines_text::put_answer(out, at, a),
        None => lines_text::put_bad(out, at),
    }
}

// The lines of an input one after the other, with no table open before. The number of bytes printed.
pub(crate) fn run_lines(s: &[u8], out: &mut [u8]) -> usize
    requires { length s.now ≤ input_limit }
    ensures { Printed (output_from tables None (parted lf s.now)) (most_printed * length s.now) out.old result out.new }
{
    let mut b = Buffer::new();
    let mut at = 0;
    let mut rest = s;
    while let Some((line, after)) = lines_text::split_once(rest, b'\n') {
        at = put_said(out, at, turn(&mut b, line));
        rest = after;
    }
    // A last line without LF.
    if !rest.is_empty() {
        at = put_said(out, at, None);
    }
    at
}

// The line program: what it prints for an input goes to out, as much as fits. The number of bytes printed, at most MOST_PRINTED for each
// byte that counts.
pub fn run(input: &[u8], out: &mut [u8]) -> usize
    ensures { Printed (output input.now) (most_printed * length (counted input.now)) out.old result out.new }
{
    run_lines(&input[..input.len().min(INPUT_LIMIT)], out)
}
