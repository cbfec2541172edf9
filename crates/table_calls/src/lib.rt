// The calls of document 01's table on a lent slice of any length and contents, with anything as identifier: query, change and
// withdrawal; and the total of a plan, document 02's order 2. Each is an equation with a definition of the crate table (specs/Calls.antt): the answer, causes in document 01's order, and
// every number of the table afterwards.
#![tactic(auto)]

ghost use Rattle.std.specs.Prelude.{◌≡◌, true, ◌+◌, ◌≤◌, length, get_or, Ok};
ghost use Rattle.identifier.specs.Identifier.{token, read_of, with_plan};
ghost use Rattle.model.specs.Model.{change, withdraw, query};
ghost use Rattle.table.specs.Table.{total_numbers};
ghost use Rattle.table.specs.Layout.{totals_at};
ghost use Rattle.table.specs.Calls.{shaped, call, total_call, Performs};
ghost use Rattle.table_edit.specs.Ready.{admitted};
ghost use Rattle.table_edit.specs.declared.Edit.TheVariants.{Change};
ghost use Rattle.table_edit.specs.Edit.{asked};

use answer::{Answer, Cause};
use identifier::Identifier;
use table_edit::Edit;
use table_layout::Table;

// The word that a call is for, or the cause that turns it down before the table is looked at: 15, 1, 2, 14. Whether the plan that it gives,
// if it gives one, may be given: `allowed`.
pub fn word_for(kind: u8, id: &[u8], allowed: bool) -> Result<u64, Cause>
    ensures { result ≡ with_plan allowed (read_of (token kind id.now)) }
{
    let read = Identifier::read(kind, id.len(), id);
    identifier::with_plan(read, allowed)
}

// The word, or the cause that the table meets: 4, 5.
pub(crate) fn admit_word(t: &[u64], word: u64) -> Result<u64, Cause>
    ensures { result ≡ admitted t.now (Ok word) }
{
    if !table_layout::shaped(t) {
        return Err(Cause::WrongTable(t.len() as u64));
    }
    if !table_sound::sound(t) {
        return Err(Cause::NotSound);
    }
    Ok(word)
}

// The word that a call is for, or the answer that turns it down: causes 15, 1, 2, 14, 4, 5.
pub fn admit(t: &[u64], kind: u8, id: &[u8], allowed: bool) -> Result<u64, Cause>
    ensures { result ≡ admitted t.now (with_plan allowed (read_of (token kind id.now))) }
{
    let word = word_for(kind, id, allowed)?;
    admit_word(t, word)
}

// Query: accepted, the plan.
pub fn query(t: &[u64], kind: u8, id: &[u8]) -> Answer
    ensures { Performs (call t.now (query (token kind id.now))) result t.now }
{
    let word = admit(t, kind, id, true)?;
    table_edit::query_word(t, word)
}

// The edit of an identifier's word.
pub(crate) fn edit_identifier(t: &mut [u64], kind: u8, id: &[u8], edit: Edit) -> Answer
    ensures { Performs (call t.old (asked edit (token kind id.now))) result t.new }
{
    let word = admit(t, kind, id, table_edit::plan_allowed(edit))?;
    table_edit::edit_word(t, word, edit)
}

// Change: accepted, the earlier plan.
pub fn change(t: &mut [u64], kind: u8, id: &[u8], plan: u8) -> Answer
    ensures { Performs (call t.old (change (token kind id.now) plan)) result t.new }
{
    edit_identifier(t, kind, id, Edit::Change(plan as u64))
}

// Withdrawal: accepted, the earlier plan.
pub fn withdraw(t: &mut [u64], kind: u8, id: &[u8]) -> Answer
    ensures { Performs (call t.old (withdraw (token kind id.now))) result t.new }
{
    edit_identifier(t, kind, id, Edit::Withdraw)
}

// The total of a plan in a table of the right shape, whatever else it holds.
pub(crate) fn total_at(t: &[u64], plan: u8) -> Answer
    requires { (shaped t.now ≡ true) × (totals_at + total_numbers ≤ length t.now) }
    ensures { result ≡ Ok (get_or t.now (totals_at + plan) 0) }
{
    Ok(t[Table::TOTALS_AT + (plan as usize)])
}

// The total of a plan: cause 4 alone, and one number read.
pub fn plan_total(t: &[u64], plan: u8) -> Answer
    ensures { result ≡ total_call t.now plan }
{
    if table_layout::shaped(t) {
        return total_at(t, plan);
    }
    Err(Cause::WrongTable(t.len() as u64))
}
