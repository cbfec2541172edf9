// The library for C and Rust: one entry for each call, over table, plane and patch. Each returns the number of the answer (0: accepted) and puts
// the number that goes with it into `value`; include/limgoshi.h declares them. No entry has a `requires`; each contract says what every buffer
// that is handed in holds afterwards, but for those behind a `&`: by that type they hold what they held.
#![tactic(auto)]

ghost use Rattle.identifier.specs.Identifier.{token};
ghost use Rattle.model.specs.Model.{add, change, withdraw, query};
ghost use Rattle.table.specs.Calls.{open_call, call, total_call};
ghost use Rattle.plane.specs.Lookup.{lookup_call};
ghost use Rattle.plane_write.specs.Write.{write_call};
ghost use Rattle.patch.specs.Calls.{make_call, apply_call};
ghost use Rattle.limgoshi.specs.Entry.{Gives, GivesTable, GivesOutput};

use answer::Answer;

// The number of an answer; what is returned with it goes into `value`. The entries differ by what C hands in, and share this.
fn give(a: Answer, value: &mut u64) -> u64
    ensures { Gives a result value.new }
{
    *value = answer::value(a);
    answer::number(a)
}

// Opens an empty table with b1 and b2 buckets.
#[unsafe(no_mangle)]
pub extern "C" fn limgoshi_open(t: &mut [u64], b1: u64, b2: u64, value: &mut u64) -> u64
    ensures { GivesTable (open_call b1 b2 t.old) result value.new t.new }
{
    let opened = table_open::open(t, b1, b2);
    give(opened, value)
}

// Adds an identifier with its plan.
#[unsafe(no_mangle)]
pub extern "C" fn limgoshi_add(t: &mut [u64], kind: u8, id: &[u8], plan: u8, value: &mut u64) -> u64
    ensures { GivesTable (call t.old (add (token kind id.now) plan)) result value.new t.new }
{
    let added = table_add::add(t, kind, id, plan);
    give(added, value)
}

// The plan of a live identifier.
#[unsafe(no_mangle)]
pub extern "C" fn limgoshi_query(t: &[u64], kind: u8, id: &[u8], value: &mut u64) -> u64
    ensures { GivesTable (call t.now (query (token kind id.now))) result value.new t.now }
{
    let found = table_calls::query(t, kind, id);
    give(found, value)
}

// Changes the plan of a live identifier.
#[unsafe(no_mangle)]
pub extern "C" fn limgoshi_change(
    t: &mut [u64],
    kind: u8,
    id: &[u8],
    plan: u8,
    value: &mut u64,
) -> u64
    ensures { GivesTable (call t.old (change (token kind id.now) plan)) result value.new t.new }
{
    let changed = table_calls::change(t, kind, id, plan);
    give(changed, value)
}

// Withdraws a live identifier.
#[unsafe(no_mangle)]
pub extern "C" fn limgoshi_withdraw(t: &mut [u64], kind: u8, id: &[u8], value: &mut u64) -> u64
    ensures { GivesTable (call t.old (withdraw (token kind id.now))) result value.new t.new }
{
    let withdrawn = table_calls::withdraw(t, kind, id);
    give(withdrawn, value)
}

// The number of live identifiers with a plan, as the table has it.
#[unsafe(no_mangle)]
pub extern "C" fn limgoshi_plan_total(t: &[u64], plan: u8, value: &mut u64) -> u64
    ensures { Gives (total_call t.now plan) result value.new }
{
    let total = table_calls::plan_total(t, plan);
    give(total, value)
}

// Writes the plane of a table to the front of the output.
#[unsafe(no_mangle)]
pub extern "C" fn limgoshi_write_plane(t: &[u64], out: &mut [u8], value: &mut u64) -> u64
    ensures { GivesOutput (write_call t.now out.old) result value.new out.new }
{
    let written = plane_write::write(t, out);
    give(written, value)
}

// The plan that a plane gives an identifier.
#[unsafe(no_mangle)]
pub extern "C" fn limgoshi_plane_lookup(kind: u8, id: &[u8], plane: &[u8], value: &mut u64) -> u64
    ensures { Gives (lookup_call (token kind id.now) plane.now) result value.new }
{
    let looked_up = plane_lookup::lookup(kind, id, plane);
    give(looked_up, value)
}

// Makes the patch from an old plane to a new one, to the front of the output.
#[unsafe(no_mangle)]
pub extern "C" fn limgoshi_make_patch(
    old: &[u8],
    new: &[u8],
    out: &mut [u8],
    value: &mut u64,
) -> u64
    ensures { GivesOutput (make_call old.now new.now out.old) result value.new out.new }
{
    let made = patch_make::make(old, new, out);
    give(made, value)
}

// Applies a patch to the plane that it was made for: the new plane, to the front of the output.
#[unsafe(no_mangle)]
pub extern "C" fn limgoshi_apply_patch(
    old: &[u8],
    patch: &[u8],
    out: &mut [u8],
    value: &mut u64,
) -> u64
    ensures { GivesOutput (apply_call old.now patch.now out.old) result value.new out.new }
{
    let applied = patch_apply::apply(old, patch, out);
    give(applied, value)
}
