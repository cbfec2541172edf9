// The call `add`: what leaves level 1 goes to level 2, and what leaves that to the base list. Nothing is written before it is known that
// the base list has room; then only the stretches of the buckets that changed, the base list and the header are. The word's product in the
// bucket that holds it is formed once: whether it is live, whether it goes straight in and whether it depends are told by it.
// specs/Arrivals.antt has what an add of a word that is not live does. Laws: proofs/Added.antt (what a word that arrives at level 1 leaves is the call's table).
#![tactic(auto)]

ghost use Rattle.std.specs.Prelude.{◌≡◌, true, false, ◌+◌, ◌<◌, ◌≤◌, length, get_or, drop, Ok};
ghost use Rattle.lists.specs.Entries.{plan_limit, assignable};
ghost use Rattle.hash.specs.Mix.{mix_of};
ghost use Rattle.identifier.specs.Identifier.{token};
ghost use Rattle.bucket_words.specs.Words.{bucket_from};
ghost use Rattle.bucket_settle.specs.Settle.{plan_of};
ghost use Rattle.model.specs.Model.{add};
ghost use Rattle.table.specs.Table.{second, holds};
ghost use Rattle.table.specs.Layout.{live_count_at};
ghost use Rattle.table.specs.Calls.{rows, solutions, table_of, served, call, Performs};
ghost use Rattle.table_base.specs.Base.{found_of};
ghost use Rattle.table_edit.specs.Ready.{Ready};
ghost use Rattle.table_arrive.specs.Arrival.{product_at, product_in, DependsIn};
ghost use Rattle.table_add.specs.Arrivals.{entering, Held, Passing, Depending, counted_in, Countable};

use answer::{Answer, Cause};
use bucket::Bucket;
use table_layout::{Level, Table};

// One more live word, with its plan.
pub(crate) fn count_one(t: &mut [u64], plan: u64) -> Answer
    requires { Countable plan t.old }
    ensures { (result ≡ Ok (get_or t.old live_count_at 0 + 1)) × (t.new ≡ counted_in plan t.old) }
{
    let count = t[Table::LIVE_COUNT_AT] + 1;
    t[Table::LIVE_COUNT_AT] = count;
    table_layout::raise_total(t, plan);
    Ok(count)
}

// The plan of v, whose product is p, in the bucket at a place, if it is live there.
pub(crate) fn plan_by(t: &[u64], at: usize, v: u64, p: u64) -> Option<u64>
    requires { (at + Bucket.WORDS ≤ length t.now) × (p ≡ product_at rows solutions at v t.now) }
    ensures { result ≡ found_of (plan_of rows v (bucket_from rows solutions (drop at t.now))) }
{
    if bucket::row_by(t[at + Bucket::MARK_AT], p).is_some() {
        return Some(table_layout::bucket_at(t, at).lookup(v));
    }
    None
}

// A word that is not live and that depends in its bucket at level 1 settles there, and what leaves that goes on.
pub(crate) fn fall_first(t: &mut [u64], w: u64, plan: u64) -> Answer
    requires { Ready t.old × ((plan < plan_limit) × DependsIn rows solutions mix_of (table_of t.old).level1 (record { word = w; plan = plan })) }
    ensures { Performs (entering t.old (record { word = w; plan = plan })) result t.new }
{
    let at = table_layout::place(t, Level::First, w);
    let s = table_arrive::fallen_at(t, at, w, plan);
    if table_pass::pass_on(t, s.out.entries()) {
        table_arrive::store_at(t, at, s.bucket);
        return count_one(t, plan);
    }
    Err(Cause::Full) // and the bucket stays as it was
}

// A word that is not live and that depends in the bucket where the bounds send it settles there. Both levels end here, so that the draft
// lies in the frame of this call alone: an add that goes straight in has a small one.
pub(crate) fn enter_depending(t: &mut [u64], w: u64, plan: u64) -> Answer
    requires { Depending t.old w plan }
    ensures { Performs (entering t.old (record { word = w; plan = plan })) result t.new }
{
    if table_layout::holds(t, Level::First, w) {
        return fall_first(t, w, plan);
    }
    if table_arrive::fall_second(t, identifier::second(w), plan) {
        return count_one(t, plan);
    }
    Err(Cause::Full)
}

// A word that is not live, that level 1 holds and whose product in its bucket there is p arrives there: straight in, or it settles.
pub(crate) fn enter_first(t: &mut [u64], w: u64, p: u64, plan: u64) -> Answer
    requires { Held t.old w plan × (p ≡ product_in rows solutions mix_of (table_of t.old).level1 w) }
    ensures { Performs (entering t.old (record { word = w; plan = plan })) result t.new }
{
    let at = table_layout::place(t, Level::First, w);
    if table_arrive::put_by(t, at, w, p, plan) {
        return count_one(t, plan);
    }
    enter_depending(t, w, plan)
}

// A word that is not live, that level 2 holds and level 1 does not, and whose product in its bucket at level 2 is p arrives there: straight
// in, or it settles.
// Apart from `enter_first`, as `add_second` from `add_first`: what is known of the table differs with the level, Held or Passing.
pub(crate) fn enter_second(t: &mut [u64], w: u64, p: u64, plan: u64) -> Answer
    requires { Passing t.old w plan × ((holds rows solutions mix_of (table_of t.old).level2 (second mix_of w) ≡ true) × (p ≡ product_in rows solutions mix_of (table_of t.old).level2 (second mix_of w))) }
    ensures { Performs (entering t.old (record { word = w; plan = plan })) result t.new }
{
    let v = identifier::second(w);
    let at = table_layout::place(t, Level::Second, v);
    if table_arrive::put_by(t, at, v, p, plan) {
        return count_one(t, plan);
    }
    enter_depending(t, w, plan)
}

// A word that is not live and that neither level holds goes on to the base list.
pub(crate) fn enter_last(t: &mut [u64], w: u64, plan: u64) -> Answer
    requires { Passing t.old w plan × (holds rows solutions mix_of (table_of t.old).level2 (second mix_of w) ≡ false) }
    ensures { Performs (entering t.old (record { word = w; plan = plan })) result t.new }
{
    if table_arrive::pass_second(t, identifier::second(w), plan) {
        return count_one(t, plan);
    }
    Err(Cause::Full)
}

// An add of the word w, which level 1 holds: its product there is formed once.
pub(crate) fn add_first(t: &mut [u64], w: u64, plan: u64) -> Answer
    requires { Held t.old w plan }
    ensures { Performs (served t.old (add w plan)) result t.new }
{
    let at = table_layout::place(t, Level::First, w);
    let p = table_arrive::product_at(t, at, w);
    match plan_by(t, at, w, p) {
        Some(q) => Err(Cause::Live(q)),
        None => enter_first(t, w, p, plan),
    }
}

// An add of the word w, which level 2 holds and level 1 does not: its product at level 2 is formed once.
pub(crate) fn add_second(t: &mut [u64], w: u64, plan: u64) -> Answer
    requires { Passing t.old w plan × (holds rows solutions mix_of (table_of t.old).level2 (second mix_of w) ≡ true) }
    ensures { Performs (served t.old (add w plan)) result t.new }
{
    let v = identifier::second(w);
    let at = table_layout::place(t, Level::Second, v);
    let p = table_arrive::product_at(t, at, v);
    match plan_by(t, at, v, p) {
        Some(q) => Err(Cause::Live(q)),
        None => enter_second(t, w, p, plan),
    }
}

// An add of the word w.
pub fn add_word(t: &mut [u64], w: u64, plan: u64) -> Answer
    requires { Ready t.old × (assignable plan ≡ true) }
    ensures { Performs (served t.old (add w plan)) result t.new }
{
    if table_layout::holds(t, Level::First, w) {
        return add_first(t, w, plan);
    }
    if table_layout::holds(t, Level::Second, identifier::second(w)) {
        return add_second(t, w, plan);
    }
    // In the base list: no product is formed.
    match table_edit::plan_in(t, w) {
        Some(q) => Err(Cause::Live(q)),
        None => enter_last(t, w, plan),
    }
}

// Add: accepted, the live count.
pub fn add(t: &mut [u64], kind: u8, id: &[u8], plan: u8) -> Answer
    ensures { Performs (call t.old (add (token kind id.now) plan)) result t.new }
{
    let word = table_calls::admit(t, kind, id, table_layout::assignable(plan as u64))?;
    add_word(t, word, plan as u64)
}
