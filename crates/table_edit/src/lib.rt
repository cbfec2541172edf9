// What is done to one word of a table that passes the tests of a call: its plan, a change, a withdrawal. Each is an equation with a definition of the crate
// table (specs/Calls.antt): the answer and every number of the table afterwards. specs/Ready.antt has what every call tests first. proofs/Touched.antt has what
// one touched bucket or base list does to the numbers, proofs/Calls.antt what each call does.
#![tactic(auto)]

ghost use Rattle.std.specs.Prelude.{◌≡◌, true, ◌+◌, ◌<◌, length};
ghost use Rattle.lists.specs.Entries.{assignable};
ghost use Rattle.bucket_words.specs.Words.{bucket_from, words_of};
ghost use Rattle.bucket_settle.specs.Settle.{plan_of};
ghost use Rattle.table_base.specs.Base.{Pairs, found_of};
ghost use Rattle.model.specs.Model.{base_limit, change, withdraw, query};
ghost use Rattle.table.specs.Layout.{pairs_from, base_pairs, numbers_of};
ghost use Rattle.table.specs.Calls.{rows, solutions, table_of, plan_in, served, Performs};
ghost use Rattle.table_edit.specs.Ready.{Ready};
ghost use Rattle.table_edit.specs.declared.Edit.TheVariants.{Change};
ghost use Rattle.table_edit.specs.Edit.{on_bucket, on_base, touched, leaving, recounted_in, edit_allowed, Movable, asked};

use answer::{Answer, Cause};
use bucket::Bucket;
use table_layout::{Level, Table};

// The plan of v in a bucket, if it is live there.
pub(crate) fn plan_of(b: Bucket, v: u64) -> Option<u64>
    ensures { result ≡ found_of (plan_of rows v b) }
{
    if b.row_of(v).is_some() {
        return Some(b.lookup(v));
    }
    None
}

// The plan of w, if it is live: at level 1 if that holds it, else at level 2 if that holds it, else in the base list.
pub fn plan_in(t: &[u64], w: u64) -> Option<u64>
    requires { Ready t.now }
    ensures { result ≡ found_of (plan_in t.now w) }
{
    if table_layout::holds(t, Level::First, w) {
        return plan_of(
            table_layout::bucket_at(t, table_layout::place(t, Level::First, w)),
            w,
        );
    }
    let v = identifier::second(w);
    if table_layout::holds(t, Level::Second, v) {
        return plan_of(
            table_layout::bucket_at(t, table_layout::place(t, Level::Second, v)),
            v,
        );
    }
    let a = table_layout::base_place(t);
    let count = t[Table::BASE_COUNT_AT] as usize;
    table_base::find(&t[a..], count, v)
}

// What is done to the entry of a live word.
#[derive(Clone, Copy)]
pub enum Edit {
    Change(u64),
    Withdraw,
}

// How many words are live no more after it.
pub(crate) fn leaving(edit: Edit) -> u64
    ensures { result ≡ leaving edit }
{
    match edit {
        Edit::Change(_) => 0,
        Edit::Withdraw => 1,
    }
}

// The bucket of a stretch of the table with another plan for v, if v is live there.
pub(crate) fn change_bucket(part: &mut [u64], v: u64, plan: u64)
    requires { length part.old ≡ Bucket.WORDS }
    ensures { part.new ≡ words_of (on_bucket (Change plan) v (bucket_from rows solutions part.old)) }
{
    if let Some(b) = bucket_words::load(part).change(v, plan) {
        bucket_words::store(part, b);
    }
}

// The bucket of a stretch of the table after the edit of v, if v is live there.
pub(crate) fn edit_bucket(part: &mut [u64], v: u64, edit: Edit)
    requires { length part.old ≡ Bucket.WORDS }
    ensures { part.new ≡ words_of (on_bucket edit v (bucket_from rows solutions part.old)) }
{
    match edit {
        Edit::Change(plan) => change_bucket(part, v, plan),
        Edit::Withdraw => {
            bucket_words::withdraw(part, v);
        }
    }
}

// The base list after it, if v has an entry. Returns how many entries there are.
pub(crate) fn edit_base(pairs: &mut [u64], count: usize, v: u64, edit: Edit) -> usize
    requires { Pairs base_limit count pairs.old }
    ensures { (result ≡ length (on_base edit v (pairs_from count pairs.old))) × (pairs.new ≡ base_pairs (on_base edit v (pairs_from count pairs.old))) }
{
    match edit {
        Edit::Change(plan) => {
            table_base::update(pairs, count, v, plan);
            count
        }
        Edit::Withdraw => table_base::remove(pairs, count, v),
    }
}

// The edit of w in its bucket or in the base list, wherever the three tests send w. The live count and the totals stay.
// Ready is a clause, no field of a type: from here to the last total of the edit it need not hold, and the steps take `&mut` of the same numbers.
pub(crate) fn touch(t: &mut [u64], w: u64, edit: Edit)
    requires { Ready t.old }
    ensures { t.new ≡ numbers_of (touched edit w (table_of t.old)) }
{
    if table_layout::holds(t, Level::First, w) {
        let a = table_layout::place(t, Level::First, w);
        let e = a + Bucket::WORDS;
        edit_bucket(&mut t[a..e], w, edit);
        return;
    }
    let v = identifier::second(w);
    if table_layout::holds(t, Level::Second, v) {
        let a = table_layout::place(t, Level::Second, v);
        let e = a + Bucket::WORDS;
        edit_bucket(&mut t[a..e], v, edit);
        return;
    }
    let a = table_layout::base_place(t);
    let count = t[Table::BASE_COUNT_AT] as usize;
    t[Table::BASE_COUNT_AT] = edit_base(&mut t[a..], count, v, edit) as u64;
}

// A query for the word w.
pub fn query_word(t: &[u64], w: u64) -> Answer
    requires { Ready t.now }
    ensures { Performs (served t.now (query w)) result t.now }
{
    plan_in(t, w).ok_or(Cause::NotLive)
}

// The totals after the edit of a word that had the plan q.
pub(crate) fn recount(t: &mut [u64], q: u64, edit: Edit)
    requires { Movable edit q t.old }
    ensures { t.new ≡ recounted_in edit q t.old }
{
    table_layout::lower_total(t, q);
    match edit {
        Edit::Change(plan) => table_layout::raise_total(t, plan),
        Edit::Withdraw => {}
    }
}

// The edit of the word w: accepted, the earlier plan.
pub fn edit_word(t: &mut [u64], w: u64, edit: Edit) -> Answer
    requires { Ready t.old × (edit_allowed edit ≡ true) }
    ensures { Performs (served t.old (asked edit w)) result t.new }
{
    let plan = plan_in(t, w).ok_or(Cause::NotLive)?;
    let live = t[Table::LIVE_COUNT_AT] - leaving(edit);
    touch(t, w, edit);
    t[Table::LIVE_COUNT_AT] = live;
    recount(t, plan, edit);
    Ok(plan)
}

// A change of the word w.
pub fn change_word(t: &mut [u64], w: u64, plan: u64) -> Answer
    requires { Ready t.old × (assignable plan ≡ true) }
    ensures { Performs (served t.old (change w plan)) result t.new }
{
    edit_word(t, w, Edit::Change(plan))
}

// A withdrawal of the word w.
pub fn withdraw_word(t: &mut [u64], w: u64) -> Answer
    requires { Ready t.old }
    ensures { Performs (served t.old (withdraw w)) result t.new }
{
    edit_word(t, w, Edit::Withdraw)
}

// The plan that an edit gives, if it gives one, may be given.
pub fn plan_allowed(edit: Edit) -> bool
    ensures { result ≡ edit_allowed edit }
{
    match edit {
        Edit::Change(plan) => table_layout::assignable(plan),
        Edit::Withdraw => true,
    }
}
