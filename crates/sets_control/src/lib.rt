// M5 by sets of rows: control barriers, each met by the rows of one instance.
#![tactic(auto)]

ghost use Rattle.std.specs.Prelude.{◌≡◌, true, ℕ, ◌+◌, ◌≤◌, ◌<◌, length, get_or};
ghost use Rattle.model.specs.Row.{control};
ghost use Rattle.model.specs.Table.{row_of};
ghost use Rattle.model.specs.Synchronizes.{joins};
ghost use Rattle.run.specs.Layout.{rows_in, table_of};
ghost use Rattle.sets_of_rows.specs.Member.{in_set};
ghost use Rattle.sets_of_rows.specs.Rows.{Rows};
ghost use Rattle.sets_of_table.specs.Known.{Opened};
ghost use Rattle.sets_grids.specs.Regions.{PASSED, PASSED_END};
ghost use Rattle.sets_grids.specs.Grid.{MadeGrid};
ghost use Rattle.sets_grids.specs.Given.{Given};
ghost use Rattle.sets_grids.specs.Synced.{passed_by};
ghost use Rattle.sets_control.specs.Passed.{of_instance, arrived, passes_to, Passing, Passes};

use door_rows::kinds;
use run::Run;
use sets_of_rows::{Set, kept};
use sets_of_table::fields;

// The control barriers of c's instance.
fn instance(t: &Run, s: &[u64], c: usize) -> Set
    requires { (c < t.now.rows) × Opened (table_of t.now) t.now.rows s.now }
    ensures { Rows t.now.rows (of_instance (table_of t.now) c) result }
{
    let name = fields::start(t, c);
    let mut all = Set::none();
    for d in kept::get(s, sets_of_table::BY_KIND, kinds::CONTROL as usize) {
        let same = fields::start(t, d) == name;
        all |= Set::bit(d).only_if(same);
    }
    all
}

// The rows that join the control barrier c: others of its instance, of agents that share its execution scope.
fn joining(t: &Run, s: &[u64], c: usize) -> Set
    requires { (c < t.now.rows) × (control (row_of (rows_in t.now.bytes) c) ≡ true) × Opened (table_of t.now) t.now.rows s.now }
    ensures { Rows t.now.rows (joins (table_of t.now) c) result }
{
    let share = sets_of_table::ask::sharing(t, s, c, fields::class(t, c));
    (instance(t, s, c) & share).without(c)
}

// The barriers that one of the rows d is, or comes before.
fn arrivals(t: &Run, s: &[u64], d: Set) -> Set
    requires { ((k : ℕ) → in_set d k ≡ true → k < t.now.rows) × Opened (table_of t.now) t.now.rows s.now }
    ensures { Rows t.now.rows (arrived (table_of t.now) d) result }
{
    let mut all = Set::none();
    for k in d {
        all |= sets_of_table::ask::onward(t, s, k);
    }
    all & sets_of_table::rows(s, sets_of_table::BARRIER)
}

// The barriers that arrive where the control barrier c is joined; none where c is no control barrier.
fn passes_to(t: &Run, s: &[u64], c: usize) -> Set
    requires { (c < t.now.rows) × Opened (table_of t.now) t.now.rows s.now }
    ensures { Rows t.now.rows (passes_to (table_of t.now) c) result }
{
    if kept::get(s, sets_of_table::BY_KIND, kinds::CONTROL as usize).has(c) {
        return arrivals(t, s, joining(t, s, c));
    }
    Set::none()
}

// Row a, where `passing` has by agent what the control barriers below it pass to: a control barrier joins them, and a barrier gets what
// they pass to.
fn pass_row(t: &Run, s: &[u64], a: usize, passing: &mut [u64], w: &mut [u64])
    requires { (a < t.now.rows) × Given (table_of t.now) t.now.rows s.now w.old × Passing (table_of t.now) t.now.rows (a + 1) passing.old w.old }
    ensures { Passes (table_of t.now) t.now.rows a passing.old passing.new w.old w.new }
{
    let agent = fields::agent(t, a);
    let own = passes_to(t, s, a);
    kept::join(passing, 0, agent, own);
    let all = kept::get(passing, 0, agent);
    let barrier = sets_of_table::rows(s, sets_of_table::BARRIER).has(a);
    kept::put(w, sets_grids::PASSED, a, all.only_if(barrier));
}

// Up the page: a barrier passes to what the control barriers of its agent, from it on, pass to.
fn pass_up(t: &Run, s: &[u64], passing: &mut [u64], w: &mut [u64])
    requires { (64 ≤ length passing.old) × ((k : ℕ) → get_or passing.old k 0 ≡ 0) × Given (table_of t.now) t.now.rows s.now w.old }
    ensures { MadeGrid PASSED PASSED_END PASSED t.now.rows (passed_by (table_of t.now)) w.old w.new }
{
    for a in (0..t.rows).rev() {
        pass_row(t, s, a, passing, w);
    }
}

// PASSED. A table without control barriers has nothing to ask.
pub fn fill_passed(t: &Run, s: &[u64], w: &mut [u64])
    requires { Given (table_of t.now) t.now.rows s.now w.old }
    ensures { MadeGrid PASSED PASSED_END PASSED t.now.rows (passed_by (table_of t.now)) w.old w.new }
{
    if kept::get(s, sets_of_table::BY_KIND, kinds::CONTROL as usize).has_any() {
        let mut passing = [0u64; 64];
        pass_up(t, s, &mut passing, w);
        return;
    }
    bits::clear(w, sets_grids::PASSED, sets_grids::PASSED_END);
}
