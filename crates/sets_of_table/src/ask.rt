// Sets that go by row i of n: of its agent, program order, scopes, location and reference.
ghost use Rattle.std.specs.Prelude.{◌≡◌, ◌<◌};
ghost use Rattle.model.specs.Row.{meets, single};
ghost use Rattle.model.specs.Moment.{same_agent};
ghost use Rattle.run.specs.Layout.{table_of};
ghost use Rattle.model_closing.specs.Order.{later_row, from_row};
ghost use Rattle.sets_of_rows.specs.Rows.{Rows};
ghost use Rattle.model_placing.specs.Shares.{share, hears};
ghost use Rattle.sets_of_table.specs.Known.{Opened, at_together, classed_in};

use crate::fields;
use run::Run;
use sets_of_rows::{Set, kept};

// The rows of row i's agent.
pub fn of_agent(t: &Run, s: &[u64], i: usize) -> Set
    requires { (i < t.now.rows) × Opened (table_of t.now) t.now.rows s.now }
    ensures { Rows t.now.rows (same_agent (table_of t.now) i) result }
{
    kept::get(s, crate::BY_AGENT, fields::agent(t, i))
}

// The rows that row i is program-ordered before.
pub fn after(t: &Run, s: &[u64], i: usize) -> Set
    requires { (i < t.now.rows) × Opened (table_of t.now) t.now.rows s.now }
    ensures { Rows t.now.rows (later_row (table_of t.now) i) result }
{
    of_agent(t, s, i) & Set::above(i)
}

// The same and row i.
pub fn onward(t: &Run, s: &[u64], i: usize) -> Set
    requires { (i < t.now.rows) × Opened (table_of t.now) t.now.rows s.now }
    ensures { Rows t.now.rows (from_row (table_of t.now) i) result }
{
    of_agent(t, s, i) - Set::below(i)
}

// The rows of agents that share scope q with row i's agent.
pub fn sharing(t: &Run, s: &[u64], i: usize, q: usize) -> Set
    requires { (i < t.now.rows) × (q < 5) × Opened (table_of t.now) t.now.rows s.now }
    ensures { let table = table_of t.now in Rows t.now.rows (share table (table.row i).agent q) result }
{
    kept::get(s, crate::SHARE + 10 * fields::agent(t, i), q)
}

// The rows of agents that share row i's scope.
pub fn reach(t: &Run, s: &[u64], i: usize) -> Set
    requires { (i < t.now.rows) × Opened (table_of t.now) t.now.rows s.now }
    ensures { let table = table_of t.now in Rows t.now.rows (share table (table.row i).agent (table.row i).scope) result }
{
    sharing(t, s, i, fields::scope(t, i))
}

// The rows whose own scope row i's agent shares.
pub fn hears(t: &Run, s: &[u64], i: usize) -> Set
    requires { (i < t.now.rows) × Opened (table_of t.now) t.now.rows s.now }
    ensures { let table = table_of t.now in Rows t.now.rows (hears table (table.row i).agent) result }
{
    kept::get(s, crate::HEARS, fields::agent(t, i))
}

// M2: the rows for which row i and they share both scopes.
pub fn together(t: &Run, s: &[u64], i: usize) -> Set
    requires { (i < t.now.rows) × Opened (table_of t.now) t.now.rows s.now }
    ensures { Rows t.now.rows (at_together (table_of t.now) i) result }
{
    reach(t, s, i) & hears(t, s, i)
}

// The accesses of a class in the set m.
pub fn of_classes(t: &Run, s: &[u64], m: usize) -> Set
    requires { (m < 16) × Opened (table_of t.now) t.now.rows s.now }
    ensures { Rows t.now.rows (classed_in (table_of t.now) m) result }
{
    let mut a = Set::none();
    for q in 0..4 {
        a |= kept::get(s, crate::CLASSED, q).only_if(holds_class(m, q));
    }
    a
}

// Whether class q is in the set of classes m.
pub fn holds_class(m: usize, q: usize) -> bool
    requires { (m < 16) × (q < 4) }
    ensures { result ≡ meets m (single q) }
{
    door_rows::kinds::meets(m as u8, door_rows::kinds::single(q as u8))
}
