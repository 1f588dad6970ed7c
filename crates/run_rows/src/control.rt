// M5: control barriers, each met by the rows of one instance; from the rows alone.
ghost use Rattle.std.specs.Prelude.{◌≡◌, ◌≤◌, ◌<◌};
ghost use Rattle.finite.specs.Below.{any_below};
ghost use Rattle.model.specs.Limits.{ROWS};
ghost use Rattle.model.specs.Row.{control};
ghost use Rattle.model.specs.Table.{row_of};
ghost use Rattle.run.specs.Layout.{rows_in, table_of};
ghost use Rattle.model.specs.Synchronizes.{up_to, joins, arrives, passes};
ghost use Rattle.finite.specs.Several.{ThreeOf};

use run::Run;

// M5: whether row a is program-ordered before row c, or is c.
fn is_up_to(t: &Run, a: usize, c: usize) -> bool
    requires { (a < ROWS) × (c < ROWS) }
    ensures { result ≡ up_to (table_of t.now) a c }
{
    let r = t.agent(a as u16);
    let q = t.agent(c as u16);
    (a <= c) & (r == q)
}

// M5: whether the rows c and d meet: two different rows of one instance, whose agents share its execution scope. Places are read
// for such rows only.
fn joins_at(t: &Run, c: usize, d: usize) -> bool
    requires { (c < ROWS) × (d < ROWS) }
    ensures { result ≡ joins (table_of t.now) c d }
{
    let r = t.row(c as u16);
    let q = t.row(d as u16);
    if !(!(c == d) & door_rows::kinds::same_instance(r, q)) {
        return false;
    }
    t.shares(r.class, r.agent, q.agent)
}

// M5: whether row d meets row c, and comes before row b or is b.
fn arrives_at(t: &Run, b: usize, c: usize, d: usize) -> bool
    requires { (b < ROWS) × (c < ROWS) × (d < ROWS) }
    ensures { result ≡ arrives (table_of t.now) b c d }
{
    if !is_up_to(t, d, b) {
        return false;
    }
    joins_at(t, c, d)
}

// M5: whether some row meets row c, and comes before row b or is b.
fn is_arrived(t: &Run, b: usize, c: usize) -> bool
    requires { (t.now.rows ≤ ROWS) × (b < t.now.rows) × (c < t.now.rows) }
    ensures { result ≡ any_below t.now.rows (arrives (table_of t.now) b c) }
{
    for d in 0..t.rows {
        if arrives_at(t, b, c, d) {
            return true;
        }
    }
    false
}

// Whether row c is a control barrier, by its first byte.
fn is_control_at(t: &Run, c: usize) -> bool
    requires { c < ROWS }
    ensures { result ≡ control (row_of (rows_in t.now.bytes) c) }
{
    t.kind(c as u16) == door_rows::kinds::CONTROL
}

// M5: whether row a comes before row c or is c, and c is met by a row that comes before row b or is b. Only a control barrier is
// met: any other row costs a byte, and no walk over the rows.
fn passes_at(t: &Run, a: usize, b: usize, c: usize) -> bool
    requires { (t.now.rows ≤ ROWS) × ThreeOf t.now.rows a b c }
    ensures { result ≡ passes (table_of t.now) a b c }
{
    if !is_control_at(t, c) {
        return false;
    }
    if !is_up_to(t, a, c) {
        return false;
    }
    is_arrived(t, b, c)
}

// M5: whether a control barrier passes on from row a to row b.
pub fn is_passed(t: &Run, a: usize, b: usize) -> bool
    requires { (t.now.rows ≤ ROWS) × (a < t.now.rows) × (b < t.now.rows) }
    ensures { result ≡ any_below t.now.rows (passes (table_of t.now) a b) }
{
    for c in 0..t.rows {
        if passes_at(t, a, b, c) {
            return true;
        }
    }
    false
}
