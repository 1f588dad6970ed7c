// M3 by sets of rows: scoped modification order.
ghost use Rattle.std.specs.Prelude.{◌≡◌, ℕ, ◌<◌, eqb};
ghost use Rattle.finite.specs.Logic.{◌and◌, ◌or◌};
ghost use Rattle.model.specs.Limits.{ROWS};
ghost use Rattle.model.specs.Row.{ranked};
ghost use Rattle.model.specs.Table.{row_of};
ghost use Rattle.model.specs.Scope.{mutually, follows};
ghost use Rattle.run.specs.Layout.{rows_in, table_of};
ghost use Rattle.sets_of_rows.specs.Member.{in_set};
ghost use Rattle.sets_of_rows.specs.Rows.{Rows};
ghost use Rattle.work_area.specs.Regions.{MUTUAL};
ghost use Rattle.sets_grids.specs.Regions.{LATER, LATER_END};
ghost use Rattle.sets_grids.specs.Grid.{Grid, MadeGrid};
ghost use Rattle.sets_grids.specs.RowThat.{RowThat};
ghost use Rattle.sets_grids.specs.Given.{Given};
ghost use Rattle.sets_mutual.specs.Later.{later_rank};

use run::Run;
use sets_of_rows::{Set, kept};
use sets_of_table::fields;

// Whether row j's rank is later than row i's.
fn is_after(t: &Run, i: usize, j: usize) -> bool
    requires { (i < ROWS) × (j < ROWS) }
    ensures { result ≡ later_rank (table_of t.now) i j }
{
    door_rows::scopes::is_later(t.counted(), fields::rank(t, j), fields::rank(t, i))
}

// The set with row i, if b.
fn add_if(b: bool, x: Set, i: usize) -> Set
    requires { i < ROWS }
    ensures { (j : ℕ) → in_set result j ≡ (in_set x j or (b and eqb j i)) }
{
    if b { x | Set::bit(i) } else { x }
}

// The members of x whose rank is later than row i's.
fn later_than(t: &Run, x: Set, i: usize) -> Set
    requires { i < ROWS }
    ensures { (j : ℕ) → in_set result j ≡ (in_set x j and later_rank (table_of t.now) i j) }
{
    let mut r = Set::none();
    for j in x {
        let b = is_after(t, i, j);
        r = add_if(b, r, j);
    }
    r
}

// What follows the writer i.
// Ruled out: one that has what comes before it.
fn later_row(t: &Run, s: &[u64], w: &[u64], i: usize) -> Set
    requires { RowThat ranked (row_of (rows_in t.now.bytes)) t.now.rows i × Given (table_of t.now) t.now.rows s.now w.now × Grid MUTUAL t.now.rows (mutually (table_of t.now)) w.now }
    ensures { Rows t.now.rows (follows (table_of t.now) i) result }
{
    let writers = kept::get(w, work_area::MUTUAL, i)
        & sets_of_table::rows(s, sets_of_table::RANKED);
    later_than(t, writers, i)
}

// LATER.
pub fn fill_later(t: &Run, s: &[u64], w: &mut [u64])
    requires { Given (table_of t.now) t.now.rows s.now w.old × Grid MUTUAL t.now.rows (mutually (table_of t.now)) w.old }
    ensures { MadeGrid LATER LATER_END LATER t.now.rows (follows (table_of t.now)) w.old w.new }
{
    bits::clear(w, sets_grids::LATER, sets_grids::LATER_END);
    for i in sets_of_table::rows(s, sets_of_table::RANKED) {
        let x = later_row(t, s, w, i);
        kept::put(w, sets_grids::LATER, i, x);
    }
}
