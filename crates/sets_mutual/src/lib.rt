// M3 by sets of rows: mutually-ordered atomics.
#![tactic(auto)]

ghost use Rattle.std.specs.Prelude.{◌≡◌, true, ◌<◌};
ghost use Rattle.model.specs.Row.{atomic};
ghost use Rattle.model.specs.Table.{row_of};
ghost use Rattle.model.specs.Scope.{mutually};
ghost use Rattle.run.specs.Layout.{rows_in, table_of};
ghost use Rattle.sets_of_rows.specs.Rows.{Rows};
ghost use Rattle.work_area.specs.Regions.{MUTUAL, MUTUAL_END};
ghost use Rattle.sets_of_table.specs.Known.{Opened};
ghost use Rattle.sets_grids.specs.Grid.{MadeGrid};
ghost use Rattle.sets_grids.specs.Given.{Given};

pub mod later; // M3: what follows each writer

use run::Run;
use sets_of_rows::{Set, kept};

// The rows that are mutually-ordered with the atomic i: atomics of its location whose agents share both rows' scopes.
// Ruled out: one that has row i; one that asks row i's scope alone.
fn mutual_row(t: &Run, s: &[u64], i: usize) -> Set
    requires { (i < t.now.rows) × (atomic (row_of (rows_in t.now.bytes) i) ≡ true) × Opened (table_of t.now) t.now.rows s.now }
    ensures { Rows t.now.rows (mutually (table_of t.now) i) result }
{
    let here = kept::get(s, sets_of_table::PLACE, i)
        & sets_of_table::rows(s, sets_of_table::ATOMIC);
    (here & sets_of_table::ask::together(t, s, i)).without(i)
}

// MUTUAL.
pub fn fill_mutual(t: &Run, s: &[u64], w: &mut [u64])
    requires { Given (table_of t.now) t.now.rows s.now w.old }
    ensures { MadeGrid MUTUAL MUTUAL_END MUTUAL t.now.rows (mutually (table_of t.now)) w.old w.new }
{
    bits::clear(w, work_area::MUTUAL, work_area::MUTUAL_END);
    for i in sets_of_table::rows(s, sets_of_table::ATOMIC) {
        let x = mutual_row(t, s, i);
        kept::put(w, work_area::MUTUAL, i, x);
    }
}
