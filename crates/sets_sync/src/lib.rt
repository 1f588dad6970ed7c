// M5 by sets of rows: synchronizes-with.
#![tactic(auto)]

ghost use Rattle.std.specs.Prelude.{◌<◌};
ghost use Rattle.model.specs.Row.{releases};
ghost use Rattle.model.specs.Table.{row_of};
ghost use Rattle.model.specs.Synchronizes.{synchronizes};
ghost use Rattle.run.specs.Layout.{rows_in, table_of};
ghost use Rattle.sets_of_rows.specs.Rows.{Rows};
ghost use Rattle.work_area.specs.Regions.{SYNC, SYNC_END};
ghost use Rattle.sets_grids.specs.Regions.{TAKEN};
ghost use Rattle.sets_grids.specs.Grid.{Grid, MadeGrid};
ghost use Rattle.sets_grids.specs.RowThat.{RowThat};
ghost use Rattle.sets_grids.specs.Given.{Given};
ghost use Rattle.sets_grids.specs.Synced.{taken_by};
ghost use Rattle.sets_sync.specs.Sync.{carried_to, Carrying};

pub mod all; // M3 to M5

use run::Run;
use sets_of_rows::{Set, kept};
use sets_of_table::fields;

// The acquire rows that get what is read from a sequence that carries for the release row a: its own, if it is an atomic; if it is a
// barrier, that of an atomic writer after it whose class its semantics have.
fn carried(t: &Run, s: &[u64], a: usize, w: &[u64]) -> Set
    requires { (a < t.now.rows) × Given (table_of t.now) t.now.rows s.now w.now × Grid TAKEN t.now.rows (taken_by (table_of t.now)) w.now }
    ensures { Rows t.now.rows (carried_to (table_of t.now) a) result }
{
    if !sets_of_table::rows(s, sets_of_table::BARRIER).has(a) {
        return kept::get(w, sets_grids::TAKEN, a);
    }
    let classes = sets_of_table::ask::of_classes(t, s, fields::classes(t, a));
    let writers = sets_of_table::ask::after(t, s, a)
        & sets_of_table::rows(s, sets_of_table::RANKED);
    kept::union(w, sets_grids::TAKEN, writers & classes)
}

// The acquire rows that the release row a synchronizes-with: by a sequence or by a control barrier, where both scopes are shared.
// Ruled out: one that has a itself; one that leaves out what a control barrier passes to.
fn sync_row(t: &Run, s: &[u64], a: usize, w: &[u64]) -> Set
    requires { RowThat releases (row_of (rows_in t.now.bytes)) t.now.rows a × Given (table_of t.now) t.now.rows s.now w.now × Carrying (table_of t.now) t.now.rows w.now }
    ensures { Rows t.now.rows (synchronizes (table_of t.now) a) result }
{
    let to = carried(t, s, a, w) | kept::get(w, sets_grids::PASSED, a);
    let acquires = to & sets_of_table::rows(s, sets_of_table::ACQUIRES);
    (acquires & sets_of_table::ask::together(t, s, a)).without(a)
}

// SYNC.
pub fn fill_sync(t: &Run, s: &[u64], w: &mut [u64])
    requires { Given (table_of t.now) t.now.rows s.now w.old × Carrying (table_of t.now) t.now.rows w.old }
    ensures { MadeGrid SYNC SYNC_END SYNC t.now.rows (synchronizes (table_of t.now)) w.old w.new }
{
    bits::clear(w, work_area::SYNC, work_area::SYNC_END);
    for a in sets_of_table::rows(s, sets_of_table::RELEASES) {
        let x = sync_row(t, s, a, w);
        kept::put(w, work_area::SYNC, a, x);
    }
}
