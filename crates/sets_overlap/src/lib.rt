// Which rows share bytes, by sets of rows: it hangs on the location alone.
#![tactic(auto)]

ghost use Rattle.std.specs.Prelude.{◌≡◌, true, ◌*◌, ◌<◌, replicate};
ghost use Rattle.model.specs.Limits.{ROWS};
ghost use Rattle.model.specs.Row.{access};
ghost use Rattle.model.specs.Table.{row_of};
ghost use Rattle.run.specs.Layout.{rows_in, table_of};
ghost use Rattle.sets_of_rows.specs.First.{First};
ghost use Rattle.sets_of_rows.specs.Rows.{Rows};
ghost use Rattle.work_area.specs.Regions.{OVERLAP, OVERLAP_END};
ghost use Rattle.work_area.specs.State.{overlaps};
ghost use Rattle.sets_of_table.specs.Known.{Opened};
ghost use Rattle.sets_grids.specs.Grid.{MadeGrid};
ghost use Rattle.sets_grids.specs.Given.{Given};
ghost use Rattle.sets_overlap.specs.Overlap.{Meeting, Met, Near, Told};

use run::Run;
use sets_of_rows::{Set, kept};
use sets_of_table::fields;

// The location of row i, the first of those that have not met, and each other one take in one another's rows if they share bytes. Gives
// the others.
fn take_in(t: &Run, s: &[u64], unmet: Set, i: usize, near: &mut [u64]) -> Set
    requires { First unmet i × Opened (table_of t.now) t.now.rows s.now × Meeting (table_of t.now) t.now.rows unmet near.old }
    ensures { Met (table_of t.now) t.now.rows unmet result near.new }
{
    let start = fields::start(t, i);
    let end = fields::end(t, i);
    let own = kept::get(s, sets_of_table::PLACE, i);
    let rest = unmet - own;
    let mut left = rest;
    let mut all = kept::get(near, 0, i) | own;
    while let Some(j) = left.first() {
        let here = kept::get(s, sets_of_table::PLACE, j);
        left = left - here;
        if (start < fields::end(t, j)) & (fields::start(t, j) < end) {
            all |= here;
            kept::join(near, 0, j, own);
        }
    }
    kept::put(near, 0, i, all);
    rest
}

// The rows that share bytes with each location, at its first row.
fn meet(t: &Run, s: &[u64], near: &mut [u64])
    requires { Opened (table_of t.now) t.now.rows s.now × (near.old ≡ replicate (2 * ROWS) 0) }
    ensures { Near (table_of t.now) t.now.rows near.new }
{
    let mut unmet = sets_of_table::rows(s, sets_of_table::ACCESS);
    while let Some(i) = unmet.first() {
        unmet = take_in(t, s, unmet, i, near);
    }
}

// The accesses that share bytes with access i: it hangs on the location alone.
// Ruled out: one that has what the row before shares bytes with.
fn overlap_row(t: &Run, s: &[u64], near: &[u64], i: usize) -> Set
    requires { (i < t.now.rows) × (access (row_of (rows_in t.now.bytes) i) ≡ true) × Told (table_of t.now) t.now.rows s.now near.now }
    ensures { Rows t.now.rows (overlaps (table_of t.now) i) result }
{
    let j = kept::get(s, sets_of_table::PLACE, i).first().unwrap();
    kept::get(near, 0, j)
}

// OVERLAP.
// Ruled out: one in which the later of two locations alone has the other's rows; one in which a location has only its first row's.
pub fn fill_overlaps(t: &Run, s: &[u64], w: &mut [u64])
    requires { Given (table_of t.now) t.now.rows s.now w.old }
    ensures { MadeGrid OVERLAP OVERLAP_END OVERLAP t.now.rows (overlaps (table_of t.now)) w.old w.new }
{
    let mut near = [0u64; 256];
    meet(t, s, &mut near);
    bits::clear(w, work_area::OVERLAP, work_area::OVERLAP_END);
    for i in sets_of_table::rows(s, sets_of_table::ACCESS) {
        let x = overlap_row(t, s, &near, i);
        kept::put(w, work_area::OVERLAP, i, x);
    }
}
