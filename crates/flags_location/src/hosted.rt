// L4 and L5 for every two rows that may share a byte, as bits: whatever the byte, they tell the same.
ghost use Rattle.std.specs.Prelude.{◌≡◌, not, ◌≤◌};
ghost use Rattle.finite.specs.Logic.{◌and◌};
ghost use Rattle.finite.specs.Below.{any_below};
ghost use Rattle.finite.specs.Closure.{through};
ghost use Rattle.bits.specs.Stage.{Made, Added};
ghost use Rattle.model.specs.Limits.{ROWS};
ghost use Rattle.model.specs.Row.{reads, writes};
ghost use Rattle.model.specs.Table.{depends_of};
ghost use Rattle.run.specs.Layout.{mode_in, rows_in, table_of};
ghost use Rattle.work_area.specs.Regions.{HOSTED, HOSTED_END, SYSTEM, SYSTEM_END, REACHED_END, GRID};
ghost use Rattle.work_area.specs.State.{Ordered};
ghost use Rattle.flags_location.specs.Order.{hosted};
ghost use Rattle.flags_location.specs.Domains.{operation_at, unhosted, nth_depends, Sources};
ghost use Rattle.flags_location.specs.Given.{Room, Given, GivenRows};

use crate::domains;
use model::Row;
use run::Run;
use run_rows::pairs;

// ---- L4: the closure of the dependencies

// Adds the k-th dependency. One that names no row adds nothing.
fn put_dependency(t: &Run, k: u16, w: &mut [u64])
    requires { Room t.now.rows w.old }
    ensures { Added SYSTEM SYSTEM_END SYSTEM GRID t.now.rows (nth_depends (mode_in t.now.bytes) k) w.old w.new }
{
    let i = t.first_of(k) as usize;
    let j = t.second_of(k) as usize;
    if t.rows <= i {
        return;
    }
    if t.rows <= j {
        return;
    }
    work_area::grid::SYSTEM.put(w, i, j);
}

// Which rows system-synchronize, by one dependency or by several in a row.
// Ruled out: one that takes a dependency as going both ways; one that leaves out what two dependencies make together.
fn make_system(t: &Run, w: &mut [u64])
    requires { Room t.now.rows w.old }
    ensures { Made SYSTEM SYSTEM_END SYSTEM GRID t.now.rows (through (depends_of (mode_in t.now.bytes)) t.now.rows) w.old w.new }
{
    bits::clear(w, work_area::SYSTEM, work_area::SYSTEM_END);
    for k in 0..t.dependencies() {
        put_dependency(t, k, w);
    }
    work_area::grid::SYSTEM.close(w, t.rows);
}

// L4 of r, where s tells whether it system-synchronizes.
fn l4(r: Row, s: bool) -> bool
    ensures { result ≡ (reads r and not (writes r) and s) }
{
    door_rows::kinds::reads(r) & !door_rows::kinds::writes(r) & s
}

// ---- L4 and L5 of a pair

// Rows that share no byte are not asked.
fn hosted_at(t: &Run, x: usize, y: usize, w: &[u64]) -> bool
    requires { GivenRows Sources t.now.bytes t.now.rows x y w.now }
    ensures { result ≡ hosted (table_of t.now) x y }
{
    let r = t.row(x as u16);
    let q = t.row(y as u16);
    if !pairs::may_share(x, y, r, q) {
        return false;
    }
    let s = domains::grid_bit(w, work_area::grid::SYSTEM, x, y);
    if l4(r, s) {
        return true;
    }
    domains::l5(t, x, y, w)
}

// The same for every two rows.
// Ruled out: one that orders a row before itself; one that exchanges the two rows of a pair.
fn fill_hosted(t: &Run, w: &mut [u64])
    requires { Given Sources t.now.bytes t.now.rows w.old }
    ensures { Made HOSTED HOSTED_END HOSTED GRID t.now.rows (hosted (table_of t.now)) w.old w.new }
{
    bits::clear(w, work_area::HOSTED, work_area::HOSTED_END);
    for x in 0..t.rows {
        for y in 0..t.rows {
            let b = hosted_at(t, x, y, w);
            work_area::grid::HOSTED.put_if(w, x, y, b);
        }
    }
}

// ---- all of it

// Whether some row is an operation.
fn has_operation(t: &Run) -> bool
    requires { t.now.rows ≤ ROWS }
    ensures { result ≡ any_below t.now.rows (operation_at (rows_in t.now.bytes)) }
{
    for i in 0..t.rows {
        if domains::operation_at(t, i) {
            return true;
        }
    }
    false
}

// Whether there is neither a dependency nor an operation.
fn is_unhosted(t: &Run) -> bool
    requires { t.now.rows ≤ ROWS }
    ensures { result ≡ unhosted (mode_in t.now.bytes) (rows_in t.now.bytes) t.now.rows }
{
    (t.dependencies() == 0) & !has_operation(t)
}

// L4 and L5 for every two rows. Without dependencies and operations there is nothing to ask.
// Ruled out: one that leaves a bit of an earlier stage set where there is nothing to ask; one that passes over L4 where there are
// dependencies but no operation.
pub fn make_hosted(t: &Run, w: &mut [u64])
    requires { Given Ordered t.now.bytes t.now.rows w.old }
    ensures { Made HOSTED REACHED_END HOSTED GRID t.now.rows (hosted (table_of t.now)) w.old w.new }
{
    if is_unhosted(t) {
        bits::clear(w, work_area::HOSTED, work_area::HOSTED_END);
        return;
    }
    make_system(t, w);
    domains::fill_met(t, w);
    domains::fill_reached(t, w);
    fill_hosted(t, w);
}
