// M6: the direct cases of inter-thread order for a class set, as bits over moments.
ghost use Rattle.std.specs.Prelude.{◌≡◌, ◌+◌, ◌*◌, ◌/◌, ◌%◌, ◌≤◌, ◌<◌, length};
ghost use Rattle.bits.specs.Stage.{Made, Added};
ghost use Rattle.bits.specs.Matrix.{rel};
ghost use Rattle.model.specs.Limits.{ROWS, WORK};
ghost use Rattle.model.specs.Table.{row_of};
ghost use Rattle.run.specs.Layout.{mode_in, rows_in, table_of};
ghost use Rattle.model.specs.Moment.{program_order};
ghost use Rattle.model.specs.Happens.{step};
ghost use Rattle.model_laws.specs.HostLaws.{step₁};
ghost use Rattle.finite.specs.Several.{TwoOf};
ghost use Rattle.work_area.specs.Regions.{SYNC, STEP, STEP_END, GRID, MOMENTS};
ghost use Rattle.work_area.specs.Synced.{Synced};
ghost use Rattle.flags_order.specs.Cases.{step_rows};
ghost use Rattle.flags_order.specs.Steps.{CellMade, RowMade};
ghost use Rattle.flags_order.specs.System.{system_by, system_to};

use model::Row;
use run::Run;
use run_rows::{cases, moments};

// ---- direct cases that go by rows

// M6: one of them from the moment `from` of r to the moment `to` of q. Each needs a moment that holds all of s: that is tested first.
fn is_step(s: u8, from: u8, to: u8, r: Row, q: Row, synced: bool, ordered: bool) -> bool
    ensures { result ≡ step_rows s from to r q synced ordered }
{
    let h = cases::holding_of(s, r, from);
    let g = cases::holding_of(s, q, to);
    if !(h | g) {
        return false;
    }
    for k in 0..cases::ROW_CASES {
        if cases::is_case(k + 1, s, from, to, r, q, synced, ordered) {
            return true;
        }
    }
    false
}

// M6: one of them for the class set s from moment m to moment k. Most pairs neither synchronize nor are program-ordered, and no whole
// row is read.
fn step_of(t: &Run, s: u8, m: usize, k: usize, synced: bool) -> bool
    requires { (t.now.rows ≤ ROWS) × (m < 3 * t.now.rows) × (k < 3 * t.now.rows) }
    ensures { let r = row_of (rows_in t.now.bytes) (m / 3) in
        let q = row_of (rows_in t.now.bytes) (k / 3) in
        result ≡ step_rows s (m % 3) (k % 3) r q synced (program_order (table_of t.now) m k) }
{
    let ordered = moments::ordered_at(t, m, k);
    if !(synced | ordered) {
        return false;
    }
    let r = t.row((m / 3) as u16);
    let q = t.row((k / 3) as u16);
    is_step(s, (m % 3) as u8, (k % 3) as u8, r, q, synced, ordered)
}

// Whether the row of moment m synchronizes-with the row of moment k, as the work area's bits say.
fn sync_bit(m: usize, k: usize, w: &[u64]) -> bool
    requires { (m < 3 * ROWS) × (k < 3 * ROWS) × (WORK ≤ length w.now) }
    ensures { result ≡ rel w.now SYNC GRID (m / 3) (k / 3) }
{
    work_area::grid::SYNC.get(w, m / 3, k / 3)
}

// Sets the bit from m to k where there is one.
fn fill_cell(t: &Run, s: u8, m: usize, k: usize, w: &mut [u64])
    requires { (t.now.rows ≤ ROWS) × TwoOf (3 * t.now.rows) m k × (WORK ≤ length w.old) }
    ensures { CellMade t.now.bytes t.now.rows s m k w.old w.new }
{
    let b = step_of(t, s, m, k, sync_bit(m, k, w));
    work_area::grid::STEP.put_if(w, m, k, b);
}

// Sets the bits of those from and to the moment m.
fn fill_at(t: &Run, s: u8, m: usize, w: &mut [u64])
    requires { (t.now.rows ≤ ROWS) × (m < 3 * t.now.rows) × (WORK ≤ length w.old) }
    ensures { RowMade t.now.bytes t.now.rows s m (3 * t.now.rows) w.old w.new }
{
    for k in 0..3 * t.rows {
        fill_cell(t, s, m, k, w);
        fill_cell(t, s, k, m, w);
    }
}

// M6: the direct cases that go by rows, for the class set s and every two moments. Each has the own moment of a row that holds all of
// s at one end, so that only such rows are asked.
fn fill_cases(t: &Run, s: u8, w: &mut [u64])
    requires { (t.now.rows ≤ ROWS) × (WORK ≤ length w.old) × Synced (table_of t.now) t.now.rows w.old }
    ensures { Made STEP STEP_END STEP MOMENTS (3 * t.now.rows) (step₁ (table_of t.now) s) w.old w.new }
{
    bits::clear(w, work_area::STEP, work_area::STEP_END);
    for j in 0..t.rows {
        if cases::holds_at(t, s, j) {
            fill_at(t, s, 3 * j + 1, w);
        }
    }
}

// ---- dependencies

// Sets the bit of dependency c, between the own moments of its two rows, where the table has both.
fn put_dependency(t: &Run, c: u16, w: &mut [u64])
    requires { (t.now.rows ≤ ROWS) × (WORK ≤ length w.old) }
    ensures { Added STEP STEP_END STEP MOMENTS (3 * t.now.rows) (system_by (mode_in t.now.bytes) c) w.old w.new }
{
    let x = t.first_of(c) as usize;
    let y = t.second_of(c) as usize;
    if t.rows <= x {
        return;
    }
    if t.rows <= y {
        return;
    }
    work_area::grid::STEP.put(w, 3 * x + 1, 3 * y + 1);
}

// Adds the direct case that goes by dependencies: a bit for each of them, instead of a test of all at every two moments.
fn add_dependencies(t: &Run, w: &mut [u64])
    requires { (t.now.rows ≤ ROWS) × (WORK ≤ length w.old) }
    ensures { Added STEP STEP_END STEP MOMENTS (3 * t.now.rows) (system_to (mode_in t.now.bytes) (mode_in t.now.bytes).dependencies) w.old w.new }
{
    for c in 0..t.dependencies() {
        put_dependency(t, c, w);
    }
}

// M6: the direct cases for the class set s, for every two moments.
// Ruled out: one that asks rows of a class in s instead of all of s; one that lets a dependency begin before its first row's own moment.
pub fn fill_step(t: &Run, s: u8, w: &mut [u64])
    requires { (t.now.rows ≤ ROWS) × (WORK ≤ length w.old) × Synced (table_of t.now) t.now.rows w.old }
    ensures { Made STEP STEP_END STEP MOMENTS (3 * t.now.rows) (step (table_of t.now) s) w.old w.new }
{
    fill_cases(t, s, w);
    add_dependencies(t, w);
}
