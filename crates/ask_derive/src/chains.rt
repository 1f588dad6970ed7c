// A chain of direct cases of M6: the lowest class set that has one, and its steps as numbers in a lent buffer.
ghost use Rattle.std.specs.Prelude.{◌≡◌, ◌+◌, ◌*◌, ◌/◌, ◌%◌, ◌≤◌, ◌<◌, length};
ghost use Rattle.finite.specs.Below.{least};
ghost use Rattle.finite.specs.Lists.{Written};
ghost use Rattle.finite.specs.Walk.{trail, along};
ghost use Rattle.bits.specs.Matrix.{rel};
ghost use Rattle.bits.specs.Within.{Within};
ghost use Rattle.model.specs.Limits.{ROWS, WORK, STEPS, CLASS_SETS};
ghost use Rattle.model.specs.Table.{row_of};
ghost use Rattle.run.specs.Layout.{rows_in, table_of};
ghost use Rattle.model.specs.Moment.{program_order};
ghost use Rattle.model.specs.Happens.{CASES};
ghost use Rattle.model.specs.Reason.{has_chain_by, step_number};
ghost use Rattle.finite.specs.Several.{TwoOf};
ghost use Rattle.work_area.specs.Regions.{HAPPENS, STEP, CHAINS_END, MOMENTS};
ghost use Rattle.work_area.specs.Synced.{Synced};
ghost use Rattle.ask_derive.specs.Layers.{Layered, Leading};
ghost use Rattle.ask_derive.specs.Cases.{lowest_rows};

use crate::layers;
use model::Row;
use run::Run;
use run_rows::{cases, moments};

// ---- the class set

// The least c for which some chain for the class set c + 1 leads from the first moment to the second; CLASS_SETS where there is none.
// Where there is one, its steps and their layers are left in the work area.
// Ruled out: one that gives a higher class set where a lower one has a chain; one that counts a moment as a chain to itself.
pub fn find_set(t: &Run, first: usize, second: usize, w: &mut [u64]) -> u8
    requires { TwoOf (3 * t.now.rows) first second × (WORK ≤ length w.old) × Synced (table_of t.now) t.now.rows w.old }
    ensures { (result ≡ least CLASS_SETS (has_chain_by (table_of t.now) first second))
        × Within HAPPENS CHAINS_END w.old w.new
        × (result < CLASS_SETS → Layered (table_of t.now) t.now.rows (result + 1) second w.new) }
{
    for c in 0..cases::CLASS_SETS {
        layers::make_layers(t, c + 1, second, w);
        let j = work_walks::apart::STEPS.layer_of(w, 3 * t.rows, first);
        if j < 3 * t.rows {
            return c;
        }
    }
    cases::CLASS_SETS
}

// ---- its steps

// M6: the lowest case from the moment `from` of r to the moment `to` of q, where there is one: a dependency if it is none of those that
// go by rows.
fn case_of(s: u8, from: u8, to: u8, r: Row, q: Row, synced: bool, ordered: bool) -> u16
    ensures { result ≡ lowest_rows s from to r q synced ordered }
{
    for k in 0..cases::ROW_CASES {
        if cases::is_case(k + 1, s, from, to, r, q, synced, ordered) {
            return k + 1;
        }
    }
    cases::CASES
}

// The same of moments m and k of a table.
fn case_at(t: &Run, s: u8, m: usize, k: usize, synced: bool) -> u16
    requires { (t.now.rows ≤ ROWS) × (m < 3 * t.now.rows) × (k < 3 * t.now.rows) }
    ensures { let r = row_of (rows_in t.now.bytes) (m / 3) in
        let q = row_of (rows_in t.now.bytes) (k / 3) in
        (result ≤ CASES) × (result ≡ lowest_rows s (m % 3) (k % 3) r q synced (program_order (table_of t.now) m k)) }
{
    let ordered = moments::ordered_at(t, m, k);
    let r = t.row((m / 3) as u16);
    let q = t.row((k / 3) as u16);
    case_of(s, (m % 3) as u8, (k % 3) as u8, r, q, synced, ordered)
}

// The number of the step from moment m to moment k.
fn step_number(t: &Run, s: u8, m: usize, k: usize, w: &[u64]) -> u16
    requires { TwoOf (3 * t.now.rows) m k × (WORK ≤ length w.now) × Synced (table_of t.now) t.now.rows w.now }
    ensures { result ≡ step_number (table_of t.now) s m k }
{
    let b = work_area::grid::SYNC.get(w, m / 3, k / 3);
    let d = case_at(t, s, m, k, b);
    model::CASE * d + (k as u16)
}

// The numbers of the `size` steps of a chain from the first moment to the second become the first numbers of c: each time the least
// next moment, by the lowest case.
// Ruled out: one that writes the moment that a step starts at; one that goes into a layer of chains that are longer than what is left.
pub fn write_steps(
    t: &Run,
    s: u8,
    first: usize,
    second: usize,
    size: usize,
    w: &[u64],
    c: &mut [u16],
)
    requires { (STEPS ≤ length c.old) × Leading t.now.rows first second size w.now × Synced (table_of t.now) t.now.rows w.now }
    ensures { Written (along (step_number (table_of t.now) s) second
        (trail (3 * t.now.rows) (rel w.now STEP MOMENTS) second size first)) size c.old c.new }
{
    let mut z = first;
    for i in 0..size {
        let y = work_walks::apart::STEPS.next(w, 3 * t.rows, size - i - 1, z);
        c[i] = step_number(t, s, z, y, w);
        z = y;
    }
}
