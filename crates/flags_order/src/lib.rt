// M6 and M7: happens-before between the moments of a table, as bits in a lent work area.
#![tactic(auto)]

ghost use Rattle.std.specs.Prelude.{◌≡◌, ◌+◌, ◌*◌, ◌≤◌, ◌<◌, length};
ghost use Rattle.bits.specs.Stage.{Made, Added};
ghost use Rattle.model.specs.Limits.{ROWS, WORK, CLASS_SETS};
ghost use Rattle.run.specs.Layout.{table_of};
ghost use Rattle.model.specs.Moment.{program_order};
ghost use Rattle.model_laws.specs.HappensLaws.{live};
ghost use Rattle.work_area.specs.Regions.{HAPPENS, HAPPENS_END, STEP_END, MOMENTS};
ghost use Rattle.work_area.specs.State.{MadeOrdered};
ghost use Rattle.work_area.specs.Synced.{Synced};
ghost use Rattle.flags_order.specs.Sets.{inter_by};

use run::Run;
use run_rows::{cases, moments};

pub mod steps; // M6: the direct cases of inter-thread order

// M1: program order, as the bits that happens-before begins with.
pub fn fill_order(t: &Run, w: &mut [u64])
    requires { (t.now.rows ≤ ROWS) × (WORK ≤ length w.old) }
    ensures { Made HAPPENS HAPPENS_END HAPPENS MOMENTS (3 * t.now.rows)
        (program_order (table_of t.now)) w.old w.new }
{
    bits::clear(w, work_area::HAPPENS, work_area::HAPPENS_END);
    for m in 0..3 * t.rows {
        for k in 0..3 * t.rows {
            let b = moments::ordered_at(t, m, k);
            work_area::grid::HAPPENS.put_if(w, m, k, b);
        }
    }
}

// M6: whether some row holds all of the class set s, or it is the first. Another set has no direct case but a dependency, which the
// first has too.
pub fn is_live(t: &Run, s: u8) -> bool
    requires { t.now.rows ≤ ROWS }
    ensures { result ≡ live (table_of t.now) s }
{
    if s == 1 {
        return true;
    }
    for i in 0..t.rows {
        if cases::holds_at(t, s, i) {
            return true;
        }
    }
    false
}

// M6: adds inter-thread order for the class set s + 1, the closure of its direct cases, to happens-before.
pub fn add_set(t: &Run, s: u8, w: &mut [u64])
    requires { (s < CLASS_SETS) × (WORK ≤ length w.old) × Synced (table_of t.now) t.now.rows w.old }
    ensures { Added HAPPENS STEP_END HAPPENS MOMENTS (3 * t.now.rows)
        (inter_by (table_of t.now) s) w.old w.new }
{
    if is_live(t, s + 1) {
        steps::fill_step(t, s + 1, w);
        work_area::grid::STEP.close(w, 3 * t.rows);
        bits::join_row(
            w,
            work_area::HAPPENS,
            work_area::STEP,
            work_area::HAPPENS_END - work_area::HAPPENS,
        );
    }
}

// M7: happens-before: program order, or inter-thread order for some class set. Also mutually-ordered rows (M3), which later
// stages read.
// Ruled out: one that closes program order together with the direct cases; one that leaves a class set out.
pub fn happens_before(t: &Run, w: &mut [u64])
    requires { (t.now.rows ≤ ROWS) × (WORK ≤ length w.old) }
    ensures { MadeOrdered (table_of t.now) t.now.rows w.old w.new }
{
    flags_sync::sync::make_synced(t, w);
    fill_order(t, w);
    for s in 0..cases::CLASS_SETS {
        add_set(t, s, w);
    }
}
