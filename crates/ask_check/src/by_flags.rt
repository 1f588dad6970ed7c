// The verdict by the flags engine: one flag for each two moments, and plain loops.
ghost use Rattle.std.specs.Prelude.{◌≡◌, ◌≤◌, length, Ok};
ghost use Rattle.model.specs.Limits.{WORK, CYCLE};
ghost use Rattle.model.specs.Check.{verdict, race, race_free, race_or, overwritten_or, check_answer, cycle_after};
ghost use Rattle.bits.specs.Within.{Within};
ghost use Rattle.work_area.specs.Regions.{MUTUAL, LOCATED_END, EDGE, LAYERS_END};
ghost use Rattle.work_area.specs.State.{Placed};
ghost use Rattle.run.specs.Layout.{table_of};
ghost use Rattle.sets_of_table.specs.Fit.{FitRun};
ghost use Rattle.find_axioms.specs.Sources.{source_in};
ghost use Rattle.ask_check.specs.Engine.{Judges, Buffers, Located};

use model::CheckAnswer;
use run::Run;

// Location order of a run of n rows.
pub fn locate(t: &Run, w: &mut [u64])
    requires { FitRun t.now.bytes t.now.rows × (WORK ≤ length w.old) }
    ensures { Placed (table_of t.now) t.now.rows w.new × Within MUTUAL LOCATED_END w.old w.new }
{
    flags_order::happens_before(t, w);
    flags_location::fill_location(t, w);
}

// The verdict where no edges make a cycle: overwritten, else a race, else race-free.
fn settle(t: &Run, src: &[u16], w: &[u64]) -> CheckAnswer
    requires { (t.now.rows ≤ length src.now) × Located (table_of t.now) t.now.rows w.now }
    ensures { let table = table_of t.now in
        Ok result ≡ check_answer (overwritten_or (race_or race race_free table) table (source_in src.now)) }
{
    if let Some(found) = find_axioms::overwritten::first_overwrite(t, src, w) {
        return CheckAnswer::Overwritten(found);
    }
    find_race::first_race(t, w).map_or(CheckAnswer::RaceFree, CheckAnswer::Race)
}

// The verdict, from location order and the sources; a cycle's numbers in c.
pub fn judge_located(t: &Run, src: &[u16], w: &mut [u64], c: &mut [u16]) -> CheckAnswer
    requires { (CYCLE ≤ length c.old) × (t.now.rows ≤ length src.now) × Located (table_of t.now) t.now.rows w.old }
    ensures { (Ok result ≡ check_answer (verdict (table_of t.now) (source_in src.now)))
        × (c.new ≡ cycle_after (verdict (table_of t.now) (source_in src.now)) c.old)
        × Within EDGE LAYERS_END w.old w.new }
{
    find_axioms::edges::fill_edges(t, src, w);
    if let Some(x) = find_cycle::cycle_start(w, t.rows) {
        let size = crate::show::show_cycle(t, src, x, w, c);
        return CheckAnswer::Cycle { rows: size as u16 };
    }
    settle(t, src, w)
}

// The verdict on a run of n rows, from nothing.
pub fn judge(t: &Run, src: &[u16], w: &mut [u64], c: &mut [u16]) -> CheckAnswer
    requires { FitRun t.now.bytes t.now.rows × Buffers CYCLE w.old c.old × (t.now.rows ≤ length src.now) }
    ensures { Judges (table_of t.now) (source_in src.now) result
        w.old w.new c.old c.new }
{
    locate(t, w);
    judge_located(t, src, w, c)
}
