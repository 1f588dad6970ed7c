// The verdict by the engine of sets of rows.
ghost use Rattle.std.specs.Prelude.{◌≡◌, ◌≤◌, length, Ok};
ghost use Rattle.model.specs.Limits.{CYCLE};
ghost use Rattle.model.specs.Check.{verdict, race, race_free, race_or, overwritten_or, check_answer, cycle_after};
ghost use Rattle.bits.specs.Within.{Within};
ghost use Rattle.work_area.specs.Regions.{EDGE, LAYERS_END};
ghost use Rattle.run.specs.Layout.{table_of};
ghost use Rattle.sets_of_table.specs.Fit.{FitRun};
ghost use Rattle.sets_grids.specs.Location.{ToJudge};
ghost use Rattle.sets_edges.specs.Edges.{Sources};
ghost use Rattle.find_axioms.specs.Sources.{source_in};
ghost use Rattle.ask_check.specs.Engine.{Judges, Buffers};

use model::CheckAnswer;
use run::Run;

// The verdict where no edges make a cycle: overwritten, else a race, else race-free.
fn settle(t: &Run, src: &[u16], s: &[u64], w: &[u64]) -> CheckAnswer
    requires { (t.now.rows ≤ length src.now) × ToJudge (table_of t.now) t.now.rows s.now w.now }
    ensures { let table = table_of t.now in
        Ok result ≡ check_answer (overwritten_or (race_or race race_free table) table (source_in src.now)) }
{
    if let Some(found) = sets_overwritten::first_overwrite(t, src, s, w) {
        return CheckAnswer::Overwritten(found);
    }
    sets_races::first_race(t, s, w).map_or(CheckAnswer::RaceFree, CheckAnswer::Race)
}

// The verdict, from location order and the sources; a cycle's numbers in c.
// Ruled out: one that looks for a race before a cycle; one that writes to c where the answer is no cycle.
pub fn judge_located(t: &Run, src: &[u16], s: &[u64], w: &mut [u64], c: &mut [u16]) -> CheckAnswer
    requires { (CYCLE ≤ length c.old) × Sources (table_of t.now) t.now.rows src.now × ToJudge (table_of t.now) t.now.rows s.now w.old }
    ensures { (Ok result ≡ check_answer (verdict (table_of t.now) (source_in src.now)))
        × (c.new ≡ cycle_after (verdict (table_of t.now) (source_in src.now)) c.old)
        × Within EDGE LAYERS_END w.old w.new }
{
    sets_edges::fill_edges(t, src, s, w);
    if let Some(x) = find_cycle::cycle_start(w, t.rows) {
        let size = crate::show::show_cycle(t, src, x, w, c);
        return CheckAnswer::Cycle { rows: size as u16 };
    }
    settle(t, src, s, w)
}

// The verdict on a run of n rows, from nothing.
pub fn judge(t: &Run, src: &[u16], w: &mut [u64], c: &mut [u16]) -> CheckAnswer
    requires { FitRun t.now.bytes t.now.rows × Buffers CYCLE w.old c.old × Sources (table_of t.now) t.now.rows src.now }
    ensures { Judges (table_of t.now) (source_in src.now) result
        w.old w.new c.old c.new }
{
    let mut s = [0u64; sets_of_table::WORDS];
    sets_engine::locate(t, &mut s, w);
    judge_located(t, src, &s, w, c)
}
