// The engines that a check can ask: a type for each, and one contract, which names neither.
ghost use Rattle.std.specs.Prelude.{◌≡◌, Ok};
ghost use Rattle.model.specs.Limits.{CYCLE};
ghost use Rattle.run.specs.Layout.{table_of};
ghost use Rattle.sets_of_table.specs.Fit.{FitRun};
ghost use Rattle.sets_edges.specs.Edges.{Sources};
ghost use Rattle.find_axioms.specs.Sources.{source_in};
ghost use Rattle.ask_check.specs.Engine.{Judges, Buffers};

use model::CheckAnswer;
use run::Run;

pub trait Engine {
    // The verdict on a run of n rows; a cycle's numbers in c.
    fn judge(t: &Run, src: &[u16], w: &mut [u64], c: &mut [u16]) -> CheckAnswer
        requires { FitRun t.now.bytes t.now.rows × Buffers CYCLE w.old c.old × Sources (table_of t.now) t.now.rows src.now }
        ensures { Judges (table_of t.now) (source_in src.now) result
            w.old w.new c.old c.new };
}

// The engine by sets of rows.
pub struct BySets;

// The flags engine: one flag for each two moments.
pub struct ByFlags;

impl Engine for BySets {
    fn judge(t: &Run, src: &[u16], w: &mut [u64], c: &mut [u16]) -> CheckAnswer {
        crate::by_sets::judge(t, src, w, c)
    }
}

impl Engine for ByFlags {
    fn judge(t: &Run, src: &[u16], w: &mut [u64], c: &mut [u16]) -> CheckAnswer {
        crate::by_flags::judge(t, src, w, c)
    }
}
