// What a fill asks of the engines of a check: one contract, which names neither.
ghost use Rattle.std.specs.Prelude.{◌≤◌, length};
ghost use Rattle.model.specs.Limits.{SOURCES};
ghost use Rattle.run.specs.Layout.{table_of};
ghost use Rattle.sets_of_table.specs.Fit.{FitRun};
ghost use Rattle.find_axioms.specs.Sources.{source_in};
ghost use Rattle.ask_check.specs.Engine.{Buffers};
ghost use Rattle.ask_fill.specs.Parts.{Fills};

use ask_check::engine::{ByFlags, BySets};
use model::FillAnswer;
use run::Run;

pub trait FillEngine {
    // A fill of a run of n rows; the sources in out.
    fn fill(t: &Run, src: &[u16], w: &mut [u64], out: &mut [u16]) -> FillAnswer
        requires { FitRun t.now.bytes t.now.rows × Buffers SOURCES w.old out.old × (t.now.rows ≤ length src.now) }
        ensures { Fills (table_of t.now) (source_in src.now) result
            w.old w.new out.old out.new };
}

impl FillEngine for BySets {
    fn fill(t: &Run, src: &[u16], w: &mut [u64], out: &mut [u16]) -> FillAnswer {
        crate::by_sets::fill(t, src, w, out)
    }
}

impl FillEngine for ByFlags {
    fn fill(t: &Run, src: &[u16], w: &mut [u64], out: &mut [u16]) -> FillAnswer {
        crate::by_flags::fill(t, src, w, out)
    }
}
