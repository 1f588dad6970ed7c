// A fill by the engine of sets of rows.
ghost use Rattle.std.specs.Prelude.{◌≡◌, ◌≤◌, length, Ok};
ghost use Rattle.finite.specs.Logic.{◌and◌};
ghost use Rattle.model.specs.Limits.{SOURCES};
ghost use Rattle.model.specs.Edge.{consistent};
ghost use Rattle.model.specs.Fill.{chosen, sources_fit, none, filled_or, outcome, fill_answer, sources_after};
ghost use Rattle.bits.specs.Within.{Within};
ghost use Rattle.work_area.specs.Regions.{EDGE, LAYERS_END};
ghost use Rattle.run.specs.Layout.{table_of};
ghost use Rattle.sets_of_table.specs.Fit.{FitRun};
ghost use Rattle.sets_grids.specs.Location.{ToJudge};
ghost use Rattle.sets_edges.specs.Edges.{Sources};
ghost use Rattle.find_axioms.specs.Sources.{source_in};
ghost use Rattle.ask_check.specs.Engine.{Buffers};
ghost use Rattle.ask_fill.specs.Parts.{Fills};

use crate::parts;
use model::FillAnswer;
use run::Run;

// Whether the edges have no cycle and no read's source is overwritten.
// Ruled out: one that says yes of a cycle of edges where nothing is overwritten; one that writes over location order.
fn is_consistent(t: &Run, src: &[u16], s: &[u64], w: &mut [u64]) -> bool
    requires { Sources (table_of t.now) t.now.rows src.now × ToJudge (table_of t.now) t.now.rows s.now w.old }
    ensures { (result ≡ consistent (table_of t.now) (source_in src.now))
        × Within EDGE LAYERS_END w.old w.new }
{
    sets_edges::fill_edges(t, src, s, w);
    if find_cycle::cycle_start(w, t.rows).is_some() {
        return false;
    }
    sets_overwritten::first_overwrite(t, src, s, w).is_none()
}

// Whether a check admits the sources, and the table with them is consistent.
fn is_filled(t: &Run, src: &[u16], s: &[u64], w: &mut [u64]) -> bool
    requires { (t.now.rows ≤ length src.now) × ToJudge (table_of t.now) t.now.rows s.now w.old }
    ensures { let table = table_of t.now in
        (result ≡ (sources_fit table (source_in src.now) and consistent table (source_in src.now)))
        × Within EDGE LAYERS_END w.old w.new }
{
    if !find_sources::sources::sources_fit(t, src) {
        return false;
    }
    is_consistent(t, src, s, w)
}

// The answer where there is no race: the chosen sources in out, if they fill the table.
fn choose_sources(t: &Run, src: &[u16], s: &[u64], w: &mut [u64], out: &mut [u16]) -> FillAnswer
    requires { (SOURCES ≤ length out.old) × (t.now.rows ≤ length src.now) × ToJudge (table_of t.now) t.now.rows s.now w.old }
    ensures { let table = table_of t.now in
        (Ok result ≡ fill_answer (filled_or none table (chosen table (source_in src.now))))
        × (out.new ≡ sources_after (filled_or none table (chosen table (source_in src.now))) out.old)
        × Within EDGE LAYERS_END w.old w.new }
{
    let list = sets_choice::choose(t, src, s, w);
    let chosen: &[u16] = &list;
    if !is_filled(t, chosen, s, w) {
        return FillAnswer::None;
    }
    parts::write_sources(chosen, t.rows, out);
    FillAnswer::Filled
}

// The answer, from location order and the sources; those that fill the table in out.
// Ruled out: one that fills a table that has a race; one that writes to out where the answer is no fill.
fn settle(t: &Run, src: &[u16], s: &[u64], w: &mut [u64], out: &mut [u16]) -> FillAnswer
    requires { (SOURCES ≤ length out.old) × (t.now.rows ≤ length src.now) × ToJudge (table_of t.now) t.now.rows s.now w.old }
    ensures { (Ok result ≡ fill_answer (outcome (table_of t.now) (source_in src.now)))
        × (out.new ≡ sources_after (outcome (table_of t.now) (source_in src.now)) out.old)
        × Within EDGE LAYERS_END w.old w.new }
{
    if let Some(race) = sets_races::first_race(t, s, w) {
        return FillAnswer::Race(race);
    }
    choose_sources(t, src, s, w, out)
}

// A fill of a run of n rows, from nothing.
pub fn fill(t: &Run, src: &[u16], w: &mut [u64], out: &mut [u16]) -> FillAnswer
    requires { FitRun t.now.bytes t.now.rows × Buffers SOURCES w.old out.old × (t.now.rows ≤ length src.now) }
    ensures { Fills (table_of t.now) (source_in src.now) result
        w.old w.new out.old out.new }
{
    let mut s = [0u64; sets_of_table::WORDS];
    sets_engine::locate(t, &mut s, w);
    settle(t, src, &s, w, out)
}
