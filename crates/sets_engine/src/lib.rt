// The engine by sets of rows: what a table's rows are, stage after stage up to location order.
#![tactic(auto)]

ghost use Rattle.std.specs.Prelude.{◌≤◌, length};
ghost use Rattle.model.specs.Limits.{WORK};
ghost use Rattle.run.specs.Layout.{table_of};
ghost use Rattle.sets_of_table.specs.Fit.{FitRun};
ghost use Rattle.sets_of_table.specs.Known.{WORDS};
ghost use Rattle.sets_grids.specs.Given.{Given};
ghost use Rattle.sets_engine.specs.Engine.{Ordered, MadeOrdered, MadePlacing, MadeJudging};

use run::Run;

// Synchronizes-with, and happens-before.
fn order(t: &Run, s: &[u64], w: &mut [u64])
    requires { FitRun t.now.bytes t.now.rows × Given (table_of t.now) t.now.rows s.now w.old }
    ensures { MadeOrdered (table_of t.now) t.now.rows w.old w.new }
{
    sets_sync::all::synchronize(t, s, w);
    sets_order::order(t, s, w);
}

// What location order is made from.
fn prepare(t: &Run, s: &[u64], w: &mut [u64])
    requires { Given (table_of t.now) t.now.rows s.now w.old × Ordered (table_of t.now) t.now.rows w.old }
    ensures { MadePlacing (table_of t.now) t.now.rows w.old w.new }
{
    sets_chains::fill_availability(t, s, w);
    sets_hosts::fill_hosted(t, s, w);
    sets_overlap::fill_overlaps(t, s, w);
}

// Location order of n rows, with all that edges, axiom B and races are asked of; `s` gets the sets of rows.
pub fn locate(t: &Run, s: &mut [u64], w: &mut [u64])
    requires { FitRun t.now.bytes t.now.rows × (WORDS ≤ length s.old) × (WORK ≤ length w.old) }
    ensures { MadeJudging (table_of t.now) t.now.rows s.new w.old w.new }
{
    sets_of_table::prepare(t, s);
    order(t, s, w);
    prepare(t, s, w);
    sets_location::fill_location(t, s, w);
}
