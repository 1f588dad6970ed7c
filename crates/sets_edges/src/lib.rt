// The edges between rows by sets of rows, which axiom A asks to have no cycle.
#![tactic(auto)]

ghost use Rattle.std.specs.Prelude.{◌≤◌, ◌<◌, length};
ghost use Rattle.model.specs.Limits.{ROWS, WORK};
ghost use Rattle.model.specs.Edge.{edge};
ghost use Rattle.run.specs.Layout.{table_of};
ghost use Rattle.work_area.specs.Regions.{EDGE, EDGE_END};
ghost use Rattle.find_axioms.specs.Sources.{source_in};
ghost use Rattle.sets_grids.specs.Grid.{MadeGrid};
ghost use Rattle.sets_grids.specs.Location.{ToJudge};
ghost use Rattle.sets_edges.specs.Edges.{Sources, Room, Ordered, Reads};

use run::Run;
use sets_of_rows::kept;

// Edges 1 and 2 of each row: location order at some byte, and scoped modification order.
// Ruled out: one that leaves out the last row.
fn put_orders(n: usize, w: &mut [u64])
    requires { (n ≤ ROWS) × (WORK ≤ length w.old) }
    ensures { Ordered n w.old w.new }
{
    for x in 0..n {
        let to = kept::get(w, sets_grids::SOME, x) | kept::get(w, sets_grids::LATER, x);
        kept::put(w, work_area::EDGE, x, to);
    }
}

// Edges 3 and 4 of the reader y: from its source, and to what follows it; from the initial value, to each writer that shares bytes.
// Ruled out: one that leaves out the edge from its source.
fn put_reads(n: usize, s: &[u64], source: usize, y: usize, w: &mut [u64])
    requires { (y < n) × Room n s.now w.old }
    ensures { Reads n s.now source y w.old w.new }
{
    if source < n {
        let to = kept::get(w, sets_grids::LATER, source).without(y);
        kept::join(w, work_area::EDGE, y, to);
        kept::put_bit(w, work_area::EDGE, source, y);
        return;
    }
    let over = kept::get(w, work_area::OVERLAP, y) & sets_of_table::rows(s, sets_of_table::WRITES);
    kept::join(w, work_area::EDGE, y, over.without(y));
}

// EDGE, with the sources in `src`.
pub fn fill_edges(t: &Run, src: &[u16], s: &[u64], w: &mut [u64])
    requires { Sources (table_of t.now) t.now.rows src.now × ToJudge (table_of t.now) t.now.rows s.now w.old }
    ensures { MadeGrid EDGE EDGE_END EDGE t.now.rows (edge (table_of t.now) (source_in src.now)) w.old w.new }
{
    put_orders(t.rows, w);
    for y in sets_of_table::rows(s, sets_of_table::READS) {
        put_reads(t.rows, s, src[y] as usize, y, w);
    }
}
