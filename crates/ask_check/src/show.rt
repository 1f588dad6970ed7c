// The cycle that a check shows, in the lent buffer: its rows from place 0, its edge numbers from place CYCLE_EDGES, other places zero.
ghost use Rattle.std.specs.Prelude.{◌≡◌, cond, ◌+◌, ◌≤◌, ◌<◌, length, get_or, ltb};
ghost use Rattle.model.specs.Limits.{CYCLE, CYCLE_EDGES};
ghost use Rattle.run.specs.Layout.{table_of};
ghost use Rattle.model.specs.Edge.{cycle_rows, cycle_edges};
ghost use Rattle.model.specs.Check.{cycle_after, cyclic};
ghost use Rattle.bits.specs.Bit.{zeros};
ghost use Rattle.bits.specs.Within.{Within};
ghost use Rattle.work_area.specs.Regions.{LAYERS, LAYERS_END};
ghost use Rattle.find_race.specs.Bytes.{Ready};
ghost use Rattle.find_axioms.specs.Sources.{source_in};
ghost use Rattle.ask_check.specs.Shown.{Numbered, CycleIn, CycleFrom, step_number};

use run::Run;

// The numbers that a cycle is shown in become 0.
fn clear_numbers(c: &mut [u16])
    requires { CYCLE ≤ length c.old }
    ensures { c.new ≡ zeros c.old 0 CYCLE }
{
    c[..model::CYCLE].fill(0);
}

fn wide(x: u16) -> usize
    ensures { result ≡ x }
{
    x as usize
}

// The row after place i of a cycle of so many rows that starts at x.
fn next_of(c: &[u16], i: usize, size: usize, x: usize) -> usize
    requires { (i < size) × (size ≤ CYCLE_EDGES) × (CYCLE ≤ length c.now) }
    ensures { result ≡ cond (ltb (i + 1) size) (get_or c.now (i + 1) 0) x }
{
    if i + 1 < size { wide(c[i + 1]) } else { x }
}

// The lowest edge number of each step of the cycle that stands in c and starts at x.
fn write_edges(t: &Run, src: &[u16], x: usize, size: usize, w: &[u64], c: &mut [u16])
    requires { CycleIn t.now.rows x size c.old × (t.now.rows ≤ length src.now) × Ready (table_of t.now) t.now.rows w.now }
    ensures { let table = table_of t.now in
        Numbered (step_number table (source_in src.now) x size c.old) size c.old c.new }
{
    for i in 0..size {
        let a = wide(c[i]);
        let b = next_of(c, i, size, x);
        let e = find_axioms::edges::edge_number(t, src, a, b, w);
        c[model::CYCLE_EDGES + i] = e;
    }
}

// Shows the cycle of the edges that starts at its lowest row x, and gives its length.
// Ruled out: one that leaves an old number after the cycle's rows; one that gives the last step the edge to the row after it.
pub fn show_cycle(t: &Run, src: &[u16], x: usize, w: &mut [u64], c: &mut [u16]) -> usize
    requires { (CYCLE ≤ length c.old) × (t.now.rows ≤ length src.now) × CycleFrom (table_of t.now) (source_in src.now) t.now.rows x w.old }
    ensures { let table = table_of t.now in
        (result ≡ length (cycle_rows table (source_in src.now)))
        × (c.new ≡ cycle_after (cyclic (cycle_rows table (source_in src.now)) (cycle_edges table (source_in src.now))) c.old)
        × Within LAYERS LAYERS_END w.old w.new }
{
    let size = work_walks::apart::EDGES.fill_until(w, t.rows, x) + 1;
    clear_numbers(c);
    find_cycle::write_rows(w, t.rows, x, size, c);
    write_edges(t, src, x, size, w, c);
    size
}
