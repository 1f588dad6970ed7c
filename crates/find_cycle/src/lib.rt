// The canonical cycle of the edges that stand as bits in a lent work area: where it begins, and its rows, by the layers of walks back
// to the first. Nothing but the layers' region of the area changes.
#![tactic(auto)]

ghost use Rattle.std.specs.Prelude.{◌≡◌, ◌≤◌, length};
ghost use Rattle.finite.specs.Below.{Finds};
ghost use Rattle.finite.specs.Lists.{Written};
ghost use Rattle.finite.specs.Walk.{on_cycle, cycle_start, trail};
ghost use Rattle.bits.specs.Matrix.{rel};
ghost use Rattle.bits.specs.Within.{Within};
ghost use Rattle.model.specs.Limits.{ROWS, WORK, CYCLE};
ghost use Rattle.work_area.specs.Regions.{EDGE, LAYERS, LAYERS_END, GRID};
ghost use Rattle.find_cycle.specs.Shown.{Closes};
ghost use Rattle.find_cycle.specs.Marks.{Among, Looping};

use sets_of_rows::{Set, kept};

mod marks; // the rows that may lie on a cycle

// Whether edges lead from row x back to it. Each row on a cycle with x is in `among`, so the way goes by these alone: `ahead` has those
// that it hasn't gone on from, `left` those of them that it has reached.
fn leads_back(w: &[u64], n: usize, x: usize, among: Set) -> bool
    requires { (n ≤ ROWS) × (WORK ≤ length w.now) × Among n (rel w.now EDGE GRID) x among }
    ensures { result ≡ on_cycle n (rel w.now EDGE GRID) x }
{
    let mut ahead = among;
    let mut left = ahead & kept::get(w, work_area::EDGE, x);
    while let Some(i) = left.first() {
        if left.has(x) {
            return true;
        }
        ahead = ahead.without(i);
        left = ahead & (left | kept::get(w, work_area::EDGE, i));
    }
    false
}

// The lowest row on a cycle, which is marked. No cycle goes by a row that was tried before.
fn first_looping(w: &[u64], n: usize) -> Option<usize>
    requires { (n ≤ ROWS) × (WORK ≤ length w.now) × Looping n w.now }
    ensures { Finds n (cycle_start n (rel w.now EDGE GRID)) result }
{
    let mut left = Set::below(n) & kept::get(w, marks::MARKS, 0);
    while let Some(x) = left.first() {
        if leads_back(w, n, x, left) {
            return Some(x);
        }
        left = left.but_first();
    }
    None
}

// The lowest row on a cycle.
// Ruled out: one that finds cycles of one edge alone; one that marks rows in the edges' region.
pub fn cycle_start(w: &mut [u64], n: usize) -> Option<usize>
    requires { (n ≤ ROWS) × (WORK ≤ length w.old) }
    ensures { Finds n (cycle_start n (rel w.old EDGE GRID)) result × Within LAYERS LAYERS_END w.old w.new }
{
    bits::clear(w, work_area::LAYERS, work_area::LAYERS_END);
    marks::mark_rows(w, n);
    first_looping(w, n)
}

// The rows of the cycle of `size` edges through row x become the first numbers of c: each time the least next row.
// Ruled out: one that begins at the row after x; one that writes x once more after the last row.
pub fn write_rows(w: &[u64], n: usize, x: usize, size: usize, c: &mut [u16])
    requires { (CYCLE ≤ length c.old) × Closes n x size w.now }
    ensures { Written (trail n (rel w.now EDGE GRID) x size x) size c.old c.new }
{
    let mut z = x;
    for i in 0..size {
        c[i] = z as u16;
        z = work_walks::apart::EDGES.next(w, n, size - i - 1, z);
    }
}
