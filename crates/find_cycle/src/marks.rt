// The rows that may lie on a cycle, marked in the layers' last row, which no row of the table has. The others lead on to later rows
// with no mark alone, so that no way leads back to them. Few rows are left, if any.
ghost use Rattle.std.specs.Prelude.{◌≤◌, ◌<◌, length};
ghost use Rattle.model.specs.Limits.{ROWS, WORK};
ghost use Rattle.find_cycle.specs.Marks.{Asked, Marked};

use work_sets::grid;

// The word where the marks stand.
pub const MARKS: usize = work_area::LAYERS + work_area::ROWS_GRID;

// Whether an edge leads from row x back, or to itself, or to a marked row.
fn may_loop(w: &[u64], x: usize) -> bool
    requires { (x < ROWS) × (WORK ≤ length w.now) }
    ensures { Asked w.now x result }
{
    let at = work_area::grid::EDGE.at(x);
    if grid::first_both(w, at, at) <= x {
        return true;
    }
    grid::first_both(w, at, MARKS) < grid::END
}

// Marks each row that lies on a cycle, and few others: from the last row down, so that those that follow a row are marked before it.
// Ruled out: one that goes up from the first row; one that marks a row only for an edge back.
pub fn mark_rows(w: &mut [u64], n: usize)
    requires { (n ≤ ROWS) × (WORK ≤ length w.old) }
    ensures { Marked n w.old w.new }
{
    for x in (0..n).rev() {
        let b = may_loop(w, x);
        bits::put_if(w, MARKS * 64 + x, b);
    }
}
