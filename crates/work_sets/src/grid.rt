// Rows of a grid over rows, each by the word where it begins: what two of them share.
ghost use Rattle.std.specs.Prelude.{◌+◌, ◌*◌, ◌≤◌, length};
ghost use Rattle.finite.specs.Below.{Least};
ghost use Rattle.work_area.specs.Regions.{GRID};
ghost use Rattle.work_sets.specs.Meet.{both};

// No row's number: where the bits of such a row end.
pub const END: usize = 64 * work_area::GRID;

// The lowest row that a and b share; END where they share none.
// Ruled out: one that looks at the first word alone; one that says 0 where they share none.
pub fn first_both(w: &[u64], a: usize, b: usize) -> usize
    requires { (a + GRID ≤ length w.now) × (b + GRID ≤ length w.now) }
    ensures { Least (64 * GRID) (both w.now a b) result }
{
    crate::first_both(w, a, b, work_area::GRID)
}
