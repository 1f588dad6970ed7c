// Dependencies by sets of rows: which rows system-synchronize with which.
ghost use Rattle.std.specs.Prelude.{◌≤◌, length};
ghost use Rattle.model.specs.Limits.{WORK};
ghost use Rattle.run.specs.Layout.{table_of};
ghost use Rattle.sets_of_table.specs.Fit.{FitRun};
ghost use Rattle.sets_grids.specs.Happens.{Leading};
ghost use Rattle.sets_order.specs.System.{MadeDepends, MadeSystem};

use run::Run;
use sets_of_rows::{Set, kept};

// DEPENDS. Gives the rows that are an end of a dependency.
pub fn fill_depends(t: &Run, w: &mut [u64]) -> Set
    requires { FitRun t.now.bytes t.now.rows × (WORK ≤ length w.old) }
    ensures { MadeDepends (table_of t.now) t.now.rows result w.old w.new }
{
    bits::clear(w, sets_grids::DEPENDS, sets_grids::DEPENDS_END);
    let mut ends = Set::none();
    for k in 0..t.dependencies() {
        let x = t.first_of(k) as usize;
        let y = t.second_of(k) as usize;
        kept::put_bit(w, sets_grids::DEPENDS, x, y);
        ends |= Set::bit(x) | Set::bit(y);
    }
    ends
}

// SYSTEM: the closure of the dependencies, as inter-thread order of a class set that concerns no row.
pub fn fill_system(t: &Run, s: &[u64], ends: Set, down: bool, w: &mut [u64])
    requires { Leading (table_of t.now) t.now.rows ends s.now w.old }
    ensures { MadeSystem (table_of t.now) t.now.rows w.old w.new }
{
    bits::clear(w, sets_grids::SYSTEM, sets_grids::SYSTEM_END);
    let k = sets_closure::of_none(t, s, ends);
    sets_closure::reach::fill_reach(t, s, 16, ends, k, down, w);
    for i in ends {
        let to = kept::get(w, sets_grids::REACH_AT, i);
        kept::put(w, sets_grids::SYSTEM, i, to);
    }
}
