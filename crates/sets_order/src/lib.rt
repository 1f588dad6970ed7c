// M6 and M7 by sets of rows: the closure of the dependencies, and happens-before.
#![tactic(auto)]

ghost use Rattle.std.specs.Prelude.{◌≡◌, ◌+◌, ◌*◌, ◌≤◌, length};
ghost use Rattle.model.specs.Limits.{ROWS};
ghost use Rattle.model.specs.Synchronizes.{synchronizes};
ghost use Rattle.run.specs.Layout.{table_of};
ghost use Rattle.work_area.specs.Regions.{SYNC};
ghost use Rattle.sets_of_table.specs.Fit.{FitRun};
ghost use Rattle.sets_grids.specs.Grid.{Grid};
ghost use Rattle.sets_grids.specs.Given.{Given};
ghost use Rattle.sets_grids.specs.Happens.{Leading};
ghost use Rattle.sets_closure.specs.Classes.{ClassSet};
ghost use Rattle.sets_order.specs.Down.{down_from};
ghost use Rattle.sets_order.specs.Inter.{AddsInter, AddsWidest};
ghost use Rattle.sets_order.specs.Order.{MadeHappens, MadeOrder};

pub mod system; // dependencies, and their closure

use run::Run;
use sets_of_rows::{Set, kept};

// Whether each member of x leads, in the grid at word `base`, to later rows alone.
pub fn leads_down(w: &[u64], base: usize, x: Set) -> bool
    requires { base + 2 * ROWS ≤ length w.now }
    ensures { result ≡ down_from w.now base x }
{
    for a in x {
        if (kept::get(w, base, a) - Set::above(a)).has_any() {
            return false;
        }
    }
    true
}

// All of it for the class set c, if there is any beside program order.
fn add_inter_thread(t: &Run, s: &[u64], c: usize, ends: Set, down: bool, w: &mut [u64])
    requires { ClassSet c × Leading (table_of t.now) t.now.rows ends s.now w.old }
    ensures { AddsInter (table_of t.now) t.now.rows c w.old w.new }
{
    let k = sets_closure::of_classes(t, s, ends, c);
    if !(ends.has_any() | sets_closure::is_synced(t, s, k, w)) {
        return;
    }
    sets_closure::reach::fill_reach(t, s, c, ends, k, down, w);
    sets_happens::add_at(t, s, c, ends, k, w);
    sets_happens::add_available(t, s, c, ends, k, w);
    sets_happens::add_visible(t, s, c, ends, k, w);
}

// The same, unless another class set stands for c.
fn add_widest(t: &Run, s: &[u64], c: usize, ends: Set, down: bool, w: &mut [u64])
    requires { ClassSet c × Leading (table_of t.now) t.now.rows ends s.now w.old }
    ensures { AddsWidest (table_of t.now) t.now.rows c w.old w.new }
{
    if !sets_closure::is_widest(t, s, c) {
        return;
    }
    add_inter_thread(t, s, c, ends, down, w);
}

// ---- all of it

// The five grids of happens-before: program order, and inter-thread order for the class sets that no other stands for; the last one, of all
// classes, has the dependencies at least.
pub fn fill_happens(t: &Run, s: &[u64], ends: Set, down: bool, w: &mut [u64])
    requires { Leading (table_of t.now) t.now.rows ends s.now w.old }
    ensures { MadeHappens (table_of t.now) t.now.rows w.old w.new }
{
    sets_happens::put_program_order(t, s, w);
    for c in 1..16 {
        add_widest(t, s, c, ends, down, w);
    }
}

// The closure of the dependencies, M6 and M7. Which way synchronizes-with and dependencies lead on the page says in
// which order the nodes are searched from, and nothing else.
pub fn order(t: &Run, s: &[u64], w: &mut [u64])
    requires { FitRun t.now.bytes t.now.rows × Given (table_of t.now) t.now.rows s.now w.old × Grid SYNC t.now.rows (synchronizes (table_of t.now)) w.old }
    ensures { MadeOrder (table_of t.now) t.now.rows w.old w.new }
{
    let ends = system::fill_depends(t, w);
    let depends_down = leads_down(w, sets_grids::DEPENDS, ends);
    let sync_down = leads_down(
        w,
        work_area::SYNC,
        sets_of_table::rows(s, sets_of_table::RELEASES),
    );
    system::fill_system(t, s, ends, depends_down, w);
    fill_happens(t, s, ends, sync_down & depends_down, w);
}
