// The direct cases of M6 for a class set, and the layers of chains of them to one moment: layer k is the moments from which k steps
// lead there. Bits of a lent work area.
ghost use Rattle.std.specs.Prelude.{◌*◌, ◌≤◌, ◌<◌, length};
ghost use Rattle.model.specs.Limits.{WORK};
ghost use Rattle.run.specs.Layout.{table_of};
ghost use Rattle.work_area.specs.Synced.{Synced};
ghost use Rattle.ask_derive.specs.Layers.{MadeLayered};

use run::Run;

// M6: the direct cases for the class set s, and the layers of chains of them to moment x.
// Ruled out: one that makes the layers from the steps of another class set; one that follows chains that lead from x.
pub fn make_layers(t: &Run, s: u8, x: usize, w: &mut [u64])
    requires { (x < 3 * t.now.rows) × (WORK ≤ length w.old) × Synced (table_of t.now) t.now.rows w.old }
    ensures { MadeLayered (table_of t.now) t.now.rows s x w.old w.new }
{
    flags_order::steps::fill_step(t, s, w);
    work_walks::apart::STEPS.fill_layers(w, 3 * t.rows, x);
}
