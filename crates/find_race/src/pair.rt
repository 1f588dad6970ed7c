// Edge 1: what the bits of a pair of rows say.
ghost use Rattle.std.specs.Prelude.{◌≡◌, ◌<◌};
ghost use Rattle.run.specs.Layout.{table_of};
ghost use Rattle.model.specs.Edge.{before_some};
ghost use Rattle.find_race.specs.Bytes.{Ready};

use run::Run;

// Edge 1: whether x is location-ordered before y at some byte.
// Ruled out: one that asks for each byte; one that leaves out x's last byte.
pub fn before_some(t: &Run, x: usize, y: usize, w: &[u64]) -> bool
    requires { (x < t.now.rows) × (y < t.now.rows) × Ready (table_of t.now) t.now.rows w.now }
    ensures { result ≡ before_some (table_of t.now) x y }
{
    for k in 0..work_area::PAIR {
        if work_area::pairs::get(w, x, y, k) {
            return true;
        }
    }
    false
}
