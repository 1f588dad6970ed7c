// Happens-before, as the work area's bits say.
ghost use Rattle.std.specs.Prelude.{◌≡◌, ◌*◌, ◌≤◌, ◌<◌, length};
ghost use Rattle.bits.specs.Matrix.{rel};
ghost use Rattle.model.specs.Limits.{ROWS, WORK};
ghost use Rattle.work_area.specs.Regions.{HAPPENS, MOMENTS};

// Whether moment m happens before moment k, as the work area's bits say.
pub fn happens_bit(w: &[u64], m: usize, k: usize) -> bool
    requires { (m < 3 * ROWS) × (k < 3 * ROWS) × (WORK ≤ length w.now) }
    ensures { result ≡ rel w.now HAPPENS MOMENTS m k }
{
    work_area::grid::HAPPENS.get(w, m, k)
}
