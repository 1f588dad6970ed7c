// The writers that come before a row, and those that come between a source and its reader.
ghost use Rattle.std.specs.Prelude.{◌≡◌, ◌<◌};
ghost use Rattle.finite.specs.Below.{any_below};
ghost use Rattle.model.specs.Limits.{LONGEST};
ghost use Rattle.run.specs.Layout.{table_of};
ghost use Rattle.model.specs.Fill.{written_by, written, overwrites_between, between};
ghost use Rattle.finite.specs.Several.{ThreeOf};
ghost use Rattle.find_race.specs.Bytes.{Ready};

use run::Run;

// ---- before a row

// Whether z is a writer that is ordered before y.
fn written_by(t: &Run, y: usize, z: usize, w: &[u64]) -> bool
    requires { (y < t.now.rows) × (z < t.now.rows) × Ready (table_of t.now) t.now.rows w.now }
    ensures { result ≡ written_by (table_of t.now) y z }
{
    let r = t.row(z as u16);
    if !door_rows::kinds::writes(r) {
        return false;
    }
    find_race::pair::before_some(t, z, y, w)
}

// Whether some writer is ordered before y.
pub fn is_written(t: &Run, y: usize, w: &[u64]) -> bool
    requires { (y < t.now.rows) × Ready (table_of t.now) t.now.rows w.now }
    ensures { result ≡ written (table_of t.now) y }
{
    for z in 0..t.rows {
        if written_by(t, y, z, w) {
            return true;
        }
    }
    false
}

// ---- between a source and its reader

// Whether z overwrites s before y at y's k-th byte.
fn hides_at(t: &Run, y: usize, s: usize, z: usize, k: usize, w: &[u64]) -> bool
    requires { ThreeOf t.now.rows y s z × (k < LONGEST) × Ready (table_of t.now) t.now.rows w.now }
    ensures { result ≡ overwrites_between (table_of t.now) y s z k }
{
    let b = (t.start(y as u16) as u32) + (k as u32);
    find_race::before_byte(t, s, z, b, w) & find_race::before_byte(t, z, y, b, w)
}

// Whether z overwrites s before y at some byte of y.
pub fn some_hidden(t: &Run, y: usize, s: usize, z: usize, w: &[u64]) -> bool
    requires { ThreeOf t.now.rows y s z × Ready (table_of t.now) t.now.rows w.now }
    ensures { result ≡ any_below LONGEST (overwrites_between (table_of t.now) y s z) }
{
    for k in 0..work_area::PAIR {
        if hides_at(t, y, s, z, k, w) {
            return true;
        }
    }
    false
}

// Whether the writer z comes between s and y: in scoped order, or at a byte.
pub fn between_at(t: &Run, y: usize, s: usize, z: usize, w: &[u64]) -> bool
    requires { ThreeOf t.now.rows y s z × Ready (table_of t.now) t.now.rows w.now }
    ensures { result ≡ between (table_of t.now) y s z }
{
    let v = t.row(z as u16);
    if !door_rows::kinds::writes(v) {
        return false;
    }
    (find_axioms::edges::follows_at(t, s, z, w) & find_race::pair::before_some(t, z, y, w))
        | some_hidden(t, y, s, z, w)
}

// Whether some writer comes between s and y.
pub fn some_between(t: &Run, y: usize, s: usize, w: &[u64]) -> bool
    requires { (y < t.now.rows) × (s < t.now.rows) × Ready (table_of t.now) t.now.rows w.now }
    ensures { result ≡ any_below t.now.rows (between (table_of t.now) y s) }
{
    for z in 0..t.rows {
        if between_at(t, y, s, z, w) {
            return true;
        }
    }
    false
}
