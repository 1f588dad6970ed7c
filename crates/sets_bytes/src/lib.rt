// Bytes of a row as bits from its start, at most 16, and the bits of pairs in location order.
#![tactic(auto)]

ghost use Rattle.std.specs.Prelude.{◌≡◌, ◌^◌, ◌≤◌, ◌<◌, length};
ghost use Rattle.model.specs.Limits.{ROWS, WORK, LONGEST};
ghost use Rattle.run.specs.Layout.{table_of};
ghost use Rattle.sets_of_table.specs.Fit.{Fit};
ghost use Rattle.finite.specs.Several.{TwoOf};
ghost use Rattle.sets_bytes.specs.Masks.{Mask, shared_bit, moved_bit, Adds};

use run::Run;
use sets_of_table::fields;

const MASKS: u64 = 65536;

// The bytes of x that y has too.
pub fn shared(t: &Run, x: usize, y: usize) -> u64
    requires { (x < t.now.rows) × (y < t.now.rows) × Fit (table_of t.now) }
    ensures { Mask (shared_bit (table_of t.now) x y) result }
{
    let start = fields::start(t, x);
    let end = fields::end(t, x);
    let a = fields::start(t, y);
    let b = fields::end(t, y);
    let low = start.max(a);
    let high = end.min(b);
    if high <= low {
        return 0;
    }
    (1u64 << (high - start)) - (1u64 << (low - start))
}

// The mask m of bytes of x as bits from z's start.
pub fn moved(t: &Run, m: u64, x: usize, z: usize) -> u64
    requires { TwoOf t.now.rows x z × (m < 2 ^ LONGEST) × Fit (table_of t.now) }
    ensures { Mask (moved_bit (table_of t.now) m x z) result }
{
    let a = fields::start(t, x);
    let b = fields::start(t, z);
    if a + 16 <= b {
        return 0;
    }
    if b + 16 <= a {
        return 0;
    }
    if a < b {
        return m / (1u64 << (b - a));
    }
    (m * (1u64 << (a - b))) % MASKS
}

// Adds the bytes m to those at which x is location-ordered before y.
pub fn add(w: &mut [u64], x: usize, y: usize, m: u64)
    requires { TwoOf ROWS x y × (m < 2 ^ LONGEST) × (WORK ≤ length w.old) }
    ensures { Adds x y m w.old w.new }
{
    let at = work_area::LOCATION + x * 32 + y / 4;
    w[at] |= m * (1u64 << (16 * (y % 4)));
}
