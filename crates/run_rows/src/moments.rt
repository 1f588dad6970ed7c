// M1: the moments of a row, and program order between moments. Moment 3 × row + 0, 1 or 2 is the one before, at or after the row.
ghost use Rattle.std.specs.Prelude.{◌≡◌, ◌*◌, ◌/◌, ◌%◌, ◌<◌};
ghost use Rattle.model.specs.Limits.{ROWS};
ghost use Rattle.run.specs.Layout.{table_of};
ghost use Rattle.model.specs.Moment.{availability_of, visibility_of, moment_of, moment_in, classes_of, program_ordered, program_order};

use door_rows::pick;
use model::Row;
use run::Run;

pub const BEFORE: u8 = 0;

pub const AT: u8 = 1;

pub const AFTER: u8 = 2;

// Two moments of a table, of which the first is to come before the second.
#[derive(Clone, Copy)]
pub struct Ends {
    pub first: u16,
    pub second: u16,
}

// Whether moment k of r is an availability moment.
pub fn availability_of(r: Row, k: u8) -> bool
    ensures { result ≡ availability_of r k }
{
    let at = pick::either(door_rows::kinds::is_plain(r), AFTER, BEFORE);
    door_rows::kinds::makes_available(r) & !(r.scope == door_rows::scopes::INVOCATION) & (k == at)
}

// Whether moment k of r is a visibility moment.
pub fn visibility_of(r: Row, k: u8) -> bool
    ensures { result ≡ visibility_of r k }
{
    let at = pick::either(door_rows::kinds::is_plain(r), BEFORE, AFTER);
    door_rows::kinds::makes_visible(r) & !(r.scope == door_rows::scopes::INVOCATION) & (k == at)
}

// Whether r has a moment k.
pub fn moment_of(r: Row, k: u8) -> bool
    ensures { result ≡ moment_of r k }
{
    (k == AT) | availability_of(r, k) | visibility_of(r, k)
}

// The classes of r's availability and visibility moments.
pub fn classes_of(r: Row) -> u8
    ensures { result ≡ classes_of r }
{
    pick::either(
        door_rows::kinds::is_plain(r),
        door_rows::kinds::single(r.class),
        r.classes,
    )
}

// Whether m is a moment of its row r, in a table of n rows.
pub fn moment_in(n: usize, r: Row, m: usize) -> bool
    ensures { result ≡ moment_in n r m }
{
    (m / 3 < n) & moment_of(r, (m % 3) as u8)
}

// Program order of the moments m of r and k of q.
pub fn is_ordered(n: usize, m: usize, k: usize, r: Row, q: Row) -> bool
    ensures { result ≡ program_ordered n m k r q }
{
    (m < k) & (r.agent == q.agent) & moment_in(n, r, m) & moment_in(n, q, k)
}

// Program order of two moments of a table. Most pairs are told apart by their numbers or agents, and no whole row is read.
pub fn ordered_at(t: &Run, m: usize, k: usize) -> bool
    requires { (m < 3 * ROWS) × (k < 3 * ROWS) }
    ensures { result ≡ program_order (table_of t.now) m k }
{
    if k <= m {
        return false;
    }
    let a = t.agent((m / 3) as u16);
    let b = t.agent((k / 3) as u16);
    if !(a == b) {
        return false;
    }
    let r = t.row((m / 3) as u16);
    let q = t.row((k / 3) as u16);
    is_ordered(t.rows, m, k, r, q)
}
