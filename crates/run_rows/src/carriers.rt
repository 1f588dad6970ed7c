// M5: program order to and from a barrier, of the rows that carry a release to an acquire.
ghost use Rattle.std.specs.Prelude.{◌≡◌, ◌<◌};
ghost use Rattle.model.specs.Limits.{ROWS};
ghost use Rattle.run.specs.Layout.{table_of};
ghost use Rattle.model.specs.Synchronizes.{leads, trails};
ghost use Rattle.run_rows.specs.Forms.{lead_rows, trail_rows};

use model::Row;
use run::Run;

// M5: whether row x, which is q, is program-ordered after the barrier a, which is r, its class in a's semantics.
fn is_leading(a: usize, x: usize, r: Row, q: Row) -> bool
    ensures { result ≡ lead_rows a x r q }
{
    (a < x) & (r.agent == q.agent) & door_rows::kinds::class_in(q, r.classes)
}

// M5: whether row x of a table is program-ordered after its barrier a, its class in a's semantics.
pub fn leads_at(t: &Run, a: usize, x: usize) -> bool
    requires { (a < ROWS) × (x < ROWS) }
    ensures { result ≡ leads (table_of t.now) a x }
{
    let r = t.row(a as u16);
    let q = t.row(x as u16);
    is_leading(a, x, r, q)
}

// M5: whether row y, which is q, is program-ordered before the barrier b, which is r, its class in b's semantics.
fn is_trailing(b: usize, y: usize, r: Row, q: Row) -> bool
    ensures { result ≡ trail_rows b y r q }
{
    (y < b) & (q.agent == r.agent) & door_rows::kinds::class_in(q, r.classes)
}

// M5: whether row y of a table is program-ordered before its barrier b, its class in b's semantics.
pub fn trails_at(t: &Run, b: usize, y: usize) -> bool
    requires { (b < ROWS) × (y < ROWS) }
    ensures { result ≡ trails (table_of t.now) b y }
{
    let r = t.row(b as u16);
    let q = t.row(y as u16);
    is_trailing(b, y, r, q)
}
