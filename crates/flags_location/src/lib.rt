// Location order at each byte of each pair of rows, as bits in a lent work area.
#![tactic(auto)]

ghost use Rattle.std.specs.Prelude.{◌≡◌, ◌+◌, ◌*◌};
ghost use Rattle.bits.specs.Fill.{row_fill, grid_fill};
ghost use Rattle.run.specs.Layout.{table_of};
ghost use Rattle.model.specs.Location.{before};
ghost use Rattle.model.specs.Edge.{before_nth};
ghost use Rattle.work_area.specs.Regions.{LOCATION, PAIR, PAIRS};
ghost use Rattle.work_area.specs.State.{Ordered, MadePlaced};
ghost use Rattle.flags_location.specs.Order.{Prepared};
ghost use Rattle.flags_location.specs.Given.{Given, GivenRow, GivenRows};

use crate::chains::Asked;
use run::Run;
use run_rows::pairs;

pub mod happens; // happens-before, from the bits
pub mod chains; // L3's chains
pub mod reach; // the reach of chains
pub mod domains; // L5's operations
pub mod hosted; // L4 and L5

// Whether x is location-ordered before y at the byte: L1 to L5.
fn before_at(t: &Run, p: Asked, w: &[u64]) -> bool
    requires { GivenRows Prepared t.now.bytes t.now.rows p.x p.y w.now }
    ensures { result ≡ before (table_of t.now) p.x p.y p.b }
{
    let r = t.row(p.x as u16);
    let q = t.row(p.y as u16);
    if !pairs::common_of(p.x, p.y, r, q, p.b) {
        return false;
    }
    let h = happens::happens_bit(w, 3 * p.x + 1, 3 * p.y + 1);
    let g = domains::grid_bit(w, work_area::grid::HOSTED, p.x, p.y);
    if pairs::l1(r, q, h) | pairs::l2(r, q, h) | g {
        return true;
    }
    chains::l3(t, p, w)
}

// The bits of a pair. Rows that share no byte cost one test, and no bit is set.
fn fill_pair(t: &Run, x: usize, y: usize, w: &mut [u64])
    requires { GivenRows Prepared t.now.bytes t.now.rows x y w.old }
    ensures { let table = table_of t.now in
        w.new ≡ row_fill (before_nth table x y) w.old (LOCATION * 64 + x * PAIRS + y * PAIR) PAIR }
{
    let r = t.row(x as u16);
    let q = t.row(y as u16);
    if !pairs::may_share(x, y, r, q) {
        return;
    }
    let start = r.start as u32;
    for k in 0..work_area::PAIR {
        let p = Asked {
            x: x,
            y: y,
            b: start + (k as u32),
        };
        let b = before_at(t, p, w);
        work_area::pairs::put_if(w, x, y, k, b);
    }
}

// The bits of row x's pairs.
fn fill_row(t: &Run, x: usize, w: &mut [u64])
    requires { GivenRow Prepared t.now.bytes t.now.rows x w.old }
    ensures { w.new ≡ grid_fill (before_nth (table_of t.now) x) w.old (LOCATION * 64 + x * PAIRS) PAIR PAIR t.now.rows }
{
    for y in 0..t.rows {
        fill_pair(t, x, y, w);
    }
}

// Location order of all pairs of n rows: bit k of a pair tells of the first row's k-th byte.
// Ruled out: one that counts a pair's bytes from the second row's start; one that leaves a bit of an earlier stage set.
pub fn fill_location(t: &Run, w: &mut [u64])
    requires { Given Ordered t.now.bytes t.now.rows w.old }
    ensures { MadePlaced (table_of t.now) t.now.rows w.old w.new }
{
    hosted::make_hosted(t, w);
    reach::make_reach(t, w);
    bits::clear(w, work_area::LOCATION, work_area::LOCATION_END);
    for x in 0..t.rows {
        fill_row(t, x, w);
    }
}
