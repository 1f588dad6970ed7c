// L5: what operations of queue agents make available to the memory domains of the host and of the device, carry from the one to
// the other, and make visible; as bits. Each arrow is happens-before between rows.
ghost use Rattle.std.specs.Prelude.{◌≡◌, ◌+◌, ◌*◌, ◌≤◌, ◌<◌, length};
ghost use Rattle.finite.specs.Logic.{◌and◌};
ghost use Rattle.finite.specs.Below.{any_below};
ghost use Rattle.bits.specs.Matrix.{rel};
ghost use Rattle.bits.specs.Stage.{Made};
ghost use Rattle.model.specs.Limits.{ROWS, WORK};
ghost use Rattle.model.specs.Row.{writes};
ghost use Rattle.model.specs.Table.{row_of};
ghost use Rattle.run.specs.Layout.{places_in, rows_in, table_of};
ghost use Rattle.finite.specs.Several.{TwoOf, ThreeOf};
ghost use Rattle.work_area.specs.Regions.{MET, MET_END, REACHED, REACHED_END, GRID};
ghost use Rattle.work_area.specs.State.{Ordered};
ghost use Rattle.flags_location.specs.Domains.{thence_bits, seen_bits, onward_bits, operation_at, available_of, visible_of, is_available, out_of, met_by};
ghost use Rattle.flags_location.specs.Domains.{reached, Meeting};
ghost use Rattle.flags_location.specs.Given.{Room, Given, GivenRows};

use crate::happens;
use run::Run;
use work_area::grid::Rows;

// ---- an agent's and an operation's domain

// The operation that makes available to an agent's domain.
fn available_kind(t: &Run, agent: u8) -> u8
    ensures { result ≡ available_of (places_in t.now.bytes) agent }
{
    if door_rows::scopes::is_host(t.places(), agent) {
        door_rows::kinds::AVAILABLE_HOST
    } else {
        door_rows::kinds::AVAILABLE_DEVICE
    }
}

// The operation that makes visible from an agent's domain.
fn visible_kind(t: &Run, agent: u8) -> u8
    ensures { result ≡ visible_of (places_in t.now.bytes) agent }
{
    if door_rows::scopes::is_host(t.places(), agent) {
        door_rows::kinds::VISIBLE_HOST
    } else {
        door_rows::kinds::VISIBLE_DEVICE
    }
}

// Whether an operation of this kind makes available to a domain.
fn is_available(kind: u8) -> bool
    ensures { result ≡ is_available kind }
{
    (kind == door_rows::kinds::AVAILABLE_HOST) | (kind == door_rows::kinds::AVAILABLE_DEVICE)
}

// The operation that carries out of that domain.
fn out_of(kind: u8) -> u8
    ensures { result ≡ out_of kind }
{
    if kind == door_rows::kinds::AVAILABLE_HOST {
        door_rows::kinds::HOST_TO_DEVICE
    } else {
        door_rows::kinds::DEVICE_TO_HOST
    }
}

// Whether row i is an operation at all.
pub fn operation_at(t: &Run, i: usize) -> bool
    requires { i < ROWS }
    ensures { result ≡ operation_at (rows_in t.now.bytes) i }
{
    let kind = t.kind(i as u16);
    (door_rows::kinds::AVAILABLE_HOST <= kind) & (kind <= door_rows::kinds::DEVICE_TO_HOST)
}

// ---- an operation on the way

// The way from row x to row y by an operation of this kind.
#[derive(Clone, Copy)]
struct Way {
    pub kind: u8,
    pub x: usize,
    pub y: usize,
}

// Whether rows i and j are in the grid.
pub fn grid_bit(w: &[u64], grid: Rows, i: usize, j: usize) -> bool
    requires { (grid.base ≤ REACHED) × TwoOf ROWS i j × (WORK ≤ length w.now) }
    ensures { result ≡ rel w.now grid.base GRID i j }
{
    grid.get(w, i, j)
}

// Whether row i is the operation of this kind, and row x happens before it.
fn thence_at(t: &Run, kind: u8, x: usize, i: usize, w: &[u64]) -> bool
    requires { (x < ROWS) × (i < ROWS) × (WORK ≤ length w.now) }
    ensures { result ≡ thence_bits (rows_in t.now.bytes) w.now kind x i }
{
    if !(t.kind(i as u16) == kind) {
        return false;
    }
    happens::happens_bit(w, 3 * x + 1, 3 * i + 1)
}

// Whether row i is the operation of this kind, after row x and before row y.
fn seen_at(t: &Run, p: Way, i: usize, w: &[u64]) -> bool
    requires { ThreeOf ROWS p.x p.y i × (WORK ≤ length w.now) }
    ensures { result ≡ seen_bits (rows_in t.now.bytes) w.now p.kind p.x p.y i }
{
    if !thence_at(t, p.kind, p.x, i, w) {
        return false;
    }
    happens::happens_bit(w, 3 * i + 1, 3 * p.y + 1)
}

// Whether some row is.
fn is_seen(t: &Run, p: Way, w: &[u64]) -> bool
    requires { TwoOf t.now.rows p.x p.y × Room t.now.rows w.now }
    ensures { result ≡ any_below t.now.rows (seen_bits (rows_in t.now.bytes) w.now p.kind p.x p.y) }
{
    for i in 0..t.rows {
        if seen_at(t, p, i, w) {
            return true;
        }
    }
    false
}

// Whether row i is the operation of this kind, after row x, and the grid has it with row y.
fn onward_at(t: &Run, grid: Rows, p: Way, i: usize, w: &[u64]) -> bool
    requires { (grid.base ≤ REACHED) × ThreeOf ROWS p.x p.y i × (WORK ≤ length w.now) }
    ensures { result ≡ onward_bits (rows_in t.now.bytes) w.now grid.base p.kind p.x p.y i }
{
    if !thence_at(t, p.kind, p.x, i, w) {
        return false;
    }
    grid_bit(w, grid, i, p.y)
}

// Whether some row is.
fn is_onward(t: &Run, grid: Rows, p: Way, w: &[u64]) -> bool
    requires { (grid.base ≤ REACHED) × TwoOf t.now.rows p.x p.y × Room t.now.rows w.now }
    ensures { result ≡ any_below t.now.rows (onward_bits (rows_in t.now.bytes) w.now grid.base p.kind p.x p.y) }
{
    for i in 0..t.rows {
        if onward_at(t, grid, p, i, w) {
            return true;
        }
    }
    false
}

// ---- what a row meets of what an operation leaves in its domain

// A reader meets it by way of a visibility operation, any other at once.
fn met_at(t: &Run, m: usize, y: usize, w: &[u64]) -> bool
    requires { GivenRows Ordered t.now.bytes t.now.rows m y w.now }
    ensures { result ≡ met_by (table_of t.now) m y }
{
    if !operation_at(t, m) {
        return false;
    }
    let q = t.row(y as u16);
    if door_rows::kinds::reads(q) {
        let p = Way {
            kind: visible_kind(t, q.agent),
            x: m,
            y: y,
        };
        return is_seen(t, p, w);
    }
    happens::happens_bit(w, 3 * m + 1, 3 * y + 1)
}

// The same for every operation and row.
// Ruled out: one where a reader meets it with no visibility operation; one that asks for one of the other domain.
pub fn fill_met(t: &Run, w: &mut [u64])
    requires { Given Ordered t.now.bytes t.now.rows w.old }
    ensures { Made MET MET_END MET GRID t.now.rows (met_by (table_of t.now)) w.old w.new }
{
    bits::clear(w, work_area::MET, work_area::MET_END);
    for m in 0..t.rows {
        for y in 0..t.rows {
            let b = met_at(t, m, y, w);
            work_area::grid::MET.put_if(w, m, y, b);
        }
    }
}

// ---- what a row meets of what an operation makes available

// Where the operation's domain is not row y's, another operation must carry it.
fn reached_at(t: &Run, a: usize, y: usize, w: &[u64]) -> bool
    requires { GivenRows Meeting t.now.bytes t.now.rows a y w.now }
    ensures { result ≡ reached (table_of t.now) a y }
{
    let kind = t.kind(a as u16);
    if !is_available(kind) {
        return false;
    }
    let agent = t.agent(y as u16);
    if (kind == door_rows::kinds::AVAILABLE_HOST) == door_rows::scopes::is_host(t.places(), agent) {
        return grid_bit(w, work_area::grid::MET, a, y);
    }
    let p = Way {
        kind: out_of(kind),
        x: a,
        y: y,
    };
    is_onward(t, work_area::grid::MET, p, w)
}

// The same for every operation and row.
// Ruled out: one that carries from the host's domain to the device's what was made available to the device's; one where what is
// made available to a domain is met in the other with nothing to carry it.
pub fn fill_reached(t: &Run, w: &mut [u64])
    requires { Given Meeting t.now.bytes t.now.rows w.old }
    ensures { Made REACHED REACHED_END REACHED GRID t.now.rows (reached (table_of t.now)) w.old w.new }
{
    bits::clear(w, work_area::REACHED, work_area::REACHED_END);
    for a in 0..t.rows {
        for y in 0..t.rows {
            let b = reached_at(t, a, y, w);
            work_area::grid::REACHED.put_if(w, a, y, b);
        }
    }
}

// ---- L5

// Whether row x writes, and some operation makes it available that reaches row y.
// Ruled out: one that takes an operation of the other domain; one that takes an operation before the write.
pub fn l5(t: &Run, x: usize, y: usize, w: &[u64]) -> bool
    requires { TwoOf t.now.rows x y × Room t.now.rows w.now }
    ensures { let rows = rows_in t.now.bytes in
        let kind = available_of (places_in t.now.bytes) (row_of rows x).agent in
        result ≡ (writes (row_of rows x) and any_below t.now.rows (onward_bits rows w.now REACHED kind x y)) }
{
    let r = t.row(x as u16);
    if !door_rows::kinds::writes(r) {
        return false;
    }
    let p = Way {
        kind: available_kind(t, r.agent),
        x: x,
        y: y,
    };
    is_onward(t, work_area::grid::REACHED, p, w)
}
