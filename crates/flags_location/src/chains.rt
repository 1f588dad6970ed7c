// L3: what a write makes available, and what a read makes visible, at a byte, by chains of availability and of visibility operations.
// An element of a chain is named by its row, since a row has at most one moment of either sort. Loops first ask what a few bytes and bits
// tell. Chains of more than one element are looked at on a device
// that has them, and cost nothing elsewhere.
ghost use Rattle.std.specs.Prelude.{◌≡◌, true, ◌+◌, ◌*◌, ◌≤◌, ◌<◌, min, length};
ghost use Rattle.finite.specs.Logic.{◌and◌, ◌or◌};
ghost use Rattle.finite.specs.Below.{any_below};
ghost use Rattle.bits.specs.Matrix.{rel};
ghost use Rattle.model.specs.Limits.{ROWS, WORK};
ghost use Rattle.model.specs.Table.{row_of};
ghost use Rattle.run.specs.Layout.{places_in, mode_in, rows_in, table_of};
ghost use Rattle.model.specs.Availability.{L3};
ghost use Rattle.work_area.specs.Regions.{HAPPENS, MOMENTS};
ghost use Rattle.flags_location.specs.Chains.{available_part, visible_part, may_avail, may_see, available_rows, visible_rows, widest, meet_in};
ghost use Rattle.flags_location.specs.Chains.{seen, met_at_once, starts_with, shown_by, ends_at, ends_with, carried_by};
ghost use Rattle.finite.specs.Several.{TwoOf, ThreeOf};
ghost use Rattle.flags_location.specs.Given.{Pair, Element};

use crate::happens;
use model::Row;
use run::Run;
use run_rows::{moments, pairs};

// The moments before and after a row, counted from three times the row.
const BEFORE: usize = 0;

const AFTER: usize = 2;

// The flags that make available and visible.
pub const AVAILABLE: u8 = 2;

pub const VISIBLE: u8 = 4;

// What is asked: whether row x is ordered before row y at byte b.
#[derive(Clone, Copy)]
pub struct Asked {
    pub x: usize,
    pub y: usize,
    pub b: u32,
}

// ---- an element

// Which moment of s is its availability moment, if it has one.
pub fn available_part(s: Row) -> usize
    ensures { (result ≡ available_part s) × (result < 3) }
{
    if door_rows::kinds::is_plain(s) {
        AFTER
    } else {
        BEFORE
    }
}

pub fn visible_part(s: Row) -> usize
    ensures { (result ≡ visible_part s) × (result < 3) }
{
    if door_rows::kinds::is_plain(s) {
        BEFORE
    } else {
        AFTER
    }
}

// L3: row a is a first element of availability of x at the byte.
fn available_at(t: &Run, p: Asked, a: usize) -> bool
    requires { (p.x < ROWS) × (a < ROWS) }
    ensures { let row = row_of (rows_in t.now.bytes) in
        result ≡ available_rows t.now.rows p.x (row p.x) (3 * a + available_part (row a)) (row a) p.b }
{
    let r = t.row(p.x as u16);
    let s = t.row(a as u16);
    let c = 3 * a + available_part(s);
    moments::availability_of(s, (c % 3) as u8)
        & moments::is_ordered(t.rows, 3 * p.x + 1, c, r, s)
        & pairs::covers_of(s, r, p.b)
}

// L3: row v is a last element of visibility of y at the byte.
fn visible_at(t: &Run, p: Asked, v: usize) -> bool
    requires { (p.y < ROWS) × (v < ROWS) }
    ensures { let row = row_of (rows_in t.now.bytes) in
        result ≡ visible_rows t.now.rows p.y (row p.y) (3 * v + visible_part (row v)) (row v) p.b }
{
    let q = t.row(p.y as u16);
    let s = t.row(v as u16);
    let c = 3 * v + visible_part(s);
    moments::visibility_of(s, (c % 3) as u8)
        & moments::is_ordered(t.rows, c, 3 * p.y + 1, s, q)
        & pairs::covers_of(s, q, p.b)
}

// ---- where two elements meet

fn lower(a: u8, b: u8) -> u8
    ensures { result ≡ min a b }
{
    if a < b { a } else { b }
}

// The broadest scope that is no broader than either.
fn widest(s: u8, u: u8) -> u8
    ensures { result ≡ widest s u }
{
    lower(lower(s, u), door_rows::scopes::DEVICE)
}

// Whether one domain of scope d holds the agents of rows x and y, that of row i beside the one, that of row j beside the other.
fn meet_in(t: &Run, d: u8, p: Asked, i: usize, j: usize) -> bool
    requires { TwoOf ROWS p.x p.y × TwoOf ROWS i j }
    ensures { let row = row_of (rows_in t.now.bytes) in
        result ≡ meet_in (places_in t.now.bytes) d (row p.x) (row p.y) (row i) (row j) }
{
    let a = t.agent(p.x as u16);
    let b = t.agent(p.y as u16);
    (1 <= d)
        & t.shares(d, a, b)
        & t.shares(d, a, t.agent(i as u16))
        & t.shares(d, b, t.agent(j as u16))
}

// What row i makes available, row j makes visible.
fn seen_at(t: &Run, p: Asked, i: usize, j: usize, w: &[u64]) -> bool
    requires { record { element : Element t.now.bytes t.now.rows p.x p.y i w.now; last : j < t.now.rows } }
    ensures { result ≡ seen (table_of t.now) p.x p.y i j }
{
    let s = t.row(i as u16);
    let u = t.row(j as u16);
    if !happens::happens_bit(w, 3 * i + available_part(s), 3 * j + visible_part(u)) {
        return false;
    }
    meet_in(t, widest(s.scope, u.scope), p, i, j)
}

// ---- what y meets

// Whether row v may be a last element for what row i makes available to y: it has y's agent and the flag and, without chains, i's
// availability moment happens before one of its own.
fn may_show(t: &Run, y: usize, i: usize, v: usize, w: &[u64]) -> bool
    requires { ThreeOf ROWS y i v × (WORK ≤ length w.now) }
    ensures { let rows = rows_in t.now.bytes in
        let before = rel w.now HAPPENS MOMENTS (3 * i + available_part (row_of rows i)) in
        result ≡ (((mode_in t.now.bytes).chains or before (3 * v) or before (3 * v + 2)) and may_see rows (row_of rows y) v) }
{
    let agent = t.agent(v as u16);
    let flags = t.flags(v as u16);
    if !((agent == t.agent(y as u16)) & door_rows::kinds::meets(flags, VISIBLE)) {
        return false;
    }
    let c = 3 * i + available_part(t.row(i as u16));
    t.chains() | happens::happens_bit(w, c, 3 * v) | happens::happens_bit(w, c, 3 * v + AFTER)
}

// A visibility chain of more than one element from row j to row v shows what row i makes available.
fn starts_with(t: &Run, p: Asked, i: usize, v: usize, j: usize, w: &[u64]) -> bool
    requires { record { element : Element t.now.bytes t.now.rows p.x p.y i w.now; last : v < t.now.rows; next : j < t.now.rows; chains : (mode_in t.now.bytes).chains ≡ true } }
    ensures { result ≡ starts_with (table_of t.now) p.x p.y i v j }
{
    if !work_area::grid::REACH_IN.get(w, j, v) {
        return false;
    }
    seen_at(t, p, i, j, w)
}

// Some visibility chain of more than one element that ends with row v shows it.
fn some_start(t: &Run, p: Asked, i: usize, v: usize, w: &[u64]) -> bool
    requires { record { element : Element t.now.bytes t.now.rows p.x p.y i w.now; last : v < t.now.rows; chains : (mode_in t.now.bytes).chains ≡ true } }
    ensures { result ≡ any_below t.now.rows (starts_with (table_of t.now) p.x p.y i v) }
{
    for j in 0..t.rows {
        if starts_with(t, p, i, v, j, w) {
            return true;
        }
    }
    false
}

// Some visibility chain that ends with row v shows what row i makes available.
fn starts_at(t: &Run, p: Asked, i: usize, v: usize, w: &[u64]) -> bool
    requires { record { element : Element t.now.bytes t.now.rows p.x p.y i w.now; last : v < t.now.rows } }
    ensures { let table = table_of t.now in
        result ≡ (seen table p.x p.y i v or ((mode_in t.now.bytes).chains and any_below t.now.rows (starts_with table p.x p.y i v))) }
{
    if seen_at(t, p, i, v, w) {
        return true;
    }
    if !t.chains() {
        return false;
    }
    some_start(t, p, i, v, w)
}

// L3: y sees by way of row v what row i makes available.
fn shown_in(t: &Run, p: Asked, i: usize, v: usize, w: &[u64]) -> bool
    requires { record { element : Element t.now.bytes t.now.rows p.x p.y i w.now; last : v < t.now.rows } }
    ensures { result ≡ shown_by (table_of t.now) p.x p.y p.b i v }
{
    if !may_show(t, p.y, i, v, w) {
        return false;
    }
    if !visible_at(t, p, v) {
        return false;
    }
    starts_at(t, p, i, v, w)
}

// No row after y is a last element.
fn some_shown(t: &Run, p: Asked, i: usize, w: &[u64]) -> bool
    requires { Element t.now.bytes t.now.rows p.x p.y i w.now }
    ensures { result ≡ any_below t.now.rows (shown_by (table_of t.now) p.x p.y p.b i) }
{
    for v in 0..p.y + 1 {
        if shown_in(t, p, i, v, w) {
            return true;
        }
    }
    false
}

// y meets at once what row i makes available.
fn met_at(t: &Run, p: Asked, i: usize, w: &[u64]) -> bool
    requires { Element t.now.bytes t.now.rows p.x p.y i w.now }
    ensures { result ≡ met_at_once (table_of t.now) p.x p.y i }
{
    let s = t.row(i as u16);
    if !happens::happens_bit(w, 3 * i + available_part(s), 3 * p.y + 1) {
        return false;
    }
    meet_in(t, widest(s.scope, door_rows::scopes::DEVICE), p, i, p.y)
}

// L3: y meets what row i makes available: a reader by way of a visibility chain, any other at once.
fn ends_at(t: &Run, p: Asked, i: usize, w: &[u64]) -> bool
    requires { Element t.now.bytes t.now.rows p.x p.y i w.now }
    ensures { result ≡ ends_at (table_of t.now) p.x p.y p.b i }
{
    let q = t.row(p.y as u16);
    if door_rows::kinds::reads(q) {
        return some_shown(t, p, i, w);
    }
    met_at(t, p, i, w)
}

// ---- what x makes available

// Whether row i may make x available: it has x's agent and the flag.
fn may_avail(t: &Run, x: usize, i: usize) -> bool
    requires { (x < ROWS) × (i < ROWS) }
    ensures { let rows = rows_in t.now.bytes in
        result ≡ may_avail rows (row_of rows x) i }
{
    let agent = t.agent(i as u16);
    let flags = t.flags(i as u16);
    (t.agent(x as u16) == agent) & door_rows::kinds::meets(flags, AVAILABLE)
}

// An availability chain of more than one element from row a to row c makes available what y meets.
fn ends_with(t: &Run, p: Asked, a: usize, c: usize, w: &[u64]) -> bool
    requires { record { pair : Pair t.now.bytes t.now.rows p.x p.y w.now; row : a < t.now.rows; next : c < t.now.rows; chains : (mode_in t.now.bytes).chains ≡ true } }
    ensures { result ≡ ends_with (table_of t.now) p.x p.y p.b a c }
{
    if !work_area::grid::REACH_OUT.get(w, a, c) {
        return false;
    }
    ends_at(t, p, c, w)
}

// Some availability chain of more than one element that begins with row a makes available what y meets.
fn some_end(t: &Run, p: Asked, a: usize, w: &[u64]) -> bool
    requires { record { pair : Pair t.now.bytes t.now.rows p.x p.y w.now; row : a < t.now.rows; chains : (mode_in t.now.bytes).chains ≡ true } }
    ensures { result ≡ any_below t.now.rows (ends_with (table_of t.now) p.x p.y p.b a) }
{
    for c in 0..t.rows {
        if ends_with(t, p, a, c, w) {
            return true;
        }
    }
    false
}

// Some availability chain that begins with row a makes available what y meets.
fn ends_from(t: &Run, p: Asked, a: usize, w: &[u64]) -> bool
    requires { Element t.now.bytes t.now.rows p.x p.y a w.now }
    ensures { let table = table_of t.now in
        result ≡ (ends_at table p.x p.y p.b a or ((mode_in t.now.bytes).chains and any_below t.now.rows (ends_with table p.x p.y p.b a))) }
{
    if ends_at(t, p, a, w) {
        return true;
    }
    if !t.chains() {
        return false;
    }
    some_end(t, p, a, w)
}

// L3: y meets what a chain from the first element a makes available.
fn carried_in(t: &Run, p: Asked, a: usize, w: &[u64]) -> bool
    requires { record { pair : Pair t.now.bytes t.now.rows p.x p.y w.now; row : a < t.now.rows } }
    ensures { result ≡ carried_by (table_of t.now) p.x p.y p.b a }
{
    if !may_avail(t, p.x, a) {
        return false;
    }
    if !available_at(t, p, a) {
        return false;
    }
    ends_from(t, p, a, w)
}

// No row before x is a first element.
fn some_carried(t: &Run, p: Asked, w: &[u64]) -> bool
    requires { Pair t.now.bytes t.now.rows p.x p.y w.now }
    ensures { result ≡ any_below t.now.rows (carried_by (table_of t.now) p.x p.y p.b) }
{
    for a in p.x..t.rows {
        if carried_in(t, p, a, w) {
            return true;
        }
    }
    false
}

// L3.
pub fn l3(t: &Run, p: Asked, w: &[u64]) -> bool
    requires { Pair t.now.bytes t.now.rows p.x p.y w.now }
    ensures { result ≡ L3 (table_of t.now) p.x p.y p.b }
{
    let r = t.row(p.x as u16);
    let q = t.row(p.y as u16);
    if !pairs::public_write(r, q) {
        return false;
    }
    some_carried(t, p, w)
}
