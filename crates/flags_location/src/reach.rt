// From where to where chains of more than one element lead, as bits, on a device that has them.
ghost use Rattle.std.specs.Prelude.{◌≡◌, ◌+◌, ◌*◌, ◌<◌};
ghost use Rattle.bits.specs.Stage.{Made};
ghost use Rattle.model.specs.Limits.{ROWS};
ghost use Rattle.model.specs.Row.{meets};
ghost use Rattle.model.specs.Table.{row_of};
ghost use Rattle.run.specs.Layout.{places_in, rows_in, table_of};
ghost use Rattle.model.specs.Availability.{broadens, narrows};
ghost use Rattle.work_area.specs.Regions.{REACH_OUT, REACH_OUT_END, REACH_IN, REACH_IN_END, GRID};
ghost use Rattle.work_area.specs.State.{Ordered};
ghost use Rattle.flags_location.specs.Reach.{broader_rows, MadeReach};
ghost use Rattle.flags_location.specs.Given.{Given, GivenRows};

use crate::{chains, happens};
use model::Row;
use run::Run;
use run_rows::moments;

// ---- one step

// Whether row i has a flag of these.
fn has_flag(t: &Run, i: usize, flags: u8) -> bool
    requires { i < ROWS }
    ensures { result ≡ meets (row_of (rows_in t.now.bytes) i).flags flags }
{
    door_rows::kinds::meets(t.flags(i as u16), flags)
}

// Whether u has a broader scope than s, and is performed in the instance of s's scope. Places are read for a broader one only.
fn is_broader(t: &Run, s: Row, u: Row) -> bool
    ensures { result ≡ broader_rows (places_in t.now.bytes) s u }
{
    if u.scope <= s.scope {
        return false;
    }
    t.shares(s.scope, s.agent, u.agent)
}

// Whether row c may come right after row a in an availability chain. Most rows make nothing available, as one byte tells.
fn broadens_at(t: &Run, a: usize, c: usize, w: &[u64]) -> bool
    requires { GivenRows Ordered t.now.bytes t.now.rows a c w.now }
    ensures { result ≡ broadens (table_of t.now) a c }
{
    if !has_flag(t, c, chains::AVAILABLE) {
        return false;
    }
    let s = t.row(a as u16);
    let u = t.row(c as u16);
    let k = chains::available_part(s);
    let m = chains::available_part(u);
    moments::availability_of(u, m as u8)
        & is_broader(t, s, u)
        & happens::happens_bit(w, 3 * a + k, 3 * c + m)
}

// Whether row v may come right after row j in a visibility chain.
fn narrows_at(t: &Run, j: usize, v: usize, w: &[u64]) -> bool
    requires { GivenRows Ordered t.now.bytes t.now.rows j v w.now }
    ensures { result ≡ narrows (table_of t.now) j v }
{
    if !has_flag(t, j, chains::VISIBLE) {
        return false;
    }
    let u = t.row(j as u16);
    let s = t.row(v as u16);
    let k = chains::visible_part(u);
    let m = chains::visible_part(s);
    moments::visibility_of(u, k as u8)
        & is_broader(t, s, u)
        & happens::happens_bit(w, 3 * j + k, 3 * v + m)
}

// ---- all steps

// The steps of availability chains, from an element to the next.
fn fill_out(t: &Run, w: &mut [u64])
    requires { Given Ordered t.now.bytes t.now.rows w.old }
    ensures { Made REACH_OUT REACH_OUT_END REACH_OUT GRID t.now.rows (broadens (table_of t.now)) w.old w.new }
{
    bits::clear(w, work_area::REACH_OUT, work_area::REACH_OUT_END);
    for a in 0..t.rows {
        for c in 0..t.rows {
            let b = broadens_at(t, a, c, w);
            work_area::grid::REACH_OUT.put_if(w, a, c, b);
        }
    }
}

// The steps of visibility chains.
fn fill_in(t: &Run, w: &mut [u64])
    requires { Given Ordered t.now.bytes t.now.rows w.old }
    ensures { Made REACH_IN REACH_IN_END REACH_IN GRID t.now.rows (narrows (table_of t.now)) w.old w.new }
{
    bits::clear(w, work_area::REACH_IN, work_area::REACH_IN_END);
    for j in 0..t.rows {
        for v in 0..t.rows {
            let b = narrows_at(t, j, v, w);
            work_area::grid::REACH_IN.put_if(w, j, v, b);
        }
    }
}

// ---- chains of steps

// From the first element of a chain to its last; on a device without chains there is nothing to do, and nothing is written.
// Ruled out: one that lets a chain go on with an equal scope; one that leaves out what three elements make together.
pub fn make_reach(t: &Run, w: &mut [u64])
    requires { Given Ordered t.now.bytes t.now.rows w.old }
    ensures { MadeReach (table_of t.now) t.now.rows w.old w.new }
{
    if !t.chains() {
        return;
    }
    fill_out(t, w);
    work_area::grid::REACH_OUT.close(w, t.rows);
    fill_in(t, w);
    work_area::grid::REACH_IN.close(w, t.rows);
}
