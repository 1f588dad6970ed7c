// L1 to L5 by sets of rows: SOME, the rows that each access is ordered before at some shared byte, and LOCATION, at which bytes.
#![tactic(auto)]

ghost use Rattle.std.specs.Prelude.{◌≡◌, true, ◌+◌, length};
ghost use Rattle.model.specs.Row.{access};
ghost use Rattle.run.specs.Layout.{table_of};
ghost use Rattle.sets_grids.specs.RowThat.{RowThat};
ghost use Rattle.sets_grids.specs.Given.{Given, Fitting};
ghost use Rattle.sets_of_rows.specs.Rows.{Rows};
ghost use Rattle.model_placing.specs.Leads.{meets};
ghost use Rattle.model_placing.specs.Whole.{first_plain};
ghost use Rattle.model_placing.specs.Writer.{full_set};
ghost use Rattle.sets_of_table.specs.Known.{Opened};
ghost use Rattle.sets_grids.specs.Location.{Locating, ToLocate, MadeLocation};
ghost use Rattle.sets_location.specs.Told.{ToldTo};
ghost use Rattle.sets_location.specs.Met.{Grasps};
ghost use Rattle.model.specs.Edge.{before_nth};
ghost use Rattle.sets_of_table.specs.Fit.{Fit};
ghost use Rattle.sets_grids.specs.Available.{shown_to};
ghost use Rattle.sets_location.specs.Adds.{AddsRow, Over, Targets, PublicWrite, Carrier, Carried, Next, Empty, whole_bytes, parts_of};

pub mod part; // bytes of plain rows

use run::Run;
use sets_of_rows::{Set, kept};
use sets_of_table::fields;

// The words of the sets that are kept by agent and class while going up the page: four for the rows to which, and four for those by whose
// visibility operations, availability operations of atomics and barriers further down make it available, if they cover the class.
const MADE: usize = 512;

// ---- order at every shared byte

// L1, L2, L4 and L5 of x.
fn ordered_after(t: &Run, s: &[u64], x: usize, w: &[u64]) -> Set
    requires { RowThat access (table_of t.now).row t.now.rows x × ToLocate (table_of t.now) t.now.rows s.now w.now }
    ensures { ToldTo (table_of t.now) t.now.rows x result }
{
    let happens = kept::get(w, sets_grids::HAPPENS, x);
    let public = sets_of_table::rows(s, sets_of_table::PUBLIC);
    let own = happens & sets_of_table::ask::of_agent(t, s, x);
    let l1 = own & kept::get(s, sets_of_table::REFERENCE, x);
    let pure = public.has(x) & !sets_of_table::rows(s, sets_of_table::WRITES).has(x);
    let l2 = (happens & public).only_if(pure);
    l1 | l2 | kept::get(w, sets_grids::HOSTED, x)
}

// x is ordered before each of `to` at all shared bytes.
fn put_whole(t: &Run, x: usize, to: Set, w: &mut [u64])
    requires { Fitting (table_of t.now) t.now.rows w.old × Over (table_of t.now) t.now.rows x to × Empty x w.old }
    ensures { AddsRow t.now.rows x (whole_bytes (table_of t.now) x to) w.old w.new }
{
    kept::put(w, sets_grids::SOME, x, to);
    for y in to {
        let m = sets_bytes::shared(t, x, y);
        sets_bytes::add(w, x, y, m);
    }
}

// x is ordered before each of `to` at the bytes that it meets by way of operations of plain rows.
fn put_parts(t: &Run, s: &[u64], x: usize, to: Set, g: part::Available, w: &mut [u64])
    requires { ToLocate (table_of t.now) t.now.rows s.now w.old × Grasps (table_of t.now) t.now.rows x g × Targets (table_of t.now) t.now.rows x to }
    ensures { AddsRow t.now.rows x (parts_of (table_of t.now) x to) w.old w.new }
{
    for y in to {
        let met = sets_bytes::shared(t, x, y) & part::bytes_met(t, s, x, y, g, w);
        if 0 < met {
            sets_bytes::add(w, x, y, met);
            kept::put_bit(w, sets_grids::SOME, x, y);
        }
    }
}

// ---- L3

// The plain rows that x is, or is program-ordered before, whose availability operations cover some of its bytes.
fn plain_available(t: &Run, s: &[u64], x: usize, w: &[u64]) -> Set
    requires { RowThat access (table_of t.now).row t.now.rows x × ToLocate (table_of t.now) t.now.rows s.now w.now }
    ensures { Rows t.now.rows (first_plain (table_of t.now) x) result }
{
    let plain = sets_of_table::rows(s, sets_of_table::AVAILABLE)
        & sets_of_table::rows(s, sets_of_table::PLAIN);
    let here = kept::get(s, sets_of_table::REFERENCE, x) & kept::get(w, work_area::OVERLAP, x);
    plain & here & sets_of_table::ask::onward(t, s, x)
}

// What is made available of x: by atomics and barriers, in `made`, and by plain rows.
fn made_available(t: &Run, s: &[u64], x: usize, made: &[u64], w: &[u64]) -> part::Available
    requires { RowThat access (table_of t.now).row t.now.rows x × ToLocate (table_of t.now) t.now.rows s.now w.now × Carried (table_of t.now) t.now.rows (x + 1) made.now }
    ensures { Grasps (table_of t.now) t.now.rows x result }
{
    let k = fields::agent(t, x) * 8 + fields::class(t, x);
    let mut to = kept::get(made, 0, k);
    let mut by = kept::get(made, 0, k + 4);
    let mut parts = Set::none();
    for a in plain_available(t, s, x, w) {
        if part::covers(t, a, x) {
            to |= kept::get(w, sets_grids::AVAILABLE_TO, a);
            by |= kept::get(w, sets_grids::VISIBLE_BY, a);
        } else {
            parts |= Set::bit(a);
        }
    }
    part::Available {
        to: to,
        by: by,
        parts: parts,
    }
}

// L3 of the public write x and rows of its reference: those that meet all of it by operations that cover all shared bytes.
fn met_whole(t: &Run, s: &[u64], x: usize, g: part::Available) -> Set
    requires { RowThat access (table_of t.now).row t.now.rows x × Opened (table_of t.now) t.now.rows s.now × Grasps (table_of t.now) t.now.rows x g }
    ensures { let table = table_of t.now in Rows t.now.rows (full_set table (meets table) (shown_to table) x) result }
{
    let reads = sets_of_table::rows(s, sets_of_table::READS);
    let wide = g.by & part::wide_visible(t, s, x);
    let seen = part::seen(t, s, false, wide);
    (g.to - reads) | (seen & reads)
}

// L3 of the public write x, beside what it is ordered before at all shared bytes anyway; the rows `over` share bytes with it.
fn place_write(t: &Run, s: &[u64], x: usize, before: Set, over: Set, made: &[u64], w: &mut [u64])
    requires { ToLocate (table_of t.now) t.now.rows s.now w.old × PublicWrite (table_of t.now) t.now.rows x before over × Next (table_of t.now) t.now.rows x made.now w.old }
    ensures { AddsRow t.now.rows x (before_nth (table_of t.now) x) w.old w.new }
{
    let public = kept::get(s, sets_of_table::REFERENCE, x)
        & sets_of_table::rows(s, sets_of_table::PUBLIC);
    let target = public & over;
    let g = made_available(t, s, x, made, w);
    let met = met_whole(t, s, x, g) & target;
    let whole = (before | met) & over;
    put_whole(t, x, whole, w);
    let maybe = part::maybe_met(t, s, x, g, w) & target;
    put_parts(t, s, x, maybe - whole, g, w);
}

// ---- up the page

// All of x.
fn place_row(t: &Run, s: &[u64], x: usize, made: &[u64], w: &mut [u64])
    requires { (access ((table_of t.now).row x) ≡ true) × ToLocate (table_of t.now) t.now.rows s.now w.old × Next (table_of t.now) t.now.rows x made.now w.old }
    ensures { AddsRow t.now.rows x (before_nth (table_of t.now) x) w.old w.new }
{
    let before = ordered_after(t, s, x, w);
    let over = kept::get(w, work_area::OVERLAP, x).without(x);
    let public = sets_of_table::rows(s, sets_of_table::PUBLIC)
        & sets_of_table::rows(s, sets_of_table::WRITES);
    if public.has(x) {
        place_write(t, s, x, before, over, made, w);
        return;
    }
    put_whole(t, x, before & over, w);
}

// What the atomic or barrier x makes available is made for the rows of its agent before it, of each of its classes.
fn carry_back(t: &Run, x: usize, made: &mut [u64], w: &[u64])
    requires { Fit (table_of t.now) × Carrier (table_of t.now) t.now.rows x w.now × Carried (table_of t.now) t.now.rows (x + 1) made.old }
    ensures { (length made.new ≡ length made.old) × Carried (table_of t.now) t.now.rows x made.new }
{
    let agent = fields::agent(t, x);
    let classes = fields::classes(t, x);
    let to = kept::get(w, sets_grids::AVAILABLE_TO, x);
    let by = kept::get(w, sets_grids::VISIBLE_BY, x);
    for q in 0..4 {
        if sets_of_table::ask::holds_class(classes, q) {
            kept::join(made, 0, agent * 8 + q, to);
            kept::join(made, 0, agent * 8 + 4 + q, by);
        }
    }
}

// SOME and LOCATION.
pub fn fill_location(t: &Run, s: &[u64], w: &mut [u64])
    requires { Given (table_of t.now) t.now.rows s.now w.old × Locating (table_of t.now) t.now.rows w.old }
    ensures { MadeLocation (table_of t.now) t.now.rows w.old w.new }
{
    bits::clear(w, sets_grids::SOME, sets_grids::SOME_END);
    bits::clear(w, work_area::LOCATION, work_area::LOCATION_END);
    let mut made = [0u64; MADE];
    let accesses = sets_of_table::rows(s, sets_of_table::ACCESS);
    let wide = sets_of_table::rows(s, sets_of_table::AVAILABLE)
        - sets_of_table::rows(s, sets_of_table::PLAIN);
    for x in (0..t.rows).rev() {
        if accesses.has(x) {
            place_row(t, s, x, &made, w);
        }
        if wide.has(x) {
            carry_back(t, x, &mut made, w);
        }
    }
}
