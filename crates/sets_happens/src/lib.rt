// M7 by sets of rows: program order, and what inter-thread order for one class set adds to it: between rows; from availability operations to
// rows, visibility and availability operations; and between visibility operations.
#![tactic(auto)]

ghost use Rattle.std.specs.Prelude.{◌≡◌, ℕ, ◌≤◌, ◌<◌, length};
ghost use Rattle.model.specs.Limits.{ROWS, WORK};
ghost use Rattle.model.specs.Moment.{program_order};
ghost use Rattle.model.specs.Availability.{visibility_moment};
ghost use Rattle.run.specs.Layout.{table_of};
ghost use Rattle.model_closing.specs.Order.{later_row};
ghost use Rattle.sets_of_rows.specs.declared.Set.{Set};
ghost use Rattle.sets_of_rows.specs.Member.{in_set};
ghost use Rattle.sets_of_rows.specs.Rows.{Rows};
ghost use Rattle.sets_of_table.specs.Known.{Opened};
ghost use Rattle.sets_grids.specs.Regions.{HAPPENS, HAPPENS_END, AVAILABLE_AT, VISIBLE_VISIBLE, REACH_AT};
ghost use Rattle.sets_grids.specs.Grid.{MadeGrid};
ghost use Rattle.sets_grids.specs.Given.{Given};
ghost use Rattle.sets_happens.specs.Adds.{Reached, MadeProgram, AddsAt, AddsAvailable, AddsVisible};
ghost use Rattle.sets_happens.specs.Adding.{Empty, NoneAvailable};
ghost use Rattle.sets_happens.specs.Program.{behind, PutsAvailable, MadeAvailables};
ghost use Rattle.sets_happens.specs.Behind.{by_first, from_at, JoinsAvailable, JoinsVisible};

use run::Run;
use sets_grids::Concerned;
use sets_of_rows::{Set, kept};

// ---- program order

// The rows after an availability operation: that of an atomic or a barrier comes before it, and a plain row's after it.
fn after_available(t: &Run, s: &[u64], a: usize) -> Set
    requires { (a < t.now.rows) × Opened (table_of t.now) t.now.rows s.now }
    ensures { Rows t.now.rows (behind (table_of t.now) a) result }
{
    if sets_of_table::rows(s, sets_of_table::PLAIN).has(a) {
        return sets_of_table::ask::after(t, s, a);
    }
    sets_of_table::ask::onward(t, s, a)
}

// Program order from the availability operation of row a.
fn put_available(t: &Run, s: &[u64], a: usize, w: &mut [u64])
    requires { (a < t.now.rows) × Given (table_of t.now) t.now.rows s.now w.old }
    ensures { PutsAvailable (table_of t.now) t.now.rows a w.old w.new }
{
    let after = sets_of_table::ask::after(t, s, a);
    let from = after_available(t, s, a);
    kept::put(w, sets_grids::AVAILABLE_AT, a, from);
    let visible = from & sets_of_table::rows(s, sets_of_table::VISIBLE);
    kept::put(w, sets_grids::AVAILABLE_VISIBLE, a, visible);
    let available = after & sets_of_table::rows(s, sets_of_table::AVAILABLE);
    kept::put(w, sets_grids::AVAILABLE_AVAILABLE, a, available);
}

// Program order of every row.
fn put_rows(t: &Run, s: &[u64], w: &mut [u64])
    requires { Given (table_of t.now) t.now.rows s.now w.old }
    ensures { MadeGrid HAPPENS AVAILABLE_AT HAPPENS t.now.rows (later_row (table_of t.now)) w.old w.new }
{
    for i in 0..t.rows {
        let after = sets_of_table::ask::after(t, s, i);
        kept::put(w, sets_grids::HAPPENS, i, after);
    }
}

// Program order of every availability operation.
fn put_availables(t: &Run, s: &[u64], w: &mut [u64])
    requires { Given (table_of t.now) t.now.rows s.now w.old × NoneAvailable w.old }
    ensures { MadeAvailables (table_of t.now) t.now.rows w.old w.new }
{
    for a in sets_of_table::rows(s, sets_of_table::AVAILABLE) {
        put_available(t, s, a, w);
    }
}

// Program order of every visibility operation.
fn put_visibles(t: &Run, s: &[u64], w: &mut [u64])
    requires { Given (table_of t.now) t.now.rows s.now w.old × Empty VISIBLE_VISIBLE w.old }
    ensures { let table = table_of t.now in
        MadeGrid VISIBLE_VISIBLE HAPPENS_END VISIBLE_VISIBLE t.now.rows (λ v u. program_order table (visibility_moment table v) (visibility_moment table u)) w.old w.new }
{
    let visible = sets_of_table::rows(s, sets_of_table::VISIBLE);
    for v in visible {
        let after = sets_of_table::ask::after(t, s, v) & visible;
        kept::put(w, sets_grids::VISIBLE_VISIBLE, v, after);
    }
}

// Program order of every row, and of every availability and visibility operation.
pub fn put_program_order(t: &Run, s: &[u64], w: &mut [u64])
    requires { Given (table_of t.now) t.now.rows s.now w.old }
    ensures { MadeProgram (table_of t.now) t.now.rows w.old w.new }
{
    bits::clear(w, sets_grids::HAPPENS, sets_grids::HAPPENS_END);
    put_rows(t, s, w);
    put_availables(t, s, w);
    put_visibles(t, s, w);
}

// ---- inter-thread order for one class set

// What a moment before the release rows r leads to: the first of them, and what it reaches.
fn by_release(r: Set, w: &[u64]) -> Set
    requires { WORK ≤ length w.now }
    ensures { (j : ℕ) → in_set result j ≡ by_first REACH_AT r w.now j }
{
    let Some(j) = r.first() else {
        return Set::none();
    };
    Set::bit(j) | kept::get(w, sets_grids::REACH_AT, j)
}

// What row i leads to: a node's own; of any other row that is concerned, by way of the first release row after it.
fn from_row(t: &Run, s: &[u64], k: Concerned, i: usize, w: &[u64]) -> Set
    requires { (i < t.now.rows) × Given (table_of t.now) t.now.rows s.now w.now }
    ensures { let table = table_of t.now in
        ((c : ℕ) (ends : Set) → Reached table t.now.rows c ends k s.now w.now → Rows t.now.rows (from_at table ends c i) result) }
{
    if k.nodes.has(i) {
        return kept::get(w, sets_grids::REACH_AT, i);
    }
    by_release(sets_of_table::ask::after(t, s, i) & k.releases, w)
}

// From rows.
pub fn add_at(t: &Run, s: &[u64], c: usize, ends: Set, k: Concerned, w: &mut [u64])
    requires { Reached (table_of t.now) t.now.rows c ends k s.now w.old }
    ensures { AddsAt (table_of t.now) t.now.rows c w.old w.new }
{
    for i in k.at | k.nodes {
        let to = from_row(t, s, k, i, w);
        kept::join(w, sets_grids::HAPPENS, i, to);
    }
}

// From the availability operation of row a, where r are the release rows behind it: by way of the first.
fn join_available(a: usize, r: Set, w: &mut [u64])
    requires { (a < ROWS) × (WORK ≤ length w.old) }
    ensures { JoinsAvailable a r w.old w.new }
{
    let Some(j) = r.first() else {
        return;
    };
    let to = by_release(r, w);
    let visible = kept::get(w, sets_grids::REACH_VISIBLE, j);
    let available = kept::get(w, sets_grids::REACH_AVAILABLE, j);
    kept::join(w, sets_grids::AVAILABLE_AT, a, to);
    kept::join(w, sets_grids::AVAILABLE_VISIBLE, a, visible);
    kept::join(w, sets_grids::AVAILABLE_AVAILABLE, a, available);
}

// From availability operations, by way of the first release row behind them, which may be their own.
pub fn add_available(t: &Run, s: &[u64], c: usize, ends: Set, k: Concerned, w: &mut [u64])
    requires { Reached (table_of t.now) t.now.rows c ends k s.now w.old }
    ensures { AddsAvailable (table_of t.now) t.now.rows c w.old w.new }
{
    for a in k.available {
        let r = after_available(t, s, a) & k.releases;
        join_available(a, r, w);
    }
}

// From the visibility operation of row v, where r are the release rows after it: by way of the first.
fn join_visible(v: usize, r: Set, w: &mut [u64])
    requires { (v < ROWS) × (WORK ≤ length w.old) }
    ensures { JoinsVisible v r w.old w.new }
{
    let Some(j) = r.first() else {
        return;
    };
    let visible = kept::get(w, sets_grids::REACH_VISIBLE, j);
    kept::join(w, sets_grids::VISIBLE_VISIBLE, v, visible);
}

// From visibility operations, by way of the first release row after them.
pub fn add_visible(t: &Run, s: &[u64], c: usize, ends: Set, k: Concerned, w: &mut [u64])
    requires { Reached (table_of t.now) t.now.rows c ends k s.now w.old }
    ensures { AddsVisible (table_of t.now) t.now.rows c w.old w.new }
{
    for v in k.visible {
        let r = sets_of_table::ask::after(t, s, v) & k.releases;
        join_visible(v, r, w);
    }
}
