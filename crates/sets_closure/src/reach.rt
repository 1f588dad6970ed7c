// M6 by sets of rows: inter-thread order for one class set, from its nodes. What a path goes by, between its ends, are nodes.
ghost use Rattle.std.specs.Prelude.{◌≡◌, true, not, ℕ, ◌≤◌, ◌<◌, length, eqb};
ghost use Rattle.finite.specs.Logic.{◌and◌, ◌or◌};
ghost use Rattle.model.specs.Limits.{ROWS, WORK};
ghost use Rattle.run.specs.Layout.{table_of};
ghost use Rattle.sets_of_rows.specs.declared.Set.{Set};
ghost use Rattle.sets_of_rows.specs.Member.{in_set};
ghost use Rattle.sets_of_rows.specs.Rows.{Rows};
ghost use Rattle.sets_grids.specs.Given.{Given};
ghost use Rattle.sets_grids.specs.Reach.{Asks, MadeReach};
ghost use Rattle.sets_closure.specs.Reaching.{Asking, own_of, held, PutDirect, Took, PutsAll, Searches, Closes, turn_of};

use run::Run;
use sets_grids::Concerned;
use sets_of_rows::{Set, kept};

// The rows to which direct cases lead from node h: synchronizes-with, release rows and, from an acquire row, any row after it that the
// class set concerns, and dependencies.
fn direct(t: &Run, s: &[u64], k: Concerned, h: usize, w: &[u64]) -> Set
    requires { (h < t.now.rows) × Given (table_of t.now) t.now.rows s.now w.now }
    ensures { (c : ℕ) (ends : Set) → Asking (table_of t.now) t.now.rows c ends k w.now → Rows t.now.rows (own_of (table_of t.now) c 0 h) result }
{
    let after = sets_of_table::ask::after(t, s, h);
    let sync = (kept::get(w, work_area::SYNC, h) & k.acquires).only_if(k.releases.has(h));
    let releases = (after & k.releases).only_if(k.at.has(h));
    let taking = (after & k.at).only_if(k.acquires.has(h));
    sync | releases | (taking | kept::get(w, sets_grids::DEPENDS, h))
}

// What direct cases lead to from node h.
fn put_direct(t: &Run, s: &[u64], k: Concerned, h: usize, w: &mut [u64])
    requires { (h < t.now.rows) × Given (table_of t.now) t.now.rows s.now w.old }
    ensures { PutDirect (table_of t.now) t.now.rows k h w.old w.new }
{
    let to = direct(t, s, k, h, w);
    let acquires = k.acquires.has(h);
    let onward = sets_of_table::ask::onward(t, s, h);
    let after = sets_of_table::ask::after(t, s, h);
    let visible = (onward & k.visible).only_if(acquires);
    let available = (after & k.available).only_if(acquires);
    kept::put(w, sets_grids::REACH_AT, h, to);
    kept::put(w, sets_grids::REACH_VISIBLE, h, visible);
    kept::put(w, sets_grids::REACH_AVAILABLE, h, available);
}

// Node h takes in what node j reaches.
fn take_in(h: usize, j: usize, w: &mut [u64])
    requires { (h < ROWS) × (j < ROWS) × (WORK ≤ length w.old) }
    ensures { Took h j w.old w.new }
{
    let to = kept::get(w, sets_grids::REACH_AT, j);
    let visible = kept::get(w, sets_grids::REACH_VISIBLE, j);
    let available = kept::get(w, sets_grids::REACH_AVAILABLE, j);
    kept::join(w, sets_grids::REACH_AT, h, to);
    kept::join(w, sets_grids::REACH_VISIBLE, h, visible);
    kept::join(w, sets_grids::REACH_AVAILABLE, h, available);
}

// Direct cases from every node.
fn put_all_direct(t: &Run, s: &[u64], k: Concerned, w: &mut [u64])
    requires { ((j : ℕ) → in_set k.nodes j ≡ true → j < t.now.rows) × Given (table_of t.now) t.now.rows s.now w.old }
    ensures { PutsAll (table_of t.now) t.now.rows k w.old w.new }
{
    for h in k.nodes {
        put_direct(t, s, k, h, w);
    }
}

// The nodes that node h reaches, as far as is known, and that aren't seen.
fn ahead(h: usize, nodes: Set, seen: Set, w: &[u64]) -> Set
    requires { (h < ROWS) × (WORK ≤ length w.now) }
    ensures { (y : ℕ) → in_set result y ≡ (held w.now 0 h y and in_set nodes y and not (in_set seen y)) }
{
    (kept::get(w, sets_grids::REACH_AT, h) & nodes) - seen
}

// What needs no look once node j is taken in: j, and what it reaches if it has all of that.
fn behind(j: usize, waiting: Set, w: &[u64]) -> Set
    requires { (j < ROWS) × (WORK ≤ length w.now) }
    ensures { (y : ℕ) → in_set result y ≡ (eqb y j or (not (in_set waiting j) and held w.now 0 j y)) }
{
    Set::bit(j) | kept::get(w, sets_grids::REACH_AT, j).only_if(!waiting.has(j))
}

// Node h takes in all that it reaches, from node to node; nodes that aren't `waiting` have all that they reach.
fn search(h: usize, nodes: Set, waiting: Set, w: &mut [u64])
    requires { (h < ROWS) × (WORK ≤ length w.old) }
    ensures { Searches h nodes waiting w.old w.new }
{
    let mut seen = Set::none();
    let mut left = ahead(h, nodes, seen, w);
    while let Some(j) = left.first() {
        take_in(h, j, w);
        seen |= behind(j, waiting, w);
        left = ahead(h, nodes, seen, w);
    }
}

// The row whose turn is the i-th of n.
fn turn(n: usize, down: bool, i: usize) -> usize
    requires { i < n }
    ensures { (result ≡ turn_of n down i) × (result < n) }
{
    if down { n - 1 - i } else { i }
}

// A search from each node. Where every direct case leads down the page, up the page, so that what a node leads to is done before it; that
// saves time, and any order is right.
fn close(n: usize, nodes: Set, down: bool, w: &mut [u64])
    requires { (n ≤ ROWS) × (WORK ≤ length w.old) }
    ensures { Closes n nodes w.old w.new }
{
    let mut waiting = nodes;
    for i in 0..n {
        let h = turn(n, down, i);
        if !waiting.has(h) {
            continue;
        }
        search(h, nodes, waiting, w);
        waiting = waiting.without(h);
    }
}

// REACH_AT, REACH_VISIBLE and REACH_AVAILABLE of the nodes of the class set c; `down` says whether synchronizes-with and dependencies lead
// down the page.
pub fn fill_reach(t: &Run, s: &[u64], c: usize, ends: Set, k: Concerned, down: bool, w: &mut [u64])
    requires { Asks (table_of t.now) t.now.rows c ends k s.now w.old }
    ensures { MadeReach (table_of t.now) t.now.rows c ends w.old w.new }
{
    put_all_direct(t, s, k, w);
    close(t.rows, k.nodes, down, w);
}
