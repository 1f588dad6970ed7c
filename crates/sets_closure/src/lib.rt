// M6 by sets of rows: what a class set concerns, and which class sets are asked.
#![tactic(auto)]

ghost use Rattle.std.specs.Prelude.{◌≡◌, true, cond, ℕ, ◌≤◌, ◌<◌, length};
ghost use Rattle.std.specs.Int.Bits.{bit_and};
ghost use Rattle.model.specs.Synchronizes.{synchronizes};
ghost use Rattle.run.specs.Layout.{table_of};
ghost use Rattle.sets_of_rows.specs.Member.{in_set};
ghost use Rattle.sets_of_rows.specs.Rows.{Rows};
ghost use Rattle.work_area.specs.Regions.{SYNC};
ghost use Rattle.sets_of_table.specs.Known.{WORDS, Opened};
ghost use Rattle.sets_grids.specs.Grid.{Grid};
ghost use Rattle.sets_grids.specs.Given.{Given};
ghost use Rattle.sets_grids.specs.Concerns.{NONE, Told, Concerns};
ghost use Rattle.sets_closure.specs.Classes.{ClassSet, HoldsTo, meets_some};
ghost use Rattle.sets_closure.specs.Widest.{widest, synced_by};

pub mod reach; // M6: inter-thread order from the nodes of a class set

use run::Run;
use sets_grids::Concerned;
use sets_of_rows::{Set, kept};

// Nothing but dependencies, whose ends these are.
pub fn of_none(t: &Run, s: &[u64], ends: Set) -> Concerned
    requires { Told (table_of t.now) t.now.rows ends × Opened (table_of t.now) t.now.rows s.now }
    ensures { Concerns (table_of t.now) t.now.rows NONE ends result }
{
    let none = Set::none();
    Concerned {
        nodes: ends,
        releases: none,
        acquires: none,
        at: none,
        available: none,
        visible: none,
    }
}

// The rows whose semantics hold all of c.
fn holding(s: &[u64], c: usize) -> Set
    requires { (c < 16) × (WORDS ≤ length s.now) }
    ensures { HoldsTo s.now c 16 result }
{
    let mut a = Set::none();
    for m in 0..16 {
        let b = door_rows::kinds::holds(m as u8, c as u8);
        a |= kept::get(s, sets_of_table::BY_CLASSES, m).only_if(b);
    }
    a
}

// The rows that have a class of c: plain ones of their reference, the others of their semantics.
fn meeting(t: &Run, s: &[u64], c: usize) -> Set
    requires { (c < 16) × Opened (table_of t.now) t.now.rows s.now }
    ensures { Rows t.now.rows (meets_some (table_of t.now) c) result }
{
    let own = sets_of_table::ask::of_classes(t, s, c);
    let mut a = own & sets_of_table::rows(s, sets_of_table::PLAIN);
    for q in 0..4 {
        let b = sets_of_table::ask::holds_class(c, q);
        a |= kept::get(s, sets_of_table::HOLDING, q).only_if(b);
    }
    a
}

// The rows and moments that the class set c concerns.
pub fn of_classes(t: &Run, s: &[u64], ends: Set, c: usize) -> Concerned
    requires { ClassSet c × Told (table_of t.now) t.now.rows ends × Opened (table_of t.now) t.now.rows s.now }
    ensures { Concerns (table_of t.now) t.now.rows c ends result }
{
    let holds = holding(s, c);
    let meets = meeting(t, s, c);
    let releases = holds & sets_of_table::rows(s, sets_of_table::RELEASES);
    let acquires = holds & sets_of_table::rows(s, sets_of_table::ACQUIRES);
    Concerned {
        nodes: releases | acquires | ends,
        releases: releases,
        acquires: acquires,
        at: sets_of_table::ask::of_classes(t, s, c) | holds,
        available: meets & sets_of_table::rows(s, sets_of_table::AVAILABLE),
        visible: meets & sets_of_table::rows(s, sets_of_table::VISIBLE),
    }
}

// The classes that both sets of classes have, if b; else those of the first.
fn shared(b: bool, x: u8, y: u8) -> u8
    ensures { result ≡ cond b (bit_and x y) x }
{
    if b { x & y } else { x }
}

// Whether no class beside c is in the semantics of every row that holds all of c. If one is, the class set with it has the same holders,
// concerns no fewer moments, and so orders no less. Where no row holds all of c, every class is.
pub fn is_widest(t: &Run, s: &[u64], c: usize) -> bool
    requires { ClassSet c × Opened (table_of t.now) t.now.rows s.now }
    ensures { result ≡ widest (table_of t.now) c }
{
    let mut common = 15u8;
    for m in 0..16 {
        let held = door_rows::kinds::holds(m as u8, c as u8);
        let some = kept::get(s, sets_of_table::BY_CLASSES, m).has_any();
        common = shared(held & some, common, m as u8);
    }
    common == (c as u8)
}

// Whether a release row synchronizes-with an acquire row of the class set. If none does, and there are no dependencies, inter-thread order
// adds nothing to program order.
pub fn is_synced(t: &Run, s: &[u64], k: Concerned, w: &[u64]) -> bool
    requires { Given (table_of t.now) t.now.rows s.now w.now × Grid SYNC t.now.rows (synchronizes (table_of t.now)) w.now
        × ((j : ℕ) → in_set k.releases j ≡ true → j < t.now.rows) }
    ensures { result ≡ synced_by (table_of t.now) t.now.rows k }
{
    for a in k.releases {
        if (kept::get(w, work_area::SYNC, a) & k.acquires).has_any() {
            return true;
        }
    }
    false
}
