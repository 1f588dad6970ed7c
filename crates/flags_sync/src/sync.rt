// M5: synchronizes-with, as bits; and the stages that it takes, in order.
ghost use Rattle.std.specs.Prelude.{◌≡◌, ◌≤◌, ◌<◌, length};
ghost use Rattle.bits.specs.Stage.{Made};
ghost use Rattle.model.specs.Limits.{ROWS, WORK};
ghost use Rattle.finite.specs.Logic.{◌and◌};
ghost use Rattle.run.specs.Layout.{places_in, table_of};
ghost use Rattle.model.specs.Scope.{together};
ghost use Rattle.model.specs.Synchronizes.{sync_atomics, sync_from_barrier, sync_to_barrier, sync_barriers, sync_control, synchronizes};
ghost use Rattle.finite.specs.Several.{TwoOf};
ghost use Rattle.work_area.specs.Regions.{SYNC, SYNC_END, GRID};
ghost use Rattle.work_area.specs.Synced.{Sequenced, MadeSynced};

use crate::{carriers, heads};
use model::Row;
use run::Run;
use run_rows::control;

// ---- the cases of M5

// M5: a release atomic a, an acquire atomic b.
fn sync_atomics(t: &Run, a: usize, b: usize, w: &[u64]) -> bool
    requires { TwoOf t.now.rows a b × (WORK ≤ length w.now) × Sequenced (table_of t.now) t.now.rows w.now }
    ensures { result ≡ sync_atomics (table_of t.now) a b }
{
    let r = t.row(a as u16);
    let q = t.row(b as u16);
    door_rows::kinds::is_atomic(r)
        & door_rows::kinds::is_atomic(q)
        & carriers::takes_from_at(t, a, b, w)
}

// Whether the agents of two rows share both rows' scopes. Places are read only where it is asked.
fn is_near(t: &Run, asked: bool, r: Row, q: Row) -> bool
    ensures { result ≡ (asked and together (places_in t.now.bytes) r q) }
{
    if !asked {
        return false;
    }
    t.together(r, q)
}

// M5: a release barrier a, an acquire atomic b.
fn sync_from_barrier(t: &Run, a: usize, b: usize, w: &[u64]) -> bool
    requires { TwoOf t.now.rows a b × (WORK ≤ length w.now) × Sequenced (table_of t.now) t.now.rows w.now }
    ensures { result ≡ sync_from_barrier (table_of t.now) a b }
{
    let r = t.row(a as u16);
    let q = t.row(b as u16);
    if !is_near(
        t,
        door_rows::kinds::is_barrier(r) & door_rows::kinds::is_atomic(q),
        r,
        q,
    ) {
        return false;
    }
    carriers::is_carried_out(t, a, b, w)
}

// M5: a release atomic a, an acquire barrier b.
fn sync_to_barrier(t: &Run, a: usize, b: usize, w: &[u64]) -> bool
    requires { TwoOf t.now.rows a b × (WORK ≤ length w.now) × Sequenced (table_of t.now) t.now.rows w.now }
    ensures { result ≡ sync_to_barrier (table_of t.now) a b }
{
    let r = t.row(a as u16);
    let q = t.row(b as u16);
    if !is_near(
        t,
        door_rows::kinds::is_atomic(r) & door_rows::kinds::is_barrier(q),
        r,
        q,
    ) {
        return false;
    }
    carriers::is_carried_in(t, a, b, w)
}

// M5: a release barrier a, an acquire barrier b.
fn sync_barriers(t: &Run, a: usize, b: usize, w: &[u64]) -> bool
    requires { TwoOf t.now.rows a b × (WORK ≤ length w.now) × Sequenced (table_of t.now) t.now.rows w.now }
    ensures { result ≡ sync_barriers (table_of t.now) a b }
{
    let r = t.row(a as u16);
    let q = t.row(b as u16);
    let asked = !(a == b) & door_rows::kinds::is_barrier(r) & door_rows::kinds::is_barrier(q);
    if !is_near(t, asked, r, q) {
        return false;
    }
    carriers::is_carried_over(t, a, b, w)
}

// M5: a release barrier a, an acquire barrier b, and a control barrier, which either of them may be.
fn sync_control(t: &Run, a: usize, b: usize) -> bool
    requires { (t.now.rows ≤ ROWS) × (a < t.now.rows) × (b < t.now.rows) }
    ensures { result ≡ sync_control (table_of t.now) a b }
{
    let r = t.row(a as u16);
    let q = t.row(b as u16);
    let asked = !(a == b) & door_rows::kinds::is_barrier(r) & door_rows::kinds::is_barrier(q);
    if !is_near(t, asked, r, q) {
        return false;
    }
    control::is_passed(t, a, b)
}

// M5: whether the release row a synchronizes-with the acquire row b. Most rows are neither, so their orders are tested first.
pub fn sync_at(t: &Run, a: usize, b: usize, w: &[u64]) -> bool
    requires { TwoOf t.now.rows a b × (WORK ≤ length w.now) × Sequenced (table_of t.now) t.now.rows w.now }
    ensures { result ≡ synchronizes (table_of t.now) a b }
{
    let r = t.row(a as u16);
    let q = t.row(b as u16);
    if !(door_rows::kinds::releases(r) & door_rows::kinds::acquires(q)) {
        return false;
    }
    sync_atomics(t, a, b, w)
        | sync_from_barrier(t, a, b, w)
        | sync_to_barrier(t, a, b, w)
        | sync_barriers(t, a, b, w)
        | sync_control(t, a, b)
}

// ---- stages

// M5 for every two rows.
pub fn fill_sync(t: &Run, w: &mut [u64])
    requires { (t.now.rows ≤ ROWS) × (WORK ≤ length w.old) × Sequenced (table_of t.now) t.now.rows w.old }
    ensures { Made SYNC SYNC_END SYNC GRID t.now.rows (synchronizes (table_of t.now)) w.old w.new }
{
    bits::clear(w, work_area::SYNC, work_area::SYNC_END);
    for a in 0..t.rows {
        for b in 0..t.rows {
            let d = sync_at(t, a, b, w);
            work_area::grid::SYNC.put_if(w, a, b, d);
        }
    }
}

// M3, M4 and M5: mutually-ordered rows, release sequences, synchronizes-with.
// Ruled out: one that leaves the sequences' old bits set; one that makes synchronizes-with before the sequences.
pub fn make_synced(t: &Run, w: &mut [u64])
    requires { (t.now.rows ≤ ROWS) × (WORK ≤ length w.old) }
    ensures { MadeSynced (table_of t.now) t.now.rows w.old w.new }
{
    heads::fill_mutual(t, w);
    heads::fill_sequence(t, w);
    fill_sync(t, w);
}
