// M4 and M5 as the page says them, from the rows alone: no work area, so that nothing that an engine made has to be believed.
ghost use Rattle.std.specs.Prelude.{◌≡◌, ◌≤◌, ◌<◌};
ghost use Rattle.finite.specs.Below.{any_below};
ghost use Rattle.model.specs.Limits.{ROWS};
ghost use Rattle.run.specs.Layout.{table_of};
ghost use Rattle.model.specs.Synchronizes.{ends, sequence, takes_from, carries_out, carries_in, carries_over, synchronizes};

use door_rows::kinds;
use run::Run;
use run_rows::{carriers, control, sequences};

// M4: whether some row ends the sequence that row a heads no later than row x.
fn is_ended(t: &Run, a: usize, x: usize) -> bool
    requires { (t.now.rows ≤ ROWS) × (a < t.now.rows) × (x < t.now.rows) }
    ensures { result ≡ any_below t.now.rows (ends (table_of t.now) a x) }
{
    let h = t.row(a as u16);
    let r = t.row(x as u16);
    for z in 0..t.rows {
        let b = sequences::mutual_at(t, a, z);
        let q = t.row(z as u16);
        if sequences::is_end(t.counted(), b, h, r, q) {
            return true;
        }
    }
    false
}

// M4: whether row x is in the release sequence that row a heads.
fn sequence_at(t: &Run, a: usize, x: usize) -> bool
    requires { (t.now.rows ≤ ROWS) × (a < t.now.rows) × (x < t.now.rows) }
    ensures { result ≡ sequence (table_of t.now) a x }
{
    let h = t.row(a as u16);
    let r = t.row(x as u16);
    let follows = sequences::mutual_at(t, a, x)
        & door_rows::scopes::is_later_writer(t.counted(), r, h);
    (a == x) | follows & !is_ended(t, a, x)
}

// M5: whether row y reads from the sequence that the writer x heads, the two being mutually-ordered.
fn takes_from(t: &Run, x: usize, y: usize) -> bool
    requires { (t.now.rows ≤ ROWS) × (x < t.now.rows) × (y < t.now.rows) }
    ensures { result ≡ takes_from (table_of t.now) x y }
{
    if !sequences::mutual_at(t, x, y) {
        return false;
    }
    let k = t.atomic_source(y as u16).0 as usize;
    if t.rows <= k {
        return false;
    }
    let r = t.row(x as u16);
    let q = t.row(y as u16);
    kinds::writes(r) & kinds::reads(q) & sequence_at(t, x, k)
}

// M5: whether some writer after the barrier a carries its release to the atomic b.
fn is_carried_out(t: &Run, a: usize, b: usize) -> bool
    requires { (t.now.rows ≤ ROWS) × (a < t.now.rows) × (b < t.now.rows) }
    ensures { result ≡ any_below t.now.rows (carries_out (table_of t.now) a b) }
{
    for x in 0..t.rows {
        if carriers::leads_at(t, a, x) & takes_from(t, x, b) {
            return true;
        }
    }
    false
}

// M5: whether some reader before the barrier b carries the release of row a to it.
fn is_carried_in(t: &Run, a: usize, b: usize) -> bool
    requires { (t.now.rows ≤ ROWS) × (a < t.now.rows) × (b < t.now.rows) }
    ensures { result ≡ any_below t.now.rows (carries_in (table_of t.now) a b) }
{
    for y in 0..t.rows {
        if carriers::trails_at(t, b, y) & takes_from(t, a, y) {
            return true;
        }
    }
    false
}

// M5: whether a writer after the barrier a and a reader before the barrier b carry the release of the one to the other.
fn is_carried_over(t: &Run, a: usize, b: usize) -> bool
    requires { (t.now.rows ≤ ROWS) × (a < t.now.rows) × (b < t.now.rows) }
    ensures { result ≡ any_below t.now.rows (carries_over (table_of t.now) a b) }
{
    for x in 0..t.rows {
        if carriers::leads_at(t, a, x) & is_carried_in(t, x, b) {
            return true;
        }
    }
    false
}

// M5: whether the release row a synchronizes-with the acquire row b.
// Ruled out: one that lets a barrier synchronize with itself; one that asks the scope of one row alone.
pub fn sync_at(t: &Run, a: usize, b: usize) -> bool
    requires { (t.now.rows ≤ ROWS) × (a < t.now.rows) × (b < t.now.rows) }
    ensures { result ≡ synchronizes (table_of t.now) a b }
{
    let r = t.row(a as u16);
    let q = t.row(b as u16);
    if !(kinds::releases(r) & kinds::acquires(q)) {
        return false;
    }
    let from = kinds::is_atomic(r);
    let to = kinds::is_atomic(q);
    if from & to {
        return takes_from(t, a, b);
    }
    let out = kinds::is_barrier(r);
    let into = kinds::is_barrier(q);
    let near = t.together(r, q);
    if out & to {
        return near & is_carried_out(t, a, b);
    }
    if from & into {
        return near & is_carried_in(t, a, b);
    }
    let apart = !(a == b) & out & into & near;
    apart & is_carried_over(t, a, b) | apart & control::is_passed(t, a, b)
}
