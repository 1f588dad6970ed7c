// M5: the rows that carry a release to an acquire, from the bits of mutually-ordered rows and of release sequences.
ghost use Rattle.std.specs.Prelude.{◌≡◌, ◌≤◌, length};
ghost use Rattle.finite.specs.Below.{any_below};
ghost use Rattle.model.specs.Limits.{WORK};
ghost use Rattle.run.specs.Layout.{table_of};
ghost use Rattle.model.specs.Synchronizes.{takes_from, carries_out, carries_in, carries_over};
ghost use Rattle.finite.specs.Several.{TwoOf, ThreeOf};
ghost use Rattle.work_area.specs.Synced.{Sequenced};

use run::Run;
use run_rows::carriers;

// M5: whether row y reads from the sequence that the writer x heads, the two being mutually-ordered. Few rows are, so their bit
// is read first.
pub fn takes_from_at(t: &Run, x: usize, y: usize, w: &[u64]) -> bool
    requires { TwoOf t.now.rows x y × (WORK ≤ length w.now) × Sequenced (table_of t.now) t.now.rows w.now }
    ensures { result ≡ takes_from (table_of t.now) x y }
{
    if !work_area::grid::MUTUAL.get(w, x, y) {
        return false;
    }
    let s = t.atomic_source(y as u16);
    let k = s.0 as usize;
    if t.rows <= k {
        return false;
    }
    let r = t.row(x as u16);
    let q = t.row(y as u16);
    let b = work_area::grid::SEQUENCE.get(w, x, k);
    door_rows::kinds::writes(r) & door_rows::kinds::reads(q) & b
}

// M5: whether x carries the release of the barrier a to the atomic b.
fn carries_out_at(t: &Run, a: usize, b: usize, x: usize, w: &[u64]) -> bool
    requires { ThreeOf t.now.rows a b x × (WORK ≤ length w.now) × Sequenced (table_of t.now) t.now.rows w.now }
    ensures { result ≡ carries_out (table_of t.now) a b x }
{
    if !takes_from_at(t, x, b, w) {
        return false;
    }
    carriers::leads_at(t, a, x)
}

// M5: whether some writer carries the release of the barrier a to the atomic b.
pub fn is_carried_out(t: &Run, a: usize, b: usize, w: &[u64]) -> bool
    requires { TwoOf t.now.rows a b × (WORK ≤ length w.now) × Sequenced (table_of t.now) t.now.rows w.now }
    ensures { result ≡ any_below t.now.rows (carries_out (table_of t.now) a b) }
{
    for x in 0..t.rows {
        if carries_out_at(t, a, b, x, w) {
            return true;
        }
    }
    false
}

// M5: whether y carries the release of the atomic a to the barrier b.
fn carries_in_at(t: &Run, a: usize, b: usize, y: usize, w: &[u64]) -> bool
    requires { ThreeOf t.now.rows a b y × (WORK ≤ length w.now) × Sequenced (table_of t.now) t.now.rows w.now }
    ensures { result ≡ carries_in (table_of t.now) a b y }
{
    if !takes_from_at(t, a, y, w) {
        return false;
    }
    carriers::trails_at(t, b, y)
}

// M5: whether some reader carries the release of the atomic a to the barrier b.
pub fn is_carried_in(t: &Run, a: usize, b: usize, w: &[u64]) -> bool
    requires { TwoOf t.now.rows a b × (WORK ≤ length w.now) × Sequenced (table_of t.now) t.now.rows w.now }
    ensures { result ≡ any_below t.now.rows (carries_in (table_of t.now) a b) }
{
    for y in 0..t.rows {
        if carries_in_at(t, a, b, y, w) {
            return true;
        }
    }
    false
}

// M5: whether x, and a row that reads from its sequence, carry the release of the barrier a to the barrier b.
fn carries_over_at(t: &Run, a: usize, b: usize, x: usize, w: &[u64]) -> bool
    requires { ThreeOf t.now.rows a b x × (WORK ≤ length w.now) × Sequenced (table_of t.now) t.now.rows w.now }
    ensures { result ≡ carries_over (table_of t.now) a b x }
{
    if !carriers::leads_at(t, a, x) {
        return false;
    }
    is_carried_in(t, x, b, w)
}

// M5: whether some writer, and a row that reads from its sequence, carry the release of the barrier a to the barrier b.
pub fn is_carried_over(t: &Run, a: usize, b: usize, w: &[u64]) -> bool
    requires { TwoOf t.now.rows a b × (WORK ≤ length w.now) × Sequenced (table_of t.now) t.now.rows w.now }
    ensures { result ≡ any_below t.now.rows (carries_over (table_of t.now) a b) }
{
    for x in 0..t.rows {
        if carries_over_at(t, a, b, x, w) {
            return true;
        }
    }
    false
}
