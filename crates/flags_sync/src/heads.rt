// M3 and M4: mutually-ordered rows and release sequences, as bits.
ghost use Rattle.std.specs.Prelude.{◌≡◌, ◌≤◌, length};
ghost use Rattle.finite.specs.Below.{any_below};
ghost use Rattle.bits.specs.Stage.{Holds, Made};
ghost use Rattle.model.specs.Limits.{ROWS, WORK};
ghost use Rattle.run.specs.Layout.{table_of};
ghost use Rattle.model.specs.Scope.{mutually, follows};
ghost use Rattle.model.specs.Synchronizes.{ends, sequence};
ghost use Rattle.finite.specs.Several.{TwoOf};
ghost use Rattle.work_area.specs.Regions.{MUTUAL, MUTUAL_END, SEQUENCE, SEQUENCE_END, GRID};

use run::Run;
use run_rows::sequences;

// ---- M3

// M3 for every two rows.
pub fn fill_mutual(t: &Run, w: &mut [u64])
    requires { (t.now.rows ≤ ROWS) × (WORK ≤ length w.old) }
    ensures { Made MUTUAL MUTUAL_END MUTUAL GRID t.now.rows (mutually (table_of t.now)) w.old w.new }
{
    bits::clear(w, work_area::MUTUAL, work_area::MUTUAL_END);
    for i in 0..t.rows {
        for j in 0..t.rows {
            let b = sequences::mutual_at(t, i, j);
            work_area::grid::MUTUAL.put_if(w, i, j, b);
        }
    }
}

// M3: whether row j follows row i in their scoped modification order.
pub fn follows_at(t: &Run, i: usize, j: usize, w: &[u64]) -> bool
    requires { TwoOf t.now.rows i j × (WORK ≤ length w.now) × Holds MUTUAL GRID t.now.rows (mutually (table_of t.now)) w.now }
    ensures { result ≡ follows (table_of t.now) i j }
{
    let r = t.row(i as u16);
    let q = t.row(j as u16);
    let b = work_area::grid::MUTUAL.get(w, i, j);
    b & door_rows::scopes::is_later_writer(t.counted(), q, r)
}

// ---- M4

// M4: whether some row ends the sequence of the head a no later than row x.
pub fn is_ended(t: &Run, a: usize, x: usize, w: &[u64]) -> bool
    requires { TwoOf t.now.rows a x × (WORK ≤ length w.now) × Holds MUTUAL GRID t.now.rows (mutually (table_of t.now)) w.now }
    ensures { result ≡ any_below t.now.rows (ends (table_of t.now) a x) }
{
    let h = t.row(a as u16);
    let r = t.row(x as u16);
    for z in 0..t.rows {
        let b = work_area::grid::MUTUAL.get(w, a, z);
        let q = t.row(z as u16);
        if sequences::is_end(t.counted(), b, h, r, q) {
            return true;
        }
    }
    false
}

// M4: whether row x is in the release sequence that row a heads. Only a row that follows a is held against the others.
pub fn sequence_at(t: &Run, a: usize, x: usize, w: &[u64]) -> bool
    requires { TwoOf t.now.rows a x × (WORK ≤ length w.now) × Holds MUTUAL GRID t.now.rows (mutually (table_of t.now)) w.now }
    ensures { result ≡ sequence (table_of t.now) a x }
{
    if !follows_at(t, a, x, w) {
        return a == x;
    }
    (a == x) | !is_ended(t, a, x, w)
}

// M4 for every two rows.
pub fn fill_sequence(t: &Run, w: &mut [u64])
    requires { (t.now.rows ≤ ROWS) × (WORK ≤ length w.old) × Holds MUTUAL GRID t.now.rows (mutually (table_of t.now)) w.old }
    ensures { Made SEQUENCE SEQUENCE_END SEQUENCE GRID t.now.rows
        (sequence (table_of t.now)) w.old w.new }
{
    bits::clear(w, work_area::SEQUENCE, work_area::SEQUENCE_END);
    for a in 0..t.rows {
        for x in 0..t.rows {
            let b = sequence_at(t, a, x, w);
            work_area::grid::SEQUENCE.put_if(w, a, x, b);
        }
    }
}
