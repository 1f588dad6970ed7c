// The source that each blank plain read must have.
ghost use Rattle.std.specs.Prelude.{◌≡◌, ◌≤◌, ◌<◌, length, get_or};
ghost use Rattle.finite.specs.Below.{any_below, least};
ghost use Rattle.model.specs.Limits.{LONGEST};
ghost use Rattle.run.specs.Layout.{table_of};
ghost use Rattle.model.specs.Fill.{not_before_at, candidate, choice, chosen};
ghost use Rattle.finite.specs.Several.{TwoOf};
ghost use Rattle.find_race.specs.Bytes.{Ready};
ghost use Rattle.find_sources.specs.Sources.{Listed};
ghost use Rattle.find_sources.specs.Choice.{chosen_from};

use crate::writers;
use model::Source;
use run::Run;

// ---- candidates

// Whether s is not ordered before y at y's k-th byte.
fn misses_at(t: &Run, y: usize, s: usize, k: usize, w: &[u64]) -> bool
    requires { TwoOf t.now.rows y s × (k < LONGEST) × Ready (table_of t.now) t.now.rows w.now }
    ensures { result ≡ not_before_at (table_of t.now) y s k }
{
    let r = t.row(y as u16);
    let b = (r.start as u32) + (k as u32);
    door_rows::kinds::touches(r, b) & !find_race::before_byte(t, s, y, b, w)
}

// Whether s is not ordered before y at some byte of y.
pub fn some_miss(t: &Run, y: usize, s: usize, w: &[u64]) -> bool
    requires { (y < t.now.rows) × (s < t.now.rows) × Ready (table_of t.now) t.now.rows w.now }
    ensures { result ≡ any_below LONGEST (not_before_at (table_of t.now) y s) }
{
    for k in 0..work_area::PAIR {
        if misses_at(t, y, s, k, w) {
            return true;
        }
    }
    false
}

// Whether y may have read s: s covers y, comes before y at each byte, and nothing comes between.
pub fn candidate_at(t: &Run, y: usize, s: usize, w: &[u64]) -> bool
    requires { (y < t.now.rows) × (s < t.now.rows) × Ready (table_of t.now) t.now.rows w.now }
    ensures { result ≡ candidate (table_of t.now) y s }
{
    let from = Source::from(s as u16);
    if !door_admit::table_faults::writer_fits(t.row_bytes(), t.rows as u16, y as u16, from) {
        return false;
    }
    if some_miss(t, y, s, w) {
        return false;
    }
    !writers::some_between(t, y, s, w)
}

// The first row that y may have read; n where there is none.
pub fn first_candidate(t: &Run, y: usize, w: &[u64]) -> usize
    requires { (y < t.now.rows) × Ready (table_of t.now) t.now.rows w.now }
    ensures { (result ≡ least t.now.rows (candidate (table_of t.now) y)) × (result ≤ t.now.rows) }
{
    for s in 0..t.rows {
        if candidate_at(t, y, s, w) {
            return s;
        }
    }
    t.rows
}

// ---- choices

// The source that the blank y must have: the initial value where no writer comes before it; n where it can have none.
pub fn choice_of(t: &Run, y: usize, w: &[u64]) -> u16
    requires { (y < t.now.rows) × Ready (table_of t.now) t.now.rows w.now }
    ensures { result ≡ choice (table_of t.now) y }
{
    if !writers::is_written(t, y, w) {
        return Source::INITIAL.0;
    }
    first_candidate(t, y, w) as u16
}

// The source of row i, which has s: its choice where it is a blank, else s.
fn chosen_at(t: &Run, i: usize, s: u16, w: &[u64]) -> u16
    requires { (i < t.now.rows) × Ready (table_of t.now) t.now.rows w.now }
    ensures { result ≡ chosen_from (table_of t.now) i s }
{
    let r = t.row(i as u16);
    let own = Source::from(s);
    if door_rows::kinds::is_plain_read(r) & own.is_blank() {
        return choice_of(t, i, w);
    }
    s
}

// Each blank's choice, and every other row's own source.
// Ruled out: one that chooses for a plain read that names its source; one that takes for a blank a writer that was overwritten
// before it at any byte.
pub fn choose(t: &Run, src: &[u16], w: &[u64]) -> [u16; 128]
    requires { (t.now.rows ≤ length src.now) × Ready (table_of t.now) t.now.rows w.now }
    ensures { Listed (chosen (table_of t.now) (λ i. get_or src.now i 0)) t.now.rows result }
{
    let mut list = [0u16; 128];
    for (i, s) in src[..t.rows].iter().enumerate() {
        list[i] = chosen_at(t, i, *s, w);
    }
    list
}
