// A fill's choice by sets of rows: the source that each blank must have.
#![tactic(auto)]

ghost use Rattle.std.specs.Prelude.{◌≡◌, true, ◌≤◌, ◌<◌, length, get_or};
ghost use Rattle.finite.specs.Below.{any_below, least};
ghost use Rattle.model.specs.Row.{access};
ghost use Rattle.model.specs.Table.{row_of};
ghost use Rattle.model.specs.Fill.{not_before_at, written_by, between, candidate, choice, chosen};
ghost use Rattle.run.specs.Layout.{rows_in, table_of};
ghost use Rattle.sets_of_rows.specs.Member.{in_set};
ghost use Rattle.sets_of_rows.specs.Rows.{Rows};
ghost use Rattle.sets_bytes.specs.Masks.{Mask};
ghost use Rattle.finite.specs.Several.{TwoOf};
ghost use Rattle.sets_grids.specs.RowThat.{RowThat};
ghost use Rattle.sets_grids.specs.Location.{ToJudge, Judged};
ghost use Rattle.find_sources.specs.Sources.{Listed};
ghost use Rattle.find_sources.specs.Choice.{chosen_from};
ghost use Rattle.sets_choice.specs.Choosing.{Choosing};

use door_rows::kinds;
use model::Source;
use run::Run;
use sets_of_rows::{Set, kept};

// A blank, and the writers that are ordered before it.
#[derive(Clone, Copy)]
struct Blank {
    y: usize,
    writers: Set,
}

// ---- candidates

// The writers that are ordered before y.
fn writers_before(t: &Run, s: &[u64], y: usize, w: &[u64]) -> Set
    requires { (y < t.now.rows) × ToJudge (table_of t.now) t.now.rows s.now w.now }
    ensures { Rows t.now.rows (written_by (table_of t.now) y) result }
{
    let mut all = Set::none();
    for z in kept::get(w, work_area::OVERLAP, y) & sets_of_table::rows(s, sets_of_table::WRITES) {
        let ordered = kept::get(w, sets_grids::SOME, z).has(y);
        all |= Set::bit(z).only_if(ordered);
    }
    all
}

// The bytes of y at which the source isn't ordered before it.
fn missed(t: &Run, source: usize, y: usize, w: &[u64]) -> u64
    requires { TwoOf t.now.rows source y × Judged (table_of t.now) t.now.rows w.now }
    ensures { Mask (not_before_at (table_of t.now) y source) result }
{
    let all = sets_bytes::shared(t, y, y);
    let ordered = sets_bytes::moved(t, work_area::pairs::mask(w, source, y), source, y);
    all ^ (all & ordered)
}

// Whether some writer comes between the source and y: in scoped order, or at a byte.
fn some_between(t: &Run, source: usize, blank: Blank, w: &[u64]) -> bool
    requires { (source < t.now.rows) × Choosing (table_of t.now) t.now.rows blank.y blank.writers w.now }
    ensures { result ≡ any_below t.now.rows (between (table_of t.now) blank.y source) }
{
    if (blank.writers & kept::get(w, sets_grids::LATER, source)).has_any() {
        return true;
    }
    for z in blank.writers & kept::get(w, sets_grids::SOME, source) {
        if 0 < sets_overwritten::overwrites(t, source, z, blank.y, w) {
            return true;
        }
    }
    false
}

// Whether y may have read the source, one of the writers before it. One that comes before y at each byte covers it.
fn is_candidate(t: &Run, source: usize, blank: Blank, w: &[u64]) -> bool
    requires { (in_set blank.writers source ≡ true) × Choosing (table_of t.now) t.now.rows blank.y blank.writers w.now }
    ensures { result ≡ candidate (table_of t.now) blank.y source }
{
    if 0 < missed(t, source, blank.y, w) {
        return false;
    }
    !some_between(t, source, blank, w)
}

// The first row that y may have read; n where there is none.
fn first_candidate(t: &Run, blank: Blank, w: &[u64]) -> usize
    requires { Choosing (table_of t.now) t.now.rows blank.y blank.writers w.now }
    ensures { (result ≡ least t.now.rows (candidate (table_of t.now) blank.y)) × (result ≤ t.now.rows) }
{
    for source in blank.writers {
        if is_candidate(t, source, blank, w) {
            return source;
        }
    }
    t.rows
}

// ---- choices

// The source that the blank y must have: the initial value where no writer comes before it; n where it can have none.
fn choice_of(t: &Run, s: &[u64], y: usize, w: &[u64]) -> u16
    requires { RowThat access (row_of (rows_in t.now.bytes)) t.now.rows y × ToJudge (table_of t.now) t.now.rows s.now w.now }
    ensures { result ≡ choice (table_of t.now) y }
{
    let writers = writers_before(t, s, y, w);
    if !writers.has_any() {
        return Source::INITIAL.0;
    }
    first_candidate(t, Blank { y, writers }, w) as u16
}

// The source of row i, which has `own`: its choice where it is a blank, else `own`.
fn chosen_at(t: &Run, s: &[u64], i: usize, own: u16, w: &[u64]) -> u16
    requires { (i < t.now.rows) × ToJudge (table_of t.now) t.now.rows s.now w.now }
    ensures { result ≡ chosen_from (table_of t.now) i own }
{
    let plain = kept::get(s, sets_of_table::BY_KIND, kinds::PLAIN_READ as usize);
    let source = Source::from(own);
    if plain.has(i) & source.is_blank() {
        return choice_of(t, s, i, w);
    }
    own
}

// Each blank's choice, and every other row's own source.
// Ruled out: one that takes for a blank a writer that was overwritten before it at any byte; one that leaves a blank that no writer
// comes before.
pub fn choose(t: &Run, src: &[u16], s: &[u64], w: &[u64]) -> [u16; 128]
    requires { (t.now.rows ≤ length src.now) × ToJudge (table_of t.now) t.now.rows s.now w.now }
    ensures { Listed (chosen (table_of t.now) (λ i. get_or src.now i 0)) t.now.rows result }
{
    let mut list = [0u16; 128];
    for i in 0..t.rows {
        let own = src[i];
        let c = chosen_at(t, s, i, own, w);
        list[i] = c;
    }
    list
}
