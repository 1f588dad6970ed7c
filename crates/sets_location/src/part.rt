// L3 by sets of rows, where an operation of a plain row covers its own bytes alone, so that a write may be met at some bytes and not at others.
ghost use Rattle.std.specs.Prelude.{◌≡◌, true, false, ℕ, ◌≤◌, ◌<◌, length};
ghost use Rattle.finite.specs.Below.{any_below};
ghost use Rattle.model.specs.Limits.{ROWS};
ghost use Rattle.model.specs.Row.{access, covers};
ghost use Rattle.model.specs.Table.{row_of};
ghost use Rattle.run.specs.Layout.{rows_in, table_of};
ghost use Rattle.sets_of_rows.specs.Member.{in_set};
ghost use Rattle.sets_of_rows.specs.Rows.{Rows};
ghost use Rattle.model_placing.specs.Elements.{seen};
ghost use Rattle.sets_of_table.specs.Fit.{Fit};
ghost use Rattle.sets_of_table.specs.Known.{WORDS, Opened};
ghost use Rattle.sets_bytes.specs.Masks.{Mask};
ghost use Rattle.finite.specs.Several.{TwoOf};
ghost use Rattle.sets_grids.specs.RowThat.{RowThat};
ghost use Rattle.sets_grids.specs.Given.{Fitting};
ghost use Rattle.sets_grids.specs.Location.{ToLocate};
ghost use Rattle.sets_location.specs.Seen.{Among, sees};
ghost use Rattle.sets_location.specs.Met.{Grasps};
ghost use Rattle.sets_location.specs.Adds.{Pair, Reader, MetBytes};
ghost use Rattle.sets_location.specs.Maybe.{Maybes};
ghost use Rattle.sets_location.specs.Elements.{plain_shown, wide_shown, byte_of, byte_to};

use run::Run;
use sets_of_rows::{Set, kept};
use sets_of_table::fields;

// What is made available of a write: by operations that cover all of its bytes, the rows to which they do, and those by whose visibility
// operations it is then visible; and the availability operations of plain rows that cover some of its bytes.
#[derive(Clone, Copy)]
pub struct Available {
    pub to: Set,
    pub by: Set,
    pub parts: Set,
}

// Whether row a has all bytes of x.
pub fn covers(t: &Run, a: usize, x: usize) -> bool
    requires { (a < ROWS) × (x < ROWS) }
    ensures { result ≡ covers (row_of (rows_in t.now.bytes) a) (row_of (rows_in t.now.bytes) x) }
{
    (fields::start(t, a) <= fields::start(t, x)) & (fields::end(t, x) <= fields::end(t, a))
}

// The rows after the visibility operation of row v; that of a plain row comes before it.
fn seen_by(t: &Run, s: &[u64], plain: bool, v: usize) -> Set
    requires { (v < t.now.rows) × Opened (table_of t.now) t.now.rows s.now }
    ensures { Rows t.now.rows (sees (table_of t.now) plain v) result }
{
    if plain {
        return sets_of_table::ask::onward(t, s, v);
    }
    sets_of_table::ask::after(t, s, v)
}

// The rows after one of the visibility operations, all of plain rows or all of others: for each agent those after its first.
pub fn seen(t: &Run, s: &[u64], plain: bool, operations: Set) -> Set
    requires { Among t.now.rows operations × Opened (table_of t.now) t.now.rows s.now }
    ensures { Rows t.now.rows (seen (table_of t.now) plain (in_set operations)) result }
{
    let mut left = operations;
    let mut all = Set::none();
    while let Some(v) = left.first() {
        all |= seen_by(t, s, plain, v);
        left = left - sets_of_table::ask::of_agent(t, s, v);
    }
    all
}

// The visibility operations of plain rows that cover x's reference, and those of the others that cover its class.
fn plain_visible(s: &[u64], x: usize) -> Set
    requires { (x < ROWS) × (WORDS ≤ length s.now) }
    ensures { (j : ℕ) → in_set result j ≡ plain_shown s.now x j }
{
    let plain = sets_of_table::rows(s, sets_of_table::VISIBLE)
        & sets_of_table::rows(s, sets_of_table::PLAIN);
    plain & kept::get(s, sets_of_table::REFERENCE, x)
}

pub fn wide_visible(t: &Run, s: &[u64], x: usize) -> Set
    requires { (x < ROWS) × ((row_of (rows_in t.now.bytes) x).class < 4) × (WORDS ≤ length s.now) }
    ensures { (j : ℕ) → in_set result j ≡ wide_shown s.now (row_of (rows_in t.now.bytes) x).class j }
{
    let class = kept::get(s, sets_of_table::HOLDING, fields::class(t, x));
    (sets_of_table::rows(s, sets_of_table::VISIBLE) & class)
        - sets_of_table::rows(s, sets_of_table::PLAIN)
}

// The rows that may meet some byte of x: what is made available in part, or is visible by way of plain rows.
pub fn maybe_met(t: &Run, s: &[u64], x: usize, g: Available, w: &[u64]) -> Set
    requires { RowThat access (table_of t.now).row t.now.rows x × ToLocate (table_of t.now) t.now.rows s.now w.now × Grasps (table_of t.now) t.now.rows x g }
    ensures { Maybes (table_of t.now) t.now.rows x result }
{
    let reads = sets_of_table::rows(s, sets_of_table::READS);
    let at = kept::union(w, sets_grids::AVAILABLE_TO, g.parts);
    let visible = kept::union(w, sets_grids::VISIBLE_BY, g.parts);
    let wide = seen(t, s, false, visible & wide_visible(t, s, x));
    let by = (visible | g.by) & plain_visible(s, x);
    let plain = seen(t, s, true, by);
    (at - reads) | ((wide | plain) & reads)
}

// The bytes of x that one of the rows has.
fn bytes_of(t: &Run, x: usize, rows: Set) -> u64
    requires { (x < t.now.rows) × Among t.now.rows rows × Fit (table_of t.now) }
    ensures { Mask (λ k. any_below ROWS (byte_of (table_of t.now) x rows k)) result }
{
    let mut m = 0u64;
    for y in rows {
        m |= sets_bytes::shared(t, x, y);
    }
    m
}

// The bytes of x that y, which doesn't read, meets: those of the operations that make it available to y.
fn bytes_at_once(t: &Run, x: usize, y: usize, g: Available, w: &[u64]) -> u64
    requires { TwoOf t.now.rows x y × Fitting (table_of t.now) t.now.rows w.now × Among t.now.rows g.parts }
    ensures { Mask (λ k. any_below ROWS (byte_to (table_of t.now) w.now x y g.parts k)) result }
{
    let mut m = 0u64;
    for a in g.parts {
        if kept::get(w, sets_grids::AVAILABLE_TO, a).has(y) {
            m |= sets_bytes::shared(t, x, a);
        }
    }
    m
}

// The bytes of x that the reader y meets: of each availability operation those that a visibility operation of y covers.
fn bytes_seen(t: &Run, s: &[u64], x: usize, y: usize, g: Available, w: &[u64]) -> u64
    requires { Reader (table_of t.now) t.now.rows x y × ToLocate (table_of t.now) t.now.rows s.now w.now × Grasps (table_of t.now) t.now.rows x g }
    ensures { MetBytes (table_of t.now) x y result }
{
    let upto = sets_of_table::ask::of_agent(t, s, y) - Set::above(y);
    let wide = (wide_visible(t, s, x) & upto).without(y);
    let plain = plain_visible(s, x) & upto;
    let mut m = bytes_of(t, x, g.by & plain);
    for a in g.parts {
        let own = sets_bytes::shared(t, x, a);
        let visible = kept::get(w, sets_grids::VISIBLE_BY, a);
        if (visible & wide).has_any() {
            m |= own;
        } else {
            m |= own & bytes_of(t, x, visible & plain);
        }
    }
    m
}

// The bytes of x that y meets by way of operations of plain rows.
pub fn bytes_met(t: &Run, s: &[u64], x: usize, y: usize, g: Available, w: &[u64]) -> u64
    requires { Pair (table_of t.now) t.now.rows x y × ToLocate (table_of t.now) t.now.rows s.now w.now × Grasps (table_of t.now) t.now.rows x g }
    ensures { MetBytes (table_of t.now) x y result }
{
    if sets_of_table::rows(s, sets_of_table::READS).has(y) {
        return bytes_seen(t, s, x, y, g, w);
    }
    bytes_at_once(t, x, y, g, w)
}
