// The four edges between rows. Some code reads none of the rows, places or number of rows that it is given: they say which table
// its contract is about.
ghost use Rattle.std.specs.Prelude.{◌≡◌, ◌≤◌, ◌<◌, length};
ghost use Rattle.bits.specs.Stage.{Made};
ghost use Rattle.model.specs.Limits.{ROWS};
ghost use Rattle.run.specs.Layout.{rows_in, table_of};
ghost use Rattle.model.specs.Table.{row_of};
ghost use Rattle.model.specs.Scope.{follows};
ghost use Rattle.model.specs.Edge.{reads_from, from_reads, edge_number, edge};
ghost use Rattle.finite.specs.Several.{TwoOf};
ghost use Rattle.work_area.specs.Regions.{EDGE, EDGE_END, GRID};
ghost use Rattle.find_race.specs.Bytes.{Ready};
ghost use Rattle.find_axioms.specs.Sources.{source_in};

use door_rows::pick;
use model::Row;
use run::Run;

// Edge 2: whether y follows x in their scoped modification order.
// Ruled out: one that goes from the later rank to the earlier; one that holds of rows whose scopes are not shared.
pub fn follows_at(t: &Run, x: usize, y: usize, w: &[u64]) -> bool
    requires { (x < t.now.rows) × (y < t.now.rows) × Ready (table_of t.now) t.now.rows w.now }
    ensures { result ≡ follows (table_of t.now) x y }
{
    let r = t.row(x as u16);
    let q = t.row(y as u16);
    find_race::mutual_at(t, x, y, w) & door_rows::scopes::is_later_writer(t.counted(), q, r)
}

// Edge 2 from a source: a fill may hand in a number that is no row, so the rows are compared and not the bits.
pub fn follows_source(t: &Run, x: u16, y: usize, q: Row) -> bool
    requires { q ≡ row_of (rows_in t.now.bytes) y }
    ensures { result ≡ follows (table_of t.now) x y }
{
    let r = t.row(x);
    !(x as usize == y)
        & door_rows::scopes::is_mutual(t.places(), r, q)
        & door_rows::scopes::is_later_writer(t.counted(), q, r)
}

// Edge 3: whether x is the source of the reader y.
// Ruled out: one that goes from the reader to its source; one that holds of a y that does not read.
pub fn reads_from_at(t: &Run, src: &[u16], x: usize, y: usize) -> bool
    requires { (y < t.now.rows) × (t.now.rows ≤ ROWS) × (t.now.rows ≤ length src.now) }
    ensures { result ≡ reads_from (table_of t.now) (source_in src.now) x y }
{
    let s = crate::source_at(src, y);
    let q = t.row(y as u16);
    door_rows::kinds::reads(q) & (s.0 as usize == x)
}

// Edge 4, from-reads: whether the reader y goes to another row z: one that follows y's source, or any writer over its bytes if it
// read the initial value.
// Ruled out: one that leads from an RMW to itself; one that asks what follows y instead of y's source.
pub fn from_reads_at(t: &Run, src: &[u16], y: usize, z: usize) -> bool
    requires { TwoOf t.now.rows y z × (t.now.rows ≤ ROWS) × (t.now.rows ≤ length src.now) }
    ensures { result ≡ from_reads (table_of t.now) (source_in src.now) y z }
{
    let s = crate::source_at(src, y);
    let r = t.row(y as u16);
    let q = t.row(z as u16);
    let apart = !(y == z) & door_rows::kinds::reads(r);
    if s.is_initial() {
        return apart & (door_rows::kinds::writes(q) & run_rows::shared::overlap(r, q));
    }
    apart & follows_source(t, s.0, z, q)
}

// The lowest number of an edge from x to y, and 0 where there is none.
// Ruled out: one that gives 3 where edge 1 holds too; one that takes x for the reader in edge 3.
pub fn edge_number(t: &Run, src: &[u16], x: usize, y: usize, w: &[u64]) -> u16
    requires { TwoOf t.now.rows x y × (t.now.rows ≤ length src.now) × Ready (table_of t.now) t.now.rows w.now }
    ensures { result ≡ edge_number (table_of t.now) (source_in src.now) x y }
{
    let location = find_race::pair::before_some(t, x, y, w);
    let order = follows_at(t, x, y, w);
    let source = reads_from_at(t, src, x, y);
    let reader = from_reads_at(t, src, x, y);
    pick::either(
        location,
        1,
        pick::either(
            order,
            2,
            pick::either(source, 3, pick::either(reader, 4, 0)),
        ),
    )
}

// Whether there is an edge from x to y.
// Ruled out: one that leaves out what follows a reader's source; one that asks for edges from y to x.
fn edge_at(t: &Run, src: &[u16], x: usize, y: usize, w: &[u64]) -> bool
    requires { TwoOf t.now.rows x y × (t.now.rows ≤ length src.now) × Ready (table_of t.now) t.now.rows w.now }
    ensures { result ≡ edge (table_of t.now) (source_in src.now) x y }
{
    find_race::pair::before_some(t, x, y, w)
        | follows_at(t, x, y, w)
        | reads_from_at(t, src, x, y)
        | from_reads_at(t, src, x, y)
}

// The edges between n rows.
// Ruled out: one that leaves a bit of an earlier stage set; one that writes a word outside the edges' region.
pub fn fill_edges(t: &Run, src: &[u16], w: &mut [u64])
    requires { (t.now.rows ≤ length src.now) × Ready (table_of t.now) t.now.rows w.old }
    ensures { let table = table_of t.now in
        Made EDGE EDGE_END EDGE GRID t.now.rows (edge table (source_in src.now)) w.old w.new }
{
    bits::clear(w, work_area::EDGE, work_area::EDGE_END);
    for x in 0..t.rows {
        for y in 0..t.rows {
            let b = edge_at(t, src, x, y, w);
            work_area::grid::EDGE.put_if(w, x, y, b);
        }
    }
}
