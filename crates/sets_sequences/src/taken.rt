// M5 by sets of rows: the acquire rows that get what is read from the sequence that each atomic writer heads.
ghost use Rattle.std.specs.Prelude.{◌≡◌, true, ◌<◌};
ghost use Rattle.model.specs.Row.{atomic};
ghost use Rattle.model.specs.Table.{row_of};
ghost use Rattle.model.specs.Scope.{mutually};
ghost use Rattle.run.specs.Layout.{rows_in, table_of};
ghost use Rattle.sets_of_rows.specs.Rows.{Rows};
ghost use Rattle.work_area.specs.Regions.{MUTUAL};
ghost use Rattle.sets_of_table.specs.Known.{Opened};
ghost use Rattle.sets_grids.specs.Regions.{HEADS, TAKEN, TAKEN_END};
ghost use Rattle.sets_grids.specs.Grid.{Grid, MadeGrid};
ghost use Rattle.sets_grids.specs.Given.{Given};
ghost use Rattle.sets_grids.specs.Synced.{headed_by, taken_by};
ghost use Rattle.sets_sequences.specs.Taken.{gets, Takes, TakesFrom, Joining, Reading};

use run::Run;
use sets_of_rows::{Set, kept};
use sets_of_table::fields;

// The acquire rows that get what the atomic y reads: itself, and the acquire barriers after it whose semantics have its class.
fn getters(t: &Run, s: &[u64], y: usize) -> Set
    requires { (y < t.now.rows) × (atomic (row_of (rows_in t.now.bytes) y) ≡ true) × Opened (table_of t.now) t.now.rows s.now }
    ensures { Rows t.now.rows (gets (table_of t.now) y) result }
{
    let class = kept::get(s, sets_of_table::HOLDING, fields::class(t, y));
    let after = sets_of_table::ask::after(t, s, y) & sets_of_table::rows(s, sets_of_table::BARRIER);
    let all = (after & class) | Set::bit(y);
    all & sets_of_table::rows(s, sets_of_table::ACQUIRES)
}

// The rows x join the getters of each head of `source` that is mutually-ordered with y.
fn join_heads(t: &Run, y: usize, source: usize, x: Set, w: &mut [u64])
    requires { Joining (table_of t.now) t.now.rows y source x w.old }
    ensures { Takes (table_of t.now) t.now.rows y source w.old w.new }
{
    for h in kept::get(w, sets_grids::HEADS, source) & kept::get(w, work_area::MUTUAL, y) {
        kept::join(w, sets_grids::TAKEN, h, x);
    }
}

// The getters of y, if there are any, join those of each head whose sequence y reads from and that is mutually-ordered with y.
fn take(t: &Run, s: &[u64], y: usize, source: usize, w: &mut [u64])
    requires { (source < t.now.rows) × Reading (table_of t.now) t.now.rows y s.now w.old }
    ensures { Takes (table_of t.now) t.now.rows y source w.old w.new }
{
    let gets = getters(t, s, y);
    if gets.has_any() {
        join_heads(t, y, source, gets, w);
    }
}

// The same of y's own source, if it is a row.
fn take_from(t: &Run, s: &[u64], y: usize, w: &mut [u64])
    requires { Reading (table_of t.now) t.now.rows y s.now w.old }
    ensures { TakesFrom (table_of t.now) t.now.rows y w.old w.new }
{
    let source = fields::source(t, y);
    if source < t.rows {
        take(t, s, y, source, w);
    }
}

// TAKEN: of every atomic read from a row.
pub fn fill_taken(t: &Run, s: &[u64], w: &mut [u64])
    requires { Given (table_of t.now) t.now.rows s.now w.old × Grid MUTUAL t.now.rows (mutually (table_of t.now)) w.old
        × Grid HEADS t.now.rows (headed_by (table_of t.now)) w.old }
    ensures { MadeGrid TAKEN TAKEN_END TAKEN t.now.rows (taken_by (table_of t.now)) w.old w.new }
{
    bits::clear(w, sets_grids::TAKEN, sets_grids::TAKEN_END);
    for y in sets_of_table::rows(s, sets_of_table::ATOMIC)
        & sets_of_table::rows(s, sets_of_table::READS)
    {
        take_from(t, s, y, w);
    }
}
