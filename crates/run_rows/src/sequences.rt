// M3 and M4: mutually-ordered rows, and the row that ends a release sequence.
ghost use Rattle.std.specs.Prelude.{◌≡◌, ◌<◌};
ghost use Rattle.model.specs.Limits.{ROWS};
ghost use Rattle.run.specs.Layout.{table_of};
ghost use Rattle.model.specs.Scope.{mutually};
ghost use Rattle.model.specs.Synchronizes.{continues};
ghost use Rattle.run_rows.specs.Forms.{end_rows};

use model::Row;
use run::Run;

// M3: whether rows i and j are mutually-ordered. Places are read for two atomics of one location only.
pub fn mutual_at(t: &Run, i: usize, j: usize) -> bool
    requires { (i < ROWS) × (j < ROWS) }
    ensures { result ≡ mutually (table_of t.now) i j }
{
    let r = t.row(i as u16);
    let q = t.row(j as u16);
    let atomic = door_rows::kinds::is_atomic(r) & door_rows::kinds::is_atomic(q);
    if !(!(i == j) & (atomic & door_rows::scopes::same_location(r, q))) {
        return false;
    }
    t.together(r, q)
}

// M4: whether r, after the head, continues a sequence. Nothing else says what does.
pub fn is_continued(r: Row) -> bool
    ensures { result ≡ continues r }
{
    door_rows::kinds::is_rmw(r)
}

// M4: whether q ends the sequence of the head h no later than r; b says that h and q are mutually-ordered.
// Ruled out: one that asks whether r continues the sequence; one that lets a follower later than r end it.
pub fn is_end(counted: bool, b: bool, h: Row, r: Row, q: Row) -> bool
    ensures { result ≡ end_rows counted b h r q }
{
    b & door_rows::scopes::is_later_writer(counted, q, h)
        & !door_rows::scopes::is_later(counted, q.rank, r.rank)
        & !is_continued(q)
}
