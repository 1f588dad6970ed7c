// M6: the direct cases of inter-thread order for a class set, on rows that are decoded already.
ghost use Rattle.std.specs.Prelude.{◌≡◌, ◌<◌};
ghost use Rattle.model.specs.Limits.{ROWS};
ghost use Rattle.model.specs.Happens.{holding_of, concerns_of};
ghost use Rattle.run.specs.Layout.{rows_in};
ghost use Rattle.run_rows.specs.Cases.{touches, holds_at, case_rows};

use crate::moments;
use door_rows::pick;
use model::Row;
use run::Run;

// M6: the class sets are the numbers 1 to 15.
pub const CLASS_SETS: u8 = 15;

// M6: the direct cases are the numbers 1 to CASES; 1 to ROW_CASES go by rows, and the last by dependencies.
pub const ROW_CASES: u16 = 3;

pub const CASES: u16 = 4;

// M6: whether moment k is the atomic or barrier r itself, holding all of s.
pub fn holding_of(s: u8, r: Row, k: u8) -> bool
    ensures { result ≡ holding_of s r k }
{
    (k == moments::AT) & !door_rows::kinds::is_plain(r) & door_rows::kinds::holds(r.classes, s)
}

// M6: whether moment k of r is of a class in s.
pub fn touches_of(s: u8, r: Row, k: u8) -> bool
    ensures { result ≡ touches s r k }
{
    let access = door_rows::kinds::is_access(r) & door_rows::kinds::class_in(r, s);
    let other = door_rows::kinds::meets(moments::classes_of(r), s);
    pick::either(k == moments::AT, access, other)
}

// M6: whether moment k of r accesses a class in s, or is an atomic or barrier holding all of s.
pub fn concerns_of(s: u8, r: Row, k: u8) -> bool
    ensures { result ≡ concerns_of s r k }
{
    touches_of(s, r, k) | holding_of(s, r, k)
}

// Whether row i holds all of s.
pub fn holds_at(t: &Run, s: u8, i: usize) -> bool
    requires { i < ROWS }
    ensures { result ≡ holds_at (rows_in t.now.bytes) s i }
{
    door_rows::kinds::holds(t.classes(i as u16), s)
}

// M6: whether the direct case of this number, of the three that go by rows, leads from the moment `from` of r to the moment `to` of q.
// Ruled out: one that asks both ends of cases 2 and 3 to hold all of s; one that lets an acquire end case 2.
pub fn is_case(
    case: u16,
    s: u8,
    from: u8,
    to: u8,
    r: Row,
    q: Row,
    synced: bool,
    ordered: bool,
) -> bool
    ensures { result ≡ case_rows case s from to r q synced ordered }
{
    if case == 1 {
        return holding_of(s, r, from) & holding_of(s, q, to) & synced;
    }
    if case == 2 {
        return holding_of(s, q, to)
            & door_rows::kinds::releases(q)
            & concerns_of(s, r, from)
            & ordered;
    }
    if case == 3 {
        return holding_of(s, r, from)
            & door_rows::kinds::acquires(r)
            & concerns_of(s, q, to)
            & ordered;
    }
    false
}
