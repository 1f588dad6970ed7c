// Location order (L1 to L3): tests on two rows and a byte.
ghost use Rattle.std.specs.Prelude.{◌≡◌, not, eqb};
ghost use Rattle.finite.specs.Logic.{◌and◌};
ghost use Rattle.model.specs.Location.{pure_read, common};
ghost use Rattle.model.specs.Availability.{same_reference, covers_of, public_write};
ghost use Rattle.run_rows.specs.Shared.{may_share};

use model::Row;

pub fn same_reference(r: Row, q: Row) -> bool
    ensures { result ≡ same_reference r q }
{
    r.reference == q.reference
}

// Whether a moment of q covers r's reference and byte b.
pub fn covers_of(q: Row, r: Row, b: u32) -> bool
    ensures { result ≡ covers_of q r b }
{
    if door_rows::kinds::is_plain(q) {
        return same_reference(q, r) & door_rows::kinds::touches(q, b);
    }
    door_rows::kinds::class_in(r, q.classes)
}

// Whether r reads and doesn't write, and both are non-private.
pub fn pure_read(r: Row, q: Row) -> bool
    ensures { result ≡ pure_read r q }
{
    door_rows::kinds::reads(r)
        & !door_rows::kinds::writes(r)
        & door_rows::kinds::is_non_private(r)
        & door_rows::kinds::is_non_private(q)
}

// Whether r writes, and both are non-private and of one reference.
pub fn public_write(r: Row, q: Row) -> bool
    ensures { result ≡ public_write r q }
{
    door_rows::kinds::writes(r)
        & door_rows::kinds::is_non_private(r)
        & door_rows::kinds::is_non_private(q)
        & same_reference(r, q)
}

// Whether b is a byte of both.
pub fn common(r: Row, q: Row, b: u32) -> bool
    ensures { result ≡ common r q b }
{
    door_rows::kinds::is_access(r)
        & door_rows::kinds::is_access(q)
        & door_rows::kinds::touches(r, b)
        & door_rows::kinds::touches(q, b)
}

// Whether b is a byte of two different rows.
pub fn common_of(x: usize, y: usize, r: Row, q: Row, b: u32) -> bool
    ensures { result ≡ (not (eqb x y) and common r q b) }
{
    !(x == y) & common(r, q, b)
}

// Whether two different rows may share a byte: each starts before the other ends.
pub fn may_share(x: usize, y: usize, r: Row, q: Row) -> bool
    ensures { result ≡ may_share x y r q }
{
    let start = r.start as u32;
    let other = q.start as u32;
    !(x == y) & (start < other + (q.size as u32)) & (other < start + (r.size as u32))
}

// L1 of r and q, where h tells whether r happens before q.
pub fn l1(r: Row, q: Row, h: bool) -> bool
    ensures { result ≡ (eqb r.agent q.agent and same_reference r q and h) }
{
    (r.agent == q.agent) & same_reference(r, q) & h
}

// L2 of r and q, where h tells whether r happens before q.
pub fn l2(r: Row, q: Row, h: bool) -> bool
    ensures { result ≡ (pure_read r q and h) }
{
    pure_read(r, q) & h
}
