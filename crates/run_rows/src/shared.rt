// The bytes that two accesses share.
ghost use Rattle.std.specs.Prelude.{◌≡◌};
ghost use Rattle.model.specs.Row.{lowest_shared, overlap};
ghost use Rattle.model.specs.Race.{clash};

use model::Row;

// The lowest of the m bytes from a that is one of the n bytes from b, for every start and size, 0 too: the higher start, where
// it lies before the lower end. An end may be past 65535, so the numbers are wider.
// Ruled out: one that says byte b where b lies before a; one that says a byte where m or n is 0, or just past the end of one.
pub fn lowest_shared(a: u16, m: u8, b: u16, n: u8) -> Option<u16>
    ensures { result ≡ lowest_shared a m b n }
{
    let start = (a as u32).max(b as u32);
    let end = ((a as u32) + (m as u32)).min((b as u32) + (n as u32));
    if start < end {
        return Some(start as u16);
    }
    None
}

// Whether two rows share a byte.
pub fn overlap(r: Row, q: Row) -> bool
    ensures { result ≡ overlap r q }
{
    lowest_shared(r.start, r.size, q.start, q.size).is_some()
}

// Whether two accesses share a byte and one writes.
pub fn clash(r: Row, q: Row) -> bool
    ensures { result ≡ clash r q }
{
    door_rows::kinds::is_access(r)
        & door_rows::kinds::is_access(q)
        & (door_rows::kinds::writes(r) | door_rows::kinds::writes(q))
        & overlap(r, q)
}
