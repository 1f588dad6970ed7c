// A table in two pieces: the first an ordinary table, the second only rows of 16 bytes, to be added after its rows. A table in one piece is
// two of which the second is empty.
#![tactic(auto)]

ghost use Rattle.std.specs.Prelude.{◌≡◌};
ghost use Rattle.model.specs.Fault.{number_of};
ghost use Rattle.door_pieces.specs.Pieces.{rows_both, count_both, pieces_fault, early_fault, row_part, row_place};

use door_admit::header;
use door_rows::{bytes, scopes};
use model::Fault;

// ---- the refusals of a pair

// How many rows both pieces have.
pub fn rows_both(first: &[u8], second: &[u8]) -> usize
    ensures { result ≡ rows_both first.now second.now }
{
    (bytes::rows_at(first) as usize) + second.len() / bytes::ROW_BYTES
}

// The same where there are not too many, else 0.
pub fn count_both(first: &[u8], second: &[u8]) -> u8
    ensures { result ≡ count_both first.now second.now }
{
    let n = rows_both(first, second);
    if model::ROWS < n {
        return 0;
    }
    n as u8
}

// Refusals 1 to 4 of the first piece, 40 of the second, and 3 of both.
// Ruled out: a first piece of another version whose second piece isn't whole rows gets 40; 15 bytes pass as no row.
pub fn pieces_fault(first: &[u8], second: &[u8]) -> Result<(), Fault>
    ensures { number_of result ≡ pieces_fault first.now second.now }
{
    header::shape_fault(first)?;
    if second.len() % bytes::ROW_BYTES != 0 {
        return Err(Fault::Rows);
    }
    if model::ROWS < rows_both(first, second) {
        return Err(Fault::Limits);
    }
    Ok(())
}

// Every refusal before 5. The dependencies stand in the first piece and may name rows of either.
// Ruled out: one that counts the agents by the second piece; one that holds dependencies to the first piece's rows, counted twice.
pub fn early_fault(first: &[u8], second: &[u8]) -> Result<(), Fault>
    ensures { number_of result ≡ early_fault first.now second.now }
{
    pieces_fault(first, second)?;
    let p = scopes::read_places(first);
    let d = bytes::dependency_bytes(first);
    let n = rows_both(first, second);
    header::hosts_fault(p, bytes::agents_at(first), d, n as u8)
}

// ---- row n

// Row n as its sixteen bytes, from the piece that holds it and without copying; empty where neither does. A pair that is refused before 5
// holds no rows.
// Ruled out: one that shows the second piece's first row for each of its rows; one that goes on to twice the first piece's rows.
pub fn row_part<'a>(first: &'a [u8], second: &'a [u8], n: u16) -> &'a [u8]
    ensures { result.now ≡ row_part first.now second.now n }
{
    if early_fault(first, second).is_err() {
        return &first[..0];
    }
    let i = n as usize;
    let rows = bytes::rows_at(first) as usize;
    if i < rows {
        let at = bytes::rows_begin(first) + bytes::ROW_BYTES * i;
        let end = at + bytes::ROW_BYTES;
        return &first[at..end];
    }
    if i < rows_both(first, second) {
        let at = bytes::ROW_BYTES * (i - rows);
        let end = at + bytes::ROW_BYTES;
        return &second[at..end];
    }
    &second[..0]
}

// Where a row's sixteen bytes begin: in the first piece, or in the second.
#[derive(Clone, Copy)]
pub enum RowPlace {
    First { at: u16 },
    Second { at: u16 },
}

// The place of that part, for a caller that can be handed no part of a slice; none where the part is empty.
// Ruled out: one that gives a place where the part is empty; one whose place in the second piece counts the first piece's rows.
pub fn row_place<'a>(first: &'a [u8], second: &'a [u8], n: u16) -> Option<RowPlace>
    ensures { result ≡ row_place first.now second.now n }
{
    let part = row_part(first, second, n);
    if part.len() == 0 {
        return None;
    }
    let i = n as usize;
    let rows = bytes::rows_at(first) as usize;
    if i < rows {
        let at = bytes::rows_begin(first) + bytes::ROW_BYTES * i;
        return Some(RowPlace::First { at: at as u16 });
    }
    let at = bytes::ROW_BYTES * (i - rows);
    Some(RowPlace::Second { at: at as u16 })
}
