// A reader over one table's rows: the table it was lent, and its place. Each function over it is thin; what stands at a place is
// found by functions on a plain slice and a number.
#![tactic(auto)]

ghost use Rattle.std.specs.Prelude.{◌≡◌, true};
ghost use Rattle.std.specs.Iterator.{at_most};
ghost use Rattle.model.specs.Refusal.{admission, admission_answer};
ghost use Rattle.door_step.specs.Steps.{step_at, next_at, opened_part, moved, rows_left, OpenGives, stepped_at, step_result};

use door_rows::bytes;
use model::{Admission, Counts, Entry, Refusal};

#[derive(Clone, Copy)]
pub struct RowReader<'a> {
    pub table: &'a [u8],
    pub at: u16,
}

// What a fill says of a table, and a reader of it: of a table that is refused the reader has no rows.
#[derive(Clone, Copy)]
pub struct Opened<'a> {
    pub admission: Admission,
    pub reader: RowReader<'a>,
}

// What a step from a place comes to: the row there and the next place, or the end and its place.
#[derive(Clone, Copy)]
pub enum Stepped {
    Row { entry: Entry, next: u16 },
    End { next: u16 },
}

// The row at a place; none at the end.
// Ruled out: one that reads a row past the last, where the bytes of a dependency or none are; one that ends before the last row.
pub fn step_at(table: &[u8], at: u16) -> Option<Entry>
    ensures { result ≡ step_at table.now at }
{
    let n = bytes::rows_at(table) as u16;
    if n <= at {
        return None;
    }
    let rows = bytes::row_bytes(table);
    Some(Entry {
        row: bytes::read_row(rows, at),
        source: bytes::read_source(rows, at),
    })
}

// The place after a place: the end stays.
// Ruled out: one that begins again after the end; one that steps past the end.
pub fn next_at(table: &[u8], at: u16) -> u16
    ensures { result ≡ next_at table.now at }
{
    let n = bytes::rows_at(table) as u16;
    if n <= at { at } else { at + 1 }
}

// What a fill refuses the table for, 11 aside, or its counts.
// Ruled out: one that refuses a blank; one that judges none of the bytes.
pub fn opening(table: &[u8]) -> Result<Counts, Refusal>
    ensures { result ≡ admission_answer (admission true table.now) }
{
    door_admit::admit(table, true)
}

// The table where it is admitted, else none of it.
// Ruled out: one that hands out a table that is refused; one that keeps one back that is admitted.
pub fn opened_part(table: &[u8], a: Admission) -> &[u8]
    ensures { result.now ≡ opened_part a table.now }
{
    let Admission::Admitted { agents: _, rows: _ } = a else {
        return &table[..0];
    };
    table
}

// Opens a table that a fill admits, 11 aside; the reader of any other has no rows.
// Ruled out: one that opens a table with a faulty row up to that row; one that refuses a blank.
pub fn open<'a>(table: &'a [u8]) -> Opened<'a>
    ensures { (result.admission ≡ admission true table.now)
        × (result.reader.table.now ≡ opened_part (admission true table.now) table.now)
        × (result.reader.at ≡ 0) }
{
    let a = Admission::of(opening(table));
    let part = opened_part(table, a);
    Opened {
        admission: a,
        reader: RowReader { table: part, at: 0 },
    }
}

// Opens a table that a fill admits, 11 aside; any other gets its refusal, and no reader.
// Ruled out: one that opens a table with a faulty row up to that row; one that refuses a blank.
pub fn try_open(table: &[u8]) -> Result<RowReader<'_>, Refusal>
    ensures { OpenGives table.now result }
{
    let opened = open(table);
    let a = opened.admission;
    let Admission::Admitted { agents: _, rows: _ } = a else {
        return Err(model::refusal_of(a));
    };
    Ok(opened.reader)
}

impl Iterator for RowReader<'_> {
    type Item = Entry;

    ghost next_gives = { λ old gives new. (gives ≡ step_at old.table.now old.at) × (new ≡ moved old) };

    ghost remaining = { λ reader. at_most (rows_left reader) };

    // The row at the reader's place, which moves on to the next; none at the end, where it stays.
    // Ruled out: one that gives row 0 again after the end; one that gives a row twice.
    fn next(&mut self) -> Option<Entry> {
        let at = self.at;
        let t = self.table;
        self.at = next_at(t, at);
        step_at(t, at)
    }
}

// Opens a reader, puts it at a place, and steps: for a caller that holds the table and the place, and no reader.
// Ruled out: one that gives a row of a table that a fill refuses; one that leaves the end.
pub fn step_from(table: &[u8], at: u16) -> Result<Stepped, Refusal>
    ensures { result ≡ step_result (stepped_at table.now at) }
{
    let mut reader = try_open(table)?;
    reader.at = at;
    let step = reader.next();
    let next = reader.at;
    match step {
        Some(entry) => Ok(Stepped::Row { entry, next }),
        None => Ok(Stepped::End { next }),
    }
}
