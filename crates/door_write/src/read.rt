// The values of a table, for a writer. Each reader is total: past the end a byte is 0.
ghost use Rattle.std.specs.Prelude.{◌≡◌, ◌*◌, ◌≤◌, ◌<◌, length};
ghost use Rattle.model.specs.Limits.{ROWS, DEPENDENCIES};
ghost use Rattle.model.specs.Header.{ROW_BYTES};
ghost use Rattle.door_write.specs.Encode.{entry_of, entries_in, entries_of, dependencies_of, rows_part};
ghost use Rattle.door_write.specs.Parts.{PLACE_NUMBERS};
ghost use Rattle.door_write.specs.Read.{fronted, place_numbers, end_of, end_numbers, lent_fit, read_answer, places_after, rows_after, dependencies_after};
ghost use Rattle.door_write.specs.Read.{read_result};

use crate::{Dependencies, Sizes, encode, parts};
use door_rows::{bytes, scopes};
use model::{Admission, Entry, Fault, Places, Refusal};

fn read_entry(rows: &[u8], i: u16) -> Entry
    ensures { result ≡ entry_of rows.now i }
{
    Entry {
        row: bytes::read_row(rows, i),
        source: bytes::read_source(rows, i),
    }
}

// A slot for each row that there may be, out of the bytes of the rows alone.
pub fn entries_in(rows: &[u8]) -> [Entry; 128]
    ensures { result ≡ entries_in rows.now }
{
    std::array::from_fn(
        |i: usize| -> Entry
            requires { i < ROWS }
            ensures { result ≡ entry_of rows.entry.now i }
        { read_entry(rows, i as u16) },
    )
}

pub fn read_entries(s: &[u8]) -> [Entry; 128]
    ensures { result ≡ entries_of s.now }
{
    entries_in(bytes::row_bytes(s))
}

pub fn read_dependencies(s: &[u8]) -> Dependencies
    ensures { result ≡ dependencies_of s.now }
{
    let d = bytes::dependency_bytes(s);
    Dependencies {
        count: bytes::pair_at(d, 0),
        first: bytes::read_ends(d, 2),
        second: bytes::read_ends(d, 4),
    }
}

// ---- into lent parts

// Numbers of the places, bytes of the rows and numbers of the dependencies that every table has room in.
const PLACES: usize = 128;

const ENDS: usize = 128;

fn lent_fit(places: usize, rows: usize, dependencies: usize) -> bool
    ensures { result ≡ lent_fit places rows dependencies }
{
    (PLACES <= places) & (encode::ROWS <= rows) & (ENDS <= dependencies)
}

// Four numbers for each of n agents, at the front.
fn put_places(out: &mut [u16], p: Places, n: u8)
    requires { PLACE_NUMBERS * n ≤ length out.old }
    ensures { out.new ≡ fronted (place_numbers p n) out.old }
{
    for k in 0..parts::PLACE_NUMBERS * (n as usize) {
        out[k] = encode::number_of(p, k / parts::PLACE_NUMBERS, k % parts::PLACE_NUMBERS);
    }
}

// Sixteen bytes for each of n rows, at the front.
fn put_entries(out: &mut [u8], entries: [Entry; 128], n: u8)
    requires { (n ≤ ROWS) × (ROW_BYTES * n ≤ length out.old) }
    ensures { out.new ≡ fronted (rows_part n entries) out.old }
{
    bytes::put(
        out,
        0,
        &encode::entry_bytes(entries),
        bytes::ROW_BYTES * (n as usize),
    );
}

// Number k of the dependencies, which have two each.
fn end_of(d: Dependencies, k: usize) -> u16
    requires { k < 2 * DEPENDENCIES }
    ensures { result ≡ end_of d k }
{
    if k % 2 == 0 {
        return d.first[k / 2];
    }
    d.second[k / 2]
}

// Two numbers for each dependency, at the front.
fn put_ends(out: &mut [u16], d: Dependencies)
    requires { (d.count ≤ DEPENDENCIES) × (2 * d.count ≤ length out.old) }
    ensures { out.new ≡ fronted (end_numbers d) out.old }
{
    for k in 0..2 * (d.count as usize) {
        out[k] = end_of(d, k);
    }
}

// The values of a table that a fill admits, into the front of these parts: `write_parts` of them gives the same bytes.
// Ruled out: one that gives as many places as there are rows; one that counts rows for dependencies; one that refuses a blank; one that
// takes a short part for the dependencies where that for the places is long enough.
pub fn read_parts(
    table: &[u8],
    places: &mut [u16],
    rows: &mut [u8],
    dependencies: &mut [u16],
) -> Result<Sizes, Refusal>
    ensures { let s = table.now in
        let answer = read_answer s (length places.old) (length rows.old) (length dependencies.old) in
        (result ≡ read_result answer)
        × (places.new ≡ places_after answer s places.old)
        × (rows.new ≡ rows_after answer s rows.old)
        × (dependencies.new ≡ dependencies_after answer s dependencies.old) }
{
    if !lent_fit(places.len(), rows.len(), dependencies.len()) {
        return Err(Fault::Buffer.into());
    }
    let a = Admission::of(door_admit::admit(table, true));
    let Admission::Admitted { agents, rows: n } = a else {
        return Err(model::refusal_of(a));
    };
    let d = read_dependencies(table);
    put_places(places, scopes::read_places(table), agents);
    put_entries(rows, read_entries(table), n);
    put_ends(dependencies, d);
    Ok(Sizes {
        version: bytes::byte_at(table, 4),
        agents,
        rows: n,
        dependencies: d.count,
    })
}
