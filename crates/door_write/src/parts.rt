// A writer for a caller without structs: values out of lent parts. No length is trusted: whole parts count, and what is read past the
// end is 0.
ghost use Rattle.std.specs.Prelude.{◌≡◌, ◌<◌, ◌≤◌, length, get_or};
ghost use Rattle.finite.specs.Lists.{tabulate};
ghost use Rattle.model.specs.Limits.{AGENTS, DEPENDENCIES};
ghost use Rattle.door_write.specs.Answer.{write_result, buffer_after};
ghost use Rattle.door_write.specs.Parts.{capped, agents_in, place_in, places_in, rows_in, end_in, dependencies_in, parts_answer, parts_table};

use crate::{Dependencies, read};
use door_rows::bytes;
use model::{Places, Refusal};

pub const PLACE_NUMBERS: usize = 4;

fn number_at(q: &[u16], k: usize) -> u16
    ensures { result ≡ get_or q.now k 0 }
{
    q.get(k).copied().unwrap_or(0)
}

fn agents_in(q: &[u16]) -> u8
    ensures { result ≡ agents_in q.now }
{
    (q.len() / PLACE_NUMBERS).min(255) as u8
}

fn place_in(q: &[u16], a: u8) -> [u16; 4]
    ensures { result ≡ place_in q.now a }
{
    let at = (a as usize) * PLACE_NUMBERS;
    [
        number_at(q, at + 0),
        number_at(q, at + 1),
        number_at(q, at + 2),
        number_at(q, at + 3),
    ]
}

// A slot for each agent that there may be.
fn places_in(q: &[u16]) -> Places
    ensures { result ≡ places_in q.now }
{
    std::array::from_fn(
        |a: usize| -> [u16; 4]
            requires { a < AGENTS }
            ensures { result ≡ place_in q.entry.now a }
        { place_in(q, a as u8) },
    )
}

fn rows_in(b: &[u8]) -> u8
    ensures { result ≡ rows_in b.now }
{
    (b.len() / bytes::ROW_BYTES).min(255) as u8
}

// The first or second row of each dependency, by 0 or 1.
fn ends_in(q: &[u16], at: u8) -> [u16; 64]
    ensures { result ≡ tabulate (end_in q.now at) DEPENDENCIES }
{
    std::array::from_fn(|k| number_at(q, k * 2 + (at as usize)))
}

fn dependencies_in(q: &[u16]) -> Dependencies
    ensures { result ≡ dependencies_in q.now }
{
    Dependencies {
        count: (q.len() / 2).min(65535) as u16,
        first: ends_in(q, 0),
        second: ends_in(q, 1),
    }
}

// `write` of the values in these parts.
// Ruled out: one that reads a last row of fifteen bytes; one that takes 256 agents for none.
pub fn write_parts(
    version: u8,
    places: &[u16],
    rows: &[u8],
    dependencies: &[u16],
    out: &mut [u8],
) -> Result<u16, Refusal>
    ensures { let answer = parts_answer version places.now rows.now dependencies.now (length out.old) in
        let table = parts_table version places.now rows.now dependencies.now in
        (result ≡ write_result answer) × (out.new ≡ buffer_after answer table out.old) }
{
    let agents = agents_in(places);
    let p = places_in(places);
    let count = rows_in(rows);
    let entries = read::entries_in(rows);
    let d = dependencies_in(dependencies);
    crate::write(version, agents, p, count, entries, d, out)
}
