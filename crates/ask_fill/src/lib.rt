// Fills: the source of each blank of a table in one or two pieces, or why there is none.
#![tactic(auto)]

ghost use Rattle.std.specs.Prelude.{◌≡◌, true, Ok};
ghost use Rattle.model.specs.Limits.{SOURCES};
ghost use Rattle.model.specs.Table.{source_of};
ghost use Rattle.model.specs.Check.{wiped};
ghost use Rattle.model.specs.Fill.{outcome, fill_answer, sources_after};
ghost use Rattle.model_laws.specs.FilledLaws.{Bytes};
ghost use Rattle.run.specs.Layout.{rows_in, table_of};
ghost use Rattle.door_open.specs.Opened.{RunOf};
ghost use Rattle.ask_check.specs.Engine.{Buffers};
ghost use Rattle.ask_fill.specs.Whole.{FilledBy, FilledBoth};

use crate::engine::FillEngine;
use ask_check::engine::{ByFlags, BySets};
use model::{FillAnswer, Refusal};
use run::Run;

pub mod parts; // what both engines do
pub mod by_flags; // the flags engine
pub mod by_sets; // the engine by sets of rows
pub mod engine; // what a fill asks of an engine

// A fill by an engine, with the table's own sources; the work area's words end as zeros.
fn fill_run<E: FillEngine>(t: &Run, work: &mut [u64], sources: &mut [u16]) -> FillAnswer
    requires { Buffers SOURCES work.old sources.old × RunOf true t.now.bytes t.now.rows }
    ensures { let o = outcome (table_of t.now) (source_of (rows_in t.now.bytes)) in
        (Ok result ≡ fill_answer o) × (work.new ≡ wiped work.old) × (sources.new ≡ sources_after o sources.old) }
{
    let src = find_sources::sources::read_sources(t);
    let r = E::fill(t, &src, work, sources);
    bits::clear(work, 0, model::WORK);
    r
}

// The first byte of a lent slice, 0 where it has none. Asked for what it ensures: the numbers of whatever slice is lent are bytes.
fn first_byte(piece: &[u8]) -> u8
    ensures { Bytes piece.now }
{
    if 0 < piece.len() { piece[0] } else { 0 }
}

// Fills the blanks of a table in two pieces, whatever bytes they have, on a device with chains or without: a refusal, a race, none, or the
// sources of all rows in the lent buffer.
// Whichever engine E is, the answer is this one. That the numbers of both pieces are bytes is ensured too, for whoever reads what a
// fill means.
// Two wrong programs that the contract rules out: one that leaves a choice in the source buffer where the filled table is not
// consistent; one that names a race and leaves its bits in the work area.
pub fn fill_by<E: FillEngine>(
    first: &[u8],
    second: &[u8],
    chains: bool,
    work: &mut [u64],
    sources: &mut [u16],
) -> Result<FillAnswer, Refusal>
    ensures { FilledBoth chains first.now second.now result
        work.old work.new sources.old sources.new
        × Bytes first.now × Bytes second.now }
{
    first_byte(first);
    first_byte(second);
    let t = door_open::enter(
        first,
        second,
        chains,
        true,
        model::SOURCES,
        work.len(),
        sources.len(),
    )?;
    Ok(fill_run::<E>(&t, work, sources))
}

// The same, by sets of rows.
// Ruled out: one that takes the pieces the other way round; one that turns `chains` round.
pub fn fill_both(
    first: &[u8],
    second: &[u8],
    chains: bool,
    work: &mut [u64],
    sources: &mut [u16],
) -> Result<FillAnswer, Refusal>
    ensures { FilledBoth chains first.now second.now result
        work.old work.new sources.old sources.new
        × Bytes first.now × Bytes second.now }
{
    fill_by::<BySets>(first, second, chains, work, sources)
}

// Fills the blanks of a table in one piece.
// Ruled out: one that takes the table for its own second piece too; one that turns `chains` round.
pub fn fill(
    table: &[u8],
    chains: bool,
    work: &mut [u64],
    sources: &mut [u16],
) -> Result<FillAnswer, Refusal>
    ensures { FilledBy chains table.now result work.old work.new sources.old sources.new
        × Bytes table.now }
{
    fill_both(table, &table[..0], chains, work, sources)
}

// The same by the flags engine, with one flag for each two moments.
// Ruled out: one that chooses another source than the engine by sets; one that writes sources where the answer is a race.
pub fn fill_by_flags(
    table: &[u8],
    chains: bool,
    work: &mut [u64],
    sources: &mut [u16],
) -> Result<FillAnswer, Refusal>
    ensures { FilledBy chains table.now result work.old work.new sources.old sources.new
        × Bytes table.now }
{
    fill_by::<ByFlags>(table, &table[..0], chains, work, sources)
}
