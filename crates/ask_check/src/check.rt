// The check of a table in one or two pieces: any bytes, and buffers of any length.
ghost use Rattle.std.specs.Prelude.{◌≡◌, false, Ok};
ghost use Rattle.model.specs.Limits.{CYCLE};
ghost use Rattle.model.specs.Table.{source_of};
ghost use Rattle.model.specs.Check.{verdict, check_answer, cycle_after, wiped};
ghost use Rattle.run.specs.Layout.{rows_in, table_of};
ghost use Rattle.door_open.specs.Opened.{RunOf};
ghost use Rattle.model_placing.specs.Judge.{Sourced};
ghost use Rattle.ask_check.specs.Engine.{Buffers};
ghost use Rattle.ask_check.specs.Whole.{Checked, CheckedBoth};

use crate::engine::{ByFlags, BySets, Engine};
use model::{CheckAnswer, Refusal};
use run::Run;

// The verdict by an engine, with the table's own sources; the work area's words end as zeros.
fn judge_run<E: Engine>(t: &Run, work: &mut [u64], cycle: &mut [u16]) -> CheckAnswer
    requires { Buffers CYCLE work.old cycle.old × RunOf false t.now.bytes t.now.rows × Sourced (table_of t.now) (source_of (rows_in t.now.bytes)) }
    ensures { let v = verdict (table_of t.now) (source_of (rows_in t.now.bytes)) in
        (Ok result ≡ check_answer v) × (work.new ≡ wiped work.old) × (cycle.new ≡ cycle_after v cycle.old) }
{
    let src = find_sources::sources::read_sources(t);
    let r = E::judge(t, &src, work, cycle);
    bits::clear(work, 0, model::WORK);
    r
}

// Judges one recorded run in two pieces, the first a table, the second more rows for it; `chains` says whether the device reports
// vulkanMemoryModelAvailabilityVisibilityChains. A short buffer is refusal 11; a table that is refused leaves both buffers alone. Otherwise
// the work area's own part ends as zeros, and the cycle buffer holds the cycle if that is the answer.
// Whichever engine E is, the answer is this one.
// Ruled out: one that judges the first piece alone; one that leaves the last customer's words in the work area.
pub fn check_by<E: Engine>(
    first: &[u8],
    second: &[u8],
    chains: bool,
    work: &mut [u64],
    cycle: &mut [u16],
) -> Result<CheckAnswer, Refusal>
    ensures { CheckedBoth chains first.now second.now result
        work.old work.new cycle.old cycle.new }
{
    let t = door_open::enter(
        first,
        second,
        chains,
        false,
        model::CYCLE,
        work.len(),
        cycle.len(),
    )?;
    Ok(judge_run::<E>(&t, work, cycle))
}

// The same, by sets of rows.
// Ruled out: one that takes the pieces the other way round; one that turns `chains` round.
pub fn check_both(
    first: &[u8],
    second: &[u8],
    chains: bool,
    work: &mut [u64],
    cycle: &mut [u16],
) -> Result<CheckAnswer, Refusal>
    ensures { CheckedBoth chains first.now second.now result
        work.old work.new cycle.old cycle.new }
{
    check_by::<BySets>(first, second, chains, work, cycle)
}

// Judges one recorded run in one piece.
// Ruled out: one that answers race-free to every table; one that takes the table for its own second piece too.
pub fn check(
    table: &[u8],
    chains: bool,
    work: &mut [u64],
    cycle: &mut [u16],
) -> Result<CheckAnswer, Refusal>
    ensures { Checked chains table.now result work.old work.new cycle.old cycle.new }
{
    check_both(table, &table[..0], chains, work, cycle)
}

// The same by the flags engine, with one flag for each two moments, which is kept beside the engine by sets.
// Ruled out: one that shows another race than the engine by sets; one that leaves a flag in the work area.
pub fn check_by_flags(
    table: &[u8],
    chains: bool,
    work: &mut [u64],
    cycle: &mut [u16],
) -> Result<CheckAnswer, Refusal>
    ensures { Checked chains table.now result work.old work.new cycle.old cycle.new }
{
    check_by::<ByFlags>(table, &table[..0], chains, work, cycle)
}
