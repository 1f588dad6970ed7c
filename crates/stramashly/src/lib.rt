// The functions that C and Rust link, by way of `stramashly_c`. Each is the proved function of the same name with its answer packed into
// one number.
#![tactic(auto)]

ghost use Rattle.std.specs.Prelude.{◌≡◌, true, ◌≤◌, length};
ghost use Rattle.model.specs.Check.{check, check_answer, cycle_after, work_after};
ghost use Rattle.model.specs.Fill.{fill, fill_answer, sources_after};
ghost use Rattle.model.specs.Fill as Fill;
ghost use Rattle.model.specs.Reason.{derive, derive_answer, chain_after, judge, accept_answer};
ghost use Rattle.model.specs.Reason as Derivation;
ghost use Rattle.model.specs.Report.{report};
ghost use Rattle.model.specs.Header.{ROW_BYTES, rows_at};
ghost use Rattle.model.specs.Refusal.{admission};
ghost use Rattle.model_laws.specs.FilledLaws.{Bytes};
ghost use Rattle.door_write.specs.Answer.{buffer_after};
ghost use Rattle.door_write.specs.Parts.{parts_answer, parts_table};
ghost use Rattle.door_write.specs.Read.{read_answer, places_after, rows_after, dependencies_after};
ghost use Rattle.stramashly.specs.Packed.{pack_place, pack_check, pack_fill, pack_derive, pack_accept, pack_report, share_put, share_after};
ghost use Rattle.stramashly.specs.Packed.{reason_of, is_on, pack_write, pack_read, pack_open, row_put, row_answer, row_after};
ghost use Rattle.door_pieces.specs.Pieces.{count_both, check_both, fill_both, report_both, derive_both, judge_both, row_place};

use door_rows::bytes;
use door_step::Stepped;
use door_write::encode;
use model::{FillAnswer, Reason, Refusal, ReportAnswer};
use packed::{Accepted, FillOf, PROGRAM_ORDER, Packed, Written};

mod packed; // an answer as one number

// A fill's answer goes with the number of rows of its table.
fn pack_fill(answer: Result<FillAnswer, Refusal>, rows: u8) -> u64
    ensures { result ≡ pack_fill answer rows }
{
    match answer {
        Ok(answer) => FillOf { rows, answer }.pack(),
        Err(refusal) => refusal.pack(),
    }
}

// The report's own share, where there is a report; else what was there stays.
fn put_share(answer: Result<ReportAnswer, Refusal>, share: &mut f64)
    ensures { share.new ≡ share_put answer share.old }
{
    let Ok(told) = answer else {
        return;
    };
    if let ReportAnswer::Report(report) = told {
        *share = report.share;
    }
}

// The row's bytes, where a row is given; else what was there stays.
fn put_row(step: Result<Stepped, Refusal>, out: &mut [u8])
    requires { ROW_BYTES ≤ length out.old }
    ensures { out.new ≡ row_put step out.old }
{
    let Ok(stepped) = step else {
        return;
    };
    if let Stepped::Row { entry, next: _ } = stepped {
        bytes::put(out, 0, &encode::row_bytes(entry.row, entry.source), 16);
    }
}

fn reason_of(classes: u8) -> Reason
    ensures { result ≡ reason_of classes }
{
    if classes == PROGRAM_ORDER {
        return Reason::ProgramOrder;
    }
    Reason::Chain(classes)
}

// Judges one recorded run, of a device with chains where the switch is on: `ask_check::check`, packed.
// Ruled out: one whose code for a race is that of race-free; one that leaves what a check worked with in the work area.
pub fn stramashly_check(table: &[u8], chains: u8, work: &mut [u64], cycle: &mut [u16]) -> u64
    ensures { let answer = check (is_on chains) table.now (length work.old) (length cycle.old) in
        (result ≡ pack_check (check_answer answer))
        × (work.new ≡ work_after answer work.old)
        × (cycle.new ≡ cycle_after answer cycle.old) }
{
    ask_check::check::check(table, !(chains == 0), work, cycle).pack()
}

// The same by the flags engine, for whoever wants a second answer: it is proved to be the first one.
// Ruled out: one whose work area keeps a flag; one that answers another race than the engine by sets.
pub fn stramashly_check_by_flags(
    table: &[u8],
    chains: u8,
    work: &mut [u64],
    cycle: &mut [u16],
) -> u64
    ensures { let answer = check (is_on chains) table.now (length work.old) (length cycle.old) in
        (result ≡ pack_check (check_answer answer))
        × (work.new ≡ work_after answer work.old)
        × (cycle.new ≡ cycle_after answer cycle.old) }
{
    ask_check::check::check_by_flags(table, !(chains == 0), work, cycle).pack()
}

// Fills the blanks of one recorded run: `ask_fill::fill`, packed, with the number of rows where it filled them.
// Ruled out: one whose code for filled is that of none; one that writes a source where a pair races.
pub fn stramashly_fill(table: &[u8], chains: u8, work: &mut [u64], sources: &mut [u16]) -> u64
    ensures { let answer = fill (is_on chains) table.now (length work.old) (length sources.old) in
        (result ≡ pack_fill (fill_answer answer) (rows_at table.now))
        × (work.new ≡ Fill.work_after answer work.old)
        × (sources.new ≡ sources_after answer sources.old)
        × Bytes table.now }
{
    let answer = ask_fill::fill(table, !(chains == 0), work, sources);
    pack_fill(answer, bytes::rows_at(table))
}

// The same by the flags engine.
// Ruled out: one that fills another source than the engine by sets; one whose code for filled is that of none.
pub fn stramashly_fill_by_flags(
    table: &[u8],
    chains: u8,
    work: &mut [u64],
    sources: &mut [u16],
) -> u64
    ensures { let answer = fill (is_on chains) table.now (length work.old) (length sources.old) in
        (result ≡ pack_fill (fill_answer answer) (rows_at table.now))
        × (work.new ≡ Fill.work_after answer work.old)
        × (sources.new ≡ sources_after answer sources.old)
        × Bytes table.now }
{
    let answer = ask_fill::fill_by_flags(table, !(chains == 0), work, sources);
    pack_fill(answer, bytes::rows_at(table))
}

// Why one moment happens before another: `ask_derive::derive`, packed; class set 16 is the word program order.
// Ruled out: one whose code for not before is that of a chain; one that writes to the chain buffer where it says program order.
pub fn stramashly_derive(
    table: &[u8],
    first: u16,
    second: u16,
    work: &mut [u64],
    chain: &mut [u16],
) -> u64
    ensures { let answer = derive table.now first second (length work.old) (length chain.old) in
        (result ≡ pack_derive (derive_answer answer))
        × (work.new ≡ Derivation.work_after answer work.old)
        × (chain.new ≡ chain_after answer chain.old) }
{
    ask_derive::derive(table, first, second, work, chain).pack()
}

// Whether a derivation shows that one moment happens before another: `ask_accepts::accepts`, packed; class set 16 is the word program
// order.
// Ruled out: one that takes class set 16 for a chain; one whose code for accepted is that of not accepted.
pub fn stramashly_accepts(table: &[u8], first: u16, second: u16, classes: u8, steps: &[u16]) -> u64
    ensures { result ≡ pack_accept (accept_answer (judge table.now first second (reason_of classes) steps.now)) }
{
    let answer = ask_accepts::accepts(table, first, second, reason_of(classes), steps);
    answer.map(Accepted).pack()
}

// How bad a recorded run was: `ask_report::report`, packed, with the pairs that are mutually-ordered, ordered and racing, which add up to the
// conflicting ones; and the report's share, in the number lent for it.
// Ruled out: one that packs the conflicting pairs in place of the racing ones; one that writes a share where no pair conflicts.
pub fn stramashly_report(
    table: &[u8],
    chains: u8,
    work: &mut [u64],
    cycle: &mut [u16],
    share: &mut f64,
) -> u64
    ensures { let judged = check (is_on chains) table.now (length work.old) (length cycle.old) in
        let told = report (is_on chains) table.now (length work.old) (length cycle.old) in
        (result ≡ pack_report told)
        × (work.new ≡ work_after judged work.old)
        × (cycle.new ≡ cycle_after judged cycle.old)
        × (share.new ≡ share_after told share.old) }
{
    let answer = ask_report::report(table, !(chains == 0), work, cycle);
    put_share(answer, share);
    answer.pack()
}

// Writes a table of values: `door_write::parts::write_parts`, packed.
// Ruled out: one whose number of bytes is that of the buffer; one that writes where it refuses.
pub fn stramashly_write(
    version: u8,
    places: &[u16],
    rows: &[u8],
    dependencies: &[u16],
    out: &mut [u8],
) -> u64
    ensures { let answer = parts_answer version places.now rows.now dependencies.now (length out.old) in
        let table = parts_table version places.now rows.now dependencies.now in
        (result ≡ pack_write answer) × (out.new ≡ buffer_after answer table out.old) }
{
    let answer = door_write::parts::write_parts(version, places, rows, dependencies, out);
    answer.map(Written).pack()
}

// The values of a table, in the front of lent parts: `door_write::read::read_parts`, packed. `stramashly_write` of them gives the table again.
// Ruled out: one whose number has the version and the agents exchanged; one that has the rows in the place of the dependencies.
pub fn stramashly_read(
    table: &[u8],
    places: &mut [u16],
    rows: &mut [u8],
    dependencies: &mut [u16],
) -> u64
    ensures { let s = table.now in
        let answer = read_answer s (length places.old) (length rows.old) (length dependencies.old) in
        (result ≡ pack_read answer)
        × (places.new ≡ places_after answer s places.old)
        × (rows.new ≡ rows_after answer s rows.old)
        × (dependencies.new ≡ dependencies_after answer s dependencies.old) }
{
    door_write::read::read_parts(table, places, rows, dependencies).pack()
}

// Whether a table can be stepped through: `door_step::opening`, packed.
// Ruled out: one that opens what a fill refuses; one that refuses a blank.
pub fn stramashly_open(table: &[u8]) -> u64
    ensures { result ≡ pack_open (admission true table.now) }
{
    door_step::opening(table).pack()
}

// The row at a place of a table, as its sixteen bytes, or the end, and the next place: `door_step::step_from`, packed. What a fill refuses,
// 11 aside, gets that refusal at every place.
// Ruled out: one that gives a row of a table that a fill refuses; one that writes a part of a row into a short buffer; one that leaves the end.
pub fn stramashly_row(table: &[u8], at: u16, row: &mut [u8]) -> u64
    ensures { (result ≡ row_answer table.now at (length row.old))
        × (row.new ≡ row_after table.now at row.old) }
{
    if row.len() < bytes::ROW_BYTES {
        return Refusal { number: 11, row: 0 }.pack();
    }
    let step = door_step::step_from(table, at);
    put_row(step, row);
    step.pack()
}

// ---- a table in two pieces

// Judges one recorded run in two pieces: `ask_check::check_both`, packed.
// Ruled out: one that judges the first piece alone; one that takes the pieces the other way round.
pub fn stramashly_check2(
    first: &[u8],
    second: &[u8],
    chains: u8,
    work: &mut [u64],
    cycle: &mut [u16],
) -> u64
    ensures { let answer = check_both (is_on chains) first.now second.now (length work.old) (length cycle.old) in
        (result ≡ pack_check (check_answer answer))
        × (work.new ≡ work_after answer work.old)
        × (cycle.new ≡ cycle_after answer cycle.old) }
{
    ask_check::check::check_both(first, second, !(chains == 0), work, cycle).pack()
}

// Fills the blanks of one recorded run in two pieces: `ask_fill::fill_both`, packed, with the number of rows of both where it filled them.
// Ruled out: one that tells the rows of the first piece alone; one that counts them with the pieces the other way round.
pub fn stramashly_fill2(
    first: &[u8],
    second: &[u8],
    chains: u8,
    work: &mut [u64],
    sources: &mut [u16],
) -> u64
    ensures { let answer = fill_both (is_on chains) first.now second.now
        (length work.old) (length sources.old) in
        (result ≡ pack_fill (fill_answer answer) (count_both first.now second.now))
        × (work.new ≡ Fill.work_after answer work.old)
        × (sources.new ≡ sources_after answer sources.old)
        × Bytes first.now × Bytes second.now }
{
    let answer = ask_fill::fill_both(first, second, !(chains == 0), work, sources);
    pack_fill(answer, door_pieces::count_both(first, second))
}

// How bad a recorded run in two pieces was: `ask_report::report_both`, packed; and the report's share, in the number lent for it.
// Ruled out: one that counts the pairs of each piece by itself; one that writes a share where no pair conflicts.
pub fn stramashly_report2(
    first: &[u8],
    second: &[u8],
    chains: u8,
    work: &mut [u64],
    cycle: &mut [u16],
    share: &mut f64,
) -> u64
    ensures { let judged = check_both (is_on chains) first.now second.now (length work.old) (length cycle.old) in
        let told = report_both (is_on chains) first.now second.now (length work.old) (length cycle.old) in
        (result ≡ pack_report told)
        × (work.new ≡ work_after judged work.old)
        × (cycle.new ≡ cycle_after judged cycle.old)
        × (share.new ≡ share_after told share.old) }
{
    let answer = ask_report::report_both(first, second, !(chains == 0), work, cycle);
    put_share(answer, share);
    answer.pack()
}

// Why moment m happens before moment k in a table in two pieces: `ask_derive::derive_both`, packed.
// Ruled out: one that refuses a moment of the second piece's rows; one that derives moment k before moment m.
pub fn stramashly_derive2(
    first: &[u8],
    second: &[u8],
    m: u16,
    k: u16,
    work: &mut [u64],
    chain: &mut [u16],
) -> u64
    ensures { let answer = derive_both first.now second.now m k (length work.old) (length chain.old) in
        (result ≡ pack_derive (derive_answer answer))
        × (work.new ≡ Derivation.work_after answer work.old)
        × (chain.new ≡ chain_after answer chain.old) }
{
    ask_derive::derive_both(first, second, m, k, work, chain).pack()
}

// Whether a derivation shows it in a table in two pieces: `ask_accepts::accepts_both`, packed.
// Ruled out: one that reads the steps in the first piece alone; one that reads them from moment k to moment m.
pub fn stramashly_accepts2(
    first: &[u8],
    second: &[u8],
    m: u16,
    k: u16,
    classes: u8,
    steps: &[u16],
) -> u64
    ensures { result ≡ pack_accept (accept_answer (judge_both first.now second.now m k (reason_of classes) steps.now)) }
{
    let answer = ask_accepts::accepts_both(first, second, m, k, reason_of(classes), steps);
    answer.map(Accepted).pack()
}

// Where row n of a table in two pieces has its sixteen bytes: `door_pieces::row_place`, packed. Nothing is copied.
// Ruled out: one that gives a place in a pair that is refused before 5; one that counts the second piece's rows from 0.
pub fn stramashly_row2<'a>(first: &'a [u8], second: &'a [u8], n: u16) -> u64
    ensures { result ≡ pack_place (row_place first.now second.now n) }
{
    door_pieces::row_place(first, second, n).pack()
}
