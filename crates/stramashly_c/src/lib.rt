// What C links: each function of the crate `stramashly` under its own name, with the same promise.
#![tactic(auto)]

ghost use Rattle.std.specs.Prelude.{◌≡◌, true, length};
ghost use Rattle.model.specs.Check.{check, check_answer, cycle_after, work_after};
ghost use Rattle.model.specs.Fill.{fill, fill_answer, sources_after};
ghost use Rattle.model.specs.Fill as Fill;
ghost use Rattle.model.specs.Reason.{derive, derive_answer, chain_after, judge, accept_answer};
ghost use Rattle.model.specs.Reason as Derivation;
ghost use Rattle.model.specs.Report.{report};
ghost use Rattle.model.specs.Header.{rows_at};
ghost use Rattle.model.specs.Refusal.{admission};
ghost use Rattle.model_laws.specs.FilledLaws.{Bytes};
ghost use Rattle.door_write.specs.Answer.{buffer_after};
ghost use Rattle.door_write.specs.Parts.{parts_answer, parts_table};
ghost use Rattle.door_write.specs.Read.{read_answer, places_after, rows_after, dependencies_after};
ghost use Rattle.stramashly.specs.Packed.{pack_place, pack_check, pack_fill, pack_derive, pack_accept, pack_report, share_after, reason_of, is_on};
ghost use Rattle.stramashly.specs.Packed.{pack_write, pack_read, pack_open, row_answer, row_after};
ghost use Rattle.door_pieces.specs.Pieces.{count_both, check_both, fill_both, report_both, derive_both, judge_both, row_place};

// `stramashly::stramashly_check`, for C.
#[unsafe(no_mangle)]
pub extern "C" fn stramashly_check(
    table: &[u8],
    chains: u8,
    work: &mut [u64],
    cycle: &mut [u16],
) -> u64
    ensures { let answer = check (is_on chains) table.now (length work.old) (length cycle.old) in
        (result ≡ pack_check (check_answer answer))
        × (work.new ≡ work_after answer work.old)
        × (cycle.new ≡ cycle_after answer cycle.old) }
{
    stramashly::stramashly_check(table, chains, work, cycle)
}

// `stramashly::stramashly_check_by_flags`, for C.
#[unsafe(no_mangle)]
pub extern "C" fn stramashly_check_by_flags(
    table: &[u8],
    chains: u8,
    work: &mut [u64],
    cycle: &mut [u16],
) -> u64
    ensures { let answer = check (is_on chains) table.now (length work.old) (length cycle.old) in
        (result ≡ pack_check (check_answer answer))
        × (work.new ≡ work_after answer work.old)
        × (cycle.new ≡ cycle_after answer cycle.old) }
{
    stramashly::stramashly_check_by_flags(table, chains, work, cycle)
}

// `stramashly::stramashly_fill`, for C.
#[unsafe(no_mangle)]
pub extern "C" fn stramashly_fill(
    table: &[u8],
    chains: u8,
    work: &mut [u64],
    sources: &mut [u16],
) -> u64
    ensures { let answer = fill (is_on chains) table.now (length work.old) (length sources.old) in
        (result ≡ pack_fill (fill_answer answer) (rows_at table.now))
        × (work.new ≡ Fill.work_after answer work.old)
        × (sources.new ≡ sources_after answer sources.old)
        × Bytes table.now }
{
    stramashly::stramashly_fill(table, chains, work, sources)
}

// `stramashly::stramashly_fill_by_flags`, for C.
#[unsafe(no_mangle)]
pub extern "C" fn stramashly_fill_by_flags(
    table: &[u8],
    chains: u8,
    work: &mut [u64],
    sources: &mut [u16],
) -> u64
    ensures { let answer = fill (is_on chains) table.now (length work.old) (length sources.old) in
        (result ≡ pack_fill (fill_answer answer) (rows_at table.now))
        × (work.new ≡ Fill.work_after answer work.old)
        × (sources.new ≡ sources_after answer sources.old)
        × Bytes table.now }
{
    stramashly::stramashly_fill_by_flags(table, chains, work, sources)
}

// `stramashly::stramashly_derive`, for C.
#[unsafe(no_mangle)]
pub extern "C" fn stramashly_derive(
    table: &[u8],
    first: u16,
    second: u16,
    work: &mut [u64],
    chain: &mut [u16],
) -> u64
    ensures { let answer = derive table.now first second (length work.old) (length chain.old) in
        (result ≡ pack_derive (derive_answer answer))
        × (work.new ≡ Derivation.work_after answer work.old)
        × (chain.new ≡ chain_after answer chain.old) }
{
    stramashly::stramashly_derive(table, first, second, work, chain)
}

// `stramashly::stramashly_accepts`, for C.
#[unsafe(no_mangle)]
pub extern "C" fn stramashly_accepts(
    table: &[u8],
    first: u16,
    second: u16,
    classes: u8,
    steps: &[u16],
) -> u64
    ensures { result ≡ pack_accept (accept_answer (judge table.now first second (reason_of classes) steps.now)) }
{
    stramashly::stramashly_accepts(table, first, second, classes, steps)
}

// `stramashly::stramashly_report`, for C.
#[unsafe(no_mangle)]
pub extern "C" fn stramashly_report(
    table: &[u8],
    chains: u8,
    work: &mut [u64],
    cycle: &mut [u16],
    share: &mut f64,
) -> u64
    ensures { let judged = check (is_on chains) table.now (length work.old) (length cycle.old) in
        let told = report (is_on chains) table.now (length work.old) (length cycle.old) in
        (result ≡ pack_report told)
        × (work.new ≡ work_after judged work.old)
        × (cycle.new ≡ cycle_after judged cycle.old)
        × (share.new ≡ share_after told share.old) }
{
    stramashly::stramashly_report(table, chains, work, cycle, share)
}

// `stramashly::stramashly_write`, for C.
#[unsafe(no_mangle)]
pub extern "C" fn stramashly_write(
    version: u8,
    places: &[u16],
    rows: &[u8],
    dependencies: &[u16],
    out: &mut [u8],
) -> u64
    ensures { let answer = parts_answer version places.now rows.now dependencies.now (length out.old) in
        let table = parts_table version places.now rows.now dependencies.now in
        (result ≡ pack_write answer) × (out.new ≡ buffer_after answer table out.old) }
{
    stramashly::stramashly_write(version, places, rows, dependencies, out)
}

// `stramashly::stramashly_read`, for C.
#[unsafe(no_mangle)]
pub extern "C" fn stramashly_read(
    table: &[u8],
    places: &mut [u16],
    rows: &mut [u8],
    dependencies: &mut [u16],
) -> u64
    ensures { let s = table.now in
        let answer = read_answer s (length places.old) (length rows.old) (length dependencies.old) in
        (result ≡ pack_read answer)
        × (places.new ≡ places_after answer s places.old)
        × (rows.new ≡ rows_after answer s rows.old)
        × (dependencies.new ≡ dependencies_after answer s dependencies.old) }
{
    stramashly::stramashly_read(table, places, rows, dependencies)
}

// `stramashly::stramashly_open`, for C.
#[unsafe(no_mangle)]
pub extern "C" fn stramashly_open(table: &[u8]) -> u64
    ensures { result ≡ pack_open (admission true table.now) }
{
    stramashly::stramashly_open(table)
}

// `stramashly::stramashly_row`, for C.
#[unsafe(no_mangle)]
pub extern "C" fn stramashly_row(table: &[u8], at: u16, row: &mut [u8]) -> u64
    ensures { (result ≡ row_answer table.now at (length row.old))
        × (row.new ≡ row_after table.now at row.old) }
{
    stramashly::stramashly_row(table, at, row)
}

// `stramashly::stramashly_check2`, for C.
#[unsafe(no_mangle)]
pub extern "C" fn stramashly_check2(
    first: &[u8],
    second: &[u8],
    chains: u8,
    work: &mut [u64],
    cycle: &mut [u16],
) -> u64
    ensures { let answer = check_both (is_on chains) first.now second.now (length work.old) (length cycle.old) in
        (result ≡ pack_check (check_answer answer))
        × (work.new ≡ work_after answer work.old)
        × (cycle.new ≡ cycle_after answer cycle.old) }
{
    stramashly::stramashly_check2(first, second, chains, work, cycle)
}

// `stramashly::stramashly_fill2`, for C.
#[unsafe(no_mangle)]
pub extern "C" fn stramashly_fill2(
    first: &[u8],
    second: &[u8],
    chains: u8,
    work: &mut [u64],
    sources: &mut [u16],
) -> u64
    ensures { let answer = fill_both (is_on chains) first.now second.now
        (length work.old) (length sources.old) in
        (result ≡ pack_fill (fill_answer answer) (count_both first.now second.now))
        × (work.new ≡ Fill.work_after answer work.old)
        × (sources.new ≡ sources_after answer sources.old)
        × Bytes first.now × Bytes second.now }
{
    stramashly::stramashly_fill2(first, second, chains, work, sources)
}

// `stramashly::stramashly_report2`, for C.
#[unsafe(no_mangle)]
pub extern "C" fn stramashly_report2(
    first: &[u8],
    second: &[u8],
    chains: u8,
    work: &mut [u64],
    cycle: &mut [u16],
    share: &mut f64,
) -> u64
    ensures { let judged = check_both (is_on chains) first.now second.now (length work.old) (length cycle.old) in
        let told = report_both (is_on chains) first.now second.now (length work.old) (length cycle.old) in
        (result ≡ pack_report told)
        × (work.new ≡ work_after judged work.old)
        × (cycle.new ≡ cycle_after judged cycle.old)
        × (share.new ≡ share_after told share.old) }
{
    stramashly::stramashly_report2(first, second, chains, work, cycle, share)
}

// `stramashly::stramashly_derive2`, for C.
#[unsafe(no_mangle)]
pub extern "C" fn stramashly_derive2(
    first: &[u8],
    second: &[u8],
    m: u16,
    k: u16,
    work: &mut [u64],
    chain: &mut [u16],
) -> u64
    ensures { let answer = derive_both first.now second.now m k (length work.old) (length chain.old) in
        (result ≡ pack_derive (derive_answer answer))
        × (work.new ≡ Derivation.work_after answer work.old)
        × (chain.new ≡ chain_after answer chain.old) }
{
    stramashly::stramashly_derive2(first, second, m, k, work, chain)
}

// `stramashly::stramashly_accepts2`, for C.
#[unsafe(no_mangle)]
pub extern "C" fn stramashly_accepts2(
    first: &[u8],
    second: &[u8],
    m: u16,
    k: u16,
    classes: u8,
    steps: &[u16],
) -> u64
    ensures { result ≡ pack_accept (accept_answer (judge_both first.now second.now m k (reason_of classes) steps.now)) }
{
    stramashly::stramashly_accepts2(first, second, m, k, classes, steps)
}

// `stramashly::stramashly_row2`, for C.
#[unsafe(no_mangle)]
pub extern "C" fn stramashly_row2<'a>(first: &'a [u8], second: &'a [u8], n: u16) -> u64
    ensures { result ≡ pack_place (row_place first.now second.now n) }
{
    stramashly::stramashly_row2(first, second, n)
}
