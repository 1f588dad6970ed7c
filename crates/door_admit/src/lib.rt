// Admission: refusals 1 to 10, and 14 to 20, each a test of its own, in their order.
#![tactic(auto)]

ghost use Rattle.std.specs.Prelude.{◌≡◌};
ghost use Rattle.model.specs.Refusal.{admission, admission_answer};
ghost use Rattle.door_admit.specs.Rows.{rows_admission};

use door_rows::{bytes, scopes};
use model::{Counts, Places, Refusal};

pub mod header; // 1 to 4, 16 to 18
pub mod row_faults; // 5 to 7, 19, 20: a row by itself
pub mod table_faults; // 8 to 10, 14, 15: a row among the others

// ---- in their order: a refusal returns at once, and never reaches the rules

// What the rows are refused for, or the counts of their table: rows ascending through 5, 19, 6 or 20, 7; then rows ascending through
// 8 to 10, 14 and 15.
pub fn admit_rows(
    rows: &[u8],
    hosts: bool,
    p: Places,
    counted: bool,
    agents: u8,
    count: u8,
    blanks: bool,
) -> Result<Counts, Refusal>
    ensures { result ≡ admission_answer (rows_admission blanks hosts agents rows.now p counted count) }
{
    let n = count as u16;
    row_faults::first_row_fault(rows, hosts, p, agents, n)?;
    table_faults::first_table_fault(rows, p, counted, n, blanks)?;
    Ok(Counts {
        agents,
        rows: count,
    })
}

// What a table is refused for, first by its header and then by its rows; or its counts. `blanks` says whether a blank is allowed: in a
// fill, not in a check.
// Two wrong programs that the contract rules out: one that tries 5 on all rows before 6 on any, so that row 3's refusal 5
// hides row 1's refusal 6; one that lets a blank pass in a check, or in a fill on an atomic read.
pub fn admit(s: &[u8], blanks: bool) -> Result<Counts, Refusal>
    ensures { result ≡ admission_answer (admission blanks s.now) }
{
    header::header_fault(s)?;
    admit_rows(
        bytes::row_bytes(s),
        bytes::has_hosts(s),
        scopes::read_places(s),
        scopes::is_counted(s),
        bytes::agents_at(s),
        bytes::rows_at(s),
        blanks,
    )
}
