// The reader of derivations, whoever wrote them: kept apart from the engine, and small, to be read in one sitting.
#![tactic(auto)]

ghost use Rattle.std.specs.Prelude.{◌≡◌, true, ◌*◌, ◌/◌, ◌≤◌, ◌<◌, eqb};
ghost use Rattle.finite.specs.Logic.{◌and◌};
ghost use Rattle.model.specs.Limits.{ROWS};
ghost use Rattle.run.specs.Layout.{table_of};
ghost use Rattle.model.specs.Moment.{moment};
ghost use Rattle.model.specs.Synchronizes.{synchronizes};
ghost use Rattle.model.specs.Happens.{CASES, by_system, direct};
ghost use Rattle.model.specs.Reason.{step_holds, accepts, judged, judge, accept_answer};
ghost use Rattle.door_pieces.specs.Pieces.{judge_both};
ghost use Rattle.door_open.specs.Opened.{RunOf};
ghost use Rattle.ask_accepts.specs.Judging.{leads_to};

use model::{Reason, Refusal};
use run::Run;
use run_rows::moments::Ends;
use run_rows::{cases, moments};

pub mod sync; // M4 and M5, from the rows alone

// Whether the table has a moment m.
fn is_there(t: &Run, m: u16) -> bool
    ensures { result ≡ moment (table_of t.now) m }
{
    moments::moment_in(t.rows, t.row(m / 3), m as usize)
}

// Whether m and k are the own moments of two rows of which the first system-synchronizes-with the second, as the last case asks. All
// dependencies are read for that, so for no other.
fn is_system(t: &Run, case: u16, m: u16, k: u16) -> bool
    ensures { result ≡ (eqb case CASES and by_system (table_of t.now) m k) }
{
    if !(case == cases::CASES) {
        return false;
    }
    ((m % 3) as u8 == moments::AT) & ((k % 3) as u8 == moments::AT) & t.depends(m / 3, k / 3)
}

// Whether the row of moment m synchronizes-with the row of moment k, as the first case asks. That walks over all rows, so no other does.
fn is_synced(t: &Run, case: u16, m: u16, k: u16) -> bool
    requires { (t.now.rows ≤ ROWS) × (m < 3 * t.now.rows) × (k < 3 * t.now.rows) }
    ensures { result ≡ (eqb case 1 and synchronizes (table_of t.now) (m / 3) (k / 3)) }
{
    if !(case == 1) {
        return false;
    }
    sync::sync_at(t, (m / 3) as usize, (k / 3) as usize)
}

// M6: whether the direct case of this number leads from the first moment to the second for the class set s.
fn is_direct(t: &Run, s: u8, case: u16, e: Ends) -> bool
    requires { (t.now.rows ≤ ROWS) × (e.first < 3 * t.now.rows) × (e.second < 3 * t.now.rows) }
    ensures { result ≡ direct (table_of t.now) s case e.first e.second }
{
    let m = e.first;
    let k = e.second;
    let r = t.row(m / 3);
    let q = t.row(k / 3);
    let b = is_synced(t, case, m, k);
    let o = moments::is_ordered(t.rows, m as usize, k as usize, r, q);
    cases::is_case(case, s, (m % 3) as u8, (k % 3) as u8, r, q, b, o) | is_system(t, case, m, k)
}

// Whether the step x, CASE × its case + the moment that it reaches, holds from moment m for the class set s.
fn is_step(t: &Run, s: u8, m: u16, x: u16) -> bool
    requires { (t.now.rows ≤ ROWS) × (m < 3 * t.now.rows) }
    ensures { result ≡ step_holds (table_of t.now) s m x }
{
    let k = x % model::CASE;
    if !is_there(t, k) {
        return false;
    }
    let e = Ends {
        first: m,
        second: k,
    };
    is_direct(t, s, x / model::CASE, e)
}

// Whether steps that hold for the class set s, each from where the one before ends, lead from the first moment to the second.
fn is_chain(t: &Run, s: u8, e: Ends, steps: &[u16]) -> bool
    requires { (t.now.rows ≤ ROWS) × (e.first < 3 * t.now.rows) }
    ensures { result ≡ leads_to (table_of t.now) s e.first e.second steps.now }
{
    let mut m = e.first;
    for x in steps {
        if !is_step(t, s, m, *x) {
            return false;
        }
        m = *x % model::CASE;
    }
    m == e.second
}

// Whether the derivation is accepted that the first moment happens before the second.
fn is_accepted(t: &Run, e: Ends, why: Reason, steps: &[u16]) -> bool
    requires { (t.now.rows ≤ ROWS) × (e.first < 3 * t.now.rows) × (e.second < 3 * t.now.rows) }
    ensures { result ≡ accepts (table_of t.now) e.first e.second why steps.now }
{
    let count = steps.len();
    let Reason::Chain(s) = why else {
        return (count == 0) & moments::ordered_at(t, e.first as usize, e.second as usize);
    };
    if !((0 < s) & (s <= cases::CLASS_SETS) & (0 < count) & (count <= model::CHAIN)) {
        return false;
    }
    is_chain(t, s, e, steps)
}

// Whether the derivation is accepted, of the n rows of a table that is admitted; refusal 12, where it is not of two of its moments.
fn judge_rows(t: &Run, e: Ends, reason: Reason, steps: &[u16]) -> Result<bool, Refusal>
    requires { RunOf true t.now.bytes t.now.rows }
    ensures { result ≡ accept_answer (judged (table_of t.now) e.first e.second reason steps.now) }
{
    if !(is_there(t, e.first) & is_there(t, e.second) & !(e.first == e.second)) {
        return Err(Refusal { number: 12, row: 0 });
    }
    Ok(is_accepted(t, e, reason, steps))
}

// Judges a derivation that moment m happens before moment k in a table in two pieces, of any bytes and any two numbers: a refusal, or
// whether it is accepted.
// Ruled out: one that accepts a chain whose steps hold for different class sets; one that accepts an empty chain.
pub fn accepts_both(
    first: &[u8],
    second: &[u8],
    m: u16,
    k: u16,
    reason: Reason,
    steps: &[u16],
) -> Result<bool, Refusal>
    ensures { result ≡ accept_answer (judge_both first.now second.now m k reason steps.now) }
{
    let t = door_open::enter(first, second, false, true, 0, model::WORK, 0)?;
    let e = Ends {
        first: m,
        second: k,
    };
    judge_rows(&t, e, reason, steps)
}

// Judges a derivation that the first moment happens before the second in a table in one piece.
// Ruled out: one that reads from the second moment to the first; one that takes the table for its own second piece too.
pub fn accepts(
    table: &[u8],
    first: u16,
    second: u16,
    reason: Reason,
    steps: &[u16],
) -> Result<bool, Refusal>
    ensures { result ≡ accept_answer (judge table.now first second reason steps.now) }
{
    accepts_both(table, &table[..0], first, second, reason, steps)
}
