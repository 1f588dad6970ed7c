// Reasons: a derivation that one moment of a table, in one or two pieces, happens before another, for a reader to accept, or that it does not.
#![tactic(auto)]

ghost use Rattle.std.specs.Prelude.{◌≡◌, true, ◌≤◌, length, Ok};
ghost use Rattle.bits.specs.Within.{Within};
ghost use Rattle.model.specs.Limits.{WORK, STEPS};
ghost use Rattle.run.specs.Layout.{table_of};
ghost use Rattle.model.specs.Reason.{two_moments, ours, derived_of, derive, derive_answer, chain_after, work_after};
ghost use Rattle.work_area.specs.Regions.{MUTUAL, CHAINS_END};
ghost use Rattle.door_pieces.specs.Pieces.{derive_both};
ghost use Rattle.door_open.specs.Opened.{RunOf};
ghost use Rattle.ask_derive.specs.Layers.{Asked};

use model::{DeriveAnswer, Refusal};
use run::Run;
use run_rows::moments::{self, Ends};

pub mod chains; // the class set of a chain, and its steps as numbers
pub mod layers; // the steps of a class set, and the layers of chains of them

// Refusal 12: whether each number names a moment of the table, and they are two.
fn two_moments(t: &Run, first: u16, second: u16) -> bool
    ensures { result ≡ two_moments (table_of t.now) first second }
{
    let r = t.row(first / 3);
    let q = t.row(second / 3);
    moments::moment_in(t.rows, r, first as usize)
        & moments::moment_in(t.rows, q, second as usize)
        & !(first == second)
}

// The word, or else a chain for the lowest class set that has one, its steps in c.
fn derive_moments(t: &Run, e: Ends, w: &mut [u64], c: &mut [u16]) -> DeriveAnswer
    requires { (WORK ≤ length w.old) × (STEPS ≤ length c.old) × Asked t.now.rows e.first e.second }
    ensures { (Ok result ≡ derive_answer (ours (table_of t.now) e.first e.second))
        × (c.new ≡ chain_after (ours (table_of t.now) e.first e.second) c.old)
        × Within MUTUAL CHAINS_END w.old w.new }
{
    let first = e.first as usize;
    let second = e.second as usize;
    if moments::ordered_at(t, first, second) {
        return DeriveAnswer::ProgramOrder;
    }
    flags_sync::sync::make_synced(t, w);
    let set = chains::find_set(t, first, second, w);
    if run_rows::cases::CLASS_SETS <= set {
        return DeriveAnswer::NotBefore;
    }
    let size = work_walks::apart::STEPS.layer_of(w, 3 * t.rows, first) + 1;
    chains::write_steps(t, set + 1, first, second, size, w, c);
    DeriveAnswer::Chain {
        classes: set + 1,
        steps: size as u16,
    }
}

// The derivation in the n rows of a table that is admitted; unless it is refusal 12, the work area's words end as zeros.
fn derive_rows(
    t: &Run,
    e: Ends,
    work: &mut [u64],
    chain: &mut [u16],
) -> Result<DeriveAnswer, Refusal>
    requires { (WORK ≤ length work.old) × (STEPS ≤ length chain.old) × RunOf true t.now.bytes t.now.rows }
    ensures { (result ≡ derive_answer (derived_of (table_of t.now) e.first e.second))
        × (work.new ≡ work_after (derived_of (table_of t.now) e.first e.second) work.old)
        × (chain.new ≡ chain_after (derived_of (table_of t.now) e.first e.second) chain.old) }
{
    if !two_moments(t, e.first, e.second) {
        return Err(Refusal { number: 12, row: 0 });
    }
    let r = derive_moments(t, e, work, chain);
    bits::clear(work, 0, model::WORK);
    Ok(r)
}

// Derives that moment m happens before moment k in a table in two pieces, whatever bytes they have and whatever the numbers are: a refusal,
// the word program order, a class set with the steps of a chain in the lent buffer, or that it doesn't.
// Ruled out: one that answers "not before" to every table; one that puts zeros after a chain's last step in the buffer.
pub fn derive_both(
    first: &[u8],
    second: &[u8],
    m: u16,
    k: u16,
    work: &mut [u64],
    chain: &mut [u16],
) -> Result<DeriveAnswer, Refusal>
    ensures { let answer = derive_both first.now second.now m k (length work.old) (length chain.old) in
        (result ≡ derive_answer answer)
        × (work.new ≡ work_after answer work.old)
        × (chain.new ≡ chain_after answer chain.old) }
{
    let t = door_open::enter(
        first,
        second,
        false,
        true,
        model::CHAIN,
        work.len(),
        chain.len(),
    )?;
    let e = Ends {
        first: m,
        second: k,
    };
    derive_rows(&t, e, work, chain)
}

// Derives that the first moment happens before the second in a table in one piece.
// Ruled out: one that derives the second moment before the first; one that takes the table for its own second piece too.
pub fn derive(
    table: &[u8],
    first: u16,
    second: u16,
    work: &mut [u64],
    chain: &mut [u16],
) -> Result<DeriveAnswer, Refusal>
    ensures { let answer = derive table.now first second (length work.old) (length chain.old) in
        (result ≡ derive_answer answer)
        × (work.new ≡ work_after answer work.old)
        × (chain.new ≡ chain_after answer chain.old) }
{
    derive_both(table, &table[..0], first, second, work, chain)
}
