// The writer: places, rows and dependencies, as values, become a table in a lent buffer.
#![tactic(auto)]

ghost use Rattle.std.specs.Prelude.{◌≡◌, length};
ghost use Rattle.finite.specs.Below.{any_below};
ghost use Rattle.model.specs.Fault.{number_of};
ghost use Rattle.door_write.specs.Encode.{encode};
ghost use Rattle.door_write.specs.Answer.{version_known, counts_fit, number_over, dependencies_fit, values_fault, write_answer, buffer_after};
ghost use Rattle.door_write.specs.Answer.{write_result};

use door_rows::{bytes, scopes};
use model::{Admission, Entry, Fault, Places, Refusal};

pub mod encode; // the bytes of a table
pub mod parts; // values out of lent parts
pub mod read; // the values of a table

// How many dependencies there are, and the two rows of each.
#[derive(Clone, Copy)]
pub struct Dependencies {
    pub count: u16,
    pub first: [u16; 64],
    pub second: [u16; 64],
}

// The version of a table, and how many agents, rows and dependencies it has.
#[derive(Clone, Copy)]
pub struct Sizes {
    pub version: u8,
    pub agents: u8,
    pub rows: u8,
    pub dependencies: u16,
}

// ---- values that no bytes are made of

// 2
fn version_known(version: u8) -> bool
    ensures { result ≡ version_known version }
{
    (scopes::FIRST <= version) & (version <= bytes::HOSTS)
}

// 3
fn counts_fit(agents: u8, rows: u8) -> bool
    ensures { result ≡ counts_fit agents rows }
{
    (agents as usize <= model::AGENTS) & (rows as usize <= model::ROWS)
}

// Whether agent a's fourth number is over what the version allows.
fn number_over(version: u8, p: Places, a: u8) -> bool
    ensures { result ≡ number_over version p a }
{
    let kind = scopes::agent_kind(p, a);
    if encode::with_hosts(version) {
        return scopes::QUEUE < kind;
    }
    scopes::SHADER < kind
}

// 16: whether one of so many agents' is.
fn any_number_over(version: u8, p: Places, agents: u8) -> bool
    ensures { result ≡ any_below agents (number_over version p) }
{
    for a in 0..agents {
        if number_over(version, p, a) {
            return true;
        }
    }
    false
}

// 17
fn dependencies_fit(version: u8, n: u16) -> bool
    ensures { result ≡ dependencies_fit version n }
{
    if encode::with_hosts(version) {
        return n as usize <= model::DEPENDENCIES;
    }
    n <= 0
}

// Refusals 2, 3, 16 and 17.
// Ruled out: 65 dependencies of which one names no row get 18; a host agent passes in version 2.
fn values_fault(version: u8, agents: u8, p: Places, rows: u8, n: u16) -> Result<(), Fault>
    ensures { number_of result ≡ values_fault version agents p rows n }
{
    if !version_known(version) {
        return Err(Fault::Version);
    }
    if !counts_fit(agents, rows) {
        return Err(Fault::Limits);
    }
    if any_number_over(version, p, agents) {
        return Err(Fault::AgentKind);
    }
    if !dependencies_fit(version, n) {
        return Err(Fault::Dependencies);
    }
    Ok(())
}

// ---- writing

// Writes the table of these values, of which those past their counts don't matter, and gives how many bytes it has. A fill admits what is
// written.
// Ruled out: one that writes a part of the table before it refuses; one that clears the buffer after the table; one that refuses
// a blank, or a short buffer before what is wrong with a row.
pub fn write(
    version: u8,
    agents: u8,
    p: Places,
    count: u8,
    entries: [Entry; 128],
    d: Dependencies,
    out: &mut [u8],
) -> Result<u16, Refusal>
    ensures { let answer = write_answer version agents p count entries d (length out.old) in
        (result ≡ write_result answer) × (out.new ≡ buffer_after answer (encode version agents p count entries d) out.old) }
{
    values_fault(version, agents, p, count, d.count)?;
    let t = encode::encode_table(version, agents, p, count, entries, d);
    let size = encode::table_size(version, agents, count, d.count);
    let a = Admission::of(door_admit::admit(&t[..size], true));
    let Admission::Admitted { agents: _, rows: _ } = a else {
        return Err(model::refusal_of(a));
    };
    if out.len() < size {
        return Err(Fault::Room.into());
    }
    bytes::put(out, 0, &t, size);
    Ok(size as u16)
}
