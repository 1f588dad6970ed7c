// Refusals 1 to 4, and 16 to 18: what the header tells, the table's length, its agents and its dependencies.
ghost use Rattle.std.specs.Prelude.{◌≡◌};
ghost use Rattle.finite.specs.Below.{any_below};
ghost use Rattle.model.specs.Table.{dependency_count};
ghost use Rattle.model.specs.Header.{size_of};
ghost use Rattle.model.specs.Refusal.{version_fits, limits_fit, length_fits, kind_over, names_missing, header_fault, shape_fault};
ghost use Rattle.model.specs.Fault.{number_of};
ghost use Rattle.door_admit.specs.Rows.{hosts_fault_in};

use door_rows::{bytes, scopes};
use model::{Fault, Places};

pub fn version_fits(s: &[u8]) -> bool
    ensures { result ≡ version_fits s.now }
{
    let version = bytes::byte_at(s, 4);
    (scopes::FIRST <= version) & (version <= bytes::HOSTS) & (bytes::byte_at(s, 7) == 0)
}

pub fn limits_fit(s: &[u8]) -> bool
    ensures { result ≡ limits_fit s.now }
{
    (bytes::agents_at(s) as usize <= model::AGENTS) & (bytes::rows_at(s) as usize <= model::ROWS)
}

// How long the table is: with host agents, a count of dependencies and these come after the rows.
pub fn size_of(s: &[u8]) -> usize
    ensures { result ≡ size_of s.now }
{
    let end = bytes::rows_end(s);
    if bytes::has_hosts(s) {
        return end + 2 + bytes::DEPENDENCY_BYTES * (bytes::pair_at(s, end) as usize);
    }
    end
}

// The count is of the bytes after its own four.
pub fn length_fits(s: &[u8]) -> bool
    ensures { result ≡ length_fits s.now }
{
    let size = size_of(s);
    let count = bytes::quad_at(s, 0) as usize;
    (count + 4 == size) & (s.len() == size)
}

// ---- 16 to 18

// Whether agent a is neither a shader, nor a host, nor a queue agent.
fn kind_over(p: Places, a: u8) -> bool
    ensures { result ≡ kind_over p a }
{
    scopes::QUEUE < scopes::agent_kind(p, a)
}

// 16: whether one of so many agents is.
fn any_kind_over(p: Places, agents: u8) -> bool
    ensures { result ≡ any_below agents (kind_over p) }
{
    for a in 0..agents {
        if kind_over(p, a) {
            return true;
        }
    }
    false
}

// Whether the k-th dependency names a row that there is not.
fn names_none(d: &[u8], rows: u8, k: u16) -> bool
    ensures { result ≡ names_missing d.now rows k }
{
    let n = rows as u16;
    !((bytes::dependency_from(d, k) < n) & (bytes::dependency_to(d, k) < n))
}

// 18: whether one of the dependencies does.
fn any_names_none(d: &[u8], rows: u8) -> bool
    ensures { result ≡ any_below (dependency_count d.now) (names_missing d.now rows) }
{
    let count = bytes::pair_at(d, 0);
    for k in 0..count {
        if names_none(d, rows, k) {
            return true;
        }
    }
    false
}

// Refusals 16 to 18 of so many agents with these places, and of the dependencies in their bytes, among so many rows. More
// dependencies than there may be are not looked at.
// Ruled out: 65 dependencies of which one names no row get 18; a dependency whose second row alone is there passes.
pub fn hosts_fault(p: Places, agents: u8, d: &[u8], rows: u8) -> Result<(), Fault>
    ensures { number_of result ≡ hosts_fault_in p agents d.now rows }
{
    if any_kind_over(p, agents) {
        return Err(Fault::AgentKind);
    }
    if model::DEPENDENCIES < bytes::pair_at(d, 0) as usize {
        return Err(Fault::Dependencies);
    }
    if any_names_none(d, rows) {
        return Err(Fault::Dependency);
    }
    Ok(())
}

// Refusals 1 to 4.
// Ruled out: a table that is longer than bytes 0 to 3 tell passes; a table of four bytes, whose version reads as 0, gets 2
// and not 1.
pub fn shape_fault(s: &[u8]) -> Result<(), Fault>
    ensures { number_of result ≡ shape_fault s.now }
{
    if s.len() < bytes::HEADER {
        return Err(Fault::Short);
    }
    if !version_fits(s) {
        return Err(Fault::Version);
    }
    if !limits_fit(s) {
        return Err(Fault::Limits);
    }
    if !length_fits(s) {
        return Err(Fault::Length);
    }
    Ok(())
}

// Refusals 1 to 4 and 16 to 18.
pub fn header_fault(s: &[u8]) -> Result<(), Fault>
    ensures { number_of result ≡ header_fault s.now }
{
    shape_fault(s)?;
    let p = scopes::read_places(s);
    let d = bytes::dependency_bytes(s);
    hosts_fault(p, bytes::agents_at(s), d, bytes::rows_at(s))
}
