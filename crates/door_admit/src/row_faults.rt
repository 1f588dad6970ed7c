// Refusals 5 to 7, 19 and 20: a row by itself.
ghost use Rattle.std.specs.Prelude.{◌≡◌};
ghost use Rattle.model.specs.RowFault.{codes_fit, plain_fits, atomic_fits, barrier_fits, semantics_fit, bytes_fit, kind_fits, atomic_extent_fits, extent_fits};
ghost use Rattle.model.specs.Fault.{number_of};
ghost use Rattle.model.specs.RowFault.{agent_fits, operation_fits, form_fault, row_fault};
ghost use Rattle.door_admit.specs.Rows.{row_fault_in, first_refused};

use door_rows::{bytes, kinds, pick, scopes};
use model::{Fault, Places, Refusal, Row, Source};

pub const CLASSES: u8 = 15;

pub const FLAGS: u8 = 7;

pub const CLASS: u8 = 3;

// 5: each code is in range; `hosts` says whether there are kinds of queue agents. A control barrier has a scope in the place of its class.
pub fn codes_fit(hosts: bool, agents: u8, r: Row) -> bool
    ensures { result ≡ codes_fit hosts agents r }
{
    ((r.kind <= kinds::CONTROL) | hosts & kinds::is_operation(r))
        & (r.agent < agents)
        & (r.order <= kinds::BOTH)
        & (r.scope <= scopes::DEVICE)
        & (r.classes <= CLASSES)
        & (r.flags <= FLAGS)
        & (r.class <= pick::either(kinds::is_control(r), scopes::DEVICE, CLASS))
}

// 19: a host agent has plain rows, a queue agent operations, a shader agent the rest.
pub fn agent_fits(kind: u16, r: Row) -> bool
    ensures { result ≡ agent_fits kind r }
{
    let operation = kinds::is_operation(r);
    let other = pick::either(kind == scopes::QUEUE, operation, !operation);
    pick::either(kind == scopes::HOST, kinds::is_plain(r), other)
}

// 20: an operation has zeros in bytes 2 to 11 and as its rank, and no source.
pub fn operation_fits(r: Row, source: Source) -> bool
    ensures { result ≡ operation_fits r source.0 }
{
    (r.order == 0)
        & (r.scope == 0)
        & (r.classes == 0)
        & (r.flags == 0)
        & (r.class == 0)
        & (r.size == 0)
        & (r.start == 0)
        & (r.reference == 0)
        & (r.rank == 0)
        & source.is_initial()
}

// 6, of a plain row.
pub fn plain_fits(r: Row) -> bool
    ensures { result ≡ plain_fits r }
{
    let available = kinds::makes_available(r);
    let visible = kinds::makes_visible(r);
    let scoped = pick::either(
        available | visible,
        kinds::is_non_private(r),
        r.scope == scopes::INVOCATION,
    );
    (r.order == kinds::RELAXED)
        & (r.classes == 0)
        & !(kinds::reads(r) & available)
        & !(kinds::writes(r) & visible)
        & scoped
}

// 6, of an atomic row: each kind has its orders.
pub fn atomic_fits(r: Row) -> bool
    ensures { result ≡ atomic_fits r }
{
    let relaxed = r.order == kinds::RELAXED;
    kinds::is_non_private(r)
        & (!(r.kind == kinds::ATOMIC_READ) | relaxed | (r.order == kinds::ACQUIRE))
        & (!(r.kind == kinds::ATOMIC_WRITE) | relaxed | (r.order == kinds::RELEASE))
}

// 6, of a barrier. A control barrier may have order 0, a scope in byte 6, and a start.
pub fn barrier_fits(r: Row) -> bool
    ensures { result ≡ barrier_fits r }
{
    (kinds::is_control(r) | !(r.order == kinds::RELAXED) & (r.class == 0) & (r.start == 0))
        & !kinds::is_non_private(r)
        & (r.reference == 0)
}

// 6, of an atomic row or a barrier: its flags and classes go with its order.
pub fn semantics_fit(r: Row) -> bool
    ensures { result ≡ semantics_fit r }
{
    (!kinds::makes_available(r) | kinds::releases(r))
        & (!kinds::makes_visible(r) | kinds::acquires(r))
        & ((r.classes == 0) == (r.order == kinds::RELAXED))
}

// 6: what is no access has no bytes.
pub fn bytes_fit(r: Row) -> bool
    ensures { result ≡ bytes_fit r }
{
    kinds::is_access(r) | (r.size == 0)
}

// 6: kind fit. A plain row is asked what plain rows are.
pub fn kind_fits(r: Row, source: Source) -> bool
    ensures { result ≡ kind_fits r source.0 }
{
    if kinds::is_plain(r) {
        return plain_fits(r) & (kinds::reads(r) | source.is_initial()) & (r.rank == 0);
    }
    (!kinds::is_atomic(r) | atomic_fits(r))
        & (!kinds::is_barrier(r) | barrier_fits(r))
        & semantics_fit(r)
        & (kinds::reads(r) | source.is_initial())
        & (kinds::is_ranked(r) | (r.rank == 0))
        & bytes_fit(r)
}

pub const LONGEST: u8 = 16;

pub const BYTES: u32 = 65536;

pub const ATOMIC_SHORT: u16 = 4;

pub const ATOMIC_LONG: u16 = 8;

// 7, of an atomic row: 4 or 8 bytes, whose number divides the start.
pub fn atomic_extent_fits(r: Row) -> bool
    ensures { result ≡ atomic_extent_fits r }
{
    let size = r.size as u16;
    (size == ATOMIC_SHORT) & (r.start % ATOMIC_SHORT == 0)
        | (size == ATOMIC_LONG) & (r.start % ATOMIC_LONG == 0)
}

// 7: an access has 1 to 16 bytes, all below 65536, and an atomic row those of an atomic.
pub fn extent_fits(r: Row) -> bool
    ensures { result ≡ extent_fits r }
{
    let end = (r.start as u32) + (r.size as u32);
    (!kinds::is_access(r) | (1 <= r.size) & (r.size <= LONGEST) & (end <= BYTES))
        & (!kinds::is_atomic(r) | atomic_extent_fits(r))
}

// 20 of an operation, 6 and 7 of any other row.
pub fn form_fault(r: Row, source: Source) -> Result<(), Fault>
    ensures { number_of result ≡ form_fault r source.0 }
{
    if kinds::is_operation(r) {
        if !operation_fits(r, source) {
            return Err(Fault::OperationFit);
        }
        return Ok(());
    }
    if !kind_fits(r, source) {
        return Err(Fault::KindFit);
    }
    if !extent_fits(r) {
        return Err(Fault::Extent);
    }
    Ok(())
}

// Refusals 5, 19, 6 or 20, 7 of a row. Places are lent, since all of them by value would be copied.
// Ruled out: a barrier of class 4 gets 6, though 5 comes first; an access passes that goes on past the last byte, or an
// atomic of 8 bytes that starts at a multiple of 4.
pub fn row_fault(
    hosts: bool,
    p: &[[u16; 4]],
    agents: u8,
    r: Row,
    source: Source,
) -> Result<(), Fault>
    ensures { number_of result ≡ row_fault hosts p.now agents r source.0 }
{
    if !codes_fit(hosts, agents, r) {
        return Err(Fault::Code);
    }
    let x = scopes::place_in(p, r.agent);
    if !agent_fits(x[3], r) {
        return Err(Fault::AgentRow);
    }
    form_fault(r, source)
}

pub fn row_fault_at(
    rows: &[u8],
    hosts: bool,
    p: &[[u16; 4]],
    agents: u8,
    i: u16,
) -> Result<(), Fault>
    ensures { number_of result ≡ row_fault_in hosts p.now agents rows.now i }
{
    let r = bytes::read_row(rows, i);
    row_fault(hosts, p, agents, r, bytes::read_source(rows, i))
}

// The first of n rows that has a refusal of its own is refused for it.
// Ruled out: a later faulty row than the first; a fault in bytes past the n rows.
pub fn first_row_fault(
    rows: &[u8],
    hosts: bool,
    p: Places,
    agents: u8,
    n: u16,
) -> Result<(), Refusal>
    ensures { result ≡ first_refused (row_fault_in hosts p agents rows.now) n }
{
    for i in 0..n {
        if let Err(fault) = row_fault_at(rows, hosts, &p, agents, i) {
            return Err(Refusal::at(fault, i));
        }
    }
    Ok(())
}
