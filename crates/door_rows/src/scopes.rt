// Agents' places (a term of our own), the scopes that two agents share, and mutually-ordered rows.
ghost use Rattle.std.specs.Prelude.{◌≡◌, ℕ, ◌+◌, ◌*◌, ◌<◌, false, List, [], slice_index, slice_index_or};
ghost use Rattle.model.specs.Header.{shader_place_at, any_place_at, slot_at, places_of};
ghost use Rattle.model.specs.Limits.{AGENTS};
ghost use Rattle.model.specs.Scope.{agent_kind, host, shares, together, same_location, mutual_rows, age, later, later_writer};
ghost use Rattle.model.specs.Table.{mode_of, row_of};
ghost use Rattle.door_rows.specs.Places.{IsPlace};
ghost use Rattle.door_rows.specs.Instances.{of_instance};

use crate::{bytes, kinds};
use model::{Places, Row};

// What an agent is, by the fourth number of its place.
pub const SHADER: u16 = 0;

pub const HOST: u16 = 1;

pub const QUEUE: u16 = 2;

pub const INVOCATION: u8 = 0;

pub const SUBGROUP: u8 = 1;

pub const WORKGROUP: u8 = 2;

pub const FAMILY: u8 = 3;

pub const DEVICE: u8 = 4;

// ---- places

// The numbers of agent a in a table without host agents.
fn read_three(s: &[u8], a: u8) -> [u16; 4]
    ensures { result ≡ shader_place_at s.now a }
{
    let at = bytes::HEADER + (a as usize) * bytes::PLACE_BYTES;
    [
        bytes::pair_at(s, at + 0),
        bytes::pair_at(s, at + 2),
        bytes::pair_at(s, at + 4),
        0,
    ]
}

// The numbers of agent a in a table with host agents.
fn read_four(s: &[u8], a: u8) -> [u16; 4]
    ensures { result ≡ any_place_at s.now a }
{
    let at = bytes::HEADER + (a as usize) * bytes::HOSTS_PLACE_BYTES;
    [
        bytes::pair_at(s, at + 0),
        bytes::pair_at(s, at + 2),
        bytes::pair_at(s, at + 4),
        bytes::pair_at(s, at + 6),
    ]
}

// The four numbers of agent a, zeros past the table's agents.
pub fn read_place(s: &[u8], a: u8) -> [u16; 4]
    ensures { result ≡ slot_at s.now a }
{
    if bytes::agents_at(s) <= a {
        return [0; 4];
    }
    if bytes::has_hosts(s) {
        return read_four(s, a);
    }
    read_three(s, a)
}

// A slot for each agent that there may be.
pub fn read_places(s: &[u8]) -> Places
    ensures { result ≡ places_of s.now }
{
    std::array::from_fn(
        |a: usize| -> [u16; 4]
            requires { a < AGENTS }
            ensures { result ≡ slot_at s.entry.now a }
        { read_place(s, a as u8) },
    )
}

// The first version, and the first with counted ranks.
pub const FIRST: u8 = 1;

pub const COUNTED: u8 = 2;

// Whether ranks are counted.
// Ruled out: one that counts them in version 1; one that doesn't in version 3.
pub fn is_counted(s: &[u8]) -> bool
    ensures { result ≡ (mode_of false s.now).counted }
{
    COUNTED <= bytes::byte_at(s, 4)
}

// Number k of agent a's place, and 0 for an agent that there is no slot for.
fn place_number(p: Places, a: u8, k: usize) -> u16
    requires { k < 4 }
    ensures { result ≡ slice_index (slice_index_or p a []) k }
{
    let i = a as usize;
    if i < model::AGENTS { p[i][k] } else { 0 }
}

// ---- scopes

// What agent a is.
pub fn agent_kind(p: Places, a: u8) -> u16
    ensures { result ≡ agent_kind p a }
{
    place_number(p, a, 3)
}

pub fn is_host(p: Places, a: u8) -> bool
    ensures { result ≡ host p a }
{
    agent_kind(p, a) == HOST
}

// The place of agent a, zeros for an agent that there is no slot for.
pub fn place_in(p: &[[u16; 4]], a: u8) -> [u16; 4]
    ensures { IsPlace p.now a result }
{
    let i = a as usize;
    if i < p.len() { p[i] } else { [0; 4] }
}

// Whether two agents, whose places are x and y, share the scope: scopes hold between shader agents only. It asks no number that the scope
// doesn't go by.
// Ruled out: one that takes queues for shader agents; one that compares workgroups of two families.
pub fn shares_at(scope: u8, a: u8, b: u8, x: [u16; 4], y: [u16; 4]) -> bool
    ensures { (p : List (List ℕ)) → IsPlace p a x → IsPlace p b y → result ≡ shares p scope a b }
{
    if (y[3] != SHADER) | (x[3] != SHADER) {
        return false;
    }
    if scope == DEVICE {
        return true;
    }
    if scope == INVOCATION {
        return a == b;
    }
    if x[0] != y[0] {
        return false;
    }
    if scope == FAMILY {
        return true;
    }
    if x[1] != y[1] {
        return false;
    }
    (scope == WORKGROUP) | (scope == SUBGROUP) & (x[2] == y[2])
}

// The same by their places among all.
pub fn shares_scope(p: Places, scope: u8, a: u8, b: u8) -> bool
    ensures { result ≡ shares p scope a b }
{
    let x = place_in(&p, a);
    let y = place_in(&p, b);
    shares_at(scope, a, b, x, y)
}

// Whether the agents of two rows share both rows' scopes.
pub fn together(p: Places, r: Row, q: Row) -> bool
    ensures { result ≡ together p r q }
{
    shares_scope(p, r.scope, r.agent, q.agent) & shares_scope(p, q.scope, r.agent, q.agent)
}

// ---- control barriers

// Whether row j is a control barrier of this instance. Most rows are of another, and the last byte of its number tells.
pub fn is_of_instance(rows: &[u8], instance: u16, j: u16) -> bool
    ensures { result ≡ of_instance instance (row_of rows.now j) }
{
    if bytes::row_byte(rows, j, 9) != (instance % 256) as u8 {
        return false;
    }
    if bytes::row_byte(rows, j, 8) != (instance / 256) as u8 {
        return false;
    }
    bytes::read_kind(rows, j) == kinds::CONTROL
}

// ---- mutually-ordered rows

pub fn same_location(r: Row, q: Row) -> bool
    ensures { result ≡ same_location r q }
{
    (r.start == q.start) & (r.size == q.size) & (r.reference == q.reference)
}

// Whether two rows, if they are different rows, are mutually-ordered.
pub fn is_mutual(p: Places, r: Row, q: Row) -> bool
    ensures { result ≡ mutual_rows p r q }
{
    kinds::is_atomic(r) & kinds::is_atomic(q) & same_location(r, q) & together(p, r, q)
}

// Half of the counts of 16 bits: as many as a run of consecutive ones has.
pub const RUN: u16 = 32768;

// How many counts rank a lies after rank b, wrapping.
pub fn age(a: u16, b: u16) -> u16
    ensures { result ≡ age a b }
{
    std::num::wrapping_sub_u16(a, b)
}

// Whether rank a is later than rank b: as numbers, or, where ranks are counted, by an age of 1 to 32767. Nothing else compares
// ranks, but for being equal and for fitting in a run.
// Ruled out: one that takes 0 as earlier than 65535 where ranks are counted; one that takes a rank as later than itself.
pub fn is_later(counted: bool, a: u16, b: u16) -> bool
    ensures { result ≡ later counted a b }
{
    let d = age(a, b);
    if counted { (1 <= d) & (d < RUN) } else { b < a }
}

pub fn is_later_writer(counted: bool, q: Row, r: Row) -> bool
    ensures { result ≡ later_writer counted q r }
{
    kinds::writes(q) & kinds::writes(r) & is_later(counted, q.rank, r.rank)
}
