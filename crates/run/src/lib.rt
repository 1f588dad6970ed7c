// A table as bytes with fixed places, and how many rows it has: made once and lent everywhere.
#![tactic(auto)]

ghost use Rattle.std.specs.Prelude.{◌≡◌, get_or, drop};
ghost use Rattle.finite.specs.Lists.{tabulate};
ghost use Rattle.model.specs.Limits.{DEPENDENCIES};
ghost use Rattle.model.specs.Table.{row_of, atomic_source, dependency_end, dependency, depends_of};
ghost use Rattle.model.specs.Scope.{shares, together};
ghost use Rattle.door_rows.specs.Places.{IsPlace};
ghost use Rattle.run.specs.Layout.{DEPENDS, places_in, mode_in, rows_in};

use door_rows::{bytes, scopes};
use model::{Places, Row, Source};

pub const SIZE: usize = 2570;

pub const DEPENDS: usize = 264;

pub const ROWS_AT: usize = 522;

#[derive(Clone, Copy)]
pub struct Run {
    pub bytes: [u8; SIZE],
    pub rows: usize,
}

// ---- over the bytes of a run as a slice, for what makes one

// All from a place on.
fn part(s: &[u8], at: usize) -> &[u8]
    ensures { result.now ≡ drop at s.now }
{
    if s.len() <= at {
        return &s[..0];
    }
    &s[at..]
}

pub fn rows_in(s: &[u8]) -> &[u8]
    ensures { result.now ≡ rows_in s.now }
{
    part(s, ROWS_AT)
}

pub fn places_in(s: &[u8]) -> Places
    ensures { result ≡ places_in s.now }
{
    scopes::read_places(s)
}

pub fn counted_in(s: &[u8]) -> bool
    ensures { result ≡ (mode_in s.now).counted }
{
    bytes::byte_at(s, 1) != 0
}

impl Run {
    pub fn row_bytes(&self) -> &[u8]
        ensures { result.now ≡ rows_in self.now.bytes }
    {
        rows_in(&self.bytes)
    }

    pub fn places(&self) -> Places
        ensures { result ≡ places_in self.now.bytes }
    {
        places_in(&self.bytes)
    }

    // ---- one of them

    pub fn counted(&self) -> bool
        ensures { result ≡ (mode_in self.now.bytes).counted }
    {
        counted_in(&self.bytes)
    }

    pub fn chains(&self) -> bool
        ensures { result ≡ (mode_in self.now.bytes).chains }
    {
        bytes::byte_at(&self.bytes, 2) != 0
    }

    pub fn row(&self, i: u16) -> Row
        ensures { result ≡ row_of (rows_in self.now.bytes) i }
    {
        bytes::read_row(self.row_bytes(), i)
    }

    pub fn start(&self, i: u16) -> u16
        ensures { result ≡ (row_of (rows_in self.now.bytes) i).start }
    {
        bytes::read_start(self.row_bytes(), i)
    }

    pub fn kind(&self, i: u16) -> u8
        ensures { result ≡ (row_of (rows_in self.now.bytes) i).kind }
    {
        bytes::read_kind(self.row_bytes(), i)
    }

    pub fn agent(&self, i: u16) -> u8
        ensures { result ≡ (row_of (rows_in self.now.bytes) i).agent }
    {
        bytes::read_agent(self.row_bytes(), i)
    }

    pub fn classes(&self, i: u16) -> u8
        ensures { result ≡ (row_of (rows_in self.now.bytes) i).classes }
    {
        bytes::read_classes(self.row_bytes(), i)
    }

    pub fn flags(&self, i: u16) -> u8
        ensures { result ≡ (row_of (rows_in self.now.bytes) i).flags }
    {
        bytes::row_byte(self.row_bytes(), i, 5)
    }

    // An atomic row's source; the initial value for every other row.
    pub fn atomic_source(&self, i: u16) -> Source
        ensures { result.0 ≡ atomic_source (rows_in self.now.bytes) i }
    {
        bytes::atomic_source(self.row_bytes(), i)
    }

    // ---- dependencies

    // Ruled out: one that gives how many a table may have; one that reads the header's count of rows.
    pub fn dependencies(&self) -> u16
        ensures { result ≡ (mode_in self.now.bytes).dependencies }
    {
        bytes::pair_at(part(&self.bytes, DEPENDS), 0)
    }

    // A row of dependency k, by its byte in the first of them; 0 for one that there is no slot for.
    fn end_of(&self, at: u8, k: u16) -> u16
        ensures { result ≡ get_or (tabulate (dependency_end (drop DEPENDS self.now.bytes) at) DEPENDENCIES) k 0 }
    {
        let i = k as usize;
        if i < model::DEPENDENCIES {
            return bytes::pair_at(
                part(&self.bytes, DEPENDS),
                (at as usize) + i * bytes::DEPENDENCY_BYTES,
            );
        }
        0
    }

    // The row that system-synchronizes-with another, and that other row, by dependency k.
    // Ruled out: one that exchanges the two; one that reads what the next dependency says.
    pub fn first_of(&self, k: u16) -> u16
        ensures { result ≡ get_or (mode_in self.now.bytes).first k 0 }
    {
        self.end_of(2, k)
    }

    pub fn second_of(&self, k: u16) -> u16
        ensures { result ≡ get_or (mode_in self.now.bytes).second k 0 }
    {
        self.end_of(4, k)
    }

    // Whether dependency k is of the rows x and y, in this order.
    fn is_dependency(&self, x: u16, y: u16, k: u16) -> bool
        ensures { result ≡ dependency (mode_in self.now.bytes) x y k }
    {
        (self.first_of(k) == x) & (self.second_of(k) == y)
    }

    // Whether a dependency is of the rows x and y: x system-synchronizes-with y.
    // Ruled out: one that takes a dependency in either direction; one that leaves the last dependency out.
    pub fn depends(&self, x: u16, y: u16) -> bool
        ensures { result ≡ depends_of (mode_in self.now.bytes) x y }
    {
        for k in 0..self.dependencies() {
            if self.is_dependency(x, y, k) {
                return true;
            }
        }
        false
    }

    // ---- of two agents

    // The place of an agent, zeros for one that there is no slot for.
    fn place(&self, a: u8) -> [u16; 4]
        ensures { IsPlace (places_in self.now.bytes) a result }
    {
        if (a as usize) < model::AGENTS {
            return scopes::read_place(&self.bytes, a);
        }
        [0; 4]
    }

    // Whether they share the scope. Their two places are read, and no other.
    pub fn shares(&self, scope: u8, a: u8, b: u8) -> bool
        ensures { result ≡ shares (places_in self.now.bytes) scope a b }
    {
        let x = self.place(a);
        let y = self.place(b);
        scopes::shares_at(scope, a, b, x, y)
    }

    // Whether the agents of two rows share both rows' scopes.
    pub fn together(&self, r: Row, q: Row) -> bool
        ensures { result ≡ together (places_in self.now.bytes) r q }
    {
        self.shares(r.scope, r.agent, q.agent) & self.shares(q.scope, r.agent, q.agent)
    }
}
