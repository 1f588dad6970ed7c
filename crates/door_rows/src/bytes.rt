// Numbers, rows and sources out of the bytes of a table, and copying bytes. Each reader is total: past the end a byte is 0.
ghost use Rattle.std.specs.Prelude.{◌≡◌, ◌+◌, ◌*◌, ◌<◌, ◌≤◌, length, slice_index};
ghost use Rattle.std.proofs.Math.Seq.{paste};
ghost use Rattle.finite.specs.Lists.{tabulate};
ghost use Rattle.model.specs.Limits.{DEPENDENCIES};
ghost use Rattle.model.specs.Table.{dependency_end};
ghost use Rattle.model.specs.Header.{pair_at, quad_at, agents_at, rows_at, has_hosts, rows_begin, rows_end, row_bytes, dependency_bytes};
ghost use Rattle.model.specs.Table.{dependency_from, dependency_to, byte_of, pair_of, row_of, source_of, atomic_source};
ghost use Rattle.model.specs.Header.{ROW_BYTES};

use crate::kinds;
use model::{Row, Source};

pub const HEADER: usize = 8;

// The version that has host agents.
pub const HOSTS: u8 = 3;

pub const PLACE_BYTES: usize = 6;

pub const HOSTS_PLACE_BYTES: usize = 8;

pub const DEPENDENCY_BYTES: usize = 4;

pub const ROW_BYTES: usize = 16;

pub fn byte_at(s: &[u8], at: usize) -> u8
    ensures { result ≡ slice_index s.now at }
{
    s.get(at).copied().unwrap_or(0)
}

// The two bytes at a place, big-endian. Past the end it asks for no next place, which might not be a number.
pub fn pair_at(s: &[u8], at: usize) -> u16
    ensures { result ≡ pair_at s.now at }
{
    if s.len() <= at {
        return 0;
    }
    (byte_at(s, at) as u16) * 256 + (byte_at(s, at + 1) as u16)
}

pub fn quad_at(s: &[u8], at: usize) -> u32
    ensures { result ≡ quad_at s.now at }
{
    if s.len() <= at {
        return 0;
    }
    (pair_at(s, at) as u32) * 65536 + (pair_at(s, at + 2) as u32)
}

// How many agents the header tells.
pub fn agents_at(s: &[u8]) -> u8
    ensures { result ≡ agents_at s.now }
{
    byte_at(s, 5)
}

pub fn rows_at(s: &[u8]) -> u8
    ensures { result ≡ rows_at s.now }
{
    byte_at(s, 6)
}

// Whether the table has host agents.
pub fn has_hosts(s: &[u8]) -> bool
    ensures { result ≡ has_hosts s.now }
{
    byte_at(s, 4) == HOSTS
}

pub fn rows_begin(s: &[u8]) -> usize
    ensures { (result ≡ rows_begin s.now) × (result ≤ 2048) }
{
    let agents = agents_at(s) as usize;
    if has_hosts(s) {
        HEADER + HOSTS_PLACE_BYTES * agents
    } else {
        HEADER + PLACE_BYTES * agents
    }
}

pub fn rows_end(s: &[u8]) -> usize
    ensures { (result ≡ rows_end s.now) × (result ≤ 6128) }
{
    rows_begin(s) + ROW_BYTES * (rows_at(s) as usize)
}

// The bytes of the rows alone; none in a table that ends before them.
pub fn row_bytes(s: &[u8]) -> &[u8]
    ensures { result.now ≡ row_bytes s.now }
{
    let at = rows_begin(s);
    let size = ROW_BYTES * (rows_at(s) as usize);
    if s.len() <= at {
        return &s[..0];
    }
    if s.len() <= at + size {
        return &s[at..];
    }
    &s[at..at + size]
}

// The bytes after the rows: those of the dependencies.
pub fn dependency_bytes(s: &[u8]) -> &[u8]
    ensures { result.now ≡ dependency_bytes s.now }
{
    let at = rows_end(s);
    if s.len() <= at {
        return &s[..0];
    }
    &s[at..]
}

// The two rows of the k-th dependency, in the bytes of the dependencies alone.
pub fn dependency_from(d: &[u8], k: u16) -> u16
    ensures { result ≡ dependency_from d.now k }
{
    pair_at(d, 2 + (k as usize) * DEPENDENCY_BYTES)
}

pub fn dependency_to(d: &[u8], k: u16) -> u16
    ensures { result ≡ dependency_to d.now k }
{
    pair_at(d, 4 + (k as usize) * DEPENDENCY_BYTES)
}

// One of the two rows of each dependency, as many as a table may have; byte `at` of their bytes has the first.
pub fn read_ends(d: &[u8], at: u8) -> [u16; 64]
    ensures { result ≡ tabulate (dependency_end d.now at) DEPENDENCIES }
{
    std::array::from_fn(|k| pair_at(d, (at as usize) + k * DEPENDENCY_BYTES))
}

// Byte k of row i, in the bytes of the rows alone.
pub fn row_byte(rows: &[u8], i: u16, k: u8) -> u8
    ensures { result ≡ byte_of rows.now i k }
{
    byte_at(rows, (i as usize) * ROW_BYTES + (k as usize))
}

pub fn row_pair(rows: &[u8], i: u16, k: u8) -> u16
    ensures { result ≡ pair_of rows.now i k }
{
    pair_at(rows, (i as usize) * ROW_BYTES + (k as usize))
}

// The byte at a place that has one, and the two bytes.
fn byte_inside(s: &[u8], at: usize) -> u8
    requires { at < length s.now }
    ensures { result ≡ slice_index s.now at }
{
    s[at]
}

fn pair_inside(s: &[u8], at: usize) -> u16
    requires { at + 2 ≤ length s.now }
    ensures { result ≡ pair_at s.now at }
{
    (byte_inside(s, at) as u16) * 256 + (byte_inside(s, at + 1) as u16)
}

// Row i where all of its bytes are there: none of them is asked for.
fn row_inside(rows: &[u8], i: u16) -> Row
    requires { i * ROW_BYTES + ROW_BYTES ≤ length rows.now }
    ensures { result ≡ row_of rows.now i }
{
    let at = (i as usize) * ROW_BYTES;
    Row {
        kind: byte_inside(rows, at + 0),
        agent: byte_inside(rows, at + 1),
        order: byte_inside(rows, at + 2),
        scope: byte_inside(rows, at + 3),
        classes: byte_inside(rows, at + 4),
        flags: byte_inside(rows, at + 5),
        class: byte_inside(rows, at + 6),
        size: byte_inside(rows, at + 7),
        start: pair_inside(rows, at + 8),
        reference: pair_inside(rows, at + 10),
        rank: pair_inside(rows, at + 14),
    }
}

// Row i where some may not be.
fn row_beyond(rows: &[u8], i: u16) -> Row
    ensures { result ≡ row_of rows.now i }
{
    Row {
        kind: row_byte(rows, i, 0),
        agent: row_byte(rows, i, 1),
        order: row_byte(rows, i, 2),
        scope: row_byte(rows, i, 3),
        classes: row_byte(rows, i, 4),
        flags: row_byte(rows, i, 5),
        class: row_byte(rows, i, 6),
        size: row_byte(rows, i, 7),
        start: row_pair(rows, i, 8),
        reference: row_pair(rows, i, 10),
        rank: row_pair(rows, i, 14),
    }
}

pub fn read_row(rows: &[u8], i: u16) -> Row
    ensures { result ≡ row_of rows.now i }
{
    if (i as usize) * ROW_BYTES + ROW_BYTES <= rows.len() {
        return row_inside(rows, i);
    }
    row_beyond(rows, i)
}

// Row i's agent alone, where the rest of the row is not asked.
pub fn read_agent(rows: &[u8], i: u16) -> u8
    ensures { result ≡ (row_of rows.now i).agent }
{
    row_byte(rows, i, 1)
}

// Row i's kind alone.
pub fn read_kind(rows: &[u8], i: u16) -> u8
    ensures { result ≡ (row_of rows.now i).kind }
{
    row_byte(rows, i, 0)
}

// Row i's class alone: of a control barrier its execution scope.
pub fn read_class(rows: &[u8], i: u16) -> u8
    ensures { result ≡ (row_of rows.now i).class }
{
    row_byte(rows, i, 6)
}

// Row i's start alone: of a control barrier its instance.
pub fn read_start(rows: &[u8], i: u16) -> u16
    ensures { result ≡ (row_of rows.now i).start }
{
    row_pair(rows, i, 8)
}

// Row i's reference alone.
pub fn read_reference(rows: &[u8], i: u16) -> u16
    ensures { result ≡ (row_of rows.now i).reference }
{
    row_pair(rows, i, 10)
}

// Row i's rank alone.
pub fn read_rank(rows: &[u8], i: u16) -> u16
    ensures { result ≡ (row_of rows.now i).rank }
{
    row_pair(rows, i, 14)
}

// Row i's semantics classes alone.
pub fn read_classes(rows: &[u8], i: u16) -> u8
    ensures { result ≡ (row_of rows.now i).classes }
{
    row_byte(rows, i, 4)
}

pub fn read_source(rows: &[u8], i: u16) -> Source
    ensures { result.0 ≡ source_of rows.now i }
{
    Source::from(row_pair(rows, i, 12))
}

// An atomic row's source; the initial value for every other row.
pub fn atomic_source(rows: &[u8], i: u16) -> Source
    ensures { result.0 ≡ atomic_source rows.now i }
{
    let r = read_row(rows, i);
    if kinds::is_atomic(r) {
        return read_source(rows, i);
    }
    Source::INITIAL
}

// Puts the first n bytes of s into t, from byte `at` on.
pub fn put(t: &mut [u8], at: usize, s: &[u8], n: usize)
    requires { (at + n ≤ length t.old) × (n ≤ length s.now) }
    ensures { t.new ≡ paste t.old at s.now n }
{
    t[at..at + n].copy_from_slice(&s[..n]);
}
