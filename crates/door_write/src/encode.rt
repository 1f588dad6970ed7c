// The bytes of a table, made of its values.
ghost use Rattle.std.specs.Prelude.{◌≡◌, ◌+◌, ◌*◌, ◌<◌, ◌≤◌, take};
ghost use Rattle.finite.specs.Lists.{tabulate};
ghost use Rattle.door_write.specs.Encode.{half, with_hosts, places_size, dependencies_size, table_size, header_list, number_of, place_number, place_byte};
ghost use Rattle.door_write.specs.Encode.{row_list, entry_byte, dependency_number, dependency_byte, encode};

use crate::Dependencies;
use door_rows::bytes;
use model::{Entry, Places, Row, Source};

// The most bytes of places, rows and dependencies, and of a table.
pub const PLACES: usize = 256;

pub const ROWS: usize = 2048;

pub const AFTER: usize = 258;

pub const TABLE: usize = 2570;

// Byte k of numbers of two bytes, of which v is the one that it belongs to.
pub fn half(v: u16, k: usize) -> u8
    ensures { result ≡ half v k }
{
    if k % 2 == 0 {
        return (v / 256 % 256) as u8;
    }
    (v % 256) as u8
}

// ---- sizes

pub fn with_hosts(version: u8) -> bool
    ensures { result ≡ with_hosts version }
{
    version == bytes::HOSTS
}

fn places_size(version: u8, agents: u8) -> usize
    ensures { (result ≡ places_size version agents) × (result ≤ 8 * agents) }
{
    if with_hosts(version) {
        return bytes::HOSTS_PLACE_BYTES * (agents as usize);
    }
    bytes::PLACE_BYTES * (agents as usize)
}

fn dependencies_size(version: u8, n: u16) -> usize
    ensures { (result ≡ dependencies_size version n) × (result ≤ 2 + 4 * n) }
{
    if with_hosts(version) {
        return 2 + bytes::DEPENDENCY_BYTES * (n as usize);
    }
    0
}

pub fn table_size(version: u8, agents: u8, rows: u8, n: u16) -> usize
    ensures { (result ≡ table_size version agents rows n) × (8 ≤ result) × (result ≤ 10 + 8 * agents + 16 * rows + 4 * n) }
{
    let places = places_size(version, agents);
    let after = dependencies_size(version, n);
    bytes::HEADER + places + bytes::ROW_BYTES * (rows as usize) + after
}

// ---- the parts

fn header_bytes(version: u8, agents: u8, rows: u8, size: usize) -> [u8; 8]
    requires { 4 ≤ size }
    ensures { result ≡ header_list version agents rows size }
{
    let count = size - 4;
    [
        (count / 16777216 % 256) as u8,
        (count / 65536 % 256) as u8,
        (count / 256 % 256) as u8,
        (count % 256) as u8,
        version,
        agents,
        rows,
        0,
    ]
}

pub fn number_of(p: Places, a: usize, m: usize) -> u16
    requires { m < 4 }
    ensures { result ≡ number_of p a m }
{
    if a < model::AGENTS { p[a][m] } else { 0 }
}

// The number that byte k of the places belongs to.
fn place_number(hosts: bool, p: Places, k: usize) -> u16
    ensures { result ≡ place_number hosts p k }
{
    if hosts {
        return number_of(
            p,
            k / bytes::HOSTS_PLACE_BYTES,
            k % bytes::HOSTS_PLACE_BYTES / 2,
        );
    }
    number_of(p, k / bytes::PLACE_BYTES, k % bytes::PLACE_BYTES / 2)
}

fn place_bytes(hosts: bool, p: Places) -> [u8; PLACES]
    ensures { result ≡ tabulate (place_byte hosts p) 256 }
{
    std::array::from_fn(|k| half(place_number(hosts, p, k), k))
}

// A row as its sixteen bytes.
pub fn row_bytes(r: Row, s: Source) -> [u8; 16]
    ensures { result ≡ row_list r s.0 }
{
    let n = s.0;
    [
        r.kind,
        r.agent,
        r.order,
        r.scope,
        r.classes,
        r.flags,
        r.class,
        r.size,
        (r.start / 256 % 256) as u8,
        (r.start % 256) as u8,
        (r.reference / 256 % 256) as u8,
        (r.reference % 256) as u8,
        (n / 256 % 256) as u8,
        (n % 256) as u8,
        (r.rank / 256 % 256) as u8,
        (r.rank % 256) as u8,
    ]
}

pub fn entry_bytes(entries: [Entry; 128]) -> [u8; ROWS]
    ensures { result ≡ tabulate (entry_byte entries) 2048 }
{
    std::array::from_fn(
        |k: usize| -> u8
            requires { k < 2048 }
            ensures { result ≡ entry_byte entries k }
        {
            let e = entries[k / bytes::ROW_BYTES];
            row_bytes(e.row, e.source)[k % bytes::ROW_BYTES]
        },
    )
}

// The number that byte k of the dependencies' bytes belongs to.
fn dependency_number(d: Dependencies, k: usize) -> u16
    requires { k < 258 }
    ensures { result ≡ dependency_number d k }
{
    if k < 2 {
        return d.count;
    }
    let i = (k - 2) / bytes::DEPENDENCY_BYTES;
    if (k - 2) % bytes::DEPENDENCY_BYTES < 2 {
        return d.first[i];
    }
    d.second[i]
}

fn dependency_bytes(d: Dependencies) -> [u8; AFTER]
    ensures { result ≡ tabulate (dependency_byte d) 258 }
{
    std::array::from_fn(
        |k: usize| -> u8
            requires { k < 258 }
            ensures { result ≡ dependency_byte d k }
        { half(dependency_number(d, k), k) },
    )
}

// ---- the table

// The table, and zeros after it.
pub fn encode_table(
    version: u8,
    agents: u8,
    p: Places,
    count: u8,
    entries: [Entry; 128],
    d: Dependencies,
) -> [u8; TABLE]
    requires { (agents ≤ 32) × (count ≤ 128) × (d.count ≤ 64) }
    ensures { take (table_size version agents count d.count) result ≡ encode version agents p count entries d }
{
    let size = table_size(version, agents, count, d.count);
    let places = places_size(version, agents);
    let rows = bytes::ROW_BYTES * (count as usize);
    let after = dependencies_size(version, d.count);
    let mut t = [0u8; TABLE];
    bytes::put(&mut t, 0, &header_bytes(version, agents, count, size), 8);
    bytes::put(
        &mut t,
        bytes::HEADER,
        &place_bytes(with_hosts(version), p),
        places,
    );
    bytes::put(&mut t, bytes::HEADER + places, &entry_bytes(entries), rows);
    bytes::put(
        &mut t,
        bytes::HEADER + places + rows,
        &dependency_bytes(d),
        after,
    );
    t
}
