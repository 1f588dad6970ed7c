// One number of row i of a run.
ghost use Rattle.std.specs.Prelude.{◌≡◌, ◌+◌, ◌<◌};
ghost use Rattle.model.specs.Limits.{ROWS};
ghost use Rattle.model.specs.Table.{row_of, source_of};
ghost use Rattle.run.specs.Layout.{rows_in};

use door_rows::bytes;
use run::Run;

pub fn agent(t: &Run, i: usize) -> usize
    requires { i < ROWS }
    ensures { result ≡ (row_of (rows_in t.now.bytes) i).agent }
{
    bytes::read_agent(t.row_bytes(), i as u16) as usize
}

pub fn scope(t: &Run, i: usize) -> usize
    requires { i < ROWS }
    ensures { result ≡ (row_of (rows_in t.now.bytes) i).scope }
{
    bytes::row_byte(t.row_bytes(), i as u16, 3) as usize
}

pub fn classes(t: &Run, i: usize) -> usize
    requires { i < ROWS }
    ensures { result ≡ (row_of (rows_in t.now.bytes) i).classes }
{
    bytes::read_classes(t.row_bytes(), i as u16) as usize
}

// A control barrier has its execution scope there.
pub fn class(t: &Run, i: usize) -> usize
    requires { i < ROWS }
    ensures { result ≡ (row_of (rows_in t.now.bytes) i).class }
{
    bytes::read_class(t.row_bytes(), i as u16) as usize
}

// A control barrier has its instance there.
pub fn start(t: &Run, i: usize) -> u32
    requires { i < ROWS }
    ensures { (result ≡ (row_of (rows_in t.now.bytes) i).start) × (result < 65536) }
{
    bytes::read_start(t.row_bytes(), i as u16) as u32
}

// The byte after the last.
pub fn end(t: &Run, i: usize) -> u32
    requires { i < ROWS }
    ensures { (result ≡ (row_of (rows_in t.now.bytes) i).start + (row_of (rows_in t.now.bytes) i).size) × (result < 65792) }
{
    let r = t.row_bytes();
    (bytes::read_start(r, i as u16) as u32) + (bytes::row_byte(r, i as u16, 7) as u32)
}

pub fn rank(t: &Run, i: usize) -> u16
    requires { i < ROWS }
    ensures { result ≡ (row_of (rows_in t.now.bytes) i).rank }
{
    bytes::read_rank(t.row_bytes(), i as u16)
}

// The source that stands in the row.
pub fn source(t: &Run, i: usize) -> usize
    requires { i < ROWS }
    ensures { result ≡ source_of (rows_in t.now.bytes) i }
{
    let s = bytes::read_source(t.row_bytes(), i as u16);
    s.0 as usize
}
