// Rows that have one location, or one reference: they get one number, and each the set of those with its number.
ghost use Rattle.std.specs.Prelude.{◌≡◌, ◌+◌, ◌*◌, ◌≤◌, ◌<◌, length};
ghost use Rattle.finite.specs.Below.{least};
ghost use Rattle.model.specs.Limits.{ROWS};
ghost use Rattle.run.specs.Layout.{rows_in};
ghost use Rattle.sets_of_rows.specs.Kept.{set_at};
ghost use Rattle.sets_of_rows.specs.Filling.{Filled};
ghost use Rattle.sets_of_table.specs.Number.{key_in, key_at, Grown, Step, Numbered, Free};
ghost use Rattle.sets_of_table.specs.Placed.{Small, Placed, of_number, Grouped};
ghost use Rattle.sets_of_table.specs.Tested.{ACCESS};

use door_rows::bytes;
use run::Run;
use sets_of_rows::{Set, kept};

// Start, size and reference of row i as one number, if `whole`; else its reference alone.
fn key(t: &Run, i: usize, whole: bool) -> u64
    requires { i < ROWS }
    ensures { result ≡ key_in whole (rows_in t.now.bytes) i }
{
    let rows = t.row_bytes();
    let name = bytes::read_reference(rows, i as u16) as u64;
    if whole {
        let start = bytes::read_start(rows, i as u16) as u64;
        let size = bytes::row_byte(rows, i as u16, 7) as u64;
        return name * 16777216 + start * 256 + size;
    }
    name
}

// The first of l keys that is k; l where none is.
fn find(keys: &[u64], l: usize, k: u64) -> usize
    requires { l ≤ length keys.now }
    ensures { (result ≡ least l (key_at keys.now k)) × (result ≤ l) }
{
    keys[..l].iter().position(|x| *x == k).unwrap_or(l)
}

// How many numbers there are once f was used.
fn grow(l: usize, f: usize) -> usize
    requires { l < 65536 }
    ensures { Grown l f result × (result ≤ l + 1) }
{
    if f < l { l } else { l + 1 }
}

// Row i gets the number of its key k, a new one after the l where none has it.
fn number_row(keys: &mut [u64], loc: &mut [u64], i: usize, l: usize, k: u64) -> usize
    requires { Free i l keys.old loc.old }
    ensures { Step i l k keys.old loc.old keys.new loc.new result }
{
    let f = find(keys, l, k);
    keys[f] = k;
    loc[i] = f as u64;
    grow(l, f)
}

// Numbers the members of x. Gives how many numbers there are.
fn number(keys: &mut [u64], loc: &mut [u64], t: &Run, x: Set, whole: bool) -> usize
    requires { (ROWS ≤ length keys.old) × (ROWS ≤ length loc.old) }
    ensures { Numbered (key_in whole (rows_in t.now.bytes)) x ROWS keys.new loc.new result }
{
    let mut l = 0;
    for i in x {
        let k = key(t, i, whole);
        l = number_row(keys, loc, i, l, k);
    }
    l
}

// The sets of the members of x by their numbers, from word `base` on.
fn place(s: &mut [u64], loc: &[u64], base: usize, x: Set)
    requires { (base + 2 * ROWS ≤ length s.old) × Small loc.now x }
    ensures { Placed base loc.now x s.old s.new }
{
    bits::clear(s, base, base + 256);
    for i in x {
        let k = loc[i] as usize;
        kept::put_bit(s, base, k, i);
    }
}

// Each member of x gets the set of its number, from word `base` of s on.
fn spread(s: &mut [u64], by: &[u64], loc: &[u64], base: usize, x: Set)
    requires { (base + 2 * ROWS ≤ length s.old) × (2 * ROWS ≤ length by.now) × Small loc.now x }
    ensures { Filled base x (of_number by.now loc.now) s.old s.new }
{
    bits::clear(s, base, base + 256);
    for i in x {
        let k = loc[i] as usize;
        kept::put(s, base, i, kept::get(by, 0, k));
    }
}

// Each access of a run gets the set of the accesses that have its location, if `whole`, or its reference.
pub fn group(t: &Run, s: &mut [u64], base: usize, whole: bool)
    requires { (ACCESS + 2 ≤ base) × (base + 2 * ROWS ≤ length s.old) }
    ensures { Grouped base (key_in whole (rows_in t.now.bytes)) (set_at s.old ACCESS) s.old s.new }
{
    let x = kept::get(s, crate::ACCESS, 0);
    let mut keys = [0u64; 128];
    let mut loc = [0u64; 128];
    let mut by = [0u64; 256];
    number(&mut keys, &mut loc, t, x, whole);
    place(&mut by, &loc, 0, x);
    spread(s, &by, &loc, base, x);
}
