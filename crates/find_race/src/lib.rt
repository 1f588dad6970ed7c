// Races: the first pair of rows that races, and its lowest byte with no location order either way. Some code reads none of the
// rows, places or number of rows that it is given: they say which table its contract is about.
#![tactic(auto)]

ghost use Rattle.std.specs.Prelude.{◌≡◌, ◌<◌};
ghost use Rattle.run.specs.Layout.{table_of};
ghost use Rattle.model.specs.Scope.{mutually};
ghost use Rattle.model.specs.Location.{before};
ghost use Rattle.model.specs.Race.{unordered};
ghost use Rattle.find_race.specs.Bytes.{Ready, Bounded, may_race};
ghost use Rattle.find_race.specs.First.{found_race};

use model::Race;
use run::Run;
use run_rows::shared;

pub mod pair; // edge 1, by all bits of a pair

// Whether x and y are mutually-ordered, as the work area's bits say.
// Ruled out: one that says yes of a row and itself; one that reads the bit of x and y + 1.
pub fn mutual_at(t: &Run, x: usize, y: usize, w: &[u64]) -> bool
    requires { (x < t.now.rows) × (y < t.now.rows) × Ready (table_of t.now) t.now.rows w.now }
    ensures { result ≡ mutually (table_of t.now) x y }
{
    work_area::grid::MUTUAL.get(w, x, y)
}

// Whether x is location-ordered before y at byte b, for any b: no byte outside the bits of a pair is one of x's.
// Ruled out: one that counts the bits from y's start; one that reads another pair's bit where b is no byte of x.
pub fn before_byte(t: &Run, x: usize, y: usize, b: u32, w: &[u64]) -> bool
    requires { (x < t.now.rows) × (y < t.now.rows) × Ready (table_of t.now) t.now.rows w.now }
    ensures { result ≡ before (table_of t.now) x y b }
{
    let start = t.start(x as u16) as u32;
    if b < start {
        return false;
    }
    let k = (b - start) as usize;
    if work_area::PAIR <= k {
        return false;
    }
    work_area::pairs::get(w, x, y, k)
}

// Whether b is a byte of x and y with no location order either way.
// Ruled out: one that asks for order one way only; one that holds of a byte of one row alone.
pub fn unordered_at(t: &Run, x: usize, y: usize, b: u32, w: &[u64]) -> bool
    requires { (x < t.now.rows) × (y < t.now.rows) × Ready (table_of t.now) t.now.rows w.now }
    ensures { result ≡ unordered (table_of t.now) x y b }
{
    let r = t.row(x as u16);
    let q = t.row(y as u16);
    run_rows::pairs::common(r, q, b) & !before_byte(t, x, y, b, w) & !before_byte(t, y, x, b, w)
}

// Whether x and y conflict and are not mutually-ordered.
// Ruled out: one that holds of two reads; one that holds of mutually-ordered rows.
pub fn may_race(t: &Run, x: usize, y: usize, w: &[u64]) -> bool
    requires { (x < t.now.rows) × (y < t.now.rows) × Ready (table_of t.now) t.now.rows w.now }
    ensures { result ≡ may_race (table_of t.now) x y }
{
    let r = t.row(x as u16);
    let q = t.row(y as u16);
    !(x == y) & shared::clash(r, q) & !mutual_at(t, x, y, w)
}

// The first pair in row order that races, then its lowest shared byte with no order: the lower row, the higher, the byte.
// Ruled out: one that shows the rows exchanged; one that shows the lowest shared byte, ordered or not.
pub fn first_race(t: &Run, w: &[u64]) -> Option<Race>
    requires { Bounded (table_of t.now) × Ready (table_of t.now) t.now.rows w.now }
    ensures { result ≡ found_race (table_of t.now) }
{
    let mut answer = None;
    'pairs: for x in 0..t.rows {
        let r = t.row(x as u16);
        let start = r.start as u32;
        let end = start + (r.size as u32);
        for y in x + 1..t.rows {
            if !may_race(t, x, y, w) {
                continue;
            }
            let mut b = start;
            let hit = loop {
                if end <= b {
                    break end;
                }
                if unordered_at(t, x, y, b, w) {
                    break b;
                }
                b += 1;
            };
            if hit < end {
                answer = Some(Race {
                    first: x as u16,
                    second: y as u16,
                    byte: hit as u16,
                });
                break 'pairs;
            }
        }
    }
    answer
}
