// Pairs of rows that conflict, by sets of rows: the first race, and how many pairs there are of each sort.
#![tactic(auto)]

ghost use Rattle.std.specs.Prelude.{◌≡◌, true, ◌<◌};
ghost use Rattle.model.specs.Row.{access};
ghost use Rattle.model.specs.Table.{row_of};
ghost use Rattle.model.specs.Race.{conflict, unordered_nth};
ghost use Rattle.model.specs.Report.{conflict_ordered};
ghost use Rattle.bits.specs.Bit.{bit_of};
ghost use Rattle.run.specs.Layout.{rows_in, table_of};
ghost use Rattle.sets_of_rows.specs.Rows.{Rows};
ghost use Rattle.find_race.specs.First.{found_race};
ghost use Rattle.finite.specs.Several.{TwoOf};
ghost use Rattle.sets_grids.specs.RowThat.{RowThat};
ghost use Rattle.sets_grids.specs.Location.{ToJudge, Judged};
ghost use Rattle.sets_bytes.specs.Masks.{Mask};
ghost use Rattle.sets_races.specs.Counted.{Counted};
ghost use Rattle.sets_races.specs.Sums.{above, row_count};
ghost use Rattle.sets_races.specs.Pair.{open_after};

use model::Race;
use run::Run;
use sets_of_rows::{Set, kept};
use sets_of_table::fields;

// ---- races

// The rows after i that conflict with it: they share bytes, and one of the two writes.
fn conflicting(t: &Run, s: &[u64], i: usize, w: &[u64]) -> Set
    requires { RowThat access (row_of (rows_in t.now.bytes)) t.now.rows i × ToJudge (table_of t.now) t.now.rows s.now w.now }
    ensures { Rows t.now.rows (above (conflict (table_of t.now)) i) result }
{
    let writes = sets_of_table::rows(s, sets_of_table::WRITES);
    let over = kept::get(w, work_area::OVERLAP, i) & Set::above(i);
    if writes.has(i) { over } else { over & writes }
}

// The shared bytes of i and j at which neither is ordered before the other.
fn unordered(t: &Run, i: usize, j: usize, w: &[u64]) -> u64
    requires { TwoOf t.now.rows i j × (conflict (table_of t.now) i j ≡ true) × Judged (table_of t.now) t.now.rows w.now }
    ensures { Mask (unordered_nth (table_of t.now) i j) result }
{
    let all = sets_bytes::shared(t, i, j);
    let ordered = work_area::pairs::mask(w, i, j)
        | sets_bytes::moved(t, work_area::pairs::mask(w, j, i), j, i);
    all ^ (all & ordered)
}

// The rows after i that conflict with it and aren't mutually-ordered with it.
fn open_after(t: &Run, s: &[u64], i: usize, w: &[u64]) -> Set
    requires { RowThat access (row_of (rows_in t.now.bytes)) t.now.rows i × ToJudge (table_of t.now) t.now.rows s.now w.now }
    ensures { Rows t.now.rows (open_after (table_of t.now) i) result }
{
    conflicting(t, s, i, w) - kept::get(w, work_area::MUTUAL, i)
}

// Whether bit k of m is set.
fn is_set(m: u64, k: u32) -> bool
    requires { k < 64 }
    ensures { result ≡ bit_of m k }
{
    (m >> k) % 2 == 1
}

// The first pair in row order that races, then its lowest shared byte with no order: the lower row, the higher, the byte.
// Ruled out: one that shows the rows exchanged; one that shows the lowest shared byte, ordered or not.
pub fn first_race(t: &Run, s: &[u64], w: &[u64]) -> Option<Race>
    requires { ToJudge (table_of t.now) t.now.rows s.now w.now }
    ensures { result ≡ found_race (table_of t.now) }
{
    let mut answer = None;
    'pairs: for x in sets_of_table::rows(s, sets_of_table::ACCESS) {
        for y in open_after(t, s, x, w) {
            let bytes = unordered(t, x, y, w);
            if bytes == 0 {
                continue;
            }
            let mut k = 0u32;
            let hit = loop {
                if is_set(bytes, k) {
                    break k;
                }
                k += 1;
            };
            answer = Some(Race {
                first: x as u16,
                second: y as u16,
                byte: (fields::start(t, x) + hit) as u16,
            });
            break 'pairs;
        }
    }
    answer
}

// ---- counts

#[derive(Clone, Copy)]
pub struct Counts {
    pub conflicting: u16,
    pub mutuals: u16,
    pub ordered: u16,
}

// How many of `others` are ordered with i at every shared byte.
fn count_ordered(t: &Run, i: usize, others: Set, w: &[u64]) -> u16
    requires { (i < t.now.rows) × Rows t.now.rows (open_after (table_of t.now) i) others × Judged (table_of t.now) t.now.rows w.now }
    ensures { result ≡ row_count t.now.rows (conflict_ordered (table_of t.now)) i }
{
    let mut count = 0;
    for j in others {
        if unordered(t, i, j, w) == 0 {
            count += 1;
        }
    }
    count
}

// The pairs that conflict; of these the mutually-ordered ones, and of the others those that have order at every shared byte.
pub fn count_pairs(t: &Run, s: &[u64], w: &[u64]) -> Counts
    requires { ToJudge (table_of t.now) t.now.rows s.now w.now }
    ensures { Counted (table_of t.now) result }
{
    let mut c = Counts {
        conflicting: 0,
        mutuals: 0,
        ordered: 0,
    };
    for i in sets_of_table::rows(s, sets_of_table::ACCESS) {
        let others = conflicting(t, s, i, w);
        let mutual = kept::get(w, work_area::MUTUAL, i);
        c.conflicting += others.count() as u16;
        c.mutuals += (others & mutual).count() as u16;
        c.ordered += count_ordered(t, i, others - mutual, w);
    }
    c
}
