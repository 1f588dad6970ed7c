// M4 by sets of rows: the heads of the release sequences that each atomic writer is in.
#![tactic(auto)]

ghost use Rattle.std.specs.Prelude.{◌≡◌, ◌≤◌, ◌<◌, length};
ghost use Rattle.model.specs.Limits.{ROWS, WORK};
ghost use Rattle.model.specs.Scope.{follows};
ghost use Rattle.model_laws.specs.FilledLaws.{Bytes};
ghost use Rattle.run.specs.Layout.{table_of};
ghost use Rattle.sets_grids.specs.Regions.{LATER, HEADS, HEADS_END};
ghost use Rattle.sets_grids.specs.Grid.{Grid, MadeGrid};
ghost use Rattle.sets_grids.specs.Given.{Given};
ghost use Rattle.sets_grids.specs.Synced.{headed_by};
ghost use Rattle.sets_sequences.specs.Heads.{since, Ends, Head, Headed, JoinsIf};

pub mod taken; // who gets what is read from them

use door_rows::kinds;
use run::Run;
use sets_of_rows::kept;
use sets_of_table::fields;

// Later than every rank.
const NEVER: u32 = 65536;

// How far rank k lies from the head's rank h on.
fn since(counted: bool, k: u16, h: u16) -> u32
    ensures { (result ≡ since counted k h) × (result < 65536) }
{
    if counted {
        door_rows::scopes::age(k, h) as u32
    } else {
        k as u32
    }
}

// The first byte of the rows; that they are bytes is known of what is lent.
fn first_byte(rows: &[u8]) -> u8
    ensures { Bytes rows.now }
{
    door_rows::bytes::byte_at(rows, 0)
}

// The lower of two.
fn lower(k: u32, e: u32) -> u32
    ensures { ((k < e) → result ≡ k) × ((e ≤ k) → result ≡ e) }
{
    if k < e { k } else { e }
}

// Row h joins the heads of k, if b.
fn join_if(b: bool, k: usize, h: usize, w: &mut [u64])
    requires { (k < ROWS) × (h < ROWS) × (WORK ≤ length w.old) }
    ensures { JoinsIf b k h w.old w.new }
{
    if b {
        kept::put_bit(w, sets_grids::HEADS, k, h);
    }
}

// Where the sequence that the writer h heads ends: at the first atomic write that follows h and is no RMW.
fn end_of(t: &Run, s: &[u64], h: usize, w: &[u64]) -> u32
    requires { (h < t.now.rows) × Given (table_of t.now) t.now.rows s.now w.now × Grid LATER t.now.rows (follows (table_of t.now)) w.now }
    ensures { Ends (table_of t.now) h result }
{
    let counted = t.counted();
    let rank = fields::rank(t, h);
    let mut end = NEVER;
    for z in kept::get(w, sets_grids::LATER, h)
        & kept::get(s, sets_of_table::BY_KIND, kinds::ATOMIC_WRITE as usize)
    {
        let k = since(counted, fields::rank(t, z), rank);
        end = lower(k, end);
    }
    end
}

// Row h joins the heads of each RMW that is in its sequence, which ends at `end`.
fn add_head(t: &Run, s: &[u64], h: usize, end: u32, w: &mut [u64])
    requires { Head (table_of t.now) t.now.rows h end × Given (table_of t.now) t.now.rows s.now w.old × Grid LATER t.now.rows (follows (table_of t.now)) w.old }
    ensures { Headed (table_of t.now) t.now.rows h w.old w.new }
{
    let counted = t.counted();
    let rank = fields::rank(t, h);
    for k in kept::get(w, sets_grids::LATER, h)
        & kept::get(s, sets_of_table::BY_KIND, kinds::RMW as usize)
    {
        let near = since(counted, fields::rank(t, k), rank) < end;
        join_if(near, k, h, w);
    }
}

// HEADS: each atomic writer is in its own sequence, and an RMW in those of earlier ones that have not ended.
pub fn fill_heads(t: &Run, s: &[u64], w: &mut [u64])
    requires { Given (table_of t.now) t.now.rows s.now w.old × Grid LATER t.now.rows (follows (table_of t.now)) w.old }
    ensures { MadeGrid HEADS HEADS_END HEADS t.now.rows (headed_by (table_of t.now)) w.old w.new }
{
    first_byte(t.row_bytes());
    bits::clear(w, sets_grids::HEADS, sets_grids::HEADS_END);
    for h in sets_of_table::rows(s, sets_of_table::RANKED) {
        kept::put_bit(w, sets_grids::HEADS, h, h);
        let end = end_of(t, s, h, w);
        add_head(t, s, h, end, w);
    }
}
