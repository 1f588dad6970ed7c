// Axiom B: the first reader whose source is overwritten before it, the writer and the byte.
ghost use Rattle.std.specs.Prelude.{◌≡◌, ◌≤◌, ◌<◌, length};
ghost use Rattle.run.specs.Layout.{table_of};
ghost use Rattle.model.specs.Edge.{over_nth, over_writer, over_reader};
ghost use Rattle.finite.specs.Below.{Finds};
ghost use Rattle.finite.specs.Several.{TwoOf};
ghost use Rattle.work_area.specs.Regions.{PAIR};
ghost use Rattle.find_race.specs.Bytes.{Ready, Bounded};
ghost use Rattle.find_axioms.specs.Sources.{source_in};
ghost use Rattle.find_axioms.specs.Overwritten.{found_overwrite};

use model::Overwritten;
use run::Run;

// Axiom B: which of y's bytes is the lowest that z overwrites.
// Ruled out: one that says 0 where none is; one that stops at the lowest byte that y and z share.
pub fn over_nth(t: &Run, src: &[u16], y: usize, z: usize, w: &[u64]) -> Option<usize>
    requires { TwoOf t.now.rows y z × (t.now.rows ≤ length src.now) × Ready (table_of t.now) t.now.rows w.now }
    ensures { Finds PAIR (over_nth (table_of t.now) (source_in src.now) y z) result }
{
    let s = crate::source_at(src, y);
    let r = t.row(y as u16);
    let q = t.row(z as u16);
    if !(door_rows::kinds::reads(r) & door_rows::kinds::writes(q) & s.is_row(t.rows as u16)) {
        return None;
    }
    let from = s.0 as usize;
    for k in 0..work_area::PAIR {
        let b = (r.start as u32) + (k as u32);
        if find_race::before_byte(t, from, z, b, w) & find_race::before_byte(t, z, y, b, w) {
            return Some(k);
        }
    }
    None
}

// Axiom B: the first writer that overwrites y's source before y.
// Ruled out: one that gives a later writer with a lower byte; one that says 0 where none does.
pub fn over_writer(t: &Run, src: &[u16], y: usize, w: &[u64]) -> Option<usize>
    requires { (y < t.now.rows) × (t.now.rows ≤ length src.now) × Ready (table_of t.now) t.now.rows w.now }
    ensures { Finds t.now.rows (over_writer (table_of t.now) (source_in src.now) y) result }
{
    for z in 0..t.rows {
        if over_nth(t, src, y, z, w).is_some() {
            return Some(z);
        }
    }
    None
}

// Axiom B: the first reader whose source is overwritten.
// Ruled out: one that gives the reader of the first writer; one that passes over the last row.
pub fn over_reader(t: &Run, src: &[u16], w: &[u64]) -> Option<usize>
    requires { (t.now.rows ≤ length src.now) × Ready (table_of t.now) t.now.rows w.now }
    ensures { Finds t.now.rows (over_reader (table_of t.now) (source_in src.now)) result }
{
    for y in 0..t.rows {
        if over_writer(t, src, y, w).is_some() {
            return Some(y);
        }
    }
    None
}

// Axiom B: the reader, writer and byte that break it, least in that order.
// Ruled out: one that shows the source where the writer must stand; one that shows the byte as counted from the reader's start.
pub fn first_overwrite(t: &Run, src: &[u16], w: &[u64]) -> Option<Overwritten>
    requires { (t.now.rows ≤ length src.now) × Bounded (table_of t.now) × Ready (table_of t.now) t.now.rows w.now }
    ensures { result ≡ found_overwrite (table_of t.now) (source_in src.now) }
{
    let y = over_reader(t, src, w)?;
    let z = over_writer(t, src, y, w)?;
    let k = over_nth(t, src, y, z, w)?;
    let r = t.row(y as u16);
    Some(Overwritten {
        reader: y as u16,
        writer: z as u16,
        byte: r.start + (k as u16),
    })
}
