// Axiom B by sets of rows: reads whose source is overwritten before them.
#![tactic(auto)]

ghost use Rattle.std.specs.Prelude.{◌≡◌, ◌≤◌, ◌<◌, length};
ghost use Rattle.model.specs.Row.{reads};
ghost use Rattle.model.specs.Table.{row_of};
ghost use Rattle.run.specs.Layout.{rows_in, table_of};
ghost use Rattle.find_axioms.specs.Sources.{source_in};
ghost use Rattle.find_axioms.specs.Overwritten.{found_overwrite};
ghost use Rattle.model_placing.specs.Judge.{over_bit};
ghost use Rattle.sets_bytes.specs.Masks.{Mask};
ghost use Rattle.finite.specs.Several.{ThreeOf};
ghost use Rattle.sets_grids.specs.RowThat.{RowThat};
ghost use Rattle.sets_grids.specs.Location.{ToJudge, Judged};
ghost use Rattle.sets_overwritten.specs.Over.{always, found_writer};

use model::Overwritten;
use run::Run;
use sets_of_rows::kept;
use sets_of_table::fields;

// The bytes of y at which z overwrites its source before it.
// Ruled out: one that has the bytes of z or of the source, from their starts.
pub fn overwrites(t: &Run, source: usize, z: usize, y: usize, w: &[u64]) -> u64
    requires { ThreeOf t.now.rows source z y × Judged (table_of t.now) t.now.rows w.now }
    ensures { Mask (over_bit (table_of t.now) (always source) y z) result }
{
    let a = sets_bytes::moved(t, work_area::pairs::mask(w, source, z), source, y);
    let b = sets_bytes::moved(t, work_area::pairs::mask(w, z, y), z, y);
    a & b & sets_bytes::shared(t, y, y)
}

// The first writer that overwrites y's source before y, at the lowest byte.
// Ruled out: one that gives another writer than the first.
fn overwritten_by(t: &Run, s: &[u64], source: usize, y: usize, w: &[u64]) -> Option<Overwritten>
    requires { (source < t.now.rows) × RowThat reads (row_of (rows_in t.now.bytes)) t.now.rows y × ToJudge (table_of t.now) t.now.rows s.now w.now }
    ensures { result ≡ found_writer (table_of t.now) source y }
{
    let over = kept::get(w, work_area::OVERLAP, y) & sets_of_table::rows(s, sets_of_table::WRITES);
    for z in kept::get(w, sets_grids::SOME, source) & over {
        if kept::get(w, sets_grids::SOME, z).has(y) {
            let m = overwrites(t, source, z, y, w);
            if 0 < m {
                return Some(Overwritten {
                    reader: y as u16,
                    writer: z as u16,
                    byte: (fields::start(t, y) + (u64::trailing_zeros(m) as u32)) as u16,
                });
            }
        }
    }
    None
}

// The first read whose source, in `src`, is overwritten.
pub fn first_overwrite(t: &Run, src: &[u16], s: &[u64], w: &[u64]) -> Option<Overwritten>
    requires { (t.now.rows ≤ length src.now) × ToJudge (table_of t.now) t.now.rows s.now w.now }
    ensures { result ≡ found_overwrite (table_of t.now) (source_in src.now) }
{
    for y in sets_of_table::rows(s, sets_of_table::READS) {
        let source = src[y] as usize;
        if source < t.rows {
            if let Some(found) = overwritten_by(t, s, source, y, w) {
                return Some(found);
            }
        }
    }
    None
}
