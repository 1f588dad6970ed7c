// The sources of a table's rows, in a local list: a check reads the table's. Whether a check admits those of a list.
ghost use Rattle.std.specs.Prelude.{◌≡◌, ◌≤◌, ◌<◌, length, get_or};
ghost use Rattle.model.specs.Limits.{ROWS};
ghost use Rattle.model.specs.Table.{source_of};
ghost use Rattle.model.specs.Fill.{sources_fit};
ghost use Rattle.run.specs.Layout.{rows_in, table_of};
ghost use Rattle.find_sources.specs.Sources.{Listed, broken_by};

use model::Source;
use run::Run;

// The sources that stand in n rows.
pub fn read_sources(t: &Run) -> [u16; 128]
    requires { t.now.rows ≤ ROWS }
    ensures { Listed (source_of (rows_in t.now.bytes)) t.now.rows result }
{
    let mut list = [0u16; 128];
    for i in 0..t.rows {
        let s = door_rows::bytes::read_source(t.row_bytes(), i as u16);
        list[i] = s.0;
    }
    list
}

// Whether row i is a reader, and a check refuses s as its source.
fn is_broken(t: &Run, i: usize, s: u16) -> bool
    requires { (t.now.rows ≤ ROWS) × (i < t.now.rows) }
    ensures { result ≡ broken_by (table_of t.now) i s }
{
    let r = t.row(i as u16);
    let own = Source::from(s);
    door_rows::kinds::reads(r)
        & !door_admit::table_faults::source_fits(t.row_bytes(), t.rows as u16, false, i as u16, own)
}

// Whether each row's source is one that a check admits.
// Ruled out: one that admits a blank that was left; one that admits the number n, which says that a blank can have no source.
pub fn sources_fit(t: &Run, src: &[u16]) -> bool
    requires { (t.now.rows ≤ ROWS) × (t.now.rows ≤ length src.now) }
    ensures { result ≡ sources_fit (table_of t.now) (λ i. get_or src.now i 0) }
{
    for (i, s) in src[..t.rows].iter().enumerate() {
        if is_broken(t, i, *s) {
            return false;
        }
    }
    true
}
