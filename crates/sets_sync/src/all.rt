// M3 to M5 by sets of rows, stage after stage.
ghost use Rattle.run.specs.Layout.{table_of};
ghost use Rattle.sets_grids.specs.Given.{Given};
ghost use Rattle.sets_sync.specs.Synced.{Synced};

use run::Run;

// M3 to M5.
pub fn synchronize(t: &Run, s: &[u64], w: &mut [u64])
    requires { Given (table_of t.now) t.now.rows s.now w.old }
    ensures { Synced (table_of t.now) t.now.rows w.old w.new }
{
    sets_mutual::fill_mutual(t, s, w);
    sets_mutual::later::fill_later(t, s, w);
    sets_sequences::fill_heads(t, s, w);
    sets_sequences::taken::fill_taken(t, s, w);
    sets_control::fill_passed(t, s, w);
    crate::fill_sync(t, s, w);
}
