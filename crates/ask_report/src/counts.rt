// The four counts of a table, and the share.
ghost use Rattle.std.specs.Prelude.{◌≡◌, Ok};
ghost use Rattle.run.specs.Layout.{table_of};
ghost use Rattle.model.specs.Report.{share_of, report_on, told_answer};
ghost use Rattle.sets_grids.specs.Location.{ToJudge};

use model::{Report, ReportAnswer};
use run::Run;

// The share of the racing in the conflicting pairs: one division, rounded once; none where no pair conflicts.
// Ruled out: one that says 0.0 where no pair conflicts; one that divides by the pairs that don't race.
pub fn share(racing: u16, conflicting: u16) -> Option<f64>
    ensures { result ≡ share_of racing conflicting }
{
    if conflicting == 0 {
        return None;
    }
    Some((racing as f64) / (conflicting as f64))
}

// The report of a table that is consistent.
// Ruled out: one that exchanges the mutually-ordered and the ordered pairs; one that reports a share of 0.0 where no pair conflicts.
pub fn report_of(t: &Run, s: &[u64], w: &[u64]) -> ReportAnswer
    requires { ToJudge (table_of t.now) t.now.rows s.now w.now }
    ensures { Ok result ≡ told_answer (report_on (table_of t.now)) }
{
    let c = sets_races::count_pairs(t, s, w);
    let racing = c.conflicting - c.mutuals - c.ordered;
    let Some(part) = share(racing, c.conflicting) else {
        return ReportAnswer::NoPairs;
    };
    ReportAnswer::Report(Report {
        conflicting: c.conflicting,
        mutuals: c.mutuals,
        ordered: c.ordered,
        racing,
        share: part,
    })
}
