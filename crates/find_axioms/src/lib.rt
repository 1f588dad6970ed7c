// The axioms: the edges between rows, which axiom A asks to have no cycle, and the overwritten reads that axiom B rules out.
// The sources of all rows are a lent slice of their own: a check lends the table's, a fill those that it chose.
#![tactic(auto)]

ghost use Rattle.std.specs.Prelude.{◌≡◌, ◌<◌, length};
ghost use Rattle.find_axioms.specs.Sources.{source_in};

use model::Source;

pub mod edges; // edges 1 to 4
pub mod overwritten; // axiom B

// The source of row y.
fn source_at(src: &[u16], y: usize) -> Source
    requires { y < length src.now }
    ensures { result.0 ≡ source_in src.now y }
{
    Source::from(src[y])
}
