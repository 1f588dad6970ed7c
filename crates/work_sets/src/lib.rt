// Sets as bits of words in a lent list: what two sets share, and the lowest bit of it.
#![tactic(auto)]

ghost use Rattle.std.specs.Prelude.{◌+◌, ◌*◌, ◌≤◌, ◌<◌, length};
ghost use Rattle.finite.specs.Below.{Least};
ghost use Rattle.bits.specs.Matrix.{AREA_LIMIT};
ghost use Rattle.work_sets.specs.Lowest.{Lowest};
ghost use Rattle.work_sets.specs.Meet.{both};

pub mod grid; // what two rows of a grid over rows share

// The lowest bit of a word that is not 0.
pub fn lowest(x: u64) -> u32
    requires { 0 < x }
    ensures { Lowest x result × (result < 64) }
{
    u64::trailing_zeros(x)
}

// The lowest bit that the n words from a and the n words from b share; 64 × n where they share none.
pub fn first_both(w: &[u64], a: usize, b: usize, n: usize) -> usize
    requires { (a + n ≤ length w.now) × (b + n ≤ length w.now) × (n ≤ AREA_LIMIT) }
    ensures { Least (64 * n) (both w.now a b) result }
{
    for m in 0..n {
        let x = w[a + m] & w[b + m];
        if 0 < x {
            return m * 64 + (lowest(x) as usize);
        }
    }
    64 * n
}
