// Sets that stand in a lent list of words, two words to a set: set k of those from word `base` on.
ghost use Rattle.std.specs.Prelude.{◌≡◌, ℕ, ◌+◌, ◌*◌, ◌≤◌, ◌<◌, length};
ghost use Rattle.finite.specs.Below.{any_below};
ghost use Rattle.model.specs.Limits.{ROWS};
ghost use Rattle.sets_of_rows.specs.Member.{in_set};
ghost use Rattle.sets_of_rows.specs.Kept.{set_at, Stored, joined, added};
ghost use Rattle.sets_of_rows.specs.Tasks.{leads};

use crate::Set;

// Set k.
// Ruled out: one that reads the set at word base + k.
pub fn get(w: &[u64], base: usize, k: usize) -> Set
    requires { base + 2 * k + 2 ≤ length w.now }
    ensures { result ≡ set_at w.now (base + 2 * k) }
{
    Set {
        lo: w[base + 2 * k],
        hi: w[base + 2 * k + 1],
    }
}

// Set k becomes s.
pub fn put(w: &mut [u64], base: usize, k: usize, s: Set)
    requires { base + 2 * k + 2 ≤ length w.old }
    ensures { Stored (base + 2 * k) (in_set s) w.old w.new }
{
    w[base + 2 * k] = s.lo;
    w[base + 2 * k + 1] = s.hi;
}

// Set k takes in s.
// Ruled out: one that loses what set k held.
pub fn join(w: &mut [u64], base: usize, k: usize, s: Set)
    requires { base + 2 * k + 2 ≤ length w.old }
    ensures { Stored (base + 2 * k) (joined w.old (base + 2 * k) s) w.old w.new }
{
    w[base + 2 * k] |= s.lo;
    w[base + 2 * k + 1] |= s.hi;
}

// Set k takes in row i.
pub fn put_bit(w: &mut [u64], base: usize, k: usize, i: usize)
    requires { (base + 2 * k + 2 ≤ length w.old) × (i < ROWS) }
    ensures { Stored (base + 2 * k) (added w.old (base + 2 * k) i) w.old w.new }
{
    w[base + 2 * k + i / 64] |= 1u64 << (i % 64);
}

// The rows that some member's set has: what the relation that the sets from word `base` on are leads to from x.
// Ruled out: one that leaves out the last member.
pub fn union(w: &[u64], base: usize, x: Set) -> Set
    requires { base + 2 * ROWS ≤ length w.now }
    ensures { (j : ℕ) → in_set result j ≡ any_below ROWS (leads w.now base x j) }
{
    let mut r = Set::none();
    for i in x {
        r |= get(w, base, i);
    }
    r
}
