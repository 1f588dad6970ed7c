// Bits in a lent list of 64-bit words: bit k is bit k % 64 of word k / 64. Matrices of bits: row i starts at word
// base + i * stride. These are stages over a work area, so each asks for the room that it uses; nothing else is assumed.
#![tactic(auto)]

ghost use Rattle.std.specs.Prelude.{◌≡◌, ◌+◌, ◌-◌, ◌*◌, ◌≤◌, ◌<◌, length};
ghost use Rattle.bits.specs.Bit.{bit, set_bit, set_bit_if, zeros, join_row};
ghost use Rattle.bits.specs.Matrix.{AREA_LIMIT, Closed};

// Whether bit k is set.
// Ruled out: one that reads bit k % 32 of the word; one that reads word k.
pub fn get(w: &[u64], k: usize) -> bool
    requires { k < 64 * length w.now }
    ensures { result ≡ bit w.now k }
{
    (w[k / 64] >> (k % 64)) % 2 == 1
}

// Whether bit k of the words from word `at` on is set.
// Ruled out: one that reads bit k % 32 of the word; one that takes `at` for a number of bits.
pub fn get_at(w: &[u64], at: usize, k: usize) -> bool
    requires { at * 64 + k < 64 * length w.now }
    ensures { result ≡ bit w.now (at * 64 + k) }
{
    (w[at + k / 64] >> (k % 64)) % 2 == 1
}

// Sets bit k.
// Ruled out: one that loses the other bits of the word; one that turns a set bit off.
pub fn put(w: &mut [u64], k: usize)
    requires { k < 64 * length w.old }
    ensures { w.new ≡ set_bit w.old k }
{
    w[k / 64] |= 1u64 << (k % 64);
}

// Sets bit k where b.
// Ruled out: one that clears the bit where b is false; one that always sets it.
pub fn put_if(w: &mut [u64], k: usize, b: bool)
    requires { k < 64 * length w.old }
    ensures { w.new ≡ set_bit_if b w.old k }
{
    if b {
        put(w, k);
    }
}

// Words from..to become 0.
// Ruled out: one that leaves the last word; one that clears the word after it.
pub fn clear(w: &mut [u64], from: usize, to: usize)
    requires { (from ≤ to) × (to ≤ length w.old) }
    ensures { w.new ≡ zeros w.old from (to - from) }
{
    w[from..to].fill(0);
}

// Each of n words from dst becomes its or with the word as far from src. Where src lies first the two runs are apart, so that no
// word is read after it was written.
// Ruled out: one that copies and so loses what dst held; one that writes a word outside the n.
pub fn join_row(w: &mut [u64], dst: usize, src: usize, n: usize)
    requires { (dst + n ≤ length w.old) × (src + n ≤ length w.old) × (src < dst → src + n ≤ dst) }
    ensures { w.new ≡ join_row w.old dst src n }
{
    for m in 0..n {
        w[dst + m] |= w[src + m];
    }
}

// The transitive closure of the n x n bits at base, in place, by Warshall's algorithm.
// Ruled out: one whose innermost loop goes over the middle of a path, and so misses paths; one that adds each (i, i).
pub fn close(w: &mut [u64], base: usize, n: usize, stride: usize)
    requires { (base + n * stride ≤ length w.old) × (base + n * stride ≤ AREA_LIMIT) × (n ≤ 64 * stride) }
    ensures { Closed w.old w.new base n stride }
{
    for k in 0..n {
        let src = base + k * stride;
        for i in 0..n {
            let dst = base + i * stride;
            if get_at(w, dst, k) {
                join_row(w, dst, src, stride);
            }
        }
    }
}
