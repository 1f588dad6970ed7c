// Bits of pairs of rows in location order: bit k of a pair says something of the two rows and the k-th byte of the first. Nothing
// else works out where such a bit stands.
ghost use Rattle.std.specs.Prelude.{◌≡◌, ◌+◌, ◌*◌, ◌≤◌, ◌<◌, length};
ghost use Rattle.finite.specs.Several.{TwoOf};
ghost use Rattle.bits.specs.Bit.{bit, set_bit_if};
ghost use Rattle.model.specs.Limits.{ROWS, WORK};
ghost use Rattle.work_area.specs.Regions.{LOCATION, PAIR, PAIRS};
ghost use Rattle.work_area.specs.Mask.{mask_at};

// As many as PAIR bits can say.
const MASKS: u64 = 65536;

// The first bit of rows x and y.
// Ruled out: one that exchanges the two rows; one that takes a pair's words for its bits.
pub fn at(x: usize, y: usize) -> usize
    requires { (x < ROWS) × (y < ROWS) }
    ensures { result ≡ LOCATION * 64 + x * PAIRS + y * PAIR }
{
    super::LOCATION * 64 + x * super::PAIRS + y * super::PAIR
}

// Bit k of rows x and y.
// Ruled out: one that reads the bit of rows y and x; one that reads the next pair's.
pub fn get(w: &[u64], x: usize, y: usize, k: usize) -> bool
    requires { TwoOf ROWS x y × (k < PAIR) × (WORK ≤ length w.now) }
    ensures { result ≡ bit w.now (LOCATION * 64 + x * PAIRS + y * PAIR + k) }
{
    bits::get(
        w,
        super::LOCATION * 64 + x * super::PAIRS + y * super::PAIR + k,
    )
}

// All bits of rows x and y at once, the first the lowest: they stand in one word.
// Ruled out: one that has the bits of the whole word; one that has those of rows y and x.
pub fn mask(w: &[u64], x: usize, y: usize) -> u64
    requires { (x < ROWS) × (y < ROWS) × (WORK ≤ length w.now) }
    ensures { result ≡ mask_at w.now (LOCATION * 64 + x * PAIRS + y * PAIR) }
{
    let first = at(x, y);
    (w[first / 64] >> (first % 64)) % MASKS
}

// Sets it where b.
// Ruled out: one that clears it where b is false; one that sets the bit of rows y and x.
pub fn put_if(w: &mut [u64], x: usize, y: usize, k: usize, b: bool)
    requires { TwoOf ROWS x y × (k < PAIR) × (WORK ≤ length w.old) }
    ensures { w.new ≡ set_bit_if b w.old (LOCATION * 64 + x * PAIRS + y * PAIR + k) }
{
    bits::put_if(
        w,
        super::LOCATION * 64 + x * super::PAIRS + y * super::PAIR + k,
        b,
    );
}
