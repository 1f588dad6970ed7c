// Grids of bits: bit j of row i says something of rows i and j, or of moments i and j. Nothing else works out where such a bit stands.
ghost use Rattle.std.specs.Prelude.{◌≡◌, ◌+◌, ◌*◌, ◌≤◌, ◌<◌, length};
ghost use Rattle.bits.specs.Bit.{bit, set_bit, set_bit_if};
ghost use Rattle.bits.specs.Matrix.{AREA_LIMIT, Closed};

// The grid at word `base`, of which a row has STRIDE words.
#[derive(Clone, Copy)]
pub struct Grid<const STRIDE: usize> {
    pub base: usize,
}

// Over rows, and over moments.
pub type Rows = Grid<{ super::GRID }>;

pub type Moments = Grid<{ super::MOMENTS }>;

pub const MUTUAL: Rows = Grid {
    base: super::MUTUAL,
};

pub const SEQUENCE: Rows = Grid {
    base: super::SEQUENCE,
};

pub const SYNC: Rows = Grid { base: super::SYNC };

pub const HAPPENS: Moments = Grid {
    base: super::HAPPENS,
};

pub const STEP: Moments = Grid { base: super::STEP };

pub const HOSTED: Rows = Grid {
    base: super::HOSTED,
};

pub const SYSTEM: Rows = Grid {
    base: super::SYSTEM,
};

pub const MET: Rows = Grid { base: super::MET };

pub const REACHED: Rows = Grid {
    base: super::REACHED,
};

pub const REACH_OUT: Rows = Grid {
    base: super::REACH_OUT,
};

pub const REACH_IN: Rows = Grid {
    base: super::REACH_IN,
};

pub const EDGE: Rows = Grid { base: super::EDGE };

impl<const STRIDE: usize> Grid<STRIDE> {
    // The word where row i begins.
    // Ruled out: one that counts a row's bits for its words; one that leaves out where the grid stands.
    pub fn at(self, i: usize) -> usize
        requires { self.base + i * STRIDE ≤ AREA_LIMIT }
        ensures { result ≡ self.entry.base + i * STRIDE }
    {
        self.base + i * STRIDE
    }

    // Bit j of row i.
    // Ruled out: one that reads bit i of row j; one that reads the bit of another grid.
    pub fn get(self, w: &[u64], i: usize, j: usize) -> bool
        requires { (self.base + i * STRIDE ≤ AREA_LIMIT) × (j ≤ AREA_LIMIT) × ((self.base + i * STRIDE) * 64 + j < 64 * length w.now) }
        ensures { result ≡ bit w.now ((self.entry.base + i * STRIDE) * 64 + j) }
    {
        bits::get_at(w, self.at(i), j)
    }

    // Sets it.
    pub fn put(self, w: &mut [u64], i: usize, j: usize)
        requires { (self.base + i * STRIDE ≤ AREA_LIMIT) × (j ≤ AREA_LIMIT) × ((self.base + i * STRIDE) * 64 + j < 64 * length w.old) }
        ensures { w.new ≡ set_bit w.old ((self.entry.base + i * STRIDE) * 64 + j) }
    {
        bits::put(w, self.at(i) * 64 + j);
    }

    // Sets it where b.
    // Ruled out: one that clears it where b is false; one that sets bit i of row j.
    pub fn put_if(self, w: &mut [u64], i: usize, j: usize, b: bool)
        requires { (self.base + i * STRIDE ≤ AREA_LIMIT) × (j ≤ AREA_LIMIT) × ((self.base + i * STRIDE) * 64 + j < 64 * length w.old) }
        ensures { w.new ≡ set_bit_if b w.old ((self.entry.base + i * STRIDE) * 64 + j) }
    {
        bits::put_if(w, self.at(i) * 64 + j, b);
    }

    // The transitive closure of the first n rows, in place.
    // Ruled out: one that takes the bits of a row for its words; one that closes all rows of the grid.
    pub fn close(self, w: &mut [u64], n: usize)
        requires { (self.base + n * STRIDE ≤ length w.old) × (self.base + n * STRIDE ≤ AREA_LIMIT) × (n ≤ 64 * STRIDE) }
        ensures { Closed w.old w.new self.entry.base n STRIDE }
    {
        bits::close(w, self.base, n, STRIDE);
    }
}
