// Walks of a counted number of steps to one number: steps and layers are two matrices of bits in a lent list of words, and layer k is
// the numbers from which k steps lead there. The layers stand after the steps; nothing else of the list changes.
#![tactic(auto)]

ghost use Rattle.std.specs.Prelude.{◌≡◌, ◌+◌, ◌*◌, ◌≤◌, ◌<◌, length};
ghost use Rattle.finite.specs.Below.{least};
ghost use Rattle.bits.specs.Within.{Within};
ghost use Rattle.bits.specs.Fill.{row_fill};
ghost use Rattle.work_walks.specs.Layers.{Room, Laid, step_bit, reaches, in_layer, after, Layers, Returns};

pub mod apart; // the same, with room before the layers for the steps of as many numbers as a row has bits
#[cfg(test)]
mod tests;

// Where the steps and the layers begin, in words; a row of either has STRIDE words.
#[derive(Clone, Copy)]
pub struct Walks<const STRIDE: usize> {
    pub steps: usize,
    pub layers: usize,
}

// Along the edges: they and their layers are grids over rows.
pub const EDGES: Walks<{ work_area::GRID }> = Walks {
    steps: work_area::EDGE,
    layers: work_area::LAYERS,
};

// Along the steps of derivations: they and their layers are grids over moments.
pub const STEPS: Walks<{ work_area::MOMENTS }> = Walks {
    steps: work_area::STEP,
    layers: work_area::CHAINS,
};

impl<const STRIDE: usize> Walks<STRIDE> {
    // The least number that a step from z leads to and that is in layer k; n where there is none.
    // Ruled out: one that gives the last such number; one that reads the steps that lead to z.
    pub fn next(self, w: &[u64], n: usize, k: usize, z: usize) -> usize
        requires { Laid self.steps self.layers STRIDE n (length w.now) × (k ≤ n) × (z < n) }
        ensures { result ≡ least n (step_bit w.now self.entry.steps self.entry.layers STRIDE k z) }
    {
        let y = work_sets::first_both(w, self.steps + z * STRIDE, self.layers + k * STRIDE, STRIDE);
        if y < n { y } else { n }
    }

    // Adds the numbers from which a step leads into layer k to the layer after it.
    fn fill_after(self, w: &mut [u64], n: usize, k: usize)
        requires { Laid self.steps self.layers STRIDE n (length w.old) × (k < n) }
        ensures { w.new ≡ row_fill (reaches w.old self.entry.steps self.entry.layers STRIDE n k) w.old (after self.entry.layers STRIDE k) n }
    {
        let at = (self.layers + k * STRIDE + STRIDE) * 64;
        for z in 0..n {
            let y = self.next(w, n, k, z);
            bits::put_if(w, at + z, y < n);
        }
    }

    // Layer k becomes the numbers from which k steps lead to x, for each k up to n. After an empty layer there are none to add.
    // Ruled out: one that leaves old bits in the layers; one that begins with x in layer 1; one that goes along the steps from x.
    pub fn fill_layers(self, w: &mut [u64], n: usize, x: usize)
        requires { Laid self.steps self.layers STRIDE n (length w.old) × (x < n) }
        ensures { let m = self.entry in
            Layers m.steps m.layers STRIDE n x w.new × Within m.layers (m.layers + n * STRIDE + STRIDE) w.old w.new }
    {
        let layers = self.layers;
        bits::clear(w, layers, layers + n * STRIDE + STRIDE);
        bits::put(w, layers * 64 + x);
        for k in 0..n {
            let at = layers + k * STRIDE;
            if 64 * STRIDE <= work_sets::first_both(w, at, at, STRIDE) {
                return;
            }
            self.fill_after(w, n, k);
        }
    }

    // The least j for which z is in layer j + 1; n where there is none.
    // Ruled out: one that finds z in layer 0, by no step at all; one that gives a longer way.
    pub fn layer_of(self, w: &[u64], n: usize, z: usize) -> usize
        requires { Room self.layers STRIDE n (length w.now) × (z < n) }
        ensures { (result ≡ least n (in_layer w.now self.entry.layers STRIDE z)) × (result ≤ n) }
    {
        for j in 0..n {
            if bits::get(w, (self.layers + j * STRIDE + STRIDE) * 64 + z) {
                return j;
            }
        }
        n
    }

    // The layers up to the first that has x again, by a way of one step at least: gives the least j for which x is in layer j + 1; n where
    // there is none.
    // Ruled out: one that finds x in layer 0; one that stops before the layer that has x again is made.
    pub fn fill_until(self, w: &mut [u64], n: usize, x: usize) -> usize
        requires { Laid self.steps self.layers STRIDE n (length w.old) × (x < n) }
        ensures { let m = self.entry in
            Returns m.steps m.layers STRIDE n x result w.new × Within m.layers (m.layers + n * STRIDE + STRIDE) w.old w.new }
    {
        let layers = self.layers;
        bits::clear(w, layers, layers + n * STRIDE + STRIDE);
        bits::put(w, layers * 64 + x);
        for k in 0..n {
            self.fill_after(w, n, k);
            if bits::get(w, (layers + k * STRIDE + STRIDE) * 64 + x) {
                return k;
            }
        }
        n
    }
}
