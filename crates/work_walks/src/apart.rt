// Walks that are known to have room before the layers for the steps of as many numbers as a row has bits: a call shows only that the layers
// fit.
ghost use Rattle.std.specs.Prelude.{◌≡◌, ◌+◌, ◌*◌, ◌≤◌, ◌<◌, length};
ghost use Rattle.finite.specs.Below.{least};
ghost use Rattle.bits.specs.Within.{Within};
ghost use Rattle.work_walks.specs.Layers.{Room, step_bit, in_layer, Layers, Returns};

use crate::Walks;

// Where the steps and the layers begin, in words; a row of either has STRIDE words. The steps of as many numbers as a row has bits stand
// before the layers.
#[derive(Clone, Copy)]
pub struct ApartWalks<const STRIDE: usize> {
    pub steps: usize,
    pub layers: usize,
    ghost apart: { steps + 64 * STRIDE * STRIDE ≤ layers },
}

// Along the edges: they and their layers are grids over rows.
pub const EDGES: ApartWalks<{ work_area::GRID }> = ApartWalks {
    steps: work_area::EDGE,
    layers: work_area::LAYERS,
};

// Along the steps of derivations: they and their layers are grids over moments.
pub const STEPS: ApartWalks<{ work_area::MOMENTS }> = ApartWalks {
    steps: work_area::STEP,
    layers: work_area::CHAINS,
};

impl<const STRIDE: usize> ApartWalks<STRIDE> {
    fn walks(self) -> Walks<STRIDE>
        ensures { (result.steps ≡ self.entry.steps) × (result.layers ≡ self.entry.layers) }
    {
        Walks {
            steps: self.steps,
            layers: self.layers,
        }
    }

    // The least number that a step from z leads to and that is in layer k; n where there is none.
    // Ruled out: one that gives the last such number; one that reads the steps that lead to z.
    pub fn next(self, w: &[u64], n: usize, k: usize, z: usize) -> usize
        requires { Room self.layers STRIDE n (length w.now) × (k ≤ n) × (z < n) }
        ensures { result ≡ least n (step_bit w.now self.entry.steps self.entry.layers STRIDE k z) }
    {
        self.walks().next(w, n, k, z)
    }

    // Layer k becomes the numbers from which k steps lead to x, for each k up to n. After an empty layer there are none to add.
    // Ruled out: one that leaves old bits in the layers; one that begins with x in layer 1; one that goes along the steps from x.
    pub fn fill_layers(self, w: &mut [u64], n: usize, x: usize)
        requires { Room self.layers STRIDE n (length w.old) × (x < n) }
        ensures { let m = self.entry in
            Layers m.steps m.layers STRIDE n x w.new × Within m.layers (m.layers + n * STRIDE + STRIDE) w.old w.new }
    {
        self.walks().fill_layers(w, n, x);
    }

    // The least j for which z is in layer j + 1; n where there is none.
    // Ruled out: one that finds z in layer 0, by no step at all; one that gives a longer way.
    pub fn layer_of(self, w: &[u64], n: usize, z: usize) -> usize
        requires { Room self.layers STRIDE n (length w.now) × (z < n) }
        ensures { (result ≡ least n (in_layer w.now self.entry.layers STRIDE z)) × (result ≤ n) }
    {
        self.walks().layer_of(w, n, z)
    }

    // The layers up to the first that has x again, by a way of one step at least: gives the least j for which x is in layer j + 1; n where
    // there is none.
    // Ruled out: one that finds x in layer 0; one that stops before the layer that has x again is made.
    pub fn fill_until(self, w: &mut [u64], n: usize, x: usize) -> usize
        requires { Room self.layers STRIDE n (length w.old) × (x < n) }
        ensures { let m = self.entry in
            Returns m.steps m.layers STRIDE n x result w.new × Within m.layers (m.layers + n * STRIDE + STRIDE) w.old w.new }
    {
        self.walks().fill_until(w, n, x)
    }
}
