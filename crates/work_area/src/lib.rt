// The map of the work area: where each region begins and ends, in words, and where a bit of a region stands. specs/Regions.antt says
// the same.
#![tactic(auto)]

pub mod grid; // bits of two rows, or of two moments
pub mod pairs; // bits of two rows and a byte

// Words in a row of a grid over rows, and over moments.
pub const GRID: usize = 2;

pub const MOMENTS: usize = 6;

// Bits of a pair of rows, one for each byte, and of a row of pairs.
pub const PAIR: usize = 16;

pub const PAIRS: usize = 2048;

// Words of a grid over rows, over moments, and of the bits of all pairs.
pub const ROWS_GRID: usize = 256;

const MOMENTS_GRID: usize = 2304;

const PAIRS_GRID: usize = 4096;

pub const MUTUAL: usize = 0;

pub const MUTUAL_END: usize = MUTUAL + ROWS_GRID;

pub const SEQUENCE: usize = MUTUAL_END;

pub const SEQUENCE_END: usize = SEQUENCE + ROWS_GRID;

pub const SYNC: usize = SEQUENCE_END;

pub const SYNC_END: usize = SYNC + ROWS_GRID;

pub const HAPPENS: usize = SYNC_END;

pub const HAPPENS_END: usize = HAPPENS + MOMENTS_GRID;

pub const STEP: usize = HAPPENS_END;

pub const STEP_END: usize = STEP + MOMENTS_GRID;

pub const CHAINS: usize = STEP_END;

pub const CHAINS_END: usize = CHAINS + MOMENTS_GRID + MOMENTS;

pub const LOCATION: usize = HAPPENS_END;

pub const LOCATION_END: usize = LOCATION + PAIRS_GRID;

pub const HOSTED: usize = LOCATION_END;

pub const HOSTED_END: usize = HOSTED + ROWS_GRID;

pub const SYSTEM: usize = HOSTED_END;

pub const SYSTEM_END: usize = SYSTEM + ROWS_GRID;

pub const MET: usize = SYSTEM_END;

pub const MET_END: usize = MET + ROWS_GRID;

pub const REACHED: usize = MET_END;

pub const REACHED_END: usize = REACHED + ROWS_GRID;

pub const REACH_OUT: usize = HOSTED_END;

pub const REACH_OUT_END: usize = REACH_OUT + ROWS_GRID;

pub const REACH_IN: usize = REACH_OUT_END;

pub const REACH_IN_END: usize = REACH_IN + ROWS_GRID;

// Where all that location order is made in ends.
pub const LOCATED_END: usize = REACHED_END;

pub const EDGE: usize = LOCATION_END;

pub const EDGE_END: usize = EDGE + ROWS_GRID;

pub const LAYERS: usize = EDGE_END;

pub const LAYERS_END: usize = LAYERS + ROWS_GRID + GRID;

pub const OVERLAP: usize = REACHED;

pub const OVERLAP_END: usize = OVERLAP + ROWS_GRID;
