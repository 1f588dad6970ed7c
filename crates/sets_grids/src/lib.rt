// Where the engine by sets has its grids in the work area: each has a set of rows for each row. What the whole product shares is in `area`;
// these stand in regions of it that the other engine uses for its own. specs/Regions.antt says the same.
#![tactic(auto)]

use sets_of_rows::Set;

const GRID: usize = work_area::ROWS_GRID;

// M3: the atomic writers that follow each in their scoped modification order.
pub const LATER: usize = work_area::SEQUENCE;

pub const LATER_END: usize = LATER + GRID;

// ---- kept up to location order

// Happens-before between rows; from availability operations to rows, visibility and availability operations; and between visibility
// operations.
pub const HAPPENS: usize = work_area::HAPPENS;

pub const AVAILABLE_AT: usize = HAPPENS + GRID;

pub const AVAILABLE_VISIBLE: usize = AVAILABLE_AT + GRID;

pub const AVAILABLE_AVAILABLE: usize = AVAILABLE_VISIBLE + GRID;

pub const VISIBLE_VISIBLE: usize = AVAILABLE_AVAILABLE + GRID;

pub const HAPPENS_END: usize = VISIBLE_VISIBLE + GRID;

// L3: the rows to which each availability operation makes available, and those by whose visibility operations it is then visible.
pub const AVAILABLE_TO: usize = HAPPENS_END;

pub const VISIBLE_BY: usize = AVAILABLE_TO + GRID;

pub const VISIBLE_BY_END: usize = VISIBLE_BY + GRID;

// The closure of the dependencies; what rows meet of what operations leave; L4 and L5.
pub const SYSTEM: usize = work_area::SYSTEM;

pub const SYSTEM_END: usize = SYSTEM + GRID;

pub const MET: usize = work_area::MET;

pub const MET_END: usize = MET + GRID;

pub const HOSTED: usize = work_area::HOSTED;

pub const HOSTED_END: usize = HOSTED + GRID;

// ---- kept to the end

// Location order: the rows that each is ordered before at some shared byte.
pub const SOME: usize = VISIBLE_BY_END;

pub const SOME_END: usize = SOME + GRID;

// ---- made and used before location order, where it will stand

// M4: the heads of the release sequences that each atomic writer is in.
pub const HEADS: usize = work_area::LOCATION;

pub const HEADS_END: usize = HEADS + GRID;

// M5: the acquire rows that get what is read from the sequence that each atomic writer heads.
pub const TAKEN: usize = HEADS_END;

pub const TAKEN_END: usize = TAKEN + GRID;

// M5: the barriers that each barrier passes to by way of a control barrier.
pub const PASSED: usize = TAKEN_END;

pub const PASSED_END: usize = PASSED + GRID;

// Dependencies.
pub const DEPENDS: usize = PASSED_END;

pub const DEPENDS_END: usize = DEPENDS + GRID;

// M6, for one class set: the rows, visibility and availability operations that inter-thread order leads to from each node.
pub const REACH_AT: usize = DEPENDS_END;

pub const REACH_VISIBLE: usize = REACH_AT + GRID;

pub const REACH_AVAILABLE: usize = REACH_VISIBLE + GRID;

pub const REACH_END: usize = REACH_AVAILABLE + GRID;

// ---- what M6 and M7 hand on

// For one class set: its nodes, which are the rows that hold all of it and are releases or acquires, and the ends of dependencies; of these
// the releases and the acquires; the rows that it concerns, and those whose availability and visibility operations it concerns.
#[derive(Clone, Copy)]
pub struct Concerned {
    pub nodes: Set,
    pub releases: Set,
    pub acquires: Set,
    pub at: Set,
    pub available: Set,
    pub visible: Set,
}
