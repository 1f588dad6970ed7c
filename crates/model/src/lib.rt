// What the crates share: the limits, and the types of a row, a source, a refusal and the answers.
#![tactic(auto)]

ghost use Rattle.std.specs.Prelude.{◌≡◌, eqb, ltb};
ghost use Rattle.model.specs.Limits.{INITIAL, BLANK};
ghost use Rattle.model.specs.Refusal.{refusal, refusal_of, admission_answer};
ghost use Rattle.model.specs.Fault.{fault_number};

// ---- limits

pub const AGENTS: usize = 32;

pub const ROWS: usize = 128;

// The 64-bit words that a check or a fill works in.
pub const WORK: usize = 8192;

// The numbers of the cycle buffer: rows from place 0, edges from place CYCLE_EDGES.
pub const CYCLE: usize = 256;

pub const CYCLE_EDGES: usize = 128;

// The numbers of the source buffer.
pub const SOURCES: usize = 128;

// The steps of a derivation, at most: one fewer than there are moments. The numbers of the chain buffer.
pub const CHAIN: usize = 383;

// The dependencies of a table, at most.
pub const DEPENDENCIES: usize = 64;

// What a step adds to the moment that it reaches, for each number of its case.
pub const CASE: u16 = 512;

// ---- a table's parts

// The family, workgroup and subgroup numbers of each agent, and what it is: 0 shader, 1 host, 2 queue.
pub type Places = [[u16; 4]; 32];

// A row without its source: what the order of rows goes by, the sources of atomic rows aside.
#[derive(Clone, Copy)]
pub struct Row {
    pub kind: u8,
    pub agent: u8,
    pub order: u8,
    pub scope: u8,
    pub classes: u8,
    pub flags: u8,
    pub class: u8,
    pub size: u8,
    pub start: u16,
    pub reference: u16,
    pub rank: u16,
}

// Where a row's bytes come from: a row's number, the initial value, or a blank.
#[derive(Clone, Copy, PartialEq, Eq)]
pub struct Source(pub u16);

impl From<u16> for Source {
    ghost from_gives = { λ row s. s.0 ≡ row };

    fn from(row: u16) -> Source {
        Source(row)
    }
}

impl Source {
    pub const INITIAL: Source = Source(65535);

    // A blank is the paper's own term: a source that a fill is to find.
    pub const BLANK: Source = Source(65534);

    pub fn is_initial(self) -> bool
        ensures { result ≡ eqb self.0 INITIAL }
    {
        self == Source::INITIAL
    }

    pub fn is_blank(self) -> bool
        ensures { result ≡ eqb self.0 BLANK }
    {
        self == Source::BLANK
    }

    // Whether it is one of so many rows.
    pub fn is_row(self, rows: u16) -> bool
        ensures { result ≡ ltb self.0 rows }
    {
        self.0 < rows
    }
}

// A row with its source.
#[derive(Clone, Copy)]
pub struct Entry {
    pub row: Row,
    pub source: Source,
}

// ---- answers

// What is said of a table.
#[derive(Clone, Copy)]
pub enum Admission {
    Admitted { agents: u8, rows: u8 },
    Refused { number: u8, row: u16 },
}

impl Admission {
    // The same as a `Result` of counts or a refusal says it.
    // Ruled out: one that exchanges the two counts; one whose refusals all name row 0.
    pub fn of(answer: Result<Counts, Refusal>) -> Admission
        ensures { admission_answer result ≡ answer }
    {
        match answer {
            Ok(counts) => Admission::Admitted {
                agents: counts.agents,
                rows: counts.rows,
            },
            Err(refusal) => Admission::Refused {
                number: refusal.number,
                row: refusal.row,
            },
        }
    }
}

// Why a table is refused, by the names and the numbers of docs/FORMAT.md.
#[derive(Clone, Copy, PartialEq, Eq)]
pub enum Fault {
    Short = 1,
    Version = 2,
    Limits = 3,
    Length = 4,
    Code = 5,
    KindFit = 6,
    Extent = 7,
    Class = 8,
    Source = 9,
    Rank = 10,
    Buffer = 11,
    Moments = 12,
    Room = 13,
    Instance = 14,
    Run = 15,
    AgentKind = 16,
    Dependencies = 17,
    Dependency = 18,
    AgentRow = 19,
    OperationFit = 20,
    Rows = 40,
}

impl Fault {
    pub fn number(self) -> u8
        ensures { result ≡ fault_number self }
    {
        self as u8
    }
}

// The number and the row of a refusal.
#[derive(Clone, Copy)]
pub struct Refusal {
    pub number: u8,
    pub row: u16,
}

impl Refusal {
    // A fault of this row.
    pub fn at(fault: Fault, row: u16) -> Refusal
        ensures { result ≡ refusal (fault_number fault) row }
    {
        Refusal {
            number: fault.number(),
            row,
        }
    }
}

// Takes them out. An admission has neither, and is not handed to it: the caller has let it go by `let else`.
pub fn refusal_of(a: Admission) -> Refusal
    ensures { result ≡ refusal_of a }
{
    match a {
        Admission::Refused { number, row } => Refusal { number, row },
        Admission::Admitted { agents: _, rows: _ } => Refusal { number: 0, row: 0 },
    }
}

// A fault of the whole table is given at row 0.
impl From<Fault> for Refusal {
    ghost from_gives = { λ fault given. given ≡ refusal (fault_number fault) 0 };

    fn from(fault: Fault) -> Refusal {
        Refusal::at(fault, 0)
    }
}

// How many agents and rows a table that is admitted has.
#[derive(Clone, Copy)]
pub struct Counts {
    pub agents: u8,
    pub rows: u8,
}

// Two rows that race, the lower and the higher, and their lowest byte with no order.
#[derive(Clone, Copy)]
pub struct Race {
    pub first: u16,
    pub second: u16,
    pub byte: u16,
}

// A row that reads a byte whose source another row overwrites before.
#[derive(Clone, Copy)]
pub struct Overwritten {
    pub reader: u16,
    pub writer: u16,
    pub byte: u16,
}

#[derive(Clone, Copy)]
pub enum CheckAnswer {
    Cycle { rows: u16 },
    Overwritten(Overwritten),
    Race(Race),
    RaceFree,
}

#[derive(Clone, Copy)]
pub enum FillAnswer {
    Race(Race),
    None,
    Filled,
}

// Why a moment happens before another: program order, or a chain of steps for this class set.
#[derive(Clone, Copy)]
pub enum Reason {
    ProgramOrder,
    Chain(u8),
}

#[derive(Clone, Copy)]
pub enum DeriveAnswer {
    ProgramOrder,
    Chain { classes: u8, steps: u16 },
    NotBefore,
}

// How many pairs of rows conflict; how many of these are mutually-ordered, how many aren't but have order at every shared byte, and
// how many race; and the share of the last in the first.
#[derive(Clone, Copy)]
pub struct Report {
    pub conflicting: u16,
    pub mutuals: u16,
    pub ordered: u16,
    pub racing: u16,
    pub share: f64,
}

// A check's answer to a table that is inconsistent; else the report, or that no pair conflicts.
#[derive(Clone, Copy)]
pub enum ReportAnswer {
    Cycle { rows: u16 },
    Overwritten(Overwritten),
    NoPairs,
    Report(Report),
}
