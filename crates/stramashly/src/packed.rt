// The numbers that C gets for answers: a code and three parts.
ghost use Rattle.std.specs.Prelude.{◌≡◌, ℕ};
ghost use Rattle.stramashly.specs.Packed.{packed, refusal_number, pack_result, check_number, fill_number, derive_number, accept_number};
ghost use Rattle.stramashly.specs.Packed.{report_number, write_number, read_number, open_number, step_number, place_number, pack_place};

use door_pieces::RowPlace;
use door_step::Stepped;
use door_write::Sizes;
use model::{CheckAnswer, Counts, DeriveAnswer, FillAnswer, Refusal, ReportAnswer};

// The class set that says program order, where a caller can hand in no enum.
pub const PROGRAM_ORDER: u8 = 16;

fn pack(code: u8, a: u16, b: u16, c: u16) -> u64
    ensures { result ≡ packed code a b c }
{
    (code as u64) * 281474976710656 + (a as u64) * 4294967296 + (b as u64) * 65536 + (c as u64)
}

// What C gets as one number.
pub trait Packed {
    ghost packed_as: { Self → ℕ };

    fn pack(self) -> u64
        ensures { result ≡ packed_as self };
}

impl Packed for Refusal {
    ghost packed_as = { refusal_number };

    fn pack(self) -> u64 {
        pack(4, self.number as u16, self.row, 0)
    }
}

// So that the answers' own codes are all that is left to say.
impl<T: Packed> Packed for Result<T, Refusal> {
    ghost packed_as = { pack_result T.packed_as };

    fn pack(self) -> u64 {
        match self {
            Ok(answer) => answer.pack(),
            Err(refusal) => refusal.pack(),
        }
    }
}

impl Packed for CheckAnswer {
    ghost packed_as = { check_number };

    fn pack(self) -> u64 {
        match self {
            CheckAnswer::Cycle { rows } => pack(3, rows, 0, 0),
            CheckAnswer::Overwritten(found) => pack(2, found.reader, found.writer, found.byte),
            CheckAnswer::Race(race) => pack(1, race.first, race.second, race.byte),
            CheckAnswer::RaceFree => pack(0, 0, 0, 0),
        }
    }
}

// A fill of a table of so many rows.
#[derive(Clone, Copy)]
pub struct FillOf {
    pub rows: u8,
    pub answer: FillAnswer,
}

impl Packed for FillOf {
    ghost packed_as = { λ fill. fill_number fill.rows fill.answer };

    fn pack(self) -> u64 {
        match self.answer {
            FillAnswer::Race(race) => pack(1, race.first, race.second, race.byte),
            FillAnswer::None => pack(5, 0, 0, 0),
            FillAnswer::Filled => pack(6, self.rows as u16, 0, 0),
        }
    }
}

impl Packed for DeriveAnswer {
    ghost packed_as = { derive_number };

    fn pack(self) -> u64 {
        match self {
            DeriveAnswer::ProgramOrder => pack(8, PROGRAM_ORDER as u16, 0, 0),
            DeriveAnswer::Chain { classes, steps } => pack(8, classes as u16, steps, 0),
            DeriveAnswer::NotBefore => pack(9, 0, 0, 0),
        }
    }
}

// Whether a derivation is accepted.
#[derive(Clone, Copy)]
pub struct Accepted(pub bool);

impl Packed for Accepted {
    ghost packed_as = { λ accepted. accept_number accepted.0 };

    fn pack(self) -> u64 {
        if self.0 {
            pack(10, 0, 0, 0)
        } else {
            pack(11, 0, 0, 0)
        }
    }
}

impl Packed for ReportAnswer {
    ghost packed_as = { report_number };

    fn pack(self) -> u64 {
        match self {
            ReportAnswer::Cycle { rows } => pack(3, rows, 0, 0),
            ReportAnswer::Overwritten(found) => pack(2, found.reader, found.writer, found.byte),
            ReportAnswer::NoPairs => pack(18, 0, 0, 0),
            ReportAnswer::Report(report) => pack(7, report.mutuals, report.ordered, report.racing),
        }
    }
}

// How many bytes a table was written in.
#[derive(Clone, Copy)]
pub struct Written(pub u16);

impl Packed for Written {
    ghost packed_as = { λ written. write_number written.0 };

    fn pack(self) -> u64 {
        pack(12, self.0, 0, 0)
    }
}

impl Packed for Sizes {
    ghost packed_as = { read_number };

    fn pack(self) -> u64 {
        let a = (self.version as u16) * 256 + (self.agents as u16);
        pack(19, a, self.rows as u16, self.dependencies)
    }
}

impl Packed for Counts {
    ghost packed_as = { open_number };

    fn pack(self) -> u64 {
        pack(13, self.rows as u16, self.agents as u16, 0)
    }
}

impl Packed for Stepped {
    ghost packed_as = { step_number };

    fn pack(self) -> u64 {
        match self {
            Stepped::Row { entry: _, next } => pack(14, next, 0, 0),
            Stepped::End { next } => pack(15, next, 0, 0),
        }
    }
}

impl Packed for RowPlace {
    ghost packed_as = { place_number };

    fn pack(self) -> u64 {
        match self {
            RowPlace::First { at } => pack(16, 0, at, 0),
            RowPlace::Second { at } => pack(16, 1, at, 0),
        }
    }
}

impl Packed for Option<RowPlace> {
    ghost packed_as = { pack_place };

    fn pack(self) -> u64 {
        match self {
            Some(place) => place.pack(),
            None => pack(17, 0, 0, 0),
        }
    }
}
