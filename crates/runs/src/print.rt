// How the answers are printed, each as one line.
use model::{CheckAnswer, FillAnswer, Race, Refusal};
use std::fmt;

// The first so many numbers of a list, each after a space.
#[derive(Clone, Copy)]
struct First<'a> {
    count: usize,
    list: &'a [u16],
}

impl fmt::Display for First<'_> {
    fn fmt<W: fmt::Write>(&self, f: &mut fmt::Formatter<W>) -> fmt::Result {
        for n in self.list.iter().take(self.count) {
            write!(f, " {n}")?;
        }
        Ok(())
    }
}

#[derive(Clone, Copy)]
struct Refused(Refusal);

impl fmt::Display for Refused {
    fn fmt<W: fmt::Write>(&self, f: &mut fmt::Formatter<W>) -> fmt::Result {
        let Refused(refusal) = self;
        write!(f, "refused {} {}", refusal.number, refusal.row)
    }
}

#[derive(Clone, Copy)]
struct Racing(Race);

impl fmt::Display for Racing {
    fn fmt<W: fmt::Write>(&self, f: &mut fmt::Formatter<W>) -> fmt::Result {
        let Racing(race) = self;
        write!(f, "race {} {} {}", race.first, race.second, race.byte)
    }
}

// A cycle of so many rows: the rows, and the edge numbers of its steps.
#[derive(Clone, Copy)]
struct Cycle<'a> {
    count: usize,
    buffer: &'a [u16; model::CYCLE],
}

impl fmt::Display for Cycle<'_> {
    fn fmt<W: fmt::Write>(&self, f: &mut fmt::Formatter<W>) -> fmt::Result {
        let count = self.count;
        let buffer = self.buffer;
        let rows = First {
            count,
            list: &buffer[..model::CYCLE_EDGES],
        };
        let edges = First {
            count,
            list: &buffer[model::CYCLE_EDGES..],
        };
        write!(f, "cycle {count} rows{rows} edges{edges}")
    }
}

// The answer of a check, and the buffer that a cycle stands in.
#[derive(Clone, Copy)]
pub struct Checked<'a> {
    pub answer: Result<CheckAnswer, Refusal>,
    pub cycle: &'a [u16; model::CYCLE],
}

impl fmt::Display for Checked<'_> {
    fn fmt<W: fmt::Write>(&self, f: &mut fmt::Formatter<W>) -> fmt::Result {
        match self.answer {
            Err(refusal) => write!(f, "{}", Refused(refusal)),
            Ok(CheckAnswer::Cycle { rows }) => {
                let cycle = Cycle {
                    count: rows as usize,
                    buffer: self.cycle,
                };
                write!(f, "{cycle}")
            }
            Ok(CheckAnswer::Overwritten(o)) => {
                write!(f, "overwritten {} {} {}", o.reader, o.writer, o.byte)
            }
            Ok(CheckAnswer::Race(race)) => write!(f, "{}", Racing(race)),
            Ok(CheckAnswer::RaceFree) => write!(f, "race-free"),
        }
    }
}

// The answer of a fill of so many rows, and the buffer that their sources stand in.
#[derive(Clone, Copy)]
pub struct Filled<'a> {
    pub answer: Result<FillAnswer, Refusal>,
    pub rows: usize,
    pub sources: &'a [u16],
}

impl fmt::Display for Filled<'_> {
    fn fmt<W: fmt::Write>(&self, f: &mut fmt::Formatter<W>) -> fmt::Result {
        match self.answer {
            Err(refusal) => write!(f, "{}", Refused(refusal)),
            Ok(FillAnswer::Race(race)) => write!(f, "{}", Racing(race)),
            Ok(FillAnswer::None) => write!(f, "none"),
            Ok(FillAnswer::Filled) => {
                let sources = First {
                    count: self.rows,
                    list: self.sources,
                };
                write!(f, "filled{sources}")
            }
        }
    }
}
