// The answer to a `fill` line.
use crate::checks::DIRT;
use crate::print::Filled;
use std::io;

// The count of rows that a table names.
fn rows_of(table: &[u8]) -> u8 {
    table.get(6).copied().unwrap_or(0)
}

pub fn answer(rt: &impl Print, table: &[u8]) -> io::Result<()> {
    let mut work = [DIRT; model::WORK];
    let mut sources = [0u16; model::SOURCES];
    let answer = ask_fill::fill(table, false, &mut work, &mut sources);
    let line = Filled {
        answer,
        rows: rows_of(table) as usize,
        sources: &sources,
    };
    println!(rt; "{line}")
}
