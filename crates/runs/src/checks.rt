// The answer to a `check` line.
use crate::print::Checked;
use std::io;

// The work area and the cycle buffer hold ones when they are lent: an answer must not come from what they held.
pub const DIRT: u64 = u64::MAX;

pub fn answer(rt: &impl Print, table: &[u8]) -> io::Result<()> {
    let mut work = [DIRT; model::WORK];
    let mut cycle = [u16::MAX; model::CYCLE];
    let answer = ask_check::check::check(table, false, &mut work, &mut cycle);
    let line = Checked {
        answer,
        cycle: &cycle,
    };
    println!(rt; "{line}")
}
