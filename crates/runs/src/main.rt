// Answers each line `check HEX` or `fill HEX` of standard input by one line of standard output, so that the answers can be compared
// with those of a second, independent program.
#![tactic(auto)]

mod checks;
mod fills;
mod lines;
mod print;

use lines::Line;
use std::io::{self, Read};

// The line after a part of the input.
fn take_bytes(
    rt: &impl Print,
    line: Line,
    bytes: &[u8],
    table: &mut [u8; lines::ROOM],
) -> io::Result<Line> {
    let mut now = line;
    for b in bytes {
        now = now.take(rt, *b, table)?;
    }
    Ok(now)
}

// A proved loop has to end, and nothing says that the input does. So the reads are counted, up to a number that no run uses up.
fn read_all(rt: &impl Print, input: &mut impl Read) -> io::Result<()> {
    let mut table = [0u8; lines::ROOM];
    let mut buffer = [0u8; 65536];
    let mut line = Line::Start;
    for _ in 0..u64::MAX {
        let n = input.read(&mut buffer)?;
        // A read that gives nothing ends the input, and with it the last line.
        if n == 0 {
            return line.answer(rt, &table);
        }
        line = take_bytes(rt, line, &buffer[..n], &mut table)?;
    }
    Ok(())
}

fn main(rt: HostRuntime) -> io::Result<()> {
    read_all(&rt, &mut rt.stdin())
}
