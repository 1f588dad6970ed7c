// A line of the input: a word and the hex digits of a table. The bytes of the digits are put into a lent table as they come.
use std::io;

// Room for more than the longest table, which has 2570 bytes: digits past the end are dropped, and what is left is still too long.
pub const ROOM: usize = 4096;

// What a line asks for, by the first letter of its word.
#[derive(Clone, Copy)]
pub enum Word {
    Check,
    Fill,
    Other,
}

impl Word {
    fn of(letter: u8) -> Word {
        match letter {
            b'c' => Word::Check,
            b'f' => Word::Fill,
            _ => Word::Other,
        }
    }
}

// How far a line has come.
#[derive(Clone, Copy)]
pub enum Line {
    // No word yet.
    Start,
    // In the word.
    Word(Word),
    // After the word and a space, with so many digits.
    Digits(Word, usize),
}

impl Line {
    // The line after one more byte.
    pub fn take(self, rt: &impl Print, b: u8, table: &mut [u8; ROOM]) -> io::Result<Line> {
        if b == b'\n' {
            self.answer(rt, table)?;
            return Ok(Line::Start);
        }
        Ok(match self {
            // Zero bytes before a word are skipped.
            Line::Start if b == 0 => Line::Start,
            Line::Start => Line::Word(Word::of(b)),
            Line::Word(word) if b == b' ' => Line::Digits(word, 0),
            Line::Word(word) => Line::Word(word),
            Line::Digits(word, count) => Line::Digits(word, put_digit(count, b, table)),
        })
    }

    // The answer to a line that has ended. A line with no word has none.
    pub fn answer(self, rt: &impl Print, table: &[u8; ROOM]) -> io::Result<()> {
        let (word, count) = match self {
            Line::Start => return Ok(()),
            Line::Word(word) => (word, 0),
            Line::Digits(word, count) => (word, count),
        };
        let bytes = &table[..(count / 2).min(ROOM)];
        match word {
            Word::Check => crate::checks::answer(rt, bytes),
            Word::Fill => crate::fills::answer(rt, bytes),
            Word::Other => Ok(()),
        }
    }
}

// The value of a hex digit in upper or lower case.
fn digit(b: u8) -> Option<u8> {
    match b {
        b'0'..=b'9' => Some(b - b'0'),
        b'A'..=b'F' => Some(b - b'A' + 10),
        b'a'..=b'f' => Some(b - b'a' + 10),
        _ => None,
    }
}

// Puts a digit at the low end of the byte that the digits before it lead to, and counts it. What is no digit, or has no room, isn't counted.
fn put_digit(count: usize, b: u8, table: &mut [u8; ROOM]) -> usize {
    let at = count / 2;
    if at >= ROOM {
        return count;
    }
    let Some(d) = digit(b) else {
        return count;
    };
    table[at] = (table[at] << 4) | d;
    count + 1
}
