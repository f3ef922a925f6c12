// The words of a line, which single blanks part: taken one by one from the left, and read as numbers, lengths or bytes.
ghost use Rattle.std.specs.Prelude.{◌≤◌, IfOk};

use crate::source;
use crate::wrong::Wrong;

// The largest number that a case can hold. It stands for all larger ones too: every bound of what is lent lies below it, and Run refuses
// it as a call limit.
const NUMBER_MOST: usize = 4294967296;

// What is left of a line; nothing, where its last word is taken.
#[derive(Drop)]
pub struct Words<'a> {
    rest: Option<&'a mut [u8]>,
}

// How many words a line has.
pub fn count(line: &[u8]) -> usize {
    line.iter().filter(|b| **b == b' ').count() + 1
}

// A number with one digit more.
fn with_digit(value: usize, b: u8) -> Result<usize, Wrong> {
    match b {
        b'0'..=b'9' => {
            let digit = usize::from(b - b'0');
            Ok(
                value
                    .saturating_mul(10)
                    .saturating_add(digit)
                    .min(NUMBER_MOST),
            )
        }
        _ => Err(Wrong::Number),
    }
}

impl<'a> Words<'a> {
    pub fn of(line: &'a mut [u8]) -> Words<'a> {
        Words { rest: Some(line) }
    }

    // Takes the next word.
    pub fn next(&mut self) -> Result<&'a mut [u8], Wrong> {
        let rest = self.rest.take().ok_or(Wrong::Missing)?;
        let n = rest.iter().position(|b| *b == b' ').unwrap_or(rest.len());
        let (word, behind) = rest.split_at_mut(n);
        if !behind.is_empty() {
            self.rest = Some(&mut behind[1..]);
        }
        Ok(word)
    }

    // The number that the next word spells in decimal digits.
    pub fn number(&mut self) -> Result<usize, Wrong> {
        let digits = self.next()?;
        if digits.is_empty() {
            return Err(Wrong::Number);
        }
        digits.iter().try_fold(0, |value, b| with_digit(value, *b))
    }

    // The length that the next word says, at most `most`.
    pub fn length(&mut self, most: usize, over: Wrong) -> Result<usize, Wrong>
        ensures { IfOk result (λ n. n ≤ most) }
    {
        let n = self.number()?;
        if n <= most { Ok(n) } else { Err(over) }
    }

    // The bytes that the next word spells in hexadecimal digits.
    pub fn bytes(&mut self) -> Result<&'a [u8], Wrong> {
        source::decode(self.next()?)
    }
}
