// The operation join: `join TABLE STRIP HEXLESSON HEXLIBRARY` is answered by `NUMBER POSITION COUNT`, and after success by ` : ` and the
// joined text.
use crate::words::Words;
use crate::wrong::{Failure, Wrong};
use crate::{strip, text};
use joiner::join::join;
use std::io::Write;

// Answers a case with its table. The strip stands here, once.
pub fn answer<W: Write>(out: &mut W, words: &mut Words, table: &mut [u32]) -> Result<(), Failure> {
    let mut joined = [0u8; text::STRIP_MOST];
    let n = words.length(text::STRIP_MOST, Wrong::StripLength)?;
    let lesson = words.bytes()?;
    let library = words.bytes()?;
    let joined = &mut joined[..n];
    strip::fill(table);
    strip::fill(joined);
    let a = join(lesson, table, library, joined);
    Ok(text::write(out, a, table, joined)?)
}
