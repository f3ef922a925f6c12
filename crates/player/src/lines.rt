// Lines of the text: their form, their codes and operands.
ghost use Rattle.std.specs.Prelude.{◌≡◌, ◌+◌, ◌/◌, ◌≤◌, ◌<◌, length, set, unwrap_or, IfSome};
ghost use Rattle.player.specs.promises.Reading.{digit_or, number_or, LineAt, Form, FrameAt, EntryAt};

use crate::around::Around;
use base::refusal::{Reason, Refusal};

// Bytes of a line, its digits and where they lie: two for the code and eight for the operand. A line feed ends it.
pub const LINE: usize = 11;

const CODE_DIGITS: usize = 2;

const OPERAND_DIGITS: usize = 8;

const FEED: usize = 10;

// How many lines are decoded once.
pub const DECODED: usize = 8192;

// A line.
#[derive(Clone, Copy, Default)]
pub struct Line {
    pub code: u8,
    pub operand: u32,
}

// The code of `entry`.
const ENTRY: u8 = 22;

// What a lower-case hexadecimal digit stands for.
pub fn digit(b: u8) -> Option<u8>
    ensures { (unwrap_or result 16 ≡ digit_or b) × IfSome result (λ d. d < 16) }
{
    match b {
        b'0'..=b'9' => Some(b - b'0'),
        b'a'..=b'f' => Some(b - b'a' + 10),
        _ => None,
    }
}

// The number that `count` digits from `at` on say, highest first.
pub fn digits(text: &[u8], at: usize, count: usize) -> Option<u32>
    requires { (at + count ≤ length text.now) × (count ≤ 8) }
    ensures { unwrap_or result 4294967296 ≡ number_or text.now at count }
{
    let mut v: u32 = 0;
    for i in at..at + count {
        v = v * 16 + digit(text[i])? as u32;
    }
    Some(v)
}

// The line from a byte on, where it is of the form.
pub fn line_at(text: &[u8], at: usize) -> Option<Line>
    requires { at ≤ length text.now }
    ensures { LineAt text.now at result }
{
    if text.len() - at < LINE {
        return None;
    }
    let code = digits(text, at, CODE_DIGITS)?;
    let operand = digits(text, at + CODE_DIGITS, OPERAND_DIGITS)?;
    if text[at + FEED] != b'\n' {
        return None;
    }
    Some(Line {
        code: code as u8,
        operand,
    })
}

// Keeps a line where there is room for it.
fn decode(decoded: &mut [Line; DECODED], i: usize, line: Line)
    requires { length decoded.old ≡ 8192 }
    ensures { decoded.new ≡ set decoded.old i line }
{
    if i < DECODED {
        decoded[i] = line;
    }
}

// Whether all lines are of the form: else the first byte of the first line that is not. The first lines are decoded.
pub fn form(text: &[u8], decoded: &mut [Line; DECODED]) -> Result<(), Refusal>
    requires { length decoded.old ≡ 8192 }
    ensures { Form text.now decoded.new result }
{
    for i in 0..text.len().div_ceil(LINE) {
        let at = LINE * i;
        let Some(line) = line_at(text, at) else {
            return Err(Refusal {
                reason: Reason::OtherForm,
                position: at,
            });
        };
        decode(decoded, i, line);
    }
    Ok(())
}

// Line number i.
pub fn frame_at(around: Around<'_>, i: usize) -> Line
    requires { i < around.count }
    ensures { FrameAt around.entry.text.now i result }
{
    if i < DECODED {
        return around.decoded[i];
    }
    line_at(around.text, LINE * i).unwrap()
}

// The operand of the `entry` at a line; 70 where the line is past the last or no `entry`.
pub fn entry_at(around: Around<'_>, i: usize) -> Result<u32, Reason>
    ensures { EntryAt around.entry.text.now i result }
{
    if around.count <= i {
        return Err(Reason::FrameFault);
    }
    let line = frame_at(around, i);
    if line.code != ENTRY {
        return Err(Reason::FrameFault);
    }
    Ok(line.operand)
}
