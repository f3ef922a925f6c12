// The bytes of a case, its source, tape or library: two lower-case hexadecimal digits a byte, or `-` for no bytes. They are decoded into
// the word itself, so that they take no room beside the line.
ghost use Rattle.std.specs.Prelude.{◌*◌, ◌≤◌, ◌<◌, length, IfOk};

use crate::wrong::Wrong;

// The value of a hexadecimal digit.
fn digit(b: u8) -> Result<u8, Wrong>
    ensures { IfOk result (λ n. n < 16) }
{
    match b {
        b'0'..=b'9' => Ok(b - b'0'),
        b'a'..=b'f' => Ok(b - b'a' + 10),
        _ => Err(Wrong::Digit),
    }
}

// How many bytes a word spells.
fn size(word: &[u8]) -> Result<usize, Wrong>
    ensures { IfOk result (λ n. 2 * n ≤ length word.now) }
{
    if word.is_empty() {
        return Err(Wrong::Missing);
    }
    if word == b"-".as_slice() {
        return Ok(0);
    }
    if word.len() % 2 == 1 {
        return Err(Wrong::Odd);
    }
    Ok(word.len() / 2)
}

// The bytes that a word spells, which stand in its place then.
pub fn decode(word: &mut [u8]) -> Result<&[u8], Wrong> {
    let n = size(word)?;
    for i in 0..n {
        word[i] = digit(word[2 * i])? * 16 + digit(word[2 * i + 1])?;
    }
    Ok(&word[..n])
}
