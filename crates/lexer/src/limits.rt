// The limits on a token: how many there may be, how long a name, how large a literal, that a literal has no leading zero, and one of fixed
// three digits behind its point.
ghost use Rattle.std.specs.Prelude.{◌≡◌, ◌+◌, ◌-◌, ◌≤◌, length};
ghost use Rattle.base.specs.Codes.{literal_most};
ghost use Rattle.lexer.specs.Bytes.{b_zero, is_digit_lem};
ghost use Rattle.lexer.specs.Kinds.{k_fixed_literal};
ghost use Rattle.lexer.specs.Tokens.{decimal, starts_with_zero_lem, whole_digits, thousandths_of_lem};
ghost use Rattle.lexer.specs.promises.Verdicts.{literal_of, on_literal, verdict_of};

use super::kinds;
use base::refusal::Reason;

const TOKENS_MOST: usize = 2048;

const NAME_MOST: usize = 255;

const LITERAL_MOST: u64 = 2147483647;

// The point of a literal of fixed and the three digits behind it.
const FRACTION: usize = 4;

// What stands beside a token in its row: the number of a name, which is looked up, or another number.
#[derive(Clone, Copy)]
pub enum Entry {
    Name,
    Plain(u32),
}

// The value of a digit.
fn digit(b: u8) -> u64
    ensures { result ≡ b - b_zero }
{
    if b < b'0' { 0 } else { (b - b'0') as u64 }
}

// The value of a run of digits, after those that make `before`, where it is at most 2147483647. The sum stops as soon as it is larger, since
// more digits only add to it.
fn value_of(before: u32, text: &[u8]) -> Option<u32>
    requires { before ≤ literal_most }
    ensures { result ≡ literal_of (decimal before text.now) }
{
    let mut high: u64 = before as u64;
    for &b in text {
        high = high * 10 + digit(b);
        if LITERAL_MOST < high {
            return None;
        }
    }
    Some(high as u32)
}

// Whether a run of digits has a leading zero: a lone 0 has none.
fn starts_with_zero(text: &[u8]) -> bool
    ensures { result ≡ starts_with_zero_lem text.now }
{
    if text.len() < 2 {
        return false;
    }
    text[0] == b'0'
}

// Whether a byte is a digit.
fn is_digit(b: u8) -> bool
    ensures { result ≡ is_digit_lem b }
{
    b'0' <= b && b <= b'9'
}

// Where the digits end that a text begins with: at the point of a literal of fixed.
fn whole_end(text: &[u8]) -> usize
    ensures { result ≡ length (whole_digits text.now) }
{
    for i in 0..text.len() {
        if !is_digit(text[i]) {
            return i;
        }
    }
    text.len()
}

// The thousandths that a literal of fixed counts: its digits, but for the point.
fn thousandths_of(text: &[u8], point: usize) -> Option<u32>
    requires { (point ≡ length (whole_digits text.now)) × (point + 1 ≤ length text.now) }
    ensures { result ≡ literal_of (thousandths_of_lem text.now) }
{
    let whole = value_of(0, &text[0..point])?;
    let behind = point + 1;
    value_of(whole, &text[behind..])
}

// The entry of a literal by its value, or of one of fixed by its thousandths.
fn literal(value: Option<u32>) -> Result<Entry, Reason>
    ensures { result ≡ on_literal value }
{
    match value {
        Some(number) => Ok(Entry::Plain(number)),
        None => Err(Reason::LiteralTooLarge),
    }
}

// The entry of a literal of fixed, where there are not too many tokens.
fn judge_fixed(text: &[u8]) -> Result<Entry, Reason>
    ensures { result ≡ verdict_of 0 k_fixed_literal text.now }
{
    let point = whole_end(text);
    if starts_with_zero(&text[0..point]) {
        return Err(Reason::LeadingZero);
    }
    if text.len() - point != FRACTION {
        return Err(Reason::NotThreeDigits);
    }
    literal(thousandths_of(text, point))
}

// The entry of a token, where `count` tokens stand before it.
pub fn judge(text: &[u8], count: usize, kind: u32) -> Result<Entry, Reason>
    ensures { result ≡ verdict_of count kind text.now }
{
    if count == TOKENS_MOST {
        return Err(Reason::TooManyTokens);
    }
    if kinds::is_name(kind) {
        if NAME_MOST < text.len() {
            return Err(Reason::NameTooLong);
        }
        return Ok(Entry::Name);
    }
    if kind == kinds::LITERAL {
        if starts_with_zero(text) {
            return Err(Reason::LeadingZero);
        }
        return literal(value_of(0, text));
    }
    if kind == kinds::FIXED_LITERAL {
        return judge_fixed(text);
    }
    Ok(Entry::Plain(0))
}
