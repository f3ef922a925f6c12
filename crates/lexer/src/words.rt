// The kinds of words and marks. A word is compared with the reserved words of its length, byte for byte.
ghost use Rattle.std.specs.Prelude.{◌≡◌, length};
ghost use Rattle.lexer.specs.promises.Words.{Listed};
ghost use Rattle.lexer.specs.Kinds.{word_kind_lem, mark_kind_lem};

use super::bytes::equal;
use super::kinds;

// The kind of a token of one byte, 0 where there is none.
pub fn mark_kind(b: u8) -> u32
    ensures { result ≡ mark_kind_lem b }
{
    match b {
        b'<' => kinds::LESS,
        b'+' => kinds::PLUS,
        b'-' => kinds::MINUS,
        b'*' => kinds::TIMES,
        b'!' => kinds::NOT,
        b'=' => kinds::ASSIGN,
        b'.' => kinds::DOT,
        b',' => kinds::COMMA,
        b';' => kinds::SEMICOLON,
        b'(' => kinds::OPEN,
        b')' => kinds::CLOSE,
        b'[' => kinds::OPEN_BRACKET,
        b']' => kinds::CLOSE_BRACKET,
        b'{' => kinds::OPEN_BRACE,
        b'}' => kinds::CLOSE_BRACE,
        _ => kinds::END,
    }
}

// The kind of a text, from the reserved words of its length, each with its kind.
fn kind_among<const N: usize>(words: &[([u8; N], u32)], text: &[u8]) -> u32
    requires { Listed (length text.now) words.now }
    ensures { result ≡ word_kind_lem text.now }
{
    for (word, kind) in words {
        if equal(word.as_slice(), text) {
            return *kind;
        }
    }
    kinds::NAME
}

// The words of each length, and their kinds.
const TWOS: [([u8; 2], u32); 1] = [(*b"if", kinds::IF)];

const THREES: [([u8; 3], u32); 5] = [
    (*b"int", kinds::INT),
    (*b"new", kinds::NEW),
    (*b"out", kinds::OUT),
    (*b"get", kinds::GET),
    (*b"put", kinds::PUT),
];

const FOURS: [([u8; 4], u32); 6] = [
    (*b"else", kinds::ELSE),
    (*b"main", kinds::MAIN),
    (*b"Port", kinds::PORT),
    (*b"this", kinds::THIS),
    (*b"true", kinds::TRUE),
    (*b"void", kinds::VOID),
];

const FIVES: [([u8; 5], u32); 4] = [
    (*b"class", kinds::CLASS),
    (*b"false", kinds::FALSE),
    (*b"fixed", kinds::FIXED),
    (*b"while", kinds::WHILE),
];

const SIXES: [([u8; 6], u32); 6] = [
    (*b"length", kinds::LENGTH),
    (*b"public", kinds::PUBLIC),
    (*b"return", kinds::RETURN),
    (*b"static", kinds::STATIC),
    (*b"String", kinds::STRING),
    (*b"System", kinds::SYSTEM),
];

const SEVENS: [([u8; 7], u32); 3] = [
    (*b"boolean", kinds::BOOLEAN),
    (*b"extends", kinds::EXTENDS),
    (*b"println", kinds::PRINTLN),
];

// The kind of an identifier or a reserved word.
pub fn word_kind(text: &[u8]) -> u32
    ensures { result ≡ word_kind_lem text.now }
{
    match text.len() {
        2 => kind_among(&TWOS, text),
        3 => kind_among(&THREES, text),
        4 => kind_among(&FOURS, text),
        5 => kind_among(&FIVES, text),
        6 => kind_among(&SIXES, text),
        7 => kind_among(&SEVENS, text),
        _ => kinds::NAME,
    }
}
