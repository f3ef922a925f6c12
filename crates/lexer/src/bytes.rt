// The kinds of bytes, by a table.
ghost use Rattle.std.specs.Prelude.{◌≡◌, get_or};
ghost use Rattle.base.specs.Bytes.{same};
ghost use Rattle.lexer.specs.Bytes.{is_name_part_lem};
ghost use Rattle.lexer.specs.ByteKinds.{byte_kind, RightTable};

// The kinds that the table has for bytes; any other is `.`, and M is a mark. Those from D on begin a token. Letters and no enum, so that the
// table below can be read.
pub const BLANK: u8 = b'B';

pub const DIGIT: u8 = b'D';

pub const LETTER: u8 = b'L';

// The kind of each byte: that of byte 16 * n + k stands at place k of line n. The rule (`byte_kind`):
//   L  letter: A to Z, a to z
//   D  digit: 0 to 9
//   B  blank: space, tab, line feed, carriage return, form feed (32, 9, 10, 13, 12)
//   M  mark: a byte that begins one of the tokens && < + - * ! = . , ; ( ) [ ] { }
//   .  other
// The bytes of lines 2 to 7, from 32, the space, to 126:
//   !"#$%&'()*+,-./
//  0123456789:;<=>?
//  @ABCDEFGHIJKLMNO
//  PQRSTUVWXYZ[\]^_
//  `abcdefghijklmno
//  pqrstuvwxyz{|}~
const KINDS: [u8; 256] = *b"\
    .........BB.BB..\
    ................\
    BM....M.MMMMMMM.\
    DDDDDDDDDD.MMM..\
    .LLLLLLLLLLLLLLL\
    LLLLLLLLLLLM.M..\
    .LLLLLLLLLLLLLLL\
    LLLLLLLLLLLM.M..\
    ................\
    ................\
    ................\
    ................\
    ................\
    ................\
    ................\
    ................\
";

// The table. It is taken once for a source and lent to what reads it: a constant is made anew wherever it is used.
pub fn byte_kinds() -> [u8; 256]
    ensures { RightTable result }
{
    KINDS
}

// The kind of a byte.
pub fn kind_of(table: &[u8; 256], b: u8) -> u8
    requires { RightTable table.now }
    ensures { result ≡ byte_kind b }
{
    table[b as usize]
}

// What may stand in a name: a letter or a digit by the table, or the underscore.
pub fn is_name_part(table: &[u8; 256], b: u8) -> bool
    requires { RightTable table.now }
    ensures { result ≡ is_name_part_lem b }
{
    let kind = kind_of(table, b);
    if kind == LETTER {
        return true;
    }
    if kind == DIGIT {
        return true;
    }
    b == b'_'
}

// The byte at a position, 0 past the end: no token has a byte 0, and no comment has one as its second byte.
pub fn byte_at(source: &[u8], at: usize) -> u8
    ensures { result ≡ get_or source.now at 0 }
{
    if at < source.len() { source[at] } else { 0 }
}

// Whether two byte strings are equal. Byte by byte: for strings as short as the reserved words std's `==` takes longer.
pub fn equal(a: &[u8], b: &[u8]) -> bool
    ensures { result ≡ same a.now b.now }
{
    if a.len() != b.len() {
        return false;
    }
    for i in 0..a.len() {
        if a[i] != b[i] {
            return false;
        }
    }
    true
}
