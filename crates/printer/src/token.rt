// The tokens of a lesson as they stand in its source, and what stands after them.
ghost use Rattle.std.specs.Prelude.{◌≤◌, ◌≡◌, length};
ghost use Rattle.base.specs.Codes.{table_least};
ghost use Rattle.lexer.specs.ByteKinds.{RightTable};
ghost use Rattle.printing.specs.Printed.{separator};
ghost use Rattle.printer.specs.promises.Puts.{text_room, TokenPut};

use crate::strip::spell;
use lexer::kinds;
use lexer::scan::{Piece, piece_at};
use lookup::rows::word;
use parser::columns;

// What stands after a token of a kind: a line feed after `;`, `{` and `}`, a space after every other.
#[tactic(auto, unfolding(printing::specs::Printed::separator))]
pub fn after(kind: u32) -> u8
    ensures { result ≡ separator kind }
{
    match kind {
        kinds::SEMICOLON | kinds::OPEN_BRACE | kinds::CLOSE_BRACE => b'\n',
        _ => b' ',
    }
}

// The token in a row, and what stands after it.
pub fn token(
    source: &[u8],
    bytes: &[u8; 256],
    table: &[u32],
    strip: &mut [u8],
    row: usize,
    at: usize,
) -> usize
    requires { RightTable bytes.now × (table_least ≤ length table.now) × (at ≤ text_room) }
    ensures { TokenPut source.now table.now row at strip.old strip.new result }
{
    let start = word(table, columns::START, row);
    if start < source.len() {
        match piece_at(source, bytes, start) {
            Piece::Token(kind, end) => {
                return spell(strip, at, &source[start..end], after(kind));
            }
            Piece::Gap(_) | Piece::Unclosed | Piece::Nothing => {
                return at;
            }
        }
    }
    at
}
