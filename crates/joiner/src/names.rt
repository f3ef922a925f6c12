// Names by the position where they begin in their bytes: those of the lesson's classes, and whether a name of the library is one of them.
ghost use Rattle.std.specs.Prelude.{◌≡◌, ◌+◌, ◌≤◌, ◌<◌, length};
ghost use Rattle.lexer.specs.ByteKinds.{RightTable};
ghost use Rattle.base.specs.Codes.{table_least};
ghost use Rattle.base.specs.Word.{modulus};
ghost use Rattle.base.specs.promises.Table.{rows};
ghost use Rattle.base.specs.promises.Table as Table;
ghost use Rattle.joiner.specs.promises.Names.{part_at, same_within_lem, taken_within_lem, name_room, farthest, classes_most, NamesKept};

use lexer::bytes::{byte_kinds, is_name_part};
use parser::columns;

// A source has at most so many classes, with main's: a class has four tokens or more.
pub const CLASSES_MOST: usize = 512;

// A name has at most 255 bytes.
const NAME_ROOM: usize = 256;

// The token that is main's name.
const MAIN_NAME: usize = 1;

// The byte at a position, where a name may have it; else 0.
#[tactic(auto, unfolding(crate::specs::promises::Names::part_at))]
fn part_at(bytes: &[u8], kinds: &[u8; 256], at: usize) -> u8
    requires { RightTable kinds.now }
    ensures { result ≡ part_at bytes.now at }
{
    if at < bytes.len() && is_name_part(kinds, bytes[at]) {
        return bytes[at];
    }
    0
}

// Whether the names that begin at two positions are the same.
fn same(a: &[u8], i: usize, b: &[u8], j: usize, kinds: &[u8; 256]) -> bool
    requires { RightTable kinds.now × (i + name_room ≤ farthest) × (j + name_room ≤ farthest) }
    ensures { result ≡ same_within_lem a.now i b.now j name_room }
{
    for k in 0..NAME_ROOM {
        let x = part_at(a, kinds, i + k);
        let y = part_at(b, kinds, j + k);
        if x != y {
            return false;
        }
        if x == 0 {
            return true;
        }
    }
    false
}

// Whether the name at a position of the library is one of those of the lesson that are listed.
pub fn taken(lesson: &[u8], names: &[u32], library: &[u8], at: usize) -> bool
    requires { at < modulus }
    ensures { result ≡ taken_within_lem lesson.now names.now 0 (length names.now) library.now at }
{
    let kinds = byte_kinds();
    for own in names {
        if same(lesson, *own as usize, library, at, &kinds) {
            return true;
        }
    }
    false
}

// Column k of a row.
#[tactic(auto, unfolding(base::specs::promises::Table::col))]
pub fn word(table: &[u32], k: usize, row: usize) -> usize
    requires { (table_least ≤ length table.now) × (k < 8) × (row < rows) }
    ensures { (result ≡ Table.col table.now k row) × (result < modulus) }
{
    table[columns::ROWS * k + row] as usize
}

// Lists the positions of the names of the classes of the lesson in the table, main's first. The answer is how many there are.
pub fn keep(table: &[u32], names: &mut [u32]) -> usize
    requires { (table_least ≤ length table.now) × (classes_most ≤ length names.old) }
    ensures { NamesKept table.now result names.new }
{
    names[0] = word(table, columns::START, MAIN_NAME) as u32;
    let mut row = word(table, columns::NEXT, columns::CLASS_LIST);
    let mut count = 1;
    // A chain of links, and no count of an index.
    while count < CLASSES_MOST && row < columns::ABSENT {
        names[count] = word(table, columns::START, row) as u32;
        row = word(table, columns::NEXT, row);
        count += 1;
    }
    count
}
