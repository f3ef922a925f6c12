// The index of the classes: column 7 of the row that is the number of a name leads to the class of that name.
ghost use Rattle.std.specs.Prelude.{◌≡◌, ◌≤◌, ◌<◌, length};
ghost use Rattle.base.specs.promises.Table.{rows};
ghost use Rattle.base.specs.Codes.{table_least};
ghost use Rattle.reader.specs.promises.WalkPost.{Walkable};
ghost use Rattle.declarations.specs.promises.Indexing.{wiped, cleared, indexed, EntriesMade, IndexMade};

use base::refusal::{Reason, Refusal};
use lexer::kinds::IF;
use lookup::rows::word;
use parser::columns;
use parser::columns::ABSENT;

// Clears column 7 of a row, but not where the token is an `if`: a part stands there.
fn wipe(table: &mut [u32], row: usize)
    requires { (table_least ≤ length table.old) × (row < rows) }
    ensures { table.new ≡ wiped table.old row }
{
    if table[row] != IF {
        table[14336 + row] = 2048;
    }
}

// Clears column 7 of the first n rows.
fn clear(table: &mut [u32], n: usize)
    requires { Walkable table.old n }
    ensures { table.new ≡ cleared n table.old }
{
    for i in 0..n {
        wipe(table, i);
    }
}

// Writes column 7 of a row.
fn enter(table: &mut [u32], row: usize, class: usize)
    requires { (table_least ≤ length table.old) × (class ≤ rows) }
    ensures { table.new ≡ indexed table.old row class }
{
    if row < ABSENT {
        table[14336 + row] = class as u32;
    }
}

// Enters the classes from a row on, whose names are new: 20.
fn entries(table: &mut [u32], main: usize, left: usize, row: usize) -> Result<(), Refusal>
    requires { table_least ≤ length table.old }
    ensures { EntriesMade main left row table.old result table.new }
{
    if ABSENT <= row {
        return Ok(());
    }
    if left == 0 {
        return Err(Refusal {
            reason: Reason::Broken,
            position: 0,
        });
    }
    let x = word(table, columns::NUMBER, row);
    if x == main {
        return Err(Refusal {
            reason: Reason::ClassRepeated,
            position: word(table, columns::START, row),
        });
    }
    if word(table, columns::CLASS, x) < ABSENT {
        return Err(Refusal {
            reason: Reason::ClassRepeated,
            position: word(table, columns::START, row),
        });
    }
    enter(table, x, row);
    entries(table, main, left - 1, word(table, columns::NEXT, row))
}

// Makes the index. The main class's name stands in row 1; it is none of the table's classes.
pub fn index(table: &mut [u32], n: usize) -> Result<(), Refusal>
    requires { Walkable table.old n }
    ensures { IndexMade n table.old result table.new }
{
    clear(table, n);
    let main = word(table, columns::NUMBER, 1);
    let first = word(table, columns::NEXT, columns::CLASS_LIST);
    entries(table, main, n, first)
}
