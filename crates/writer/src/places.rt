// Places of variables in their lists. `left` is how many may still come.
ghost use Rattle.std.specs.Prelude.{◌+◌, ◌≤◌, length};
ghost use Rattle.base.specs.promises.Table.{rows};
ghost use Rattle.base.specs.Codes.{table_least};
ghost use Rattle.writer.specs.promises.Places.{PlacePost};

use lookup::rows::word;
use parser::columns;
use parser::columns::ABSENT;

// Which variable of a list, counted on from `at`, is the first of a name; ABSENT where none is.
pub fn place(table: &[u32], left: usize, row: usize, x: usize, at: usize) -> usize
    requires { (table_least ≤ length table.now) × (at + left ≤ rows) }
    ensures { PlacePost table.now left row x at result }
{
    if left == 0 {
        return ABSENT;
    }
    if ABSENT <= row {
        return ABSENT;
    }
    if word(table, columns::NUMBER, row) == x {
        return at;
    }
    place(table, left - 1, word(table, columns::NEXT, row), x, at + 1)
}
