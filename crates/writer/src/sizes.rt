// How many fields the objects of each class hold, in the words from SIZES on of an array, by the number of the class's name.
ghost use Rattle.std.specs.Prelude.{◌≤◌, length};
ghost use Rattle.base.specs.promises.Table.{rows};
ghost use Rattle.reader.specs.promises.WalkPost.{Walkable};
ghost use Rattle.writer.specs.promises.Sizing.{SizePost, SizesPost, names_least};

use lookup::fields::object_size;
use lookup::rows::word;
use parser::columns;
use parser::columns::ABSENT;

// Where the numbers of fields begin, behind the words of the fields.
pub const SIZES: usize = 4096;

// Those of the class whose name has the number x.
fn size(table: &[u32], names: &mut [u32], n: usize, classes: usize, x: usize)
    requires { Walkable table.now n × (names_least ≤ length names.old) × (classes ≤ rows) }
    ensures { SizePost table.now n classes x names.old names.new }
{
    if x < ABSENT {
        names[SIZES + x] = object_size(table, n, classes, x) as u32;
    }
}

// Those of the classes from a row on, of which at most `left` may come.
pub fn sizes(table: &[u32], names: &mut [u32], n: usize, classes: usize, left: usize, row: usize)
    requires { Walkable table.now n × (names_least ≤ length names.old) × (classes ≤ rows) }
    ensures { SizesPost table.now n classes left row names.old names.new }
{
    if left == 0 {
        return;
    }
    if ABSENT <= row {
        return;
    }
    size(table, names, n, classes, word(table, columns::NUMBER, row));
    let rest = word(table, columns::NEXT, row);
    sizes(table, names, n, classes, left - 1, rest);
}
