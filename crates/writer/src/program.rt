// A program: main's statement, the end, and the classes.
ghost use Rattle.std.specs.Prelude.{◌≤◌, length};
ghost use Rattle.base.specs.promises.Table.{rows};
ghost use Rattle.reader.specs.promises.WalkPost.{Walkable};
ghost use Rattle.lookup.specs.promises.Fields.{FieldsHeld};
ghost use Rattle.writer.specs.promises.Writing.{BeginPost, SeesNone, MainPost, Writes};
ghost use Rattle.writer.specs.promises.Sizing.{names_least};

use crate::classes::each;
use crate::code::put;
use crate::job::Job;
use crate::sizes::sizes;
use crate::stmt::single;
use crate::view::View;
use bodies::scope::Scope;
use codegen::numbers;
use lookup::fields::fill;
use lookup::rows::word;
use parser::columns;
use parser::columns::ABSENT;

// What main sees: no fields, and how many fields the objects of each class hold, where the classes begin in a row.
fn begin(table: &[u32], names: &mut [u32], n: usize, classes: usize, first: usize)
    requires { Walkable table.now n × (names_least ≤ length names.old) × (classes ≤ rows) }
    ensures { BeginPost table.now n classes first names.new }
{
    names.fill(0);
    sizes(table, names, n, classes, n, first);
    fill(table, names, n, classes, ABSENT);
}

// Main's statement, which stands in row 14 and sees no names, and the end.
fn main_code(table: &[u32], names: &[u32], code: &mut [u32], s: Scope) -> usize
    requires { Walkable table.now s.tokens × (names_least ≤ length names.now)
        × FieldsHeld table.now s.tokens s.classes s.owner names.now × SeesNone s }
    ensures { MainPost table.now names.now s.tokens s.classes code.old code.new result }
{
    let p = Job {
        left: s.tokens,
        row: columns::MAIN_STATEMENT,
        at: 0,
    };
    let v = View {
        table,
        names,
        scope: s,
    };
    let a = single(&v, code, p);
    put(code, a, numbers::HALT, 0, 0, 0)
}

// The code of an accepted program of n tokens, whose class table has this many classes, and where each method's code begins, by the row
// of its name.
pub fn write(
    table: &[u32],
    names: &mut [u32],
    code: &mut [u32],
    entries: &mut [u32],
    n: usize,
    classes: usize,
)
    requires { Walkable table.now n × (names_least ≤ length names.old) × (rows ≤ length entries.old) × (classes ≤ rows) }
    ensures { Writes table.now n classes code.old code.new entries.old
        entries.new }
{
    let first = word(table, columns::NEXT, columns::CLASS_LIST);
    begin(table, names, n, classes, first);
    let s = Scope {
        tokens: n,
        classes,
        owner: ABSENT,
        parameters: ABSENT,
        locals: ABSENT,
    };
    let at = main_code(table, names, code, s);
    let p = Job {
        left: n,
        row: first,
        at,
    };
    each(table, names, code, entries, s, p);
}
