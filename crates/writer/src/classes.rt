// Classes: the methods of each, one class after another. While those of a class are written, `names` holds what its fields mean to them.
ghost use Rattle.std.specs.Prelude.{◌≤◌, length};
ghost use Rattle.base.specs.promises.Table.{rows};
ghost use Rattle.reader.specs.promises.WalkPost.{Walkable};
ghost use Rattle.writer.specs.promises.Classes.{ClassPost, ClassesPost};
ghost use Rattle.writer.specs.promises.Posts.{room};
ghost use Rattle.writer.specs.promises.Sizing.{names_least};

use crate::job::{Job, part};
use crate::method::methods;
use bodies::scope::Scope;
use lookup::fields::fill;
use lookup::rows::word;
use parser::columns;
use parser::columns::ABSENT;

// The class in a row, of which at most as many methods may come as there are tokens.
fn of_class(
    table: &[u32],
    names: &mut [u32],
    code: &mut [u32],
    entries: &mut [u32],
    mut s: Scope,
    mut p: Job,
) -> usize
    requires { Walkable table.now s.tokens × (names_least ≤ length names.old) × (rows ≤ length entries.old)
        × (s.classes ≤ rows) × (p.at ≤ room) }
    ensures { ClassPost table.now s.tokens s.classes p.row p.at names.old names.new
        code.old code.new entries.old entries.new result }
{
    p.left = s.tokens;
    let first = part(table, columns::METHODS, p, p.at);
    if ABSENT <= first.row {
        return p.at;
    }
    s.owner = word(table, columns::NUMBER, p.row);
    fill(table, names, s.tokens, s.classes, s.owner);
    methods(table, names, code, entries, s, first)
}

// The classes from a row on.
pub fn each(
    table: &[u32],
    names: &mut [u32],
    code: &mut [u32],
    entries: &mut [u32],
    s: Scope,
    mut p: Job,
)
    requires { Walkable table.now s.tokens × (names_least ≤ length names.old) × (rows ≤ length entries.old)
        × (s.classes ≤ rows) × (p.at ≤ room) }
    ensures { ClassesPost table.now s.tokens s.classes p names.old code.old
        code.new entries.old entries.new }
{
    if p.left == 0 {
        return;
    }
    if ABSENT <= p.row {
        return;
    }
    let a = of_class(table, names, code, entries, s, p);
    p.left -= 1;
    let rest = part(table, columns::NEXT, p, a);
    each(table, names, code, entries, s, rest);
}
