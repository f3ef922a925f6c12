// Methods: the body, the value, the return; and where each method's code begins, in an array by the row of its name.
ghost use Rattle.std.specs.Prelude.{◌≡◌, ◌≤◌, ◌<◌, length, set};
ghost use Rattle.base.specs.promises.Table.{rows};
ghost use Rattle.reader.specs.promises.WalkPost.{Walkable};
ghost use Rattle.lookup.specs.promises.Fields.{FieldsHeld};
ghost use Rattle.writer.specs.promises.Methods.{MethodPost, MethodsPost};
ghost use Rattle.writer.specs.promises.Posts.{room};
ghost use Rattle.writer.specs.promises.Sizing.{names_least};

use crate::code::put;
use crate::expr::expression;
use crate::job::{Job, part};
use crate::stmt::list;
use crate::view::View;
use bodies::scope::Scope;
use codegen::numbers;
use lookup::rows::word;
use parser::columns;
use parser::columns::ABSENT;

// The method whose name stands in a row, in the class whose number a scope has; its parts have at most as many nodes as there are tokens.
fn method(table: &[u32], names: &[u32], code: &mut [u32], mut s: Scope, mut p: Job) -> usize
    requires { Walkable table.now s.tokens × (names_least ≤ length names.now)
        × FieldsHeld table.now s.tokens s.classes s.owner names.now × (p.at ≤ room) × (p.row < rows) }
    ensures { MethodPost table.now names.now s.tokens s.classes s.owner p.row p.at
        code.old code.new result }
{
    s.parameters = word(table, columns::PARAMETERS, p.row);
    s.locals = word(table, columns::LOCALS, p.row);
    let v = View {
        table,
        names,
        scope: s,
    };
    p.left = s.tokens;
    p.row += 1;
    let body = v.part(columns::BODY, p, p.at);
    let a = list(&v, code, body);
    let value = v.part(columns::VALUE, p, a);
    let b = expression(&v, code, value);
    put(code, b, numbers::RETURN, 0, 0, 0)
}

// A method's code begins here.
fn enter(entries: &mut [u32], row: usize, at: usize)
    requires { (rows ≤ length entries.old) × (row < rows) × (at ≤ room) }
    ensures { entries.new ≡ set entries.old row at }
{
    entries[row] = at as u32;
}

// The methods of a class from a row on.
pub fn methods(
    table: &[u32],
    names: &[u32],
    code: &mut [u32],
    entries: &mut [u32],
    s: Scope,
    mut p: Job,
) -> usize
    requires { Walkable table.now s.tokens × (names_least ≤ length names.now)
        × FieldsHeld table.now s.tokens s.classes s.owner names.now × (rows ≤ length entries.old) × (p.at ≤ room) }
    ensures { MethodsPost table.now names.now s.tokens s.classes s.owner p code.old
        code.new entries.old entries.new result }
{
    if p.left == 0 {
        return p.at;
    }
    if ABSENT <= p.row {
        return p.at;
    }
    enter(entries, p.row, p.at);
    let a = method(table, names, code, s, p);
    p.left -= 1;
    let rest = part(table, columns::NEXT, p, a);
    methods(table, names, code, entries, s, rest)
}
