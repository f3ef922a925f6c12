// Statements. The answer is the place behind the code.
ghost use Rattle.std.specs.Prelude.{◌≤◌};
ghost use Rattle.parser.specs.Tree.{Sort};
ghost use Rattle.lookup.specs.promises.Shows.{Form};
ghost use Rattle.writer.specs.promises.Posts.{room, Writable, WritePost, form_tested, StatementPost, BranchesPost, OtherwisePost};
ghost use Rattle.writer.specs.promises.Posts.{BodyPost};

use crate::code::{next, put};
use crate::expr::{expression, followed, loaded, located, located_pair, mark};
use crate::job::Job;
use crate::scope::slot;
use crate::view::View;
use codegen::numbers;
use lexer::kinds;
use parser::columns;
use parser::columns::ABSENT;

// The value, and its store.
fn assigned(v: &View, code: &mut [u32], p: Job) -> usize
    requires { Writable v.now.table.now v.now.names.now v.now.scope p }
    ensures { StatementPost v.now.table.now v.now.names.now v.now.scope Form.an_assignment p code.old code.new result }
{
    let place = slot(v, v.word(columns::NUMBER, p.row));
    let first = v.part(columns::FIRST, p, p.at);
    followed(v, code, numbers::SAVE, place, first)
}

// The array, the index, the value, and the store.
fn element(v: &View, code: &mut [u32], mut p: Job) -> usize
    requires { Writable v.now.table.now v.now.names.now v.now.scope p }
    ensures { StatementPost v.now.table.now v.now.names.now v.now.scope Form.an_element_store p code.old code.new result }
{
    let i = loaded(v, code, p);
    p.at = i;
    located_pair(v, code, numbers::STORE_ELEMENT, p)
}

// A statement.
#[cycle(body_branches_list_otherwise_single_tested)]
pub fn single(v: &View, code: &mut [u32], mut p: Job) -> usize
    requires { Writable v.now.table.now v.now.names.now v.now.scope p }
    ensures { WritePost v.now.table.now v.now.names.now v.now.scope Sort.statement p code.old code.new result }
{
    if p.left == 0 {
        return p.at;
    }
    let k = v.kind(p.row);
    p.left -= 1;
    p.at = mark(v, code, p.row, p.at);
    if k == kinds::OPEN_BRACE {
        let first = v.part(columns::FIRST, p, p.at);
        return list(v, code, first);
    }
    if k == kinds::IF {
        return tested(v, code, k, p);
    }
    if k == kinds::WHILE {
        return tested(v, code, k, p);
    }
    if k == kinds::SYSTEM {
        return located(v, code, numbers::PRINT, p);
    }
    if k == kinds::PORT {
        return located_pair(v, code, numbers::WRITE_REGISTER, p);
    }
    if v.kind(p.row + 1) == kinds::OPEN_BRACKET {
        return element(v, code, p);
    }
    assigned(v, code, p)
}

// The test, then what it decides: of `if`, whose kind is k, the branches, and else the body of `while`.
#[cycle(body_branches_list_otherwise_single_tested)]
fn tested(v: &View, code: &mut [u32], k: u32, p: Job) -> usize
    requires { Writable v.now.table.now v.now.names.now v.now.scope p }
    ensures { StatementPost v.now.table.now v.now.names.now v.now.scope (form_tested k) p code.old code.new result }
{
    let first = v.part(columns::FIRST, p, p.at);
    let a = expression(v, code, first);
    if k == kinds::IF {
        return branches(v, code, p, a);
    }
    body(v, code, p, a)
}

// From the place behind the test on the first branch, behind a jump over it, and the second.
#[cycle(body_branches_list_otherwise_single_tested)]
fn branches(v: &View, code: &mut [u32], p: Job, at: usize) -> usize
    requires { Writable v.now.table.now v.now.names.now v.now.scope p × (at ≤ room) }
    ensures { BranchesPost v.now.table.now v.now.names.now v.now.scope p at code.old code.new result }
{
    let second = v.part(columns::SECOND, p, next(at));
    let b = single(v, code, second);
    let r = otherwise(v, code, p, b);
    put(code, at, numbers::UNLESS, next(b), 0, 0);
    r
}

// From the place behind the first branch on the second, behind a jump over it.
#[cycle(body_branches_list_otherwise_single_tested)]
fn otherwise(v: &View, code: &mut [u32], p: Job, at: usize) -> usize
    requires { Writable v.now.table.now v.now.names.now v.now.scope p × (at ≤ room) }
    ensures { OtherwisePost v.now.table.now v.now.names.now v.now.scope p at code.old code.new result }
{
    let third = v.part(columns::THIRD, p, next(at));
    let r = single(v, code, third);
    put(code, at, numbers::JUMP, r, 0, 0);
    r
}

// From the place behind the test on the body of a `while`, behind a jump over it, and the jump back to the test.
#[cycle(body_branches_list_otherwise_single_tested)]
fn body(v: &View, code: &mut [u32], p: Job, at: usize) -> usize
    requires { Writable v.now.table.now v.now.names.now v.now.scope p × (at ≤ room) }
    ensures { BodyPost v.now.table.now v.now.names.now v.now.scope p at code.old code.new result }
{
    let second = v.part(columns::SECOND, p, next(at));
    let b = single(v, code, second);
    let r = put(code, b, numbers::JUMP, p.at, 0, 0);
    put(code, at, numbers::UNLESS, r, 0, 0);
    r
}

// The statements from a row on.
#[cycle(body_branches_list_otherwise_single_tested)]
pub fn list(v: &View, code: &mut [u32], mut p: Job) -> usize
    requires { Writable v.now.table.now v.now.names.now v.now.scope p }
    ensures { WritePost v.now.table.now v.now.names.now v.now.scope Sort.statements p code.old code.new result }
{
    if p.left == 0 {
        return p.at;
    }
    if ABSENT <= p.row {
        return p.at;
    }
    let a = single(v, code, p);
    p.left -= 1;
    let rest = v.part(columns::NEXT, p, a);
    list(v, code, rest)
}
