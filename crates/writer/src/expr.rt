// Expressions. The answer is the place behind the code.
ghost use Rattle.std.specs.Prelude.{◌≤◌, ◌<◌, length};
ghost use Rattle.base.specs.Word.{modulus};
ghost use Rattle.base.specs.Codes.{table_least};
ghost use Rattle.base.specs.promises.Table.{c_begin};
ghost use Rattle.parser.specs.Tree.{Sort};
ghost use Rattle.lookup.specs.promises.HeldClasses.{word_at};
ghost use Rattle.lookup.specs.promises.Shows.{Form, form_atom};
ghost use Rattle.bodies.specs.promises.Scoping.{Judgeable};
ghost use Rattle.codegen.specs.promises.Code.{i_mark};
ghost use Rattle.writer.specs.promises.Posts.{room, Writable, PutPost, LoadPost, WritePost, ExpressionPost, CompoundPost};
ghost use Rattle.writer.specs.promises.Posts.{FollowedPost, LocatedPost, PairPost, ConjunctionPost, ScalesPost};

use crate::code::{next, put};
use crate::job::Job;
use crate::scope::slot;
use crate::sizes::SIZES;
use crate::view::View;
use bodies::range::onward;
use codegen::numbers;
use lexer::kinds;
use lookup::member::count;
use lookup::types::FIXED;
use parser::columns;
use parser::columns::ABSENT;
use parser::kinds::is_atom;

// The mark before a node: the position where it begins.
pub fn mark(v: &View, code: &mut [u32], row: usize, at: usize) -> usize
    requires { (table_least ≤ length v.now.table.now) × (at ≤ room) }
    ensures { PutPost at i_mark (word_at v.now.table.now c_begin row) 0 0 code.old code.new result }
{
    let start = v.word(columns::BEGIN, row);
    put(code, at, numbers::MARK, start, 0, 0)
}

// The value of the variable whose name stands in a row.
pub fn loaded(v: &View, code: &mut [u32], p: Job) -> usize
    requires { Writable v.now.table.now v.now.names.now v.now.scope p }
    ensures { LoadPost v.now.table.now v.now.names.now v.now.scope p code.old code.new result }
{
    let place = slot(v, v.word(columns::NUMBER, p.row));
    put(code, p.at, numbers::LOAD, place, 0, 0)
}

// An expression of one token, of kind k.
fn atom(v: &View, code: &mut [u32], k: u32, p: Job) -> usize
    requires { Writable v.now.table.now v.now.names.now v.now.scope p }
    ensures { ExpressionPost v.now.table.now v.now.names.now v.now.scope (form_atom k) p code.old code.new result }
{
    if k == kinds::LITERAL {
        let value = v.word(columns::NUMBER, p.row);
        return put(code, p.at, numbers::PUSH, value, 0, 0);
    }
    if k == kinds::FIXED_LITERAL {
        let value = v.word(columns::NUMBER, p.row);
        return put(code, p.at, numbers::PUSH, value, 0, 0);
    }
    if k == kinds::TRUE {
        return put(code, p.at, numbers::PUSH, 1, 0, 0);
    }
    if k == kinds::FALSE {
        return put(code, p.at, numbers::PUSH, 0, 0, 0);
    }
    if k == kinds::THIS {
        return put(code, p.at, numbers::SELF, 0, 0, 0);
    }
    loaded(v, code, p)
}

// `new C()`: the number of the class's name, and how many fields it has.
fn creation(v: &View, code: &mut [u32], p: Job) -> usize
    requires { Writable v.now.table.now v.now.names.now v.now.scope p }
    ensures { ExpressionPost v.now.table.now v.now.names.now v.now.scope Form.a_new_object p code.old code.new result }
{
    let x = v.word(columns::NUMBER, p.row + 1);
    let start = v.word(columns::BEGIN, p.row);
    if x < ABSENT {
        let size = v.names[SIZES + x] as usize;
        return put(code, p.at, numbers::MAKE_OBJECT, start, x, size);
    }
    p.at
}

// Whether an operator of kind k is the `*` of thousandths: the type of its left operand, which stands in a row, tells.
fn scales(v: &View, k: u32, row: usize) -> bool
    requires { Judgeable v.now.table.now v.now.names.now v.now.scope }
    ensures { ScalesPost v.now.table.now v.now.scope k row result }
{
    if k == kinds::TIMES {
        let e = bodies::expr::expression(v.table, v.names, v.scope, onward(v.scope, 0), row);
        match e {
            Ok(t) => {
                return t == FIXED;
            }
            Err(_) => {
                return false;
            }
        }
    }
    false
}

// An expression.
#[cycle(arguments_binary_call_compound_conjunction_expression_followed_located_located_pair_pair)]
pub fn expression(v: &View, code: &mut [u32], mut p: Job) -> usize
    requires { Writable v.now.table.now v.now.names.now v.now.scope p }
    ensures { WritePost v.now.table.now v.now.names.now v.now.scope Sort.expression p code.old code.new result }
{
    if p.left == 0 {
        return p.at;
    }
    let k = v.kind(p.row);
    p.left -= 1;
    p.at = mark(v, code, p.row, p.at);
    if is_atom(k) {
        return atom(v, code, k, p);
    }
    compound(v, code, k, p)
}

// An expression of more than one token, of which this one is of kind k.
#[cycle(arguments_binary_call_compound_conjunction_expression_followed_located_located_pair_pair)]
fn compound(v: &View, code: &mut [u32], k: u32, p: Job) -> usize
    requires { Writable v.now.table.now v.now.names.now v.now.scope p }
    ensures { CompoundPost v.now.table.now v.now.names.now v.now.scope k p code.old code.new result }
{
    if k == kinds::NEW {
        if v.kind(p.row + 2) == kinds::OPEN_BRACKET {
            return located(v, code, numbers::MAKE_ARRAY, p);
        }
        return creation(v, code, p);
    }
    if k == kinds::DOT {
        if v.kind(p.row + 1) == kinds::LENGTH {
            return located(v, code, numbers::MEASURE, p);
        }
        return call(v, code, p);
    }
    if k == kinds::NOT {
        let first = v.part(columns::FIRST, p, p.at);
        return followed(v, code, numbers::NEGATE, 0, first);
    }
    if k == kinds::PORT {
        return located(v, code, numbers::READ_REGISTER, p);
    }
    if k == kinds::OPEN_BRACKET {
        return located_pair(v, code, numbers::FETCH, p);
    }
    binary(v, code, p)
}

// Both values and the operator; of `&&` the right value only where it is needed.
#[cycle(arguments_binary_call_compound_conjunction_expression_followed_located_located_pair_pair)]
fn binary(v: &View, code: &mut [u32], p: Job) -> usize
    requires { Writable v.now.table.now v.now.names.now v.now.scope p }
    ensures { ExpressionPost v.now.table.now v.now.names.now v.now.scope Form.a_binary p code.old code.new result }
{
    let k = v.kind(p.row);
    if k == kinds::AND {
        return conjunction(v, code, p);
    }
    let first = v.word(columns::FIRST, p.row);
    if scales(v, k, first) {
        return pair(v, code, numbers::SCALE, 0, p);
    }
    pair(v, code, numbers::OPERATE, k as usize, p)
}

// An expression, and an instruction behind it.
#[cycle(arguments_binary_call_compound_conjunction_expression_followed_located_located_pair_pair)]
pub fn followed(v: &View, code: &mut [u32], op: usize, arg: usize, p: Job) -> usize
    requires { Writable v.now.table.now v.now.names.now v.now.scope p × (op < modulus) × (arg < modulus) }
    ensures { FollowedPost v.now.table.now v.now.names.now v.now.scope op arg p code.old code.new result }
{
    let a = expression(v, code, p);
    put(code, a, op, arg, 0, 0)
}

// A node's first part, and an instruction that has the position where the node begins.
#[cycle(arguments_binary_call_compound_conjunction_expression_followed_located_located_pair_pair)]
pub fn located(v: &View, code: &mut [u32], op: usize, p: Job) -> usize
    requires { Writable v.now.table.now v.now.names.now v.now.scope p × (op < modulus) }
    ensures { LocatedPost v.now.table.now v.now.names.now v.now.scope op p code.old code.new result }
{
    let start = v.word(columns::BEGIN, p.row);
    let first = v.part(columns::FIRST, p, p.at);
    followed(v, code, op, start, first)
}

// A node's first part, and the second, followed by an instruction.
#[cycle(arguments_binary_call_compound_conjunction_expression_followed_located_located_pair_pair)]
fn pair(v: &View, code: &mut [u32], op: usize, arg: usize, p: Job) -> usize
    requires { Writable v.now.table.now v.now.names.now v.now.scope p × (op < modulus) × (arg < modulus) }
    ensures { PairPost v.now.table.now v.now.names.now v.now.scope op arg p code.old code.new result }
{
    let first = v.part(columns::FIRST, p, p.at);
    let a = expression(v, code, first);
    let second = v.part(columns::SECOND, p, a);
    followed(v, code, op, arg, second)
}

// A node's two parts, and an instruction that has the position where the node begins.
#[cycle(arguments_binary_call_compound_conjunction_expression_followed_located_located_pair_pair)]
pub fn located_pair(v: &View, code: &mut [u32], op: usize, p: Job) -> usize
    requires { Writable v.now.table.now v.now.names.now v.now.scope p × (op < modulus) }
    ensures { PairPost v.now.table.now v.now.names.now v.now.scope op (word_at v.now.table.now c_begin p.row) p code.old
        code.new result }
{
    let start = v.word(columns::BEGIN, p.row);
    pair(v, code, op, start, p)
}

// The left value, the right one, and before it the jump over it.
#[cycle(arguments_binary_call_compound_conjunction_expression_followed_located_located_pair_pair)]
fn conjunction(v: &View, code: &mut [u32], p: Job) -> usize
    requires { Writable v.now.table.now v.now.names.now v.now.scope p }
    ensures { ConjunctionPost v.now.table.now v.now.names.now v.now.scope p code.old code.new result }
{
    let first = v.part(columns::FIRST, p, p.at);
    let a = expression(v, code, first);
    let second = v.part(columns::SECOND, p, next(a));
    let b = expression(v, code, second);
    put(code, a, numbers::KEEP, b, 0, 0);
    b
}

// The receiver, the arguments, and the call.
#[cycle(arguments_binary_call_compound_conjunction_expression_followed_located_located_pair_pair)]
fn call(v: &View, code: &mut [u32], p: Job) -> usize
    requires { Writable v.now.table.now v.now.names.now v.now.scope p }
    ensures { ExpressionPost v.now.table.now v.now.names.now v.now.scope Form.a_call_shown p code.old code.new result }
{
    let start = v.word(columns::BEGIN, p.row);
    let method = v.word(columns::NUMBER, p.row + 1);
    let first = v.part(columns::FIRST, p, p.at);
    let a = expression(v, code, first);
    let given = v.part(columns::SECOND, p, a);
    let many = count(v.table, given.left, given.row);
    let b = arguments(v, code, given);
    put(code, b, numbers::CALL, start, method, many)
}

// The arguments from a row on.
#[cycle(arguments_binary_call_compound_conjunction_expression_followed_located_located_pair_pair)]
fn arguments(v: &View, code: &mut [u32], mut p: Job) -> usize
    requires { Writable v.now.table.now v.now.names.now v.now.scope p }
    ensures { WritePost v.now.table.now v.now.names.now v.now.scope Sort.arguments p code.old code.new result }
{
    if p.left == 0 {
        return p.at;
    }
    if ABSENT <= p.row {
        return p.at;
    }
    let a = expression(v, code, p);
    p.left -= 1;
    let rest = v.part(columns::NEXT, p, a);
    arguments(v, code, rest)
}
