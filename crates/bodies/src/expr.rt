// Expressions are judged in a cycle: an expression, its parts, the arguments of a call. Each has the range of tokens in which it lies.
ghost use Rattle.std.specs.Prelude.{◌≡◌, ◌≤◌, ◌<◌, length};
ghost use Rattle.base.specs.Word.{modulus};
ghost use Rattle.base.specs.Codes.{table_least};
ghost use Rattle.parser.specs.promises.Post.{kind_in_table};
ghost use Rattle.reader.specs.promises.WalkPost.{Walkable};
ghost use Rattle.lookup.specs.promises.Shows.{a_binary, an_element, a_call_shown};
ghost use Rattle.bodies.specs.promises.Scoping.{Judgeable};
ghost use Rattle.bodies.specs.promises.ExpressionPost.{NamePost, ThisPost, AtomPost, NodePost, ExpressionPost, OperandPost};
ghost use Rattle.bodies.specs.promises.ExpressionPost.{CreationPost, DottedPost, ArrayPost, NewArrayPost, LengthPost};
ghost use Rattle.bodies.specs.promises.ExpressionPost.{InvocationPost, ArgumentsPost, ObjectPost, SameCount};

use crate::operators::operation;
use crate::range::{Range, before, behind};
use crate::scope::{Scope, name_type};
use base::refusal::{Reason, Refusal};
use lexer::kinds;
use lookup::chain::{find_method, fits};
use lookup::rows::word;
use lookup::types::{ARRAY, BOOLEAN, FIXED, INT, NOTHING, known, type_of};
use parser::columns;
use parser::columns::ABSENT;
use parser::kinds::is_atom;
use parser::table::kind;

// `this`, which main has not: 34.
fn receiver(table: &[u32], s: Scope, row: usize) -> Result<usize, Refusal>
    requires { table_least ≤ length table.now }
    ensures { ThisPost table.now s row result }
{
    if ABSENT <= s.owner {
        return Err(Refusal {
            reason: Reason::ThisInMain,
            position: word(table, columns::BEGIN, row),
        });
    }
    Ok(s.owner)
}

// A name: 30.
pub fn name(table: &[u32], fields: &[u32], s: Scope, row: usize) -> Result<usize, Refusal>
    requires { Judgeable table.now fields.now s }
    ensures { NamePost table.now s row result }
{
    let t = name_type(table, fields, s, word(table, columns::NUMBER, row));
    if t < NOTHING {
        return Ok(t);
    }
    Err(Refusal {
        reason: Reason::NameUnknown,
        position: word(table, columns::BEGIN, row),
    })
}

// An expression of one token, of kind k.
fn atom(table: &[u32], fields: &[u32], s: Scope, k: u32, row: usize) -> Result<usize, Refusal>
    requires { Judgeable table.now fields.now s }
    ensures { AtomPost table.now s k row result }
{
    match k {
        kinds::LITERAL => Ok(INT),
        kinds::FIXED_LITERAL => Ok(FIXED),
        kinds::TRUE => Ok(BOOLEAN),
        kinds::FALSE => Ok(BOOLEAN),
        kinds::THIS => receiver(table, s, row),
        _ => name(table, fields, s, row),
    }
}

// `new C()`: 24.
fn new_object(table: &[u32], n: usize, row: usize) -> Result<usize, Refusal>
    requires { Walkable table.now n × (row < modulus) }
    ensures { ObjectPost table.now n row result }
{
    let x = word(table, columns::NUMBER, row + 1);
    if known(table, n, x) {
        return Ok(x);
    }
    Err(Refusal {
        reason: Reason::TypeUnknown,
        position: word(table, columns::START, row + 1),
    })
}

// Whether a list of arguments is as long as a list of parameters.
fn same_count(table: &[u32], left: usize, a: usize, p: usize) -> bool
    requires { table_least ≤ length table.now }
    ensures { SameCount table.now left a p result }
{
    if ABSENT <= a {
        return ABSENT <= p;
    }
    if ABSENT <= p {
        return false;
    }
    if left == 0 {
        return false;
    }
    same_count(
        table,
        left - 1,
        word(table, columns::NEXT, a),
        word(table, columns::NEXT, p),
    )
}

// An expression.
#[cycle(arguments_array_binary_call_creation_dotted_element_expression_invocation_measured_new_array_operand)]
pub fn expression(
    table: &[u32],
    fields: &[u32],
    s: Scope,
    r: Range,
    row: usize,
) -> Result<usize, Refusal>
    requires { Judgeable table.now fields.now s × (r.end ≤ s.tokens) }
    ensures { ExpressionPost table.now s r.first r.end row result }
{
    if row < r.first {
        return Err(Refusal {
            reason: Reason::Broken,
            position: 0,
        });
    }
    if r.end <= row {
        return Err(Refusal {
            reason: Reason::Broken,
            position: 0,
        });
    }
    let k = kind(table, s.tokens, row);
    if is_atom(k) {
        return atom(table, fields, s, k, row);
    }
    if k == kinds::NEW {
        return creation(table, fields, s, r, row);
    }
    if k == kinds::DOT {
        return dotted(table, fields, s, r, row);
    }
    if k == kinds::NOT {
        let part = word(table, columns::FIRST, row);
        operand(table, fields, s, behind(r, row), part, BOOLEAN)?;
        return Ok(BOOLEAN);
    }
    if k == kinds::PORT {
        let part = word(table, columns::FIRST, row);
        operand(table, fields, s, behind(r, row), part, INT)?;
        return Ok(INT);
    }
    if k == kinds::OPEN_BRACKET {
        return element(table, fields, s, r, row);
    }
    binary(table, fields, s, r, row, k)
}

// An expression that must fit a type: 31.
#[cycle(arguments_array_binary_call_creation_dotted_element_expression_invocation_measured_new_array_operand)]
pub fn operand(
    table: &[u32],
    fields: &[u32],
    s: Scope,
    r: Range,
    row: usize,
    want: usize,
) -> Result<(), Refusal>
    requires { Judgeable table.now fields.now s × (r.end ≤ s.tokens) }
    ensures { OperandPost table.now s r.first r.end row want result }
{
    let t = expression(table, fields, s, r, row)?;
    if fits(table, s.tokens, s.classes, t, want) {
        return Ok(());
    }
    let position = word(table, columns::BEGIN, row);
    Err(Refusal {
        reason: Reason::WrongType,
        position,
    })
}

// A part that must be an array, 31; the answer is the type of what it holds.
#[cycle(arguments_array_binary_call_creation_dotted_element_expression_invocation_measured_new_array_operand)]
fn array(table: &[u32], fields: &[u32], s: Scope, r: Range, row: usize) -> Result<usize, Refusal>
    requires { Judgeable table.now fields.now s × (r.end ≤ s.tokens) }
    ensures { ArrayPost table.now s r.first r.end row result }
{
    let t = expression(table, fields, s, r, row)?;
    if t < ARRAY {
        return Err(Refusal {
            reason: Reason::WrongType,
            position: word(table, columns::BEGIN, row),
        });
    }
    Ok(t - ARRAY)
}

// `a[i]`.
#[cycle(arguments_array_binary_call_creation_dotted_element_expression_invocation_measured_new_array_operand)]
fn element(table: &[u32], fields: &[u32], s: Scope, r: Range, row: usize) -> Result<usize, Refusal>
    requires { Judgeable table.now fields.now s × (r.first ≤ row) × (row < r.end) × (r.end ≤ s.tokens) }
    ensures { NodePost table.now s an_element r.first r.end row result }
{
    let left = word(table, columns::FIRST, row);
    let t = array(table, fields, s, before(r, row), left)?;
    let right = word(table, columns::SECOND, row);
    operand(table, fields, s, behind(r, row), right, INT)?;
    Ok(t)
}

// An operation of kind k: the left part must have a type that the operator takes, the right part must fit that type: 31.
#[cycle(arguments_array_binary_call_creation_dotted_element_expression_invocation_measured_new_array_operand)]
fn binary(
    table: &[u32],
    fields: &[u32],
    s: Scope,
    r: Range,
    row: usize,
    k: u32,
) -> Result<usize, Refusal>
    requires judgeable { Judgeable table.now fields.now s × (r.first ≤ row) × (row < r.end) × (r.end ≤ s.tokens) }
    requires k_value { k ≡ kind_in_table table.now s.tokens row }
    ensures { NodePost table.now s a_binary r.first r.end row result }
{
    let left = word(table, columns::FIRST, row);
    let t = expression(table, fields, s, before(r, row), left)?;
    let answer = operation(k, t);
    if NOTHING <= answer {
        return Err(Refusal {
            reason: Reason::WrongType,
            position: word(table, columns::BEGIN, left),
        });
    }
    let right = word(table, columns::SECOND, row);
    operand(table, fields, s, behind(r, row), right, t)?;
    Ok(answer)
}

// `new T[e]`: 24 before e.
#[cycle(arguments_array_binary_call_creation_dotted_element_expression_invocation_measured_new_array_operand)]
fn new_array(
    table: &[u32],
    fields: &[u32],
    s: Scope,
    r: Range,
    row: usize,
) -> Result<usize, Refusal>
    requires { Judgeable table.now fields.now s × (r.first ≤ row) × (row < r.end) × (r.end ≤ s.tokens) }
    ensures { NewArrayPost table.now s r.end row result }
{
    let t = type_of(table, s.tokens, row + 1);
    if known(table, s.tokens, t) {
        let part = word(table, columns::FIRST, row);
        operand(table, fields, s, behind(r, row), part, INT)?;
        return Ok(t);
    }
    Err(Refusal {
        reason: Reason::TypeUnknown,
        position: word(table, columns::START, row + 1),
    })
}

// `new T[e]` or `new C()`.
#[cycle(arguments_array_binary_call_creation_dotted_element_expression_invocation_measured_new_array_operand)]
fn creation(table: &[u32], fields: &[u32], s: Scope, r: Range, row: usize) -> Result<usize, Refusal>
    requires { Judgeable table.now fields.now s × (r.first ≤ row) × (row < r.end) × (r.end ≤ s.tokens) }
    ensures { CreationPost table.now s r.first r.end row result }
{
    if kind(table, s.tokens, row + 2) == kinds::OPEN_BRACKET {
        return new_array(table, fields, s, r, row);
    }
    new_object(table, s.tokens, row)
}

// `e.length`.
#[cycle(arguments_array_binary_call_creation_dotted_element_expression_invocation_measured_new_array_operand)]
fn measured(table: &[u32], fields: &[u32], s: Scope, r: Range, row: usize) -> Result<usize, Refusal>
    requires { Judgeable table.now fields.now s × (r.first ≤ row) × (row < r.end) × (r.end ≤ s.tokens) }
    ensures { LengthPost table.now s r.first row result }
{
    let part = word(table, columns::FIRST, row);
    array(table, fields, s, before(r, row), part)?;
    Ok(INT)
}

// `e.length` or a call.
#[cycle(arguments_array_binary_call_creation_dotted_element_expression_invocation_measured_new_array_operand)]
fn dotted(table: &[u32], fields: &[u32], s: Scope, r: Range, row: usize) -> Result<usize, Refusal>
    requires { Judgeable table.now fields.now s × (r.first ≤ row) × (row < r.end) × (r.end ≤ s.tokens) }
    ensures { DottedPost table.now s r.first r.end row result }
{
    if kind(table, s.tokens, row + 1) == kinds::LENGTH {
        return measured(table, fields, s, r, row);
    }
    call(table, fields, s, r, row)
}

// `e.m(e, ..)`: the receiver must be an object, 31.
#[cycle(arguments_array_binary_call_creation_dotted_element_expression_invocation_measured_new_array_operand)]
fn call(table: &[u32], fields: &[u32], s: Scope, r: Range, row: usize) -> Result<usize, Refusal>
    requires { Judgeable table.now fields.now s × (r.first ≤ row) × (row < r.end) × (r.end ≤ s.tokens) }
    ensures { NodePost table.now s a_call_shown r.first r.end row result }
{
    let left = word(table, columns::FIRST, row);
    let t = expression(table, fields, s, before(r, row), left)?;
    if INT <= t {
        return Err(Refusal {
            reason: Reason::WrongType,
            position: word(table, columns::BEGIN, left),
        });
    }
    invocation(table, fields, s, behind(r, row), row, t)
}

// The method, in a class of name c, and the arguments: 32, 33. The range is that of the arguments, behind the token in `row`.
#[cycle(arguments_array_binary_call_creation_dotted_element_expression_invocation_measured_new_array_operand)]
fn invocation(
    table: &[u32],
    fields: &[u32],
    s: Scope,
    r: Range,
    row: usize,
    c: usize,
) -> Result<usize, Refusal>
    requires { Judgeable table.now fields.now s × (row < r.first) × (r.end ≤ s.tokens) }
    ensures { InvocationPost table.now s r.first r.end row c result }
{
    let called = word(table, columns::NUMBER, row + 1);
    let m = find_method(table, s.tokens, s.classes, c, called);
    if ABSENT <= m {
        return Err(Refusal {
            reason: Reason::MethodUnknown,
            position: word(table, columns::START, row + 1),
        });
    }
    let given = word(table, columns::SECOND, row);
    let taken = word(table, columns::PARAMETERS, m);
    if same_count(table, s.tokens, given, taken) {
        arguments(table, fields, s, r, given, taken)?;
        return Ok(type_of(table, s.tokens, word(table, columns::TYPE, m)));
    }
    Err(Refusal {
        reason: Reason::ArgumentCount,
        position: word(table, columns::START, row + 1),
    })
}

// The arguments from a row on, each of which must fit its parameter; the parameters stand from the row `taken` on.
#[cycle(arguments_array_binary_call_creation_dotted_element_expression_invocation_measured_new_array_operand)]
fn arguments(
    table: &[u32],
    fields: &[u32],
    s: Scope,
    r: Range,
    row: usize,
    taken: usize,
) -> Result<(), Refusal>
    requires { Judgeable table.now fields.now s × (r.end ≤ s.tokens) }
    ensures { ArgumentsPost table.now s r.first r.end row taken result }
{
    if ABSENT <= row {
        return Ok(());
    }
    let want = type_of(table, s.tokens, word(table, columns::TYPE, taken));
    operand(table, fields, s, r, row, want)?;
    let next = word(table, columns::NEXT, row);
    let after = word(table, columns::NEXT, taken);
    arguments(table, fields, s, behind(r, row), next, after)
}
