// Statements, each with what it needs of its expressions. Each has the range of tokens in which it lies. All its parts lie behind its own
// token: a function on statements of one kind has the range of its parts, `parts`.
ghost use Rattle.std.specs.Prelude.{◌≤◌};
ghost use Rattle.lookup.specs.promises.Shows.{a_conditional, a_loop, a_print, an_assignment, an_element_store};
ghost use Rattle.bodies.specs.promises.Scoping.{Judgeable};
ghost use Rattle.bodies.specs.promises.StatementPost.{StatementPost, ListPost, StatementNodePost, BranchesPost, ValuePost};

use crate::expr::{expression, name, operand};
use crate::range::{Range, behind};
use crate::scope::Scope;
use base::refusal::{Reason, Refusal};
use lexer::kinds;
use lookup::rows::word;
use lookup::types::{ARRAY, BOOLEAN, FIXED, INT};
use parser::columns;
use parser::columns::ABSENT;
use parser::table::kind;

// Where and what is stored: index and value of an assignment to an element, which is of type `want`; register and value of `Port.put`.
fn stored(
    table: &[u32],
    fields: &[u32],
    s: Scope,
    parts: Range,
    row: usize,
    want: usize,
) -> Result<(), Refusal>
    requires { Judgeable table.now fields.now s × (parts.end ≤ s.tokens) }
    ensures { ValuePost table.now s parts.first parts.end row want result }
{
    let index = word(table, columns::FIRST, row);
    operand(table, fields, s, parts, index, INT)?;
    let value = word(table, columns::SECOND, row);
    operand(table, fields, s, parts, value, want)
}

// An assignment to an element: the target is looked up first, and must be an array: 31 at its name.
fn element_store(
    table: &[u32],
    fields: &[u32],
    s: Scope,
    parts: Range,
    row: usize,
) -> Result<(), Refusal>
    requires { Judgeable table.now fields.now s × (parts.end ≤ s.tokens) }
    ensures { StatementNodePost table.now s an_element_store parts.first parts.end row result }
{
    let t = name(table, fields, s, row)?;
    if t < ARRAY {
        return Err(Refusal {
            reason: Reason::WrongType,
            position: word(table, columns::BEGIN, row),
        });
    }
    stored(table, fields, s, parts, row, t - ARRAY)
}

// An assignment: the target is looked up first.
fn assignment(
    table: &[u32],
    fields: &[u32],
    s: Scope,
    parts: Range,
    row: usize,
) -> Result<(), Refusal>
    requires { Judgeable table.now fields.now s × (parts.end ≤ s.tokens) }
    ensures { StatementNodePost table.now s an_assignment parts.first parts.end row result }
{
    let t = name(table, fields, s, row)?;
    let value = word(table, columns::FIRST, row);
    operand(table, fields, s, parts, value, t)
}

// `System.out.println`: what is printed must be int or fixed, 31 at it.
fn printed(table: &[u32], fields: &[u32], s: Scope, parts: Range, row: usize) -> Result<(), Refusal>
    requires { Judgeable table.now fields.now s × (parts.end ≤ s.tokens) }
    ensures { StatementNodePost table.now s a_print parts.first parts.end row result }
{
    let part = word(table, columns::FIRST, row);
    let t = expression(table, fields, s, parts, part)?;
    if t == INT {
        return Ok(());
    }
    if t == FIXED {
        return Ok(());
    }
    Err(Refusal {
        reason: Reason::WrongType,
        position: word(table, columns::BEGIN, part),
    })
}

// A statement.
#[cycle(branches_conditional_list_repeated_single)]
pub fn single(table: &[u32], fields: &[u32], s: Scope, r: Range, row: usize) -> Result<(), Refusal>
    requires { Judgeable table.now fields.now s × (r.end ≤ s.tokens) }
    ensures { StatementPost table.now s r.first r.end row result }
{
    if row < r.first {
        return Err(Refusal {
            reason: Reason::Broken,
            position: 0,
        });
    }
    if r.end <= row {
        return Err(Refusal {
            reason: Reason::Broken,
            position: 0,
        });
    }
    let parts = behind(r, row);
    let k = kind(table, s.tokens, row);
    if k == kinds::OPEN_BRACE {
        return list(table, fields, s, parts, word(table, columns::FIRST, row));
    }
    if k == kinds::IF {
        return conditional(table, fields, s, parts, row);
    }
    if k == kinds::WHILE {
        return repeated(table, fields, s, parts, row);
    }
    if k == kinds::SYSTEM {
        return printed(table, fields, s, parts, row);
    }
    if k == kinds::PORT {
        return stored(table, fields, s, parts, row, INT);
    }
    if kind(table, s.tokens, row + 1) == kinds::OPEN_BRACKET {
        return element_store(table, fields, s, parts, row);
    }
    assignment(table, fields, s, parts, row)
}

// The branches of an `if`.
#[cycle(branches_conditional_list_repeated_single)]
fn branches(
    table: &[u32],
    fields: &[u32],
    s: Scope,
    parts: Range,
    row: usize,
) -> Result<(), Refusal>
    requires { Judgeable table.now fields.now s × (parts.end ≤ s.tokens) }
    ensures { BranchesPost table.now s parts.first parts.end row result }
{
    let second = word(table, columns::SECOND, row);
    single(table, fields, s, parts, second)?;
    let third = word(table, columns::THIRD, row);
    single(table, fields, s, parts, third)
}

// `if`: its test, then both branches.
#[cycle(branches_conditional_list_repeated_single)]
fn conditional(
    table: &[u32],
    fields: &[u32],
    s: Scope,
    parts: Range,
    row: usize,
) -> Result<(), Refusal>
    requires { Judgeable table.now fields.now s × (parts.end ≤ s.tokens) }
    ensures { StatementNodePost table.now s a_conditional parts.first parts.end row result }
{
    let test = word(table, columns::FIRST, row);
    operand(table, fields, s, parts, test, BOOLEAN)?;
    branches(table, fields, s, parts, row)
}

// `while`: its test, then its body.
#[cycle(branches_conditional_list_repeated_single)]
fn repeated(
    table: &[u32],
    fields: &[u32],
    s: Scope,
    parts: Range,
    row: usize,
) -> Result<(), Refusal>
    requires { Judgeable table.now fields.now s × (parts.end ≤ s.tokens) }
    ensures { StatementNodePost table.now s a_loop parts.first parts.end row result }
{
    let test = word(table, columns::FIRST, row);
    operand(table, fields, s, parts, test, BOOLEAN)?;
    let body = word(table, columns::SECOND, row);
    single(table, fields, s, parts, body)
}

// The statements from a row on.
#[cycle(branches_conditional_list_repeated_single)]
pub fn list(table: &[u32], fields: &[u32], s: Scope, r: Range, row: usize) -> Result<(), Refusal>
    requires { Judgeable table.now fields.now s × (r.end ≤ s.tokens) }
    ensures { ListPost table.now s r.first r.end row result }
{
    if ABSENT <= row {
        return Ok(());
    }
    single(table, fields, s, r, row)?;
    let next = word(table, columns::NEXT, row);
    list(table, fields, s, behind(r, row), next)
}
