// Statements. The answer is the place behind what is written.
ghost use Rattle.std.specs.Prelude.{◌≡◌, ◌+◌, ◌≤◌, ◌<◌};
ghost use Rattle.base.specs.Word.{modulus};
ghost use Rattle.parser.specs.Tree.{Sort};
ghost use Rattle.parser.specs.promises.Post.{kind_in_table};
ghost use Rattle.lookup.specs.promises.Shows.{Form, form_s};
ghost use Rattle.printer.specs.promises.Puts.{text_room};
ghost use Rattle.printer.specs.promises.Walks.{PartPut, StatementPut, ValuePut, FinishedPut, BracedPut, BranchesPut};

use crate::class::ANY;
use crate::expr::{enclosed, expression};
use crate::job::Job;
use crate::lesson::Lesson;
use crate::strip::spell;
use lexer::kinds;
use parser::columns;
use parser::columns::ABSENT;

// An expression, and `;`.
pub fn value(lesson: &Lesson, strip: &mut [u8], p: Job) -> usize
    requires { (p.row < modulus) × (p.at ≤ text_room) }
    ensures { ValuePut lesson.now.source.now lesson.now.table.now lesson.now.n p strip.old strip.new result }
{
    let a = expression(lesson, strip, ANY, p);
    spell(strip, a, b";", b'\n')
}

// An expression, `)` and `;`.
fn finished(lesson: &Lesson, strip: &mut [u8], p: Job) -> usize
    requires { (p.row < modulus) × (p.at ≤ text_room) }
    ensures { FinishedPut lesson.now.source.now lesson.now.table.now lesson.now.n p strip.old strip.new result }
{
    let a = enclosed(lesson, strip, b')', p);
    spell(strip, a, b";", b'\n')
}

// A register put.
fn port_put(lesson: &Lesson, strip: &mut [u8], p: Job) -> usize
    requires { (p.row < modulus) × (p.at ≤ text_room) }
    ensures { StatementPut lesson.now.source.now lesson.now.table.now lesson.now.n Form.a_port_put p strip.old
        strip.new result }
{
    let a = spell(strip, p.at, b"Port . put (", b' ');
    let b = expression(lesson, strip, ANY, lesson.part(columns::FIRST, p, a));
    let c = spell(strip, b, b",", b' ');
    finished(lesson, strip, lesson.part(columns::SECOND, p, c))
}

// A name and its value.
fn assigned(lesson: &Lesson, strip: &mut [u8], p: Job) -> usize
    requires { (p.row < modulus) × (p.at ≤ text_room) }
    ensures { StatementPut lesson.now.source.now lesson.now.table.now lesson.now.n Form.an_assignment p strip.old
        strip.new result }
{
    let a = lesson.token(strip, p.row, p.at);
    let b = spell(strip, a, b"=", b' ');
    value(lesson, strip, lesson.part(columns::FIRST, p, b))
}

// An element of a named array and its value.
fn store(lesson: &Lesson, strip: &mut [u8], p: Job) -> usize
    requires { (p.row < modulus) × (p.at ≤ text_room) }
    ensures { StatementPut lesson.now.source.now lesson.now.table.now lesson.now.n Form.an_element_store p strip.old
        strip.new result }
{
    let a = lesson.token(strip, p.row, p.at);
    let b = spell(strip, a, b"[", b' ');
    let c = enclosed(lesson, strip, b']', lesson.part(columns::FIRST, p, b));
    let d = spell(strip, c, b"=", b' ');
    value(lesson, strip, lesson.part(columns::SECOND, p, d))
}

// A statement.
#[cycle(braced_branches_list_single_stated)]
pub fn single(lesson: &Lesson, strip: &mut [u8], mut p: Job) -> usize
    requires { (p.row < modulus) × (p.at ≤ text_room) }
    ensures { PartPut lesson.now.source.now lesson.now.table.now lesson.now.n Sort.statement 0 p strip.old strip.new result }
{
    if p.left == 0 {
        return p.at;
    }
    p.left -= 1;
    stated(lesson, strip, lesson.kind(p.row), p)
}

// The statement in a row, whose token is of kind k.
#[cycle(braced_branches_list_single_stated)]
fn stated(lesson: &Lesson, strip: &mut [u8], k: u32, p: Job) -> usize
    requires { (p.row < modulus) × (p.at ≤ text_room) × (k ≡ kind_in_table lesson.now.table.now lesson.now.n p.row) }
    ensures { StatementPut lesson.now.source.now lesson.now.table.now lesson.now.n (form_s (kind_in_table lesson.now.table.now lesson.now.n p.row)
        (kind_in_table lesson.now.table.now lesson.now.n (p.row + 1))) p strip.old strip.new result }
{
    if k == kinds::OPEN_BRACE {
        let a = spell(strip, p.at, b"{", b'\n');
        return braced(lesson, strip, lesson.part(columns::FIRST, p, a));
    }
    if k == kinds::IF {
        let a = spell(strip, p.at, b"if (", b' ');
        let b = enclosed(lesson, strip, b')', lesson.part(columns::FIRST, p, a));
        return branches(lesson, strip, p, b);
    }
    if k == kinds::WHILE {
        let a = spell(strip, p.at, b"while (", b' ');
        let b = enclosed(lesson, strip, b')', lesson.part(columns::FIRST, p, a));
        return single(lesson, strip, lesson.part(columns::SECOND, p, b));
    }
    if k == kinds::SYSTEM {
        let a = spell(strip, p.at, b"System . out . println (", b' ');
        return finished(lesson, strip, lesson.part(columns::FIRST, p, a));
    }
    if k == kinds::PORT {
        return port_put(lesson, strip, p);
    }
    if lesson.kind(p.row + 1) == kinds::OPEN_BRACKET {
        return store(lesson, strip, p);
    }
    assigned(lesson, strip, p)
}

// Statements, and `}`.
#[cycle(braced_branches_list_single_stated)]
pub fn braced(lesson: &Lesson, strip: &mut [u8], p: Job) -> usize
    requires { (p.row < modulus) × (p.at ≤ text_room) }
    ensures { BracedPut lesson.now.source.now lesson.now.table.now lesson.now.n p strip.old strip.new result }
{
    let a = list(lesson, strip, p);
    spell(strip, a, b"}", b'\n')
}

// What is done after a test, and what is done otherwise.
#[cycle(braced_branches_list_single_stated)]
fn branches(lesson: &Lesson, strip: &mut [u8], p: Job, at: usize) -> usize
    requires { at ≤ text_room }
    ensures { BranchesPut lesson.now.source.now lesson.now.table.now lesson.now.n p at strip.old strip.new result }
{
    let a = single(lesson, strip, lesson.part(columns::SECOND, p, at));
    let b = spell(strip, a, b"else", b' ');
    single(lesson, strip, lesson.part(columns::THIRD, p, b))
}

// The statements from a row on.
#[cycle(braced_branches_list_single_stated)]
pub fn list(lesson: &Lesson, strip: &mut [u8], mut p: Job) -> usize
    requires { (p.row < modulus) × (p.at ≤ text_room) }
    ensures { PartPut lesson.now.source.now lesson.now.table.now lesson.now.n Sort.statements 0 p strip.old strip.new result }
{
    if p.left == 0 || ABSENT <= p.row {
        return p.at;
    }
    p.at = single(lesson, strip, p);
    p.left -= 1;
    p.row = lesson.word(columns::NEXT, p.row);
    list(lesson, strip, p)
}
