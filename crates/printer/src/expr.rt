// Expressions. The answer is the place behind what is written.
ghost use Rattle.std.specs.Prelude.{◌≡◌, ◌+◌, ◌≤◌, ◌<◌};
ghost use Rattle.parser.specs.Tree.{Sort};
ghost use Rattle.parser.specs.promises.Post.{kind_in_table};
ghost use Rattle.lookup.specs.promises.Shows.{Form, form_at};
ghost use Rattle.base.specs.Word.{modulus};
ghost use Rattle.lexer.specs.Kinds.{k_dot};
ghost use Rattle.printer.specs.promises.Puts.{text_room};
ghost use Rattle.printer.specs.promises.Ranks.{tightness_of};
ghost use Rattle.printer.specs.promises.Walks.{PartPut, FormPut, EnclosedPut, MadePut, MemberPut, GivenPut};

use crate::class::{ANY, INDEXED, MEMBERED, NEGATED, rank, tighter};
use crate::job::Job;
use crate::lesson::Lesson;
use crate::strip::{put, spell};
use lexer::kinds;
use parser::columns;
use parser::columns::ABSENT;
use parser::kinds::is_atom;

// `new` and the token after it.
fn made(lesson: &Lesson, strip: &mut [u8], row: usize, at: usize) -> usize
    requires { (row < modulus) × (at ≤ text_room) }
    ensures { MadePut lesson.now.source.now lesson.now.table.now lesson.now.n row at strip.old strip.new result }
{
    let a = spell(strip, at, b"new", b' ');
    lesson.token(strip, row + 1, a)
}

// The point of a call, its method's name and `(`.
fn member(lesson: &Lesson, strip: &mut [u8], row: usize, at: usize) -> usize
    requires { (row < modulus) × (at ≤ text_room) }
    ensures { MemberPut lesson.now.source.now lesson.now.table.now lesson.now.n row at strip.old strip.new result }
{
    let a = spell(strip, at, b".", b' ');
    let b = lesson.token(strip, row + 1, a);
    spell(strip, b, b"(", b' ')
}

// An expression in a place that wants this class: with a pair of parentheses where its own class is below.
#[cycle(arguments_binary_dotted_element_enclosed_expression_form_given)]
pub fn expression(lesson: &Lesson, strip: &mut [u8], wanted: u32, mut p: Job) -> usize
    requires { (p.row < modulus) × (p.at ≤ text_room) }
    ensures { PartPut lesson.now.source.now lesson.now.table.now lesson.now.n Sort.expression wanted p strip.old
        strip.new result }
{
    if p.left == 0 {
        return p.at;
    }
    let k = lesson.kind(p.row);
    let third = lesson.kind(p.row + 2);
    p.left -= 1;
    if wanted <= rank(k, third) {
        return form(lesson, strip, k, third, p);
    }
    p.at = spell(strip, p.at, b"(", b' ');
    let end = form(lesson, strip, k, third, p);
    spell(strip, end, b")", b' ')
}

// The expression in a row, whose token is of kind k and the one two behind it of kind `third`.
#[cycle(arguments_binary_dotted_element_enclosed_expression_form_given)]
fn form(lesson: &Lesson, strip: &mut [u8], k: u32, third: u32, p: Job) -> usize
    requires { (p.row < modulus) × (p.at ≤ text_room) × (k ≡ kind_in_table lesson.now.table.now lesson.now.n p.row) ×
        (third ≡ kind_in_table lesson.now.table.now lesson.now.n (p.row + 2)) }
    ensures { FormPut lesson.now.source.now lesson.now.table.now lesson.now.n (form_at lesson.now.table.now lesson.now.n p.row) p strip.old
        strip.new result }
{
    if is_atom(k) {
        return lesson.token(strip, p.row, p.at);
    }
    if k == kinds::NEW {
        let a = made(lesson, strip, p.row, p.at);
        if third == kinds::OPEN_BRACKET {
            let b = spell(strip, a, b"[", b' ');
            return enclosed(lesson, strip, b']', lesson.part(columns::FIRST, p, b));
        }
        return spell(strip, a, b"( )", b' ');
    }
    if k == kinds::DOT {
        return dotted(lesson, strip, p);
    }
    if k == kinds::NOT {
        let a = spell(strip, p.at, b"!", b' ');
        return expression(lesson, strip, NEGATED, lesson.part(columns::FIRST, p, a));
    }
    if k == kinds::PORT {
        let a = spell(strip, p.at, b"Port . get (", b' ');
        return enclosed(lesson, strip, b')', lesson.part(columns::FIRST, p, a));
    }
    if k == kinds::OPEN_BRACKET {
        return element(lesson, strip, p);
    }
    binary(lesson, strip, rank(k, third), p)
}

// An expression, and a mark behind it.
#[cycle(arguments_binary_dotted_element_enclosed_expression_form_given)]
pub fn enclosed(lesson: &Lesson, strip: &mut [u8], close: u8, p: Job) -> usize
    requires { (p.row < modulus) × (p.at ≤ text_room) }
    ensures { EnclosedPut lesson.now.source.now lesson.now.table.now lesson.now.n close p strip.old strip.new result }
{
    let a = expression(lesson, strip, ANY, p);
    let b = put(strip, a, close);
    put(strip, b, b' ')
}

// `.length` or a call.
#[cycle(arguments_binary_dotted_element_enclosed_expression_form_given)]
fn dotted(lesson: &Lesson, strip: &mut [u8], p: Job) -> usize
    requires { (p.row < modulus) × (p.at ≤ text_room) × (kind_in_table lesson.now.table.now lesson.now.n p.row ≡ k_dot) }
    ensures { FormPut lesson.now.source.now lesson.now.table.now lesson.now.n (form_at lesson.now.table.now lesson.now.n p.row) p strip.old
        strip.new result }
{
    let a = expression(
        lesson,
        strip,
        MEMBERED,
        lesson.part(columns::FIRST, p, p.at),
    );
    if lesson.kind(p.row + 1) == kinds::LENGTH {
        return spell(strip, a, b". length", b' ');
    }
    let b = member(lesson, strip, p.row, a);
    given(lesson, strip, lesson.part(columns::SECOND, p, b))
}

// Arguments, and `)`.
#[cycle(arguments_binary_dotted_element_enclosed_expression_form_given)]
fn given(lesson: &Lesson, strip: &mut [u8], p: Job) -> usize
    requires { (p.row < modulus) × (p.at ≤ text_room) }
    ensures { GivenPut lesson.now.source.now lesson.now.table.now lesson.now.n p strip.old strip.new result }
{
    let a = arguments(lesson, strip, p);
    spell(strip, a, b")", b' ')
}

// An element of an array.
#[cycle(arguments_binary_dotted_element_enclosed_expression_form_given)]
fn element(lesson: &Lesson, strip: &mut [u8], p: Job) -> usize
    requires { (p.row < modulus) × (p.at ≤ text_room) }
    ensures { FormPut lesson.now.source.now lesson.now.table.now lesson.now.n Form.an_element p strip.old strip.new result }
{
    let a = expression(lesson, strip, INDEXED, lesson.part(columns::FIRST, p, p.at));
    let b = spell(strip, a, b"[", b' ');
    enclosed(lesson, strip, b']', lesson.part(columns::SECOND, p, b))
}

// An operator of class w and its operands.
#[cycle(arguments_binary_dotted_element_enclosed_expression_form_given)]
fn binary(lesson: &Lesson, strip: &mut [u8], w: u32, p: Job) -> usize
    requires { (p.row < modulus) × (p.at ≤ text_room) × (w ≡ tightness_of (kind_in_table lesson.now.table.now lesson.now.n p.row)
        (kind_in_table lesson.now.table.now lesson.now.n (p.row + 2))) }
    ensures { FormPut lesson.now.source.now lesson.now.table.now lesson.now.n Form.a_binary p strip.old strip.new result }
{
    let a = expression(lesson, strip, w, lesson.part(columns::FIRST, p, p.at));
    let b = lesson.token(strip, p.row, a);
    expression(
        lesson,
        strip,
        tighter(w),
        lesson.part(columns::SECOND, p, b),
    )
}

// The arguments from a row on, commas between them.
#[cycle(arguments_binary_dotted_element_enclosed_expression_form_given)]
fn arguments(lesson: &Lesson, strip: &mut [u8], mut p: Job) -> usize
    requires { (p.row < modulus) × (p.at ≤ text_room) }
    ensures { PartPut lesson.now.source.now lesson.now.table.now lesson.now.n Sort.arguments 0 p strip.old strip.new result }
{
    if p.left == 0 || ABSENT <= p.row {
        return p.at;
    }
    let a = expression(lesson, strip, ANY, p);
    p.left -= 1;
    p.row = lesson.word(columns::NEXT, p.row);
    if ABSENT <= p.row {
        return a;
    }
    p.at = spell(strip, a, b",", b' ');
    arguments(lesson, strip, p)
}
