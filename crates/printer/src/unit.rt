// Classes and the program. The answer is the place behind what is written.
ghost use Rattle.std.specs.Prelude.{◌≤◌, ◌<◌};
ghost use Rattle.base.specs.Word.{modulus};
ghost use Rattle.printer.specs.promises.Puts.{text_room};
ghost use Rattle.printer.specs.promises.Units.{ClassPut, ClassesPut, ProgramPut, class_parent, class_head, class_members, whole_class};
ghost use Rattle.printer.specs.promises.Units.{main_name_lem, main_parameter_lem, main_head_tokens};
ghost use Rattle.printing.specs.Printed.{program_tokens};

use crate::decl::variables;
use crate::job::Job;
use crate::lesson::Lesson;
use crate::method::methods;
use crate::stmt::single;
use crate::strip::spell;
use parser::columns;
use parser::columns::ABSENT;

// The tokens that are main's name and the name of its parameter.
const MAIN_NAME: usize = 1;

const MAIN_PARAMETER: usize = 11;

// `extends` and the parent's name, where there is one, and `{`.
fn extended(lesson: &Lesson, strip: &mut [u8], p: Job) -> usize
    requires { (p.row < modulus) × (p.at ≤ text_room) }
    ensures { ClassPut lesson.now.source.now lesson.now.table.now lesson.now.n class_parent p strip.old strip.new result }
{
    let parent = lesson.word(columns::PARENT, p.row);
    if ABSENT <= parent {
        return spell(strip, p.at, b"{", b'\n');
    }
    let a = spell(strip, p.at, b"extends", b' ');
    let b = lesson.token(strip, parent, a);
    spell(strip, b, b"{", b'\n')
}

// A class up to its `{`.
fn titled(lesson: &Lesson, strip: &mut [u8], mut p: Job) -> usize
    requires { (p.row < modulus) × (p.at ≤ text_room) }
    ensures { ClassPut lesson.now.source.now lesson.now.table.now lesson.now.n class_head p strip.old strip.new result }
{
    let a = spell(strip, p.at, b"class", b' ');
    p.at = lesson.token(strip, p.row, a);
    extended(lesson, strip, p)
}

// The fields, the methods and `}`.
fn members(lesson: &Lesson, strip: &mut [u8], p: Job) -> usize
    requires { (p.row < modulus) × (p.at ≤ text_room) }
    ensures { ClassPut lesson.now.source.now lesson.now.table.now lesson.now.n class_members p strip.old strip.new result }
{
    let a = variables(lesson, strip, lesson.part(columns::FIELDS, p, p.at));
    let b = methods(lesson, strip, lesson.part(columns::METHODS, p, a));
    spell(strip, b, b"}", b'\n')
}

// The class whose name is in a row; its lists have at most `left` members.
fn class(lesson: &Lesson, strip: &mut [u8], mut p: Job) -> usize
    requires { (p.row < modulus) × (p.at ≤ text_room) }
    ensures { ClassPut lesson.now.source.now lesson.now.table.now lesson.now.n whole_class p strip.old strip.new result }
{
    p.at = titled(lesson, strip, p);
    members(lesson, strip, p)
}

// The classes from a row on.
fn classes(lesson: &Lesson, strip: &mut [u8], mut p: Job) -> usize
    requires { (p.row < modulus) × (p.at ≤ text_room) }
    ensures { ClassesPut lesson.now.source.now lesson.now.table.now lesson.now.n p strip.old strip.new result }
{
    if p.left == 0 || ABSENT <= p.row {
        return p.at;
    }
    let own = Job {
        left: lesson.n,
        row: p.row,
        at: p.at,
    };
    p.at = class(lesson, strip, own);
    p.left -= 1;
    p.row = lesson.word(columns::NEXT, p.row);
    classes(lesson, strip, p)
}

// The main class up to main's parameter, whose type is before it.
fn main_name(lesson: &Lesson, strip: &mut [u8], at: usize) -> usize
    requires { at ≤ text_room }
    ensures { ProgramPut lesson.now.source.now lesson.now.table.now lesson.now.n main_name_lem at strip.old strip.new result }
{
    let a = spell(strip, at, b"class", b' ');
    let b = lesson.token(strip, MAIN_NAME, a);
    spell(strip, b, b"{\npublic static void main ( String [ ]", b' ')
}

// Main's parameter, `)` and `{`.
fn main_parameter(lesson: &Lesson, strip: &mut [u8], at: usize) -> usize
    requires { at ≤ text_room }
    ensures { ProgramPut lesson.now.source.now lesson.now.table.now lesson.now.n main_parameter_lem at strip.old strip.new result }
{
    let a = lesson.token(strip, MAIN_PARAMETER, at);
    spell(strip, a, b") {", b'\n')
}

// What stands before main's statement.
fn main_head(lesson: &Lesson, strip: &mut [u8]) -> usize
    ensures { ProgramPut lesson.now.source.now lesson.now.table.now lesson.now.n main_head_tokens 0 strip.old strip.new result }
{
    let a = main_name(lesson, strip, 0);
    main_parameter(lesson, strip, a)
}

// A program of n tokens.
pub fn program(lesson: &Lesson, strip: &mut [u8]) -> usize
    ensures { ProgramPut lesson.now.source.now lesson.now.table.now lesson.now.n program_tokens 0 strip.old strip.new result }
{
    let mut p = Job {
        left: lesson.n,
        row: columns::MAIN_STATEMENT,
        at: main_head(lesson, strip),
    };
    let a = single(lesson, strip, p);
    p.at = spell(strip, a, b"}\n}", b'\n');
    p.row = lesson.word(columns::NEXT, columns::CLASS_LIST);
    classes(lesson, strip, p)
}
