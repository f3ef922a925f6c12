// Tidy printing of a lesson: the operation Print.
ghost use Rattle.std.specs.Prelude.{◌≡◌, ◌≤◌, length};
ghost use Rattle.base.specs.Codes.{table_least, tokens_most};
ghost use Rattle.typesystem.specs.Check.{checking};
ghost use Rattle.printing.specs.Print.{print_result, Prints};
ghost use Rattle.base.specs.promises.Answers.{write_answer_of, write_result_of};
ghost use Rattle.printer.specs.promises.PrintPost.{WritesText};

use crate::lesson::Lesson;
use crate::unit::program;
use base::bounds::TABLE_LEAST;
use base::refusal::{Reason, Refusal};
use lexer::bytes::byte_kinds;
use typecheck::check::find;

// Writes the text of the program of n tokens in the table, where the strip is long enough. The first walk only counts. The answer is how
// many bytes it has.
fn write(source: &[u8], table: &[u32], strip: &mut [u8], n: usize) -> Result<usize, Refusal>
    requires { (table_least ≤ length table.now) × (n ≤ tokens_most) }
    ensures { WritesText source.now table.now n strip.old (write_result_of result strip.new) }
{
    let bytes = byte_kinds();
    let lesson = Lesson {
        source,
        bytes: &bytes,
        table,
        n,
    };
    let mut none = [0u8; 0];
    let size = program(&lesson, &mut none);
    if strip.len() < size {
        return Err(Refusal {
            reason: Reason::TextTooLong,
            position: 0,
        });
    }
    let count = program(&lesson, strip);
    Ok(count)
}

// What Print answers, and the strip; the table is left filled.
fn answer(source: &[u8], table: &mut [u32], strip: &mut [u8]) -> Result<usize, Refusal>
    requires { table_least ≤ length table.old }
    ensures { write_result_of result strip.new ≡ print_result (checking source.now) strip.old }
{
    let sizes = find(source, table)?;
    write(source, table, strip, sizes.tokens)
}

// The operation Print. The answer is how many bytes were written.
pub fn print(source: &[u8], table: &mut [u32], strip: &mut [u8]) -> Result<usize, Refusal>
    ensures { Prints source.now table.old strip.old (write_answer_of result) table.new
        strip.new }
{
    if table.len() < TABLE_LEAST {
        return Err(Refusal {
            reason: Reason::TableTooShort,
            position: 0,
        });
    }
    let written = answer(source, table, strip);
    table.fill(0);
    written
}
