// The operation Join of document 02, (x): a course library joined to a lesson in a lent byte strip.
ghost use Rattle.std.specs.Prelude.{◌∷◌, ◌++◌, ◌+◌, ◌≤◌, length};
ghost use Rattle.base.specs.Codes.{table_least, source_most};
ghost use Rattle.base.specs.Outcome.{accepted};
ghost use Rattle.lexer.specs.Bytes.{b_line_feed};
ghost use Rattle.joining.specs.Join.{join_result, joining, Joins};
ghost use Rattle.joiner.specs.promises.Names.{classes_most};
ghost use Rattle.joiner.specs.promises.Texts.{kept_from, Overlaid};
ghost use Rattle.base.specs.promises.Answers.{write_answer_of};
ghost use Rattle.joiner.specs.promises.JoinPost.{JoinAnswered, LessonHeld};

use crate::library;
use crate::names::{CLASSES_MOST, keep};
use crate::sources::Sources;
use crate::text::{copy, kept_size, write_kept};
use base::bounds::TABLE_LEAST;
use base::refusal::{Reason, Refusal};
use reader::read::fill;

// Writes the lesson, a line feed and the kept classes.
fn write_text(s: &Sources, first: usize, strip: &mut [u8])
    requires { (length s.now.lesson.now ≤ source_most)
        × (length s.now.lesson.now + 1 + length (kept_from s.now.lesson.now s.now.names.now (length s.now.names.now) s.now.library.now
        s.now.table.now s.now.n first classes_most) ≤ length strip.old) }
    ensures { Overlaid strip.old 0
        (s.now.lesson.now ++ b_line_feed ∷ kept_from s.now.lesson.now s.now.names.now (length s.now.names.now) s.now.library.now
        s.now.table.now s.now.n first classes_most) strip.new }
{
    let size = s.lesson.len();
    copy(s.lesson, 0, size, strip, 0);
    strip[size] = b'\n';
    write_kept(s, first, CLASSES_MOST, strip, size + 1);
}

// The text, where the strip is long enough.
fn text(s: &Sources, first: usize, strip: &mut [u8]) -> Result<usize, Refusal>
    requires { length s.now.lesson.now ≤ source_most }
    ensures { JoinAnswered (join_result (accepted (s.now.lesson.now ++ b_line_feed ∷
        kept_from s.now.lesson.now s.now.names.now (length s.now.names.now) s.now.library.now s.now.table.now s.now.n first classes_most))
        strip.old) result strip.new }
{
    let kept = kept_size(s, first, CLASSES_MOST);
    let size = s.lesson.len() + 1 + kept;
    if strip.len() < size {
        return Err(Refusal {
            reason: Reason::JoinedTooLong,
            position: 0,
        });
    }
    write_text(s, first, strip);
    Ok(size)
}

// The library, once the lesson is in the table: its names are kept while the library takes its place.
fn under(
    lesson: &[u8],
    table: &mut [u32],
    library: &[u8],
    strip: &mut [u8],
) -> Result<usize, Refusal>
    requires { (table_least ≤ length table.old) × LessonHeld lesson.now table.old }
    ensures { JoinAnswered (join_result (joining lesson.now library.now) strip.old) result
        strip.new }
{
    let mut names = [0u32; CLASSES_MOST];
    let count = keep(table, &mut names);
    match library::fill(library, table) {
        Ok((n, first)) => {
            let s = Sources {
                lesson,
                names: &names[..count],
                library,
                table,
                n,
            };
            text(&s, first, strip)
        }
        Err(at) => Err(Refusal {
            reason: Reason::LibraryRefused,
            position: at,
        }),
    }
}

// What Join answers, and the strip; the table is left filled.
fn stages(
    lesson: &[u8],
    table: &mut [u32],
    library: &[u8],
    strip: &mut [u8],
) -> Result<usize, Refusal>
    requires { table_least ≤ length table.old }
    ensures { JoinAnswered (join_result (joining lesson.now library.now) strip.old) result
        strip.new }
{
    fill(lesson, table)?;
    under(lesson, table, library, strip)
}

// The operation Join. The answer is how many bytes were written.
pub fn join(
    lesson: &[u8],
    table: &mut [u32],
    library: &[u8],
    strip: &mut [u8],
) -> Result<usize, Refusal>
    ensures { Joins lesson.now library.now table.old strip.old (write_answer_of result)
        table.new strip.new }
{
    if table.len() < TABLE_LEAST {
        return Err(Refusal {
            reason: Reason::TableTooShort,
            position: 0,
        });
    }
    let joined = stages(lesson, table, library, strip);
    table.fill(0);
    joined
}
