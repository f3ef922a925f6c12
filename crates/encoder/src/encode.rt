// The operation Encode of document 02, (xii).
ghost use Rattle.std.specs.Prelude.{◌≡◌, ◌≤◌, length};
ghost use Rattle.base.specs.Codes.{table_least};
ghost use Rattle.reader.specs.promises.WalkPost.{Walkable};
ghost use Rattle.typesystem.specs.Check.{checking};
ghost use Rattle.frames.specs.Operations.{encode_result};
ghost use Rattle.base.specs.promises.Answers.{write_answer_of, write_result_of};
ghost use Rattle.frames.specs.Operations.{Encodes};
ghost use Rattle.encoder.specs.promises.Encoding.{PassPost, BothPost, WritesFrames};

use crate::frame::{END, behind, plain};
use crate::names::{NONE, classes, each};
use crate::plan::{Lesson, Plan};
use crate::tables::tables;
use base::bounds::TABLE_LEAST;
use base::refusal::{Reason, Refusal};
use lookup::rows::word;
use parser::columns;
use parser::columns::ROWS;
use typecheck::check::find;
use writer::code::ROOM;
use writer::prepare::prepare;

// How many words an array has of the code, of rows, of numbers of names, and of method names.
const CODE_WORDS: usize = 4 * ROOM;

const NUMBERS: usize = ROWS + 1;

const NAMES: usize = 8192;

// All frames, where the strip reaches; the answer is how many bytes they have.
fn pass(l: &Lesson, strip: &mut [u8]) -> usize
    requires { Walkable l.now.table.now l.now.plan.tokens × (l.now.plan.lines ≤ 8192) × (l.now.plan.methods ≤ 4194304) }
    ensures { PassPost l.now.table.now l.now.code.now l.now.entries.now l.now.classes.now l.now.methods.now
        l.now.names.now l.now.plan strip.old strip.new result }
{
    let at = plain(l, strip, 0, l.plan.lines, 0);
    tables(l, strip, 0, l.plan.methods, at)
}

// Counts the bytes, with a strip to which nothing of them goes that is kept, and writes them where the strip is long enough.
fn both(l: &Lesson, strip: &mut [u8]) -> Result<usize, Refusal>
    requires { Walkable l.now.table.now l.now.plan.tokens × (l.now.plan.lines ≤ 8192) × (l.now.plan.methods ≤ 4194304) }
    ensures { BothPost l.now.table.now l.now.code.now l.now.entries.now l.now.classes.now l.now.methods.now
        l.now.names.now l.now.plan strip.old strip.new result }
{
    let mut none = [0u8; 1];
    let bytes = pass(l, &mut none);
    if strip.len() < bytes {
        return Err(Refusal {
            reason: Reason::FramesTooShort,
            position: 0,
        });
    }
    pass(l, strip);
    Ok(bytes)
}

// Writes the frames of the accepted lesson that the table holds, where the strip is long enough.
fn written(table: &[u32], strip: &mut [u8], tokens: usize, many: usize) -> Result<usize, Refusal>
    requires { Walkable table.now tokens × (many ≤ 2048) }
    ensures { WritesFrames table.now tokens many strip.old (write_result_of result strip.new) }
{
    let mut code = [END; CODE_WORDS];
    let mut entries = [0u32; ROWS];
    prepare(table, &mut code, &mut entries, tokens, many);
    let mut numbers = [ROWS as u32; NUMBERS];
    let mut marks = [NONE as u32; NUMBERS];
    let mut names = [0u32; NAMES];
    let first = word(table, columns::NEXT, columns::CLASS_LIST);
    classes(table, &mut numbers, many, first, 0);
    let methods = each(table, &mut marks, &mut names, tokens, many, first, 0);
    let plan = Plan {
        tokens,
        classes: many,
        lines: behind(&code, 0, ROOM),
        methods,
    };
    let l = Lesson {
        table,
        code: &code,
        entries: &entries,
        classes: &numbers,
        methods: &marks,
        names: &names,
        plan,
    };
    both(&l, strip)
}

// What Encode answers, and the strip; the table is left filled.
fn answer(source: &[u8], table: &mut [u32], strip: &mut [u8]) -> Result<usize, Refusal>
    requires { table_least ≤ length table.old }
    ensures { write_result_of result strip.new ≡ encode_result (checking source.now) strip.old }
{
    let sizes = find(source, table)?;
    written(table, strip, sizes.tokens, sizes.classes)
}

// The operation: how many bytes were written. A work table that is too short is not touched.
pub fn encode(source: &[u8], table: &mut [u32], strip: &mut [u8]) -> Result<usize, Refusal>
    ensures { Encodes source.now table.old strip.old (write_answer_of result) table.new strip.new }
{
    if table.len() < TABLE_LEAST {
        return Err(Refusal {
            reason: Reason::TableTooShort,
            position: 0,
        });
    }
    let encoded = answer(source, table, strip);
    table.fill(0);
    encoded
}
