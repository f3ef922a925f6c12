// The operations for programs in other languages: include/engine.h declares them to C. Each promises what its operation promises.
#![tactic(auto)]

ghost use Rattle.std.specs.Prelude.{◌≡◌};
ghost use Rattle.base.specs.promises.Answers.{write_answer_of};
ghost use Rattle.parser.specs.Read.{Reads};
ghost use Rattle.reader.specs.promises.ReadPost.{read_answer_of};
ghost use Rattle.typesystem.specs.Check.{Checks};
ghost use Rattle.typecheck.specs.promises.CheckPost.{check_answer_of};
ghost use Rattle.menu.specs.Menu.{Menus};
ghost use Rattle.menu.specs.promises.MenuPost.{menu_answer_of};
ghost use Rattle.semantics.specs.Run.{Runs};
ghost use Rattle.runner.specs.promises.RunPost.{run_answer_of, strips};
ghost use Rattle.joining.specs.Join.{Joins};
ghost use Rattle.printing.specs.Print.{Prints};
ghost use Rattle.frames.specs.Operations.{Encodes, RunsFrames, ContinuesFrames};

use base::refusal::Refusal;
use encoder::encode::encode;
use joiner::join::join;
use lookup::sizes::Sizes;
use menu::menu::menu;
use player::run::{Answer, Record};
use printer::print::print;
use reader::read::{Counts, read};
use runner::run;
use typecheck::check::check;

// Which header belongs to this library: ENGINE_VERSION there.
const VERSION: u32 = 5;

// The number of success.
const SUCCESS: u32 = 0;

// What Read answers, laid out as C lays it out.
#[repr(C)]
#[derive(Drop)]
pub struct ReadAnswer {
    pub number: u32,
    pub position: usize,
    pub tokens: usize,
    pub nodes: usize,
}

impl From<Result<Counts, Refusal>> for ReadAnswer {
    ghost from_gives = { λ r a. read_answer_of r ≡ record { number = a.number; position = a.position; tokens = a.tokens; nodes = a.nodes } };

    fn from(answer: Result<Counts, Refusal>) -> ReadAnswer {
        match answer {
            Ok(counts) => ReadAnswer {
                number: SUCCESS,
                position: 0,
                tokens: counts.tokens,
                nodes: counts.nodes,
            },
            Err(refusal) => ReadAnswer {
                number: refusal.number(),
                position: refusal.position,
                tokens: 0,
                nodes: 0,
            },
        }
    }
}

// What Check and Menu answer.
#[repr(C)]
#[derive(Drop)]
pub struct CheckAnswer {
    pub number: u32,
    pub position: usize,
    pub classes: usize,
}

impl From<Result<usize, Refusal>> for CheckAnswer {
    ghost from_gives = { λ r a. menu_answer_of r ≡ record { number = a.number; position = a.position; classes = a.classes } };

    fn from(answer: Result<usize, Refusal>) -> CheckAnswer {
        match answer {
            Ok(classes) => CheckAnswer {
                number: SUCCESS,
                position: 0,
                classes,
            },
            Err(refusal) => CheckAnswer {
                number: refusal.number(),
                position: refusal.position,
                classes: 0,
            },
        }
    }
}

impl From<Result<Sizes, Refusal>> for CheckAnswer {
    ghost from_gives = { λ r a. check_answer_of r ≡ record { number = a.number; position = a.position; classes = a.classes } };

    fn from(answer: Result<Sizes, Refusal>) -> CheckAnswer {
        match answer {
            Ok(sizes) => CheckAnswer {
                number: SUCCESS,
                position: 0,
                classes: sizes.classes,
            },
            Err(refusal) => CheckAnswer {
                number: refusal.number(),
                position: refusal.position,
                classes: 0,
            },
        }
    }
}

// What Join, Print and Encode answer.
#[repr(C)]
#[derive(Drop)]
pub struct WriteAnswer {
    pub number: u32,
    pub position: usize,
    pub count: usize,
}

impl From<Result<usize, Refusal>> for WriteAnswer {
    ghost from_gives = { λ r a. write_answer_of r ≡ record { number = a.number; position = a.position; count = a.count } };

    fn from(answer: Result<usize, Refusal>) -> WriteAnswer {
        match answer {
            Ok(count) => WriteAnswer {
                number: SUCCESS,
                position: 0,
                count,
            },
            Err(refusal) => WriteAnswer {
                number: refusal.number(),
                position: refusal.position,
                count: 0,
            },
        }
    }
}

// The limits of a run that are not the length of a strip.
#[repr(C)]
#[derive(Drop)]
pub struct Limits {
    pub budget: u32,
    pub calls: usize,
}

// What Run answers.
#[repr(C)]
#[derive(Drop)]
pub struct RunAnswer {
    pub number: u32,
    pub position: usize,
    pub steps: usize,
    pub climbs: u64,
    pub words: usize,
    pub printed: usize,
}

impl From<run::RunAnswer> for RunAnswer {
    ghost from_gives = { λ r a. run_answer_of r ≡ record { number = a.number; position = a.position; steps = a.steps; climbs = a.climbs; words = a.words; printed = a.printed } };

    fn from(end: run::RunAnswer) -> RunAnswer {
        RunAnswer {
            number: end.number,
            position: end.position,
            steps: end.steps,
            climbs: end.climbs,
            words: end.words,
            printed: end.printed,
        }
    }
}

// The limits of a part of a run of frames.
#[repr(C)]
#[derive(Drop)]
pub struct FrameLimits {
    pub budget: u32,
    pub calls: usize,
    pub price: u32,
}

impl From<FrameLimits> for player::run::Limits {
    ghost from_gives = { λ l own. own ≡ record { budget = l.budget; calls = l.calls; price = l.price } };

    fn from(limits: FrameLimits) -> player::run::Limits {
        player::run::Limits {
            budget: limits.budget,
            calls: limits.calls,
            price: limits.price,
        }
    }
}

// Where a run of frames is.
#[repr(C)]
#[derive(Drop)]
pub struct FrameRecord {
    pub line: usize,
    pub height: usize,
    pub calls: usize,
    pub words: usize,
    pub printed: usize,
    pub tape: usize,
    pub marks: usize,
    pub frames: u64,
    pub unspent: u64,
}

impl From<Record> for FrameRecord {
    ghost from_gives = { λ r lent. lent ≡ record { line = r.line; height = r.height; calls = r.calls; words = r.words; printed = r.printed; tape = r.tape; marks = r.marks; frames = r.frames; unspent = r.unspent } };

    fn from(own: Record) -> FrameRecord {
        FrameRecord {
            line: own.line,
            height: own.height,
            calls: own.calls,
            words: own.words,
            printed: own.printed,
            tape: own.tape,
            marks: own.marks,
            frames: own.frames,
            unspent: own.unspent,
        }
    }
}

impl From<FrameRecord> for Record {
    ghost from_gives = { λ r own. own ≡ record { line = r.line; height = r.height; calls = r.calls; words = r.words; printed = r.printed; tape = r.tape; marks = r.marks; frames = r.frames; unspent = r.unspent } };

    fn from(lent: FrameRecord) -> Record {
        Record {
            line: lent.line,
            height: lent.height,
            calls: lent.calls,
            words: lent.words,
            printed: lent.printed,
            tape: lent.tape,
            marks: lent.marks,
            frames: lent.frames,
            unspent: lent.unspent,
        }
    }
}

// What a part of a run of frames answers.
#[repr(C)]
#[derive(Drop)]
pub struct FramesAnswer {
    pub number: u32,
    pub position: u64,
    pub frames: u64,
    pub words: usize,
    pub printed: usize,
    pub pause: FrameRecord,
}

impl From<Answer> for FramesAnswer {
    ghost from_gives = { λ a told. (a.number ≡ told.number) × (a.position ≡ told.position) × (a.frames ≡ told.frames) × (a.words ≡ told.words)
        × (a.printed ≡ told.printed) × (a.pause ≡ record {
          line = told.pause.line;
          height = told.pause.height;
          calls = told.pause.calls;
          words = told.pause.words;
          printed = told.pause.printed;
          tape = told.pause.tape;
          marks = told.pause.marks;
          frames = told.pause.frames;
          unspent = told.pause.unspent;
        }) };

    fn from(answer: Answer) -> FramesAnswer {
        FramesAnswer {
            number: answer.number,
            position: answer.position,
            frames: answer.frames,
            words: answer.words,
            printed: answer.printed,
            pause: FrameRecord::from(answer.pause),
        }
    }
}

// The version of the header that belongs to this library.
#[unsafe(no_mangle)]
pub extern "C" fn engine_version() -> u32
    ensures { result ≡ 5 }
{
    VERSION
}

// The operation Read.
#[unsafe(no_mangle)]
pub extern "C" fn engine_read(source: &[u8], table: &mut [u32]) -> ReadAnswer
    ensures { Reads source.now table.old
        (record { number = result.number; position = result.position; tokens = result.tokens; nodes = result.nodes }) table.new }
{
    ReadAnswer::from(read(source, table))
}

// The operation Check.
#[unsafe(no_mangle)]
pub extern "C" fn engine_check(source: &[u8], table: &mut [u32]) -> CheckAnswer
    ensures { Checks source.now table.old
        (record { number = result.number; position = result.position; classes = result.classes }) table.new }
{
    CheckAnswer::from(check(source, table))
}

// The operation Menu.
#[unsafe(no_mangle)]
pub extern "C" fn engine_menu(source: &[u8], table: &mut [u32], strip: &mut [u32]) -> CheckAnswer
    ensures { Menus source.now table.old strip.old
        (record { number = result.number; position = result.position; classes = result.classes }) table.new strip.new }
{
    CheckAnswer::from(menu(source, table, strip))
}

// The operation Run.
#[unsafe(no_mangle)]
pub extern "C" fn engine_run(
    source: &[u8],
    table: &mut [u32],
    limits: Limits,
    heap: &mut [i32],
    output: &mut [i32],
    registers: &mut [u8],
    tape: &[u8],
) -> RunAnswer
    ensures { Runs source.now limits.budget limits.calls tape.now
        (strips table.old heap.old output.old registers.old)
        (record { number = result.number; position = result.position; steps = result.steps; climbs = result.climbs; words = result.words; printed = result.printed })
        (strips table.new heap.new output.new registers.new) }
{
    RunAnswer::from(run::run(
        source,
        table,
        limits.budget,
        limits.calls,
        heap,
        output,
        registers,
        tape,
    ))
}

// The operation Join.
#[unsafe(no_mangle)]
pub extern "C" fn engine_join(
    source: &[u8],
    table: &mut [u32],
    library: &[u8],
    strip: &mut [u8],
) -> WriteAnswer
    ensures { Joins source.now library.now table.old strip.old
        (record { number = result.number; position = result.position; count = result.count }) table.new strip.new }
{
    WriteAnswer::from(join(source, table, library, strip))
}

// The operation Print.
#[unsafe(no_mangle)]
pub extern "C" fn engine_print(source: &[u8], table: &mut [u32], strip: &mut [u8]) -> WriteAnswer
    ensures { Prints source.now table.old strip.old
        (record { number = result.number; position = result.position; count = result.count }) table.new strip.new }
{
    WriteAnswer::from(print(source, table, strip))
}

// The operation Encode.
#[unsafe(no_mangle)]
pub extern "C" fn engine_encode(source: &[u8], table: &mut [u32], frames: &mut [u8]) -> WriteAnswer
    ensures { Encodes source.now table.old frames.old
        (record { number = result.number; position = result.position; count = result.count }) table.new frames.new }
{
    WriteAnswer::from(encode(source, table, frames))
}

// A run of frames, or its first part.
#[unsafe(no_mangle)]
pub extern "C" fn engine_run_frames(
    frames: &[u8],
    limits: FrameLimits,
    heap: &mut [i32],
    output: &mut [i32],
    registers: &mut [u8],
    tape: &[u8],
    stack: &mut [u64],
) -> FramesAnswer
    ensures { RunsFrames frames.now tape.now (record { budget = limits.budget; calls = limits.calls; price = limits.price })
        (record { heap = heap.old; output = output.old; registers = registers.old; stack = stack.old })
        (record {
          number = result.number;
          position = result.position;
          frames = result.frames;
          words = result.words;
          printed = result.printed;
          pause = record {
            line = result.pause.line;
            height = result.pause.height;
            calls = result.pause.calls;
            words = result.pause.words;
            printed = result.pause.printed;
            tape = result.pause.tape;
            marks = result.pause.marks;
            frames = result.pause.frames;
            unspent = result.pause.unspent;
          };
          strips = record { heap = heap.new; output = output.new; registers = registers.new; stack = stack.new };
        }) }
{
    FramesAnswer::from(player::run::run(
        frames,
        limits.into(),
        heap,
        output,
        registers,
        tape,
        stack,
    ))
}

// A further part of a run of frames.
#[unsafe(no_mangle)]
pub extern "C" fn engine_continue_frames(
    frames: &[u8],
    from: FrameRecord,
    limits: FrameLimits,
    heap: &mut [i32],
    output: &mut [i32],
    registers: &mut [u8],
    tape: &[u8],
    stack: &mut [u64],
) -> FramesAnswer
    ensures { ContinuesFrames frames.now tape.now (record { budget = limits.budget; calls = limits.calls; price = limits.price })
        (record {
          line = from.line;
          height = from.height;
          calls = from.calls;
          words = from.words;
          printed = from.printed;
          tape = from.tape;
          marks = from.marks;
          frames = from.frames;
          unspent = from.unspent;
        })
        (record { heap = heap.old; output = output.old; registers = registers.old; stack = stack.old })
        (record {
          number = result.number;
          position = result.position;
          frames = result.frames;
          words = result.words;
          printed = result.printed;
          pause = record {
            line = result.pause.line;
            height = result.pause.height;
            calls = result.pause.calls;
            words = result.pause.words;
            printed = result.pause.printed;
            tape = result.pause.tape;
            marks = result.pause.marks;
            frames = result.pause.frames;
            unspent = result.pause.unspent;
          };
          strips = record { heap = heap.new; output = output.new; registers = registers.new; stack = stack.new };
        }) }
{
    FramesAnswer::from(player::run::resume(
        frames,
        limits.into(),
        heap,
        output,
        registers,
        tape,
        stack,
        from.into(),
    ))
}
