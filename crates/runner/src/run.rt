// The operation Run of document 01: a lesson is checked, and an accepted one is run within its limits.
ghost use Rattle.std.specs.Prelude.{◌≤◌, ◌<◌, ◌≡◌, length};
ghost use Rattle.base.specs.promises.Refusals.{number_of};
ghost use Rattle.base.specs.promises.Table.{rows};
ghost use Rattle.base.specs.Codes.{calls_most, heap_most, table_least, registers_count};
ghost use Rattle.reader.specs.promises.WalkPost.{Walkable};
ghost use Rattle.semantics.specs.Run.{Runs, refusal};
ghost use Rattle.writer.specs.promises.Posts.{room};
ghost use Rattle.runner.specs.promises.RunPost.{run_answer_of, strips, result_strips, LeftByCheck};
ghost use Rattle.runner.specs.promises.RunPost.{CompletesInRoom, Completes, Performed};

use base::bounds;
use base::refusal::{Reason, Refusal};
use device::state::REGISTERS;
use driver::program::{Lesson, ROWS};
use interpreter::execute::execute;
use interpreter::state::Bounds;
use lookup::sizes::Sizes;
use typecheck::check::find;
use writer::prepare::prepare;

// What Run answers: a result number and a position, the steps, how many classes the calls climbed through (at most the classes of the
// lesson for each step, so 64 bits hold it), the heap words and how many numbers were printed.
#[derive(Clone, Copy)]
pub struct RunAnswer {
    pub number: u32,
    pub position: usize,
    pub steps: usize,
    pub climbs: u64,
    pub words: usize,
    pub printed: usize,
}

// A refusal gives zero counts.
fn refusal(r: Refusal) -> RunAnswer
    ensures { run_answer_of result ≡ refusal (number_of r.reason) r.position }
{
    RunAnswer {
        number: r.number(),
        position: r.position,
        steps: 0,
        climbs: 0,
        words: 0,
        printed: 0,
    }
}

// What is lent does not fit.
fn unfit(reason: Reason) -> RunAnswer
    ensures { run_answer_of result ≡ refusal (number_of reason) 0 }
{
    refusal(Refusal {
        reason,
        position: 0,
    })
}

// Writes the code of the accepted lesson that the table holds, and runs it, in the room that is lent: four words for an instruction and
// four instructions for a token at most, a word for each joined instruction, and the values of main and of each open call, of which a
// body keeps at most one for two tokens; one more may be pushed.
fn compiled(
    table: &[u32],
    code: &mut [u32],
    fast: &mut [u64],
    values: &mut [u32],
    s: Sizes,
    b: Bounds,
    heap: &mut [i32],
    output: &mut [i32],
    registers: &mut [u8],
    tape: &[u8],
) -> RunAnswer
    requires { Walkable table.now s.tokens × (s.classes ≤ rows) × (length heap.old ≤ heap_most)
        × (b.calls ≤ calls_most) × (length fast.old ≤ room) × (length values.old ≤ 200000)
        × (length registers.old ≡ registers_count) }
    ensures { CompletesInRoom table.now code.old fast.old values.old s b
        tape.now heap.old (result_strips output.old registers.old) (run_answer_of result)
        (result_strips output.new registers.new) }
{
    let mut entries = [0u32; ROWS];
    prepare(table, code, &mut entries, s.tokens, s.classes);
    let lesson = Lesson {
        table,
        entries: &entries,
        sizes: s,
    };
    let e = execute(
        &lesson, code, fast, values, heap, output, registers, tape, b,
    );
    RunAnswer {
        number: e.number,
        position: e.position,
        steps: e.steps,
        climbs: e.climbs,
        words: e.words,
        printed: e.printed,
    }
}

// The words of an instruction.
const WORDS: usize = 4;

// Room for the largest lesson: places of code, and values of main and of each call.
const PLACES: usize = 8192;

const VALUES: usize = 1024;

// How many tokens a small lesson has at most, and the room for such.
const SMALL: usize = 125;

const SMALL_PLACES: usize = 512;

const SMALL_VALUES: usize = 63;

// Any lesson, in room that is enough for the largest.
fn wide(
    table: &[u32],
    s: Sizes,
    b: Bounds,
    heap: &mut [i32],
    output: &mut [i32],
    registers: &mut [u8],
    tape: &[u8],
) -> RunAnswer
    requires { Walkable table.now s.tokens × (s.classes ≤ rows) × (length heap.old ≤ heap_most)
        × (b.calls ≤ calls_most) × (length registers.old ≡ registers_count) }
    ensures { Completes table.now s b tape.now heap.old
        (result_strips output.old registers.old) (run_answer_of result)
        (result_strips output.new registers.new) }
{
    let mut code = [0u32; WORDS * PLACES];
    let mut fast = [0u64; PLACES];
    let mut values = [0u32; (1 + bounds::CALLS_MOST) * VALUES + 1];
    compiled(
        table,
        &mut code,
        &mut fast,
        &mut values,
        s,
        b,
        heap,
        output,
        registers,
        tape,
    )
}

// Runs the accepted lesson that the table holds: a small one in room that is enough for such, so that what is cleared for a run depends on
// the lesson.
fn accepted(
    table: &[u32],
    s: Sizes,
    b: Bounds,
    heap: &mut [i32],
    output: &mut [i32],
    registers: &mut [u8],
    tape: &[u8],
) -> RunAnswer
    requires { Walkable table.now s.tokens × (s.classes ≤ rows) × (length heap.old ≤ heap_most)
        × (b.calls ≤ calls_most) × (length registers.old ≡ registers_count) }
    ensures { Completes table.now s b tape.now heap.old
        (result_strips output.old registers.old) (run_answer_of result)
        (result_strips output.new registers.new) }
{
    if SMALL < s.tokens {
        return wide(table, s, b, heap, output, registers, tape);
    }
    let mut code = [0u32; WORDS * SMALL_PLACES];
    let mut fast = [0u64; SMALL_PLACES];
    let mut values = [0u32; (1 + bounds::CALLS_MOST) * SMALL_VALUES + 1];
    compiled(
        table,
        &mut code,
        &mut fast,
        &mut values,
        s,
        b,
        heap,
        output,
        registers,
        tape,
    )
}

// Checks the lesson where nothing is known of it, and then goes on with the sizes of an accepted one: it is run. The call that checks
// clears the table and the heap strip. It calls itself for the sake of the stack: the compiler puts no function that calls itself into
// its caller, and none with large arrays into one that calls itself. So the arrays of a run are not there yet while the lesson is read.
fn perform(
    source: &[u8],
    table: &mut [u32],
    b: Bounds,
    heap: &mut [i32],
    output: &mut [i32],
    registers: &mut [u8],
    tape: &[u8],
    known: Option<Sizes>,
) -> RunAnswer
    requires { (table_least ≤ length table.old) × (length heap.old ≤ heap_most) × (b.calls ≤ calls_most)
        × LeftByCheck source.now known table.old × (length registers.old ≡ registers_count) }
    ensures { Performed source.now known b tape.now table.old heap.old
        (result_strips output.old registers.old) (run_answer_of result) table.new heap.new
        (result_strips output.new registers.new) }
{
    if let Some(s) = known {
        return accepted(table, s, b, heap, output, registers, tape);
    }
    match find(source, table) {
        Ok(s) => {
            let r = perform(source, table, b, heap, output, registers, tape, Some(s));
            table.fill(0);
            heap.fill(0);
            r
        }
        Err(r) => {
            table.fill(0);
            heap.fill(0);
            refusal(r)
        }
    }
}

// The operation Run. 1 work table too short, 2 call limit not 1 to 64, 3 heap strip too long, 62 register strip not 16 bytes: these touch
// nothing.
pub fn run(
    source: &[u8],
    table: &mut [u32],
    budget: u32,
    calls: usize,
    heap: &mut [i32],
    output: &mut [i32],
    registers: &mut [u8],
    tape: &[u8],
) -> RunAnswer
    ensures { Runs source.now budget calls tape.now
        (strips table.old heap.old output.old registers.old)
        (run_answer_of result) (strips table.new heap.new output.new registers.new) }
{
    if table.len() < bounds::TABLE_LEAST {
        return unfit(Reason::TableTooShort);
    }
    if calls == 0 {
        return unfit(Reason::CallLimitOutOfRange);
    }
    if bounds::CALLS_MOST < calls {
        return unfit(Reason::CallLimitOutOfRange);
    }
    if bounds::HEAP_MOST < heap.len() {
        return unfit(Reason::HeapTooLong);
    }
    if registers.len() != REGISTERS {
        return unfit(Reason::RegistersNotSixteen);
    }
    let b = Bounds { budget, calls };
    perform(source, table, b, heap, output, registers, tape, None)
}
