// The operations: a run from its begin, and one that goes on from a record.
ghost use Rattle.std.specs.Prelude.{◌≡◌, ◌+◌, ◌/◌, ◌≤◌, ◌<◌, leb};
ghost use Rattle.player.specs.Answering.{Runs, Continues, strips_of};
ghost use Rattle.player.specs.promises.Ending.{far_line, started_from, recorded_of, none_of, refusal_of, is_price, Lent, Fits, Answered};
ghost use Rattle.player.specs.promises.Ending.{EndsAs, PartFrom, Parted, Cleared, Admitted, Begun, GoesOn};
ghost use Rattle.base.specs.promises.Refusals.{number_of};
ghost use Rattle.frames.specs.Numbers.{budget_most, values_from};

use crate::around::Around;
use crate::lines::{DECODED, LINE, Line, form};
use crate::rounds::{Meter, rounds};
use crate::state::{Machine, SUCCESS, VALUES};
use base::bounds::{CALLS_MOST, HEAP_MOST};
use base::refusal::{Reason, Refusal};
use device::state::{REGISTERS, show};

// The number of a pause.
const BUDGET_SPENT: u32 = Reason::BudgetSpent as u32;

// The bounds of what is lent, and of all that a run can spend.
const STACK_LEAST: usize = 140000;

const MARKS_MOST: usize = 99;

const BUDGET_MOST: u64 = 4294967295;

// The budget, the call limit and the price of a part.
#[derive(Clone, Copy)]
pub struct Limits {
    pub budget: u32,
    pub calls: usize,
    pub price: u32,
}

// Where a run is. At its begin, and after every end but 50, all of it is 0. Its fields stand flat, as in the record of the C interface that
// `engine_continue_frames` takes and hands back, so a machine is made of it and it of a machine field by field.
#[derive(Clone, Copy, Default)]
pub struct Record {
    pub line: usize,
    pub height: usize,
    pub calls: usize,
    pub words: usize,
    pub printed: usize,
    pub tape: usize,
    pub marks: usize,
    pub frames: u64,
    pub unspent: u64,
}

// Number, position, frames, heap words, printed count, and where the run is.
#[derive(Drop, Default)]
pub struct Answer {
    pub number: u32,
    pub position: u64,
    pub frames: u64,
    pub words: usize,
    pub printed: usize,
    pub pause: Record,
}

// An answer that touches nothing.
fn refused(refusal: Refusal) -> Answer
    ensures { result ≡ refusal_of (number_of refusal.reason) refusal.position }
{
    Answer {
        number: refusal.number(),
        position: refusal.position as u64,
        ..Answer::default()
    }
}

// Whether this is a price of a call.
fn priced(price: u32) -> bool
    ensures { result ≡ is_price price }
{
    price == 1 || price == 10
}

// 2, 3, 62, 72, 68.
fn fit(limits: Limits, heap: usize, registers: usize, stack: usize) -> Result<(), Reason>
    ensures { Lent limits heap registers stack result }
{
    if limits.calls < 1 || CALLS_MOST < limits.calls {
        return Err(Reason::CallLimitOutOfRange);
    }
    if HEAP_MOST < heap {
        return Err(Reason::HeapTooLong);
    }
    if registers != REGISTERS {
        return Err(Reason::RegistersNotSixteen);
    }
    if !priced(limits.price) {
        return Err(Reason::PriceUnfit);
    }
    if stack < STACK_LEAST {
        return Err(Reason::FramesTooShort);
    }
    Ok(())
}

// Whether the counts of a record and a budget are together at most 4294967295.
fn affordable(frames: u64, unspent: u64, budget: u64) -> bool
    ensures { result ≡ leb (frames + unspent + budget) budget_most }
{
    frames <= BUDGET_MOST
        && unspent <= BUDGET_MOST - frames
        && budget <= BUDGET_MOST - frames - unspent
}

// Whether a record fits.
fn fits(
    r: Record,
    limits: Limits,
    count: usize,
    stack: usize,
    heap: usize,
    output: usize,
    tape: usize,
) -> bool
    requires { values_from ≤ stack }
    ensures { Fits r limits count stack heap output tape result }
{
    r.line < count
        && r.height <= stack - VALUES
        && r.calls <= limits.calls
        && r.words <= heap
        && r.printed <= output
        && r.tape <= tape
        && affordable(r.frames, r.unspent, limits.budget as u64)
        && r.marks <= MARKS_MOST
}

// The numbers that a record says.
fn started(r: Record) -> Machine
    ensures { result ≡ started_from r }
{
    Machine {
        line: r.line,
        height: r.height,
        calls: r.calls,
        words: r.words,
        printed: r.printed,
        tape: r.tape,
        marks: r.marks,
    }
}

// The record of a run that pauses.
fn recorded(e: Meter) -> Record
    ensures { result ≡ recorded_of e }
{
    let m = e.machine;
    Record {
        line: m.line,
        height: m.height,
        calls: m.calls,
        words: m.words,
        printed: m.printed,
        tape: m.tape,
        marks: m.marks,
        frames: e.frames,
        unspent: e.left,
    }
}

// The answer at the end of a part.
fn answered(e: Meter, pause: Record) -> Answer
    requires { e.machine.line < far_line }
    ensures { Answered e pause result }
{
    let m = e.machine;
    let position = if e.number == SUCCESS {
        0
    } else {
        m.line as u64 * LINE as u64
    };
    Answer {
        number: e.number,
        position,
        frames: e.frames,
        words: m.words,
        printed: m.printed,
        pause,
    }
}

// What a part leaves: all of it where it pauses, else heap strip and stack strip all 0.
fn ended(heap: &mut [i32], stack: &mut [u64], e: Meter) -> Answer
    requires { e.machine.line < far_line }
    ensures { EndsAs e stack.old stack.new heap.old heap.new result }
{
    if e.number == BUDGET_SPENT {
        return answered(e, recorded(e));
    }
    heap.fill(0);
    stack.fill(0);
    answered(e, Record::default())
}

// A part from a record on.
fn part(
    text: &[u8],
    decoded: &[Line; DECODED],
    tape: &[u8],
    limits: Limits,
    heap: &mut [i32],
    output: &mut [i32],
    registers: &mut [u8],
    stack: &mut [u64],
    r: Record,
) -> Answer
    requires { PartFrom text.now decoded.now tape.now limits r heap.old output.old registers.old stack.old }
    ensures { Parted text.now tape.now limits r
        (strips_of heap.old output.old registers.old stack.old)
        (strips_of heap.new output.new registers.new stack.new) result }
{
    let from = started(r);
    let around = Around {
        text,
        decoded,
        count: text.len() / LINE,
        tape,
        limit: limits.calls,
    };
    let e = rounds(
        around,
        limits.price as u64,
        stack,
        heap,
        output,
        registers,
        from,
        r.frames,
        r.unspent + limits.budget as u64,
    );
    ended(heap, stack, e)
}

// Heap strip, stack strip and register strip all 0.
fn clear(heap: &mut [i32], registers: &mut [u8], stack: &mut [u64])
    ensures { Cleared heap.old heap.new registers.old registers.new stack.old
        stack.new }
{
    heap.fill(0);
    registers.fill(0);
    stack.fill(0);
}

// The first part, over a text of the form.
fn begin(
    text: &[u8],
    decoded: &[Line; DECODED],
    tape: &[u8],
    limits: Limits,
    heap: &mut [i32],
    output: &mut [i32],
    registers: &mut [u8],
    stack: &mut [u64],
) -> Answer
    requires { Admitted text.now decoded.now limits registers.old stack.old }
    ensures { Begun text.now tape.now limits
        (strips_of heap.old output.old registers.old stack.old)
        (strips_of heap.new output.new registers.new stack.new) result }
{
    clear(heap, registers, stack);
    part(
        text,
        decoded,
        tape,
        limits,
        heap,
        output,
        registers,
        stack,
        Record::default(),
    )
}

// A further part, over a text of the form.
fn go_on(
    text: &[u8],
    decoded: &[Line; DECODED],
    tape: &[u8],
    limits: Limits,
    heap: &mut [i32],
    output: &mut [i32],
    registers: &mut [u8],
    stack: &mut [u64],
    r: Record,
) -> Answer
    requires { Admitted text.now decoded.now limits registers.old stack.old }
    ensures { GoesOn text.now tape.now limits r
        (strips_of heap.old output.old registers.old stack.old)
        (strips_of heap.new output.new registers.new stack.new) result }
{
    let count = text.len() / LINE;
    if !fits(
        r,
        limits,
        count,
        stack.len(),
        heap.len(),
        output.len(),
        tape.len(),
    ) {
        return refused(Refusal {
            reason: Reason::RecordUnfit,
            position: 0,
        });
    }
    show(registers);
    part(
        text, decoded, tape, limits, heap, output, registers, stack, r,
    )
}

// A run from its begin.
pub fn run(
    text: &[u8],
    limits: Limits,
    heap: &mut [i32],
    output: &mut [i32],
    registers: &mut [u8],
    tape: &[u8],
    stack: &mut [u64],
) -> Answer
    ensures { Runs text.now tape.now limits
        (strips_of heap.old output.old registers.old stack.old)
        (strips_of heap.new output.new registers.new stack.new) result }
{
    if let Err(reason) = fit(limits, heap.len(), registers.len(), stack.len()) {
        return refused(Refusal {
            reason,
            position: 0,
        });
    }
    let mut decoded = [Line::default(); DECODED];
    if let Err(refusal) = form(text, &mut decoded) {
        return refused(refusal);
    }
    begin(text, &decoded, tape, limits, heap, output, registers, stack)
}

// A run from a record on.
pub fn resume(
    text: &[u8],
    limits: Limits,
    heap: &mut [i32],
    output: &mut [i32],
    registers: &mut [u8],
    tape: &[u8],
    stack: &mut [u64],
    r: Record,
) -> Answer
    ensures { Continues text.now tape.now limits r
        (strips_of heap.old output.old registers.old stack.old)
        (strips_of heap.new output.new registers.new stack.new) result }
{
    if let Err(reason) = fit(limits, heap.len(), registers.len(), stack.len()) {
        return refused(Refusal {
            reason,
            position: 0,
        });
    }
    let mut decoded = [Line::default(); DECODED];
    if let Err(refusal) = form(text, &mut decoded) {
        return refused(refusal);
    }
    go_on(
        text, &decoded, tape, limits, heap, output, registers, stack, r,
    )
}
