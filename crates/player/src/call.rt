// Calls: the receiver and its arguments, the line of the method, the entries.
ghost use Rattle.std.specs.Prelude.{◌≡◌, ◌+◌, ◌/◌, ◌≤◌, ◌<◌, length};
ghost use Rattle.player.specs.promises.Turning.{Stands, CalledOn, Dispatched, Opened, Enters, OnCall};
ghost use Rattle.base.specs.Codes.{calls_most};
ghost use Rattle.frames.specs.Machine.{all_words_lem};
ghost use Rattle.frames.specs.Numbers.{values_from};

use crate::around::Around;
use crate::heap::{cell, header};
use crate::lines::entry_at;
use crate::stack::word;
use crate::state::{CALL, Machine, PLACES, RETURN, ROW, VALUES, WORDS};
use base::refusal::Reason;

// The operand is the table's line times this, and how many arguments there are.
const COUNTS: u32 = 256;

// Whether all entries of a part of the strip are words.
fn all_words(entries: &[u64]) -> bool
    ensures { result ≡ all_words_lem entries.now }
{
    entries.iter().all(|entry| *entry < WORDS)
}

// The receiver of a call of n arguments; 70 where a value is missing, or there are more arguments than a row has places.
fn called_on(stack: &[u64], height: usize, n: usize) -> Result<u32, Reason>
    requires { (values_from + height ≤ length stack.now) × (n < 256) }
    ensures { CalledOn stack.now height n result }
{
    if ROW < n || height < n + 1 {
        return Err(Reason::FrameFault);
    }
    let first = VALUES + (height - n);
    if !all_words(&stack[first..first + n]) {
        return Err(Reason::FrameFault);
    }
    word(stack[first - 1])
}

// The line that a call of this receiver goes to: its class is its header, and the table has a line for each class.
fn dispatched(
    around: Around<'_>,
    heap: &[i32],
    words: usize,
    receiver: u32,
    table: u32,
) -> Result<u32, Reason>
    requires { (words ≤ length heap.now) × (table < 16777216) }
    ensures { Dispatched around.entry.text.now heap.now words receiver table result }
{
    let at = header(receiver, words)?;
    let class = cell(heap, at);
    entry_at(around, table as usize + class as usize)
}

// The entries of a call: receiver, return line, the n arguments that lie from a place on, zeros.
fn open_call(stack: &mut [u64], at: usize, receiver: u64, back: u64, from: usize, n: usize)
    requires { (at + 34 ≤ from) × (from + n ≤ length stack.old) × (n ≤ 32) }
    ensures { Opened at receiver back from n stack.old stack.new }
{
    stack[at] = receiver;
    stack[at + RETURN] = back;
    let row = at + PLACES;
    stack.copy_within(from..from + n, row);
    let rest = row + n;
    let end = at + CALL;
    stack[rest..end].fill(0);
}

// A call is opened, unless as many are open as the limit.
fn enter(
    stack: &mut [u64],
    m: Machine,
    limit: usize,
    n: usize,
    receiver: u32,
    line: u32,
) -> Result<Machine, Option<Reason>>
    requires { Stands m stack.old × (limit ≤ calls_most) × (n ≤ 32)
        × (n + 1 ≤ m.height) }
    ensures { Enters limit m n receiver line stack.old stack.new result }
{
    if limit <= m.calls {
        return Err(Some(Reason::CallsFull));
    }
    let from = VALUES + (m.height - n);
    open_call(
        stack,
        CALL * m.calls,
        receiver as u64,
        m.line as u64 + 1,
        from,
        n,
    );
    Ok(Machine {
        line: line as usize,
        height: m.height - (n + 1),
        calls: m.calls + 1,
        ..m
    })
}

// 12 call.
pub fn call(
    around: Around<'_>,
    stack: &mut [u64],
    heap: &[i32],
    m: Machine,
    x: u32,
) -> Result<Machine, Option<Reason>>
    requires { Stands m stack.old × (m.words ≤ length heap.now) × (around.limit ≤ calls_most) }
    ensures { OnCall around.entry.text.now around.entry.limit x m stack.old stack.new heap.now result }
{
    let n = (x % COUNTS) as usize;
    let r = called_on(stack, m.height, n)?;
    let line = dispatched(around, heap, m.words, r, x / COUNTS)?;
    enter(stack, m, around.limit, n, r, line)
}
