// Frames over the row of the last call, its receiver and the receiver's fields.
ghost use Rattle.std.specs.Prelude.{◌+◌, ◌≤◌, ◌<◌, length};
ghost use Rattle.player.specs.promises.Turning.{Stands, OnStack, OnHeap, Field, Held};
ghost use Rattle.frames.specs.Machine.{do_load, do_save, do_self, do_return};
ghost use Rattle.base.specs.Codes.{calls_most};
ghost use Rattle.frames.specs.Numbers.{values_from, row_places};

use crate::heap::{cell, put_cell};
use crate::stack::{room, value, word};
use crate::state::{Machine, PLACES, RETURN, ROW, last_call, no_operand};
use base::refusal::Reason;

// The heap word of a field of a receiver; 70 where there is none.
fn field(receiver: u64, words: usize, x: usize) -> Result<usize, Reason>
    requires { (row_places ≤ x) × (x < 4294967296) }
    ensures { Field words receiver x result }
{
    let r = word(receiver)?;
    let j = r as usize + (x - ROW);
    if r < 1 || words <= j {
        return Err(Reason::FrameFault);
    }
    Ok(j)
}

// What a place of the call at `c` holds.
fn held(stack: &[u64], heap: &[i32], words: usize, c: usize, x: usize) -> Result<u32, Reason>
    requires { (c + 34 ≤ length stack.now) × (words ≤ length heap.now) × (x < 4294967296) }
    ensures { Held stack.now heap.now words c x result }
{
    if x < ROW {
        return word(stack[c + PLACES + x]);
    }
    let j = field(stack[c], words, x)?;
    Ok(cell(heap, j))
}

// 02 load.
pub fn load(stack: &mut [u64], heap: &[i32], m: Machine, x: u32) -> Result<Machine, Option<Reason>>
    requires { Stands m stack.old × (m.calls ≤ calls_most)
        × (m.words ≤ length heap.now) }
    ensures { OnHeap do_load x m stack.old stack.new heap.now heap.now result }
{
    let top = room(stack, m.height)?;
    let c = last_call(m)?;
    let v = held(stack, heap, m.words, c, x as usize)?;
    stack[top] = v as u64;
    Ok(Machine {
        line: m.line + 1,
        height: m.height + 1,
        ..m
    })
}

// 03 save.
pub fn save(
    stack: &mut [u64],
    heap: &mut [i32],
    m: Machine,
    x: u32,
) -> Result<Machine, Option<Reason>>
    requires { Stands m stack.old × (m.calls ≤ calls_most)
        × (m.words ≤ length heap.old) }
    ensures { OnHeap do_save x m stack.old stack.new heap.old heap.new result }
{
    let v = value(stack, m.height, 1)?;
    let c = last_call(m)?;
    let place = x as usize;
    let next = Machine {
        line: m.line + 1,
        height: m.height - 1,
        ..m
    };
    if place < ROW {
        let at = c + PLACES + place;
        stack[at] = v as u64;
        return Ok(next);
    }
    let j = field(stack[c], m.words, place)?;
    put_cell(heap, j, v);
    Ok(next)
}

// 04 self.
pub fn receiver(stack: &mut [u64], m: Machine, x: u64) -> Result<Machine, Option<Reason>>
    requires { Stands m stack.old × (m.calls ≤ calls_most) }
    ensures { OnStack do_self x m stack.old stack.new result }
{
    no_operand(x)?;
    let top = room(stack, m.height)?;
    let c = last_call(m)?;
    let r = word(stack[c])?;
    stack[top] = r as u64;
    Ok(Machine {
        line: m.line + 1,
        height: m.height + 1,
        ..m
    })
}

// 06 return.
pub fn back(stack: &[u64], m: Machine, x: u64) -> Result<Machine, Option<Reason>>
    requires { Stands m stack.now × (m.calls ≤ calls_most) }
    ensures { OnStack do_return x m stack.now stack.now result }
{
    no_operand(x)?;
    let c = last_call(m)?;
    let r = word(stack[c + RETURN])?;
    Ok(Machine {
        line: r as usize,
        calls: m.calls - 1,
        ..m
    })
}
