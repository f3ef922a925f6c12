// Frames over the device and the output strip.
ghost use Rattle.std.specs.Prelude.{◌≡◌, ◌+◌, ◌≤◌, ◌<◌, length};
ghost use Rattle.device.specs.promises.Holding.{held_in, registers_of};
ghost use Rattle.frames.specs.Machine.{do_print, do_get, do_put};
ghost use Rattle.player.specs.promises.Turning.{many_lines, Stands, OnOutput, OnPort, Sampled, Marks};
ghost use Rattle.base.specs.Codes.{registers_count};
ghost use Rattle.frames.specs.Numbers.{values_from};

use crate::heap::put_cell;
use crate::stack::value;
use crate::state::{Machine, VALUES};
use base::refusal::Reason;
use device::state::{catch_up, get, put, show, value as held};

// How many registers there are, and how many values one can hold.
const REGISTERS: u32 = device::state::REGISTERS as u32;

const BYTES: u32 = 256;

// Marks from one sample to the next.
const PERIOD: usize = 100;

// 0f print.
pub fn print(
    stack: &[u64],
    output: &mut [i32],
    m: Machine,
    x: u64,
) -> Result<Machine, Option<Reason>>
    requires { Stands m stack.now × (m.printed < many_lines) }
    ensures { OnOutput do_print x m stack.now output.old output.new result }
{
    let v = value(stack, m.height, 1)?;
    if output.len() <= m.printed {
        return Err(Some(Reason::OutputFull));
    }
    put_cell(output, m.printed, v);
    Ok(Machine {
        line: m.line + 1,
        height: m.height - 1,
        printed: m.printed + 1,
        ..m
    })
}

// 14 put.
pub fn send(
    stack: &[u64],
    registers: &mut [u8],
    m: Machine,
    x: u64,
) -> Result<Machine, Option<Reason>>
    requires { Stands m stack.now × (length registers.old ≡ registers_count) }
    ensures { OnPort do_put x m stack.now stack.now registers.old registers.new result }
{
    let n = value(stack, m.height, 2)?;
    let v = value(stack, m.height, 1)?;
    if REGISTERS <= n {
        return Err(Some(Reason::RegisterOutOfRange));
    }
    if BYTES <= v {
        return Err(Some(Reason::ValueOutOfRange));
    }
    put(registers, n as usize, v as u8);
    show(registers);
    Ok(Machine {
        line: m.line + 1,
        height: m.height - 2,
        ..m
    })
}

// 13 get.
pub fn receive(
    stack: &mut [u64],
    registers: &mut [u8],
    m: Machine,
    x: u64,
) -> Result<Machine, Option<Reason>>
    requires { Stands m stack.old × (length registers.old ≡ registers_count) }
    ensures { OnPort do_get x m stack.old stack.new registers.old registers.new result }
{
    let n = value(stack, m.height, 1)?;
    if REGISTERS <= n {
        return Err(Some(Reason::RegisterOutOfRange));
    }
    let register = n as usize;
    let at = VALUES + (m.height - 1);
    stack[at] = held(registers, register) as u64;
    get(registers, register);
    show(registers);
    Ok(Machine {
        line: m.line + 1,
        ..m
    })
}

// A sample comes, where the tape has one more: how many were taken then.
fn sampled(tape: &[u8], registers: &mut [u8], taken: usize) -> usize
    requires { (length registers.old ≡ registers_count) × (registers_of (held_in registers.old 0) ≡ registers.old) }
    ensures { Sampled tape.now taken registers.old registers.new result }
{
    if taken < tape.len() {
        catch_up(&tape[taken..], registers, 0, PERIOD);
        show(registers);
        return taken + 1;
    }
    taken
}

// 00 mark.
pub fn mark(tape: &[u8], registers: &mut [u8], m: Machine, x: u64) -> Machine
    requires { (m.line < many_lines) × (m.marks ≤ 99) × (length registers.old ≡ registers_count)
        × (registers_of (held_in registers.old 0) ≡ registers.old) }
    ensures { Marks x tape.now m registers.old registers.new result }
{
    let marks = m.marks + 1;
    if marks < PERIOD {
        return Machine {
            line: m.line + 1,
            marks,
            ..m
        };
    }
    let taken = sampled(tape, registers, m.tape);
    Machine {
        line: m.line + 1,
        tape: taken,
        marks: 0,
        ..m
    }
}
