// The numbers of a run, by value, and where things stand on the stack strip.
ghost use Rattle.std.specs.Prelude.{◌≡◌, ◌≤◌, ◌<◌};
ghost use Rattle.base.specs.Codes.{calls_most};
ghost use Rattle.player.specs.promises.Turning.{number_in, Inner, NoOperand};

use base::refusal::Reason;

// Past every word.
pub const WORDS: u64 = 4294967296;

// The places of a row, and the entries of a call: its receiver, its return line, its row.
pub const ROW: usize = 32;

pub const CALL: usize = 34;

// Where the return line and the row of a call begin.
pub const RETURN: usize = 1;

pub const PLACES: usize = 2;

// Where the values begin on the stack strip, behind the calls.
pub const VALUES: usize = 2176;

// The record's numbers without the counts.
#[derive(Clone, Copy)]
pub struct Machine {
    pub line: usize,
    pub height: usize,
    pub calls: usize,
    pub words: usize,
    pub printed: usize,
    pub tape: usize,
    pub marks: usize,
}

// The number of a halt.
pub const SUCCESS: u32 = 0;

// The number of what ends a run; where it halts, there is no reason.
pub fn number(end: Option<Reason>) -> u32
    ensures { result ≡ number_in end }
{
    match end {
        Some(reason) => u32::from(reason),
        None => SUCCESS,
    }
}

// Where the entries of the last call begin; 70 where no call is open.
pub fn last_call(m: Machine) -> Result<usize, Reason>
    requires { m.calls ≤ calls_most }
    ensures { Inner m result }
{
    if m.calls < 1 {
        return Err(Reason::FrameFault);
    }
    Ok(CALL * (m.calls - 1))
}

// 70 where a frame that takes no operand has one.
pub fn no_operand(x: u64) -> Result<(), Reason>
    ensures { NoOperand x result }
{
    if 0 < x {
        return Err(Reason::FrameFault);
    }
    Ok(())
}
