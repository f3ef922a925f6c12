// The operation run: `run TABLE BUDGET CALLS HEAP OUT REGS TAPE HEX` is answered by `NUMBER POSITION STEPS CLIMBS WORDS REGISTERS`, and
// where numbers were printed by ` :` and these.
use crate::{output, page, strip};
use base::refusal::Reason;
use runner::run::{RunAnswer, run};
use std::io::{self, Write};

// The limits of a case that are no lengths.
#[derive(Clone, Copy)]
pub struct Limits {
    pub budget: u32,
    pub calls: usize,
}

// What a run is lent.
#[derive(Drop)]
pub struct Lent<'a> {
    pub table: &'a mut [u32],
    pub heap: &'a mut [i32],
    pub printed: &'a mut [i32],
    pub registers: &'a mut [u8],
}

// The ends of a run beside success: all other numbers refuse the call.
const ENDS: [Reason; 9] = [
    Reason::NullReference,
    Reason::IndexOutOfRange,
    Reason::NegativeSize,
    Reason::RegisterOutOfRange,
    Reason::ValueOutOfRange,
    Reason::BudgetSpent,
    Reason::HeapFull,
    Reason::CallsFull,
    Reason::OutputFull,
];

impl Lent<'_> {
    fn fill(&mut self) {
        strip::fill(self.table);
        strip::fill(self.heap);
        strip::fill(self.printed);
        strip::fill(self.registers);
    }

    // Writes the registers that a run leaves, or `-` where the call was refused; and answers whether a refusal left them as they were.
    fn write_registers<W: Write>(&self, out: &mut W, number: u32) -> io::Result<bool> {
        if number == 0 || output::is_one_of(number, &ENDS) {
            page::write_bytes(out, self.registers)?;
            return Ok(true);
        }
        out.write_all(b"-")?;
        Ok(strip::is_marked(self.registers, 0))
    }

    // Writes the first `n` numbers of the output strip, and answers whether there are as many and the rest is as it was beforehand.
    fn write_printed<W: Write>(&self, out: &mut W, n: usize) -> io::Result<bool> {
        let Some(first) = self.printed.get(..n) else {
            return Ok(false);
        };
        output::list(out, first)?;
        Ok(strip::is_marked(self.printed, n))
    }

    // Writes the answer of a run, and looks at all that was lent to it.
    fn write<W: Write>(&self, out: &mut W, a: RunAnswer) -> io::Result<()> {
        let RunAnswer {
            number,
            position,
            steps,
            climbs,
            words,
            printed,
        } = a;
        write!(out, "{number} {position} {steps} {climbs} {words} ")?;
        let are_registers_right = self.write_registers(out, number)?;
        let is_output_right = self.write_printed(out, printed)?;
        let is_heap_right = strip::is_right(self.heap, number);
        let is_table_right = strip::is_right(self.table, number);
        output::end(
            out,
            are_registers_right && is_output_right && is_heap_right && is_table_right,
        )
    }
}

// Runs the source under limits with a tape, and writes the answer.
pub fn answer<W: Write>(
    out: &mut W,
    source: &[u8],
    limits: Limits,
    lent: &mut Lent,
    tape: &[u8],
) -> io::Result<()> {
    lent.fill();
    let a = run(
        source,
        lent.table,
        limits.budget,
        limits.calls,
        lent.heap,
        lent.printed,
        lent.registers,
        tape,
    );
    lent.write(out, a)
}
