// What can be wrong with a case, and why a case gets no answer.
use std::{fmt, io};

// What can be wrong with a case.
#[derive(Clone, Copy, Debug, PartialEq, Eq)]
pub enum Wrong {
    Input,
    LineLength,
    Operation,
    Missing,
    Surplus,
    Number,
    TableLength,
    StripLength,
    HeapLength,
    OutputLength,
    RegistersLength,
    Odd,
    Digit,
}

impl fmt::Display for Wrong {
    fn fmt<W: fmt::Write>(&self, f: &mut fmt::Formatter<W>) -> fmt::Result {
        let text = match self {
            Wrong::Input => "the input cannot be read",
            Wrong::LineLength => "line too long",
            Wrong::Operation => "unknown operation",
            Wrong::Missing => "word missing",
            Wrong::Surplus => "too many words",
            Wrong::Number => "malformed number",
            Wrong::TableLength => "table too large",
            Wrong::StripLength => "strip too large",
            Wrong::HeapLength => "heap strip too large",
            Wrong::OutputLength => "output strip too large",
            Wrong::RegistersLength => "register strip too large",
            Wrong::Odd => "odd number of hexadecimal digits",
            Wrong::Digit => "bad hexadecimal digit",
        };
        f.write_str(text)
    }
}

// Why a case gets no answer: something is wrong with it, or what is written does not go out.
#[derive(Drop)]
pub enum Failure {
    Wrong(Wrong),
    Io(io::Error),
}

impl From<Wrong> for Failure {
    fn from(wrong: Wrong) -> Failure {
        Failure::Wrong(wrong)
    }
}

impl From<io::Error> for Failure {
    fn from(e: io::Error) -> Failure {
        Failure::Io(e)
    }
}
