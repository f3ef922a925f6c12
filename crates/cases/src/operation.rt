// The operations that a case can name, and how many words a case of each has.
use crate::wrong::Wrong;
use std::cmp::Ordering;

// What a case asks for.
#[derive(Clone, Copy, Debug, PartialEq, Eq)]
pub enum Operation {
    Read,
    Check,
    Menu,
    Run,
    Join,
    Print,
}

impl Operation {
    // The operation that the first word of a line names.
    pub fn named(word: &[u8]) -> Result<Operation, Wrong> {
        match word {
            b"read" => Ok(Operation::Read),
            b"check" => Ok(Operation::Check),
            b"menu" => Ok(Operation::Menu),
            b"run" => Ok(Operation::Run),
            b"join" => Ok(Operation::Join),
            b"print" => Ok(Operation::Print),
            _ => Err(Wrong::Operation),
        }
    }

    // How many words a case has.
    fn words(self) -> usize {
        match self {
            Operation::Read | Operation::Check => 3,
            Operation::Menu | Operation::Print => 4,
            Operation::Join => 5,
            Operation::Run => 9,
        }
    }

    // Whether a case has as many words as it should.
    pub fn fits(self, count: usize) -> Result<(), Wrong> {
        match count.cmp(&self.words()) {
            Ordering::Less => Err(Wrong::Missing),
            Ordering::Equal => Ok(()),
            Ordering::Greater => Err(Wrong::Surplus),
        }
    }
}
