//! The input of a case.
use crate::hex::hex;
use crate::trouble::Trouble;
use std::alloc::Global;

/// The bytes of an input, and the line that they end in, or with its newline the last one.
#[derive(Drop)]
pub(crate) struct CaseInput {
    bytes: Vec<u8>,
    line: Vec<u8>,
    is_ended: bool,
}

impl CaseInput {
    /// No input.
    pub(crate) fn new(alloc: Global) -> CaseInput {
        CaseInput {
            bytes: Vec::new(alloc),
            line: Vec::new(alloc),
            is_ended: true,
        }
    }

    /// The whole input.
    pub(crate) fn as_slice(&self) -> &[u8] {
        self.bytes.as_slice()
    }

    /// Adds bytes to the line, a new one where the last one has its newline.
    fn add(&mut self, piece: &[u8]) -> Result<(), Trouble> {
        if self.is_ended {
            self.line.clear();
            self.is_ended = false;
        }
        self.line.extend_from_slice(piece)?;
        self.bytes.extend_from_slice(piece)?;
        Ok(())
    }

    /// Adds bytes to the line, so many times.
    fn add_times(&mut self, count: u64, piece: &[u8]) -> Result<(), Trouble> {
        for _ in 0..count {
            self.add(piece)?;
        }
        Ok(())
    }

    /// Adds the newline.
    fn end(&mut self) -> Result<(), Trouble> {
        self.add(b"\n")?;
        self.is_ended = true;
        Ok(())
    }

    /// Adds the last line again, so many times.
    fn again(&mut self, count: u64) -> Result<(), Trouble> {
        for _ in 0..count {
            self.bytes.extend_from_slice(&self.line)?;
        }
        Ok(())
    }

    /// Takes a line of a text whose mark begins with `>`.
    pub(crate) fn take(&mut self, alloc: Global, mark: &str, rest: &str) -> Result<(), Trouble> {
        match mark {
            ">" => {
                self.add(rest.as_bytes())?;
                self.end()
            }
            ">x" => {
                self.add(&hex(alloc, rest)?)?;
                self.end()
            }
            ">+" => self.add(rest.as_bytes()),
            ">x+" => self.add(&hex(alloc, rest)?),
            ">*" => {
                let (count, piece) = rest.split_once(' ').ok_or(Trouble::BadLine)?;
                self.add_times(number(count)?, piece.as_bytes())
            }
            ">again" => self.again(number(rest)?),
            _ => Err(Trouble::BadLine),
        }
    }
}

/// A number in decimal digits.
pub(crate) fn number(digits: &str) -> Result<u64, Trouble> {
    match digits.parse::<u64>() {
        Ok(number) => Ok(number),
        Err(_) => Err(Trouble::BadLine),
    }
}
