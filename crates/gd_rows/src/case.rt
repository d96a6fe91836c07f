//! A case, as its text gives it.
use crate::hex::hex;
use crate::input::{CaseInput, number};
use crate::trouble::Trouble;
use gd_base::text::Text;
use std::alloc::Global;

/// The numbers of the calls that are to fail, each counted from 0.
#[derive(Drop)]
pub(crate) struct Failing {
    pub(crate) source: Vec<u64>,
    pub(crate) sink: Vec<u64>,
    pub(crate) disk: Vec<u64>,
    pub(crate) shelf: Vec<u64>,
}

/// How often a case is run: once, or once for each number of a table.
#[derive(Drop)]
pub(crate) enum Table {
    /// Once.
    Once,
    /// On disks of which the first calls work and no later one, until a run meets none that fails.
    Stops,
    /// On disks of which one call fails, until a run meets none.
    Fails,
    /// Over the first bytes of the file, for each number of them.
    Cuts,
    /// Over the file with one byte set to each of these, for each place.
    Bytes(Vec<u8>),
    /// With a source of which one call fails, until a run meets none.
    Source,
    /// With a sink of which one call fails, until a run meets none.
    Sink,
    /// This read, over what the case leaves, put away and taken up again after each step.
    Freezes(String),
}

/// What a run is given.
#[derive(Drop)]
pub(crate) struct Setting {
    pub(crate) name: String,
    pub(crate) words: Vec<Text>,
    pub(crate) file: Vec<u8>,
    pub(crate) clock: u64,
    pub(crate) gives: u64,
    pub(crate) takes: u64,
    pub(crate) last: u64,
    pub(crate) table: Table,
    pub(crate) failing: Failing,
}

/// A case: what its run is given, and its input.
#[derive(Drop)]
pub(crate) struct Case {
    pub(crate) setting: Setting,
    pub(crate) input: CaseInput,
}

/// Adds the words of a text, which blanks part.
fn push_words(alloc: Global, words: &mut Vec<Text>, text: &str) -> Result<(), Trouble> {
    for word in text.split_whitespace() {
        words.push(Text::new(alloc, word.as_bytes())?)?;
    }
    Ok(())
}

/// Adds the numbers of a text, which blanks part.
fn push_numbers(numbers: &mut Vec<u64>, text: &str) -> Result<(), Trouble> {
    for word in text.split_whitespace() {
        numbers.push(number(word)?)?;
    }
    Ok(())
}

impl Table {
    /// What stands behind `table`.
    fn of(alloc: Global, text: &str) -> Result<Table, Trouble> {
        match text {
            "stops" => Ok(Table::Stops),
            "fails" => Ok(Table::Fails),
            "cuts" => Ok(Table::Cuts),
            "source" => Ok(Table::Source),
            "sink" => Ok(Table::Sink),
            _ => Table::told(alloc, text),
        }
    }

    /// The same where it tells more than its name.
    fn told(alloc: Global, text: &str) -> Result<Table, Trouble> {
        let (name, rest) = text.split_once(' ').ok_or(Trouble::BadLine)?;
        match name {
            "bytes" => Ok(Table::Bytes(hex(alloc, rest)?)),
            "freezes" => Ok(Table::Freezes(String::from_str(alloc, rest)?)),
            _ => Err(Trouble::BadLine),
        }
    }
}

impl Failing {
    /// None fails.
    fn new(alloc: Global) -> Failing {
        Failing {
            source: Vec::new(alloc),
            sink: Vec::new(alloc),
            disk: Vec::new(alloc),
            shelf: Vec::new(alloc),
        }
    }

    /// Takes what stands behind `fails`.
    fn take(&mut self, text: &str) -> Result<(), Trouble> {
        let (whose, numbers) = text.split_once(' ').ok_or(Trouble::BadLine)?;
        let failing = match whose {
            "source" => &mut self.source,
            "sink" => &mut self.sink,
            "disk" => &mut self.disk,
            "shelf" => &mut self.shelf,
            _ => return Err(Trouble::BadLine),
        };
        push_numbers(failing, numbers)
    }
}

impl Setting {
    /// Takes a line of a text whose mark does not begin with `>`.
    fn take(&mut self, alloc: Global, mark: &str, rest: &str) -> Result<(), Trouble> {
        match mark {
            "words" => push_words(alloc, &mut self.words, rest)?,
            "word" => self.words.push(Text::new(alloc, rest.as_bytes())?)?,
            "file" => self.file = hex(alloc, rest)?,
            "clock" => self.clock = number(rest)?,
            "gives" => self.gives = number(rest)?,
            "takes" => self.takes = number(rest)?,
            "last" => self.last = number(rest)?,
            "fails" => self.failing.take(rest)?,
            "table" => self.table = Table::of(alloc, rest)?,
            _ => return Err(Trouble::BadLine),
        }
        Ok(())
    }
}

impl Case {
    /// The case of this name, without words, file and input.
    pub(crate) fn new(alloc: Global, name: &str) -> Result<Case, Trouble> {
        let setting = Setting {
            name: String::from_str(alloc, name)?,
            words: Vec::new(alloc),
            file: Vec::new(alloc),
            clock: 0,
            gives: u64::MAX,
            takes: u64::MAX,
            last: u64::MAX,
            table: Table::Once,
            failing: Failing::new(alloc),
        };
        Ok(Case {
            setting,
            input: CaseInput::new(alloc),
        })
    }

    /// Takes a line of its text.
    pub(crate) fn take(&mut self, alloc: Global, line: &str) -> Result<(), Trouble> {
        let (mark, rest) = line.split_once(' ').unwrap_or((line, ""));
        if mark.starts_with('>') {
            return self.input.take(alloc, mark, rest);
        }
        self.setting.take(alloc, mark, rest)
    }
}
