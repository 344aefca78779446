//! One case: the arguments, the files and the faults of one run in memory.

use anyhow::{Context, Result, bail};
use edge_io::{MemShelf, MemSink};
use std::alloc::Global;
use topos_top::Status;

/// The result of a run.
#[derive(Drop)]
pub struct Ending {
    pub status: Status,
    pub out: MemSink,
    pub err: MemSink,
}

#[derive(Drop)]
struct File {
    name: String,
    bytes: Vec<u8>,
}

/// A case after some of its lines are parsed; or no case, which has no name.
#[derive(Drop)]
pub struct Case {
    name: Option<String>,
    asks: bool,
    words: Vec<String>,
    files: Vec<File>,
    shelf_fails: Vec<u32>,
    out_fails: Vec<u32>,
    err_fails: Vec<u32>,
    room: usize,
    grain: usize,
}

/// The default capacity of a sink, and the default size of one write.
const AMPLE: usize = 1 << 20;

impl Case {
    /// Returns a case without arguments and files, in which nothing fails.
    pub fn new(alloc: Global, name: &str) -> Result<Case> {
        Ok(Case {
            name: Some(name.to_string(alloc)?),
            ..Case::none(alloc)
        })
    }

    /// Returns the value for no case.
    pub fn none(alloc: Global) -> Case {
        Case {
            name: None,
            asks: false,
            words: Vec::new(alloc),
            files: Vec::new(alloc),
            shelf_fails: Vec::new(alloc),
            out_fails: Vec::new(alloc),
            err_fails: Vec::new(alloc),
            room: AMPLE,
            grain: AMPLE,
        }
    }

    /// Returns the name, if it is a case.
    pub fn name(&self) -> Option<&str> {
        self.name.as_ref().map(|name| name.as_str())
    }

    /// Parses one line of the case.
    pub fn read(&mut self, alloc: Global, line: &str) -> Result<()> {
        if let Some(text) = line.strip_prefix("|") {
            self.add(text.as_bytes())?;
            return self.add(b"\n");
        }
        if let Some(text) = line.strip_prefix(">") {
            return self.add(text.as_bytes());
        }
        let (key, value) = line.split_once(" ").unwrap_or((line, ""));
        match key {
            "" | "#" => Ok(()),
            _ if self.name.is_none() => bail!("outside a case: {line}"),
            "query" => {
                self.asks = true;
                Ok(())
            }
            "word" => Ok(self.words.push(value.to_string(alloc)?)?),
            "file" => self.begin(alloc, value),
            "fill" => self.fill(value, b""),
            "lines" => self.fill(value, b"\n"),
            "each" => self.add_each(alloc, value),
            "byte" => self.add(&[value.parse().context("a byte")?]),
            "shelf" => Ok(self.shelf_fails.push(value.parse().context("a call")?)?),
            "out" => Ok(self.out_fails.push(value.parse().context("a call")?)?),
            "err" => Ok(self.err_fails.push(value.parse().context("a call")?)?),
            _ => self.set(key, value),
        }
    }

    fn set(&mut self, key: &str, value: &str) -> Result<()> {
        let count = value.parse().context("a count")?;
        match key {
            "room" => self.room = count,
            "grain" => self.grain = count,
            _ => bail!("no such line: {key}"),
        }
        Ok(())
    }

    fn begin(&mut self, alloc: Global, name: &str) -> Result<()> {
        let name = name.to_string(alloc)?;
        self.files.push(File {
            name,
            bytes: Vec::new(alloc),
        })?;
        Ok(())
    }

    // Appends the text a number of times, each time followed by `end`.
    fn fill(&mut self, value: &str, end: &[u8]) -> Result<()> {
        let (count, text) = value.split_once(" ").context("a count and a text")?;
        for _ in 0..count.parse::<u32>().context("a count")? {
            self.add(text.as_bytes())?;
            self.add(end)?;
        }
        Ok(())
    }

    // Appends a line for each number between the two, inclusive.
    fn add_each(&mut self, alloc: Global, value: &str) -> Result<()> {
        let (first, rest) = value.split_once(" ").context("two numbers and a text")?;
        let (last, text) = rest.split_once(" ").context("two numbers and a text")?;
        let first = first.parse::<u32>().context("the first number")?;
        let last = last.parse::<u32>().context("the last number")?;
        for number in first..=last {
            self.add_numbered(alloc, text, number)?;
        }
        Ok(())
    }

    // Appends the text as a line, with the number in place of each `{}`, and the next number in
    // place of each `{+}`.
    fn add_numbered(&mut self, alloc: Global, text: &str, number: u32) -> Result<()> {
        for part in text.split_inclusive("}") {
            if let Some(before) = part.strip_suffix("{}") {
                self.add(format!(in alloc; "{before}{number}")?.as_bytes())?;
            } else if let Some(before) = part.strip_suffix("{+}") {
                let next = u64::from(number) + 1;
                self.add(format!(in alloc; "{before}{next}")?.as_bytes())?;
            } else {
                self.add(part.as_bytes())?;
            }
        }
        self.add(b"\n")
    }

    fn add(&mut self, bytes: &[u8]) -> Result<()> {
        let file = self.files.last_mut().context("bytes without a file")?;
        file.bytes.extend_from_slice(bytes)?;
        Ok(())
    }

    /// Whether only the name of the case is known so far.
    pub fn is_empty(&self) -> bool {
        !self.asks
            && self.words.is_empty()
            && self.files.is_empty()
            && self.shelf_fails.is_empty()
            && self.out_fails.is_empty()
            && self.err_fails.is_empty()
            && self.room == AMPLE
            && self.grain == AMPLE
    }

    /// Returns the case with the program, the arguments and the files of another one, in which
    /// nothing fails.
    pub fn again(self, alloc: Global, before: Case) -> Case {
        Case {
            name: self.name,
            asks: before.asks,
            words: before.words,
            files: before.files,
            ..Case::none(alloc)
        }
    }

    /// Runs the program of the case on it.
    pub fn run(&self, alloc: Global) -> Result<Ending> {
        let mut shelf = MemShelf::new(alloc, self.shelf_fails.clone()?);
        for file in &self.files {
            shelf.put(file.name.as_str(), &file.bytes)?;
        }
        let mut out = MemSink::new(alloc, self.room, self.grain.max(1), self.out_fails.clone()?)?;
        let mut err = MemSink::new(alloc, AMPLE, AMPLE, self.err_fails.clone()?)?;
        let status = if self.asks {
            query_top::run(alloc, &self.words, &mut shelf, &mut out, &mut err)
        } else {
            topos_top::run(alloc, &self.words, &mut shelf, &mut out, &mut err)
        };
        Ok(Ending { status, out, err })
    }
}
