//! Rows: in which mode a tool is run, which tool, and its words.
use crate::tool::Tool;
use std::alloc::{AllocError, Global};

/// What a run reads, and how.
#[derive(Clone, Copy)]
pub(crate) enum Mode {
    /// The file itself.
    File,
    /// The bytes of the file, in memory.
    Memory,
    /// The bytes in memory, of which a call reads or writes at most one.
    Bytewise,
    /// The bytes in memory, in many runs, in each of which another read fails.
    EachRead,
    /// The bytes in memory, in many runs, in each of which another write fails. A call reads or writes at most one byte.
    EachWrite,
}

impl Mode {
    /// The mode that a word in front of a tool names.
    fn named(word: &str) -> Option<Mode> {
        match word {
            "memory" => Some(Mode::Memory),
            "bytewise" => Some(Mode::Bytewise),
            "each-read" => Some(Mode::EachRead),
            "each-write" => Some(Mode::EachWrite),
            _ => None,
        }
    }
}

/// A tool, its words, and how it is run.
#[derive(Drop)]
pub(crate) struct Row {
    pub(crate) mode: Mode,
    pub(crate) tool: Tool,
    pub(crate) words: Vec<String>,
}

impl Row {
    /// The row of a line, if it is one: perhaps a mode, the tool, and its words, with a blank between each two.
    pub(crate) fn read(alloc: Global, line: &str) -> Result<Option<Row>, AllocError> {
        match line.split_once(' ') {
            Some((first, rest)) => match Mode::named(first) {
                Some(mode) => command(alloc, mode, rest),
                None => command(alloc, Mode::File, line),
            },
            None => command(alloc, Mode::File, line),
        }
    }
}

/// The row of a tool and its words.
fn command(alloc: Global, mode: Mode, line: &str) -> Result<Option<Row>, AllocError> {
    let mut parts = line.split(' ');
    let Some(tool) = parts.next().and_then(Tool::named) else {
        return Ok(None);
    };
    let mut words = Vec::new(alloc);
    for word in parts {
        words.push(String::from_str(alloc, word)?)?;
    }
    Ok(Some(Row { mode, tool, words }))
}
