//! A writer in memory of which one write fails.

use crate::asks::halves;
use std::alloc::{AllocError, Global};
use std::io;
use std::io::{ErrorKind, Write};

/// Takes three bytes at a time, except for one write, which fails.
#[derive(Drop)]
pub struct Page {
    bytes: Vec<u8>,
    /// How often it was written to.
    pub writes: u64,
    /// The write that fails, from 0.
    fails_at: u64,
    /// The error of that write; none where it takes nothing.
    fault: Option<ErrorKind>,
}

impl Write for Page {
    fn write(&mut self, buf: &[u8]) -> io::Result<usize> {
        let turn = self.writes;
        self.writes = turn.saturating_add(1);
        if turn == self.fails_at {
            return match self.fault {
                Some(kind) => Err(io::Error::from(kind)),
                None => Ok(0),
            };
        }
        let n = buf.len().min(3);
        for byte in &buf[..n] {
            self.bytes.push(*byte)?;
        }
        Ok(n)
    }

    fn flush(&mut self) -> io::Result<()> {
        Ok(())
    }
}

impl Page {
    /// A page that is `interrupted at N`, `broken at N` or `full at N`; one that never fails where
    /// the text is none of these.
    pub fn new(alloc: Global, text: &str) -> Page {
        let (how, place) = halves(text, " at ");
        let fault = match how {
            "interrupted" => Some(ErrorKind::Interrupted),
            "broken" => Some(ErrorKind::BrokenPipe),
            _ => None,
        };
        Page {
            bytes: Vec::new(alloc),
            writes: 0,
            fails_at: place.parse::<u64>().unwrap_or(u64::MAX),
            fault,
        }
    }

    /// What was written, with `\n` for a line feed and `\e` for an escape.
    pub fn text(&self, alloc: Global) -> Result<String, AllocError> {
        let mut text = String::new(alloc);
        for letter in String::from_utf8_lossy(alloc, self.bytes.as_slice())?.chars() {
            match letter {
                '\n' => text.push_str("\\n")?,
                '\x1b' => text.push_str("\\e")?,
                letter => text.push(letter)?,
            }
        }
        Ok(text)
    }
}

/// How a write ended.
pub fn name_of(written: io::Result<()>) -> &'static str {
    match written {
        Ok(()) => "ok",
        Err(fault) => kind_name(fault.kind()),
    }
}

fn kind_name(kind: ErrorKind) -> &'static str {
    match kind {
        ErrorKind::BrokenPipe => "broken",
        ErrorKind::WriteZero => "takes nothing",
        ErrorKind::Interrupted => "interrupted",
        _ => "another fault",
    }
}
