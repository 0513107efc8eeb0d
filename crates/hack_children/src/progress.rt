//! One line on a terminal, which says how many commands have ended and how many run. It is written
//! again in place, and erased before anything else is written.

use std::io;
use std::io::Write;

/// How many pauses there are from line to line.
const PAUSES: u8 = 20;

/// The line, and whether it is on the terminal now.
#[derive(Drop)]
pub struct Progress {
    is_shown: bool,
    pauses: u8,
}

impl Progress {
    /// No line yet.
    pub fn new() -> Self {
        Progress {
            is_shown: false,
            pauses: 0,
        }
    }

    /// Writes the line anew where that is due. A write that fails is let go.
    pub fn pause<W: Write>(&mut self, ended: usize, running: usize, terminal: &mut W) {
        self.pauses = self.pauses.wrapping_add(1);
        if self.pauses < PAUSES {
            return;
        }
        self.pauses = 0;
        self.is_shown = true;
        let _ = write_line(ended, running, terminal);
    }

    /// Erases the line, if it is there.
    pub fn erase<W: Write>(&mut self, terminal: &mut W) {
        if self.is_shown {
            self.is_shown = false;
            let _ = terminal.write_all(b"\r\x1b[K");
        }
    }
}

fn write_line<W: Write>(ended: usize, running: usize, terminal: &mut W) -> io::Result<()> {
    write!(terminal, "\r{ended} ended, {running} running\x1b[K")
}
