//! A reader and a writer that fail.

use std::alloc::Global;
use std::io;
use std::io::{ErrorKind, Read, Write};

/// Gives bytes one at a time.
#[derive(Drop)]
pub struct Source<'a> {
    pub bytes: &'a [u8],
    /// How many bytes were given.
    pub at: usize,
    /// How it fails after the last byte; none where it ends there.
    pub fault: Option<ErrorKind>,
    /// Whether every other call is interrupted, beginning with the first.
    pub is_interrupted: bool,
    pub interrupts: bool,
}

impl<'a> Source<'a> {
    pub fn new(bytes: &'a [u8], fault: Option<ErrorKind>) -> Source<'a> {
        Source {
            bytes,
            at: 0,
            fault,
            is_interrupted: false,
            interrupts: false,
        }
    }
}

impl Read for Source<'_> {
    fn read(&mut self, buf: &mut [u8]) -> io::Result<usize> {
        self.interrupts = self.is_interrupted && !self.interrupts;
        if self.interrupts {
            return Err(io::Error::from(ErrorKind::Interrupted));
        }
        match self.bytes.get(self.at) {
            Some(byte) if !buf.is_empty() => {
                buf[0] = *byte;
                self.at = self.at.saturating_add(1);
                Ok(1)
            }
            _ => match self.fault {
                Some(kind) => Err(io::Error::from(kind)),
                None => Ok(0),
            },
        }
    }
}

/// Fails at once.
#[derive(Drop)]
pub struct Broken {
    pub fault: ErrorKind,
}

impl Read for Broken {
    fn read(&mut self, _buf: &mut [u8]) -> io::Result<usize> {
        Err(io::Error::from(self.fault))
    }
}

/// How much is taken at a time.
#[derive(Drop)]
pub enum Takes {
    Bytes(usize),
    Line,
}

impl Takes {
    fn most(&self, bytes: &[u8]) -> usize {
        match self {
            Takes::Bytes(most) => *most,
            Takes::Line => match bytes.iter().position(|byte| *byte == b'\n') {
                Some(place) => place.saturating_add(1),
                None => bytes.len(),
            },
        }
    }
}

/// Takes a part of the bytes at a time, and fails where there is no more room.
#[derive(Drop)]
pub struct Page {
    pub bytes: Vec<u8>,
    pub room: usize,
    pub fault: ErrorKind,
    pub takes: Takes,
    /// Whether every other call of `write` is interrupted, beginning with the first.
    pub is_interrupted: bool,
    pub interrupts: bool,
    /// The error of `flush`, if it fails.
    pub flush: Option<ErrorKind>,
}

impl Page {
    pub fn new(alloc: Global, room: usize, fault: ErrorKind) -> Page {
        Page {
            bytes: Vec::new(alloc),
            room,
            fault,
            takes: Takes::Bytes(5),
            is_interrupted: false,
            interrupts: false,
            flush: None,
        }
    }
}

impl Write for Page {
    fn write(&mut self, buf: &[u8]) -> io::Result<usize> {
        self.interrupts = self.is_interrupted && !self.interrupts;
        if self.interrupts {
            return Err(io::Error::from(ErrorKind::Interrupted));
        }
        let left = self.room.saturating_sub(self.bytes.len());
        if left == 0 {
            return Err(io::Error::from(self.fault));
        }
        let n = buf.len().min(left).min(self.takes.most(buf));
        self.bytes.extend_from_slice(&buf[..n])?;
        Ok(n)
    }

    fn flush(&mut self) -> io::Result<()> {
        match self.flush {
            Some(kind) => Err(io::Error::from(kind)),
            None => Ok(()),
        }
    }
}

/// The kind with this short name.
pub fn kind_of(name: &str) -> ErrorKind {
    match name {
        "memory" => ErrorKind::OutOfMemory,
        "interrupted" => ErrorKind::Interrupted,
        "end" => ErrorKind::UnexpectedEof,
        "data" => ErrorKind::InvalidData,
        "full" => ErrorKind::StorageFull,
        "pipe" => ErrorKind::BrokenPipe,
        _ => ErrorKind::Other,
    }
}

/// All kinds but out of memory and the one after which a call is tried again.
pub static OTHER_KINDS: [ErrorKind; 40] = [
    ErrorKind::NotFound,
    ErrorKind::PermissionDenied,
    ErrorKind::ConnectionRefused,
    ErrorKind::ConnectionReset,
    ErrorKind::HostUnreachable,
    ErrorKind::NetworkUnreachable,
    ErrorKind::ConnectionAborted,
    ErrorKind::NotConnected,
    ErrorKind::AddrInUse,
    ErrorKind::AddrNotAvailable,
    ErrorKind::NetworkDown,
    ErrorKind::BrokenPipe,
    ErrorKind::AlreadyExists,
    ErrorKind::WouldBlock,
    ErrorKind::NotADirectory,
    ErrorKind::IsADirectory,
    ErrorKind::DirectoryNotEmpty,
    ErrorKind::ReadOnlyFilesystem,
    ErrorKind::FilesystemLoop,
    ErrorKind::StaleNetworkFileHandle,
    ErrorKind::InvalidInput,
    ErrorKind::InvalidData,
    ErrorKind::TimedOut,
    ErrorKind::WriteZero,
    ErrorKind::StorageFull,
    ErrorKind::NotSeekable,
    ErrorKind::QuotaExceeded,
    ErrorKind::FileTooLarge,
    ErrorKind::ResourceBusy,
    ErrorKind::ExecutableFileBusy,
    ErrorKind::Deadlock,
    ErrorKind::CrossesDevices,
    ErrorKind::TooManyLinks,
    ErrorKind::InvalidFilename,
    ErrorKind::ArgumentListTooLong,
    ErrorKind::Unsupported,
    ErrorKind::UnexpectedEof,
    ErrorKind::InProgress,
    ErrorKind::Other,
    ErrorKind::Uncategorized,
];
