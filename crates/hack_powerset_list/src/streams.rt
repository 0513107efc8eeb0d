//! What a feature map is read from: any reader, and one that also counts how often it fails.

ghost use Rattle.std.specs.Prelude.{◌≡◌, ◌≢◌, ℕ, List, Option, None, Some, IfErr, IfOk, length};
ghost use Rattle.std.specs.Io.{ReadsAtMost};
ghost use Rattle.std.specs.Io.KnownBytes.{ReadConsumes};
ghost use Rattle.std.specs.IoError.{error_kind};
ghost use Rattle.std.specs.declared.io.ErrorKind.TheVariants.{Interrupted};
ghost use Rattle.hack_base.specs.Writes.{CountsErrors, CountsFailure};
ghost use Rattle.hack_powerset_list.specs.CommandList.{IsInput};
ghost use Rattle.hack_powerset_list.specs.Streams.{CountsUnlessMemory};

use std::alloc::{AllocError, Global};
use std::io;
use std::io::{ErrorKind, Read};

/// What a feature map is read from.
pub trait Source {
    /// The bytes that are left, if the type shows them.
    ghost remaining: { Self → Option (List ℕ) };

    /// How often reading failed, if the type counts it. At 2^64 - 1 the count stays.
    ghost failed: { Self → Option ℕ };

    /// Reads some bytes, and returns how many. None are given only at the end, or if there is no
    /// room for one.
    fn read_some(&mut self, bytes: &mut [u8]) -> io::Result<usize>
        ensures bound { ReadsAtMost result bytes.new }
        ensures bytes { ReadConsumes (remaining self.old) (remaining self.new) result bytes.new }
        ensures counted { CountsFailure (failed self.old) (failed self.new) result };
}

impl<R: Read> Source for R {
    ghost remaining = { R.remaining };

    ghost failed = { λ _. None };

    fn read_some(&mut self, bytes: &mut [u8]) -> io::Result<usize> {
        self.read(bytes)
    }
}

/// A reader whose failures are counted.
#[derive(Drop)]
pub struct CountedReader<'a, R> {
    pub stream: &'a mut R,
    /// How often it failed.
    pub failed: u64,
}

impl<R: Read> Source for CountedReader<'_, R> {
    ghost remaining = { λ counted. R.remaining counted.stream.now };

    ghost failed = { λ counted. Some counted.failed };

    fn read_some(&mut self, bytes: &mut [u8]) -> io::Result<usize> {
        match self.stream.read(bytes) {
            Ok(n) => Ok(n),
            Err(error) => {
                self.failed = self.failed.saturating_add(1);
                Err(error)
            }
        }
    }
}

/// How many bytes are read at a time, at most.
const ROOM: usize = 32_768;

/// Room for this many bytes.
fn room_for(alloc: Global, bytes: usize) -> Result<Vec<u8>, AllocError>
    ensures { IfOk result (λ room. length room.items ≡ bytes) }
{
    vec![in alloc; 0; bytes]
}

/// Reads some bytes, again where that was interrupted.
fn read_again<R: Source>(bytes: &mut [u8], source: &mut R) -> io::Result<usize>
    ensures bound { ReadsAtMost result bytes.new }
    ensures bytes { ReadConsumes (R.remaining source.old) (R.remaining source.new)
        result bytes.new }
    ensures retried { IfErr result (λ fault. error_kind fault ≢ Interrupted) }
    ensures counted { CountsErrors (R.failed source.old) (R.failed source.new) result }
{
    for _ in 0..u64::MAX {
        match source.read_some(bytes) {
            Ok(n) => return Ok(n),
            Err(fault) => {
                if fault.kind() != ErrorKind::Interrupted {
                    return Err(fault);
                }
            }
        }
    }
    Err(io::Error::from(ErrorKind::TimedOut))
}

/// Reads all bytes that are left. The kind of the error is `OutOfMemory` if memory is refused; an
/// interrupted read is tried again.
pub fn read_whole<R: Source>(alloc: Global, source: &mut R) -> io::Result<Vec<u8>>
    ensures bytes { IfOk result (λ bytes. IsInput (R.remaining source.old) bytes.items) }
    ensures retried { IfErr result (λ error. error_kind error ≢ Interrupted) }
    ensures counted { CountsUnlessMemory (R.failed source.old) (R.failed source.new) result }
{
    let mut room = room_for(alloc, ROOM)?;
    let mut whole = Vec::new(alloc);
    loop {
        let n = read_again(room.as_mut_slice(), source)?;
        if n == 0 {
            return Ok(whole);
        }
        whole.extend_from_slice(&room[..n])?;
    }
}
