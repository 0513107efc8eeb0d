//! A whole call of the program `powerset-list`: its arguments, its streams and its exit status.

ghost use Rattle.std.specs.Prelude.{◌≡◌, ◌⊎◌, drop, OnOk, IfOk, IfErr};
ghost use Rattle.std.specs.Vec.Iter.{into_iter_items};
ghost use Rattle.hack_base.specs.Streams.{stream_of};
ghost use Rattle.hack_base.specs.Writes.{NoFewer};
ghost use Rattle.hack_powerset_list.specs.Endings.{EndsWithList, EndsWithError, RefusesCall};
ghost use Rattle.hack_powerset_list.specs.Endings.{WritesForCall};
ghost use Rattle.hack_powerset_list.specs.Streams.{IsCounted};

use crate::fault::ListFault;
use crate::list::powerset_list;
use crate::streams::Source;
use hack_base::writes::Sink;
use std::alloc::{AllocError, Global};
use std::env::Args;
use std::io;

/// How a call ends.
#[derive(Clone, Copy, Debug)]
pub struct Ending {
    /// The exit status: 1 after an error, else 0.
    pub status: u8,
    /// Whether the line that reports the error was written in full; true if there was no error.
    pub told: bool,
}

/// The arguments after the program's name.
fn words_of(alloc: Global, arguments: Args) -> Result<Vec<String>, AllocError>
    ensures { IfOk result (λ words. words.items ≡ drop 1 (into_iter_items arguments)) }
{
    arguments.skip(1).collect(alloc)
}

/// Writes the list that the arguments ask for. The error says why it isn't written, or only a front
/// of it.
fn list_for<R: Source, W: Sink>(
    alloc: Global,
    arguments: io::Result<Args>,
    input: &mut R,
    out: &mut W,
) -> Result<(), ListFault>
    ensures ok { OnOk result (WritesForCall arguments
        (R.remaining input.old) (W.contents out.old) (W.contents out.new)) }
    ensures err { IfErr result (RefusesCall arguments
        (R.remaining input.old) (W.contents out.old) (W.contents out.new)) }
    ensures counted { IfErr result (IsCounted (R.failed input.old) (R.failed input.new)
        (W.failed out.old) (W.failed out.new)) }
    ensures kept { NoFewer (R.failed input.old) (R.failed input.new)
        × NoFewer (W.failed out.old) (W.failed out.new) }
{
    match arguments {
        Ok(all) => {
            let words = words_of(alloc, all)?;
            powerset_list(alloc, words.as_slice(), input, out)
        }
        Err(error) => Err(ListFault::of_error(&error, ListFault::NotText)),
    }
}

/// Does what the program `powerset-list` does: calls `powerset_list` with the arguments after the
/// first, which is the program's name. `arguments` is what `env::args` returns. An error is
/// reported by a line on `err`.
pub fn call_powerset_list<R: Source, W: Sink, E: Sink>(
    alloc: Global,
    arguments: io::Result<Args>,
    input: &mut R,
    out: &mut W,
    err: &mut E,
) -> Ending
    ensures ended { EndsWithList arguments
        (R.remaining input.old) (W.contents out.old) (W.contents out.new)
        (stream_of E.Sink err.old) (stream_of E.Sink err.new) result
        ⊎ EndsWithError arguments (R.remaining input.old) (W.contents out.old) (W.contents out.new)
        (IsCounted (R.failed input.old) (R.failed input.new) (W.failed out.old) (W.failed out.new))
        (stream_of E.Sink err.old) (stream_of E.Sink err.new) result }
    ensures kept { NoFewer (R.failed input.old) (R.failed input.new)
        × NoFewer (W.failed out.old) (W.failed out.new) }
{
    match list_for(alloc, arguments, input, out) {
        Ok(()) => Ending {
            status: 0,
            told: true,
        },
        Err(fault) => Ending {
            status: 1,
            told: fault.tell(err).is_ok(),
        },
    }
}
