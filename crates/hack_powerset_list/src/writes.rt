//! Texts written one after the other, as far as a sink takes them.

ghost use Rattle.std.specs.Prelude.{OnOk, flat_map};
ghost use Rattle.std.specs.Io.KnownBytes.{Appends};
ghost use Rattle.hack_base.specs.Writes.{AppendsFront, CountsErrors};

use hack_base::writes::{Sink, write_front};
use std::io;

/// Writes texts one after the other, or a front of them all if a write fails.
pub fn write_texts<W: Sink>(texts: &[&str], out: &mut W) -> io::Result<()>
    ensures all { OnOk result (Appends (W.contents out.old) (W.contents out.new)
        (flat_map (λ text. text.now) texts.now)) }
    ensures front { AppendsFront (W.contents out.old) (W.contents out.new)
        (flat_map (λ text. text.now) texts.now) }
    ensures counted { CountsErrors (W.failed out.old) (W.failed out.new) result }
{
    for text in texts {
        write_front(*text, out)?;
    }
    Ok(())
}
