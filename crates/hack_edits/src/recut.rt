//! Whether what is left of a key's piece is cut again as one piece with that key.

ghost use Rattle.std.specs.Prelude.{◌≡◌, false, IfOk, IsTrue, IsFalse};
ghost use Rattle.hack_base.specs.Names.{names_of};
ghost use Rattle.hack_edits.specs.LeftPieces.{EndsInFeed, KeepsKey};

use hack_manifest::path::{path_of, starts_table};
use hack_manifest::runs::first_run;
use std::alloc::{AllocError, Global};

/// Whether a piece and what is left of it are known to be a key with its value, of the same names,
/// each one piece.
pub fn keeps_key(alloc: Global, piece: &str, part: &str) -> Result<bool, AllocError>
    ensures { IfOk result (λ b. IsTrue b → KeepsKey piece.now part.now) }
{
    if starts_table(piece) || starts_table(part) {
        return Ok(false);
    }
    if ends_in_feed(piece) && !ends_in_feed(part) {
        return Ok(false);
    }
    let Some(n) = first_run(alloc, part)? else {
        return Ok(false);
    };
    if n != part.len() {
        return Ok(false);
    }
    let names = path_of(alloc, &[], piece)?;
    let kept = path_of(alloc, &[], part)?;
    Ok(are_same(&names, &kept))
}

/// Whether a text ends in a line feed.
fn ends_in_feed(text: &str) -> bool
    ensures yes { IsTrue result → EndsInFeed text.now }
    ensures no { IsFalse result → EndsInFeed text.now → ⊥ }
{
    let n = text.len();
    n != 0 && text.as_bytes()[n - 1] == b'\n'
}

/// Whether these are the same names, in the same order.
fn are_same(names: &[String], others: &[String]) -> bool
    ensures { IsTrue result → names_of names.now ≡ names_of others.now }
{
    names == others
}
