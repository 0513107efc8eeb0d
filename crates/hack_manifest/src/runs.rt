//! Runs of whole lines that `toml` reads by themselves: where the first piece of a text ends.

ghost use Rattle.std.specs.Prelude.{◌≡◌, ◌↔◌, ◌≤◌, ℕ, false, IsTrue, IfOk, IfSome, IfNone, length};
ghost use Rattle.std.specs.Prelude.{take};
ghost use Rattle.hack_manifest.specs.LineRuns.{stands, IsLines, IsRun, IsShortest};
ghost use Rattle.hack_manifest.specs.Internal.{behind};
ghost use Rattle.hack_manifest.specs.declared.places.ScanState.TheVariants.{Start};

use crate::places::{ScanState, may_stand, step};
use crate::plain::is_plain_pair;
use std::alloc::{AllocError, Global};

/// Whether `toml` reads the text by itself as a document with a nonempty tree.
pub fn stands_alone(alloc: Global, text: &str) -> Result<bool, AllocError>
    ensures { IfOk result (λ b. b ≡ stands text.now) }
{
    match toml::table_from_str(alloc, text) {
        Ok(table) => Ok(!table.is_empty()),
        Err(e) => {
            if e.is_memory() {
                Err(AllocError)
            } else {
                Ok(false)
            }
        }
    }
}

/// Whether the first n bytes are whole lines.
fn ends_line(text: &str, n: usize) -> bool
    requires { n ≤ length text.now }
    ensures { IsTrue result ↔ IsLines text.now n }
{
    n != 0 && (n == text.len() || text.as_bytes()[n - 1] == b'\n')
}

/// Whether a text parses alone, given the scanner's state after it.
fn stands_at(alloc: Global, place: ScanState, text: &str) -> Result<bool, AllocError>
    requires { place ≡ behind Start text.now }
    ensures { IfOk result (λ b. b ≡ stands text.now) }
{
    if !may_stand(place) {
        return Ok(false);
    }
    if is_plain_pair(alloc, text) {
        return Ok(true);
    }
    stands_alone(alloc, text)
}

/// Whether the first n bytes, after which the scanner has this state, are whole lines that parse
/// alone.
fn run_stands(alloc: Global, place: ScanState, text: &str, n: usize) -> Result<bool, AllocError>
    requires within { n ≤ length text.now }
    requires place { place ≡ behind Start (take n text.now) }
    ensures yes { IfOk result (λ b. IsTrue b → IsRun text.now n) }
    ensures no { IfOk result (λ b. b ≡ false → IsRun text.now n → ⊥) }
{
    if ends_line(text, n) {
        stands_at(alloc, place, &text[..n])
    } else {
        Ok(false)
    }
}

/// The length of the shortest run of whole lines that parses alone.
pub fn first_run(alloc: Global, text: &str) -> Result<Option<usize>, AllocError>
    ensures found { IfOk result (λ o. IfSome o (IsShortest (IsRun text.now))) }
    ensures none { IfOk result (λ o. IfNone o ((m : ℕ) → IsRun text.now m → ⊥)) }
{
    let bytes = text.as_bytes();
    let mut place = ScanState::Start;
    for i in 0..bytes.len() {
        place = step(place, bytes[i]);
        if run_stands(alloc, place, text, i + 1)? {
            return Ok(Some(i + 1));
        }
    }
    Ok(None)
}
