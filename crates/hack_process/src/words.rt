//! Collects the arguments of a command, and takes the line ends off the end of an answer.

ghost use Rattle.std.specs.Prelude.{◌≡◌, ◌++◌, ◌∷◌, ◌<◌, ◌-◌, [], IfOk, OnOk, IsTrue, length, map};
ghost use Rattle.std.specs.Prelude.{slice_index, string_bytes};
ghost use Rattle.std.specs.Bool.{OnTrue, OnFalse};
ghost use Rattle.hack_base.specs.Names.{optional_text};
ghost use Rattle.hack_process.specs.CommandTexts.{feature_words, marked_words};
ghost use Rattle.hack_process.specs.Internal.{with_name};
ghost use Rattle.hack_process.specs.Faults.{ends_line, without_line_ends};

use std::alloc::{AllocError, Global};

fn push_word<'b>(words: &mut Vec<&'b str>, word: &'b str) -> Result<(), AllocError>
    ensures { OnOk result (map (λ word. word.now) words.new.items
        ≡ map (λ word. word.now) words.old.items ++ word.now ∷ []) }
{
    words.push(word)?;
    Ok(())
}

/// Adds arguments, in order.
pub(crate) fn push_words<'b>(words: &mut Vec<&'b str>, more: &'b [String]) -> Result<(), AllocError>
    ensures { OnOk result (map (λ word. word.now) words.new.items
        ≡ map (λ word. word.now) words.old.items ++ map string_bytes more.now) }
{
    for word in more {
        push_word(words, word.as_str())?;
    }
    Ok(())
}

/// Adds `--features` and the features, where there are any.
pub(crate) fn push_features<'b>(
    words: &mut Vec<&'b str>,
    features: &'b Option<String>,
) -> Result<(), AllocError>
    ensures { OnOk result (map (λ word. word.now) words.new.items
        ≡ map (λ word. word.now) words.old.items
        ++ feature_words (optional_text features.now)) }
{
    match features {
        Some(names) => {
            push_word(words, "--features")?;
            push_word(words, names.as_str())?;
            Ok(())
        }
        None => Ok(()),
    }
}

/// Adds `--` and the trailing arguments, where there are any.
pub(crate) fn push_trailing<'b>(
    words: &mut Vec<&'b str>,
    trailing: &'b [String],
) -> Result<(), AllocError>
    ensures { OnOk result (map (λ word. word.now) words.new.items
        ≡ map (λ word. word.now) words.old.items ++ marked_words (map string_bytes trailing.now)) }
{
    if trailing.is_empty() {
        return Ok(());
    }
    push_word(words, "--")?;
    push_words(words, trailing)
}

/// Returns the features with one more name, after a comma.
pub(crate) fn longer(
    alloc: Global,
    features: Option<String>,
    name: &str,
) -> Result<String, AllocError>
    ensures { IfOk result (λ names. string_bytes names
        ≡ with_name (optional_text features) name.now) }
{
    match features {
        Some(mut names) => {
            names.push_str(",")?;
            names.push_str(name)?;
            Ok(names)
        }
        None => String::from_str(alloc, name),
    }
}

/// Returns the text without line feeds and carriage returns at its end.
pub(crate) fn without_ends(mut text: String) -> String
    ensures { string_bytes result ≡ without_line_ends (string_bytes text) }
{
    while ends_a_line(text.as_bytes()) {
        text.pop();
    }
    text
}

/// Returns whether there is a last byte, and it is a line feed or a carriage return.
fn ends_a_line(text: &[u8]) -> bool
    ensures yes { OnTrue result ((0 < length text.now)
        × IsTrue (ends_line (slice_index text.now (length text.now - 1)))) }
    ensures no { OnFalse result (0 < length text.now →
        ¬ IsTrue (ends_line (slice_index text.now (length text.now - 1)))) }
{
    match text {
        [.., last] => *last == b'\n' || *last == b'\r',
        [] => false,
    }
}
