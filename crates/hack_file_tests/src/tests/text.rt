//! Texts as rows show them, each on one line.
//!
//! There `\n` is a line feed, `\r` a carriage return, `\t` a tab, `\0` a byte 0, `\b` a byte order
//! mark, `\d` a delete, and `\\` a backslash.

use std::alloc::{AllocError, Global};

/// The text that a row shows.
pub fn plain(alloc: Global, shown: &str) -> Result<String, AllocError> {
    let mut text = String::new(alloc);
    push_plain(&mut text, shown)?;
    Ok(text)
}

/// Appends the text that a row shows.
pub fn push_plain(text: &mut String, shown: &str) -> Result<(), AllocError> {
    let mut is_marked = false;
    for c in shown.chars() {
        if c == '\\' && !is_marked {
            is_marked = true;
        } else {
            text.push(letter(c, is_marked))?;
            is_marked = false;
        }
    }
    Ok(())
}

fn letter(c: char, is_marked: bool) -> char {
    match c {
        'n' if is_marked => '\n',
        'r' if is_marked => '\r',
        't' if is_marked => '\t',
        '0' if is_marked => '\0',
        'b' if is_marked => '\u{feff}',
        'd' if is_marked => '\u{7f}',
        c => c,
    }
}

/// A text as a row shows it.
pub fn shown(alloc: Global, plain: &str) -> Result<String, AllocError> {
    let mut text = String::new(alloc);
    push_shown(&mut text, plain)?;
    Ok(text)
}

/// Appends a text as a row shows it.
pub fn push_shown(text: &mut String, plain: &str) -> Result<(), AllocError> {
    for c in plain.chars() {
        match c {
            '\n' => text.push_str("\\n")?,
            '\r' => text.push_str("\\r")?,
            '\t' => text.push_str("\\t")?,
            '\0' => text.push_str("\\0")?,
            '\u{feff}' => text.push_str("\\b")?,
            '\u{7f}' => text.push_str("\\d")?,
            '\\' => text.push_str("\\\\")?,
            c => text.push(c)?,
        }
    }
    Ok(())
}

/// Appends quoted bytes to a text.
pub fn push_quoted(text: &mut String, alloc: Global, bytes: &[u8]) -> Result<(), AllocError> {
    let plain = String::from_utf8_lossy(alloc, bytes)?;
    text.push('\'')?;
    push_shown(text, plain.as_str())?;
    text.push('\'')
}

/// Quoted bytes.
pub fn quoted(alloc: Global, bytes: &[u8]) -> Result<String, AllocError> {
    let mut text = String::new(alloc);
    push_quoted(&mut text, alloc, bytes)?;
    Ok(text)
}

pub fn number(alloc: Global, number: u64) -> Result<String, AllocError> {
    format!(in alloc; "{number}")
}

/// The number that a row shows; the greatest number where it shows none.
pub fn number_of(shown: &str) -> u64 {
    shown.parse::<u64>().unwrap_or(u64::MAX)
}
