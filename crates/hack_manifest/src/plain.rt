//! Documents of one plain pair, for which `toml` needn't build a tree to show that they parse
//! alone.

ghost use Rattle.std.specs.Prelude.{◌≡◌, ◌<◌, ◌≤◌, true, false, Some, length, IsTrue, IfSome};
ghost use Rattle.std.specs.List.{prefix_len};
ghost use Rattle.toml.specs.Parse.{key_equals, atom, val, after_element};
ghost use Rattle.toml_parser.specs.Lexical.{is_bare, split_while};
ghost use Rattle.toml_parser.specs.Strings.{is_plain, starts_string};
ghost use Rattle.hack_manifest.specs.LineRuns.{stands};
ghost use Rattle.hack_manifest.specs.Keys.{IsBareName};
ghost use Rattle.hack_manifest.specs.Internal.{rest_of_read, IsBehindItems, is_over};

use crate::path::skip_mark;
use std::alloc::Global;
use toml_parser::text::{first, skip, skip_blank, skip_ws};
use toml_parser::{dotted_key, quoted, starts_string, unquoted};

/// Whether a text is a document of one key with a string, a boolean, a number, a date, or an array
/// of such. Where the result is false, `toml` has to be asked.
pub fn is_plain_pair(alloc: Global, text: &str) -> bool
    ensures { IsTrue result → stands text.now ≡ true }
{
    let start = skip_blank(skip_mark(text), true);
    match behind_key(alloc, start) {
        Some(value) => match behind_value(alloc, value) {
            Some(rest) => is_over(rest),
            None => false,
        },
        None => false,
    }
}

/// The text after a key and `=`.
fn behind_key(alloc: Global, s: &str) -> Option<&str>
    ensures { IfSome result (λ rest. rest_of_read (key_equals s.now) ≡ Some rest.now) }
{
    match behind_bare_key(s) {
        Some(rest) => Some(rest),
        None => behind_dotted_key(alloc, s),
    }
}

/// The text after a key of one bare name and `=`.
fn behind_bare_key(s: &str) -> Option<&str>
    ensures { IfSome result (λ rest. rest_of_read (key_equals s.now) ≡ Some rest.now) }
{
    let after = skip_ws(behind_name(s));
    if is_bare(first(s)) && first(after) == b'=' {
        Some(skip_ws(skip(after, 1)))
    } else {
        None
    }
}

/// The text after any key and `=`.
fn behind_dotted_key(alloc: Global, s: &str) -> Option<&str>
    ensures { IfSome result (λ rest. rest_of_read (key_equals s.now) ≡ Some rest.now) }
{
    match dotted_key(alloc, s) {
        Ok((_, rest)) => {
            if first(rest) == b'=' {
                Some(skip_ws(skip(rest, 1)))
            } else {
                None
            }
        }
        Err(_) => None,
    }
}

/// The text after a plain value.
fn behind_value(alloc: Global, s: &str) -> Option<&str>
    ensures { IfSome result (λ rest. rest_of_read (val 80 s.now) ≡ Some rest.now) }
{
    if first(s) == b'[' {
        behind_items(alloc, skip(s, 1))
    } else if first(s) == b'{' {
        None
    } else {
        behind_atom(alloc, s)
    }
}

/// The text after a string, a boolean, a number or a date.
fn behind_atom(alloc: Global, s: &str) -> Option<&str>
    ensures value { IfSome result (λ rest. rest_of_read (atom s.now) ≡ Some rest.now) }
    ensures shorter { IfSome result (λ rest. length rest.now < length s.now) }
{
    if starts_string(s) {
        behind_text(alloc, s)
    } else {
        behind_word(alloc, s)
    }
}

/// The text after a string.
fn behind_text(alloc: Global, s: &str) -> Option<&str>
    requires { starts_string s.now ≡ true }
    ensures value { IfSome result (λ rest. rest_of_read (atom s.now) ≡ Some rest.now) }
    ensures shorter { IfSome result (λ rest. length rest.now < length s.now) }
{
    match behind_plain_text(s) {
        Some(rest) => Some(rest),
        None => behind_any_text(alloc, s),
    }
}

/// The text after a string on one line that has no escapes and isn't empty.
fn behind_plain_text(s: &str) -> Option<&str>
    requires { starts_string s.now ≡ true }
    ensures value { IfSome result (λ rest. rest_of_read (atom s.now) ≡ Some rest.now) }
    ensures shorter { IfSome result (λ rest. length rest.now < length s.now) }
{
    let quote = first(s);
    let inside = skip(s, 1);
    let rest = behind_plain(inside, quote);
    if first(rest) == quote && first(inside) != quote {
        Some(skip(rest, 1))
    } else {
        None
    }
}

/// The text after any string.
fn behind_any_text(alloc: Global, s: &str) -> Option<&str>
    requires { starts_string s.now ≡ true }
    ensures value { IfSome result (λ rest. rest_of_read (atom s.now) ≡ Some rest.now) }
    ensures shorter { IfSome result (λ rest. length rest.now < length s.now) }
{
    match quoted(alloc, s) {
        Ok((_, rest)) => Some(rest),
        Err(_) => None,
    }
}

/// The text after a boolean, a number or a date.
fn behind_word(alloc: Global, s: &str) -> Option<&str>
    requires { starts_string s.now ≡ false }
    ensures value { IfSome result (λ rest. rest_of_read (atom s.now) ≡ Some rest.now) }
    ensures shorter { IfSome result (λ rest. length rest.now < length s.now) }
{
    match unquoted(alloc, s) {
        Ok((_, rest)) => Some(rest),
        Err(_) => None,
    }
}

/// The text after the plain items of an array and its closing bracket.
fn behind_items(alloc: Global, s: &str) -> Option<&str>
    ensures { IfSome result (λ rest. IsBehindItems (val 79) s.now rest.now) }
{
    let mut rest = s;
    'items: loop {
        let start = skip_blank(rest, true);
        if first(start) == b']' {
            return Some(skip(start, 1));
        }
        if first(start) == b'[' || first(start) == b'{' {
            return None;
        }
        let Some(after) = behind_atom(alloc, start) else {
            return None;
        };
        let Some(next) = behind_item(after) else {
            return None;
        };
        rest = next;
    }
}

/// The text after an item's comma; or the text from the closing bracket on.
fn behind_item(s: &str) -> Option<&str>
    ensures value { IfSome result (λ rest. after_element 93 s.now ≡ Some rest.now) }
    ensures within { IfSome result (λ rest. length rest.now ≤ length s.now) }
{
    let rest = skip_blank(s, true);
    if first(rest) == b',' {
        Some(skip(rest, 1))
    } else if first(rest) == b']' {
        Some(rest)
    } else {
        None
    }
}

/// Whether a line ends here, and only blank lines and comments follow.
fn is_over(s: &str) -> bool
    ensures { result ≡ is_over s.now }
{
    let end = skip_ws(s);
    let ends = end.is_empty()
        || (first(end) == b'#' || (first(end) == b'\n' || first(end) == b'\r'));
    ends && skip_blank(s, true).is_empty()
}

/// The bytes of a bare name, and the text after them.
fn split_name(s: &str) -> (&str, &str)
    ensures { (result.0.now, result.1.now) ≡ split_while is_bare s.now }
{
    s.split_at(bare_len(s.as_bytes()))
}

/// The text after the bytes of a bare name.
fn behind_name(s: &str) -> &str
    ensures { result.now ≡ (split_while is_bare s.now).1 }
{
    split_name(s).1
}

/// The name of a text that is one bare name and `=`, and nothing else.
pub fn bare_name(s: &str) -> Option<&str>
    ensures { IfSome result (λ name. IsBareName s.now name.now) }
{
    let (name, rest) = split_name(s);
    if is_bare(first(s)) && skip_ws(rest) == "=" {
        Some(name)
    } else {
        None
    }
}

/// The text after the bytes that need no escape between such quotes.
fn behind_plain(s: &str, quote: u8) -> &str
    requires { quote < 128 }
    ensures rest { result.now ≡ (split_while (is_plain quote false) s.now).1 }
    ensures within { length result.now ≤ length s.now }
{
    &s[plain_len(s.as_bytes(), quote)..]
}

/// How many bytes at the start belong to a bare name.
fn bare_len(bytes: &[u8]) -> usize
    ensures len { result ≡ prefix_len is_bare bytes.now }
    ensures within { result ≤ length bytes.now }
{
    bytes.iter().take_while(|b| is_bare(**b)).count()
}

/// How many bytes at the start need no escape between such quotes.
fn plain_len(bytes: &[u8], quote: u8) -> usize
    ensures len { result ≡ prefix_len (is_plain quote false) bytes.now }
    ensures within { result ≤ length bytes.now }
{
    bytes.iter().take_while(|b| is_plain(quote, **b)).count()
}

/// Whether a byte may be in a bare name.
fn is_bare(byte: u8) -> bool
    ensures { result ≡ is_bare byte }
{
    byte.is_ascii_alphanumeric() || byte == b'-' || byte == b'_'
}

/// Whether a byte needs no escape between such quotes, on one line.
fn is_plain(quote: u8, byte: u8) -> bool
    ensures { result ≡ is_plain quote false byte }
{
    byte != quote
        && !(byte == b'\\' && quote == b'"')
        && (byte == b'\t' || (byte >= 32 && byte != 127))
}
