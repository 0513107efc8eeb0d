//! A scanner over the bytes of a text: it knows how many brackets are open, and whether it is in a
//! comment or a string. It excludes most runs of lines that don't parse alone, and none that does.

ghost use Rattle.std.specs.Prelude.{◌≡◌};
ghost use Rattle.hack_manifest.specs.Places.{step, start_step, remark_step, plain_step, deeper};
ghost use Rattle.hack_manifest.specs.Places.{comment_step, text_step, may_stand};

/// A state of the scanner.
#[derive(Clone, Copy, PartialEq, Eq)]
pub enum ScanState {
    /// After blank lines and comments only.
    Start,
    /// In a comment that only these precede.
    Remark,
    /// Between this many brackets.
    Plain(usize),
    /// In a comment.
    Comment(usize),
    /// After the quote that opens a string on one line.
    Opened(u8, usize),
    /// In a string on one line.
    Text(u8, usize),
    /// After a backslash in such a string.
    Escaped(u8, usize),
    /// After two quotes, with which strings over several lines begin, or in too many brackets.
    Lost,
}

/// The state after one more byte.
pub fn step(place: ScanState, byte: u8) -> ScanState
    ensures { result ≡ step place byte }
{
    match place {
        ScanState::Start => start_step(byte),
        ScanState::Remark => remark_step(byte),
        ScanState::Plain(depth) => plain_step(depth, byte),
        ScanState::Comment(depth) => comment_step(depth, byte),
        ScanState::Opened(quote, depth) => {
            if byte == quote {
                ScanState::Lost
            } else {
                text_step(quote, depth, byte)
            }
        }
        ScanState::Text(quote, depth) => {
            if byte == quote {
                ScanState::Plain(depth)
            } else {
                text_step(quote, depth, byte)
            }
        }
        ScanState::Escaped(quote, depth) => ScanState::Text(quote, depth),
        ScanState::Lost => ScanState::Lost,
    }
}

/// The state after a byte that only blank lines and comments precede.
fn start_step(byte: u8) -> ScanState
    ensures { result ≡ start_step byte }
{
    if byte == b'#' {
        ScanState::Remark
    } else if (byte == b'\n' || byte == b'\r') || (byte == b' ' || byte == b'\t') {
        ScanState::Start
    } else {
        plain_step(0, byte)
    }
}

/// The state after a byte of a comment that only these precede.
fn remark_step(byte: u8) -> ScanState
    ensures { result ≡ remark_step byte }
{
    if byte == b'\n' || byte == b'\r' {
        ScanState::Start
    } else {
        ScanState::Remark
    }
}

/// The state after a byte that is in no comment and no string.
fn plain_step(depth: usize, byte: u8) -> ScanState
    ensures { result ≡ plain_step depth byte }
{
    if byte == b'"' || byte == b'\'' {
        ScanState::Opened(byte, depth)
    } else if byte == b'#' {
        ScanState::Comment(depth)
    } else if byte == b'[' || byte == b'{' {
        deeper(depth)
    } else if byte == b']' || byte == b'}' {
        ScanState::Plain(depth.saturating_sub(1))
    } else {
        ScanState::Plain(depth)
    }
}

/// The state after an opening bracket.
fn deeper(depth: usize) -> ScanState
    ensures { result ≡ deeper depth }
{
    if depth < 1000 {
        ScanState::Plain(depth + 1)
    } else {
        ScanState::Lost
    }
}

/// The state after a byte of a comment.
fn comment_step(depth: usize, byte: u8) -> ScanState
    ensures { result ≡ comment_step depth byte }
{
    if byte == b'\n' || byte == b'\r' {
        ScanState::Plain(depth)
    } else {
        ScanState::Comment(depth)
    }
}

/// The state after a byte of a string other than its closing quote.
fn text_step(quote: u8, depth: usize, byte: u8) -> ScanState
    ensures { result ≡ text_step quote depth byte }
{
    if byte == b'\\' && quote == b'"' {
        ScanState::Escaped(quote, depth)
    } else {
        ScanState::Text(quote, depth)
    }
}

/// Whether a document may end in this state.
pub fn may_stand(place: ScanState) -> bool
    ensures { result ≡ may_stand place }
{
    match place {
        ScanState::Plain(depth) => depth == 0,
        ScanState::Comment(depth) => depth == 0,
        ScanState::Lost => true,
        _ => false,
    }
}
