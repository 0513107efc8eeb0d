//! The text of a journal.
//!
//! `spell PATH; BYTES` is the text for a file that held these bytes and is to be removed, `entries
//! TEXT` are the entries that a text is read back as, or the error, and `torn TEXT` is the length
//! of the text, and the length of each prefix that isn't refused as no journal.

use crate::tests::journal::on;
use crate::tests::text::{plain, shown};
use hack_holds::Wrong;
use hack_journal::journal::{Entry, JournalFault, read_back, spell};
use std::alloc::{AllocError, Global};

fn entry(alloc: Global, path: &str, held: &str) -> Result<Entry, AllocError> {
    let held = plain(alloc, held)?;
    Ok(Entry {
        path: plain(alloc, path)?,
        held: Some(held.into_bytes()),
        wrote: None,
    })
}

pub fn spelled(alloc: Global, question: &str) -> Result<String, AllocError> {
    let (path, held) = question.split_once("; ").unwrap_or((question, ""));
    let entry = entry(alloc, path, held)?;
    let text = spell(alloc, &[entry])?;
    let text = String::from_utf8_lossy(alloc, &text)?;
    shown(alloc, text.as_str())
}

pub fn entries(alloc: Global, question: &str) -> Result<String, AllocError> {
    let text = plain(alloc, question)?;
    match read_back(alloc, text.as_bytes()) {
        Ok(entries) => format!(in alloc; "{:?}", entries.as_slice()),
        Err(fault) => format!(in alloc; "{fault}"),
    }
}

pub fn torn(alloc: Global, question: &str) -> Result<String, AllocError> {
    let text = plain(alloc, question)?;
    let count = text.len();
    let mut answer = format!(in alloc; "{count}")?;
    for len in 0..count {
        let front = text.as_bytes().get(..len).unwrap_or(&[]);
        if read_back(alloc, front) != Err(JournalFault::NotJournal) {
            answer.push_str(format!(in alloc; ", not {len}")?.as_str())?;
        }
    }
    Ok(answer)
}

// The path and the bytes have line feeds and spaces.
#[test]
fn a_text_is_read_back(rt: HostRuntime) -> Result<(), Wrong> {
    on(
        rt.alloc(),
        &[
            r#"
            > spell a\n b; \n\n x\n
            | edited files\npath a\n  b\nheld\n \n \n  x\n \nwrote nothing\nend\n
            > entries edited files\npath a\n  b\nheld\n \n \n  x\n \nwrote nothing\nend\n
            | [Entry { path: "a\n b", held: Some([10, 10, 32, 120, 10]), wrote: None }]
        "#,
        ],
    )
}

#[test]
fn a_torn_text_is_refused(rt: HostRuntime) -> Result<(), Wrong> {
    on(
        rt.alloc(),
        &[
            r"
            > torn edited files\npath a\n  b\nheld\n \n \n  x\n \nwrote nothing\nend\n
            | 57
            > front: write j edited files\n
            | ok
            > front: recover
            | `j` is not a whole journal of edited files; put back by hand what it tells, and remove it
            > front: changes
            | 1
        ",
        ],
    )
}
