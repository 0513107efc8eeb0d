//! Texts that are read by themselves: lists of names in one argument, pieces of a plan, colours and
//! log groups.

use crate::answers::{Found, joined, word, yes};
use crate::table::Group;
use hack_base::lists::{has_separator, split_group, split_names};
use hack_partition::partition::{Partition, PartitionKind};
use hack_term::term::{Coloring, LogGroup};
use std::alloc::{AllocError, Global};

/// `group`, `list`: the names in one argument. `has a separator`. `piece`, `kind of pieces`,
/// `coloring`, `log group`: what the text is read as, or its error. `places`: those that a piece
/// has of a total, as a block or, with the setting `turn`, assigned in rotation.
pub(crate) fn answer(alloc: Global, group: &Group, words: &[String]) -> Found {
    let first = word(words, 0);
    let text = match group.kind.as_str() {
        "group" => joined(alloc, &split_group(alloc, first)?)?,
        "list" => joined(alloc, &split_names(alloc, first)?)?,
        "has a separator" => yes(alloc, has_separator(first))?,
        "piece" => piece_text(alloc, first)?,
        "kind of pieces" => kind_text(alloc, first)?,
        "places" => places_text(alloc, group.has("turn"), first, word(words, 1))?,
        "coloring" => coloring_text(alloc, first)?,
        "log group" => log_group_text(alloc, first)?,
        _ => return Ok(None),
    };
    Ok(Some(text))
}

fn kind_name(kind: PartitionKind) -> &'static str {
    match kind {
        PartitionKind::Block => "block",
        PartitionKind::Turn => "turn",
    }
}

fn kind_text(alloc: Global, text: &str) -> Result<String, AllocError> {
    match PartitionKind::parse(alloc, text) {
        Ok(kind) => String::from_str(alloc, kind_name(kind)),
        Err(fault) => format!(in alloc; "{fault}"),
    }
}

fn log_group_text(alloc: Global, text: &str) -> Result<String, AllocError> {
    match LogGroup::parse(alloc, text) {
        Ok(LogGroup::None) => String::from_str(alloc, "none"),
        Ok(LogGroup::GithubActions) => String::from_str(alloc, "github-actions"),
        Err(fault) => format!(in alloc; "{fault}"),
    }
}

fn coloring_text(alloc: Global, text: &str) -> Result<String, AllocError> {
    String::from_str(
        alloc,
        match Coloring::parse(text) {
            Some(Coloring::Auto) => "auto",
            Some(Coloring::Always) => "always",
            Some(Coloring::Never) => "never",
            None => "none",
        },
    )
}

fn piece_text(alloc: Global, text: &str) -> Result<String, AllocError> {
    match Partition::parse(alloc, text) {
        Ok(piece) => {
            let kind = kind_name(piece.kind);
            format!(in alloc; "{}/{} {kind}", piece.piece, piece.count)
        }
        Err(fault) => format!(in alloc; "{fault}"),
    }
}

/// The places of a total that the piece has, each followed by a space.
fn places_text(alloc: Global, turn: bool, text: &str, total: &str) -> Result<String, AllocError> {
    let partition = match Partition::parse(alloc, text) {
        Ok(partition) if turn => partition.with_kind(PartitionKind::Turn),
        Ok(partition) => partition,
        Err(fault) => return format!(in alloc; "{fault}"),
    };
    let total: u64 = total.parse().unwrap_or(0);
    let mut found = String::new(alloc);
    for place in 0..total {
        if partition.holds(place, total) {
            found.push_str(format!(in alloc; "{place} ")?.as_str())?;
        }
    }
    Ok(found)
}
