//! Searches for the sets of features that conflict, on rules over the positions below a number.
//!
//! A question is `find 6` or `runs 6`, for six positions, and the rules, all of them optional:
//!
//! - `enables=0:1,2;3:4`: position 0 enables 1 and 2, and 3 enables 4; each enables itself too.
//! - `apart=0,1;2,3`: exclusion groups, and `some=0,1;2,3`: at-least-one groups.
//! - `fails=0,1;2`: builds fail with sets inside which [0,1] or [2] lies, unless `passes=0,1,2` says
//!   that they pass, or `breaks=3` that they are broken. `-` is the empty set.
//! - `most=4`: how many builds may be tried.
//!
//! `find` answers how many builds were tried, the conflicts, and the greatest sets that passed;
//! `runs` answers each build in turn, with `+` if it passed and `-` if it failed.

use crate::tests::given::{numbers, value, word_at};
use crate::tests::shown::{push_between, push_numbers};
use hack_conflicts::{BuildOutcome, Found, Rules, Scripted, SearchFault, Tried, find_conflicts};
use hack_holds::{Ask, Wrong, hold};
use std::alloc::{AllocError, Global};

/// The set of these positions below `n`.
pub fn set_of(alloc: Global, n: usize, positions: &[usize]) -> Result<Vec<bool>, AllocError> {
    let mut set = Vec::new(alloc);
    for p in 0..n {
        set.push(positions.contains(&p))?;
    }
    Ok(set)
}

/// The sets of a text, none where it is empty.
pub fn sets_of(alloc: Global, n: usize, text: &str) -> Result<Vec<Vec<bool>>, AllocError> {
    let mut sets = Vec::new(alloc);
    for word in text.split(';') {
        if !word.is_empty() {
            let positions = numbers(alloc, word)?;
            sets.push(set_of(alloc, n, positions.as_slice())?)?;
        }
    }
    Ok(sets)
}

/// What the position enables by the text.
fn enabled_by(alloc: Global, x: usize, text: &str) -> Result<Vec<usize>, AllocError> {
    let mut all = Vec::new(alloc);
    all.push(x)?;
    for word in text.split(';') {
        if let Some((first, others)) = word.split_once(':') {
            if first.parse::<usize>() == Ok(x) {
                all.append(&mut numbers(alloc, others)?)?;
            }
        }
    }
    Ok(all)
}

fn rules_of(alloc: Global, n: usize, question: &str) -> Result<Rules, AllocError> {
    let text = value(question, "enables=", "");
    let mut enables = Vec::new(alloc);
    for x in 0..n {
        let row = enabled_by(alloc, x, text)?;
        enables.push(set_of(alloc, n, row.as_slice())?)?;
    }
    Ok(Rules {
        enables,
        exclusive: sets_of(alloc, n, value(question, "apart=", ""))?,
        needed: sets_of(alloc, n, value(question, "some=", ""))?,
    })
}

fn builder_of(alloc: Global, n: usize, question: &str) -> Result<Scripted, AllocError> {
    Ok(Scripted {
        broken: sets_of(alloc, n, value(question, "breaks=", ""))?,
        passing: sets_of(alloc, n, value(question, "passes=", ""))?,
        failing: sets_of(alloc, n, value(question, "fails=", ""))?,
    })
}

pub fn push_set(text: &mut String, alloc: Global, set: &[bool]) -> Result<(), AllocError> {
    let mut positions = Vec::new(alloc);
    for (p, has) in set.iter().enumerate() {
        if *has {
            positions.push(p)?;
        }
    }
    push_numbers(text, positions.as_slice())
}

fn push_sets(text: &mut String, alloc: Global, sets: &[Vec<bool>]) -> Result<(), AllocError> {
    for set in sets {
        text.push_str(" ")?;
        push_set(text, alloc, set.as_slice())?;
    }
    Ok(())
}

fn runs_text(alloc: Global, runs: &[Tried]) -> Result<String, AllocError> {
    let mut text = String::new(alloc);
    for (place, run) in runs.iter().enumerate() {
        push_between(&mut text, place, " ")?;
        push_set(&mut text, alloc, run.set.as_slice())?;
        text.push_str(match run.outcome {
            BuildOutcome::Passed => "+",
            BuildOutcome::Failed => "-",
            BuildOutcome::Broken => "!",
        })?;
    }
    Ok(text)
}

fn found_text(alloc: Global, found: &Found) -> Result<String, AllocError> {
    let runs = found.runs.len();
    let mut text = format!(in alloc; "{runs} runs")?;
    if !found.complete {
        text.push_str(", and more are needed")?;
    }
    text.push_str("\nfails")?;
    push_sets(&mut text, alloc, found.conflicts.as_slice())?;
    text.push_str("\npasses")?;
    push_sets(&mut text, alloc, found.passing.as_slice())?;
    Ok(text)
}

fn shown(alloc: Global, kind: &str, found: &Found) -> Result<String, AllocError> {
    match kind {
        "find" => found_text(alloc, found),
        "runs" => runs_text(alloc, found.runs.as_slice()),
        _ => String::from_str(alloc, "no such question"),
    }
}

fn answer(alloc: Global, question: &str) -> Result<String, AllocError> {
    let n = word_at(question, 1).parse::<usize>().unwrap_or(0);
    let rules = rules_of(alloc, n, question)?;
    if !rules.is_preorder() {
        return String::from_str(alloc, "no preorder");
    }
    let most = value(question, "most=", "").parse::<usize>().ok();
    let mut builder = builder_of(alloc, n, question)?;
    match find_conflicts(alloc, &rules, most, &mut builder) {
        Ok(found) => shown(alloc, word_at(question, 0), &found),
        Err(SearchFault::Broken) => String::from_str(alloc, "a build was broken"),
        Err(SearchFault::Memory) => Err(AllocError),
    }
}

#[derive(Drop)]
struct Search;

impl Ask for Search {
    fn answer(&mut self, alloc: Global, question: &str) -> Result<String, AllocError> {
        answer(alloc, question)
    }
}

/// Checks rows.
fn on(alloc: Global, rows: &str) -> Result<(), Wrong> {
    hold(alloc, &mut Search, rows)
}

#[test]
fn pairs_that_conflict(rt: HostRuntime) -> Result<(), Wrong> {
    on(
        rt.alloc(),
        "
            > find 6
            | 1 runs
            | fails
            | passes [0,1,2,3,4,5]

            > find 6 fails=0,1;2,3
            | 14 runs
            | fails [2,3] [0,1]
            | passes [1,2,4,5] [0,2,4,5] [1,3,4,5] [0,3,4,5]

            # Of 1048576 sets.
            > find 20 fails=0,1
            | 10 runs
            | fails [0,1]
            | passes [1,2,3,4,5,6,7,8,9,10,11,12,13,14,15,16,17,18,19] [0,2,3,4,5,6,7,8,9,10,11,12,13,14,15,16,17,18,19]

            # The package itself doesn't build.
            > find 6 fails=-
            | 2 runs
            | fails []
            | passes

            > find 4 fails=2
            | 6 runs
            | fails [2]
            | passes [0,1,3]
            > runs 4 fails=2
            | [0,1,2,3]- []+ [2,3]- [3]+ [2]- [0,1,3]+

            > find 0
            | 1 runs
            | fails
            | passes []
        ",
    )
}

#[test]
fn features_that_enable_others(rt: HostRuntime) -> Result<(), Wrong> {
    on(
        rt.alloc(),
        "
            > find 3 enables=0:1,2 fails=1,2
            | 5 runs
            | fails [1,2]
            | passes [2] [1]

            > find 4 enables=0:1,2 fails=0,3
            | 5 runs
            | fails [0,1,2,3]
            | passes [1,2,3] [0,1,2]

            # 0 enables 1, and 1 enables 2, but 0 doesn't enable 2.
            > find 3 enables=0:1;1:2
            | no preorder
            > find 3 enables=0:1,2;1:2 fails=1
            | 4 runs
            | fails [1,2]
            | passes [2]
        ",
    )
}

#[test]
fn groups_of_features(rt: HostRuntime) -> Result<(), Wrong> {
    on(
        rt.alloc(),
        "
            > find 4 some=0,1 fails=0,2
            | 7 runs
            | fails [0,2]
            | passes [0,1,3] [1,2,3]

            > find 4 apart=0,1,2 fails=0,3
            | 4 runs
            | fails [0,3]
            | passes [2,3] [1,3] [0]
            > runs 4 apart=0,1,2 fails=0,3
            | [2,3]+ [1,3]+ [0,3]- [0]+

            # A feature that enables two of an exclusion group may be chosen, as its name is the only
            # one that is given; the two may not.
            > runs 4 enables=0:1,2 apart=0,1,2 fails=3
            | [0,1,2,3]- []+ [2,3]- [3]- [0,1,2]+

            # No feature serves the group.
            > find 2 some=-
            | 0 runs
            | fails
            | passes
        ",
    )
}

#[test]
fn searches_that_end_early(rt: HostRuntime) -> Result<(), Wrong> {
    on(
        rt.alloc(),
        "
            > runs 6 fails=0,1;2,3 most=4
            | [0,1,2,3,4,5]- []+ [3,4,5]+ [1,2,3,4,5]-
            > find 6 fails=0,1;2,3 most=4
            | 4 runs, and more are needed
            | fails
            | passes [3,4,5]
            > find 6 fails=0,1;2,3 most=0
            | 0 runs, and more are needed
            | fails
            | passes
            > find 6 fails=0,1;2,3 most=13
            | 13 runs, and more are needed
            | fails [2,3] [0,1]
            | passes [1,2,4,5] [1,3,4,5] [0,3,4,5]
            > find 6 fails=0,1;2,3 most=14
            | 14 runs
            | fails [2,3] [0,1]
            | passes [1,2,4,5] [0,2,4,5] [1,3,4,5] [0,3,4,5]
            > find 3 fails=0,1 breaks=2
            | a build was broken
            > find 3 fails=0,1 breaks=-
            | a build was broken
        ",
    )
}

#[test]
fn outcomes_that_are_not_monotone(rt: HostRuntime) -> Result<(), Wrong> {
    on(
        rt.alloc(),
        "
            # [0] fails, but it is never tried, since it lies inside a set that passes.
            > find 3 fails=0 passes=0,1
            | 1 runs
            | fails
            | passes [0,1,2]

            > runs 4 fails=0,1;3 passes=1,3
            | [0,1,2,3]+
            > runs 3 fails=0;1;2 passes=0,1
            | [0,1,2]+
        ",
    )
}
