//! The rules of a search for conflicts, made from the rules of a choice. The words `empty` and
//! `all` ask for the empty set and for a position of all features.
//!
//! - `rows`: each position, its candidate, and what it enables; then the rows of positions that
//!   exclude each other, and those of which a set needs one.
//! - `build 0,2`: what is built for the set of these positions, by the places of candidates.
//! - `find fails=0,1;2`: what is built for each conflict that is found, and for the greatest sets
//!   that passed, where builds fail with sets of positions inside which [0,1] or [2] lies.

ghost use Rattle.std.specs.Prelude.{◌≡◌, IfOk, None};
ghost use Rattle.hack_conflicts.specs.Rules.{IsPreorder};
ghost use Rattle.hack_features.specs.View.{choice_of};
ghost use Rattle.hack_closures.specs.View.{search_of};

use crate::tests::given::{Case, case_of, numbers, refs, value, word_at};
use crate::tests::searches::{push_set, set_of, sets_of};
use crate::tests::shown::{push_between, push_numbers};
use hack_closures::{Build, Closures};
use hack_conflicts::{Found, Scripted, SearchFault, find_conflicts};
use hack_features::{Feature, Rules};
use hack_holds::{Ask, Wrong, hold};
use std::alloc::{AllocError, Global};

/// The rules of a case, without a depth.
fn rules_of<'a>(
    alloc: Global,
    case: &'a Case,
    refs: &'a [&'a Feature],
) -> Result<Rules<'a>, AllocError>
    ensures { IfOk result (λ rules. (choice_of rules).depth ≡ None) }
{
    Rules::new(
        alloc,
        refs,
        None,
        case.some.as_slice(),
        case.apart.as_slice(),
        &case.map,
        case.lifted.as_slice(),
    )
}

/// Whether the word is one of the question.
fn asks_for(question: &str, wanted: &str) -> bool {
    for word in question.split_whitespace() {
        if word == wanted {
            return true;
        }
    }
    false
}

fn push_position(
    text: &mut String,
    alloc: Global,
    made: &Closures<'_>,
    place: usize,
    row: &[bool],
) -> Result<(), AllocError> {
    push_between(text, place, "\n")?;
    match made.candidate(place) {
        Some(candidate) => write!(text, "{place} {candidate} ")?,
        None => write!(text, "{place} all ")?,
    }
    push_set(text, alloc, row)
}

fn push_rows(
    text: &mut String,
    alloc: Global,
    kind: &str,
    rows: &[Vec<bool>],
) -> Result<(), AllocError> {
    for row in rows {
        write!(text, "\n{kind} ")?;
        push_set(text, alloc, row.as_slice())?;
    }
    Ok(())
}

fn rows_text(alloc: Global, made: &Closures<'_>) -> Result<String, AllocError> {
    let mut text = String::new(alloc);
    for (place, row) in made.search.enables.iter().enumerate() {
        push_position(&mut text, alloc, made, place, row.as_slice())?;
    }
    push_rows(&mut text, alloc, "apart", made.search.exclusive.as_slice())?;
    push_rows(&mut text, alloc, "some", made.search.needed.as_slice())?;
    Ok(text)
}

fn push_build(text: &mut String, build: &Build) -> Result<(), AllocError> {
    match build {
        Build::NoFeatures => text.push_str("none"),
        Build::AllFeatures => text.push_str("all"),
        Build::Set(set) => push_numbers(text, set.as_slice()),
    }
}

fn build_text(
    alloc: Global,
    made: &Closures<'_>,
    positions: &[usize],
) -> Result<String, AllocError> {
    let set = set_of(alloc, made.search.enables.len(), positions)?;
    let build = made.build_of(alloc, set.as_slice())?;
    let mut text = String::new(alloc);
    push_build(&mut text, &build)?;
    Ok(text)
}

fn push_builds(
    text: &mut String,
    alloc: Global,
    made: &Closures<'_>,
    sets: &[Vec<bool>],
) -> Result<(), AllocError> {
    for set in sets {
        text.push_str(" ")?;
        let build = made.build_of(alloc, set.as_slice())?;
        push_build(text, &build)?;
    }
    Ok(())
}

fn found_text(alloc: Global, made: &Closures<'_>, found: &Found) -> Result<String, AllocError> {
    let mut text = String::from_str(alloc, "fails")?;
    push_builds(&mut text, alloc, made, found.conflicts.as_slice())?;
    text.push_str("\npasses")?;
    push_builds(&mut text, alloc, made, found.passing.as_slice())?;
    Ok(text)
}

fn builder_of(alloc: Global, n: usize, question: &str) -> Result<Scripted, AllocError> {
    Ok(Scripted {
        broken: Vec::new(alloc),
        passing: Vec::new(alloc),
        failing: sets_of(alloc, n, value(question, "fails=", ""))?,
    })
}

fn find(alloc: Global, made: &Closures<'_>, question: &str) -> Result<String, AllocError>
    requires { IsPreorder (search_of made.now) }
{
    let mut builder = builder_of(alloc, made.search.enables.len(), question)?;
    match find_conflicts(alloc, &made.search, None, &mut builder) {
        Ok(found) => found_text(alloc, made, &found),
        Err(SearchFault::Broken) => String::from_str(alloc, "a build was broken"),
        Err(SearchFault::Memory) => Err(AllocError),
    }
}

/// The answer to a question on these rules.
fn told(alloc: Global, rules: &Rules<'_>, question: &str) -> Result<String, AllocError>
    requires { (choice_of rules.now).depth ≡ None }
{
    let empty = asks_for(question, "empty");
    let all = asks_for(question, "all");
    let made = Closures::new(alloc, rules, empty, all)?;
    match word_at(question, 0) {
        "rows" => rows_text(alloc, &made),
        "build" => {
            let positions = numbers(alloc, word_at(question, 1))?;
            build_text(alloc, &made, positions.as_slice())
        }
        "find" => find(alloc, &made, question),
        _ => String::from_str(alloc, "no such question"),
    }
}

fn answer(alloc: Global, input: &str, question: &str) -> Result<String, AllocError> {
    let case = case_of(alloc, input, question)?;
    let refs = refs(alloc, case.candidates.as_slice())?;
    let rules = rules_of(alloc, &case, refs.as_slice())?;
    told(alloc, &rules, question)
}

/// An input of which questions are asked.
#[derive(Drop)]
struct Asked<'a> {
    input: &'a str,
}

impl Ask for Asked<'_> {
    fn answer(&mut self, alloc: Global, question: &str) -> Result<String, AllocError> {
        answer(alloc, self.input, question)
    }
}

/// Checks rows on an input.
fn on(alloc: Global, input: &str, rows: &str) -> Result<(), Wrong> {
    hold(alloc, &mut Asked { input }, rows)
}

#[test]
fn what_one_candidate_turns_on(rt: HostRuntime) -> Result<(), Wrong> {
    on(
        rt.alloc(),
        "a:;b: a;d: $ a b [a|d] d",
        "
            > rows empty
            | 0 0 [0]
            | 1 1 [0,1]
            | 2 2 [0,2,3]
            | 3 3 [3]
            > build -
            | none
            > build 0,1
            | [1]

            # Both together turn on the group, but neither does alone.
            > build 0,1,3
            | [1,3]
            > build 0,1,2,3
            | [1,2]
        ",
    )
}

#[test]
fn exclusion_groups(rt: HostRuntime) -> Result<(), Wrong> {
    on(
        rt.alloc(),
        "a:;b:;c: a b;d: a $ a [a|b] b c d",
        "
            # The group reaches it by two names, so no listed set has it.
            > rows apart=a,b
            | 0 0 [0]
            | 1 2 [1]
            | 2 3 [0,1,2]
            | 3 4 [0,3]
            | apart [0,1,2,3]
            | some [0,1,2,3]
            > build 0,1,2 apart=a,b
            | [3]
            > build 0,3 apart=a,b
            | [4]
            > rows lifted=a,b empty
            | 0 0 [0]
            | 1 1 [0,1,2]
            | 2 2 [2]
            | 3 3 [0,1,2,3]
            | 4 4 [0,4]
        ",
    )
}

#[test]
fn at_least_one_groups(rt: HostRuntime) -> Result<(), Wrong> {
    on(
        rt.alloc(),
        "a:;b: a;c: $ a b c",
        "
            # No key serves the second group.
            > rows some=b,x some=x,y empty
            | 0 0 [0]
            | 1 1 [0,1]
            | 2 2 [2]
            | some [1]
            > rows some=a,c
            | 0 0 [0]
            | 1 1 [0,1]
            | 2 2 [2]
            | some [0,1,2]
            | some [0,1,2]
            > build 0,1,2 some=b,x
            | [1,2]
        ",
    )
}

#[test]
fn a_position_of_all_features(rt: HostRuntime) -> Result<(), Wrong> {
    on(
        rt.alloc(),
        "a: b p/f;b: $ a b c p>f q>f",
        "
            # No key enables the third and the last.
            > rows all empty
            | 0 0 [0,1,3]
            | 1 1 [1]
            | 2 2 [2]
            | 3 3 [3]
            | 4 4 [4]
            | 5 all [0,1,3,5]
            | apart [2,5]
            | apart [4,5]
            > rows all some=b
            | 0 0 [0,1,3]
            | 1 1 [1]
            | 2 2 [2]
            | 3 3 [3]
            | 4 4 [4]
            | 5 all [0,1,3,5]
            | apart [2,5]
            | apart [4,5]
            | some [0,1,5]
            | some [0,1,2,3,4,5]
            > build 0,1,3,5 all
            | all
            > build 0,1,3 all
            | [0]
            > build - all empty
            | none

            # An exclusion group forbids it, unless it is lifted.
            > rows all apart=b,c
            | 0 0 [0,1,3]
            | 1 1 [1]
            | 2 2 [2]
            | 3 3 [3]
            | 4 4 [4]
            | apart [0,1,2]
            | some [0,1,2,3,4]
            > build 0,1,3,5 all lifted=b,c
            | all
        ",
    )
}

#[test]
fn names_with_a_slash(rt: HostRuntime) -> Result<(), Wrong> {
    on(
        rt.alloc(),
        "a: d/f;b: $ a b d>f",
        "
            > rows empty
            | 0 0 [0,2]
            | 1 1 [1]
            | 2 2 [2]

            # `a` enables `d/f`, but reaches `d` only: so [0,1] is listed, and may be chosen.
            > rows empty apart=d/f,b
            | 0 0 [0]
            | 1 1 [1]
            | 2 2 [2]
            | apart [1,2]
            > build 0,1 apart=d/f,b
            | [0,1]
        ",
    )
}

#[test]
fn a_search_builds_listed_sets(rt: HostRuntime) -> Result<(), Wrong> {
    on(
        rt.alloc(),
        "a:;b: a;c: $ a b c",
        "
            > find
            | fails
            | passes [1,2]
            > find all
            | fails
            | passes all
            > find fails=1,2
            | fails [1,2]
            | passes [0,2] [1]
            > find fails=1,2 empty
            | fails [1,2]
            | passes [0,2] [1]
            > find fails=- empty
            | fails none
            | passes
            > find fails=0 apart=a,c
            | fails [0]
            | passes [2]
            > find fails=0 some=b
            | fails [1]
            | passes
        ",
    )
}
