//! Questions on the sets of an input. The rules follow each question, and `-` is the empty set.
//!
//! - `list`: the listed sets by their names; `sets`: by the places of their candidates.
//! - `cover 0,2`: the set that covers this one, or `none`.
//! - `ask 0,1 2`: whether position 2 may extend this set, how many questions were counted, and
//!   whether the set is complete.
//! - `count 24`: how many sets each of the three enumerations finds, and whether `pruned` asks few
//!   questions: some, at most 24, and as many as are counted; `listed` asks no more.
//! - `sample 2`: the sets of a sample of strength 2, by the places of their candidates.
//! - `settings 0,2`: which candidates are on in this set; `settings_of_all`: with all features.
//! - `powerset`: the sets of the numbers 1 to 4.
//! - `order 0 1 0,1`: how each set compares with each.

ghost use Rattle.std.specs.Prelude.{◌≡◌, IsTrue, IfOk, length};
ghost use Rattle.hack_sets.specs.Sets.{IsSelection};
ghost use Rattle.hack_features.specs.View.{size_of};

use crate::tests::given::{Case, case_of, depth_of, numbers, refs, word_at};
use crate::tests::shown::{push_between, push_names, push_numbers, push_order};
use hack_features::{
    Feature, FeatureSets, Questions, Rules, SampleFault, compare_sets, feature_powerset, powerset,
    pruned,
};
use hack_holds::{Ask, Wrong, hold};
use std::alloc::{AllocError, Global};
use std::cmp::Ordering;

/// Whether the positions increase and are below `n`.
fn is_selection(positions: &[usize], n: usize) -> bool
    ensures { IsTrue result → IsSelection n positions.now }
{
    match positions.split_last() {
        None => true,
        Some((last, others)) => *last < n && is_selection(others, *last),
    }
}

/// Calls what takes candidates and the rules of a case.
macro_rules! by_rules {
    ($call:path, $alloc:ident, $case:ident, $refs:ident) => {
        $call(
            $alloc,
            $refs,
            $case.depth,
            $case.some.as_slice(),
            $case.apart.as_slice(),
            &$case.map,
            $case.lifted.as_slice(),
        )
    };
}

/// The rules of a case, for the candidates in `refs`.
fn rules_of<'a>(
    alloc: Global,
    case: &'a Case,
    refs: &'a [&'a Feature],
) -> Result<Rules<'a>, AllocError>
    ensures { IfOk result (λ rules. size_of rules ≡ length refs.now) }
{
    by_rules!(Rules::new, alloc, case, refs)
}

/// The sets that `feature_powerset` lists.
fn powersets<'a>(
    alloc: Global,
    case: &Case,
    refs: &[&'a Feature],
) -> Result<Vec<Vec<&'a Feature>>, AllocError> {
    by_rules!(feature_powerset, alloc, case, refs)
}

fn list(alloc: Global, case: &Case, refs: &[&Feature]) -> Result<String, AllocError> {
    let sets = powersets(alloc, case, refs)?;
    let mut text = String::new(alloc);
    for (place, set) in sets.iter().enumerate() {
        push_between(&mut text, place, " ")?;
        push_names(&mut text, set.as_slice())?;
    }
    Ok(text)
}

fn push_sets(text: &mut String, alloc: Global, sets: &FeatureSets) -> Result<(), AllocError> {
    let mut set = Vec::new(alloc);
    for rank in 0..sets.len() {
        push_between(text, rank, " ")?;
        sets.read(rank, &mut set)?;
        push_numbers(text, set.as_slice())?;
    }
    Ok(())
}

fn sets(alloc: Global, case: &Case, refs: &[&Feature]) -> Result<String, AllocError> {
    let mut rules = rules_of(alloc, case, refs)?;
    let found = pruned(alloc, &mut rules, refs.len())?;
    let mut text = String::new(alloc);
    push_sets(&mut text, alloc, &found.sets)?;
    Ok(text)
}

fn sample(
    alloc: Global,
    case: &Case,
    refs: &[&Feature],
    strength: usize,
) -> Result<String, AllocError> {
    let mut rules = rules_of(alloc, case, refs)?;
    let mut text = String::new(alloc);
    match rules.sample(alloc, strength, 100_000) {
        Ok(sets) => push_sets(&mut text, alloc, &sets)?,
        Err(SampleFault::TooManyQuestions) => text.push_str("too many questions")?,
        Err(SampleFault::Memory) => return Err(AllocError),
    }
    Ok(text)
}

/// Which candidates are on, by their places.
fn on_text(alloc: Global, row: &[bool]) -> Result<String, AllocError> {
    let mut text = String::new(alloc);
    for (place, on) in row.iter().enumerate() {
        push_between(&mut text, place, " ")?;
        text.push_str(if *on { "on" } else { "off" })?;
    }
    Ok(text)
}

fn settings(alloc: Global, rules: &Rules<'_>, set: &[usize]) -> Result<String, AllocError> {
    let row = rules.settings(alloc, set)?;
    on_text(alloc, row.as_slice())
}

fn settings_of_all(alloc: Global, rules: &Rules<'_>) -> Result<String, AllocError> {
    let row = rules.settings_of_all(alloc)?;
    on_text(alloc, row.as_slice())
}

/// Puts the set that covers this one behind the text.
fn push_cover(
    text: &mut String,
    alloc: Global,
    rules: &Rules<'_>,
    n: usize,
    set: &[usize],
) -> Result<(), AllocError>
    requires { size_of rules.now ≡ n }
{
    if !is_selection(set, n) {
        return text.push_str("no set");
    }
    match rules.covering(alloc, set)? {
        Some(cover) => push_numbers(text, cover.as_slice()),
        None => text.push_str("none"),
    }
}

fn cover(
    alloc: Global,
    case: &Case,
    refs: &[&Feature],
    set: &[usize],
) -> Result<String, AllocError> {
    let rules = rules_of(alloc, case, refs)?;
    let mut text = String::new(alloc);
    push_cover(&mut text, alloc, &rules, refs.len(), set)?;
    Ok(text)
}

fn may_follow(
    alloc: Global,
    case: &Case,
    refs: &[&Feature],
    set: &[usize],
    next: usize,
) -> Result<String, AllocError> {
    let mut rules = rules_of(alloc, case, refs)?;
    let n = refs.len();
    if next >= n || !is_selection(set, next) || !is_selection(set, n) {
        return String::from_str(alloc, "no set");
    }
    let may = rules.may_extend(set, next);
    let count = rules.asked();
    let complete = rules.complete(set);
    format!(in alloc; "{may} {count} {complete}")
}

fn count(alloc: Global, case: &Case, refs: &[&Feature], most: u128) -> Result<String, AllocError> {
    let mut rules = rules_of(alloc, case, refs)?;
    let found = pruned(alloc, &mut rules, refs.len())?;
    let mut others = rules_of(alloc, case, refs)?;
    let other = others.listed(alloc)?;
    let few = found.asked > 0 && found.asked <= most && other.asked <= found.asked;
    let same = found.asked == rules.asked() && other.asked == others.asked();
    let lists = powersets(alloc, case, refs)?.len();
    let found = found.sets.len();
    let other = other.sets.len();
    format!(in alloc; "{found} {other} {lists} few {few} same {same}")
}

fn powerset_text(alloc: Global, depth: Option<usize>) -> Result<String, AllocError> {
    let sets = powerset(alloc, &[1, 2, 3, 4], depth)?;
    let mut text = String::new(alloc);
    for (place, set) in sets.iter().enumerate() {
        push_between(&mut text, place, " ")?;
        push_numbers(&mut text, set.as_slice())?;
    }
    Ok(text)
}

/// How `compare_sets` orders two sets below 100; None where one isn't such a set.
fn compared(first: &[usize], second: &[usize]) -> Option<Ordering> {
    if is_selection(first, 100) && is_selection(second, 100) {
        Some(compare_sets(first, second))
    } else {
        None
    }
}

fn push_compared(
    text: &mut String,
    alloc: Global,
    first: &str,
    sets: &str,
) -> Result<(), AllocError> {
    let first = numbers(alloc, first)?;
    for set in sets.split_whitespace() {
        let second = numbers(alloc, set)?;
        push_order(text, compared(first.as_slice(), second.as_slice()))?;
    }
    Ok(())
}

fn order(alloc: Global, sets: &str) -> Result<String, AllocError> {
    let mut text = String::new(alloc);
    for (place, set) in sets.split_whitespace().enumerate() {
        push_between(&mut text, place, "\n")?;
        push_compared(&mut text, alloc, set, sets)?;
    }
    Ok(text)
}

fn of_sets(alloc: Global, kind: &str, rest: &str) -> Result<String, AllocError> {
    match kind {
        "powerset" => powerset_text(alloc, depth_of(rest)),
        "order" => order(alloc, rest),
        _ => String::from_str(alloc, "no such question"),
    }
}

/// The answer to a question on an input.
fn answer(alloc: Global, input: &str, question: &str) -> Result<String, AllocError> {
    let (kind, rest) = question.split_once(' ').unwrap_or((question, ""));
    let case = case_of(alloc, input, rest)?;
    let refs = refs(alloc, case.candidates.as_slice())?;
    let refs = refs.as_slice();
    let word = word_at(rest, 0);
    let set = numbers(alloc, word)?;
    let next = word_at(rest, 1).parse::<usize>().unwrap_or(0);
    match kind {
        "list" => list(alloc, &case, refs),
        "sets" => sets(alloc, &case, refs),
        "cover" => cover(alloc, &case, refs, set.as_slice()),
        "ask" => may_follow(alloc, &case, refs, set.as_slice(), next),
        "sample" => sample(alloc, &case, refs, word.parse::<usize>().unwrap_or(0)),
        "settings" => settings(alloc, &rules_of(alloc, &case, refs)?, set.as_slice()),
        "settings_of_all" => settings_of_all(alloc, &rules_of(alloc, &case, refs)?),
        "count" => count(alloc, &case, refs, word.parse::<u128>().unwrap_or(0)),
        _ => of_sets(alloc, kind, rest),
    }
}

/// An input of which questions are asked.
#[derive(Drop)]
struct Asked<'a> {
    input: &'a str,
}

impl Ask for Asked<'_> {
    fn answer(&mut self, alloc: Global, question: &str) -> Result<String, AllocError> {
        answer(alloc, self.input, question)
    }
}

/// Checks rows on an input.
pub fn on(alloc: Global, input: &str, rows: &str) -> Result<(), Wrong> {
    hold(alloc, &mut Asked { input }, rows)
}
