//! Feature maps, features and whole choices, made from short texts.
//!
//! An input is a map, and after ` $ ` its candidates, separated by spaces. A map is its lines,
//! separated by `;`: `a:;b: a c`. A feature is a name; `[a|b]` is the group of `a` and `b`, `()`
//! the group of no names, and `dep>feat` a path. Rules are words: `depth=2`, and groups of names
//! separated by commas. A set needs one of `some=a,b`, and has at most one of `apart=a,b`;
//! `lifted=a,b` is a group of the latter kind that is lifted.

use hack_features::Feature;
use std::alloc::{AllocError, Global};
use std::collections::BTreeMap;

pub type Map = BTreeMap<String, Vec<String>>;

/// The words of a text.
pub fn words(alloc: Global, text: &str) -> Result<Vec<String>, AllocError> {
    let mut words = Vec::new(alloc);
    for word in text.split_whitespace() {
        words.push(String::from_str(alloc, word)?)?;
    }
    Ok(words)
}

/// The text after `key` in the word that begins with it, or else `other`.
pub fn value<'a>(question: &'a str, key: &str, other: &'a str) -> &'a str {
    for word in question.split_whitespace() {
        if let Some(value) = word.strip_prefix(key) {
            return value;
        }
    }
    other
}

/// The word of a question at this place, from 0; empty where there is none.
pub fn word_at(question: &str, place: usize) -> &str {
    question.split_whitespace().nth(place).unwrap_or("")
}

/// The numbers between commas; none for a word that is no number.
pub fn numbers(alloc: Global, text: &str) -> Result<Vec<usize>, AllocError> {
    let mut numbers = Vec::new(alloc);
    for word in text.split(',') {
        if let Ok(number) = word.parse::<usize>() {
            numbers.push(number)?;
        }
    }
    Ok(numbers)
}

/// The depth of the rules.
pub fn depth_of(rules: &str) -> Option<usize> {
    value(rules, "depth=", "").parse::<usize>().ok()
}

/// A map from its lines.
pub fn map_of(alloc: Global, lines: &str) -> Result<Map, AllocError> {
    let mut map = BTreeMap::new(alloc);
    for line in lines.split(';') {
        if let Some((key, values)) = line.split_once(':') {
            map.insert(String::from_str(alloc, key)?, words(alloc, values)?)?;
        }
    }
    Ok(map)
}

/// The group of the names between the separators.
fn group(alloc: Global, text: &str, separator: char) -> Result<Feature, AllocError> {
    let mut names = Vec::new(alloc);
    for name in text.split(separator) {
        names.push(String::from_str(alloc, name)?)?;
    }
    Feature::group(alloc, names)
}

/// A feature from its text.
pub fn feature(alloc: Global, text: &str) -> Result<Feature, AllocError> {
    if text == "()" {
        Feature::group(alloc, Vec::new(alloc))
    } else if let Some((parent, name)) = text.split_once('>') {
        Feature::path(alloc, parent, name)
    } else if let Some(inside) = text.strip_prefix("[") {
        group(alloc, inside.trim_end_matches(']'), '|')
    } else {
        Feature::normal(alloc, text)
    }
}

/// A feature for each text between spaces; no text at all is an empty name.
pub fn features(alloc: Global, texts: &str) -> Result<Vec<Feature>, AllocError> {
    let mut features = Vec::new(alloc);
    for text in texts.split(' ') {
        features.push(feature(alloc, text)?)?;
    }
    Ok(features)
}

/// The groups of the words that begin with one of the keys.
fn groups(alloc: Global, rules: &str, keys: [&str; 2]) -> Result<Vec<Feature>, AllocError> {
    let [one, other] = keys;
    let mut groups = Vec::new(alloc);
    for word in rules.split_whitespace() {
        if let Some(names) = word.strip_prefix(one).or(word.strip_prefix(other)) {
            groups.push(group(alloc, names, ',')?)?;
        }
    }
    Ok(groups)
}

/// For each group of names that exclude each other, whether it is lifted.
fn lifted(alloc: Global, rules: &str) -> Result<Vec<bool>, AllocError> {
    let mut lifted = Vec::new(alloc);
    for word in rules.split_whitespace() {
        let is_lifted = word.starts_with("lifted=");
        if is_lifted || word.starts_with("apart=") {
            lifted.push(is_lifted)?;
        }
    }
    Ok(lifted)
}

/// The input from which the sets of a package are chosen, and the rules.
#[derive(Drop)]
pub struct Case {
    pub candidates: Vec<Feature>,
    pub map: Map,
    pub depth: Option<usize>,
    pub some: Vec<Feature>,
    pub apart: Vec<Feature>,
    pub lifted: Vec<bool>,
}

/// The case of an input with these rules.
pub fn case_of(alloc: Global, input: &str, rules: &str) -> Result<Case, AllocError> {
    let (map, candidates) = input.split_once(" $ ").unwrap_or((input, ""));
    Ok(Case {
        candidates: features(alloc, candidates)?,
        map: map_of(alloc, map)?,
        depth: depth_of(rules),
        some: groups(alloc, rules, ["some=", "some="])?,
        apart: groups(alloc, rules, ["apart=", "lifted="])?,
        lifted: lifted(alloc, rules)?,
    })
}

/// References to all features.
pub fn refs(alloc: Global, features: &[Feature]) -> Result<Vec<&Feature>, AllocError> {
    features.iter().collect(alloc)
}

/// A map of the names `f1` to `f{n}`, each of which but the first enables the one before it.
fn chain(alloc: Global, n: usize) -> Result<String, AllocError> {
    let mut text = String::from_str(alloc, "f1:")?;
    for i in 1..n {
        let next = i.saturating_add(1);
        text.push_str(format!(in alloc; ";f{next}: f{i}")?.as_str())?;
    }
    Ok(text)
}

/// The input of the candidates `f1` to `f{n}`: they are a chain where `is_chain` says so, else no
/// keys.
pub fn numbered(alloc: Global, n: usize, is_chain: bool) -> Result<String, AllocError> {
    let mut text = String::new(alloc);
    if is_chain {
        text = chain(alloc, n)?;
    }
    text.push_str(" $ f1")?;
    for i in 1..n {
        let next = i.saturating_add(1);
        text.push_str(format!(in alloc; " f{next}")?.as_str())?;
    }
    Ok(text)
}
