//! Sets and orders as text.

use hack_features::Feature;
use std::alloc::{AllocError, Global};
use std::cmp::Ordering;

/// Appends a separator before all but the first.
pub fn push_between(text: &mut String, place: usize, separator: &str) -> Result<(), AllocError> {
    if place == 0 {
        Ok(())
    } else {
        text.push_str(separator)
    }
}

/// Appends a set of numbers to the text, such as `[0,2]`.
pub fn push_numbers(text: &mut String, set: &[usize]) -> Result<(), AllocError> {
    text.push_str("[")?;
    for (place, number) in set.iter().enumerate() {
        push_between(text, place, ",")?;
        write!(text, "{number}")?;
    }
    text.push_str("]")
}

/// Appends the names of a set of features to the text, such as `[a,c]`.
pub fn push_names(text: &mut String, set: &[&Feature]) -> Result<(), AllocError> {
    text.push_str("[")?;
    for (place, feature) in set.iter().enumerate() {
        push_between(text, place, ",")?;
        text.push_str(feature.name())?;
    }
    text.push_str("]")
}

/// Appends the letter of an order to the text; `?` where there is none.
pub fn push_order(text: &mut String, order: Option<Ordering>) -> Result<(), AllocError> {
    text.push(match order {
        Some(Ordering::Less) => '<',
        Some(Ordering::Equal) => '=',
        Some(Ordering::Greater) => '>',
        None => '?',
    })
}

/// A bool as text.
pub fn told(alloc: Global, is_so: bool) -> Result<String, AllocError> {
    String::from_str(alloc, if is_so { "true" } else { "false" })
}
