//! Values of options, attached and not. `parser: CALLS of WORDS` makes calls of one parser over the
//! arguments between bars, and the answer has a line for each: `next` reads an item, `value` wants
//! a value, `attached` takes what is attached to the option, and `or-none` takes the next argument
//! too unless it is an option. A value is quoted.

use crate::asks::{halves, list, on, push_line};
use hack_holds::Wrong;
use hack_lexopt::Parser;
use std::alloc::{AllocError, Global};

pub fn parser(alloc: Global, text: &str) -> Result<String, AllocError> {
    let (calls, words) = halves(text, " of ");
    let mut parser = Parser::from_args(alloc, list(alloc, words)?);
    let mut told = String::new(alloc);
    for call in calls.split(' ') {
        push_line(&mut told, called(alloc, &mut parser, call)?.as_str())?;
    }
    Ok(told)
}

fn called(alloc: Global, parser: &mut Parser, call: &str) -> Result<String, AllocError> {
    match call {
        "next" => cut(alloc, parser),
        "value" => value(alloc, parser),
        "attached" => quoted(alloc, parser.optional_value(alloc)?),
        "or-none" => quoted(alloc, parser.value_or_none(alloc)?),
        _ => String::from_str(alloc, "no such call"),
    }
}

/// The text of the next item; `end` after the last; the error's text where it is refused.
fn cut(alloc: Global, parser: &mut Parser) -> Result<String, AllocError> {
    match parser.next() {
        Ok(Some(arg)) => arg.to_string(alloc),
        Ok(None) => String::from_str(alloc, "end"),
        Err(fault) => fault.to_string(alloc),
    }
}

fn value(alloc: Global, parser: &mut Parser) -> Result<String, AllocError> {
    match parser.value(alloc) {
        Ok(value) => quoted(alloc, Some(value)),
        Err(fault) => fault.to_string(alloc),
    }
}

fn quoted(alloc: Global, value: Option<String>) -> Result<String, AllocError> {
    match value {
        Some(value) => format!(in alloc; "'{value}'"),
        None => String::from_str(alloc, "none"),
    }
}

#[test]
fn values_that_nobody_took(rt: HostRuntime) -> Result<(), Wrong> {
    on(
        rt.alloc(),
        "
            > parser: next next next of --foo=bar|x
            | --foo
            | unexpected argument
            | x
            > parser: next next next of --foo=|x
            | --foo
            | unexpected argument
            | x
            > parser: next next next of -j=4|x
            | -j
            | unexpected argument
            | x
        ",
    )
}

#[test]
fn values(rt: HostRuntime) -> Result<(), Wrong> {
    on(
        rt.alloc(),
        "
            > parser: next value next of -j4|x|--y
            | -j
            | '4'
            | x
            > parser: next value next of -j=4|x|--y
            | -j
            | '4'
            | x
            > parser: next value next of -j==4|x|--y
            | -j
            | '=4'
            | x
            > parser: next value next of -éß|x|--y
            | -é
            | 'ß'
            | x
            > parser: next value next of --foo=bar|x|--y
            | --foo
            | 'bar'
            | x
            > parser: next value next of --foo=|x|--y
            | --foo
            | ''
            | x
            > parser: next value next of --foo|x|--y
            | --foo
            | 'x'
            | --y
            > parser: next value next of -j|x|--y
            | -j
            | 'x'
            | --y

            # No argument is left.
            > parser: next value next of --foo
            | --foo
            | missing argument
            | end
        ",
    )
}

#[test]
fn values_that_may_be_left_out(rt: HostRuntime) -> Result<(), Wrong> {
    on(
        rt.alloc(),
        "
            > parser: next attached of --foo=|x
            | --foo
            | ''
            > parser: next or-none of --foo=|x
            | --foo
            | ''
            > parser: next attached of -ab|x
            | -a
            | 'b'
            > parser: next or-none of -ab|x
            | -a
            | 'b'
            > parser: next attached of --foo|x
            | --foo
            | none
            > parser: next or-none of --foo|x
            | --foo
            | 'x'
            > parser: next attached of --foo|-
            | --foo
            | none
            > parser: next or-none of --foo|-
            | --foo
            | '-'
            > parser: next attached of --foo|-x
            | --foo
            | none
            > parser: next or-none of --foo|-x
            | --foo
            | none
            > parser: next attached of --foo|--x=y
            | --foo
            | none
            > parser: next or-none of --foo|--x=y
            | --foo
            | none
        ",
    )
}
