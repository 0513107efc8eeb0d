//! How an option is read: one of the table by the value that it takes, another by its name.

ghost use Rattle.std.specs.Prelude.{◌≡◌, ◌&&◌, ◌||◌, IfOk, bytes_eq, codes, string_bytes};
ghost use Rattle.hack_base.specs.Names.{optional_text};
ghost use Rattle.hack_lexopt.specs.Parsers.{left_in};
ghost use Rattle.hack_rules.specs.Faults.{flag_seen};
ghost use Rattle.hack_lexopt.specs.Cuts.{value_of, optional_of};
ghost use Rattle.hack_rules.specs.UseReading.{known_option as known_reading};
ghost use Rattle.hack_rules.specs.UseReading.{unknown_option as unknown_reading, removed_of};
ghost use Rattle.hack_rules.specs.UseReading.{other as other_reading, by_kind as kind_reading};
ghost use Rattle.hack_rules.specs.UseReading.{option_with_value as value_reading, unless_quote};
ghost use Rattle.hack_rules.specs.UseReading.{option_with as optional_reading, help_of};
ghost use Rattle.hack_rules.specs.UseReading.{print_request as question_reading, similar_of};
ghost use Rattle.hack_rules.specs.Internal.{ReturnsStep};
ghost use Rattle.hack_options.specs.Table.{entry_of, meaning_of};
ghost use Rattle.hack_rules.specs.Uses.{views, is_given, subcommand_of};

use crate::uses::cut::{Found, NextUse};
use crate::uses::fault::{CutFault, OwnedFlag};
use crate::uses::seen::{given, subcommand};
use crate::uses::{Print, Use};
use hack_lexopt::{LexFault, Parser};
use hack_options::{Kind, Opt};
use std::alloc::{AllocError, Global};

/// Whether the value is a lone quote sign.
fn is_quote(value: &str) -> bool
    ensures { result ≡ (bytes_eq value.now (codes "'") || bytes_eq value.now (codes "\"")) }
{
    value == "'" || value == "\""
}

/// The subcommand that came before, if any.
fn subcommand_text(uses: &[Use]) -> Result<Option<String>, AllocError>
    ensures { IfOk result (λ word. optional_text word ≡ subcommand_of (views uses.now)) }
{
    match subcommand(uses) {
        Some(word) => Ok(Some(word.clone()?)),
        None => Ok(None),
    }
}

/// The use of an option of the table.
fn meet(option: Opt, flag: OwnedFlag, value: Option<String>) -> NextUse
    ensures { result ≡ NextUse.Met (Use.Known option flag value) }
{
    NextUse::Met(Use::Known {
        option,
        flag,
        value,
    })
}

/// An option that is not in the table, and the rest of its argument. Cargo's `-n`, `-q` and `-r`
/// take no value, so the letters after them are read as options.
pub(crate) fn cut_unknown(alloc: Global, parser: &mut Parser, flag: OwnedFlag) -> Found
    ensures { ReturnsStep result (left_in parser.new)
        (unknown_reading (flag_seen flag) (left_in parser.old)) }
{
    if let OwnedFlag::Short('n' | 'q' | 'r') = flag {
        return Ok(NextUse::Met(Use::Unknown { flag, value: None }));
    }
    let value = parser.optional_value(alloc)?;
    Ok(NextUse::Met(Use::Unknown { flag, value }))
}

/// A request to print a text, if no subcommand came before it; else the request is passed on to the
/// subcommand.
fn request(alloc: Global, parser: &mut Parser, uses: &[Use], flag: OwnedFlag, print: Print) -> Found
    ensures { ReturnsStep result (left_in parser.new)
        (question_reading print (subcommand_of (views uses.now)) (flag_seen flag)
        (left_in parser.old)) }
{
    match subcommand(uses) {
        Some(_) => cut_unknown(alloc, parser, flag),
        None => Ok(NextUse::Asks(print)),
    }
}

/// `-h` asks for the short help, `--help` for the long one.
fn help(flag: &OwnedFlag) -> Print
    ensures { result ≡ help_of (flag_seen flag.now) }
{
    match flag {
        OwnedFlag::Long(_) => Print::LongHelp,
        OwnedFlag::Short(_) => Print::ShortHelp,
    }
}

/// An option that takes a value, with the value that comes next.
fn with_value(alloc: Global, parser: &mut Parser, option: Opt, flag: OwnedFlag) -> Found
    ensures { ReturnsStep result (left_in parser.new)
        (value_reading option (flag_seen flag) (value_of (left_in parser.old))
        (left_in parser.old)) }
{
    match parser.value(alloc) {
        Ok(value) => Ok(meet(option.means(), flag, Some(value))),
        Err(LexFault::Memory) => Err(CutFault::Memory),
        Err(_) => Err(CutFault::Missing { flag }),
    }
}

/// An option that takes a list of names, with the list that comes next.
fn with_names(alloc: Global, parser: &mut Parser, option: Opt, flag: OwnedFlag) -> Found
    ensures { ReturnsStep result (left_in parser.new)
        (unless_quote (flag_seen flag) (value_of (left_in parser.old))
        (value_reading option (flag_seen flag) (value_of (left_in parser.old))
        (left_in parser.old))) }
{
    match parser.value(alloc) {
        Ok(value) if is_quote(&value) => Err(CutFault::LoneQuote { flag }),
        Ok(value) => Ok(meet(option.means(), flag, Some(value))),
        Err(LexFault::Memory) => Err(CutFault::Memory),
        Err(_) => Err(CutFault::Missing { flag }),
    }
}

/// An option whose list of names may be left out, with the list if one comes next.
fn optional_names(alloc: Global, parser: &mut Parser, option: Opt, flag: OwnedFlag) -> Found
    ensures { ReturnsStep result (left_in parser.new)
        (unless_quote (flag_seen flag) (optional_of (left_in parser.old))
        (optional_reading option (flag_seen flag) (optional_of (left_in parser.old))
        (left_in parser.old))) }
{
    match parser.value_or_none(alloc)? {
        Some(value) if is_quote(&value) => Err(CutFault::LoneQuote { flag }),
        value => Ok(meet(option.means(), flag, value)),
    }
}

/// An option of the table that is no repeat, with its value if it takes one.
fn by_kind(alloc: Global, parser: &mut Parser, uses: &[Use], option: Opt, flag: OwnedFlag) -> Found
    ensures { ReturnsStep result (left_in parser.new)
        (kind_reading (entry_of option).kind (views uses.now) option (flag_seen flag)
        (left_in parser.old)) }
{
    match option.row().kind {
        Kind::Flag => Ok(meet(option.means(), flag, None)),
        Kind::Value => with_value(alloc, parser, option, flag),
        Kind::Names => with_names(alloc, parser, option, flag),
        Kind::OptionalNames => optional_names(alloc, parser, option, flag),
        Kind::Help => {
            let print = help(&flag);
            request(alloc, parser, uses, flag, print)
        }
        Kind::Version => request(alloc, parser, uses, flag, Print::Version),
        Kind::Refused => Err(CutFault::BehaviorForm),
    }
}

/// Whether an option that may be given once was given before, by its name or its alias.
fn is_repeat(option: Opt, uses: &[Use]) -> bool
    ensures { result ≡ ((entry_of option).once && is_given (meaning_of option) (views uses.now)) }
{
    option.row().once && given(option.means(), uses)
}

/// An option of the table, with its value if it takes one.
pub(crate) fn cut_known(
    alloc: Global,
    parser: &mut Parser,
    uses: &[Use],
    option: Opt,
    flag: OwnedFlag,
) -> Found
    ensures { ReturnsStep result (left_in parser.new)
        (known_reading (views uses.now) option (flag_seen flag) (left_in parser.old)) }
{
    if is_repeat(option, uses) {
        return Err(CutFault::Repeat {
            flag,
            option,
            subcommand: subcommand_text(uses)?,
        });
    }
    by_kind(alloc, parser, uses, option, flag)
}

/// The option to use instead of one of older versions that was removed.
fn replacement_of(name: &str) -> Option<Opt>
    ensures { result ≡ removed_of name.now }
{
    if name == "ignore-non-exist-features" {
        Some(Opt::IgnoreUnknownFeatures)
    } else if name == "skip-no-default-features" {
        Some(Opt::ExcludeNoDefaultFeatures)
    } else {
        None
    }
}

/// The option whose name this one resembles: mostly as its singular or plural.
fn similar(name: &str) -> Option<Opt>
    ensures { result ≡ similar_of name.now }
{
    match name {
        "no-dev-dep" => Some(Opt::NoDevDeps),
        "remove-dev-dep" => Some(Opt::RemoveDevDeps),
        "each-features" => Some(Opt::EachFeature),
        "features-powerset" => Some(Opt::FeaturePowerset),
        "exclude-no-default-feature" => Some(Opt::ExcludeNoDefaultFeatures),
        "exclude-all-feature" => Some(Opt::ExcludeAllFeatures),
        "include-dep-features" => Some(Opt::IncludeDepsFeatures),
        "include-dep-feature" => Some(Opt::IncludeDepsFeatures),
        "include-deps-feature" => Some(Opt::IncludeDepsFeatures),
        "ignore-unknown-feature" => Some(Opt::IgnoreUnknownFeatures),
        _ => None,
    }
}

/// A long name that is not in the table.
pub(crate) fn other_name(alloc: Global, parser: &mut Parser, uses: &[Use], name: String) -> Found
    ensures { ReturnsStep result (left_in parser.new)
        (other_reading (removed_of (string_bytes name)) (similar_of (string_bytes name))
        (views uses.now) (string_bytes name) (left_in parser.old)) }
{
    if let Some(option) = replacement_of(&name) {
        return Err(CutFault::Removed {
            name,
            instead: option,
        });
    }
    if let Some(option) = similar(&name) {
        return Err(CutFault::Similar {
            name,
            meant: option,
            subcommand: subcommand_text(uses)?,
        });
    }
    cut_unknown(alloc, parser, OwnedFlag::Long(name))
}
