//! Finds an option by its name or letter.

ghost use Rattle.std.specs.Prelude.{◌≡◌, ◌==◌, false, Some};
ghost use Rattle.std.specs.List.{find};
ghost use Rattle.std.specs.Option.{option_map_or};
ghost use Rattle.std.specs.Str.{bytes_eq};
ghost use Rattle.hack_options.specs.Find.{FindsOption, long_option, short_option};
ghost use Rattle.hack_options.specs.Table.{entry_of};

use crate::opt::Opt;
use crate::table::ALL;

/// The first option with this name.
fn find_name(options: &[Opt], name: &str) -> Option<Opt>
    ensures { result ≡ find (λ o. bytes_eq (entry_of o).name name.now) options.now }
{
    for option in options {
        if option.row().name == name {
            return Some(*option);
        }
    }
    None
}

/// The first option with this letter.
fn find_letter(options: &[Opt], letter: char) -> Option<Opt>
    ensures { result ≡ find (λ o. option_map_or (λ l. l == letter) (entry_of o).letter false)
        options.now }
{
    for option in options {
        if option.row().letter == Some(letter) {
            return Some(*option);
        }
    }
    None
}

/// The option with this long name, which is given without its two dashes.
pub fn long(name: &str) -> Option<Opt>
    ensures value { result ≡ long_option name.now }
    ensures each { FindsOption result (λ option. (entry_of option).name ≡ name.now) }
{
    find_name(&ALL, name)
}

/// The option with this letter.
pub fn short(letter: char) -> Option<Opt>
    ensures value { result ≡ short_option letter }
    ensures each { FindsOption result (λ option. (entry_of option).letter ≡ Some letter) }
{
    find_letter(&ALL, letter)
}
