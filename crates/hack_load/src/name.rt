//! The name of a package as the user reads it.

ghost use Rattle.std.specs.Prelude.{Some};
ghost use Rattle.hack_load.specs.Names.{name_text};

use std::fmt;

/// The name of a package. For verbose output it shows the folder of the package's manifest after
/// it.
#[derive(Drop)]
pub struct VerboseName<'a> {
    pub(crate) name: &'a str,
    pub(crate) folder: Option<&'a str>,
}

impl fmt::Display for VerboseName<'_> {
    ghost output = { λ v. Some (name_text v) };

    fn fmt<W: fmt::Write>(&self, f: &mut fmt::Formatter<W>) -> fmt::Result {
        let name = self.name;
        match self.folder {
            Some(folder) => write!(f, "{name} ({folder})"),
            None => f.write_str(name),
        }
    }
}
