//! Package ID specifications, by which cargo's options name packages: see the chapter "Package ID
//! Specifications" of the Cargo reference.

ghost use Rattle.std.specs.Prelude.{◌≡◌, ◌↔◌, ◌<◌, ◌==◌, true, false, Ok, Err, option_map};
ghost use Rattle.std.specs.Prelude.{MatchOption, is_some, option_copied, slice_index};
ghost use Rattle.std.specs.List.{before_first, after_first};
ghost use Rattle.hack_pkgids.specs.PackageSpecs.{behind_first_byte, is_byte, filled_part};
ghost use Rattle.hack_pkgids.specs.PackageSpecs.{third, version_parts_of};
ghost use Rattle.std.specs.Char.{is_ascii_digit};
ghost use Rattle.std.specs.Cmp.Lexicographic.{pointwise};
ghost use Rattle.hack_pkgids.specs.PackageSpecs.{Matches, HasBadId, HasBadVersion};
ghost use Rattle.hack_pkgids.specs.InternalSpecAnswers.{agrees_if_given, fits};
ghost use Rattle.hack_pkgids.specs.InternalSpecAnswers.{parts_at_separator, behind_name};
ghost use Rattle.hack_pkgids.specs.InternalSpecAnswers.{in_fragment, of_fragments, is_same_place};
ghost use Rattle.hack_pkgids.specs.InternalSpecAnswers.{alone_in, IsUrlOrNone, IsNoUrl};
ghost use Rattle.hack_pkgids.specs.InternalSpecAnswers.{IsSchemeCut, IsBehind, behind_separator};
ghost use Rattle.hack_pkgids.specs.InternalSpecAnswers.{behind_byte, of_urls, cut_by, earlier};
ghost use Rattle.hack_pkgids.specs.Views.{identity_of, pair_view, url_view, version_view};

use thiserror::Error;

/// Why it can't be decided whether a specification matches a package.
#[derive(Debug, PartialEq, Eq, Drop, Error)]
pub enum SpecFault {
    /// The specification is a URL, and the package's id is none.
    #[error("the id of the package is no package ID specification")]
    BadId,
    /// The version to be compared with has no three parts.
    #[error("the version of the package has no three parts")]
    BadVersion,
}

/// What a specification is compared with.
#[derive(Clone, Copy)]
pub struct PackageIdentity<'a> {
    pub name: &'a str,
    pub version: &'a str,
    /// The package's id, as `cargo metadata` has it.
    pub id: &'a str,
}

/// Returns whether the specification matches the package: it is the package's name, the name and a
/// version, or a URL that agrees with the package's id.
pub fn matches(pkg: PackageIdentity<'_>, spec: &str) -> Result<bool, SpecFault>
    ensures matches { (result ≡ Ok true) ↔ Matches (identity_of pkg.entry) spec.now }
    ensures bad_id { (result ≡ Err SpecFault.BadId) ↔ HasBadId (identity_of pkg.entry) spec.now }
    ensures bad_version { (result ≡ Err SpecFault.BadVersion)
        ↔ HasBadVersion (identity_of pkg.entry) spec.now }
{
    match without_name(spec, pkg.name) {
        Some(rest) => match_behind_name(pkg.version, rest),
        None => {
            let given = UrlParts::of(spec.trim_ascii_end());
            match_urls(pkg, given, UrlParts::of(pkg.id))
        }
    }
}

/// Returns what follows the name at the beginning of a specification.
fn without_name<'a>(spec: &'a str, name: &str) -> Option<&'a str>
    ensures { IsBehind name.now spec.now (option_copied result) }
{
    spec.strip_prefix(name)
}

/// Returns whether what follows the name matches: nothing, or a separator and a version.
fn match_behind_name(version: &str, rest: &str) -> Result<bool, SpecFault>
    ensures { result ≡ behind_name version.now rest.now }
{
    if rest.is_empty() {
        return Ok(true);
    }
    match without_separator(rest) {
        Some(given) => version_fits(given, version),
        None => Ok(false),
    }
}

/// Returns what follows a separator at the beginning.
fn without_separator(rest: &str) -> Option<&str>
    ensures { option_copied result ≡ behind_separator rest.now }
{
    match without_byte(rest, '@') {
        Some(given) => Some(given),
        None => without_byte(rest, ':'),
    }
}

/// Returns what follows this byte at the beginning.
fn without_byte(rest: &str, at: char) -> Option<&str>
    requires { at < 128 }
    ensures { option_copied result ≡ behind_byte at rest.now }
{
    rest.strip_prefix(at)
}

/// Returns whether a specification matches an id, each read as a URL, or None where it is no URL.
fn match_urls(
    pkg: PackageIdentity<'_>,
    given: Option<UrlParts<'_>>,
    own: Option<UrlParts<'_>>,
) -> Result<bool, SpecFault>
    ensures { result ≡ of_urls (identity_of pkg.entry) (option_map url_view given.entry)
        (option_map url_view own.entry) }
{
    let Some(given) = given else {
        return Ok(false);
    };
    let Some(own) = own else {
        return Err(SpecFault::BadId);
    };
    if !given.is_place(&own) {
        return Ok(false);
    }
    match_fragments(pkg, given.fragment, own.fragment)
}

/// Returns whether the fragment of a specification matches that of the id.
fn match_fragments(
    pkg: PackageIdentity<'_>,
    given: Option<&str>,
    own: Option<&str>,
) -> Result<bool, SpecFault>
    ensures { result ≡ of_fragments (identity_of pkg.entry) (option_copied given.entry)
        (option_copied own.entry) }
{
    let Some(given) = given else {
        return Ok(true);
    };
    let Some(own) = own else {
        return Ok(false);
    };
    match_fragment(pkg, given, own)
}

/// Returns whether a fragment matches that of the id, where both have one.
fn match_fragment(pkg: PackageIdentity<'_>, given: &str, own: &str) -> Result<bool, SpecFault>
    ensures { result ≡ in_fragment (identity_of pkg.entry) given.now (parts_at_separator given.now)
        (parts_at_separator own.now) }
{
    let Some((name, version)) = cut_at_separator(given) else {
        return match_alone(pkg, given);
    };
    match cut_at_separator(own) {
        Some((own_name, own_version)) if name == own_name => version_fits(version, own_version),
        Some(_) => Ok(false),
        None => Ok(false),
    }
}

/// Returns whether a fragment that is a name or a version alone matches.
fn match_alone(pkg: PackageIdentity<'_>, given: &str) -> Result<bool, SpecFault>
    ensures { result ≡ alone_in (identity_of pkg.entry) given.now }
{
    if given == pkg.name {
        return Ok(true);
    }
    if begins_with_digit(given) {
        return version_fits(given, pkg.version);
    }
    Ok(false)
}

fn begins_with_digit(text: &str) -> bool
    ensures { result ≡ is_ascii_digit (slice_index text.now 0) }
{
    match text.as_bytes().first() {
        Some(byte) => *byte >= b'0' && *byte <= b'9',
        None => false,
    }
}

/// The parts of a URL, `[kind+]protocol://path[?query][#fragment]`. The kind is dropped, and an
/// empty query or fragment is none.
#[derive(Clone, Copy)]
struct UrlParts<'a> {
    protocol: &'a str,
    path: &'a str,
    query: Option<&'a str>,
    fragment: Option<&'a str>,
}

impl<'a> UrlParts<'a> {
    fn of(text: &'a str) -> Option<UrlParts<'a>>
        ensures { IsUrlOrNone text.now (option_map url_view result) }
    {
        let (scheme, rest) = cut_at_scheme(text)?;
        let (front, kindless) = cut(scheme, '+');
        let (address, fragment) = cut_part(rest, '#');
        let (path, query) = cut_part(address, '?');
        Some(UrlParts {
            protocol: kindless.unwrap_or(front),
            path,
            query,
            fragment,
        })
    }

    /// Returns whether both are the same place: the same protocol, path, and query where it is
    /// given.
    fn is_place(&self, own: &UrlParts<'_>) -> bool
        ensures { result ≡ is_same_place (url_view self.now) (url_view own.now) }
    {
        self.protocol == own.protocol
            && self.path == own.path
            && agrees_if_given(self.query, own.query)
    }
}

/// Cuts a text at its first `://`. None where it has none.
fn cut_at_scheme(text: &str) -> Option<(&str, &str)>
    ensures { MatchOption result (IsNoUrl text.now)
        (λ parts. IsSchemeCut text.now parts.0.now parts.1.now) }
{
    text.split_once("://")
}

/// The parts of a version, `major[.minor[.patch[-pre][+build]]]`. An empty pre-release or build is
/// none.
#[derive(Clone, Copy)]
struct VersionParts<'a> {
    major: &'a str,
    minor: Option<&'a str>,
    patch: Option<&'a str>,
    pre: Option<&'a str>,
    build: Option<&'a str>,
}

impl<'a> VersionParts<'a> {
    fn of(text: &'a str) -> VersionParts<'a>
        ensures parts { version_view result ≡ version_parts_of text.now }
        ensures whole { is_some (option_copied result.patch) ≡ is_some (third text.now) }
    {
        let (major, rest) = cut(text, '.');
        let Some(rest) = rest else {
            return VersionParts {
                major,
                minor: None,
                patch: None,
                pre: None,
                build: None,
            };
        };
        let (minor, last) = cut(rest, '.');
        let Some(last) = last else {
            return VersionParts {
                major,
                minor: Some(minor),
                patch: None,
                pre: None,
                build: None,
            };
        };
        let (core, build) = cut_part(last, '+');
        let (patch, pre) = cut_part(core, '-');
        VersionParts {
            major,
            minor: Some(minor),
            patch: Some(patch),
            pre,
            build,
        }
    }

    /// Returns whether each part that is given equals that of `full`.
    fn agrees(&self, full: &VersionParts<'_>) -> bool
        ensures { result ≡ pointwise agrees_if_given
            (version_view self.now) (version_view full.now) }
    {
        self.major == full.major
            && agrees_if_given(self.minor, full.minor)
            && agrees_if_given(self.patch, full.patch)
            && agrees_if_given(self.pre, full.pre)
            && agrees_if_given(self.build, full.build)
    }
}

/// Returns whether a version fits a full one. The error says that `full` has no three parts.
fn version_fits(given: &str, full: &str) -> Result<bool, SpecFault>
    ensures { result ≡ fits given.now full.now }
{
    let full = VersionParts::of(full);
    if full.patch.is_none() {
        return Err(SpecFault::BadVersion);
    }
    Ok(VersionParts::of(given).agrees(&full))
}

/// Returns whether a part is not given, or equals the other one.
fn agrees_if_given(given: Option<&str>, full: Option<&str>) -> bool
    ensures { result ≡ agrees_if_given (option_copied given.entry) (option_copied full.entry) }
{
    let Some(given) = given else {
        return true;
    };
    match full {
        Some(full) => given == full,
        None => false,
    }
}

/// Cuts a text at its first byte `at`. Without one the front is the whole text.
fn cut(text: &str, at: char) -> (&str, Option<&str>)
    requires { at < 128 }
    ensures front { result.0.now ≡ before_first (is_byte at) text.now }
    ensures rest { option_copied result.1 ≡ behind_first_byte (is_byte at) text.now }
{
    match text.split_once(at) {
        Some((front, rest)) => (front, Some(rest)),
        None => (text, None),
    }
}

/// Cuts a text at its first byte `at`. Without one the front is the whole text. An empty rest is
/// none.
fn cut_part(text: &str, at: char) -> (&str, Option<&str>)
    requires { at < 128 }
    ensures front { result.0.now ≡ before_first (is_byte at) text.now }
    ensures rest { option_copied result.1 ≡ filled_part (after_first (is_byte at) text.now) }
{
    match text.split_once(at) {
        Some((front, rest)) => (front, filled_part(rest)),
        None => (text, None),
    }
}

fn filled_part(text: &str) -> Option<&str>
    ensures { option_copied result ≡ filled_part text.now }
{
    if text.is_empty() {
        return None;
    }
    Some(text)
}

/// Cuts a text at its first `@` or `:`. None where it has none.
fn cut_at_separator(text: &str) -> Option<(&str, &str)>
    ensures { option_map pair_view result ≡ parts_at_separator text.now }
{
    earlier(cut_at(text, '@'), cut_at(text, ':'))
}

/// Cuts a text at its first byte `at`. None where it has none.
fn cut_at(text: &str, at: char) -> Option<(&str, &str)>
    requires { at < 128 }
    ensures { option_map pair_view result ≡ cut_by (is_byte at) text.now }
{
    text.split_once(at)
}

/// Returns the one of two cuts that has the shorter front.
fn earlier<'a>(
    first: Option<(&'a str, &'a str)>,
    second: Option<(&'a str, &'a str)>,
) -> Option<(&'a str, &'a str)>
    ensures { option_map pair_view result
        ≡ earlier (option_map pair_view first.entry) (option_map pair_view second.entry) }
{
    let Some(cut) = first else {
        return second;
    };
    match second {
        Some(other) => {
            if other.0.len() < cut.0.len() {
                Some(other)
            } else {
                Some(cut)
            }
        }
        None => Some(cut),
    }
}
