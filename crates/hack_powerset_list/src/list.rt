//! The list of commands of a package's feature powerset, from the bytes of its feature map.

ghost use Rattle.std.specs.Prelude.{◌≡◌, length, map, string_bytes, OnOk, IfOk, IfErr};
ghost use Rattle.hack_base.specs.Writes.{NoFewer};
ghost use Rattle.hack_features.specs.Feature.{candidates_of, groups_of};
ghost use Rattle.hack_routes.specs.FeatureMap.{feature_map};
ghost use Rattle.hack_features.specs.View.{choice_of, size_of};
ghost use Rattle.hack_powerset_list.specs.CommandList.{WritesList, RefusesList};
ghost use Rattle.hack_powerset_list.specs.Internal.{chosen_from};
ghost use Rattle.hack_powerset_list.specs.Streams.{IsCounted};

use crate::fault::ListFault;
use crate::input::{all_of, features_of, map_of};
use crate::runs::write_lines;
use crate::streams::{Source, read_whole};
use crate::wishes::Wishes;
use hack_base::writes::Sink;
use hack_features::{Feature, Rules};
use std::alloc::{AllocError, Global};
use std::collections::BTreeMap;

/// The rules by which sets are listed. `candidates` are references to all features.
fn rules_for<'a>(
    alloc: Global,
    wishes: &'a Wishes,
    features: &[Feature],
    candidates: &'a [&'a Feature],
    found: &'a BTreeMap<String, Vec<String>>,
) -> Result<Rules<'a>, AllocError>
    requires { candidates_of candidates.now ≡ groups_of features.now }
    ensures choice { IfOk result (λ rules. choice_of rules
        ≡ chosen_from wishes.now features.now (feature_map found.now)) }
    ensures size { IfOk result (λ rules. size_of rules ≡ length features.now) }
{
    let rules = Rules::new(
        alloc,
        candidates,
        wishes.depth,
        wishes.at_least_one_of.as_slice(),
        wishes.mutually_exclusive.as_slice(),
        found,
        &[],
    )?;
    Ok(rules)
}

/// Reads a package's feature map from `input`, a JSON object of arrays of texts, and writes to
/// `out` the commands of its feature powerset: what `cargo hack check --feature-powerset
/// --no-manifest-path --print-command-list` prints for a package with these features and no
/// dependencies. `words` are the arguments `--depth N`, `--at-least-one-of LIST` and
/// `--mutually-exclusive-features LIST`, where each value is an argument of its own. The arguments
/// are checked first and then the input; after an error in either, nothing is written.
pub fn powerset_list<R: Source, W: Sink>(
    alloc: Global,
    words: &[String],
    input: &mut R,
    out: &mut W,
) -> Result<(), ListFault>
    ensures ok { OnOk result (WritesList (map string_bytes words.now)
        (R.remaining input.old) (W.contents out.old) (W.contents out.new)) }
    ensures err { IfErr result (RefusesList (map string_bytes words.now)
        (R.remaining input.old) (W.contents out.old) (W.contents out.new)) }
    ensures counted { IfErr result (IsCounted (R.failed input.old) (R.failed input.new)
        (W.failed out.old) (W.failed out.new)) }
    ensures kept { NoFewer (R.failed input.old) (R.failed input.new)
        × NoFewer (W.failed out.old) (W.failed out.new) }
{
    let wishes = Wishes::of(alloc, words)?;
    let bytes = match read_whole(alloc, input) {
        Ok(bytes) => bytes,
        Err(error) => return Err(ListFault::of_error(&error, ListFault::Read)),
    };
    let Some(map) = map_of(alloc, bytes.as_slice())? else {
        return Err(ListFault::Input);
    };
    let features = features_of(alloc, &map)?;
    let candidates = all_of(alloc, features.as_slice())?;
    let mut rules = rules_for(
        alloc,
        &wishes,
        features.as_slice(),
        candidates.as_slice(),
        &map,
    )?;
    match write_lines(alloc, &wishes, features.as_slice(), &mut rules, out) {
        Ok(()) => Ok(()),
        Err(error) => Err(ListFault::of_error(&error, ListFault::Write)),
    }
}
