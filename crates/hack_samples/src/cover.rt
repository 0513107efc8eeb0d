//! A sample of sets that shows each pattern of a few candidates that some listed set shows.

ghost use Rattle.std.specs.Prelude.{◌≡◌, ◌<◌, ◌≤◌, ◌+◌, ◌-◌, ◌^◌, [], true, false, min, IfOk};
ghost use Rattle.std.specs.Prelude.{IfErr, OnOk, MatchBool};
ghost use Rattle.hack_samples.specs.Sets.{rows_of, tables_of};
ghost use Rattle.hack_samples.specs.Samples.{IsMaskSample, SomeShows, ShowEachPattern, IsLean};
ghost use Rattle.hack_samples.specs.InternalDescendingPatterns.{CoversBelow, IsPossible, AreKept};
ghost use Rattle.hack_samples.specs.Questions.{IsTired};
ghost use Rattle.hack_samples.specs.Internal.{StaysWithin, IsShorter, IsChosen};

use crate::allowed::Allowed;
use crate::demands::Wanted;
use crate::fault::SampleFault;
use crate::greedy::Columns;
use crate::guide::has_rows;
use crate::lean::leave_out;
use crate::order::put;
use crate::patterns::{Further, some_shows, with};
use crate::search::pick;
use crate::sets::{Setting, is_on};
use std::alloc::{AllocError, Global};

/// The sets so far, in the order of sets.
#[derive(Drop)]
struct Chosen {
    sets: Vec<Vec<bool>>,
    columns: Columns,
}

/// Adds a set that shows the pattern, unless one of the chosen sets shows it. Returns false if no
/// listed set shows it.
fn show<A: Allowed>(
    alloc: Global,
    allowed: &mut A,
    wanted: &Wanted<'_>,
    chosen: &mut Chosen,
    pattern: &[Setting],
) -> Result<bool, SampleFault>
    requires { IsMaskSample (A.may allowed.old) (A.size allowed.old)
        (rows_of wanted.now.required.now) (rows_of chosen.old.sets.items) }
    ensures sample { OnOk result (IsMaskSample (A.may allowed.old) (A.size allowed.old)
        (rows_of wanted.now.required.now) (rows_of chosen.new.sets.items)) }
    ensures kept { OnOk result (AreKept (rows_of chosen.old.sets.items)
        (rows_of chosen.new.sets.items)) }
    ensures shown { IfOk result (λ possible. MatchBool possible
        (SomeShows (tables_of wanted.now.providers.now) pattern.now
        (rows_of chosen.new.sets.items))
        (IsPossible (A.may allowed.old) (A.size allowed.old) (rows_of wanted.now.required.now)
        (tables_of wanted.now.providers.now) pattern.now → ⊥)) }
    ensures tired { IfErr result (IsTired wanted.now.end (A.count allowed.new)) }
    ensures within { StaysWithin wanted.now.end (A.count allowed.old) (A.count allowed.new) }
    ensures same_size { A.size allowed.new ≡ A.size allowed.old }
    ensures same_may { A.may allowed.new ≡ A.may allowed.old }
    ensures stays { (first : A) → A.stays first allowed.old → A.stays first allowed.new }
{
    if some_shows(wanted.providers, chosen.sets.as_slice(), pattern) {
        return Ok(true);
    }
    let picked = pick(alloc, allowed, wanted, &mut chosen.columns, pattern)?;
    let Some(set) = picked else {
        return Ok(false);
    };
    chosen.columns.add(wanted.providers, set.as_slice());
    put(&mut chosen.sets, set)?;
    Ok(true)
}

/// Adds sets until the chosen sets show the pattern and each pattern that continues it further. It
/// passes over patterns that no listed set shows.
fn cover<A: Allowed>(
    alloc: Global,
    allowed: &mut A,
    wanted: &Wanted<'_>,
    chosen: &mut Chosen,
    pattern: &[Setting],
    further: Further,
) -> Result<(), SampleFault>
    requires { IsMaskSample (A.may allowed.old) (A.size allowed.old)
        (rows_of wanted.now.required.now) (rows_of chosen.old.sets.items) }
    ensures sample { OnOk result (IsMaskSample (A.may allowed.old) (A.size allowed.old)
        (rows_of wanted.now.required.now) (rows_of chosen.new.sets.items)) }
    ensures kept { OnOk result (AreKept (rows_of chosen.old.sets.items)
        (rows_of chosen.new.sets.items)) }
    ensures covered { OnOk result (CoversBelow (A.may allowed.old) (A.size allowed.old)
        (rows_of wanted.now.required.now) (tables_of wanted.now.providers.now) pattern.now
        further.limit further.more (rows_of chosen.new.sets.items)) }
    ensures tired { IfErr result (IsTired wanted.now.end (A.count allowed.new)) }
    ensures within { StaysWithin wanted.now.end (A.count allowed.old) (A.count allowed.new) }
    ensures same_size { A.size allowed.new ≡ A.size allowed.old }
    ensures same_may { A.may allowed.new ≡ A.may allowed.old }
    ensures stays { (first : A) → A.stays first allowed.old → A.stays first allowed.new }
{
    let possible = show(alloc, allowed, wanted, chosen, pattern)?;
    if !possible {
        return Ok(());
    }
    if further.more == 0 {
        return Ok(());
    }
    for candidate in 0..further.limit {
        let narrower = Further {
            limit: candidate,
            more: further.more - 1,
        };
        let on = with(
            alloc,
            pattern,
            Setting {
                candidate,
                on: true,
            },
        )?;
        let next = on.as_slice();
        cover(alloc, allowed, wanted, chosen, next, narrower)?;
        let off = with(
            alloc,
            pattern,
            Setting {
                candidate,
                on: false,
            },
        )?;
        let next = off.as_slice();
        cover(alloc, allowed, wanted, chosen, next, narrower)?;
    }
    Ok(())
}

/// Returns for each candidate whether it is on in the set.
fn settings_of(
    alloc: Global,
    providers: &[Vec<Vec<usize>>],
    set: &[bool],
) -> Result<Vec<Setting>, AllocError> {
    (0..providers.len())
        .map(|candidate| Setting {
            candidate,
            on: is_on(providers, set, candidate),
        })
        .collect(alloc)
}

/// Adds the set that a row of the guide leads to, unless exactly the same candidates are on in one
/// of the chosen sets.
fn follow<A: Allowed>(
    alloc: Global,
    allowed: &mut A,
    wanted: &Wanted<'_>,
    chosen: &mut Chosen,
    row: u32,
) -> Result<(), SampleFault>
    requires { IsMaskSample (A.may allowed.old) (A.size allowed.old)
        (rows_of wanted.now.required.now) (rows_of chosen.old.sets.items) }
    ensures sample { OnOk result (IsMaskSample (A.may allowed.old) (A.size allowed.old)
        (rows_of wanted.now.required.now) (rows_of chosen.new.sets.items)) }
    ensures tired { IfErr result (IsTired wanted.now.end (A.count allowed.new)) }
    ensures within { StaysWithin wanted.now.end (A.count allowed.old) (A.count allowed.new) }
    ensures same_size { A.size allowed.new ≡ A.size allowed.old }
    ensures same_may { A.may allowed.new ≡ A.may allowed.old }
    ensures stays { (first : A) → A.stays first allowed.old → A.stays first allowed.new }
{
    chosen.columns.follow(Some(row));
    let picked = pick(alloc, allowed, wanted, &mut chosen.columns, &[])?;
    chosen.columns.follow(None);
    let Some(set) = picked else {
        return Ok(());
    };
    let settings = settings_of(alloc, wanted.providers, set.as_slice())?;
    if some_shows(
        wanted.providers,
        chosen.sets.as_slice(),
        settings.as_slice(),
    ) {
        return Ok(());
    }
    chosen.columns.add(wanted.providers, set.as_slice());
    put(&mut chosen.sets, set)?;
    Ok(())
}

/// Returns a sample as `sample` does. If `guided` is true, the first sets are those that the rows
/// of the guide lead to.
fn sample_by<A: Allowed>(
    alloc: Global,
    allowed: &mut A,
    wanted: &Wanted<'_>,
    guided: bool,
) -> Result<Vec<Vec<bool>>, SampleFault>
    ensures sample { IfOk result (λ sets. IsMaskSample (A.may allowed.old) (A.size allowed.old)
        (rows_of wanted.now.required.now) (rows_of sets.items)) }
    ensures covers { IfOk result (λ sets. ShowEachPattern (A.may allowed.old) (A.size allowed.old)
        (rows_of wanted.now.required.now) (tables_of wanted.now.providers.now)
        wanted.now.strength (rows_of sets.items)) }
    ensures tired { IfErr result (IsTired wanted.now.end (A.count allowed.new)) }
    ensures within { StaysWithin wanted.now.end (A.count allowed.old) (A.count allowed.new) }
    ensures same_size { A.size allowed.new ≡ A.size allowed.old }
    ensures same_may { A.may allowed.new ≡ A.may allowed.old }
    ensures stays { (first : A) → A.stays first allowed.old → A.stays first allowed.new }
{
    let candidates = wanted.providers.len();
    let columns = Columns::new(alloc, candidates, wanted.strength)?;
    let rows = if guided { columns.rows() } else { 0 };
    let mut chosen = Chosen {
        sets: Vec::new(alloc),
        columns,
    };
    for row in 0..rows {
        follow(alloc, allowed, wanted, &mut chosen, row)?;
    }
    let further = Further {
        limit: candidates,
        more: wanted.strength,
    };
    cover(alloc, allowed, wanted, &mut chosen, &[], further)?;
    Ok(chosen.sets)
}

/// Returns what is left of such a sample once each set is left out that it doesn't need.
fn lean_by<A: Allowed>(
    alloc: Global,
    allowed: &mut A,
    wanted: &Wanted<'_>,
    guided: bool,
) -> Result<Vec<Vec<bool>>, SampleFault>
    ensures sample { IfOk result (λ sets. IsMaskSample (A.may allowed.old) (A.size allowed.old)
        (rows_of wanted.now.required.now) (rows_of sets.items)) }
    ensures covers { IfOk result (λ sets. ShowEachPattern (A.may allowed.old) (A.size allowed.old)
        (rows_of wanted.now.required.now) (tables_of wanted.now.providers.now)
        wanted.now.strength (rows_of sets.items)) }
    ensures lean { IfOk result (λ sets. IsLean (tables_of wanted.now.providers.now)
        wanted.now.strength (rows_of sets.items)) }
    ensures tired { IfErr result (IsTired wanted.now.end (A.count allowed.new)) }
    ensures within { StaysWithin wanted.now.end (A.count allowed.old) (A.count allowed.new) }
    ensures same_size { A.size allowed.new ≡ A.size allowed.old }
    ensures same_may { A.may allowed.new ≡ A.may allowed.old }
    ensures stays { (first : A) → A.stays first allowed.old → A.stays first allowed.new }
{
    let mut sets = sample_by(alloc, allowed, wanted, guided)?;
    leave_out(alloc, wanted.providers, wanted.strength, &mut sets)?;
    Ok(sets)
}

/// Returns a few of the listed sets, in the order of sets, each once, that show each pattern of at
/// most `strength` candidates that some listed set shows. Each of them is the only one that shows
/// some such pattern.
///
/// `providers` has for each candidate a row for each of its names, with the positions that enable
/// it: the candidate is on in a set that has a member of each row. A listed set is an allowed one
/// that has a member of each required group. The same arguments give the same sample. The search is
/// exact, so it can take long if there are many groups and many sets that aren't allowed: it asks
/// at most `most_questions` questions, and the error is `TooManyQuestions` if these are not enough.
pub fn sample<A: Allowed>(
    alloc: Global,
    allowed: &mut A,
    providers: &[Vec<Vec<usize>>],
    required: &[Vec<usize>],
    strength: usize,
    most_questions: u64,
) -> Result<Vec<Vec<bool>>, SampleFault>
    ensures sample { IfOk result (λ sets. IsMaskSample (A.may allowed.old) (A.size allowed.old)
        (rows_of required.now) (rows_of sets.items)) }
    ensures covers { IfOk result (λ sets. ShowEachPattern (A.may allowed.old) (A.size allowed.old)
        (rows_of required.now) (tables_of providers.now) strength (rows_of sets.items)) }
    ensures lean { IfOk result (λ sets. IsLean (tables_of providers.now) strength
        (rows_of sets.items)) }
    ensures tired { IfErr result (IsTired (min (A.count allowed.old + most_questions)
        (2 ^ 128 - 1)) (A.count allowed.new)) }
    ensures within { A.count allowed.new ≤ A.count allowed.old + most_questions }
    ensures same_size { A.size allowed.new ≡ A.size allowed.old }
    ensures same_may { A.may allowed.new ≡ A.may allowed.old }
    ensures stays { A.stays allowed.old allowed.new }
{
    let end = allowed.asked().saturating_add(u128::from(most_questions));
    let wanted = Wanted {
        providers,
        required,
        strength,
        end,
    };
    let guided = lean_by(alloc, allowed, &wanted, true)?;
    if !has_rows(strength) {
        return Ok(guided);
    }
    let greedy = lean_by(alloc, allowed, &wanted, false);
    chosen_of(guided, greedy)
}

/// Returns the sample that has fewer sets, `guided` if they have as many or if the other asked too
/// many questions. Want of memory is no reason to take `guided`: the same call has the same answer
/// on each machine that answers.
fn chosen_of(
    guided: Vec<Vec<bool>>,
    greedy: Result<Vec<Vec<bool>>, SampleFault>,
) -> Result<Vec<Vec<bool>>, SampleFault>
    ensures { IsChosen guided greedy result }
{
    match greedy {
        Ok(greedy) => Ok(smaller(guided, greedy)),
        Err(SampleFault::TooManyQuestions) => Ok(guided),
        Err(SampleFault::Memory) => Err(SampleFault::Memory),
    }
}

/// Returns the sample that has fewer sets, `one` if they have as many.
fn smaller(one: Vec<Vec<bool>>, other: Vec<Vec<bool>>) -> Vec<Vec<bool>>
    ensures { IsShorter one other result }
{
    if other.len() < one.len() { other } else { one }
}
