//! Sets of positions, and which candidates are on in them.

ghost use Rattle.std.specs.Prelude.{◌≡◌, ◌<◌, [], true, length, slice_set};
ghost use Rattle.std.specs.List.{slice_index_or};
ghost use Rattle.hack_samples.specs.Sets.{has, has_one_of, has_each, is_on, rows_of, tables_of};

/// A candidate, and whether it is on.
#[derive(Clone, Copy, Debug, PartialEq, Eq)]
pub struct Setting {
    pub candidate: usize,
    pub on: bool,
}

/// Whether the position is a member of the set.
pub(crate) fn has(set: &[bool], position: usize) -> bool
    ensures { result ≡ has set.now position }
{
    set.get(position).copied().unwrap_or(false)
}

/// Whether one of these positions is a member of the set.
pub(crate) fn has_one_of(set: &[bool], group: &[usize]) -> bool
    ensures { result ≡ has_one_of set.now group.now }
{
    group.iter().any(|position| has(set, *position))
}

/// Whether the set has a member of each group.
pub(crate) fn has_each(set: &[bool], groups: &[Vec<usize>]) -> bool
    ensures { result ≡ has_each set.now (rows_of groups.now) }
{
    groups.iter().all(|group| has_one_of(set, group))
}

/// For each name of the candidate the positions that enable it; none past the last candidate.
pub(crate) fn rows_at(providers: &[Vec<Vec<usize>>], candidate: usize) -> &[Vec<usize>]
    ensures { rows_of result.now ≡ slice_index_or (tables_of providers.now) candidate [] }
{
    match providers.get(candidate) {
        Some(rows) => rows.as_slice(),
        None => &[],
    }
}

/// Whether the candidate is on in the set.
pub(crate) fn is_on(providers: &[Vec<Vec<usize>>], set: &[bool], candidate: usize) -> bool
    ensures { result ≡ is_on (tables_of providers.now) set.now candidate }
{
    has_each(set, rows_at(providers, candidate))
}

/// Adds a member to the set.
pub(crate) fn add(set: &mut Vec<bool>, position: usize)
    requires { position < length set.old.items }
    ensures { set.new.items ≡ slice_set set.old.items position true }
{
    set[position] = true;
}
