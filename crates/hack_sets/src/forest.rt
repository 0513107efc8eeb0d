//! Sets of positions, stored in a few bytes each: the first set is empty, and each other one is an
//! earlier set with one more position. Memory grows with the number of sets.

ghost use Rattle.std.specs.Prelude.{◌≡◌, ◌<◌, ◌≤◌, ◌+◌, ◌^◌, ◌++◌, ◌∷◌, [], ℕ, length, All, IfOk};
ghost use Rattle.std.specs.Prelude.{OnOk, IsTrue, ◌↔◌, List};
ghost use Rattle.std.specs.List.{slice_index_or};
ghost use Rattle.hack_sets.specs.Links.{LeadBack, places_in};

use std::alloc::{AllocError, Global};

/// A set: an earlier set with one more position at its end.
#[derive(Clone, Copy)]
pub(crate) struct Link {
    /// The place of the earlier set.
    earlier: usize,
    last: usize,
}

/// Sets of positions, by their places. The one at place 0 is empty, and each other one has a link.
#[derive(Drop)]
pub struct Forest {
    links: Vec<Link>,
    ghost back: { LeadBack links.items },
}

impl Forest {
    ghost use Rattle.hack_sets.specs.Forest.{sets_of};

    /// A forest that has only the empty set.
    pub fn new(alloc: Global) -> Forest
        ensures { sets_of result ≡ [] ∷ [] }
    {
        Forest {
            links: Vec::new(alloc),
        }
    }

    /// How many sets there are, the empty one included.
    pub fn len(&self) -> usize
        ensures same { result ≡ length (sets_of self.now) }
        ensures one { 0 < result }
        ensures few { result ≤ 2 ^ 63 }
    {
        self.links.len() + 1
    }

    /// Adds a set: the one at the place `earlier`, followed by the position `last`.
    pub fn push(&mut self, earlier: usize, last: usize) -> Result<(), AllocError>
        requires { earlier < length (sets_of self.old) }
        ensures { OnOk result (sets_of self.new
            ≡ sets_of self.old ++ (slice_index_or (sets_of self.old) earlier [] ++ last ∷ [])
            ∷ []) }
    {
        self.links.push(Link { earlier, last })?;
        Ok(())
    }

    /// Adds the set, and before it the shorter sets that it begins with, and returns its place. The
    /// empty set has the place 0 and is not added again.
    pub fn push_set(&mut self, set: &[usize]) -> Result<usize, AllocError>
        ensures within { IfOk result (λ place. place < length (sets_of self.new)) }
        ensures set { IfOk result (λ place. slice_index_or (sets_of self.new) place []
            ≡ set.now) }
        ensures kept { OnOk result ((more : List (List ℕ))
            × (sets_of self.new ≡ sets_of self.old ++ more)) }
    {
        let mut at = 0;
        for position in set {
            let next = self.len();
            self.push(at, *position)?;
            at = next;
        }
        Ok(at)
    }

    /// Replaces what `set` holds by the set at the place.
    pub fn read(&self, place: usize, set: &mut Vec<usize>) -> Result<(), AllocError>
        requires { place < length (sets_of self.now) }
        ensures { OnOk result (set.new.items ≡ slice_index_or (sets_of self.now) place []) }
    {
        set.clear();
        let mut at = place;
        while at > 0 {
            let link = self.links[at - 1];
            set.push(link.last)?;
            at = link.earlier;
        }
        set.reverse();
        Ok(())
    }
}

/// Sets of positions, by index. Each set of the forest takes sixteen bytes. If only some of them
/// are chosen, each chosen one takes eight more.
#[derive(Drop)]
pub struct FeatureSets {
    forest: Forest,
    /// The places of the chosen sets. None: all sets of the forest but the empty one.
    places: Option<Vec<usize>>,
    ghost inside: { All (λ p. p < length forest.links.items + 1) (places_in places) },
}

impl FeatureSets {
    ghost use Rattle.std.specs.Prelude.{map, drop};
    ghost use Rattle.hack_sets.specs.Forest.{sets_of, sets_in};
    ghost use Rattle.hack_sets.specs.Sets.{singles};

    /// For each position below `n`, in order, the set that has only this position.
    pub fn singles(alloc: Global, n: usize) -> Result<FeatureSets, AllocError>
        ensures { IfOk result (λ sets. sets_in sets ≡ singles n) }
    {
        let mut forest = Forest::new(alloc);
        for position in 0..n {
            forest.push(0, position)?;
        }
        Ok(FeatureSets::all(forest))
    }

    /// All sets of the forest but the empty one.
    pub fn all(forest: Forest) -> FeatureSets
        ensures { sets_in result ≡ drop 1 (sets_of forest) }
    {
        FeatureSets {
            forest,
            places: None,
        }
    }

    /// The sets of the forest at these places.
    pub fn at_places(forest: Forest, places: Vec<usize>) -> FeatureSets
        requires { All (λ p. p < length (sets_of forest)) places.items }
        ensures { sets_in result ≡ map (λ p. slice_index_or (sets_of forest) p []) places.items }
    {
        FeatureSets {
            forest,
            places: Some(places),
        }
    }

    /// How many sets there are.
    pub fn len(&self) -> usize
        ensures same { result ≡ length (sets_in self.now) }
        ensures few { result < 2 ^ 63 }
    {
        match &self.places {
            None => self.forest.len() - 1,
            Some(places) => places.len(),
        }
    }

    /// Whether there is no set.
    pub fn is_empty(&self) -> bool
        ensures { IsTrue result ↔ (length (sets_in self.now) ≡ 0) }
    {
        self.len() == 0
    }

    /// Replaces what `set` holds by the positions of the set at that index.
    pub fn read(&self, rank: usize, set: &mut Vec<usize>) -> Result<(), AllocError>
        requires { rank < length (sets_in self.now) }
        ensures { OnOk result (set.new.items ≡ slice_index_or (sets_in self.now) rank []) }
    {
        match &self.places {
            None => self.forest.read(rank + 1, set),
            Some(places) => self.forest.read(places[rank], set),
        }
    }
}

/// The sets that an enumeration by questions found, and by how much the count of questions rose.
#[derive(Drop)]
pub struct Pruned {
    /// In the order of sets.
    pub sets: FeatureSets,
    pub asked: u128,
}
