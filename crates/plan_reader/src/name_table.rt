//! Names with their numbers.
ghost use Rattle.std.specs.Prelude.{◌≡◌, length, None, Some, IsTrue, IfOk, MatchResult, position};
ghost use Rattle.std.specs.Str.{bytes_eq};
ghost use Rattle.plan_reader.specs.NameNumbers.{texts, has_name, first_repeat, number_of, AreNumbered};

use crate::hashed_places::HashedPlaces;
use item_actions::Text;
use std::alloc::{AllocError, Global};
use std::collections::BTreeMap;
use std::marker::Model;

/// Names, each with the number of its place. A name is looked for where it is guessed to stand, and then by the order
/// of its bytes, so that no choice of names makes that slow.
#[derive(Drop)]
pub(crate) struct NameTable<'a> {
    names: Vec<&'a str>,
    numbers: BTreeMap<&'a str, usize>,
    hashed: HashedPlaces,
}

impl<'a> Model for NameTable<'a> {
    ghost use Rattle.std.specs.Prelude.{◌≡◌, List, ℕ, None};
    ghost use Rattle.plan_reader.specs.NameNumbers.{texts, first_repeat, AreNumbered};

    ghost Value = { List (List ℕ) };

    ghost view = { λ a. texts a.names.items };

    ghost invariant = { λ a. AreNumbered (texts a.names.items) a.numbers × (first_repeat (texts a.names.items) ≡ None) };
}

// The number of each name, or the first place whose name stood before.
fn numbers_of<'a>(
    alloc: Global,
    names: &[&'a str],
) -> Result<Result<BTreeMap<&'a str, usize>, usize>, AllocError>
    ensures { IfOk result (λ r. MatchResult r
        (λ numbers. (first_repeat (texts names.now) ≡ None) × AreNumbered (texts names.now) numbers)
        (λ i. first_repeat (texts names.now) ≡ Some i)) }
{
    let mut numbers = BTreeMap::new(alloc);
    for (i, name) in names.iter().enumerate() {
        if numbers.insert(*name, i)?.is_some() {
            return Ok(Err(i));
        }
    }
    Ok(Ok(numbers))
}

// The names as borrowed strings, in their order.
fn strs_of<'a>(alloc: Global, names: &'a [Text]) -> Result<Vec<&'a str>, AllocError>
    ensures { IfOk result (λ strs. texts strs.items ≡ names.entry.now) }
{
    let mut strs = Vec::with_capacity(alloc, names.len())?;
    for name in names {
        strs.push(name.as_str())?;
    }
    Ok(strs)
}

impl<'a> NameTable<'a> {
    /// Numbers the names in their order, or gives the first place whose name stood before.
    pub(crate) fn new(
        alloc: Global,
        names: Vec<&'a str>,
    ) -> Result<Result<NameTable<'a>, usize>, AllocError>
        ensures { IfOk result (λ r. MatchResult r
            (λ table. (first_repeat (texts names.entry.items) ≡ None) × (table ≡ texts names.entry.items))
            (λ i. first_repeat (texts names.entry.items) ≡ Some i)) }
    {
        match numbers_of(alloc, names.as_slice())? {
            Ok(numbers) => {
                let hashed = HashedPlaces::new(alloc, names.as_slice())?;
                Ok(Ok(NameTable {
                    names,
                    numbers,
                    hashed,
                }))
            }
            Err(number) => Ok(Err(number)),
        }
    }

    /// Numbers these names in their order. None of them stands twice.
    pub(crate) fn of_texts(alloc: Global, names: &'a [Text]) -> Result<NameTable<'a>, AllocError>
        requires { first_repeat names.now ≡ None }
        ensures { IfOk result (λ table. table ≡ names.entry.now) }
    {
        match NameTable::new(alloc, strs_of(alloc, names)?)? {
            Ok(table) => Ok(table),
            Err(_) => unreachable!(),
        }
    }

    /// How many names there are.
    pub(crate) fn len(&self) -> usize
        ensures { result ≡ length self.now }
    {
        self.names.len()
    }

    // The number of a name by the order of its bytes, if it is one of these.
    fn place_by_order(&self, name: &str) -> Option<usize>
        ensures { result ≡ position (bytes_eq name.now) self.now }
    {
        self.numbers.get(name).copied()
    }

    // Whether the name stands at this place.
    fn stands_at(&self, place: usize, name: &str) -> bool
        ensures { IsTrue result → position (bytes_eq name.now) self.now ≡ Some place }
    {
        place < self.names.len() && self.names[place] == name
    }

    /// The number of a name, if it is one of these.
    pub(crate) fn place_of(&self, name: &str) -> Option<usize>
        ensures { result ≡ position (bytes_eq name.now) self.now }
    {
        let place = self.hashed.place_of(name);
        if self.stands_at(place, name) {
            Some(place)
        } else {
            self.place_by_order(name)
        }
    }

    /// Whether a name is one of these.
    pub(crate) fn has(&self, name: &str) -> bool
        ensures { result ≡ has_name self.now name.now }
    {
        self.place_of(name).is_some()
    }

    // The number of a name, if it is one of these. It is looked for at the guess first.
    fn place_near(&self, guess: usize, name: &str) -> Option<usize>
        ensures { result ≡ position (bytes_eq name.now) self.now }
    {
        if self.stands_at(guess, name) {
            Some(guess)
        } else {
            self.place_of(name)
        }
    }

    /// The number of a name, if it is one of these. It is looked for at the guess first. A number that is no `u32` is
    /// answered as want of memory: so many names don't fit.
    pub(crate) fn number_near(&self, guess: u32, name: &str) -> Result<Option<u32>, AllocError>
        ensures { IfOk result (λ o. o ≡ position (bytes_eq name.now) self.now) }
    {
        match self.place_near(guess as usize, name) {
            Some(place) => match u32::try_from(place) {
                Ok(number) => Ok(Some(number)),
                Err(_) => Err(AllocError),
            },
            None => Ok(None),
        }
    }

    /// The number of a name, and 0 where it is none of these. A number that is no `u32` is answered as want of
    /// memory: so many names don't fit.
    pub(crate) fn number_of(&self, name: &str) -> Result<u32, AllocError>
        ensures { IfOk result (λ n. n ≡ number_of self.now name.now) }
    {
        let number = self.place_of(name).unwrap_or(0);
        match u32::try_from(number) {
            Ok(number) => Ok(number),
            Err(_) => Err(AllocError),
        }
    }
}
