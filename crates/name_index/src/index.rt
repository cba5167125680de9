//! The index.
ghost use Rattle.std.specs.Prelude.{◌≡◌, ◌<◌, [], ◌∷◌, ◌++◌, length, not, IfOk, OnErr, IfSome, if◌then◌else◌};
ghost use Rattle.name_index.specs.Places.{is_among, place_of};

use duct_units::{List, Name, NoMemory};
use std::alloc::Global;
use std::collections::HashMap;
use std::marker::Model;

/// Names in order, no two equal.
#[derive(Drop)]
pub struct NameIndex {
    names: Vec<Name>,
    places: HashMap<Name, usize>,
}

impl Model for NameIndex {
    ghost use Rattle.std.specs.Prelude.{ℕ, List as Sequence};
    ghost use Rattle.name_index.specs.PlaceMap.{IsPlaceMap};

    ghost Value = { Sequence (Sequence ℕ) };

    ghost view = { λ index. index.names.items };

    ghost invariant = { λ index. IsPlaceMap index.names.items index.places };
}

impl NameIndex {
    /// No names yet.
    pub fn new(alloc: Global) -> NameIndex
        ensures { result ≡ [] }
    {
        NameIndex {
            names: Vec::new(alloc),
            places: HashMap::new(alloc),
        }
    }

    /// How many names there are.
    pub fn len(&self) -> usize
        ensures { result ≡ length self.now }
    {
        self.names.len()
    }

    /// Adds the name at the end, and says whether it did: a name that is there already isn't added again.
    pub fn add(&mut self, name: Name) -> Result<bool, NoMemory>
        ensures value { IfOk result (λ added. added ≡ not (is_among name self.old)) }
        ensures names { IfOk result (λ added. self.new ≡ (if added then self.old ++ name ∷ [] else self.old)) }
        ensures err { OnErr result (self.new ≡ self.old) }
    {
        if self.places.contains_key(&name) {
            return Ok(false);
        }
        let place = self.names.len();
        self.names.push(name)?;
        match self.places.insert(name, place) {
            Ok(_) => Ok(true),
            Err(_) => {
                self.names.pop();
                Err(NoMemory)
            }
        }
    }

    /// The place of the name.
    pub fn find(&self, name: &Name) -> Option<usize>
        ensures value { result ≡ place_of name.now self.now }
        ensures within { IfSome result (λ place. place < length self.now) }
    {
        self.places.get(name).copied()
    }

    /// The names.
    pub fn into_list(self) -> List<Name>
        ensures { result ≡ self }
    {
        let NameIndex { names, places: _ } = self;
        List::from_vec(names)
    }
}
