//! A few names, kept in place so that none takes memory.
ghost use Rattle.std.specs.Prelude.{◌≡◌, ◌<◌, ◌++◌, [], ◌∷◌, length, option_map, slice_get};

use crate::files::MAX_NAMES;
use std::marker::Model;

/// At most `MAX_NAMES` names, in the order in which they were added.
#[derive(Drop)]
pub struct Names<'w> {
    names: [&'w str; MAX_NAMES],
    count: usize,
}

impl<'w> Model for Names<'w> {
    ghost use Rattle.std.specs.Prelude.{ℕ, ◌≤◌, List, map, take};
    ghost use Rattle.duct_ports.specs.declared.files.TheConstants.{MAX_NAMES};

    ghost Value = { List (List ℕ) };

    ghost view = { λ held. map (λ name. name.now) (take held.count held.names) };

    ghost invariant = { λ held. held.count ≤ MAX_NAMES };
}

impl<'w> Names<'w> {
    /// No name yet.
    pub fn new() -> Names<'w>
        ensures { result ≡ [] }
    {
        Names {
            names: [""; MAX_NAMES],
            count: 0,
        }
    }

    /// How many names there are.
    pub fn len(&self) -> usize
        ensures { result ≡ length self.now }
    {
        self.count
    }

    /// The name at a place, from 0.
    pub fn get(&self, i: usize) -> Option<&'w str>
        ensures { option_map (λ name. name.now) result ≡ slice_get self.now i }
    {
        if i < self.count {
            Some(self.names[i])
        } else {
            None
        }
    }

    /// Adds a name behind the others.
    pub fn add(&mut self, name: &'w str)
        requires { length self.old < MAX_NAMES }
        ensures { self.new ≡ self.old ++ name.now ∷ [] }
    {
        self.names[self.count] = name;
        self.count += 1;
    }
}
