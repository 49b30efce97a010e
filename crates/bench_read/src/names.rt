//! Names in the order in which they came, each once.

ghost use Rattle.std.specs.Prelude.{◌≡◌, ◌++◌, [], ◌∷◌, not, if◌then◌else◌, bytes_eq, position, length, IfOk};
ghost use Rattle.std.specs.List.{list_any};

use indexmap::IndexSet;
use seen_list::Memory;
use std::alloc::Global;
use std::marker::Model;

/// Names, each once, numbered from 0 in the order in which they came.
#[derive(Drop)]
pub struct Names<'a> {
    set: IndexSet<&'a [u8]>,
}

impl<'a> Model for Names<'a> {
    ghost use Rattle.std.specs.Prelude.{ℕ, List, map};

    ghost Value = { List (List ℕ) };

    ghost view = { λ names. map (λ name. name.now) names.set.keys };
}

impl<'a> Names<'a> {
    /// No names yet.
    pub fn new(alloc: Global) -> Names<'a>
        ensures { result ≡ [] }
    {
        Names {
            set: IndexSet::new(alloc),
        }
    }

    /// Adds a name if it is new, and answers whether it was.
    pub fn add(&mut self, name: &'a [u8]) -> Result<bool, Memory>
        ensures is_new { IfOk result (λ is_new. is_new ≡ not (list_any (bytes_eq name.now) self.old)) }
        ensures added { IfOk result (λ is_new. self.new ≡ (if is_new then self.old ++ name.now ∷ [] else self.old)) }
    {
        Ok(self.set.insert(name)?)
    }

    /// The number of a name.
    pub fn find(&self, name: &[u8]) -> Option<usize>
        ensures { result ≡ position (bytes_eq name.now) self.now }
    {
        self.set.get_index_of(name)
    }

    /// How many names there are.
    pub fn len(&self) -> usize
        ensures { result ≡ length self.now }
    {
        self.set.len()
    }
}
