//! Names, numbered where they come.

ghost use Rattle.std.specs.Prelude.{◌≡◌, [], ◌∷◌, ◌++◌, IfOk, IfErr, if◌then◌else◌};
ghost use Rattle.stack_model.specs.Content.{number_of, is_new};

use crate::errors::ModelError;
use indexmap::IndexSet;
use std::alloc::Global;

/// Different names in the order in which they came, numbered from 0.
#[derive(Drop)]
pub struct Names {
    set: IndexSet<String>,
}

impl std::marker::Model for Names {
    ghost use Rattle.std.specs.Prelude.{List, ℕ, map, string_bytes};

    ghost Value = { List (List ℕ) };

    ghost view = { λ s. map string_bytes s.set.keys };
}

impl Names {
    /// No names yet. Takes no memory.
    pub fn new(alloc: Global) -> Names
        ensures { result ≡ [] }
    {
        Names {
            set: IndexSet::new(alloc),
        }
    }

    /// The number of a name.
    pub fn number(&self, name: &str) -> Option<usize>
        ensures { result ≡ number_of name.now self.now }
    {
        self.set.get_index_of(name)
    }

    /// Adds a name, and says whether it is new; one that isn't changes nothing.
    pub fn add(&mut self, alloc: Global, name: &str) -> Result<bool, ModelError>
        ensures new { IfOk result (λ new. new ≡ is_new name.now self.old) }
        ensures memory { IfErr result (λ e. e ≡ ModelError.Memory) }
        ensures list { IfOk result (λ new. self.new ≡ (if new then self.old ++ name.now ∷ [] else self.old)) }
    {
        let word = String::from_str(alloc, name)?;
        Ok(self.set.insert(word)?)
    }
}
