// What names mean at a place.
ghost use Rattle.std.specs.Prelude.{◌≡◌, [], length, take, None, OnOk};
ghost use Rattle.c_judge.specs.Names as spec;

use c_tree::Kind;
use chill_base::{Name, NoMemory};
use indexmap::IndexMap;
use std::alloc::Global;
use std::marker::Model;

/// What a name in scope means.
#[derive(Clone, Copy, PartialEq, Eq)]
pub enum Meaning {
    /// A parameter or a loop variable.
    Value,
    /// An array, with its number of extents, and whether it is a growable one.
    Array(Kind, usize, bool),
}

/// The names in scope, in the order in which they came.
#[derive(Drop)]
pub struct Scope {
    map: IndexMap<Name, Meaning>,
}

impl Model for Scope {
    ghost use Rattle.std.specs.Prelude.{ℕ, List};
    ghost use Rattle.c_judge.specs.declared.scope.Meaning.{Meaning};

    ghost Value = { List (List ℕ × Meaning) };

    ghost view = { λ s. s.map.entries };
}

impl Scope {
    pub fn new(alloc: Global) -> Scope
        ensures { result ≡ [] }
    {
        Scope {
            map: IndexMap::new(alloc),
        }
    }

    #[tactic(auto, unfolding(crate::specs::Names::find))]
    pub fn find(&self, name: Name) -> Option<Meaning>
        ensures { result ≡ spec.find self.now name }
    {
        self.map.get(&name).copied()
    }

    pub fn len(&self) -> usize
        ensures { result ≡ length self.now }
    {
        self.map.len()
    }

    /// Brings a name into scope.
    #[tactic(auto, unfolding(crate::specs::Names::find))]
    pub fn enter(&mut self, name: Name, meaning: Meaning) -> Result<(), NoMemory>
        requires { spec.find self.old name ≡ None }
        ensures { OnOk result (self.new ≡ spec.enter self.old name meaning) }
    {
        self.map.insert(name, meaning)?;
        Ok(())
    }

    /// Leaves what was entered since there were so many names.
    pub fn leave(&mut self, count: usize)
        ensures { self.new ≡ take count self.old }
    {
        self.map.truncate(count);
    }
}
