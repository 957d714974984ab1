//! The names of allocators, in order of binding.
ghost use Rattle.std.specs.Prelude.{◌≡◌, ◌≢◌, ◌==◌, ◌+◌, ◌≤◌, ◌↔◌, [], ◌∷◌, ◌++◌, false, Err, IsSome, IsTrue, IfOk, OnOk};
ghost use Rattle.std.specs.List.{find};
ghost use Rattle.std.specs.Map.Iter.{deref_pair};
ghost use Rattle.std.specs.Option.{option_copied, option_map};
ghost use Rattle.mem_num.specs.Name.{is_name};
ghost use Rattle.alloc_tree.specs.Names.{allocator_of, is_bound, is_named, name_of, root_binding, AreNames, AreUnique};

use crate::name::Name;
use crate::name_refused::NameRefused;
use indexmap::IndexMap;
use mem_num::{AllocId, NameText, NoMemory};
use std::alloc::Global;
use std::marker::Model;

/// The name of the root, which is bound from the start.
const ROOT: &str = "ROOT";

/// Which name is bound to which allocator, in order of binding. No name is bound twice; an allocator may have several names.
#[derive(Debug, Drop)]
pub struct Names {
    // Without `ROOT`, so that a new value takes no memory.
    bound: IndexMap<String, AllocId>,
}

impl Model for Names {
    ghost use Rattle.alloc_tree.specs.Names.{AreLawful, NamesState, bindings_of};
    ghost use Rattle.indexmap.specs.IndexMap.{spare};

    ghost Value = { NamesState };

    ghost view = { λ names. record { bindings = bindings_of names.bound.entries; spare = spare names.bound } };

    ghost invariant = { λ names. AreLawful (bindings_of names.bound.entries) };
}

impl Names {
    /// Binds `ROOT` to the root, and nothing else. Takes no memory.
    pub fn new(alloc: Global) -> Names
        ensures value { result.bindings ≡ root_binding ∷ [] }
    {
        Names {
            bound: IndexMap::new(alloc),
        }
    }

    /// Makes a name ready to be bound: takes the memory that `bind` will need, and binds nothing.
    pub fn ready(&mut self, name: &str) -> Result<Name, NameRefused>
        // A text that is no name is refused as such, and any other exactly where it is bound.
        ensures bad { (result ≡ Err NameRefused.BadName) ↔ (is_name name.now ≡ false) }
        ensures taken { (result ≡ Err NameRefused.NameTaken)
            ↔ IsTrue (is_name name.now) × IsTrue (is_bound self.old.bindings name.now) }

        // The name is the text, and can be bound at once.
        ensures value { IfOk result (λ ready. ready ≡ name.now) }
        ensures well_formed { OnOk result (IsTrue (is_name name.now)) }
        ensures free { OnOk result (is_bound self.new.bindings name.now ≡ false) }
        ensures room { OnOk result (1 ≤ self.new.spare) }

        // Whatever the answer, no binding changes, and no room is lost.
        ensures kept { self.new.bindings ≡ self.old.bindings }
        ensures spare { self.old.spare ≤ self.new.spare }
    {
        match NameText::new(name.as_bytes()) {
            Some(name) => self.ready_name(&name),
            None => Err(NameRefused::BadName),
        }
    }

    /// Makes a name ready, as `ready` does, where the caller has found that it is one.
    pub fn ready_name(&mut self, name: &NameText) -> Result<Name, NameRefused>
        // A name is refused exactly where it is bound.
        ensures named { result ≢ Err NameRefused.BadName }
        ensures taken { (result ≡ Err NameRefused.NameTaken) ↔ IsTrue (is_bound self.old.bindings name.now) }

        // What is ready is the name, and can be bound at once.
        ensures value { IfOk result (λ ready. ready ≡ name.now) }
        ensures well_formed { OnOk result (IsTrue (is_name name.now)) }
        ensures free { OnOk result (is_bound self.new.bindings name.now ≡ false) }
        ensures room { OnOk result (1 ≤ self.new.spare) }

        // Whatever the answer, no binding changes, and no room is lost.
        ensures kept { self.new.bindings ≡ self.old.bindings }
        ensures spare { self.old.spare ≤ self.new.spare }
    {
        let name = name.as_str();
        if self.find(name).is_some() {
            return Err(NameRefused::NameTaken);
        }
        let alloc = *self.bound.allocator();
        let Ok(ready) = Name::new(alloc, name) else {
            return Err(NameRefused::NoMemory);
        };
        match self.bound.reserve(1) {
            Ok(()) => Ok(ready),
            Err(_) => Err(NameRefused::NoMemory),
        }
    }

    /// Binds a name to an allocator. Takes no memory.
    pub fn bind(&mut self, name: Name, at: AllocId)
        requires free { is_bound self.old.bindings name ≡ false }
        requires room { 1 ≤ self.old.spare }
        ensures bound { self.new.bindings ≡ self.old.bindings ++ (name, at) ∷ [] }
        ensures spare { self.old.spare ≤ self.new.spare + 1 }
    {
        let _ = self.bound.insert(name.into_text(), at).unwrap();
    }

    /// The allocator that a name is bound to. Takes no memory.
    pub fn find(&self, name: &str) -> Option<AllocId>
        ensures value { result ≡ allocator_of self.now.bindings name.now }
        ensures bound { IsSome result ↔ IsTrue (is_bound self.now.bindings name.now) }

        // No name is bound twice, and only names are bound.
        ensures unique { AreUnique self.now.bindings }
        ensures well_formed { AreNames self.now.bindings }
    {
        let bound = &self.bound;
        if name == ROOT {
            return Some(AllocId::ROOT);
        }
        bound.get(name).copied()
    }

    /// The first name that is bound to an allocator. It looks through the names one by one, and takes no memory.
    pub fn name_of(&self, at: AllocId) -> Option<&str>
        ensures value { option_copied result ≡ name_of self.now.bindings at.0 }
        ensures named { IsSome result ↔ IsTrue (is_named self.now.bindings at.0) }

        // No name is bound twice, and only names are bound.
        ensures unique { AreUnique self.now.bindings }
        ensures well_formed { AreNames self.now.bindings }
    {
        let bound = &self.bound;
        if at.0 == 0 {
            return Some(ROOT);
        }
        let (name, _) = first_at(bound, at)?;
        Some(name.as_str())
    }

    /// The same bindings once more.
    pub fn copy(&self) -> Result<Names, NoMemory>
        ensures value { IfOk result (λ copy. copy.bindings ≡ self.now.bindings) }
    {
        match self.bound.clone() {
            Ok(bound) => Ok(Names { bound }),
            Err(_) => Err(NoMemory),
        }
    }
}

// The first entry of an allocator.
fn first_at(bound: &IndexMap<String, AllocId>, at: AllocId) -> Option<(&String, &AllocId)>
    ensures { option_map deref_pair result ≡ find (λ entry. entry.1.0 == at.0) bound.now.entries }
{
    bound.iter().find(|entry| entry.1.0 == at.0)
}

#[cfg(test)]
mod tests;
