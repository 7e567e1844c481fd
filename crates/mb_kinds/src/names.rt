//! A list of names.

ghost use Rattle.std.specs.Prelude.{◌≡◌, ◌∷◌, ◌++◌, ◌<◌, [], OnOk, Some, length, slice_get};
ghost use Rattle.mb_kinds.specs.Generators.{is_among};

use mb_tables::OutOfMemory;
use std::alloc::Global;
use std::marker::Model;

/// A list of names, seen as the list of their bytes.
#[derive(Drop)]
pub(crate) struct Names {
    names: Vec<String>,
}

impl Model for Names {
    ghost use Rattle.std.specs.Prelude.{List, map, ℕ};
    ghost use Rattle.std.specs.String.{string_bytes};

    ghost Value = { List (List ℕ) };

    ghost view = { λ n. map string_bytes n.names.items };
}

impl Names {
    /// No name. It takes no memory.
    pub(crate) fn new(alloc: Global) -> Names
        ensures { result ≡ [] }
    {
        Names {
            names: Vec::new(alloc),
        }
    }

    /// A further name.
    pub(crate) fn push(&mut self, alloc: Global, name: &str) -> Result<(), OutOfMemory>
        ensures { OnOk result (self.new ≡ self.old ++ name.now ∷ []) }
    {
        let text = String::from_str(alloc, name)?;
        self.names.push(text)?;
        Ok(())
    }

    /// How many names there are.
    pub(crate) fn len(&self) -> usize
        ensures { result ≡ length self.now }
    {
        self.names.len()
    }

    /// A name by its place, from 0.
    pub(crate) fn name(&self, place: usize) -> &str
        requires { place < length self.now }
        ensures { slice_get self.now place ≡ Some result.now }
    {
        self.names[place].as_str()
    }

    /// Whether a name is one of them.
    pub(crate) fn has(&self, name: &str) -> bool
        ensures { result ≡ is_among self.now name.now }
    {
        for other in self.names.iter() {
            if name == other.as_str() {
                return true;
            }
        }
        false
    }
}
