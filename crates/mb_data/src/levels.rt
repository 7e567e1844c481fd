//! The levels of one factor, numbered in the order of their first appearance.

ghost use Rattle.std.specs.List.{list_any};
ghost use Rattle.std.specs.Prelude.{◌≡◌, ◌<◌, ◌∷◌, ◌++◌, [], OnOk, Some, false, length, not, slice_get};
ghost use Rattle.std.specs.Str.{bytes_eq};
ghost use Rattle.mb_data.specs.Levels.{AreApart, with_name};

use mb_tables::OutOfMemory;
use std::alloc::Global;
use std::collections::HashMap;
use std::marker::Model;

/// The levels of a factor, seen as the list of their names. A name is found without a search
/// through the list.
#[derive(Drop)]
pub(crate) struct Levels {
    names: Vec<String>,
    places: HashMap<String, usize>,
}

impl Model for Levels {
    ghost use Rattle.std.specs.HashMap.{get_by_text};
    ghost use Rattle.std.specs.Prelude.{List, map, ℕ};
    ghost use Rattle.std.specs.String.{string_bytes};
    ghost use Rattle.mb_data.specs.loops.Index.{IsIndex};

    ghost Value = { List (List ℕ) };

    ghost view = { λ l. map string_bytes l.names.items };

    ghost invariant = { λ l. IsIndex (map string_bytes l.names.items) (get_by_text l.places) };
}

impl Levels {
    /// No level. It takes no memory.
    pub(crate) fn new(alloc: Global) -> Levels
        ensures { result ≡ [] }
    {
        Levels {
            names: Vec::new(alloc),
            places: HashMap::new(alloc),
        }
    }

    /// How many levels there are.
    pub(crate) fn len(&self) -> usize
        ensures levels { result ≡ length self.now }
        ensures apart { AreApart self.now }
    {
        self.names.len()
    }

    /// The name of a level. Levels count from 0.
    pub(crate) fn name(&self, level: usize) -> &str
        requires { level < length self.now }
        ensures { slice_get self.now level ≡ Some result.now }
    {
        self.names[level].as_str()
    }

    /// Whether no level has this name.
    pub(crate) fn is_new(&self, name: &str) -> bool
        ensures { result ≡ not (list_any (bytes_eq name.now) self.now) }
    {
        self.places.get(name).is_none()
    }

    /// A further level.
    fn add(&mut self, alloc: Global, name: &str) -> Result<(), OutOfMemory>
        requires new { list_any (bytes_eq name.now) self.old ≡ false }
        ensures { OnOk result (self.new ≡ self.old ++ name.now ∷ []) }
    {
        let place = self.names.len();
        let text = String::from_str(alloc, name)?;
        let key = String::from_str(alloc, name)?;
        self.names.reserve(1)?;
        self.places.insert(key, place)?;
        self.names.push_reserved(text);
        Ok(())
    }

    /// A further level, where no level has this name.
    pub(crate) fn add_new(&mut self, alloc: Global, name: &str) -> Result<(), OutOfMemory>
        ensures { OnOk result (self.new ≡ with_name self.old name.now) }
    {
        if self.is_new(name) {
            return self.add(alloc, name);
        }
        Ok(())
    }
}
