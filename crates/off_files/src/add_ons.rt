ghost use Rattle.std.specs.Prelude.{◌≡◌, ◌==◌, ◌<◌, ◌++◌, [], ◌∷◌, length, Some, slice_get, OnOk};
ghost use Rattle.std.specs.Prelude.{OnErr};

use off_base::{NoMemory, Settings};
use off_defs::SharedSettings;
use std::alloc::Global;
use std::marker::Model;

/// Add-ons of a subscriber: the settings of each, with its number. Contracts see them as a list of
/// pairs.
#[derive(Drop)]
pub struct AddOns {
    items: Vec<(u8, SharedSettings)>,
}

impl Model for AddOns {
    ghost use Rattle.std.specs.Prelude.{List, ℕ};
    ghost use Rattle.std.specs.Coded.{coded_ℕ, coded_list, coded×};
    ghost use Rattle.off_base.specs.Tree.{Tree};
    ghost use Rattle.off_base.specs.TreeCode.{coded_trees};

    ghost Value = { List (ℕ × List Tree) };

    ghost coded = { coded_list (coded× coded_ℕ coded_trees) };

    ghost view = { λ a. a.items.items };
}

impl AddOns {
    /// No add-ons. It takes no memory.
    pub fn new(alloc: Global) -> AddOns
        ensures { result ≡ [] }
    {
        AddOns {
            items: Vec::new(alloc),
        }
    }

    /// Appends an add-on. After `NoMemory` the list is as before.
    pub fn push(&mut self, number: u8, settings: SharedSettings) -> Result<(), NoMemory>
        ensures ok { OnOk result (self.new ≡ self.old ++ (number, settings) ∷ []) }
        ensures err { OnErr result (self.new ≡ self.old) }
    {
        match self.items.push((number, settings)) {
            Ok(()) => Ok(()),
            Err(_refused) => Err(NoMemory),
        }
    }

    /// How many add-ons there are.
    pub fn len(&self) -> usize
        ensures { result ≡ length self.now }
    {
        self.items.len()
    }

    /// Whether there are none.
    pub fn is_empty(&self) -> bool
        ensures { result ≡ (length self.now == 0) }
    {
        self.items.is_empty()
    }

    /// The add-on at a place, the first at 0: its number and its settings.
    pub fn get(&self, place: usize) -> (u8, &Settings)
        requires { place < length self.now }
        ensures { slice_get self.now place ≡ Some (result.0, result.1.now) }
    {
        let add_on = &self.items[place];
        (add_on.0, add_on.1.as_settings())
    }
}
