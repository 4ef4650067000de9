ghost use Rattle.std.specs.Prelude.{◌≡◌, IfOk};

use off_base::{NoMemory, Settings};
use std::alloc::Global;
use std::marker::Model;
use std::rc::Rc;

/// The settings of a row, of which each copy is one more owner: a row is copied on its way into the
/// tables, and whenever it is read. Contracts see them as a list of trees.
#[derive(Drop)]
pub struct SharedSettings {
    list: Rc<Settings>,
}

impl Model for SharedSettings {
    ghost use Rattle.std.specs.Prelude.{List};
    ghost use Rattle.off_base.specs.Tree.{Tree};
    ghost use Rattle.off_base.specs.TreeCode.{coded_trees};

    ghost Value = { List Tree };

    ghost coded = { coded_trees };

    ghost view = { λ s. s.list.value };
}

impl SharedSettings {
    /// The same settings, to be shared.
    pub fn new(alloc: Global, settings: Settings) -> Result<SharedSettings, NoMemory>
        ensures { IfOk result (λ shared. shared ≡ settings) }
    {
        match Rc::new(alloc, settings) {
            Ok(list) => Ok(SharedSettings { list }),
            Err(_refused) => Err(NoMemory),
        }
    }

    /// One more owner of the same settings, which are not copied.
    pub fn share(&self) -> Result<SharedSettings, NoMemory>
        ensures { IfOk result (λ shared. shared ≡ self.now) }
    {
        let list = self.list.clone()?;
        Ok(SharedSettings { list })
    }

    /// The settings.
    pub fn as_settings(&self) -> &Settings
        ensures { result.now ≡ self.now }
    {
        &self.list
    }
}
