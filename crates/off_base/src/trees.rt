ghost use Rattle.std.specs.Prelude.{◌≡◌, ◌==◌, ◌<◌, ◌++◌, [], ◌∷◌, length, Some, slice_get, IfOk};
ghost use Rattle.std.specs.Prelude.{OnOk, OnErr};
ghost use Rattle.off_base.specs.Tree.{Tree};
ghost use Rattle.off_base.specs.Setting.{tree_of};

use crate::octets::{Bytes, NoMemory};
use std::alloc::Global;
use std::marker::Model;

/// A setting of a configuration file (CM-SP-MULPIv3.1, annex C): its code, and its value or its
/// parts.
#[cycle(setting)]
#[derive(Drop)]
pub enum Setting {
    Leaf { code: u8, value: Bytes },
    Group { code: u8, parts: Settings },
}

/// A list of settings. Contracts see it as a list of trees.
#[cycle(setting)]
#[derive(Drop)]
pub struct Settings {
    items: Vec<Setting>,
}

impl Model for Settings {
    ghost use Rattle.std.specs.Prelude.{List, map};
    ghost use Rattle.off_base.specs.Tree.{Tree, trees_size};
    ghost use Rattle.off_base.specs.TreeCode.{coded_trees};

    ghost Value = { List Tree };

    ghost coded = { coded_trees };

    ghost use Rattle.off_base.specs.Setting.{tree_of};

    ghost view = { λ s. map tree_of s.items.items };

    ghost size = { trees_size };

    ghost use Rattle.std.proofs.Common.{arith};
    ghost use Rattle.off_base.specs.SettingFalls.{parts_below};

    ghost size_decreases = { λ a h. Prim.omega (arith, parts_below a.items.items) };
}

impl Settings {
    /// An empty list. It takes no memory.
    pub fn new(alloc: Global) -> Settings
        ensures { result ≡ [] }
    {
        Settings {
            items: Vec::new(alloc),
        }
    }

    /// How many settings there are, without those inside of groups.
    pub fn len(&self) -> usize
        ensures { result ≡ length self.now }
    {
        self.items.len()
    }

    /// Whether there are none.
    pub fn is_empty(&self) -> bool
        ensures { result ≡ (length self.now == 0) }
    {
        self.items.is_empty()
    }

    /// Appends a setting. After `NoMemory` the list is as before.
    pub fn push(&mut self, setting: Setting) -> Result<(), NoMemory>
        ensures ok { OnOk result (self.new ≡ self.old ++ tree_of setting ∷ []) }
        ensures err { OnErr result (self.new ≡ self.old) }
    {
        match self.items.push(setting) {
            Ok(()) => Ok(()),
            Err(_refused) => Err(NoMemory),
        }
    }

    /// The setting at a place, the first at 0.
    pub fn get(&self, place: usize) -> &Setting
        requires { place < length self.now }
        ensures { slice_get self.now place ≡ Some (tree_of result.now) }
    {
        &self.items[place]
    }

    /// A list of the same settings.
    #[cycle(copy)]
    pub fn copy(&self) -> Result<Settings, NoMemory>
        ensures { IfOk result (λ copy. copy ≡ self.now) }
    {
        let mut copy = Settings::new(*self.items.allocator());
        for setting in &self.items {
            copy.push(setting.copy()?)?;
        }
        Ok(copy)
    }
}

impl Setting {
    /// The same setting.
    #[cycle(copy)]
    pub fn copy(&self) -> Result<Setting, NoMemory>
        ensures { IfOk result (λ copy. tree_of copy ≡ tree_of self.now) }
    {
        match self {
            Setting::Leaf { code, value } => Ok(Setting::Leaf {
                code: *code,
                value: value.copy()?,
            }),
            Setting::Group { code, parts } => Ok(Setting::Group {
                code: *code,
                parts: parts.copy()?,
            }),
        }
    }
}
