//! Laws of what a modem boots with, over all tables. The functions do nothing; their contracts are
//! the laws.
#![tactic(auto)]

mod laws;

pub use laws::{
    a_built_file_boots, a_file_is_there, a_modem_has_one_file, files_are_short,
    own_settings_stand_once, profiles_agree, profiles_spell,
};
