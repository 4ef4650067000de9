//! What a modem boots with, in definitions alone (`specs/`): its file's name, its profile, its
//! sealed file, and the file's blocks.
#![tactic(auto)]
