//! Good trees of settings.
#![tactic(auto)]

mod checking;
mod lengths;
mod marks;
mod paths;
mod references;
mod shapes;
mod tables;
mod values;

pub use checking::{check_addon, check_class};
pub use paths::{Path, TreeFault};
