//! A folder that keeps each bundle as a file of its own, whose name has the number: stored, then named, and none
//! written over.
#![tactic(auto)]

mod asked;
mod bundles;
mod call;
mod fault;
mod folder;
mod name;

pub use asked::Asked;
pub use bundles::{FolderBundles, MOST};
pub use call::{Ask, Calls, FolderCall};
pub use fault::FolderFault;
pub use folder::Folder;
pub use name::number_of;
