// Packages: from an import's path to the folder that it names.
//
// A folder inside the program's own is the list of its names from there, without `.` and `..`; the program's own folder is
// the empty list. `resolve` follows a path from a folder, and never leads out of the program's own. It knows nothing of which
// folders there are.
#![tactic(auto)]

mod folder;

pub use folder::{FolderPath, Name, resolve};

#[cfg(test)]
mod tests;
