// Folders inside the program's own, and the paths that lead from one to another.
ghost use Rattle.std.specs.Prelude.{◌≡◌, Some, None, true, false, IfOk, IfSome, IfNone};
ghost use Rattle.odc_package.specs.Folders.{names_of, step_of, around, entered, resolved, IsEntered};

use std::alloc::{AllocError, Global};

/// The name of a folder, in bytes.
#[derive(Drop)]
pub struct Name {
    pub bytes: Vec<u8>,
}

/// A folder inside the program's own: the names of the folders that lead to it, the outermost first.
#[derive(Drop)]
pub struct FolderPath {
    pub names: Vec<Name>,
}

/// A copy of a name.
fn copied(alloc: Global, name: &Name) -> Result<Name, AllocError>
    ensures { IfOk result (λ n. n.bytes.items ≡ name.now.bytes.items) }
{
    let bytes = Vec::from_slice(alloc, name.bytes.as_slice())?;
    Ok(Name { bytes })
}

/// A copy of a folder's path.
fn copied_path(alloc: Global, path: &FolderPath) -> Result<FolderPath, AllocError>
    ensures { IfOk result (λ p. names_of p ≡ names_of path.now) }
{
    let mut names = Vec::new(alloc);
    for name in &path.names {
        names.push(copied(alloc, name)?)?;
    }
    Ok(FolderPath { names })
}

/// What a part of a path says.
#[derive(Clone, Copy)]
enum Step {
    /// It is empty.
    Nowhere,
    /// One dot: the folder itself.
    Here,
    /// Two dots: the folder around it.
    Up,
    /// The name of a folder inside it.
    Into,
}

/// What a part of a path says.
fn classify(part: &[u8]) -> Step
    ensures { result ≡ step_of part.now }
{
    if part.is_empty() {
        return Step::Nowhere;
    }
    if part.len() == 1 && part[0] == b'.' {
        return Step::Here;
    }
    if part.len() == 2 && part[0] == b'.' && part[1] == b'.' {
        return Step::Up;
    }
    Step::Into
}

/// Goes to the folder around one, if it isn't the program's own.
fn leave(path: &mut FolderPath) -> bool
    ensures yes { result ≡ true → around (names_of path.old) ≡ Some (names_of path.new) }
    ensures no { result ≡ false → around (names_of path.old) ≡ None }
{
    path.names.pop().is_some()
}

/// Goes from a folder along one part of a path. There is no way along an empty part, nor up from the program's own folder.
fn enter(path: &mut FolderPath, part: Vec<u8>) -> Result<bool, AllocError>
    ensures { IfOk result (λ goes. IsEntered (entered (names_of path.old) part.items) goes (names_of path.new)) }
{
    match classify(part.as_slice()) {
        Step::Nowhere => Ok(false),
        Step::Here => Ok(true),
        Step::Up => Ok(leave(path)),
        Step::Into => {
            path.names.push(Name { bytes: part })?;
            Ok(true)
        }
    }
}

/// The folder to which a path leads from `folder`, if all its parts lead somewhere and none above the program's own folder.
pub fn resolve(
    alloc: Global,
    folder: &FolderPath,
    path: &[u8],
) -> Result<Option<FolderPath>, AllocError>
    ensures some { IfOk result (λ r. IfSome r (λ p. resolved (names_of folder.now) path.now ≡ Some (names_of p))) }
    ensures none { IfOk result (λ r. IfNone r (resolved (names_of folder.now) path.now ≡ None)) }
{
    let mut at = copied_path(alloc, folder)?;
    let mut part = Vec::new(alloc);
    for byte in path {
        if *byte == b'/' {
            if !enter(&mut at, part)? {
                return Ok(None);
            }
            part = Vec::new(alloc);
        } else {
            part.push(*byte)?;
        }
    }
    if enter(&mut at, part)? {
        Ok(Some(at))
    } else {
        Ok(None)
    }
}
