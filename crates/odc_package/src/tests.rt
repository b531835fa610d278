use crate::{FolderPath, Name, resolve};
use std::alloc::{AllocError, Global};

/// The folder `a/b` inside the program's own.
fn folder(alloc: Global) -> Result<FolderPath, AllocError> {
    let outer = Name {
        bytes: Vec::from_slice(alloc, b"a")?,
    };
    let inner = Name {
        bytes: Vec::from_slice(alloc, b"b")?,
    };
    Ok(FolderPath {
        names: vec![in alloc; outer, inner]?,
    })
}

/// How many names lead to the folder where a path leads from `a/b`.
fn depth(alloc: Global, path: &[u8]) -> Result<Option<usize>, AllocError> {
    let from = folder(alloc)?;
    match resolve(alloc, &from, path)? {
        Some(to) => Ok(Some(to.names.len())),
        None => Ok(None),
    }
}

#[test]
fn paths_stay_inside_the_program(rt: HostRuntime) -> Result<(), AllocError> {
    let alloc = rt.alloc();
    assert_eq!(rt; depth(alloc, b".")?, Some(2));
    assert_eq!(rt; depth(alloc, b"../c")?, Some(2));
    assert_eq!(rt; depth(alloc, b"c/./d")?, Some(4));
    assert_eq!(rt; depth(alloc, b"../..")?, Some(0));
    assert_eq!(rt; depth(alloc, b"...")?, Some(3));
    assert_eq!(rt; depth(alloc, b"../../../a")?, None);
    assert_eq!(rt; depth(alloc, b"")?, None);
    assert_eq!(rt; depth(alloc, b"c//d")?, None);
    assert_eq!(rt; depth(alloc, b"/c")?, None);
    Ok(())
}
