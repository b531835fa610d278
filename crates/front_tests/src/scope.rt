//! Scopes that hide names.

use odc_scope::{AddError, Scopes};
use std::alloc::{AllocError, Global};

/// Whether a name was refused since the scope has it.
fn is_taken(answer: Result<(), AddError<u32>>, item: u32) -> bool {
    match answer {
        Err(AddError::Taken { item: back }) => back == item,
        _ => false,
    }
}

#[test]
fn the_innermost_binding_is_found(rt: HostRuntime) -> Result<(), AllocError> {
    let mut scopes: Scopes<u32> = Scopes::new(rt.alloc());
    scopes.enter()?;
    // x := 1; x := 2
    assert!(rt; scopes.add(7, 1).is_ok());
    assert!(rt; is_taken(scopes.add(7, 2), 2));
    assert!(rt; scopes.find(7).copied() == Some(1));
    // { x := 3; y := 4 }
    scopes.enter()?;
    assert!(rt; scopes.find(7).copied() == Some(1));
    assert!(rt; scopes.add(7, 3).is_ok());
    assert!(rt; scopes.add(8, 4).is_ok());
    assert!(rt; scopes.find(7).copied() == Some(3));
    assert!(rt; is_taken(scopes.add(8, 5), 5));
    scopes.leave();
    assert!(rt; scopes.find(7).copied() == Some(1));
    assert!(rt; scopes.find(8).is_none());
    // { y := 6 }
    scopes.enter()?;
    assert!(rt; scopes.add(8, 6).is_ok());
    assert!(rt; scopes.find(8).copied() == Some(6));
    scopes.leave();
    scopes.leave();
    assert!(rt; scopes.find(7).is_none());
    Ok(())
}

/// A thousand scopes, each with a name of its own and one that all have.
fn nested(alloc: Global) -> Result<Scopes<u32>, AllocError> {
    let mut scopes = Scopes::new(alloc);
    for k in 1..1001u32 {
        scopes.enter()?;
        if scopes.add(0, k).is_err() || scopes.add(k, k).is_err() {
            return Err(AllocError);
        }
    }
    Ok(scopes)
}

#[test]
fn many_scopes_hide_one_name(rt: HostRuntime) -> Result<(), AllocError> {
    let scopes = nested(rt.alloc())?;
    assert!(rt; scopes.find(0).copied() == Some(1000));
    assert!(rt; scopes.find(1).copied() == Some(1));
    assert!(rt; scopes.find(1001).is_none());
    Ok(())
}
