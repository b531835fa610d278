// Folders and the programs that are gathered from them.
use odc_io::{MemFile, MemFolder};
use odc_text::code::Code;
use odc_tool::folder::{GatherError, gather_program};
use odc_typed::tree::Program;
use std::alloc::{AllocError, Global};
use std::test::Fail;

const TEXT: &str = "package main\nimport \"core:fmt\"\nmain :: proc() {\n}\n";

fn file(alloc: Global, path: &str, text: &str) -> Result<MemFile, AllocError> {
    Ok(MemFile {
        path: String::from_str(alloc, path)?,
        bytes: Vec::from_slice(alloc, text.as_bytes())?,
    })
}

fn gather(
    rt: &HostRuntime,
    files: Vec<MemFile>,
    fail: u64,
) -> Result<Result<Program, GatherError>, Fail> {
    let mut folder = MemFolder::new(files, vec![in rt.alloc(); fail]?);
    Ok(gather_program(rt.alloc(), &mut folder, "d"))
}

fn is_fault_at(found: &Result<Program, GatherError>, at_folder: bool, name: &str) -> bool {
    match found {
        Err(GatherError::Refused { fault, path }) => {
            let code = matches!(fault.code, Code::S01) == at_folder;
            let place = fault.at.line == if at_folder { 0 } else { 1 };
            code && place && fault.at.column == fault.at.line && path.as_str() == name
        }
        _ => false,
    }
}

#[test]
fn the_only_source_is_taken(rt: HostRuntime) -> Result<(), Fail> {
    let alloc = rt.alloc();
    let files = vec![in alloc;
        file(alloc, "d/notes.txt", "")?,
        file(alloc, "d/main.odin", TEXT)?,
        file(alloc, "d/sub/other.odin", "")?,
    ]?;
    let found = gather(&rt, files, 0)?;
    assert!(rt; found.is_ok());
    Ok(())
}

#[test]
fn no_source_is_a_fault_of_the_folder(rt: HostRuntime) -> Result<(), Fail> {
    let alloc = rt.alloc();
    let found = gather(&rt, vec![in alloc; file(alloc, "d/sub/f.odin", "")?]?, 0)?;
    assert!(rt; is_fault_at(&found, true, "d"));
    let found = gather(&rt, vec![in alloc]?, 0)?;
    assert!(rt; is_fault_at(&found, true, "d"));
    Ok(())
}

#[test]
fn another_source_is_outside(rt: HostRuntime) -> Result<(), Fail> {
    let alloc = rt.alloc();
    let files = vec![in alloc;
        file(alloc, "d/z.odin", "")?,
        file(alloc, "d/main.odin", TEXT)?,
        file(alloc, "d/a.odin", "")?,
    ]?;
    let found = gather(&rt, files, 0)?;
    assert!(rt; is_fault_at(&found, false, "a.odin"));
    let files = vec![in alloc;
        file(alloc, "d/z.odin", "")?,
        file(alloc, "d/main.odin", TEXT)?,
    ]?;
    let found = gather(&rt, files, 0)?;
    assert!(rt; is_fault_at(&found, false, "main.odin"));
    let found = gather(&rt, vec![in alloc; file(alloc, "d/z.odin", TEXT)?]?, 0)?;
    assert!(rt; is_fault_at(&found, false, "z.odin"));
    Ok(())
}

#[test]
fn another_text_is_outside(rt: HostRuntime) -> Result<(), Fail> {
    let alloc = rt.alloc();
    let found = gather(
        &rt,
        vec![in alloc; file(alloc, "d/main.odin", "package main\n")?]?,
        0,
    )?;
    assert!(rt; is_fault_at(&found, false, "main.odin"));
    Ok(())
}

#[test]
fn failed_calls_are_folder_faults(rt: HostRuntime) -> Result<(), Fail> {
    let alloc = rt.alloc();
    let found = gather(&rt, vec![in alloc; file(alloc, "d/main.odin", TEXT)?]?, 1)?;
    assert!(rt; matches!(found, Err(GatherError::FolderFault)));
    let found = gather(&rt, vec![in alloc; file(alloc, "d/main.odin", TEXT)?]?, 2)?;
    assert!(rt; matches!(found, Err(GatherError::FolderFault)));
    let found = gather(&rt, vec![in alloc; file(alloc, "d/main.odin", TEXT)?]?, 3)?;
    assert!(rt; found.is_ok());
    Ok(())
}
