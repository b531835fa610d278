// Files that are made, carried out, and refused.
use odc_io::{MemFile, MemFolder, MemSink, MemSource};
use odc_tool::run::run_tool;
use odc_tool::status::{Status, exit_number};
use std::alloc::{AllocError, Global};
use std::test::Fail;

const TEXT: &[u8] =
    b"package main\nimport \"core:fmt\"\nmain :: proc() {\n\ta := 7\n\tb := 2\n\tfmt.println(a / b, a % b)\n}\n";

// It divides by a variable that is zero, at 6:16.
const STOPS: &[u8] =
    b"package main\nimport \"core:fmt\"\nmain :: proc() {\n\ta := 7\n\tb := 0\n\tfmt.println(a / b)\n}\n";

// One range of four bytes at 0x10000, which may be read and executed, and no sections. Its word is in no row.
const NO_WORD: [u8; 124] =
    *b"\x7fELF\x02\x01\x01\0\0\0\0\0\0\0\0\0\x02\0\xf3\0\x01\0\0\0\0\0\x01\0\0\0\0\0\x40\0\0\0\0\0\0\0\0\0\0\0\0\0\0\0\0\0\0\0\x40\0\x38\0\x01\0\x40\0\0\0\0\0\x01\0\0\0\x05\0\0\0\x78\0\0\0\0\0\0\0\0\0\x01\0\0\0\0\0\0\0\x01\0\0\0\0\0\x04\0\0\0\0\0\0\0\x04\0\0\0\0\0\0\0\0\x10\0\0\0\0\0\0\0\0\0\0";

/// What a command answered, wrote, and left as its image.
#[derive(Drop)]
struct Answered {
    status: Status,
    out: MemSink,
    err: MemSink,
    image: Vec<u8>,
}

fn file(alloc: Global, path: &str, bytes: &[u8]) -> Result<MemFile, AllocError> {
    Ok(MemFile {
        path: String::from_str(alloc, path)?,
        bytes: Vec::from_slice(alloc, bytes)?,
    })
}

fn folder_of(alloc: Global, text: &[u8], fail: Vec<u64>) -> Result<MemFolder, AllocError> {
    let files = vec![in alloc; file(alloc, "d/main.odin", text)?]?;
    Ok(MemFolder::new(files, fail))
}

fn carried_out(
    alloc: Global,
    all: &[&str],
    folder: &mut MemFolder,
) -> Result<Answered, AllocError> {
    let mut words = Vec::new(alloc);
    for word in all {
        words.push(String::from_str(alloc, word)?)?;
    }
    let mut input = MemSource::new(Vec::new(alloc), Vec::new(alloc));
    let mut out = MemSink::new(alloc, 1000, Vec::new(alloc))?;
    let mut err = MemSink::new(alloc, 1000, Vec::new(alloc))?;
    let mut image = Vec::new(alloc);
    let status = run_tool(
        alloc, &words, folder, &mut input, &mut out, &mut err, &mut image,
    );
    Ok(Answered {
        status,
        out,
        err,
        image,
    })
}

/// Whether a file is refused by this line, with the number of bad images.
fn is_bad(alloc: Global, bytes: &[u8], line: &[u8]) -> Result<bool, AllocError> {
    let mut folder = MemFolder::new(vec![in alloc; file(alloc, "f", bytes)?]?, Vec::new(alloc));
    let answered = carried_out(alloc, &["exec", "f"], &mut folder)?;
    Ok(answered.err.written.as_slice() == line && exit_number(&answered.status) == 7)
}

#[test]
fn a_file_that_is_made_runs_as_its_package_does(rt: HostRuntime) -> Result<(), Fail> {
    let alloc = rt.alloc();
    let mut folder = folder_of(alloc, TEXT, Vec::new(alloc))?;
    let ran = carried_out(alloc, &["run", "d"], &mut folder)?;
    assert_eq!(rt; ran.out.written.as_slice(), b"3 1\n".as_slice());
    assert!(rt; ran.image.starts_with(b"\x7fELF"));
    let made = carried_out(alloc, &["build", "d", "f"], &mut folder)?;
    assert!(rt; matches!(made.status, Status::Done));
    assert!(rt; made.out.written.is_empty());
    assert!(rt; made.err.written.is_empty());
    assert_eq!(rt; made.image.as_slice(), ran.image.as_slice());
    let executed = carried_out(alloc, &["exec", "f"], &mut folder)?;
    assert!(rt; matches!(executed.status, Status::Exited { code: 0 }));
    assert_eq!(rt; executed.out.written.as_slice(), b"3 1\n".as_slice());
    assert!(rt; executed.image.is_empty());
    Ok(())
}

#[test]
fn a_stop_of_a_file_is_told_at_its_place(rt: HostRuntime) -> Result<(), Fail> {
    let alloc = rt.alloc();
    let mut folder = folder_of(alloc, STOPS, Vec::new(alloc))?;
    let _made = carried_out(alloc, &["build", "d", "f"], &mut folder)?;
    let executed = carried_out(alloc, &["exec", "f"], &mut folder)?;
    assert_eq!(rt; exit_number(&executed.status), 3);
    assert_eq!(rt;
        executed.err.written.as_slice(),
        b"main.odin:6:16: stopped: division\n".as_slice()
    );
    let few = carried_out(alloc, &["exec", "f", "--steps", "9"], &mut folder)?;
    assert_eq!(rt; exit_number(&few.status), 4);
    assert_eq!(rt;
        few.err.written.as_slice(),
        b"odin_rv: stopped after 9 steps\n".as_slice()
    );
    Ok(())
}

#[test]
fn a_file_that_is_not_there_breaks_rule_0(rt: HostRuntime) -> Result<(), Fail> {
    let alloc = rt.alloc();
    let mut folder = MemFolder::new(Vec::new(alloc), Vec::new(alloc));
    let answered = carried_out(alloc, &["exec", "f"], &mut folder)?;
    assert_eq!(rt; exit_number(&answered.status), 7);
    assert_eq!(rt;
        answered.err.written.as_slice(),
        b"odin_rv: bad image, rule 0 at 0\n".as_slice()
    );
    Ok(())
}

#[test]
fn files_are_refused_by_their_first_rule(rt: HostRuntime) -> Result<(), Fail> {
    let alloc = rt.alloc();
    assert!(rt; is_bad(alloc, &NO_WORD[..63], b"odin_rv: bad image, rule 1 at 63\n")?);
    let mut other = NO_WORD;
    other[18] = 62;
    assert!(rt; is_bad(alloc, &other, b"odin_rv: bad image, rule 4 at 18\n")?);
    let mut odd = NO_WORD;
    odd[24] = 2;
    assert!(rt; is_bad(alloc, &odd, b"odin_rv: bad image, rule 8 at 24\n")?);
    let mut longer = NO_WORD;
    longer[104] = 3;
    assert!(rt; is_bad(alloc, &longer, b"odin_rv: bad image, rule 7 at 64\n")?);
    Ok(())
}

#[test]
fn a_word_in_no_row_traps(rt: HostRuntime) -> Result<(), Fail> {
    let alloc = rt.alloc();
    let files = vec![in alloc; file(alloc, "f", &NO_WORD)?]?;
    let mut folder = MemFolder::new(files, Vec::new(alloc));
    let answered = carried_out(alloc, &["exec", "f"], &mut folder)?;
    assert_eq!(rt; exit_number(&answered.status), 5);
    assert_eq!(rt;
        answered.err.written.as_slice(),
        b"odin_rv: trap at 0x10000\n".as_slice()
    );
    Ok(())
}

#[test]
fn a_file_that_cannot_be_written_is_a_folder_fault(rt: HostRuntime) -> Result<(), Fail> {
    let alloc = rt.alloc();
    let mut folder = folder_of(alloc, TEXT, vec![in alloc; 3]?)?;
    let answered = carried_out(alloc, &["build", "d", "f"], &mut folder)?;
    assert!(rt; matches!(answered.status, Status::FolderFault));
    assert!(rt; answered.image.is_empty());
    assert_eq!(rt;
        answered.err.written.as_slice(),
        b"odin_rv: folder fault\n".as_slice()
    );
    let ran = carried_out(alloc, &["run", "d"], &mut folder)?;
    assert_eq!(rt; ran.out.written.as_slice(), b"3 1\n".as_slice());
    Ok(())
}
