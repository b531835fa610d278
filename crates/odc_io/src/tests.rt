// What no clause says: that memory isn't claimed to be short while it is ample, and each call at work.
use crate::{
    Failed, Folder, FolderError, MemFile, MemFolder, MemSink, MemSource, Sink, Source, write_all,
    write_pieces,
};
use std::alloc::{AllocError, Global};
use std::test::Fail;

fn file(alloc: Global, path: &str, bytes: &[u8]) -> Result<MemFile, AllocError> {
    Ok(MemFile {
        path: String::from_str(alloc, path)?,
        bytes: Vec::from_slice(alloc, bytes)?,
    })
}

fn folder(alloc: Global, fail: Vec<u64>) -> Result<MemFolder, AllocError> {
    let files = vec![in alloc;
        file(alloc, "d/main.odin", b"abc")?,
        file(alloc, "d/notes", b"")?,
        file(alloc, "d/sub/deep.odin", b"x")?,
        file(alloc, "e/deep/f", b"y")?,
        file(alloc, "d/main.odin", b"hidden")?,
    ]?;
    Ok(MemFolder::new(files, fail))
}

fn read_some<S: Source>(source: &mut S, into: &mut [u8]) -> Result<usize, Failed> {
    source.read(into)
}

#[test]
fn source_gives_its_bytes_and_fails_where_told(rt: HostRuntime) -> Result<(), Fail> {
    let alloc = rt.alloc();
    let mut source = MemSource::new(Vec::from_slice(alloc, b"abcde")?, vec![in alloc; 2]?);
    let mut piece = [0; 3];
    assert!(rt; matches!(read_some(&mut source, &mut piece), Ok(3)));
    assert_eq!(rt; piece.as_slice(), b"abc".as_slice());
    assert!(rt; read_some(&mut source, &mut piece).is_err());
    assert_eq!(rt; source.faults, 1);
    assert!(rt; matches!(read_some(&mut source, &mut piece), Ok(2)));
    assert_eq!(rt; piece.as_slice(), b"dec".as_slice());
    assert!(rt; matches!(read_some(&mut source, &mut piece), Ok(0)));
    assert_eq!(rt; source.calls, 4);
    Ok(())
}

#[test]
fn sink_is_written_up_to_its_room(rt: HostRuntime) -> Result<(), Fail> {
    let alloc = rt.alloc();
    let mut sink = MemSink::new(alloc, 5, vec![in alloc]?)?;
    assert!(rt; write_all(&mut sink, b"abc").is_ok());
    assert!(rt; write_all(&mut sink, b"").is_ok());
    assert!(rt; write_all(&mut sink, b"defg").is_err());
    assert_eq!(rt; sink.written.as_slice(), b"abcde".as_slice());
    assert_eq!(rt; sink.faults, 1);
    assert!(rt; matches!(sink.write(b""), Ok(0)));
    Ok(())
}

#[test]
fn pieces_are_written_until_a_call_fails(rt: HostRuntime) -> Result<(), Fail> {
    let alloc = rt.alloc();
    let pieces = vec![in alloc;
        Vec::from_slice(alloc, b"one ")?,
        Vec::from_slice(alloc, b"two ")?,
        Vec::from_slice(alloc, b"three")?,
    ]?;
    let mut whole = MemSink::new(alloc, 99, vec![in alloc]?)?;
    assert!(rt; write_pieces(&mut whole, &pieces).is_ok());
    assert_eq!(rt; whole.written.as_slice(), b"one two three".as_slice());
    let mut cut = MemSink::new(alloc, 99, vec![in alloc; 3]?)?;
    assert!(rt; write_pieces(&mut cut, &pieces).is_err());
    assert_eq!(rt; cut.written.as_slice(), b"one two ".as_slice());
    assert_eq!(rt; cut.faults, 1);
    Ok(())
}

fn names_of<F: Folder>(rt: &HostRuntime, folder: &mut F, path: &str) -> Result<Vec<String>, Fail> {
    match folder.names(rt.alloc(), path) {
        Ok(Some(names)) => Ok(names),
        Ok(None) => Err(Fail::from("nothing there")),
        Err(_) => Err(Fail::from("no answer")),
    }
}

#[test]
fn folder_lists_its_own_files_once(rt: HostRuntime) -> Result<(), Fail> {
    let mut files = folder(rt.alloc(), vec![in rt.alloc()]?)?;
    let names = names_of(&rt, &mut files, "d")?;
    assert_eq!(rt; names.len(), 2);
    assert_eq!(rt; names[0].as_str(), "main.odin");
    assert_eq!(rt; names[1].as_str(), "notes");
    let none = names_of(&rt, &mut files, "e")?;
    assert!(rt; none.is_empty());
    assert!(rt; matches!(files.names(rt.alloc(), "f"), Ok(None)));
    Ok(())
}

#[test]
fn folder_reads_one_byte_past_the_limit(rt: HostRuntime) -> Result<(), Fail> {
    let mut files = folder(rt.alloc(), vec![in rt.alloc()]?)?;
    let front = files.read(rt.alloc(), "d/main.odin", 1).ok().flatten();
    assert_eq!(rt; front.ok_or("no file")?.as_slice(), b"ab".as_slice());
    let whole = files.read(rt.alloc(), "d/main.odin", 3).ok().flatten();
    assert_eq!(rt; whole.ok_or("no file")?.as_slice(), b"abc".as_slice());
    assert!(rt; matches!(files.read(rt.alloc(), "d/sub", 9), Ok(None)));
    Ok(())
}

#[test]
fn folder_keeps_what_is_written(rt: HostRuntime) -> Result<(), Fail> {
    let mut files = folder(rt.alloc(), vec![in rt.alloc(); 2]?)?;
    assert!(rt; files.write("d/main.odin", b"new").is_ok());
    assert!(rt; matches!(files.write("d/more", b"lost"), Err(FolderError::Failed)));
    assert!(rt; files.write("g/more", b"kept").is_ok());
    assert_eq!(rt; files.faults, 1);
    let main = files.read(rt.alloc(), "d/main.odin", 99).ok().flatten();
    assert_eq!(rt; main.ok_or("no file")?.as_slice(), b"new".as_slice());
    let more = files.read(rt.alloc(), "g/more", 99).ok().flatten();
    assert_eq!(rt; more.ok_or("no file")?.as_slice(), b"kept".as_slice());
    assert!(rt; matches!(files.read(rt.alloc(), "d/more", 99), Ok(None)));
    Ok(())
}
