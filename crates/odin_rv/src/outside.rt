//! The real folder and streams. None tells what it holds; each raises its count where it answers Failed, and
//! nowhere else.

ghost use Rattle.std.specs.Prelude.{◌≡◌, ◌<◌, ◌≤◌, IfOk, IfSome, OnOk, OnErr, length, vec_len};
ghost use Rattle.odc_io.specs.Counts.{next_count, Rose};
ghost use Rattle.odc_io.specs.declared.traits.FolderError.{FolderError as Fault};

use odc_io::{Failed, Folder, FolderError, Sink, Source};
use std::alloc::Global;
use std::fs::{self, File};
use std::io::{self, ErrorKind, Read, Write};
use std::path::Path;

/// The count after one more fault.
fn raised(faults: u64) -> u64
    ensures { result ≡ next_count faults }
{
    if faults == u64::MAX {
        faults
    } else {
        faults + 1
    }
}

/// An input behind a reader.
#[derive(Drop)]
pub struct FileSource<R: Drop> {
    reader: R,
    faults: u64,
}

impl<R: Drop> FileSource<R> {
    pub fn new(reader: R) -> Self
        ensures { result ≡ record { reader = reader; faults = 0 } }
    {
        FileSource { reader, faults: 0 }
    }
}

impl<R: Read + Drop> Source for FileSource<R> {
    ghost use Rattle.std.specs.Prelude.{None};

    ghost rest = { λ _. None };

    ghost faults = { λ s. s.faults };

    fn read(&mut self, into: &mut [u8]) -> Result<usize, Failed>
        ensures within { IfOk result (λ n. n ≤ length into.old) }
        ensures counted { self.old.faults ≤ self.new.faults }
        ensures kept { OnOk result (self.new.faults ≡ self.old.faults) }
        ensures raised { OnErr result (self.new.faults ≡ next_count self.old.faults) }
    {
        match self.reader.read(into) {
            Ok(count) => Ok(count),
            Err(_) => {
                self.faults = raised(self.faults);
                Err(Failed)
            }
        }
    }
}

/// An output behind a writer.
#[derive(Drop)]
pub struct FileSink<W: Drop> {
    writer: W,
    faults: u64,
}

impl<W: Drop> FileSink<W> {
    pub fn new(writer: W) -> Self
        ensures { result ≡ record { writer = writer; faults = 0 } }
    {
        FileSink { writer, faults: 0 }
    }
}

impl<W: Write + Drop> Sink for FileSink<W> {
    ghost use Rattle.std.specs.Prelude.{None};

    ghost written = { λ _. None };

    ghost faults = { λ s. s.faults };

    fn write(&mut self, bytes: &[u8]) -> Result<usize, Failed>
        ensures within { IfOk result (λ n. n ≤ length bytes.now) }
        ensures some { IfOk result (λ n. 0 < length bytes.now → 0 < n) }
        ensures counted { self.old.faults ≤ self.new.faults }
        ensures kept { OnOk result (self.new.faults ≡ self.old.faults) }
        ensures raised { OnErr result (self.new.faults ≡ next_count self.old.faults) }
    {
        match self.writer.write(bytes) {
            Ok(count) if count > 0 || bytes.is_empty() => Ok(count),
            _ => {
                self.faults = raised(self.faults);
                Err(Failed)
            }
        }
    }
}

/// The folders of the disk.
#[derive(Drop)]
pub struct DiskFolder<'a> {
    rt: &'a HostRuntime,
    faults: u64,
}

impl<'a> DiskFolder<'a> {
    pub fn new(rt: &'a HostRuntime) -> Self
        ensures { result.faults ≡ 0 }
    {
        DiskFolder { rt, faults: 0 }
    }

    /// Counts a fault, unless memory ran out.
    fn failed(&mut self, error: &io::Error) -> FolderError
        ensures counted { self.old.faults ≤ self.new.faults }
        ensures cause { result ≡ Fault.Failed → Rose self.old.faults self.new.faults }
    {
        if error.kind() == ErrorKind::OutOfMemory {
            return FolderError::Memory;
        }
        self.faults = raised(self.faults);
        FolderError::Failed
    }
}

/// Whether an error says that nothing of the kind stands at the path.
fn is_nothing(error: &io::Error) -> bool {
    matches!(error.kind(), ErrorKind::NotFound | ErrorKind::NotADirectory)
}

/// The names of the files directly in a folder.
fn list(rt: &HostRuntime, path: &str) -> io::Result<Vec<String>> {
    let mut names = Vec::new(rt.alloc());
    for entry in fs::read_dir(rt, path)? {
        let entry = entry?;
        if is_file(rt, entry.path())? {
            let name = String::from_str(rt.alloc(), entry.file_name())?;
            names.push(name)?;
        }
    }
    Ok(names)
}

/// Whether a file stands there, also behind a link.
fn is_file(rt: &HostRuntime, path: Path<'_>) -> io::Result<bool> {
    match fs::metadata(rt, path) {
        Ok(about) => Ok(about.is_file()),
        Err(error) if is_nothing(&error) => Ok(false),
        Err(error) => Err(error),
    }
}

/// The first `limit` bytes of a reader.
fn read_front(alloc: Global, reader: &mut File, limit: usize) -> io::Result<Vec<u8>>
    ensures { IfOk result (λ v. vec_len v ≤ limit) }
{
    let mut front = Vec::new(alloc);
    let mut piece = [0u8; 4096];
    for _ in 0..u64::MAX {
        let room = (limit - front.len()).min(piece.len());
        let count = reader.read(&mut piece[..room])?;
        if count == 0 {
            break;
        }
        front.extend_from_slice(&piece[..count])?;
    }
    Ok(front)
}

/// The first `limit` bytes of a file, and none where there is no file.
fn read_file(rt: &HostRuntime, path: &str, limit: usize) -> io::Result<Option<Vec<u8>>>
    ensures { IfOk result (λ o. IfSome o (λ v. vec_len v ≤ limit)) }
{
    if !is_file(rt, Path::new(path))? {
        return Ok(None);
    }
    let mut file = File::open(rt, path)?;
    let front = read_front(rt.alloc(), &mut file, limit)?;
    Ok(Some(front))
}

impl Folder for DiskFolder<'_> {
    ghost use Rattle.std.specs.Prelude.{None};

    ghost tree = { λ _. None };

    ghost faults = { λ s. s.faults };

    fn names(&mut self, _alloc: Global, path: &str) -> Result<Option<Vec<String>>, FolderError> {
        match list(self.rt, path) {
            Ok(names) => Ok(Some(names)),
            Err(error) if is_nothing(&error) => Ok(None),
            Err(error) => Err(self.failed(&error)),
        }
    }

    fn read(
        &mut self,
        _alloc: Global,
        path: &str,
        limit: usize,
    ) -> Result<Option<Vec<u8>>, FolderError> {
        match read_file(self.rt, path, limit.saturating_add(1)) {
            Ok(found) => Ok(found),
            Err(error) if is_nothing(&error) => Ok(None),
            Err(error) => Err(self.failed(&error)),
        }
    }

    fn write(&mut self, path: &str, bytes: &[u8]) -> Result<(), FolderError> {
        match fs::write(self.rt, path, bytes) {
            Ok(()) => Ok(()),
            Err(error) => Err(self.failed(&error)),
        }
    }
}
