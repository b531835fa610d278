// A tree of files in memory, which fails at the calls that its list names.
ghost use Rattle.std.specs.Prelude.{◌≡◌, ◌≢◌, ◌+◌, ◌≤◌, ◌↔◌, ℕ, List, None, Some, IfOk, IfSome, OnOk, OnErr, IsErrOf, MatchOption, IsTrue, if◌then◌else◌, take, vec_len, string_bytes};
ghost use Rattle.std.specs.List.{Contains, list_any};
ghost use Rattle.std.specs.Str.{bytes_eq};
ghost use Rattle.odc_io.specs.Counts.{next_count};
ghost use Rattle.odc_io.specs.Trees.{joined, with_file, ListsFiles, ReadsFront, SameBut, texts};
ghost use Rattle.odc_io.specs.Files.{file_at, AddsName, IsFirstAt, CountsFault};

use crate::calls::{count_up, is_listed};
use crate::traits::{Folder, FolderError};
use std::alloc::{AllocError, Global};

/// A file in memory.
#[derive(Drop)]
pub struct MemFile {
    pub path: String,
    pub bytes: Vec<u8>,
}

/// A tree of files in memory. Of several files with one path the first counts. It numbers its calls
/// from 1, and a call fails exactly where `fail` has its number.
#[derive(Drop)]
pub struct MemFolder {
    pub files: Vec<MemFile>,
    pub calls: u64,
    pub fail: Vec<u64>,
    pub faults: u64,
}

impl MemFolder {
    pub fn new(files: Vec<MemFile>, fail: Vec<u64>) -> MemFolder
        ensures { result ≡ record { files = files; calls = 0; fail = fail; faults = 0 } }
    {
        MemFolder {
            files,
            calls: 0,
            fail,
            faults: 0,
        }
    }

    // Numbers a call, and says whether it fails.
    fn fails_now(&mut self) -> bool
        ensures fails { IsTrue result ↔ Contains self.old.fail.items (next_count self.old.calls) }
        ensures after { self.new ≡ record self.old { calls = next_count self.old.calls; faults = (if result then next_count self.old.faults else self.old.faults) } }
        ensures counted { self.old.faults ≤ self.new.faults }
    {
        count_up(&mut self.calls);
        let fails = is_listed(&self.fail, self.calls);
        if fails {
            count_up(&mut self.faults);
        }
        fails
    }
}

// The place of the first file with this path.
fn find_file(files: &Vec<MemFile>, path: &str) -> Option<usize>
    ensures { MatchOption result (file_at files.now.items path.now ≡ None) (λ i. IsFirstAt files.now.items path.now i) }
{
    for (i, file) in files.iter().enumerate() {
        if path == file.path.as_str() {
            return Some(i);
        }
    }
    None
}

// What follows the folder and a slash in a path.
fn path_under<'a>(path: &'a str, folder: &str) -> Option<&'a str>
    ensures { MatchOption result ((rest : List ℕ) → path.now ≢ joined folder.now rest) (λ rest. path.now ≡ joined folder.now rest.now) }
{
    path.strip_prefix(folder)?.strip_prefix('/')
}

// Whether a text is among these.
fn has_text(list: &Vec<String>, text: &str) -> bool
    ensures { result ≡ list_any (bytes_eq text.now) (texts list.now) }
{
    for t in list {
        if text == t.as_str() {
            return true;
        }
    }
    false
}

// Whether a text has a slash.
fn has_slash(text: &str) -> bool
    ensures { IsTrue result ↔ Contains text.now 47 }
{
    text.as_bytes().contains(&b'/')
}

// Adds a name that has no slash and isn't there yet.
fn add_name(alloc: Global, names: &mut Vec<String>, name: &str) -> Result<(), AllocError>
    ensures { OnOk result (AddsName (texts names.old) (texts names.new) name.now) }
{
    if !has_slash(name) && !has_text(names, name) {
        names.push(String::from_str(alloc, name)?)?;
    }
    Ok(())
}

// The names of the files directly in a folder.
fn list_files(
    alloc: Global,
    files: &Vec<MemFile>,
    folder: &str,
) -> Result<Option<Vec<String>>, AllocError>
    ensures { IfOk result (λ o. ListsFiles (file_at files.now.items) folder.now o) }
{
    let mut any = false;
    let mut names = Vec::new(alloc);
    for file in files {
        if let Some(name) = path_under(file.path.as_str(), folder) {
            any = true;
            add_name(alloc, &mut names, name)?;
        }
    }
    Ok(if any { Some(names) } else { None })
}

// A copy of the first bytes.
fn front_of(alloc: Global, bytes: &Vec<u8>, limit: usize) -> Result<Vec<u8>, AllocError>
    ensures { IfOk result (λ v. v.items ≡ take (limit + 1) bytes.now.items) }
{
    let end = bytes.len().min(limit.saturating_add(1));
    Vec::from_slice(alloc, &bytes[..end])
}

// Puts a file in the place of the first with its path, or after all.
fn put_file(files: &mut Vec<MemFile>, path: &str, bytes: &[u8]) -> Result<(), AllocError>
    ensures ok { OnOk result ((p : List ℕ) → file_at files.new.items p ≡ (if bytes_eq p path.now then Some bytes.now else file_at files.old.items p)) }
    ensures err { OnErr result (files.new.items ≡ files.old.items) }
{
    let alloc = *files.allocator();
    let copy = Vec::from_slice(alloc, bytes)?;
    match find_file(files, path) {
        Some(i) => files[i].bytes = copy,
        None => {
            let path = String::from_str(alloc, path)?;
            files.push(MemFile { path, bytes: copy })?;
        }
    }
    Ok(())
}

impl Folder for MemFolder {
    ghost use Rattle.std.specs.Prelude.{Some};

    ghost tree = { λ s. Some (file_at s.files.items) };

    ghost faults = { λ s. s.faults };

    fn names(&mut self, alloc: Global, path: &str) -> Result<Option<Vec<String>>, FolderError>
        ensures found { IfOk result (λ o. ListsFiles (file_at self.old.files.items) path.now o) }
        ensures fails { IsErrOf result FolderError.Failed ↔ Contains self.old.fail.items (next_count self.old.calls) }
        ensures calls { self.new.calls ≡ next_count self.old.calls }
        ensures faults { CountsFault result self.old.faults self.new.faults }
        ensures stays { (self.new.files ≡ self.old.files) × (self.new.fail ≡ self.old.fail) }
        ensures counted { self.old.faults ≤ self.new.faults }
    {
        if self.fails_now() {
            return Err(FolderError::Failed);
        }
        Ok(list_files(alloc, &self.files, path)?)
    }

    fn read(
        &mut self,
        alloc: Global,
        path: &str,
        limit: usize,
    ) -> Result<Option<Vec<u8>>, FolderError>
        ensures found { IfOk result (λ o. ReadsFront (file_at self.old.files.items path.now) limit o) }
        ensures within { IfOk result (λ o. IfSome o (λ v. vec_len v ≤ limit + 1)) }
        ensures fails { IsErrOf result FolderError.Failed ↔ Contains self.old.fail.items (next_count self.old.calls) }
        ensures calls { self.new.calls ≡ next_count self.old.calls }
        ensures faults { CountsFault result self.old.faults self.new.faults }
        ensures stays { (self.new.files ≡ self.old.files) × (self.new.fail ≡ self.old.fail) }
        ensures counted { self.old.faults ≤ self.new.faults }
    {
        if self.fails_now() {
            return Err(FolderError::Failed);
        }
        match find_file(&self.files, path) {
            Some(i) => Ok(Some(front_of(alloc, &self.files[i].bytes, limit)?)),
            None => Ok(None),
        }
    }

    fn write(&mut self, path: &str, bytes: &[u8]) -> Result<(), FolderError>
        ensures ok { OnOk result (Some (file_at self.new.files.items) ≡ with_file (Some (file_at self.old.files.items)) path.now bytes.now) }
        ensures err { OnErr result (self.new.files.items ≡ self.old.files.items) }
        ensures fails { IsErrOf result FolderError.Failed ↔ Contains self.old.fail.items (next_count self.old.calls) }
        ensures calls { self.new.calls ≡ next_count self.old.calls }
        ensures faults { CountsFault result self.old.faults self.new.faults }
        ensures stays { self.new.fail ≡ self.old.fail }
        ensures counted { self.old.faults ≤ self.new.faults }
    {
        if self.fails_now() {
            return Err(FolderError::Failed);
        }
        Ok(put_file(&mut self.files, path, bytes)?)
    }
}
