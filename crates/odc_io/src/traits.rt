// What can be read, written and looked up outside, with what each of them tells.
ghost use Rattle.std.specs.Prelude.{◌≡◌, ℕ, ◌+◌, ◌<◌, ◌≤◌, List, Option, IfOk, IfSome, OnOk, OnErr, IsErrOf, length, take, vec_len};
ghost use Rattle.odc_io.specs.Counts.{Rose};
ghost use Rattle.odc_io.specs.Streams.{grown, shrunk, ReadsNext, AtEnd};
ghost use Rattle.odc_io.specs.Trees.{Tree, with_file, SameBut, ListsFiles, ReadsFront};

use std::alloc::{AllocError, Global};

/// A call on the outside that did not happen.
#[derive(Clone, Copy)]
pub struct Failed;

/// Why a call of a folder gives nothing: the folder failed, or memory ran out.
#[derive(Clone, Copy)]
pub enum FolderError {
    Failed,
    Memory,
}

impl From<AllocError> for FolderError {
    ghost use Rattle.odc_io.specs.declared.traits.FolderError.{FolderError};

    ghost from_gives = { λ _ e. e ≡ FolderError.Memory };

    fn from(_e: AllocError) -> FolderError {
        FolderError::Memory
    }
}

/// An input that is read from its front.
pub trait Source {
    // the bytes that are still to be read, where they are known
    ghost rest: { Self → Option (List ℕ) };
    // how many calls have failed so far, which stands still at the end of its type
    ghost faults: { Self → ℕ };

    /// Puts the next bytes at the start of `into` and answers how many. A failed read takes none,
    /// and 0 comes for a nonempty `into` only at the end.
    fn read(&mut self, into: &mut [u8]) -> Result<usize, Failed>
        ensures within { IfOk result (λ n. n ≤ length into.old) }
        ensures bytes { IfOk result (λ n. ReadsNext (rest self.old) into.new n) }
        ensures taken { IfOk result (λ n. rest self.new ≡ shrunk (rest self.old) n) }
        ensures end { IfOk result (λ n. 0 < length into.old → n ≡ 0 → AtEnd (rest self.old)) }
        ensures err { OnErr result (rest self.new ≡ rest self.old) }
        ensures counted { faults self.old ≤ faults self.new }
        ensures cause { OnErr result (Rose (faults self.old) (faults self.new)) };
}

/// An output that is written at its end.
pub trait Sink {
    // all that has been written, where that is known
    ghost written: { Self → Option (List ℕ) };
    // how many calls have failed so far, which stands still at the end of its type
    ghost faults: { Self → ℕ };

    /// Appends a front of `bytes` and answers its length. A failed write appends nothing, and 0 for
    /// a nonempty piece is a fault as well.
    fn write(&mut self, bytes: &[u8]) -> Result<usize, Failed>
        ensures within { IfOk result (λ n. n ≤ length bytes.now) }
        ensures ok { IfOk result (λ n. written self.new ≡ grown (written self.old) (take n bytes.now)) }
        ensures none { IfOk result (λ n. 0 < length bytes.now → n ≡ 0 → Rose (faults self.old) (faults self.new)) }
        ensures err { OnErr result (written self.new ≡ written self.old) }
        ensures counted { faults self.old ≤ faults self.new }
        ensures cause { OnErr result (Rose (faults self.old) (faults self.new)) };
}

/// A tree of files. A path is a text, and the path of a file directly in a folder is the folder's
/// path, a `/` and the file's name, which has no `/`.
pub trait Folder {
    // the bytes of the file at each path, where the tree is known
    ghost tree: { Self → Option Tree };
    // how many calls have failed so far, which stands still at the end of its type
    ghost faults: { Self → ℕ };

    /// The names of the files directly in the folder `path`, in any order, and `None` where no file
    /// lies under it at any depth.
    fn names(&mut self, alloc: Global, path: &str) -> Result<Option<Vec<String>>, FolderError>
        ensures found { IfOk result (λ o. IfSome (tree self.old) (λ t. ListsFiles t path.now o)) }
        ensures same { tree self.new ≡ tree self.old }
        ensures counted { faults self.old ≤ faults self.new }
        ensures cause { IsErrOf result FolderError.Failed → Rose (faults self.old) (faults self.new) };

    /// The first `limit + 1` bytes of the file at `path`, or all if it has fewer, and `None` where
    /// there is no such file.
    fn read(
        &mut self,
        alloc: Global,
        path: &str,
        limit: usize,
    ) -> Result<Option<Vec<u8>>, FolderError>
        ensures found { IfOk result (λ o. IfSome (tree self.old) (λ t. ReadsFront (t path.now) limit o)) }
        ensures within { IfOk result (λ o. IfSome o (λ v. vec_len v ≤ limit + 1)) }
        ensures same { tree self.new ≡ tree self.old }
        ensures counted { faults self.old ≤ faults self.new }
        ensures cause { IsErrOf result FolderError.Failed → Rose (faults self.old) (faults self.new) };

    /// Makes `bytes` the file at `path`. Where that fails, only this file may differ.
    fn write(&mut self, path: &str, bytes: &[u8]) -> Result<(), FolderError>
        ensures ok { OnOk result (tree self.new ≡ with_file (tree self.old) path.now bytes.now) }
        ensures err { OnErr result (SameBut path.now (tree self.old) (tree self.new)) }
        ensures counted { faults self.old ≤ faults self.new }
        ensures cause { IsErrOf result FolderError.Failed → Rose (faults self.old) (faults self.new) };
}
