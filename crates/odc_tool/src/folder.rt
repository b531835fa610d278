//! From a folder to the program of its one source file.

ghost use Rattle.std.specs.Prelude.{◌≡◌, ◌≢◌, ◌≤◌, ◌↔◌, ◌++◌, List, [], ◌∷◌, ℕ, Some, None, IfOk, IfErr, IfSome, IsErrOf, IsTrue, MatchOption, option_map, length, string_bytes};
ghost use Rattle.std.specs.Option.{option_copied};
ghost use Rattle.std.specs.List.{Contains, list_any};
ghost use Rattle.std.specs.Str.{bytes_eq};
ghost use Rattle.odc_io.specs.Counts.{Rose};
ghost use Rattle.odc_io.specs.Trees.{joined, texts};
ghost use Rattle.odc_tool.specs.Verdict.{Verdict, taken, refused, main_name, IsSourceName, no_source, outside};
ghost use Rattle.odc_typed.specs.View.{program};
ghost use Rattle.odc_tool.specs.Gather.{IsOther, IsLeast, IsMain, IsTypedOf, Shows, IfRefused, lesser};

use odc_io::{Folder, FolderError};
use odc_small::text::read_program;
use odc_text::code::{Code, Fault};
use odc_text::path::PathText;
use odc_text::place::{FileId, Place};
use odc_typed::tree::Program;
use std::alloc::{AllocError, Global};

const MAIN: &str = "main.odin";

const LIMIT: usize = 16384;

/// Why a folder gives no text.
#[derive(Drop)]
pub enum GatherError {
    /// A call of the folder failed.
    FolderFault,
    /// The folder breaks a rule; the path is printed before its place.
    Refused { fault: Fault, path: PathText },
    /// Memory ran out.
    Memory,
}

impl From<AllocError> for GatherError {
    ghost use Rattle.odc_tool.specs.declared.folder.GatherError.{GatherError};

    ghost from_gives = { λ _ e. e ≡ GatherError.Memory };

    fn from(_e: AllocError) -> GatherError {
        GatherError::Memory
    }
}

impl From<FolderError> for GatherError {
    ghost use Rattle.odc_tool.specs.Errors.{gather_error};

    ghost from_gives = { λ cause e. e ≡ gather_error cause };

    fn from(cause: FolderError) -> GatherError {
        match cause {
            FolderError::Failed => GatherError::FolderFault,
            FolderError::Memory => GatherError::Memory,
        }
    }
}

// Whether a name ends as those of source files do.
fn is_source_name(name: &str) -> bool
    ensures { IsTrue result ↔ IsSourceName name.now }
{
    name.as_bytes().strip_suffix(b".odin").is_some()
}

// Whether this is the name of a source file other than `main.odin`.
fn is_other(name: &str) -> bool
    ensures { IsTrue result ↔ IsOther name.now }
{
    is_source_name(name) && !name.as_bytes().contains(&b'/') && name != MAIN
}

// The one that comes first in byte order.
fn lesser_of<'a>(a: &'a str, b: &'a str) -> &'a str
    ensures { result.now ≡ lesser a.now b.now }
{
    if b.cmp(a).is_lt() { b } else { a }
}

// The first name in byte order among those of other source files.
fn least_other(names: &Vec<String>) -> Option<&str>
    ensures { IsLeast (texts names.now) (option_copied result) }
{
    let mut least = None;
    for name in names {
        let name = name.as_str();
        if is_other(name) {
            least = match least {
                Some(best) => Some(lesser_of(best, name)),
                None => Some(name),
            };
        }
    }
    least
}

// Whether `main.odin` is among the names.
fn has_main(names: &Vec<String>) -> bool
    ensures { result ≡ list_any (bytes_eq main_name) (texts names.now) }
{
    for name in names {
        if MAIN == name.as_str() {
            return true;
        }
    }
    false
}

// The path of `main.odin` in a folder.
fn main_path(alloc: Global, dir: &str) -> Result<String, AllocError>
    ensures { IfOk result (λ path. string_bytes path ≡ joined dir.now main_name) }
{
    format!(in alloc; "{dir}/main.odin")
}

// The bytes of `main.odin`, up to one past the limit, where it is listed.
fn read_main<F: Folder>(
    alloc: Global,
    folder: &mut F,
    dir: &str,
    names: &Vec<String>,
) -> Result<Option<Vec<u8>>, GatherError>
    ensures found { IfOk result (λ o. IfSome (F.tree folder.old) (λ files. IsMain files dir.now (texts names.now) o)) }
    ensures refused { IfErr result (λ e. IfRefused e (λ _. ⊥)) }
    ensures fault { IsErrOf result GatherError.FolderFault → Rose (F.faults folder.old) (F.faults folder.new) }
    ensures same { F.tree folder.new ≡ F.tree folder.old }
    ensures counted { F.faults folder.old ≤ F.faults folder.new }
{
    if !has_main(names) {
        return Ok(None);
    }
    let path = main_path(alloc, dir)?;
    Ok(folder.read(alloc, path.as_str(), LIMIT)?)
}

// A refusal at the folder itself.
fn refused_folder(alloc: Global, dir: &str) -> Result<GatherError, AllocError>
    ensures { IfOk result (λ e. e ≡ GatherError.Refused no_source dir.now) }
{
    let at = Place {
        file: FileId { number: 0 },
        line: 0,
        column: 0,
    };
    let fault = Fault {
        code: Code::S01,
        at,
    };
    Ok(GatherError::Refused {
        fault,
        path: PathText::copied(alloc, dir)?,
    })
}

// A refusal at the start of a file.
fn refused_file(alloc: Global, name: &str) -> Result<GatherError, AllocError>
    ensures { IfOk result (λ e. e ≡ GatherError.Refused outside name.now) }
{
    let at = Place {
        file: FileId { number: 0 },
        line: 1,
        column: 1,
    };
    let fault = Fault {
        code: Code::N00,
        at,
    };
    Ok(GatherError::Refused {
        fault,
        path: PathText::copied(alloc, name)?,
    })
}

// What the bytes of `main.odin` and the first other name come to.
fn decide(
    alloc: Global,
    dir: &str,
    main: Option<Vec<u8>>,
    other: Option<&str>,
) -> Result<Program, GatherError>
    ensures ok { IfOk result (λ p. IsTypedOf (λ t. Shows main (option_copied other.entry) dir.now (taken t)) (program p)) }
    ensures paths { IfOk result (λ p. p.paths.items ≡ main_name ∷ []) }
    ensures err { IfErr result (λ e. IfRefused e (Shows main (option_copied other.entry) dir.now)) }
    ensures none { IsErrOf result GatherError.FolderFault → ⊥ }
{
    match (main, other) {
        (None, None) => Err(refused_folder(alloc, dir)?),
        (None, Some(name)) => Err(refused_file(alloc, name)?),
        (Some(_), Some(name)) => Err(refused_file(alloc, lesser_of(name, MAIN))?),
        (Some(bytes), None) => match read_program(alloc, &bytes)? {
            Some(program) => Ok(program),
            None => Err(refused_file(alloc, MAIN)?),
        },
    }
}

/// The program of the text that `main.odin` of the folder holds, where it is the only source file and
/// its text is in the grammar, and else the fault of the folder.
pub fn gather_program<F: Folder>(
    alloc: Global,
    folder: &mut F,
    dir: &str,
) -> Result<Program, GatherError>
    ensures taken { IfOk result (λ p. IsTypedOf (λ t. IfSome (F.tree folder.old) (λ files. Verdict files dir.now (taken t))) (program p)) }
    ensures paths { IfOk result (λ p. p.paths.items ≡ main_name ∷ []) }
    ensures refused { IfErr result (λ e. IfSome (F.tree folder.old) (λ files. IfRefused e (Verdict files dir.now))) }
    ensures fault { IsErrOf result GatherError.FolderFault → Rose (F.faults folder.old) (F.faults folder.new) }
    ensures same { F.tree folder.new ≡ F.tree folder.old }
    ensures counted { F.faults folder.old ≤ F.faults folder.new }
{
    let Some(names) = folder.names(alloc, dir)? else {
        return Err(refused_folder(alloc, dir)?);
    };
    let main = read_main(alloc, folder, dir, &names)?;
    decide(alloc, dir, main, least_other(&names))
}
