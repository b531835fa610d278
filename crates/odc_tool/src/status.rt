//! How a command ends: its status, the exit number of the process, and the line that tells it.

ghost use Rattle.std.specs.Prelude.{◌≡◌, IfOk, string_bytes};
ghost use Rattle.odc_tool.specs.Status.{number_of, line_of, path_of, text_behind, refused_text_of, stopped_text_of, strayed_text_of};

use odc_text::check::Check;
use odc_text::code::{Fault, code_name, code_text};
use odc_text::place::Place;
use std::alloc::{AllocError, Global};

/// How a command ended.
#[derive(Clone, Copy)]
pub enum Status {
    /// The command did what it was asked.
    Done,
    /// The program ended itself with this code.
    Exited { code: u8 },
    /// The package breaks a rule.
    Refused { fault: Fault },
    /// The words are no command: the first word that fits none, or the number of words where one is
    /// missing.
    Usage { word: usize },
    /// The program was stopped by a check.
    Stopped { check: Check, at: Place },
    /// The machine carried out so many instructions and hasn't ended.
    StepsOut { steps: u64 },
    /// The machine met no instruction that it may carry out.
    Trapped { pc: u64 },
    /// The source run did what has no meaning.
    Strayed { at: Place },
    /// The file is no image that the machine takes.
    BadImage { rule: u8, offset: u64 },
    /// A call of the folder failed.
    FolderFault,
    /// A read of the input failed.
    ReadFault,
    /// A write to one of the outputs failed.
    WriteFault,
    /// Memory ran out.
    Memory,
    /// The source run took so many turns and hasn't ended.
    TurnsOut { turns: u64 },
}

/// The exit number of the process.
pub fn exit_number(s: &Status) -> u8
    ensures { result ≡ number_of s.now }
{
    match s {
        Status::Done => 0,
        Status::Exited { code } => *code,
        Status::Refused { .. } => 1,
        Status::Usage { .. } => 2,
        Status::Stopped { .. } => 3,
        Status::StepsOut { .. } => 4,
        Status::Trapped { .. } => 5,
        Status::Strayed { .. } => 6,
        Status::BadImage { .. } => 7,
        Status::FolderFault => 8,
        Status::ReadFault => 9,
        Status::WriteFault => 10,
        Status::Memory => 11,
        Status::TurnsOut { .. } => 12,
    }
}

/// The path of the place's file, where the status has a place.
fn path_before<'a>(s: &Status, path: &'a [u8]) -> &'a [u8]
    ensures { result.now ≡ path_of s.now path.now }
{
    match s {
        Status::Refused { .. } | Status::Stopped { .. } | Status::Strayed { .. } => path,
        _ => &[],
    }
}

/// The rest of the line, behind the path.
fn status_text(alloc: Global, s: &Status, word: &str) -> Result<String, AllocError>
    ensures { IfOk result (λ text. string_bytes text ≡ text_behind s.now word.now) }
{
    match *s {
        Status::Done | Status::Exited { .. } => Ok(String::new(alloc)),
        Status::Refused { fault } => refused_text(alloc, &fault),
        Status::Usage { .. } => format!(in alloc; "odin_rv: bad word {word}\n"),
        Status::Stopped { check, at } => stopped_text(alloc, check, at),
        Status::StepsOut { steps } => format!(in alloc; "odin_rv: stopped after {steps} steps\n"),
        Status::Trapped { pc } => format!(in alloc; "odin_rv: trap at 0x{pc:x}\n"),
        Status::Strayed { at } => strayed_text(alloc, at),
        Status::BadImage { rule, offset } => {
            format!(in alloc; "odin_rv: bad image, rule {rule} at {offset}\n")
        }
        Status::FolderFault => String::from_str(alloc, "odin_rv: folder fault\n"),
        Status::ReadFault => String::from_str(alloc, "odin_rv: read fault\n"),
        Status::WriteFault => String::from_str(alloc, "odin_rv: write fault\n"),
        Status::Memory => String::from_str(alloc, "odin_rv: no memory\n"),
        Status::TurnsOut { turns } => format!(in alloc; "odin_rv: stopped after {turns} turns\n"),
    }
}

/// The line that tells the status on the error output, with its newline, and nothing for a status
/// that has none. `path` is the path of the place's file, whose bytes may be any, and `word` the word that
/// fits no command.
pub fn status_line(
    alloc: Global,
    s: &Status,
    path: &[u8],
    word: &str,
) -> Result<Vec<u8>, AllocError>
    ensures { IfOk result (λ line. line.items ≡ line_of s.now path.now word.now) }
{
    let text = status_text(alloc, s, word)?;
    let mut line = Vec::from_slice(alloc, path_before(s, path))?;
    line.extend_from_slice(text.as_bytes())?;
    Ok(line)
}

fn refused_text(alloc: Global, fault: &Fault) -> Result<String, AllocError>
    ensures { IfOk result (λ text. string_bytes text ≡ refused_text_of fault.now) }
{
    let line = fault.at.line;
    let column = fault.at.column;
    let name = code_name(fault.code);
    let text = code_text(fault.code);
    format!(in alloc; ":{line}:{column}: {name} {text}\n")
}

fn stopped_text(alloc: Global, check: Check, at: Place) -> Result<String, AllocError>
    ensures { IfOk result (λ text. string_bytes text ≡ stopped_text_of check at) }
{
    let line = at.line;
    let column = at.column;
    let name = check.name();
    format!(in alloc; ":{line}:{column}: stopped: {name}\n")
}

fn strayed_text(alloc: Global, at: Place) -> Result<String, AllocError>
    ensures { IfOk result (λ text. string_bytes text ≡ strayed_text_of at) }
{
    let line = at.line;
    let column = at.column;
    format!(in alloc; ":{line}:{column}: strayed\n")
}
