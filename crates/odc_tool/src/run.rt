//! The commands: from words, a folder and an input to what is printed and written.

ghost use Rattle.std.specs.Prelude.{◌≡◌, ◌⊎◌, ℕ, ◌≤◌, List, [], IfOk, IfSome, All, Option, None, get_or, map};
ghost use Rattle.odc_io.specs.Counts.{Rose};
ghost use Rattle.odc_io.specs.Streams.{GrewByFront};
ghost use Rattle.odc_io.specs.Trees.{texts, SameBut, ReadsFront};
ghost use Rattle.rv_sites.specs.Seen.{range_seen, BytesFit};
ghost use Rattle.rv_machine.specs.Image.{range_of, image_of as image_owned};
ghost use Rattle.rv_machine.specs.Image.{BytesFit as OwnedBytesFit};
ghost use Rattle.rv_machine.specs.Machine.{loaded_from};
ghost use Rattle.rv_machine.specs.Outside.{told};
ghost use Rattle.elf_file.specs.Rules.{Image as FileImage};
ghost use Rattle.elf_file.specs.Seen.{image_seen};
ghost use Rattle.odc_typed.specs.View.{program};
ghost use Rattle.odc_typed.specs.Well.{IsWell};
ghost use Rattle.odc_build.specs.Kept.{IsWithin};
ghost use Rattle.odc_build.specs.Files.{CanList};
ghost use Rattle.odc_tool.specs.Headline.{Answers, RunAnswers, BuildAnswers, ExecAnswers, AskedAnswers, ImageAnswers, CauseBy, run_causes, build_causes, exec_causes, AskedCause, HasCause, bad_words, paths_of, file_limit};
ghost use Rattle.odc_tool.specs.Words.{BadWord, Asked, Ask, asked_by};
ghost use Rattle.odc_tool.specs.Loading.{IsReady, BytesAnswer, FileAnswer, ProgramAnswers, WriteAnswers, program_causes, bytes_causes, file_causes, write_causes};
ghost use Rattle.odc_tool.specs.Status.{line_of};
ghost use Rattle.odc_tool.specs.Telling.{status_of, Tells, TellsBy, TellsError, ErrorTellsBy};

use crate::folder::{GatherError, gather_program};
use crate::status::{Status, status_line};
use crate::words::{Command, read_command, word_or_empty};
use elf_file::read::{BadImage, read_elf};
use odc_build::compile::compile;
use odc_io::{Folder, Sink, Source, write_all};
use odc_text::place::FileId;
use odc_typed::tree::Program;
use rv_machine::image::{ImageView as OwnedView, Range as OwnedRange};
use rv_machine::machine::Machine;
use rv_machine::stop::Stop;
use rv_sites::image::{ImageView, Range};
use rv_sites::sites::{ByteString, Sites};
use std::alloc::{AllocError, Global};

/// The most bytes of a file that is carried out.
const FILE_LIMIT: usize = 0x8000_0000;

/// The rule that the file is there, and has no more bytes.
const NO_FILE: BadImage = BadImage { rule: 0, offset: 0 };

/// A failure whose line needs no memory.
#[derive(Clone, Copy)]
enum Failure {
    /// The input failed.
    Read,
    /// An output failed.
    Write,
    /// Memory ran out.
    NoMemory,
}

/// The status of a failure.
fn failure_status(failure: Failure) -> Status
    ensures { result ≡ status_of failure }
{
    match failure {
        Failure::Read => Status::ReadFault,
        Failure::Write => Status::WriteFault,
        Failure::NoMemory => Status::Memory,
    }
}

/// The line of a failure.
fn failure_line(failure: Failure) -> &'static str
    ensures { result.now ≡ line_of (status_of failure) [] [] }
{
    match failure {
        Failure::Read => "odin_rv: read fault\n",
        Failure::Write => "odin_rv: write fault\n",
        Failure::NoMemory => "odin_rv: no memory\n",
    }
}

/// Tells a failure. Where its line can't be written either, the status stays.
fn fail<E: Sink>(failure: Failure, err: &mut E) -> Status
    ensures status { result ≡ status_of failure }
    ensures line { GrewByFront (E.written err.old) (E.written err.new) (line_of (status_of failure) [] []) }
    ensures counted { E.faults err.old ≤ E.faults err.new }
{
    let _ = write_all(err, failure_line(failure).as_bytes());
    failure_status(failure)
}

/// Tells a status by its line. `path` is the path of its place's file, `word` the word that fits no
/// command. Where the line can't be made or written, the answer is that failure.
fn tell<E: Sink>(alloc: Global, status: Status, path: &[u8], word: &str, err: &mut E) -> Status
    ensures line { Tells status (line_of status path.now word.now) result (E.written err.old) (E.written err.new) }
    ensures cause { TellsBy status (Rose (E.faults err.old) (E.faults err.new)) result }
    ensures counted { E.faults err.old ≤ E.faults err.new }
{
    let Ok(line) = status_line(alloc, &status, path, word) else {
        return fail(Failure::NoMemory, err);
    };
    match write_all(err, &line) {
        Ok(()) => status,
        Err(_) => fail(Failure::Write, err),
    }
}

/// A range of memory with bytes of its own.
fn owned_range(alloc: Global, range: &Range) -> Result<OwnedRange, AllocError>
    requires { BytesFit range.now }
    ensures range { IfOk result (λ r. range_of r ≡ range_seen range.now) }
    ensures fits { IfOk result OwnedBytesFit }
{
    Ok(OwnedRange {
        start: range.start,
        size: range.size,
        readable: range.readable,
        writable: range.writable,
        executable: range.executable,
        bytes: Vec::from_slice(alloc, range.bytes)?,
    })
}

/// The ranges of memory with bytes of their own.
fn owned_ranges(alloc: Global, ranges: &[Range]) -> Result<Vec<OwnedRange>, AllocError>
    requires { All BytesFit ranges.now }
    ensures ranges { IfOk result (λ list. map range_of list.items ≡ map range_seen ranges.now) }
    ensures fit { IfOk result (λ list. All OwnedBytesFit list.items) }
{
    let mut list = Vec::with_capacity(alloc, ranges.len())?;
    for range in ranges {
        list.push(owned_range(alloc, range)?)?;
    }
    Ok(list)
}

/// A machine on which an image is loaded, and the paths that the image lists.
#[derive(Drop)]
pub struct Ready {
    machine: Machine,
    paths: Vec<ByteString>,
}

/// Loads an image.
fn load(alloc: Global, view: &ImageView) -> Result<Ready, AllocError>
    requires { All BytesFit view.now.ranges.items }
    ensures { IfOk result (IsReady (image_seen view.now)) }
{
    let ranges = owned_ranges(alloc, &view.ranges)?;
    let Sites {
        paths,
        checks,
        calls,
        ..
    } = view.sites.to_sites(alloc)?;
    let owned = OwnedView {
        ranges,
        entry: view.entry,
        sites: checks,
        calls,
    };
    let machine = Machine::load(alloc, &owned, false)?;
    Ok(Ready { machine, paths })
}

/// The path of a file, and no path where none is listed.
fn path_of(paths: &[ByteString], file: FileId) -> &[u8]
    ensures { result.now ≡ get_or paths.now file.number [] }
{
    match paths.get(file.number as usize) {
        Some(path) => path.as_bytes(),
        None => &[],
    }
}

/// Runs a loaded machine for so many steps at most, and tells its status.
fn run_machine<S: Source, O: Sink, E: Sink>(
    alloc: Global,
    ready: Ready,
    steps: u64,
    input: &mut S,
    out: &mut O,
    err: &mut E,
) -> Status
    ensures run { (image : FileImage) → IsReady image ready → ImageAnswers image steps result (told (S.rest input.old) (O.written out.old) (E.written err.old)) (told (S.rest input.new) (O.written out.new) (E.written err.new)) }
    ensures cause { CauseBy (program_causes (Rose (S.faults input.old) (S.faults input.new)) (Rose (O.faults out.old) (O.faults out.new) ⊎ Rose (E.faults err.old) (E.faults err.new))) steps result }
{
    let Ready { mut machine, paths } = ready;
    match machine.run(steps, input, out, err) {
        Stop::Exited { code } => tell(alloc, Status::Exited { code }, &[], "", err),
        Stop::Checked { check, at } => {
            let path = path_of(&paths, at.file);
            tell(alloc, Status::Stopped { check, at }, path, "", err)
        }
        Stop::Trapped { pc } => tell(alloc, Status::Trapped { pc }, &[], "", err),
        Stop::StepsOut => tell(alloc, Status::StepsOut { steps }, &[], "", err),
        Stop::ReadFault => fail(Failure::Read, err),
        Stop::WriteFault => fail(Failure::Write, err),
    }
}

/// Tells which rule the bytes of a file don't meet.
fn tell_broken<E: Sink>(alloc: Global, broken: BadImage, err: &mut E) -> Status
    ensures line { Tells (Status.BadImage broken.rule broken.offset) (line_of (Status.BadImage broken.rule broken.offset) [] []) result (E.written err.old) (E.written err.new) }
    ensures cause { TellsBy (Status.BadImage broken.rule broken.offset) (Rose (E.faults err.old) (E.faults err.new)) result }
    ensures counted { E.faults err.old ≤ E.faults err.new }
{
    let BadImage { rule, offset } = broken;
    tell(alloc, Status::BadImage { rule, offset }, &[], "", err)
}

/// Runs the bytes of a file for so many steps at most, or tells which rule they don't meet.
fn run_bytes<S: Source, O: Sink, E: Sink>(
    alloc: Global,
    bytes: &[u8],
    steps: u64,
    input: &mut S,
    out: &mut O,
    err: &mut E,
) -> Status
    ensures run { BytesAnswer bytes.now steps result (told (S.rest input.old) (O.written out.old) (E.written err.old)) (told (S.rest input.new) (O.written out.new) (E.written err.new)) }
    ensures cause { CauseBy (bytes_causes bytes.now (Rose (S.faults input.old) (S.faults input.new)) (Rose (O.faults out.old) (O.faults out.new) ⊎ Rose (E.faults err.old) (E.faults err.new))) steps result }
{
    let view = match read_elf(bytes) {
        Ok(view) => view,
        Err(broken) => return tell_broken(alloc, broken, err),
    };
    match load(alloc, &view) {
        Ok(ready) => run_machine(alloc, ready, steps, input, out, err),
        Err(_) => fail(Failure::NoMemory, err),
    }
}

/// Compiles a program, leaves the bytes of its file in `image`, and runs them for so many steps at most.
fn run_program<S: Source, O: Sink, E: Sink>(
    alloc: Global,
    p: &Program,
    steps: u64,
    input: &mut S,
    out: &mut O,
    err: &mut E,
    image: &mut Vec<u8>,
) -> Status
    requires well { IsWell (program p.now) }
    requires within { IsWithin (program p.now) }
    requires lists { CanList (program p.now) p.now.paths.items }
    requires paths { p.now.paths.items ≡ paths_of }
    ensures run { ProgramAnswers (program p.now) steps result image.old.items image.new.items (told (S.rest input.old) (O.written out.old) (E.written err.old)) (told (S.rest input.new) (O.written out.new) (E.written err.new)) }
    ensures cause { CauseBy (program_causes (Rose (S.faults input.old) (S.faults input.new)) (Rose (O.faults out.old) (O.faults out.new) ⊎ Rose (E.faults err.old) (E.faults err.new))) steps result }
{
    let Ok(bytes) = compile(alloc, p) else {
        return fail(Failure::NoMemory, err);
    };
    *image = bytes;
    run_bytes(alloc, image, steps, input, out, err)
}

/// Tells why a folder gives no program.
fn tell_error<E: Sink>(alloc: Global, error: GatherError, err: &mut E) -> Status
    ensures line { TellsError error result (E.written err.old) (E.written err.new) }
    ensures cause { ErrorTellsBy error (Rose (E.faults err.old) (E.faults err.new)) result }
    ensures counted { E.faults err.old ≤ E.faults err.new }
{
    match error {
        GatherError::Refused { fault, path } => tell(
            alloc,
            Status::Refused { fault },
            path.as_str().as_bytes(),
            "",
            err,
        ),
        GatherError::FolderFault => tell(alloc, Status::FolderFault, &[], "", err),
        GatherError::Memory => fail(Failure::NoMemory, err),
    }
}

/// Runs the package of a folder for so many steps at most.
fn run_package<F: Folder, S: Source, O: Sink, E: Sink>(
    alloc: Global,
    folder: &mut F,
    dir: &str,
    steps: u64,
    input: &mut S,
    out: &mut O,
    err: &mut E,
    image: &mut Vec<u8>,
) -> Status
    ensures folder { IfSome (F.tree folder.old) (λ files. RunAnswers files dir.now steps (Rose (F.faults folder.old) (F.faults folder.new)) result image.old.items image.new.items (told (S.rest input.old) (O.written out.old) (E.written err.old)) (told (S.rest input.new) (O.written out.new) (E.written err.new))) }
    ensures cause { CauseBy (run_causes dir.now (F.tree folder.old) (Rose (F.faults folder.old) (F.faults folder.new)) (Rose (S.faults input.old) (S.faults input.new)) (Rose (O.faults out.old) (O.faults out.new) ⊎ Rose (E.faults err.old) (E.faults err.new))) steps result }
    ensures same { F.tree folder.new ≡ F.tree folder.old }
{
    match gather_program(alloc, folder, dir) {
        Ok(p) => run_program(alloc, &p, steps, input, out, err, image),
        Err(error) => tell_error(alloc, error, err),
    }
}

/// Compiles a program, writes its file, and leaves the bytes in `image`.
fn write_program<F: Folder, E: Sink>(
    alloc: Global,
    folder: &mut F,
    p: &Program,
    file: &str,
    err: &mut E,
    image: &mut Vec<u8>,
) -> Status
    requires well { IsWell (program p.now) }
    requires within { IsWithin (program p.now) }
    requires lists { CanList (program p.now) p.now.paths.items }
    requires paths { p.now.paths.items ≡ paths_of }
    ensures made { (rest o : Option (List ℕ)) → WriteAnswers (program p.now) file.now (Rose (F.faults folder.old) (F.faults folder.new)) result (F.tree folder.old) (F.tree folder.new) image.old.items image.new.items (told rest o (E.written err.old)) (told rest o (E.written err.new)) }
    ensures cause { CauseBy (write_causes (Rose (F.faults folder.old) (F.faults folder.new)) (Rose (E.faults err.old) (E.faults err.new))) 0 result }
    ensures others { SameBut file.now (F.tree folder.old) (F.tree folder.new) }
    ensures counted { F.faults folder.old ≤ F.faults folder.new }
{
    let Ok(bytes) = compile(alloc, p) else {
        return fail(Failure::NoMemory, err);
    };
    match folder.write(file, &bytes) {
        Ok(()) => {
            *image = bytes;
            Status::Done
        }
        Err(error) => tell_error(alloc, GatherError::from(error), err),
    }
}

/// Writes the file of the package of a folder.
fn build_package<F: Folder, E: Sink>(
    alloc: Global,
    folder: &mut F,
    dir: &str,
    file: &str,
    err: &mut E,
    image: &mut Vec<u8>,
) -> Status
    ensures folder { (rest o : Option (List ℕ)) → IfSome (F.tree folder.old) (λ files. BuildAnswers files dir.now file.now (Rose (F.faults folder.old) (F.faults folder.new)) result (F.tree folder.new) image.old.items image.new.items (told rest o (E.written err.old)) (told rest o (E.written err.new))) }
    ensures cause { CauseBy (build_causes dir.now (F.tree folder.old) (Rose (F.faults folder.old) (F.faults folder.new)) (Rose (E.faults err.old) (E.faults err.new))) 0 result }
    ensures others { SameBut file.now (F.tree folder.old) (F.tree folder.new) }
{
    match gather_program(alloc, folder, dir) {
        Ok(p) => write_program(alloc, folder, &p, file, err, image),
        Err(error) => tell_error(alloc, error, err),
    }
}

/// Runs the bytes of a file, of which so many were read that it is seen whether they are too many, or tells that the
/// file isn't there, or has too many.
fn run_content<S: Source, O: Sink, E: Sink>(
    alloc: Global,
    content: Option<Vec<u8>>,
    steps: u64,
    input: &mut S,
    out: &mut O,
    err: &mut E,
) -> Status
    ensures run { (file : Option (List ℕ)) → ReadsFront file file_limit content → FileAnswer file steps result (told (S.rest input.old) (O.written out.old) (E.written err.old)) (told (S.rest input.new) (O.written out.new) (E.written err.new)) }
    ensures cause { (file : Option (List ℕ)) → ReadsFront file file_limit content → CauseBy (file_causes file (Rose (S.faults input.old) (S.faults input.new)) (Rose (O.faults out.old) (O.faults out.new) ⊎ Rose (E.faults err.old) (E.faults err.new))) steps result }
{
    let Some(bytes) = content else {
        return tell_broken(alloc, NO_FILE, err);
    };
    if bytes.len() > FILE_LIMIT {
        return tell_broken(alloc, NO_FILE, err);
    }
    run_bytes(alloc, &bytes, steps, input, out, err)
}

/// Runs an executable file for so many steps at most.
fn run_file<F: Folder, S: Source, O: Sink, E: Sink>(
    alloc: Global,
    folder: &mut F,
    file: &str,
    steps: u64,
    input: &mut S,
    out: &mut O,
    err: &mut E,
) -> Status
    ensures file { IfSome (F.tree folder.old) (λ files. ExecAnswers (files file.now) steps (Rose (F.faults folder.old) (F.faults folder.new)) result (told (S.rest input.old) (O.written out.old) (E.written err.old)) (told (S.rest input.new) (O.written out.new) (E.written err.new))) }
    ensures cause { CauseBy (exec_causes file.now (F.tree folder.old) (Rose (F.faults folder.old) (F.faults folder.new)) (Rose (S.faults input.old) (S.faults input.new)) (Rose (O.faults out.old) (O.faults out.new) ⊎ Rose (E.faults err.old) (E.faults err.new))) steps result }
    ensures same { F.tree folder.new ≡ F.tree folder.old }
{
    match folder.read(alloc, file, FILE_LIMIT) {
        Ok(content) => run_content(alloc, content, steps, input, out, err),
        Err(error) => tell_error(alloc, GatherError::from(error), err),
    }
}

/// Carries out a command.
fn carry_out<F: Folder, S: Source, O: Sink, E: Sink>(
    alloc: Global,
    command: Command<'_>,
    folder: &mut F,
    input: &mut S,
    out: &mut O,
    err: &mut E,
    image: &mut Vec<u8>,
) -> Status
    ensures answers { AskedAnswers (asked_by command.entry) (Rose (F.faults folder.old) (F.faults folder.new)) result (F.tree folder.old) (F.tree folder.new) image.old.items image.new.items (told (S.rest input.old) (O.written out.old) (E.written err.old)) (told (S.rest input.new) (O.written out.new) (E.written err.new)) }
    ensures cause { AskedCause (asked_by command.entry) (F.tree folder.old) (Rose (F.faults folder.old) (F.faults folder.new)) (Rose (S.faults input.old) (S.faults input.new)) (Rose (O.faults out.old) (O.faults out.new) ⊎ Rose (E.faults err.old) (E.faults err.new)) result }
{
    match command {
        Command::Run { dir, steps } => {
            run_package(alloc, folder, dir, steps, input, out, err, image)
        }
        Command::Exec { file, steps } => run_file(alloc, folder, file, steps, input, out, err),
        Command::Build { dir, file } => build_package(alloc, folder, dir, file, err, image),
    }
}

/// Carries out the command that the words name, and tells its status. `run` leaves the bytes that it carries out in
/// `image`, `build` those that it writes; all else leaves it as it is.
pub fn run_tool<F: Folder, S: Source, O: Sink, E: Sink>(
    alloc: Global,
    words: &Vec<String>,
    folder: &mut F,
    input: &mut S,
    out: &mut O,
    err: &mut E,
    image: &mut Vec<u8>,
) -> Status
    // Words that are no command are told by the first index at which no command begins so.
    ensures usage { (i : ℕ) → BadWord (texts words.now) i → Answers (bad_words (texts words.now) i) result (told (S.rest input.old) (O.written out.old) (E.written err.old)) (told (S.rest input.new) (O.written out.new) (E.written err.new)) }
    ensures unread { (i : ℕ) → BadWord (texts words.now) i → (F.tree folder.new ≡ F.tree folder.old) × (image.new.items ≡ image.old.items) }

    // Else what they ask for is answered.
    ensures answers { (asked : Asked) → Ask (texts words.now) asked → AskedAnswers asked (Rose (F.faults folder.old) (F.faults folder.new)) result (F.tree folder.old) (F.tree folder.new) image.old.items image.new.items (told (S.rest input.old) (O.written out.old) (E.written err.old)) (told (S.rest input.new) (O.written out.new) (E.written err.new)) }

    // Each status has its cause.
    ensures cause { HasCause (texts words.now) (F.tree folder.old) (Rose (F.faults folder.old) (F.faults folder.new)) (Rose (S.faults input.old) (S.faults input.new)) (Rose (O.faults out.old) (O.faults out.new) ⊎ Rose (E.faults err.old) (E.faults err.new)) result }
{
    match read_command(words) {
        Ok(command) => carry_out(alloc, command, folder, input, out, err, image),
        Err(word) => tell(
            alloc,
            Status::Usage { word },
            &[],
            word_or_empty(words, word),
            err,
        ),
    }
}
