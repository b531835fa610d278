//! The words of a command.

ghost use Rattle.std.specs.Prelude.{◌≡◌, ◌≢◌, ◌<◌, IfSome, IfNone, MatchOption, MatchResult, length};
ghost use Rattle.std.specs.Str.Parse.{digits_value};
ghost use Rattle.odc_io.specs.Trees.{texts};
ghost use Rattle.odc_tool.specs.Words.{Verb, word_of, words_of, build, IsStart, Ask, asked_by, IsSteps, word_at, BadWord};
ghost use Rattle.odc_tool.specs.Reading.{text_of, IsFirst, spelled};

/// The number of instructions after which a program is stopped, where none is given.
const DEFAULT_STEPS: u64 = 1_000_000_000;

/// A command, with the words that it was given.
#[derive(Clone, Copy)]
pub enum Command<'a> {
    /// Carries out the package of a folder, for so many instructions at most.
    Run { dir: &'a str, steps: u64 },
    /// Carries out an executable file, for so many instructions at most.
    Exec { file: &'a str, steps: u64 },
    /// Writes the executable file of the package of a folder.
    Build { dir: &'a str, file: &'a str },
}

/// The first word of a command.
#[derive(Clone, Copy)]
pub enum Name {
    Run,
    Exec,
    Build,
}

/// The command that a word names.
fn name_of(word: &str) -> Option<Name>
    ensures some { IfSome result (λ name. text_of name ≡ word.now) }
    ensures none { IfNone result ((name : _) → text_of name ≢ word.now) }
{
    match word {
        "run" => Some(Name::Run),
        "exec" => Some(Name::Exec),
        "build" => Some(Name::Build),
        _ => None,
    }
}

/// The number that one to twenty digits write, below 2^64.
fn read_steps(word: &str) -> Option<u64>
    ensures { MatchOption result (¬ IsSteps word.now) (λ n. IsSteps word.now × (n ≡ digits_value 10 word.now)) }
{
    let bytes = word.as_bytes();
    if bytes.len() > 20 || bytes.first() == Some(&b'+') {
        return None;
    }
    word.parse::<u64>().ok()
}

/// What is carried out, and for how many instructions at most.
fn read_start(words: &[String]) -> Result<(&str, u64), usize>
    requires some { 0 < length words.now }
    ensures { (verb : Verb) → IsFirst words.now (word_of verb) → MatchResult result
        (λ asked. IsStart verb (spelled words.now) asked.0.now asked.1)
        (λ i. BadWord (spelled words.now) i) }
{
    if words.len() < 2 {
        return Err(1);
    }
    let what = words[1].as_str();
    if words.len() == 2 {
        return Ok((what, DEFAULT_STEPS));
    }
    if words[2].as_str() != "--steps" {
        return Err(2);
    }
    if words.len() < 4 {
        return Err(3);
    }
    let Some(steps) = read_steps(words[3].as_str()) else {
        return Err(3);
    };
    if words.len() > 4 {
        return Err(4);
    }
    Ok((what, steps))
}

/// The folder of a package, and the file that is to be written.
fn read_build(words: &[String]) -> Result<(&str, &str), usize>
    requires some { 0 < length words.now }
    ensures { IsFirst words.now (text_of Name.Build) → MatchResult result
        (λ asked. spelled words.now ≡ words_of (build asked.0.now asked.1.now))
        (λ i. BadWord (spelled words.now) i) }
{
    if words.len() < 2 {
        return Err(1);
    }
    if words.len() < 3 {
        return Err(2);
    }
    if words.len() > 3 {
        return Err(3);
    }
    Ok((words[1].as_str(), words[2].as_str()))
}

/// The command of these words, or the first index at which no command begins so, which is the
/// number of words where one is missing.
pub fn read_command(words: &Vec<String>) -> Result<Command<'_>, usize>
    ensures { MatchResult result
        (λ c. Ask (texts words.now) (asked_by c))
        (λ i. BadWord (texts words.now) i) }
{
    let words = words.as_slice();
    if words.is_empty() {
        return Err(0);
    }
    let Some(name) = name_of(words[0].as_str()) else {
        return Err(0);
    };
    match name {
        Name::Run => match read_start(words) {
            Ok(asked) => Ok(Command::Run {
                dir: asked.0,
                steps: asked.1,
            }),
            Err(word) => Err(word),
        },
        Name::Exec => match read_start(words) {
            Ok(asked) => Ok(Command::Exec {
                file: asked.0,
                steps: asked.1,
            }),
            Err(word) => Err(word),
        },
        Name::Build => match read_build(words) {
            Ok(asked) => Ok(Command::Build {
                dir: asked.0,
                file: asked.1,
            }),
            Err(word) => Err(word),
        },
    }
}

/// The word at an index, and no text where it is missing.
pub fn word_or_empty(words: &Vec<String>, index: usize) -> &str
    ensures { result.now ≡ word_at (texts words.now) index }
{
    match words.get(index) {
        Some(word) => word.as_str(),
        None => "",
    }
}
