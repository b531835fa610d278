// The program: it gathers its words, makes the real folder and streams, carries out the command, and
// ends with the number of its status. It assumes what the system does with files and streams: the
// adapters of `outside` tell none of it, and raise their count where a call fails.
#![tactic(auto)]

mod outside;

use crate::outside::{DiskFolder, FileSink, FileSource};
use odc_io::write_all;
use odc_tool::run::run_tool;
use odc_tool::status::{Status, exit_number};
use std::env;
use std::io::{self, ErrorKind};
use std::process::ExitCode;

/// The words after the program's name.
fn words(rt: &HostRuntime) -> io::Result<Vec<String>> {
    let mut all = env::args(rt)?;
    let _ = all.next();
    let mut words = Vec::new(rt.alloc());
    for word in all {
        words.push(word)?;
    }
    Ok(words)
}

fn main(rt: HostRuntime) -> ExitCode {
    let mut err = FileSink::new(rt.stderr());
    let words = match words(&rt) {
        Ok(words) => words,
        Err(error) if error.kind() == ErrorKind::InvalidData => {
            let _ = write_all(&mut err, b"odin_rv: a word is not UTF-8\n");
            return ExitCode::from(exit_number(&Status::Usage { word: 0 }));
        }
        Err(_) => {
            let _ = write_all(&mut err, b"odin_rv: no memory\n");
            return ExitCode::from(exit_number(&Status::Memory));
        }
    };
    let mut folder = DiskFolder::new(&rt);
    let mut input = FileSource::new(rt.stdin());
    let mut out = FileSink::new(rt.stdout());
    let mut image = Vec::new(rt.alloc());
    let status = run_tool(
        rt.alloc(),
        &words,
        &mut folder,
        &mut input,
        &mut out,
        &mut err,
        &mut image,
    );
    ExitCode::from(exit_number(&status))
}
