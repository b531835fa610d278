// Prints the texts of the library's packages, so that the file stdout, which holds them as they are
// published, is compared with them byte for byte.
#![tactic(auto)]

use odc_builtins::library;
use std::io;

fn main(rt: HostRuntime) -> io::Result<()> {
    for path in ["base:runtime", "core:mem"] {
        match library(path) {
            Some(text) => print!(rt; "{text}")?,
            None => println!(rt; "{path} has no text")?,
        }
    }
    Ok(())
}
