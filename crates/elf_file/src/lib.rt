// Executables as ELF-64 files. `read` sees the image in the bytes of a file, without memory and without a
// copy, or tells the first of nine rules that isn't met, and the offset of what breaks it. `write` makes the
// file of an image. The definitions are `specs/Rules.antt`, by fields and offsets, and `specs/Written.antt`.
// Nothing is assumed of the bytes that are read; an image that is written has to fit its ranges. The layers
// above may rely on reading being exact, and on a written file denoting its image.
#![tactic(auto)]

mod field;
pub mod laws;
mod program;
pub mod read;
mod section;
#[cfg(test)]
mod tests;
pub mod write;
