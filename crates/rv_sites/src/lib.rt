// What an executable is made of, beside its instructions: `image` has what is written to a file and what is
// seen of one, `layout` the addresses of its parts, `sites` the lists of its two sections, `section` the
// bytes of these sections, written and read, and `trace` the line that tells a call of an allocator. The
// definitions are `specs/Sections.antt` (what stands where, and what is read), `specs/Trace.antt` and
// `specs/Layout.antt`. Nothing is assumed of the bytes that are read. The layers above may rely on reading
// being exact, and on what is written being read back.
#![tactic(auto)]

pub mod image;
pub mod laws;
pub mod layout;
pub mod number;
pub mod section;
pub mod sites;
#[cfg(test)]
mod tests;
pub mod trace;
