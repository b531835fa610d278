// From mid code to what the machine loads: `emit` gives each procedure a block of code with holes for
// entries, addresses and sites, `link` puts blocks together and fills the holes, and `image` does both. It
// assumes a sane program whose temporaries have slots in their frames and whose text lies below the store.
// It promises that a block is the code of its procedure wherever it stands, that the words of the text are
// the instructions that `specs/Code.antt` gives as data, and that on every input of bytes the machine's run
// of the image keeps the mid run. Between them stand functions that give just the instructions of each
// step.
#![tactic(auto)]

mod block;
mod emit;
mod encoded;
mod holes;
pub mod image;
pub mod laws;
pub mod limits;
pub mod link;
pub mod loaded;
mod sizes;
mod step;
pub mod unlinked;
