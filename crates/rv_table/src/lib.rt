// The instructions of RV64IM: the enum, the table as data, the word of an instruction and the
// instruction of a word, and the definition of the machine that carries them out. The definitions
// under specs/ go from bit fields (Fields) over the table (Table) and arithmetic on words (Words) to
// one step over ranges of memory (State) and the run of an image with its log, input and cost (Run).
// Stands on odc_text for checks, places and endings, and assumes nothing. The layers above may rely
// on `decode` being the table, on `encode` being undone by it alone, and on `executed` of one
// instruction computing to its equation.
#![tactic(auto)]

pub mod bits;
mod code;
pub mod effect;
mod format;
pub mod inst;
mod operand;

pub use code::{decode, encode};
