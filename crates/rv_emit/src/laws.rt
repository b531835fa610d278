//! The laws of the step to machine code, as contracts of calls that do nothing.

ghost use Rattle.std.specs.Prelude.{◌≡◌, ℕ, List, length};
ghost use Rattle.rv_table.specs.Run.{Site};
ghost use Rattle.odc_mid.specs.Tree.{Proc, Whole};
ghost use Rattle.odc_mid.specs.Well.{IsWell};
ghost use Rattle.rv_emit.specs.Code.{block_code, proc_size};
ghost use Rattle.rv_emit.specs.Blocks.{bare_code, proc_holes, filled};
ghost use Rattle.rv_emit.specs.Layout.{AllHaveSlots, image_with};
ghost use Rattle.rv_emit.specs.Emitted.{IsEmitted, IsKept};

/// A text in which each procedure of a program becomes its block, at an entry of its own, keeps the mid run
/// on every input of bytes, in whatever order and at whatever places the blocks stand, and however the text
/// was made.
pub fn machine_code_keeps()
    ensures { (p : Whole) (entries : ℕ → ℕ) (text : List ℕ) (sites : List Site) (calls : List ℕ) → IsWell p → AllHaveSlots p.procedures → IsEmitted p entries text sites calls → IsKept entries p (image_with p text sites calls) }
{}

/// The block of a procedure with its holes filled is the code of the procedure at any place, among any
/// entries, addresses and numbers of sites.
pub fn blocks_stand_anywhere()
    ensures { (entries : ℕ → ℕ) (addresses : List ℕ) (at site : ℕ) (p : Proc) → filled entries addresses 0 site (proc_holes p) (bare_code p) ≡ block_code entries addresses at site p }
{}

/// How many instructions a procedure becomes: 17 at its entry, and those of its steps by kind.
pub fn instructions_are_counted()
    ensures { (p : Proc) → length (bare_code p) ≡ proc_size p }
{}
