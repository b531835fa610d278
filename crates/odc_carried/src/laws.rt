//! Laws of the step to core code, as contracts of calls that do nothing.

ghost use Rattle.odc_carried.specs.Crossing.{AreWell, AreKept, NeverAstray};
ghost use Rattle.odc_carried.specs.Kept.{QuietIntegers, QuietTruths};

/// Where an integer expression holds no call and no check, the core expression gives its word.
pub fn quiet_integers()
    ensures { QuietIntegers }
{}

/// And so does the one of a condition, whose word is 0 or 1.
pub fn quiet_truths()
    ensures { QuietTruths }
{}

/// The core code of a program that can cross is well.
pub fn core_code_is_well()
    ensures { AreWell }
{}

/// And its run keeps the source run, on every input and whatever the words of the procedures, at 64 times its cost and
/// a little more.
pub fn core_code_keeps()
    ensures { AreKept }
{}

/// The source run of a carried program that is well strays on no input.
pub fn carried_programs_never_stray()
    ensures { NeverAstray }
{}
