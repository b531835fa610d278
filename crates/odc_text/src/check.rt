//! The named checks at which a program stops.

ghost use Rattle.std.specs.Prelude.{◌≡◌};
ghost use Rattle.odc_text.specs.Check.{name_of, number_of};

/// A check that stops the program where it fails.
#[derive(Clone, Copy)]
pub enum Check {
    /// An index outside its container.
    Index,
    /// The bounds of a slice out of order or outside its container.
    Slice,
    /// A zero divisor.
    Division,
    /// A union that holds another variant than the asserted one.
    Assertion,
    /// A dereference or a call of nil.
    Nil,
    /// Frames that would pass the stack.
    Stack,
    /// `assert` of something false.
    Assert,
    /// `panic`.
    Panic,
    /// A negative or too great length or capacity.
    Length,
}

impl Check {
    /// The name that a stopped program's line prints.
    pub fn name(self) -> &'static str
        ensures { result.now ≡ name_of self }
    {
        match self {
            Check::Index => "index",
            Check::Slice => "slice",
            Check::Division => "division",
            Check::Assertion => "assertion",
            Check::Nil => "nil",
            Check::Stack => "stack",
            Check::Assert => "assert",
            Check::Panic => "panic",
            Check::Length => "length",
        }
    }

    /// The number that stands for the check in an executable, 1 to 9.
    pub fn number(self) -> u8
        ensures { result ≡ number_of self }
    {
        match self {
            Check::Index => 1,
            Check::Slice => 2,
            Check::Division => 3,
            Check::Assertion => 4,
            Check::Nil => 5,
            Check::Stack => 6,
            Check::Assert => 7,
            Check::Panic => 8,
            Check::Length => 9,
        }
    }
}
