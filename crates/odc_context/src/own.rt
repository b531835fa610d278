//! The own variables of a procedure.

ghost use Rattle.std.specs.Prelude.{◌≡◌, ◌+◌, ◌^◌, ◌<◌, ◌≤◌};

/// How many variables a procedure declares, the position of its result among them, and how many values
/// wait at once in the variables behind those. The three of printing lie behind the waiting ones.
#[derive(Clone, Copy)]
pub struct OwnVariables {
    pub first: u32,
    pub result: u32,
    pub waiting: u32,
    ghost counted: { first + waiting < 2 ^ 24 },
}

impl OwnVariables {
    /// The position of the buffer.
    pub fn buffer(self) -> u32
        ensures { result ≡ self.first + self.waiting }
    {
        self.first + self.waiting
    }

    /// The position of the address of the buffer's first byte in use.
    pub fn pointer(self) -> u32
        ensures { result ≡ self.first + self.waiting + 1 }
    {
        self.first + self.waiting + 1
    }

    /// The position of the number that is printed.
    pub fn number(self) -> u32
        ensures { result ≡ self.first + self.waiting + 2 }
    {
        self.first + self.waiting + 2
    }

    /// The position of the variable in which the value waits at a depth.
    pub fn waiting_at(self, depth: u32) -> u32
        requires { depth ≤ self.waiting }
        ensures { result ≡ self.first + depth }
    {
        self.first + depth
    }
}
