//! Paths of files as the error lines print them.

ghost use Rattle.std.specs.Prelude.{◌≡◌, ℕ, List, string_bytes};
ghost use Rattle.std.specs.Prelude.{IfOk};

use std::alloc::{AllocError, Global};
use std::marker::Model;

/// The path of a source file inside its folder, or of a library file. Contracts see its bytes.
#[derive(Drop)]
pub struct PathText {
    text: String,
}

impl Model for PathText {
    ghost Value = { List ℕ };

    ghost view = { λ p. string_bytes p.text };
}

impl PathText {
    /// The path with this text.
    pub fn new(text: String) -> Self
        ensures { result ≡ string_bytes text }
    {
        PathText { text }
    }

    /// A path with a text that is copied.
    pub fn copied(alloc: Global, text: &str) -> Result<Self, AllocError>
        ensures { IfOk result (λ p. p ≡ text.now) }
    {
        let text = String::from_str(alloc, text)?;
        Ok(PathText { text })
    }

    /// The text of the path.
    pub fn as_str(&self) -> &str
        ensures { result.now ≡ self.now }
    {
        self.text.as_str()
    }
}

#[cfg(test)]
mod tests {
    use super::*;
    use std::test::Fail;

    #[test]
    fn keeps_its_text(rt: HostRuntime) -> Result<(), Fail> {
        let path = PathText::copied(rt.alloc(), "pool/pool.odin")?;
        assert_eq!(rt; path.as_str(), "pool/pool.odin");
        Ok(())
    }
}
