//! Fault codes: why a package is refused.

ghost use Rattle.std.specs.Prelude.{◌≡◌};
ghost use Rattle.odc_text.specs.Code.{name_of, text_of};

use crate::place::Place;

/// A rule that a package breaks. The letter tells the kind of rule: S of files and packages, X of
/// tokens, G of the grammar, N of forms outside the profile, C of names, constants and types, L of
/// limits.
#[derive(Clone, Copy)]
pub enum Code {
    /// No .odin file here.
    S01,
    /// Not UTF-8.
    S02,
    /// Package name differs.
    S03,
    /// No such package.
    S04,
    /// Import cycle.
    S05,
    /// No token here.
    X01,
    /// Syntax.
    G01,
    /// Not in this profile.
    N00,
    /// Not in this profile.
    N01,
    /// Not in this profile.
    N02,
    /// Not in this profile.
    N03,
    /// Not in this profile.
    N04,
    /// Not in this profile.
    N05,
    /// Not in this profile.
    N06,
    /// Not in this profile.
    N07,
    /// Not in this profile.
    N08,
    /// Not in this profile.
    N09,
    /// Not in this profile.
    N10,
    /// Not in this profile.
    N11,
    /// Not in this profile.
    N12,
    /// Not in this profile.
    N13,
    /// Not in this profile.
    N14,
    /// Not in this profile.
    N15,
    /// Not in this profile.
    N16,
    /// Not in this profile.
    N17,
    /// Not in this profile.
    N18,
    /// Name not declared.
    C01,
    /// Name declared twice.
    C02,
    /// Declaration depends on itself.
    C03,
    /// Constant out of range.
    C04,
    /// Context is not available here.
    C05,
    /// Type does not match.
    C06,
    /// Operator not defined here.
    C07,
    /// Not of this kind.
    C08,
    /// Wrong number of values or names.
    C09,
    /// Cannot be assigned or addressed.
    C10,
    /// No such field or variant.
    C11,
    /// Cases missing or repeated.
    C12,
    /// Nothing to leave here.
    C13,
    /// Return missing.
    C14,
    /// Defer must not leave.
    C15,
    /// Parameters cannot be found.
    C16,
    /// Not constant.
    C17,
    /// Type not allowed here.
    C18,
    /// Main missing or wrong.
    C19,
    /// Value is not used.
    C20,
    /// Limit passed.
    L01,
    /// Limit passed.
    L02,
    /// Limit passed.
    L03,
    /// Limit passed.
    L04,
    /// Limit passed.
    L05,
    /// Limit passed.
    L06,
    /// Limit passed.
    L07,
    /// Limit passed.
    L08,
    /// Limit passed.
    L09,
    /// Limit passed.
    L10,
    /// Limit passed.
    L11,
    /// Limit passed.
    L12,
}

/// A rule that a package breaks, and where.
#[derive(Clone, Copy)]
pub struct Fault {
    pub code: Code,
    pub at: Place,
}

/// The name of the code, as the error line prints it.
pub fn code_name(code: Code) -> &'static str
    ensures { result.now ≡ name_of code }
{
    match code {
        Code::S01 => "S01",
        Code::S02 => "S02",
        Code::S03 => "S03",
        Code::S04 => "S04",
        Code::S05 => "S05",
        Code::X01 => "X01",
        Code::G01 => "G01",
        Code::N00 => "N00",
        Code::N01 => "N01",
        Code::N02 => "N02",
        Code::N03 => "N03",
        Code::N04 => "N04",
        Code::N05 => "N05",
        Code::N06 => "N06",
        Code::N07 => "N07",
        Code::N08 => "N08",
        Code::N09 => "N09",
        Code::N10 => "N10",
        Code::N11 => "N11",
        Code::N12 => "N12",
        Code::N13 => "N13",
        Code::N14 => "N14",
        Code::N15 => "N15",
        Code::N16 => "N16",
        Code::N17 => "N17",
        Code::N18 => "N18",
        Code::C01 => "C01",
        Code::C02 => "C02",
        Code::C03 => "C03",
        Code::C04 => "C04",
        Code::C05 => "C05",
        Code::C06 => "C06",
        Code::C07 => "C07",
        Code::C08 => "C08",
        Code::C09 => "C09",
        Code::C10 => "C10",
        Code::C11 => "C11",
        Code::C12 => "C12",
        Code::C13 => "C13",
        Code::C14 => "C14",
        Code::C15 => "C15",
        Code::C16 => "C16",
        Code::C17 => "C17",
        Code::C18 => "C18",
        Code::C19 => "C19",
        Code::C20 => "C20",
        Code::L01 => "L01",
        Code::L02 => "L02",
        Code::L03 => "L03",
        Code::L04 => "L04",
        Code::L05 => "L05",
        Code::L06 => "L06",
        Code::L07 => "L07",
        Code::L08 => "L08",
        Code::L09 => "L09",
        Code::L10 => "L10",
        Code::L11 => "L11",
        Code::L12 => "L12",
    }
}

/// The text of the code, as the error line prints it.
pub fn code_text(code: Code) -> &'static str
    ensures { result.now ≡ text_of code }
{
    match code {
        Code::S01 => "no .odin file here",
        Code::S02 => "not UTF-8",
        Code::S03 => "package name differs",
        Code::S04 => "no such package",
        Code::S05 => "import cycle",
        Code::X01 => "no token here",
        Code::G01 => "syntax",
        Code::N00 => "not in this profile",
        Code::N01 => "not in this profile",
        Code::N02 => "not in this profile",
        Code::N03 => "not in this profile",
        Code::N04 => "not in this profile",
        Code::N05 => "not in this profile",
        Code::N06 => "not in this profile",
        Code::N07 => "not in this profile",
        Code::N08 => "not in this profile",
        Code::N09 => "not in this profile",
        Code::N10 => "not in this profile",
        Code::N11 => "not in this profile",
        Code::N12 => "not in this profile",
        Code::N13 => "not in this profile",
        Code::N14 => "not in this profile",
        Code::N15 => "not in this profile",
        Code::N16 => "not in this profile",
        Code::N17 => "not in this profile",
        Code::N18 => "not in this profile",
        Code::C01 => "name not declared",
        Code::C02 => "name declared twice",
        Code::C03 => "declaration depends on itself",
        Code::C04 => "constant out of range",
        Code::C05 => "context is not available here",
        Code::C06 => "type does not match",
        Code::C07 => "operator not defined here",
        Code::C08 => "not of this kind",
        Code::C09 => "wrong number of values or names",
        Code::C10 => "cannot be assigned or addressed",
        Code::C11 => "no such field or variant",
        Code::C12 => "cases missing or repeated",
        Code::C13 => "nothing to leave here",
        Code::C14 => "return missing",
        Code::C15 => "defer must not leave",
        Code::C16 => "parameters cannot be found",
        Code::C17 => "not constant",
        Code::C18 => "type not allowed here",
        Code::C19 => "main missing or wrong",
        Code::C20 => "value is not used",
        Code::L01 => "limit passed",
        Code::L02 => "limit passed",
        Code::L03 => "limit passed",
        Code::L04 => "limit passed",
        Code::L05 => "limit passed",
        Code::L06 => "limit passed",
        Code::L07 => "limit passed",
        Code::L08 => "limit passed",
        Code::L09 => "limit passed",
        Code::L10 => "limit passed",
        Code::L11 => "limit passed",
        Code::L12 => "limit passed",
    }
}
