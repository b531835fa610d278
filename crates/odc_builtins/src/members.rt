// The members of the packages of the library whose procedures are the compiler's own.
ghost use Rattle.std.specs.Prelude.{◌≡◌, ◌≢◌, IfSome, IfNone};
ghost use Rattle.odc_builtins.specs.Members.{member_name, package_of, kind_of};

use crate::packages::LibraryPackage;

/// A member of `core:fmt` or `core:os`.
#[derive(Clone, Copy)]
pub enum Member {
    /// `fmt.print(..)` prints its arguments with a space between two.
    Print,
    /// `fmt.println(..)` prints its arguments with a space between two, and a newline.
    Println,
    /// `os.read(fd: int, data: []byte) -> (int, os.Error)`
    Read,
    /// `os.write(fd: int, data: []byte) -> (int, os.Error)`
    Write,
    /// `os.exit(code: int)`
    Exit,
    /// `os.stdin`, the descriptor 0.
    Stdin,
    /// `os.stdout`, the descriptor 1.
    Stdout,
    /// `os.stderr`, the descriptor 2.
    Stderr,
    /// `os.Error :: enum {None, Invalid_File}`
    Error,
}

/// What a member is.
#[derive(Clone, Copy, PartialEq, Eq)]
pub enum MemberKind {
    /// A procedure of any printable arguments, which is passed a context.
    Printing,
    /// A contextless procedure of a descriptor and bytes, which answers how many and an `os.Error`.
    Transfer,
    /// A contextless procedure of a number, which ends the program.
    Ending,
    /// A descriptor: an `int`.
    Descriptor { number: u8 },
    /// The type of errors.
    ErrorType,
}

/// The member of a package that a name after the package's is. A package whose source is text has its members there.
pub fn member_of(library: LibraryPackage, name: &str) -> Option<Member>
    ensures some { IfSome result (λ m. (package_of m ≡ library) × (member_name m ≡ name.now)) }
    ensures none { IfNone result ((m : _) → package_of m ≡ library → member_name m ≢ name.now) }
{
    match library {
        LibraryPackage::Fmt => match name {
            "print" => Some(Member::Print),
            "println" => Some(Member::Println),
            _ => None,
        },
        LibraryPackage::Os => match name {
            "read" => Some(Member::Read),
            "write" => Some(Member::Write),
            "exit" => Some(Member::Exit),
            "stdin" => Some(Member::Stdin),
            "stdout" => Some(Member::Stdout),
            "stderr" => Some(Member::Stderr),
            "Error" => Some(Member::Error),
            _ => None,
        },
        LibraryPackage::Runtime | LibraryPackage::Mem => None,
    }
}

/// What a member is.
pub fn member_kind(m: Member) -> MemberKind
    ensures { result ≡ kind_of m }
{
    match m {
        Member::Print | Member::Println => MemberKind::Printing,
        Member::Read | Member::Write => MemberKind::Transfer,
        Member::Exit => MemberKind::Ending,
        Member::Stdin => MemberKind::Descriptor { number: 0 },
        Member::Stdout => MemberKind::Descriptor { number: 1 },
        Member::Stderr => MemberKind::Descriptor { number: 2 },
        Member::Error => MemberKind::ErrorType,
    }
}
