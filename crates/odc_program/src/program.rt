//! Programs: the instances of procedures that a package needs, with the tables that their bodies name.

ghost use Rattle.std.specs.Prelude.{◌≡◌, ◌↔◌, ◌++◌, [], ◌∷◌, Bool, true, List, IfOk, OnOk, All};
ghost use Rattle.odc_program.specs.declared.program.CheckError.TheVariants.{Memory};
ghost use Rattle.odc_program.specs.Views.Instances.{Instance, Need, Answer, gives, FaultTold, instance, procedure};

use crate::ops::Constant;
use crate::tree::TStmt;
use odc_text::code::Fault;
use odc_text::path::PathText;
use odc_text::place::Place;
use odc_types::{Convention, TyId, TypeName, Width};
use std::alloc::{AllocError, Global};

/// The number of a procedure's text.
#[derive(Clone, Copy)]
pub struct ProcId {
    pub index: u32,
}

/// A procedure with the types and numbers that its `$` parameters have.
#[derive(Drop)]
pub struct Inst {
    pub proc: ProcId,
    pub types: Vec<TyId>,
    pub numbers: Vec<i128>,
}

/// An instance that a body calls or names, and where it does so first.
#[derive(Drop)]
pub struct Need {
    pub inst: Inst,
    pub at: Place,
}

/// A variable: its type, and where it lies from the low end of its frame on.
#[derive(Clone, Copy)]
pub struct Local {
    pub ty: TyId,
    pub place: u64,
}

/// Code of the compiler's own beside a procedure. Its first locals are its parameters, the next ones its results.
#[derive(Drop)]
pub struct Helper {
    pub parameters: u32,
    pub results: u32,
    pub locals: Vec<Local>,
    /// What it needs of its caller's frame, and 128 more.
    pub frame: u64,
    pub body: Vec<TStmt>,
}

/// An instance of a procedure, with its body.
#[derive(Drop)]
pub struct Procedure {
    pub inst: Inst,
    pub name: String,
    /// The literal that holds its name, for locations.
    pub name_literal: u32,
    pub at: Place,
    pub convention: Convention,
    pub ty: TyId,
    pub params: Vec<Local>,
    pub results: Vec<Local>,
    pub locals: Vec<Local>,
    pub frame: u64,
    pub body: Vec<TStmt>,
    pub needs: Vec<Need>,
    pub helpers: Vec<Helper>,
}

/// A field of a struct, and where it lies.
#[derive(Clone, Copy)]
pub struct FieldRow {
    pub offset: u64,
    pub ty: TyId,
}

/// A name of an enum, and its value.
#[derive(Drop)]
pub struct EnumeratorRow {
    pub value: i128,
    pub name: String,
}

/// What kind of type it is; a distinct type has the kind of its base.
#[derive(Drop)]
pub enum TypeKind {
    Bool,
    Int(Width),
    Rune,
    Text,
    RawPtr,
    Ptr(TyId),
    Array(TyId, u64),
    Slice(TyId),
    Dyn(TyId),
    SoaArray(TyId, u64),
    SoaSlice(TyId),
    SoaDyn(TyId),
    Struct(Vec<FieldRow>),
    /// A union: where its tag lies, and its variants.
    Union(u64, Vec<TyId>),
    Enum(Width, Vec<EnumeratorRow>),
    Proc(Convention, Vec<TyId>, Vec<TyId>),
    /// What an expression gives that has none or several values.
    Several(Vec<TyId>),
}

/// A row of the table of types, with its size and alignment in bytes.
#[derive(Drop)]
pub struct TypeRow {
    pub size: u64,
    pub align: u64,
    /// The type itself, or what a distinct type stands for.
    pub base: TyId,
    /// Of a struct, union, enum or distinct type.
    pub name: Option<TypeName>,
    pub kind: TypeKind,
}

/// A global, by the place of its name, with the constant that it starts with, as the variant of a union where it says so.
/// One without a constant starts with zeros.
#[derive(Clone, Copy)]
pub struct GlobalVariable {
    pub at: Place,
    pub ty: TyId,
    pub first: Option<Constant>,
    pub variant: Option<u32>,
}

/// The bytes of a literal, and the place of its constant. A literal with the path of a file has the file with line and
/// column 0, one with the name of a procedure its `proc` word.
#[derive(Drop)]
pub struct Literal {
    pub at: Place,
    pub bytes: Vec<u8>,
}

/// What a program has of `base:runtime`: the positions of its two allocator procedures, where they are there, the type
/// of such procedures, and the literal that holds the first file's path.
#[derive(Clone, Copy)]
pub struct Runtime {
    pub heap: Option<u32>,
    pub temp: Option<u32>,
    pub allocator: TyId,
    pub files: u32,
}

/// A whole program. `main` is a position in `procedures`, a file's number one in `paths`.
#[derive(Drop)]
pub struct Program {
    pub types: Vec<TypeRow>,
    pub globals: Vec<GlobalVariable>,
    pub literals: Vec<Literal>,
    pub procedures: Vec<Procedure>,
    pub runtime: Runtime,
    pub main: u32,
    pub paths: Vec<PathText>,
}

/// Why a checker doesn't answer.
#[derive(Clone, Copy)]
pub enum CheckError {
    /// A rule that the text breaks.
    Fault(Fault),
    /// Memory ran out.
    Memory,
}

impl From<AllocError> for CheckError {
    ghost from_gives = { λ _ e. e ≡ Memory };

    fn from(_error: AllocError) -> CheckError {
        CheckError::Memory
    }
}

/// Types the bodies of procedures, one instance after another. It isn't used after a refusal.
pub trait BodyChecker {
    // the instances whose procedure, types and numbers it knows
    ghost takes: { Self → Instance → Type 0 };
    // the instances that it has answered with a procedure, in order
    ghost answered: { Self → List Instance };
    // what the text gives an instance once these are answered: one answer, but for the numbers of types
    ghost tells: { Self → List Instance → Instance → Answer → Type 0 };
    // whether two instances are one
    ghost one: { Self → Instance → Instance → Type 0 };

    /// The procedure of an instance, or the first rule that its text breaks.
    fn check(&mut self, alloc: Global, inst: &Inst) -> Result<Procedure, CheckError>
        requires known { takes self.old (instance inst.now) }
        ensures gives { IfOk result (λ p. tells self.old (answered self.old) (instance inst.now) (gives (procedure p))) }
        ensures listed { OnOk result (answered self.new ≡ answered self.old ++ instance inst.now ∷ []) }
        ensures needs { IfOk result (λ p. All (λ n. takes self.new n.instance) (procedure p).needs) }
        ensures takes { OnOk result ((i : Instance) → takes self.old i → takes self.new i) }
        ensures tells { OnOk result ((list : List Instance) (i : Instance) (a : Answer) → tells self.old list i a ↔ tells self.new list i a) }
        ensures one { OnOk result ((i j : Instance) → takes self.old i → takes self.old j → one self.old i j ↔ one self.new i j) }
        ensures fault { FaultTold (tells self.old (answered self.old) (instance inst.now)) result };

    /// Whether two instances are one, by identity of types.
    fn same(&self, a: &Inst, b: &Inst) -> bool
        requires first { takes self.now (instance a.now) }
        requires second { takes self.now (instance b.now) }
        ensures { (result ≡ true) ↔ one self.now (instance a.now) (instance b.now) };
}
