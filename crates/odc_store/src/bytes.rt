//! Bytes of the source.

ghost use Rattle.std.specs.Prelude.{◌≡◌, ◌≤◌, ◌<◌, ◌+◌, ◌++◌, length, take, drop, replicate, IfOk, OnOk, OnErr, IfSome, IfNone, slice_get, slice_index_or, Some, None, ◌==◌, ◌^◌, ◌-◌};
ghost use Rattle.odc_store.specs.declared.bytes.SourceByte.TheVariants.{Number};
ghost use Rattle.odc_store.specs.Bytes.{byte, joined, numbers, address_bytes, procedure_bytes, patched, marked, cleared, lesser, between};

use std::alloc::{AllocError, Global};
use std::marker::Model;

/// The number of a block of a `Store`. No two blocks that were opened in one store have the same.
#[derive(Clone, Copy)]
pub struct BlockId {
    pub slot: u32,
    pub generation: u32,
}

/// A place in a block, or behind its end.
#[derive(Clone, Copy)]
pub struct Address {
    pub block: BlockId,
    pub offset: u64,
}

/// What a byte that is no number is a piece of.
#[derive(Clone, Copy)]
pub enum Origin {
    Address(Address),
    /// A procedure by its number.
    Procedure(u32),
}

/// A byte of the source.
#[derive(Clone, Copy)]
pub enum SourceByte {
    Number(u8),
    /// The piece at this position of an address, the lowest first.
    AddressPiece(Address, u8),
    /// The piece at this position of the value of a procedure.
    ProcedurePiece(u32, u8),
}

/// A list of bytes of the source.
#[derive(Drop)]
pub struct Bytes {
    values: Vec<u8>,
    // what the bytes at the front are pieces of
    marks: Vec<Option<Origin>>,
}

impl Model for Bytes {
    ghost use Rattle.std.specs.Prelude.{List, ◌≤◌, length};
    ghost use Rattle.odc_store.specs.declared.bytes.SourceByte.{SourceByte};
    ghost use Rattle.odc_store.specs.Bytes.{joined};

    ghost Value = { List SourceByte };

    ghost view = { λ b. joined b.values.items b.marks.items };

    ghost invariant = { λ b. length b.marks.items ≤ length b.values.items };
}

// Puts a part in the place of as many elements.
fn overwrite<T: Copy>(list: &mut Vec<T>, at: usize, part: &[T])
    requires { at + length part.now ≤ length list.old.items }
    ensures { list.new.items ≡ take at list.old.items ++ part.now ++ drop (at + length part.now) list.old.items }
{
    list[at..at + part.len()].copy_from_slice(part);
}

// Marks the bytes from a position on. Those before it that have no mark yet are numbers, and so they stay.
fn mark(
    marks: &mut Vec<Option<Origin>>,
    from: usize,
    part: &[Option<Origin>],
) -> Result<(), AllocError>
    requires { from + length part.now < 2 ^ 64 }
    ensures ok { OnOk result (marks.new.items ≡ marked from part.now marks.old.items) }
    ensures err { OnErr result (marks.new.items ≡ marks.old.items) }
{
    if part.is_empty() {
        return Ok(());
    }
    if marks.len() < from + part.len() {
        marks.resize(from + part.len(), None)?;
    }
    overwrite(marks, from, part);
    Ok(())
}

fn lesser(a: usize, b: usize) -> usize
    ensures { result ≡ lesser a b }
{
    if a < b { a } else { b }
}

// The bytes between two positions lose their marks.
fn clear(marks: &mut Vec<Option<Origin>>, from: usize, until: usize)
    ensures { marks.new.items ≡ cleared from until marks.old.items }
{
    let end = lesser(marks.len(), until);
    if from < end {
        marks[from..end].fill(None);
    }
}

// What stands between two positions.
fn copied<T: Copy>(
    alloc: Global,
    list: &[T],
    from: usize,
    until: usize,
) -> Result<Vec<T>, AllocError>
    requires order { from ≤ until }
    requires within { until ≤ length list.now }
    ensures { IfOk result (λ v. v.items ≡ take (until - from) (drop from list.now)) }
{
    let mut copy = Vec::new(alloc);
    copy.extend_from_slice(&list[from..until])?;
    Ok(copy)
}

fn marks_between(
    alloc: Global,
    marks: &[Option<Origin>],
    from: usize,
    until: usize,
) -> Result<Vec<Option<Origin>>, AllocError>
    requires { from ≤ until }
    ensures { IfOk result (λ v. v.items ≡ between from until marks.now) }
{
    if from < marks.len() {
        copied(alloc, marks, from, lesser(marks.len(), until))
    } else {
        Ok(Vec::new(alloc))
    }
}

fn mark_at(marks: &[Option<Origin>], at: usize) -> Option<Origin>
    ensures { result ≡ slice_index_or marks.now at None }
{
    if at < marks.len() { marks[at] } else { None }
}

fn byte_of(value: u8, mark: Option<Origin>) -> SourceByte
    ensures { result ≡ byte value mark }
{
    match mark {
        None => SourceByte::Number(value),
        Some(Origin::Address(address)) => SourceByte::AddressPiece(address, value),
        Some(Origin::Procedure(procedure)) => SourceByte::ProcedurePiece(procedure, value),
    }
}

impl Bytes {
    /// The bytes that are these numbers.
    pub fn from_numbers(alloc: Global, values: Vec<u8>) -> Bytes
        ensures { result ≡ numbers values.items }
    {
        Bytes {
            values,
            marks: Vec::new(alloc),
        }
    }

    /// So many zeros.
    pub fn zeros(alloc: Global, size: usize) -> Result<Bytes, AllocError>
        ensures { IfOk result (λ b. b ≡ numbers (replicate size 0)) }
    {
        let mut values = Vec::new(alloc);
        values.resize(size, 0)?;
        Ok(Bytes::from_numbers(alloc, values))
    }

    /// The eight bytes of an address.
    pub fn from_address(alloc: Global, address: Address) -> Result<Bytes, AllocError>
        ensures { IfOk result (λ b. b ≡ address_bytes address) }
    {
        Ok(Bytes {
            values: Vec::from_array(alloc, [0, 1, 2, 3, 4, 5, 6, 7])?,
            marks: Vec::from_array(alloc, [Some(Origin::Address(address)); 8])?,
        })
    }

    /// The eight bytes of the value of a procedure.
    pub fn from_procedure(alloc: Global, procedure: u32) -> Result<Bytes, AllocError>
        ensures { IfOk result (λ b. b ≡ procedure_bytes procedure) }
    {
        Ok(Bytes {
            values: Vec::from_array(alloc, [0, 1, 2, 3, 4, 5, 6, 7])?,
            marks: Vec::from_array(alloc, [Some(Origin::Procedure(procedure)); 8])?,
        })
    }

    #[tactic(auto, using(crate::proofs::Joining::length_joined))]
    pub fn len(&self) -> usize
        ensures { result ≡ length self.now }
    {
        self.values.len()
    }

    #[tactic(auto, using(crate::proofs::Joining::length_joined))]
    pub fn is_empty(&self) -> bool
        ensures { result ≡ (length self.now == 0) }
    {
        self.values.is_empty()
    }

    /// The byte at a position.
    #[tactic(auto, using(crate::proofs::Joining::length_joined))]
    pub fn get(&self, at: usize) -> SourceByte
        requires { at < length self.now }
        ensures { slice_get self.now at ≡ Some result }
    {
        byte_of(self.values[at], mark_at(self.marks.as_slice(), at))
    }

    /// So many bytes from a position on.
    #[tactic(auto, using(crate::proofs::Joining::length_joined))]
    pub fn part(&self, alloc: Global, from: usize, size: usize) -> Result<Bytes, AllocError>
        requires { from + size ≤ length self.now }
        ensures { IfOk result (λ b. b ≡ take size (drop from self.now)) }
    {
        let values = copied(alloc, self.values.as_slice(), from, from + size)?;
        let marks = marks_between(alloc, self.marks.as_slice(), from, from + size)?;
        Ok(Bytes { values, marks })
    }

    /// Puts bytes in the place of those from a position on.
    #[tactic(auto, using(crate::proofs::Joining::length_joined))]
    pub fn patch(&mut self, from: usize, part: &Bytes) -> Result<(), AllocError>
        requires { from + length part.now ≤ length self.old }
        ensures ok { OnOk result (self.new ≡ patched from part.now self.old) }
        ensures err { OnErr result (self.new ≡ self.old) }
    {
        mark(&mut self.marks, from, part.marks.as_slice())?;
        clear(
            &mut self.marks,
            from + part.marks.len(),
            from + part.values.len(),
        );
        overwrite(&mut self.values, from, part.values.as_slice());
        Ok(())
    }
}
