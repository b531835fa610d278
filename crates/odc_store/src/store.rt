//! Blocks, each open or ended, and their bytes.

ghost use Rattle.std.specs.Prelude.{◌≡◌, ◌↔◌, ◌||◌, ◌≤◌, ◌<◌, ◌+◌, ◌++◌, ◌∷◌, false, [], length, replicate, IfOk, OnOk, OnErr, IfSome, IfNone, IsSome, Some, None, nat_le, slice_set, if◌then◌else◌};
ghost use Rattle.odc_store.specs.declared.bytes.BlockId.{BlockId};
ghost use Rattle.odc_store.specs.Bytes.{numbers, patched};
ghost use Rattle.odc_store.specs.Blocks.{same, opened, content, loaded, loaded_in, kept, IsStray, IsFree, IsOpenedAt, IfContent};

use crate::bytes::{Address, BlockId, Bytes};
use std::alloc::{AllocError, Global};
use std::marker::Model;

/// Why bytes were not loaded or kept.
#[derive(Drop)]
pub enum StoreError {
    /// At least one byte was asked for, and the range doesn't lie inside an open block.
    Stray,
    Memory,
}

#[derive(Drop)]
enum Content {
    Open(Bytes),
    /// The block has ended; the next slot, if there is one, that a new block may take.
    Ended(Option<u32>),
}

/// What stands at a position of the store: the newest of the blocks that stood there.
#[derive(Drop)]
struct Slot {
    generation: u32,
    content: Content,
}

/// The blocks of a run.
#[derive(Drop)]
pub struct Store {
    alloc: Global,
    slots: Vec<Slot>,
    // the first slot that a new block may take
    free: Option<u32>,
}

impl Model for Store {
    ghost use Rattle.std.specs.Prelude.{map};
    ghost use Rattle.odc_store.specs.Blocks.{Blocks, slot_of};

    ghost Value = { Blocks };

    ghost view = { λ s. map slot_of s.slots.items };
}

impl Store {
    /// No block was opened.
    pub fn new(alloc: Global) -> Store
        ensures { result ≡ [] }
    {
        Store {
            alloc,
            slots: Vec::new(alloc),
            free: None,
        }
    }

    /// Opens a block of zeros, which no earlier block of this store is told by.
    pub fn open_block(&mut self, size: u64) -> Result<BlockId, AllocError>
        ensures fresh { IfOk result (λ b. opened self.old b ≡ false) }
        ensures opened { IfOk result (λ b. (c : BlockId) → opened self.new c ≡ (same b c || opened self.old c)) }
        ensures content { IfOk result (λ b. (c : BlockId) → content self.new c ≡ (if same b c then Some (numbers (replicate size 0)) else content self.old c)) }
        ensures err { OnErr result (self.new ≡ self.old) }
    {
        let bytes = Bytes::zeros(self.alloc, size as usize)?;
        match self.take_free() {
            Some(slot) => Ok(self.open_at(slot, bytes)),
            None => self.open_behind(bytes),
        }
    }

    /// Ends a block: nothing can be loaded from it or kept in it any more.
    pub fn close_block(&mut self, b: BlockId)
        ensures opened { (c : BlockId) → opened self.new c ≡ opened self.old c }
        ensures content { (c : BlockId) → content self.new c ≡ (if same b c then None else content self.old c) }
    {
        if self.find(b).is_some() {
            self.end(b);
        }
    }

    /// So many bytes at an address. Nothing is asked for where that is none, and so it doesn't stray.
    pub fn load(&self, alloc: Global, a: Address, size: u64) -> Result<Bytes, StoreError>
        ensures ok { IfOk result (λ bytes. loaded self.now a size ≡ Some bytes) }
        ensures stray { IsStray result ↔ (loaded self.now a size ≡ None) }
    {
        if size == 0 {
            return Ok(Bytes::from_numbers(alloc, Vec::new(alloc)));
        }
        match self.find(a.block) {
            Some(bytes) => part_of(alloc, bytes, a.offset, size),
            None => Err(StoreError::Stray),
        }
    }

    /// Puts bytes at an address in the place of those that are there.
    pub fn keep(&mut self, a: Address, bytes: &Bytes) -> Result<(), StoreError>
        ensures kept { OnOk result (kept self.old a bytes.now ≡ Some (content self.new a.block)) }
        ensures others { OnOk result ((c : BlockId) → same a.block c ≡ false → content self.new c ≡ content self.old c) }
        ensures opened { (c : BlockId) → opened self.new c ≡ opened self.old c }
        ensures stray { IsStray result ↔ (kept self.old a bytes.now ≡ None) }
        ensures err { OnErr result (self.new ≡ self.old) }
    {
        if bytes.is_empty() {
            return Ok(());
        }
        match self.find(a.block) {
            Some(there) => {
                if !is_within(there.len(), a.offset, bytes.len() as u64) {
                    return Err(StoreError::Stray);
                }
            }
            None => return Err(StoreError::Stray),
        }
        match self.patch(a, bytes) {
            Ok(()) => Ok(()),
            Err(_) => Err(StoreError::Memory),
        }
    }

    // The bytes of a block that is open.
    fn find(&self, b: BlockId) -> Option<&Bytes>
        ensures some { IfSome result (λ bytes. content self.now b ≡ Some bytes.now) }
        ensures none { IfNone result (content self.now b ≡ None) }
    {
        let at = b.slot as usize;
        if at >= self.slots.len() {
            return None;
        }
        let slot = &self.slots[at];
        if slot.generation != b.generation {
            return None;
        }
        match &slot.content {
            Content::Open(bytes) => Some(bytes),
            Content::Ended(_) => None,
        }
    }

    // Takes the first position that a new block may take from the list of these.
    fn take_free(&mut self) -> Option<u32>
        ensures same { self.new ≡ self.old }
        ensures ended { IfSome result (IsFree self.old) }
    {
        let at = self.free.take()?;
        if at as usize >= self.slots.len() {
            return None;
        }
        let slot = &self.slots[at as usize];
        match slot.content {
            Content::Ended(next) => {
                if slot.generation == u32::MAX {
                    return None;
                }
                self.free = next;
                Some(at)
            }
            Content::Open(_) => None,
        }
    }

    fn open_at(&mut self, at: u32, bytes: Bytes) -> BlockId
        requires { IsFree self.old at }
        ensures { IsOpenedAt self.old self.new at bytes result }
    {
        let generation = self.slots[at as usize].generation + 1;
        self.slots[at as usize] = Slot {
            generation,
            content: Content::Open(bytes),
        };
        BlockId {
            slot: at,
            generation,
        }
    }

    fn open_behind(&mut self, bytes: Bytes) -> Result<BlockId, AllocError>
        ensures ok { IfOk result (λ b. (self.new ≡ self.old ++ (0, Some bytes) ∷ []) × (b.slot ≡ length self.old) × (b.generation ≡ 0)) }
        ensures err { OnErr result (self.new ≡ self.old) }
    {
        let Ok(slot) = u32::try_from(self.slots.len()) else {
            return Err(AllocError);
        };
        self.slots.push(Slot {
            generation: 0,
            content: Content::Open(bytes),
        })?;
        Ok(BlockId {
            slot,
            generation: 0,
        })
    }

    fn end(&mut self, b: BlockId)
        requires { IsSome (content self.old b) }
        ensures { self.new ≡ slice_set self.old b.slot (b.generation, None) }
    {
        self.slots[b.slot as usize].content = Content::Ended(self.free);
        self.free = Some(b.slot);
    }

    fn patch(&mut self, a: Address, bytes: &Bytes) -> Result<(), AllocError>
        requires { IfContent (content self.old a.block) (λ there. a.offset + length bytes.now ≤ length there) }
        ensures ok { OnOk result (IfContent (content self.old a.block) (λ there. self.new ≡ slice_set self.old a.block.slot (a.block.generation, Some (patched a.offset bytes.now there)))) }
        ensures err { OnErr result (self.new ≡ self.old) }
    {
        match &mut self.slots[a.block.slot as usize].content {
            Content::Open(there) => there.patch(a.offset as usize, bytes),
            Content::Ended(_) => unreachable!(),
        }
    }
}

// Whether a range of so many bytes lies in a block of this size.
fn is_within(size: usize, offset: u64, n: u64) -> bool
    ensures { result ≡ nat_le (offset + n) size }
{
    offset <= size as u64 && n <= size as u64 - offset
}

fn part_of(alloc: Global, bytes: &Bytes, offset: u64, size: u64) -> Result<Bytes, StoreError>
    requires { 0 < size }
    ensures ok { IfOk result (λ part. loaded_in (Some bytes.now) offset size ≡ Some part) }
    ensures stray { IsStray result ↔ (loaded_in (Some bytes.now) offset size ≡ None) }
{
    if !is_within(bytes.len(), offset, size) {
        return Err(StoreError::Stray);
    }
    match bytes.part(alloc, offset as usize, size as usize) {
        Ok(part) => Ok(part),
        Err(_) => Err(StoreError::Memory),
    }
}
