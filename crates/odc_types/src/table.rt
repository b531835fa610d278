ghost use Rattle.std.specs.Prelude.{◌≡◌, ℕ, [], ◌∷◌, ◌++◌, ◌+◌, ◌<◌, ◌≤◌, ◌^◌, ◌==◌, ◌↔◌, ◌⊎◌, length, slice_get, slice_set, Some, IfSome, IfNone, IfOk, OnOk, OnErr, IsTrue, All};
ghost use Rattle.odc_types.specs.Nodes.{node, nodes};
ghost use Rattle.odc_types.specs.Parts.{HasPartsBelow, IsUndefined};
ghost use Rattle.odc_types.specs.Identity.{identity_of, identity_of_node};
ghost use Rattle.odc_types.specs.Keys.{IsKeyOf};
ghost use Rattle.odc_types.specs.Interned.{IsFresh, IsAt};
ghost use Rattle.odc_types.specs.Layout.{layout, size as bytes_of, HasSize, size_of, align_of, field_count, offset_of, layout_of, layout_of_node};
ghost use Rattle.odc_types.specs.Clipped.{IsMeasured};
ghost use Rattle.odc_types.specs.Holds.{IsMarked, IsHeldBy};
ghost use Rattle.odc_types.specs.Limits.{within_limits};

use crate::extent::Extent;
use crate::holds::held;
use crate::index::{found, put};
use crate::kept::{Kept, height_of};
use crate::key::{Key, key_of};
use crate::limits::{LayoutError, SizeAlign, limited};
use crate::measure::{field_offset, kept, measured};
use crate::ty::{Ty, TyId};
use indexmap::IndexSet;
use std::alloc::{AllocError, Global};
use std::marker::Model;
use std::mem;

/// The number of the type at an index. There are as many numbers as a `u32` has.
fn numbered(index: usize) -> Result<TyId, AllocError>
    ensures { IfOk result (λ id. id.index ≡ index) }
{
    match u32::try_from(index) {
        Ok(index) => Ok(TyId { index }),
        Err(_) => Err(AllocError),
    }
}

/// Types by number, each once. The parts of a type are types of the same table, by their numbers.
#[derive(Drop)]
pub struct TypeTable {
    types: Vec<Ty>,
    keys: IndexSet<Key>,
    kept: Kept,
}

impl Model for TypeTable {
    ghost use Rattle.std.specs.Prelude.{List};
    ghost use Rattle.odc_types.specs.Nodes.{Node, nodes};
    ghost use Rattle.odc_types.specs.Measured.{IsTable};

    ghost Value = { List Node };

    ghost view = { λ t. nodes t.types.items };

    ghost invariant = { λ t. IsTable t.keys.keys (nodes t.types.items) t.kept.heights.items t.kept.extents.items t.kept.waiters.items };
}

impl TypeTable {
    /// A table without a type.
    pub fn new(alloc: Global) -> Result<TypeTable, AllocError>
        ensures { IfOk result (λ t. t ≡ []) }
    {
        Ok(TypeTable {
            types: Vec::new(alloc),
            keys: IndexSet::new(alloc),
            kept: Kept::new(alloc),
        })
    }

    /// The number of a type. A type that the table has keeps its number, and the table stays; another one is added.
    pub fn add(&mut self, t: Ty) -> Result<TyId, AllocError>
        requires { HasPartsBelow (length self.old) (node t) }
        ensures within { IfOk result (λ id. id.index < length self.new) }
        ensures identity { IfOk result (λ id. identity_of self.new id.index ≡ identity_of_node (identity_of self.old) (node t)) }
        ensures known { IfOk result (λ id. (u : ℕ) → u < length self.old → identity_of self.old u ≡ identity_of_node (identity_of self.old) (node t) → (id.index ≡ u) × (self.new ≡ self.old)) }
        ensures added { IfOk result (λ id. (id.index < length self.old × (self.new ≡ self.old)) ⊎ ((id.index ≡ length self.old) × (self.new ≡ self.old ++ node t ∷ []))) }
        ensures identities { (u : ℕ) → u < length self.old → identity_of self.new u ≡ identity_of self.old u }
        ensures layouts { (u : ℕ) → HasSize self.old u → layout_of self.new u ≡ layout_of self.old u }
        ensures err { OnErr result (self.new ≡ self.old) }
    {
        let key = key_of(*self.types.allocator(), &t)?;
        match self.find(&key) {
            Some(index) => numbered(index),
            None => self.append(key, t),
        }
    }

    /// Where the type with a key stands.
    fn find(&self, key: &Key) -> Option<usize>
        ensures some { IfSome result (λ i. (n : _) → IsKeyOf key.now n → IsAt self.now i n) }
        ensures none { IfNone result ((n : _) → IsKeyOf key.now n → IsFresh self.now n) }
    {
        found(&self.keys, key)
    }

    /// Adds a type that the table doesn't have.
    fn append(&mut self, key: Key, t: Ty) -> Result<TyId, AllocError>
        requires below { HasPartsBelow (length self.old) (node t) }
        requires key { IsKeyOf key (node t) }
        requires fresh { IsFresh self.old (node t) }
        ensures number { IfOk result (λ id. id.index ≡ length self.old) }
        ensures ok { OnOk result (self.new ≡ self.old ++ node t ∷ []) }
        ensures err { OnErr result (self.new ≡ self.old) }
    {
        let id = numbered(self.types.len())?;
        let height = height_of(self.kept.heights.as_slice(), &key);
        let found = measured(
            self.types.as_slice(),
            self.kept.extents.as_slice(),
            height,
            id,
            &t,
            0,
        );
        self.kept.push(id, height, found)?;
        if let Err(refused) = self.types.push(t) {
            self.kept.pop();
            return Err(AllocError::from(refused));
        }
        if let Err(refused) = put(&mut self.keys, key) {
            self.types.pop();
            self.kept.pop();
            return Err(refused);
        }
        Ok(id)
    }

    /// Gives a struct, union, enum or distinct type, which was added without its parts, these parts. `parts` is the
    /// same type with them.
    pub fn define(&mut self, t: TyId, parts: Ty) -> Result<(), AllocError>
        requires below { HasPartsBelow (length self.old) (node parts) }
        requires undefined { IsUndefined self.old (slice_get self.old t.index) (node parts) }
        ensures ok { OnOk result (self.new ≡ slice_set self.old t.index (node parts)) }
        ensures len { length self.new ≡ length self.old }
        ensures identities { (u : ℕ) → u < length self.old → identity_of self.new u ≡ identity_of self.old u }
        ensures layouts { (u : ℕ) → HasSize self.old u → layout_of self.new u ≡ layout_of self.old u }
        ensures err { OnErr result (self.new ≡ self.old) }
    {
        let at = t.index as usize;
        let before = mem::replace(&mut self.types[at], parts);
        if let Err(refused) = self.kept.settle(self.types.as_slice(), t) {
            self.kept.forget();
            self.types[at] = before;
            return Err(refused);
        }
        Ok(())
    }

    /// The number of types. No two of them are one.
    pub fn len(&self) -> usize
        ensures len { result ≡ length self.now }
        ensures once { (a b : ℕ) → a < length self.now → b < length self.now → identity_of self.now a ≡ identity_of self.now b → a ≡ b }
    {
        self.types.len()
    }

    /// Whether there is no type.
    pub fn is_empty(&self) -> bool
        ensures { result ≡ (length self.now == 0) }
    {
        self.types.is_empty()
    }

    /// The type of a number.
    pub fn get(&self, t: TyId) -> &Ty
        requires { t.index < length self.now }
        ensures node { slice_get self.now t.index ≡ Some (node result.now) }
        ensures parts { HasPartsBelow (length self.now) (node result.now) }
        ensures identity { identity_of self.now t.index ≡ identity_of_node (identity_of self.now) (node result.now) }
        ensures layout { layout_of self.now t.index ≡ layout_of_node self.now (layout_of self.now) (node result.now) }
    {
        &self.types[t.index as usize]
    }

    /// Size and alignment of a type that has a size and is within the limits; or the first of these that holds: it has
    /// no size, it is too deep, its size overflows 64 bits, it is too large.
    pub fn layout(&self, t: TyId) -> Result<SizeAlign, LayoutError>
        ensures { result ≡ within_limits (layout_of self.now t.index) }
    {
        limited(kept(self.kept.extents.as_slice(), t))
    }

    /// The size of a type in bytes, if it has one and this is below 2 to 64.
    pub fn checked_size(&self, t: TyId) -> Option<u64>
        ensures some { IfSome result (λ n. HasSize self.now t.index × (size_of self.now t.index ≡ n)) }
        ensures none { IfNone result (HasSize self.now t.index → 2 ^ 64 ≤ size_of self.now t.index) }
        // However deep the type is unfolded.
        ensures none_deeper { IfNone result ((k : ℕ) (l : _) → layout self.now k t.index ≡ Some l → 2 ^ 64 ≤ bytes_of l) }
    {
        match kept(self.kept.extents.as_slice(), t) {
            Some(extent) => extent.size,
            None => None,
        }
    }

    /// The size of a type in bytes.
    pub fn size(&self, t: TyId) -> u64
        requires sized { HasSize self.now t.index }
        requires below { size_of self.now t.index < 2 ^ 64 }
        ensures { result ≡ size_of self.now t.index }
    {
        match self.extent(t).size {
            Some(size) => size,
            None => unreachable!(),
        }
    }

    /// The alignment of a type in bytes.
    pub fn align(&self, t: TyId) -> u64
        requires sized { HasSize self.now t.index }
        requires below { size_of self.now t.index < 2 ^ 64 }
        ensures { result ≡ align_of self.now t.index }
    {
        self.extent(t).align
    }

    /// Where a field of a struct begins, in bytes from the struct's beginning; or a column of a fixed `#soa` container.
    pub fn offset(&self, t: TyId, field: u32) -> u64
        requires sized { HasSize self.now t.index }
        requires below { size_of self.now t.index < 2 ^ 64 }
        requires within { field < field_count self.now t.index }
        ensures { result ≡ offset_of self.now t.index field }
    {
        match field_offset(
            self.types.as_slice(),
            self.kept.extents.as_slice(),
            t,
            field as usize,
        ) {
            Some(offset) => offset,
            None => unreachable!(),
        }
    }

    /// Whether two types are one.
    pub fn same(&self, a: TyId, b: TyId) -> bool
        requires first { a.index < length self.now }
        requires second { b.index < length self.now }
        ensures identity { IsTrue result ↔ (identity_of self.now a.index ≡ identity_of self.now b.index) }
        ensures number { IsTrue result ↔ (a.index ≡ b.index) }
    {
        let _each_once = self.len();
        a.index == b.index
    }

    /// The types that one of `roots` is or holds, at any depth and also behind pointers: a mark for each type, by number.
    pub fn held(&self, alloc: Global, roots: &[TyId]) -> Result<Vec<bool>, AllocError>
        requires { All (λ t. t.index < length self.now) roots.now }
        ensures len { IfOk result (λ marks. length marks.items ≡ length self.now) }
        ensures held { IfOk result (λ marks. (u : TyId) → IsMarked marks.items u ↔ IsHeldBy self.now roots.now u) }
    {
        held(alloc, self.types.as_slice(), roots)
    }

    /// The extent of a type that has a size.
    fn extent(&self, t: TyId) -> Extent
        requires { HasSize self.now t.index }
        ensures { IsMeasured (Some result) (layout_of self.now t.index) }
    {
        match kept(self.kept.extents.as_slice(), t) {
            Some(extent) => extent,
            None => unreachable!(),
        }
    }
}
