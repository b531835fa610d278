// What a table keeps beside its types, and how a type that gets its parts tells of the types that wait for it.
ghost use Rattle.std.specs.Prelude.{List, Option, ◌≡◌, ◌≢◌, ℕ, ◌<◌, ◌≤◌, ◌⊎◌, ◌+◌, [], ◌∷◌, ◌++◌, Some, None, IfOk, IfErr, OnOk, OnErr, length, slice_get, get_or};
ghost use Rattle.odc_types.specs.Nodes.{Node, node, nodes};
ghost use Rattle.odc_types.specs.Identity.{identity_of, all_of, counted};
ghost use Rattle.odc_types.specs.Keys.{IsKeyOf};
ghost use Rattle.odc_types.specs.Parts.{HasPartsBelow};
ghost use Rattle.odc_types.specs.Heights.{AreHeights, clipped, highest as highest_of, height_of_node};
ghost use Rattle.odc_types.specs.Clipped.{kept_at};
ghost use Rattle.odc_types.specs.Measured.{IsSound, IsFounded, IsAnswered, Waits, AreLonger, IsTold, AreTold, IsSpreading, IsEntered, extent_in, waiters_at, gaps};
ghost use Rattle.odc_types.specs.Below.{AreBelow};
ghost use Rattle.odc_types.specs.declared.extent.Extent.{Extent};
ghost use Rattle.odc_types.specs.declared.waiter.Waiters.{Waiters};

use crate::extent::Extent;
use crate::key::{Key, Kind};
use crate::measure::{Missing, deeper, kept, measured, type_at};
use crate::ty::{Ty, TyId};
use crate::waiter::{Waiter, Waiters};
use std::alloc::{AllocError, Global};

/// How high the type of a number is.
fn height_at(heights: &[u8], t: TyId) -> u8
    ensures { result ≡ get_or heights.now t.index 0 }
{
    match heights.get(t.index as usize) {
        Some(height) => *height,
        None => 0,
    }
}

/// How high the highest of these types is.
fn highest(heights: &[u8], types: &[TyId]) -> u8
    ensures { (table : List Node) → AreHeights table heights.now → AreBelow (length table) types.now → result ≡ clipped (highest_of (all_of (identity_of table) types.now)) }
{
    let mut most = 0;
    for t in types {
        most = most.max(height_at(heights, *t));
    }
    most
}

/// How high a type is over the heights of its parts. Behind a pointer, a named type counts one.
pub(crate) fn height_of(heights: &[u8], key: &Key) -> u8
    ensures { (table : List Node) (n : Node) → AreHeights table heights.now → HasPartsBelow (length table) n → IsKeyOf key.now n → result ≡ clipped (height_of_node table n) }
{
    match key.kind {
        Kind::Named => 1,
        _ => deeper(highest(heights, key.parts.as_slice())),
    }
}

/// How many types wait for `part`.
fn count(waiters: &[Waiters], part: TyId) -> usize
    ensures { result ≡ length (waiters_at waiters.now part.index) }
{
    match waiters.get(part.index as usize) {
        Some(waiters) => waiters.list.len(),
        None => 0,
    }
}

/// The `at`-th of those that wait for `part`.
fn waiter_at(waiters: &[Waiters], part: TyId, at: usize) -> Option<Waiter>
    ensures { result ≡ slice_get (waiters_at waiters.now part.index) at }
{
    match waiters.get(part.index as usize) {
        Some(waiters) => waiters.list.get(at).copied(),
        None => None,
    }
}

/// Drops the extent of a type.
fn drop_extent(extents: &mut Vec<Option<Extent>>, t: TyId)
    ensures same { length extents.new.items ≡ length extents.old.items }
    ensures others { (u : ℕ) → u ≢ t.index → kept_at extents.new.items u ≡ kept_at extents.old.items u }
    ensures gone { kept_at extents.new.items t.index ≡ None }
{
    let at = t.index as usize;
    if at < extents.len() {
        extents[at] = None;
    }
}

/// What a table keeps beside its types: how high each is, its extent where it has one, the types that wait for it, and
/// the types whose extents were found last.
#[derive(Drop)]
pub(crate) struct Kept {
    pub(crate) heights: Vec<u8>,
    pub(crate) extents: Vec<Option<Extent>>,
    pub(crate) waiters: Vec<Waiters>,
    pub(crate) fresh: Vec<TyId>,
}

impl Kept {
    /// Nothing, as a table without types keeps it.
    pub(crate) fn new(alloc: Global) -> Kept
        ensures heights { result.heights.items ≡ [] }
        ensures extents { result.extents.items ≡ [] }
        ensures waiters { result.waiters.items ≡ [] }
    {
        Kept {
            heights: Vec::new(alloc),
            extents: Vec::new(alloc),
            waiters: Vec::new(alloc),
            fresh: Vec::new(alloc),
        }
    }

    /// Puts a type on the list of those that wait for `part`.
    fn wait(&mut self, part: TyId, waiter: Waiter) -> Result<(), AllocError>
        requires { part.index < length self.old.waiters.items }
        ensures heights { self.new.heights ≡ self.old.heights }
        ensures extents { self.new.extents ≡ self.old.extents }
        ensures fresh { self.new.fresh ≡ self.old.fresh }
        ensures len { length self.new.waiters.items ≡ length self.old.waiters.items }
        ensures longer { AreLonger self.old.waiters.items self.new.waiters.items }
        ensures ok { OnOk result (Waits self.new.waiters.items part.index waiter.ty.index) }
    {
        self.waiters[part.index as usize].list.push(waiter)?;
        Ok(())
    }

    /// The list of those that wait for a new type: none, or the type itself where its own parts are missing. A type that
    /// misses another one is put on that one's list.
    fn list(
        &mut self,
        alloc: Global,
        t: TyId,
        found: Result<Extent, Missing>,
    ) -> Result<Vec<Waiter>, AllocError>
        requires within { IfErr found (λ m. m.part.index ≤ length self.old.waiters.items) }
        requires number { t.index ≡ length self.old.waiters.items }
        ensures heights { self.new.heights ≡ self.old.heights }
        ensures extents { self.new.extents ≡ self.old.extents }
        ensures len { length self.new.waiters.items ≡ length self.old.waiters.items }
        ensures longer { AreLonger self.old.waiters.items self.new.waiters.items }
        ensures ok { IfOk result (λ list. IfErr found (λ m. IsEntered self.new.waiters.items list.items m.part.index t.index)) }
    {
        let Err(missing) = found else {
            return Ok(Vec::new(alloc));
        };
        let waiter = Waiter {
            ty: t,
            known: missing.known,
        };
        if missing.part == t {
            return Ok(vec![in alloc; waiter]?);
        }
        self.wait(missing.part, waiter)?;
        Ok(Vec::new(alloc))
    }

    /// Keeps what was found of a new type.
    pub(crate) fn push(
        &mut self,
        t: TyId,
        height: u8,
        found: Result<Extent, Missing>,
    ) -> Result<(), AllocError>
        requires within { IfErr found (λ m. m.part.index ≤ length self.old.waiters.items) }
        requires number { t.index ≡ length self.old.waiters.items }
        ensures heights { OnOk result (self.new.heights.items ≡ self.old.heights.items ++ height ∷ []) }
        ensures extents { OnOk result (self.new.extents.items ≡ self.old.extents.items ++ extent_in found ∷ []) }
        ensures len { OnOk result (length self.new.waiters.items ≡ length self.old.waiters.items + 1) }
        ensures waits { OnOk result (IfErr found (λ m. Waits self.new.waiters.items m.part.index t.index)) }
        ensures longer { AreLonger self.old.waiters.items self.new.waiters.items }
        ensures err { OnErr result ((self.new.heights.items ≡ self.old.heights.items) × (self.new.extents.items ≡ self.old.extents.items) × (length self.new.waiters.items ≡ length self.old.waiters.items)) }
    {
        let alloc = *self.heights.allocator();
        let list = self.list(alloc, t, found)?;
        self.heights.push(height)?;
        if let Err(refused) = self.extents.push(found.ok()) {
            self.heights.pop();
            return Err(AllocError::from(refused));
        }
        if let Err(refused) = self.waiters.push(Waiters { list }) {
            self.extents.pop();
            self.heights.pop();
            return Err(AllocError::from(refused));
        }
        Ok(())
    }

    /// Takes off what was kept of the last type.
    pub(crate) fn pop(&mut self)
        ensures heights { (xs : List ℕ) (x : ℕ) → self.old.heights.items ≡ xs ++ x ∷ [] → self.new.heights.items ≡ xs }
        ensures extents { (xs : List (Option Extent)) (x : Option Extent) → self.old.extents.items ≡ xs ++ x ∷ [] → self.new.extents.items ≡ xs }
        ensures waiters { (xs : List Waiters) → AreLonger xs self.old.waiters.items → length self.old.waiters.items ≡ length xs + 1 → AreLonger xs self.new.waiters.items × (length self.new.waiters.items ≡ length xs) }
    {
        self.heights.pop();
        self.extents.pop();
        self.waiters.pop();
    }

    /// Measures a type on the list of `event`, unless its extent is kept: it is on `fresh` then, or waits for a part that is
    /// missing.
    fn attempt(&mut self, types: &[Ty], waiter: Waiter, event: TyId) -> Result<(), AllocError>
        requires founded { IsFounded (nodes types.now) self.old.heights.items }
        requires same { length self.old.extents.items ≡ length types.now }
        requires lists { length self.old.waiters.items ≡ length types.now }
        requires sound { IsSound (nodes types.now) self.old.extents.items }
        ensures heights { self.new.heights ≡ self.old.heights }
        ensures told { IsTold self.old.extents.items self.new.extents.items self.old.fresh.items self.new.fresh.items waiter.ty }
        ensures sound { IsSound (nodes types.now) self.new.extents.items }
        ensures len { length self.new.waiters.items ≡ length self.old.waiters.items }
        ensures longer { AreLonger self.old.waiters.items self.new.waiters.items }
        ensures ok { OnOk result ((n : Node) → slice_get (nodes types.now) waiter.ty.index ≡ Some n → kept_at self.new.extents.items waiter.ty.index ≡ None → IsAnswered (nodes types.now) self.new.extents.items self.new.waiters.items event.index waiter.ty.index n) }
    {
        let t = waiter.ty;
        if kept(self.extents.as_slice(), t).is_some() {
            return Ok(());
        }
        let Some(ty) = type_at(types, t) else {
            return Ok(());
        };
        let height = height_at(self.heights.as_slice(), t);
        let found = measured(types, self.extents.as_slice(), height, t, ty, waiter.known);
        match found {
            Ok(extent) => {
                self.fresh.push(t)?;
                self.extents[t.index as usize] = Some(extent);
                Ok(())
            }
            Err(missing) => {
                if missing.part == event {
                    return Ok(());
                }
                let waiter = Waiter {
                    ty: t,
                    known: missing.known,
                };
                self.wait(missing.part, waiter)
            }
        }
    }

    /// Measures those that wait for `part`, from the `from`-th up to the `to`-th.
    fn wake(&mut self, types: &[Ty], part: TyId, from: usize, to: usize) -> Result<(), AllocError>
        requires founded { IsFounded (nodes types.now) self.old.heights.items }
        requires same { length self.old.extents.items ≡ length types.now }
        requires lists { length self.old.waiters.items ≡ length types.now }
        requires sound { IsSound (nodes types.now) self.old.extents.items }
        requires order { from ≤ to }
        ensures heights { self.new.heights ≡ self.old.heights }
        ensures same { length self.new.extents.items ≡ length self.old.extents.items }
        ensures count { gaps self.new.extents.items + length self.new.fresh.items ≡ gaps self.old.extents.items + length self.old.fresh.items }
        ensures told { (begun : List (Option Extent)) → AreTold begun self.old.extents.items self.old.fresh.items → AreTold begun self.new.extents.items self.new.fresh.items }
        ensures sound { IsSound (nodes types.now) self.new.extents.items }
        ensures len { length self.new.waiters.items ≡ length self.old.waiters.items }
        ensures longer { AreLonger self.old.waiters.items self.new.waiters.items }
        ensures ok { OnOk result ((begun : List (Option Extent)) (done last : ℕ) → IsSpreading (nodes types.now) begun self.old.extents.items self.old.waiters.items self.old.fresh.items done part.index from last → IsSpreading (nodes types.now) begun self.new.extents.items self.new.waiters.items self.new.fresh.items done part.index to last) }
    {
        for at in from..to {
            if let Some(waiter) = waiter_at(self.waiters.as_slice(), part, at) {
                self.attempt(types, waiter, part)?;
            }
        }
        Ok(())
    }

    /// Measures those that wait for `part`, from the `from`-th up to the `to`-th, unless the extent of `part` was found: then
    /// they are told of that.
    fn wake_others(
        &mut self,
        types: &[Ty],
        part: TyId,
        from: usize,
        to: usize,
    ) -> Result<(), AllocError>
        requires founded { IsFounded (nodes types.now) self.old.heights.items }
        requires same { length self.old.extents.items ≡ length types.now }
        requires lists { length self.old.waiters.items ≡ length types.now }
        requires sound { IsSound (nodes types.now) self.old.extents.items }
        requires order { from ≤ to }
        ensures heights { self.new.heights ≡ self.old.heights }
        ensures same { length self.new.extents.items ≡ length self.old.extents.items }
        ensures told { (begun : List (Option Extent)) → AreTold begun self.old.extents.items self.old.fresh.items → AreTold begun self.new.extents.items self.new.fresh.items }
        ensures sound { IsSound (nodes types.now) self.new.extents.items }
        ensures len { length self.new.waiters.items ≡ length self.old.waiters.items }
        ensures longer { AreLonger self.old.waiters.items self.new.waiters.items }
        ensures ok { OnOk result ((begun : List (Option Extent)) → kept_at begun part.index ≡ None → IsSpreading (nodes types.now) begun self.old.extents.items self.old.waiters.items self.old.fresh.items 0 part.index from to → IsSpreading (nodes types.now) begun self.new.extents.items self.new.waiters.items self.new.fresh.items 0 0 0 0) }
    {
        if kept(self.extents.as_slice(), part).is_some() {
            return Ok(());
        }
        self.wake(types, part, from, to)
    }

    /// Measures all that wait for a type whose extent was found, and all that wait for those in turn.
    fn spread(&mut self, types: &[Ty]) -> Result<(), AllocError>
        requires founded { IsFounded (nodes types.now) self.old.heights.items }
        requires same { length self.old.extents.items ≡ length types.now }
        requires lists { length self.old.waiters.items ≡ length types.now }
        requires sound { IsSound (nodes types.now) self.old.extents.items }
        ensures heights { self.new.heights ≡ self.old.heights }
        ensures told { (begun : List (Option Extent)) → AreTold begun self.old.extents.items self.old.fresh.items → AreTold begun self.new.extents.items self.new.fresh.items }
        ensures len { length self.new.waiters.items ≡ length self.old.waiters.items }
        ensures longer { AreLonger self.old.waiters.items self.new.waiters.items }
        ensures ok { OnOk result ((begun : List (Option Extent)) → IsSpreading (nodes types.now) begun self.old.extents.items self.old.waiters.items self.old.fresh.items 0 0 0 0 → IsSpreading (nodes types.now) begun self.new.extents.items self.new.waiters.items self.new.fresh.items (length self.new.fresh.items) 0 0 0) }
    {
        let mut done = 0;
        while done < self.fresh.len() {
            let part = self.fresh[done];
            let last = count(self.waiters.as_slice(), part);
            self.wake(types, part, 0, last)?;
            done += 1;
        }
        Ok(())
    }

    /// Measures a type that got its parts, and all that waited for it and for what is known thereby.
    pub(crate) fn settle(&mut self, types: &[Ty], t: TyId) -> Result<(), AllocError>
        requires founded { IsFounded (nodes types.now) self.old.heights.items }
        requires same { length self.old.extents.items ≡ length types.now }
        requires lists { length self.old.waiters.items ≡ length types.now }
        requires sound { IsSound (nodes types.now) self.old.extents.items }
        requires none { kept_at self.old.extents.items t.index ≡ None }
        ensures heights { self.new.heights ≡ self.old.heights }
        ensures told { AreTold self.old.extents.items self.new.extents.items self.new.fresh.items }
        ensures len { length self.new.waiters.items ≡ length self.old.waiters.items }
        ensures longer { AreLonger self.old.waiters.items self.new.waiters.items }
        ensures ok { OnOk result (IsSpreading (nodes types.now) self.old.extents.items self.old.extents.items self.old.waiters.items [] 0 t.index 0 (length (waiters_at self.old.waiters.items t.index)) → IsSpreading (nodes types.now) self.old.extents.items self.new.extents.items self.new.waiters.items self.new.fresh.items (length self.new.fresh.items) 0 0 0) }
    {
        self.fresh.clear();
        let last = count(self.waiters.as_slice(), t);
        let first = last.min(1);
        self.wake(types, t, 0, first)?;
        self.wake_others(types, t, first, last)?;
        self.spread(types)
    }

    /// Drops the extents that were found last.
    pub(crate) fn forget(&mut self)
        ensures heights { self.new.heights ≡ self.old.heights }
        ensures waiters { self.new.waiters ≡ self.old.waiters }
        ensures same { length self.new.extents.items ≡ length self.old.extents.items }
        ensures kept { (begun : List (Option Extent)) → AreTold begun self.old.extents.items self.old.fresh.items → (u : ℕ) → kept_at self.new.extents.items u ≡ kept_at begun u }
    {
        for at in 0..self.fresh.len() {
            let t = self.fresh[at];
            drop_extent(&mut self.extents, t);
        }
    }
}
