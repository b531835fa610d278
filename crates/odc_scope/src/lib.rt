// Scopes that lie inside one another, each with its names and what they are bound to.
//
// It stands on nothing but the standard library. Names are numbers, as an interner gives them. The layer above sees
// a `Scopes` as the list of the open scopes, the innermost first, and each scope as a finite map from names to
// items, listed with the newest binding first. `find` costs one look-up in a hash table, however many scopes are
// open and however many names are bound.
#![tactic(auto)]

ghost use Rattle.std.specs.Prelude.{◌≡◌, ◌≢◌, ◌↔◌, [], ◌∷◌, OnOk, OnErr, IfErr, IsSome, nat_eq};
ghost use Rattle.std.specs.Option.{option_copied};
ghost use Rattle.std.specs.HashMap.{ContainsKey, Updates};
ghost use Rattle.odc_scope.specs.Scopes.{innermost_item, item_in, first_scope, with_binding};
ghost use Rattle.odc_scope.specs.Refusals.{IsTaken, item_of};
ghost use Rattle.odc_scope.specs.Stack.{is_inside};

use std::alloc::{AllocError, Global};
use std::collections::HashMap;
use std::marker::Model;

/// Why a name was not added. Either way the item comes back.
#[derive(Drop)]
pub enum AddError<I> {
    /// The innermost scope has the name already.
    Taken { item: I },
    /// There was no memory for one more binding.
    Memory { item: I },
}

/// What stands on the stack of openings and bindings.
#[derive(Drop)]
enum Entry<I> {
    /// Here a scope was opened. `outer` is the number of entries up to and with the opening of the scope around it, or 0.
    Opening {
        outer: usize,
    },
    /// Here a name was bound. `hidden` is the position of the binding of the same name that was found until then.
    Binding {
        name: u32,
        item: I,
        hidden: Option<usize>,
    },
}

/// The open scopes and their bindings.
#[derive(Drop)]
pub struct Scopes<I> {
    entries: Vec<Entry<I>>,
    // the position of the newest binding of each name
    latest: HashMap<u32, usize>,
    // the number of entries up to and with the newest opening, or 0
    innermost: usize,
}

impl<I> Model for Scopes<I> {
    ghost use Rattle.std.specs.Prelude.{ℕ, List, reverse, nat_eq};
    ghost use Rattle.std.specs.HashMap.{get};
    ghost use Rattle.odc_scope.specs.Stack.{scopes_of, IsSound};

    ghost Value = { List (List (ℕ × I)) };

    ghost view = { λ s. scopes_of (reverse s.entries.items) };

    ghost invariant = { λ s. IsSound (reverse s.entries.items) (λ n. get nat_eq s.latest n) s.innermost };
}

impl<I: Drop> Scopes<I> {
    /// No scope is open.
    pub fn new(alloc: Global) -> Scopes<I>
        ensures { result ≡ [] }
    {
        Scopes {
            entries: Vec::new(alloc),
            latest: HashMap::new(alloc),
            innermost: 0,
        }
    }

    /// Opens a scope, without any name, inside those that are open.
    pub fn enter(&mut self) -> Result<(), AllocError>
        ensures ok { OnOk result (self.new ≡ [] ∷ self.old) }
        ensures err { OnErr result (self.new ≡ self.old) }
    {
        let outer = self.innermost;
        self.entries.push(Entry::Opening { outer })?;
        self.innermost = self.entries.len();
        Ok(())
    }

    /// Closes the innermost scope and drops its bindings.
    pub fn leave(&mut self)
        requires { self.old ≢ [] }
        ensures { self.old ≡ first_scope self.old ∷ self.new }
    {
        while let Some(entry) = self.entries.pop() {
            match entry {
                Entry::Opening { outer } => {
                    self.innermost = outer;
                    return;
                }
                Entry::Binding { name, hidden, .. } => rebind(&mut self.latest, name, hidden),
            }
        }
    }

    /// Binds a name in the innermost scope.
    pub fn add(&mut self, name: u32, item: I) -> Result<(), AddError<I>>
        requires { self.old ≢ [] }
        ensures ok { OnOk result (self.new ≡ with_binding name item self.old) }
        ensures taken { IsTaken result ↔ IsSome (item_in name (first_scope self.old)) }
        ensures item { IfErr result (λ e. item_of e ≡ item) }
        ensures err { OnErr result (self.new ≡ self.old) }
    {
        let hidden = self.latest.get(&name).copied();
        if is_within(self.innermost, hidden) {
            return Err(AddError::Taken { item });
        }
        if self.entries.reserve(1).is_err() {
            return Err(AddError::Memory { item });
        }
        if self.latest.insert(name, self.entries.len()).is_err() {
            return Err(AddError::Memory { item });
        }
        match self.entries.push(Entry::Binding { name, item, hidden }) {
            Ok(()) => Ok(()),
            Err(_) => unreachable!(),
        }
    }

    /// What a name is bound to in the innermost scope that has it.
    pub fn find(&self, name: u32) -> Option<&I>
        ensures { option_copied result ≡ innermost_item name self.now }
    {
        match self.latest.get(&name) {
            Some(at) => match &self.entries[*at] {
                Entry::Binding { item, .. } => Some(item),
                Entry::Opening { .. } => unreachable!(),
            },
            None => None,
        }
    }
}

/// Whether a binding lies in the scope whose opening ends at `opened`.
fn is_within(opened: usize, binding: Option<usize>) -> bool
    ensures { result ≡ is_inside opened binding }
{
    match binding {
        Some(at) => opened <= at,
        None => false,
    }
}

/// Lets a name stand for the binding that was hidden, or for none.
fn rebind(latest: &mut HashMap<u32, usize>, name: u32, hidden: Option<usize>)
    requires { ContainsKey nat_eq latest.old name }
    ensures { Updates nat_eq latest.old latest.new name hidden }
{
    match hidden {
        Some(at) => match latest.insert(name, at) {
            Ok(_) => {}
            Err(_) => unreachable!(),
        },
        None => {
            latest.remove(&name);
        }
    }
}
