// The keys of a table's types, each once, in the order of the types.
ghost use Rattle.std.specs.Prelude.{◌≡◌, ℕ, [], ◌∷◌, ◌++◌, ◌<◌, Some, IfSome, IfNone, OnOk, OnErr, slice_get, length};
ghost use Rattle.odc_types.specs.Keys.{IsSameKey};
ghost use Rattle.odc_types.specs.declared.key.Key.{Key};

use crate::key::Key;
use indexmap::IndexSet;
use std::alloc::AllocError;

/// The index of a key.
pub(crate) fn found(keys: &IndexSet<Key>, key: &Key) -> Option<usize>
    ensures some { IfSome result (λ i. (k : Key) × (slice_get keys.now.keys i ≡ Some k) × IsSameKey k key.now) }
    ensures none { IfNone result ((i : ℕ) (k : Key) → slice_get keys.now.keys i ≡ Some k → IsSameKey k key.now → ⊥) }
    ensures within { IfSome result (λ i. i < length keys.now.keys) }
{
    keys.get_index_of(key)
}

/// Adds a key that isn't there.
pub(crate) fn put(keys: &mut IndexSet<Key>, key: Key) -> Result<(), AllocError>
    requires { (i : ℕ) (k : Key) → slice_get keys.old.keys i ≡ Some k → IsSameKey k key → ⊥ }
    ensures ok { OnOk result (keys.new.keys ≡ keys.old.keys ++ key ∷ []) }
    ensures err { OnErr result (keys.new.keys ≡ keys.old.keys) }
{
    keys.insert(key)?;
    Ok(())
}
