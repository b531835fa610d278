use crate::ty::TyId;

/// A type that waits for another, and how many of its parts by value are known to have extents.
#[derive(Clone, Copy)]
pub(crate) struct Waiter {
    pub(crate) ty: TyId,
    pub(crate) known: usize,
}

/// The types that wait for one.
#[derive(Drop)]
pub(crate) struct Waiters {
    pub(crate) list: Vec<Waiter>,
}
