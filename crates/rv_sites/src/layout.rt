//! The memory map of an executable: where each part begins, and how large it may be. Definitions cite
//! `specs/Layout.antt`, which has the same numbers.

/// The first address of the text.
pub const TEXT_START: u64 = 0x1_0000;

/// The first address of the store of globals and literals.
pub const STORE_START: u64 = 0x5000_0000;

/// The most bytes of the store.
pub const STORE_MOST: u64 = 0x1000_0000;

/// The first address of the heap's region.
pub const HEAP_START: u64 = 0x6000_0000;

/// The number of bytes of the heap's region.
pub const HEAP_SIZE: u64 = 0x100_0000;

/// The first address of the region of temporaries.
pub const TEMP_START: u64 = 0x6800_0000;

/// The number of bytes of the region of temporaries.
pub const TEMP_SIZE: u64 = 0x10_0000;

/// The lowest address of the stack.
pub const STACK_START: u64 = 0x7800_0000;

/// The number of bytes of the stack.
pub const STACK_SIZE: u64 = 0x800_0000;
