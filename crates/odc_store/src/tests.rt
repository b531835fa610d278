//! Each call once, with what it must give counted by hand.

use crate::bytes::{Address, BlockId, Bytes, SourceByte};
use crate::store::{Store, StoreError};
use std::alloc::AllocError;

fn at(block: BlockId, offset: u64) -> Address {
    Address { block, offset }
}

fn is_number(bytes: &Bytes, index: usize, value: u8) -> bool {
    index < bytes.len() && matches!(bytes.get(index), SourceByte::Number(n) if n == value)
}

fn is_address_piece(bytes: &Bytes, index: usize, offset: u64, piece: u8) -> bool {
    index < bytes.len()
        && matches!(bytes.get(index), SourceByte::AddressPiece(a, n) if a.offset == offset && n == piece)
}

fn is_procedure_piece(bytes: &Bytes, index: usize, procedure: u32, piece: u8) -> bool {
    index < bytes.len()
        && matches!(bytes.get(index), SourceByte::ProcedurePiece(p, n) if p == procedure && n == piece)
}

fn strays(loaded: &Result<Bytes, StoreError>) -> bool {
    matches!(loaded, Err(StoreError::Stray))
}

fn loaded(answer: Result<Bytes, StoreError>) -> Result<Bytes, AllocError> {
    match answer {
        Ok(bytes) => Ok(bytes),
        Err(_) => Err(AllocError),
    }
}

#[test]
fn a_block_begins_as_zeros_and_strays_behind_its_end(rt: HostRuntime) -> Result<(), AllocError> {
    let mut store = Store::new(rt.alloc());
    let block = store.open_block(8)?;
    let zeros = loaded(store.load(rt.alloc(), at(block, 4), 4))?;
    assert!(rt; zeros.len() == 4 && !zeros.is_empty());
    assert!(rt; is_number(&zeros, 0, 0) && is_number(&zeros, 3, 0));
    assert!(rt; strays(&store.load(rt.alloc(), at(block, 4), 5)));
    assert!(rt; strays(&store.load(rt.alloc(), at(block, u64::MAX), 2)));
    let none = loaded(store.load(rt.alloc(), at(block, 9), 0))?;
    assert!(rt; none.is_empty());
    Ok(())
}

#[test]
fn a_block_that_has_ended_strays_also_where_a_new_one_stands(
    rt: HostRuntime,
) -> Result<(), AllocError> {
    let mut store = Store::new(rt.alloc());
    let first = store.open_block(4)?;
    assert!(rt;
        store
            .keep(at(first, 0), &Bytes::zeros(rt.alloc(), 4)?)
            .is_ok()
    );
    store.close_block(first);
    store.close_block(first);
    assert!(rt; strays(&store.load(rt.alloc(), at(first, 0), 1)));
    let second = store.open_block(4)?;
    let third = store.open_block(4)?;
    assert!(rt; second.slot == first.slot && second.generation != first.generation);
    assert!(rt; third.slot != second.slot);
    assert!(rt; strays(&store.load(rt.alloc(), at(first, 0), 1)));
    assert!(rt;
        matches!(
            store.keep(at(first, 0), &Bytes::zeros(rt.alloc(), 1)?),
            Err(StoreError::Stray)
        )
    );
    assert!(rt; store.load(rt.alloc(), at(second, 0), 4).is_ok());
    Ok(())
}

#[test]
fn pieces_stay_pieces_in_any_part(rt: HostRuntime) -> Result<(), AllocError> {
    let mut store = Store::new(rt.alloc());
    let block = store.open_block(24)?;
    let address = Bytes::from_address(rt.alloc(), at(block, 5))?;
    assert!(rt; store.keep(at(block, 8), &address).is_ok());
    // the two zeros before it, and its first two pieces
    let seam = loaded(store.load(rt.alloc(), at(block, 6), 4))?;
    assert!(rt; is_number(&seam, 0, 0) && is_number(&seam, 1, 0));
    assert!(rt; is_address_piece(&seam, 2, 5, 0) && is_address_piece(&seam, 3, 5, 1));
    // a piece that is copied stays a piece
    assert!(rt; store.keep(at(block, 20), &seam).is_ok());
    let copied = loaded(store.load(rt.alloc(), at(block, 20), 4))?;
    assert!(rt; is_number(&copied, 1, 0) && is_address_piece(&copied, 2, 5, 0));
    // numbers in the place of its first three pieces
    let numbers = Bytes::from_numbers(rt.alloc(), Vec::from_array(rt.alloc(), [7, 8, 9])?);
    assert!(rt; store.keep(at(block, 8), &numbers).is_ok());
    let mixed = loaded(store.load(rt.alloc(), at(block, 7), 10))?;
    assert!(rt; is_number(&mixed, 0, 0) && is_number(&mixed, 1, 7) && is_number(&mixed, 3, 9));
    assert!(rt; is_address_piece(&mixed, 4, 5, 3) && is_address_piece(&mixed, 8, 5, 7));
    assert!(rt; is_number(&mixed, 9, 0));
    // ends inside the block, and one byte behind it
    assert!(rt; store.keep(at(block, 16), &address).is_ok());
    assert!(rt; matches!(store.keep(at(block, 17), &address), Err(StoreError::Stray)));
    Ok(())
}

#[test]
fn a_procedure_is_eight_pieces(rt: HostRuntime) -> Result<(), AllocError> {
    let mut bytes = Bytes::from_procedure(rt.alloc(), 3)?;
    assert!(rt; bytes.len() == 8);
    assert!(rt; is_procedure_piece(&bytes, 0, 3, 0) && is_procedure_piece(&bytes, 7, 3, 7));
    if bytes.len() == 8 {
        let zeros = Bytes::zeros(rt.alloc(), 2)?;
        if zeros.len() == 2 {
            bytes.patch(3, &zeros)?;
        }
    }
    assert!(rt; is_procedure_piece(&bytes, 2, 3, 2) && is_number(&bytes, 3, 0));
    assert!(rt; is_number(&bytes, 4, 0) && is_procedure_piece(&bytes, 5, 3, 5));
    if bytes.len() == 8 {
        let part = bytes.part(rt.alloc(), 4, 2)?;
        assert!(rt; is_number(&part, 0, 0) && is_procedure_piece(&part, 1, 3, 5));
    }
    Ok(())
}
