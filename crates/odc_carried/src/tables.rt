//! What the tables of a program hold: types, variables, and the procedures that a need names.

ghost use Rattle.std.specs.Prelude.{◌≡◌, ◌+◌, ◌++◌, map, IfOk, OnOk};
ghost use Rattle.odc_program.specs.Views.Instances.{instance, procedure, local, need as shown_need};
ghost use Rattle.odc_program.specs.Views.ProgramView.{same_numbers, same_ints, same_instance, position_from, positions};
ghost use Rattle.odc_carried.specs.Carried.{type_in};
ghost use Rattle.odc_carried.specs.Code.{variable_of, own_low, rounded as spec_rounded};
ghost use Rattle.odc_carried.specs.TableView.{typed};

use odc_core::tree::Variable;
use odc_program::program::{Inst, Local, Need, Procedure, TypeRow};
use odc_types::TyId;
use std::alloc::{AllocError, Global};

/// A number as a `u32`, where it is one.
pub fn narrow(number: u64) -> Result<u32, AllocError>
    ensures { IfOk result (λ n. n ≡ number) }
{
    match u32::try_from(number) {
        Ok(narrow) => Ok(narrow),
        Err(_) => Err(AllocError),
    }
}

/// A count as a `u32`, where it is one.
pub fn counted(count: usize) -> Result<u32, AllocError>
    ensures { IfOk result (λ n. n ≡ count) }
{
    match u32::try_from(count) {
        Ok(narrow) => Ok(narrow),
        Err(_) => Err(AllocError),
    }
}

/// The size of a type; 0 where there is none of this number.
fn size_of(types: &[TypeRow], t: TyId) -> u64
    ensures { result ≡ (type_in (typed types.now) t.index).size }
{
    match types.get(t.index as usize) {
        Some(row) => row.size,
        None => 0,
    }
}

/// Where a variable lies, and its size.
fn variable(types: &[TypeRow], l: Local) -> Result<Variable, AllocError>
    ensures { IfOk result (λ v. v ≡ variable_of (typed types.now) (local l)) }
{
    let offset = narrow(l.place)?;
    let size = narrow(size_of(types, l.ty))?;
    Ok(Variable { offset, size })
}

/// Appends where variables lie.
pub fn push_variables(
    types: &[TypeRow],
    locals: &[Local],
    all: &mut Vec<Variable>,
) -> Result<(), AllocError>
    ensures { OnOk result (all.new.items ≡ all.old.items ++ map (variable_of (typed types.now)) (map local locals.now)) }
{
    for l in locals {
        all.push(variable(types, *l)?)?;
    }
    Ok(())
}

/// Eight bytes behind the end of a variable.
fn end_of(v: Variable) -> Result<u32, AllocError>
    ensures { IfOk result (λ n. n ≡ v.offset + v.size + 8) }
{
    narrow(u64::from(v.offset) + u64::from(v.size) + 8)
}

/// The next multiple of eight.
fn rounded(number: u32) -> Result<u32, AllocError>
    ensures { IfOk result (λ n. n ≡ spec_rounded number) }
{
    narrow((u64::from(number) + 7) / 8 * 8)
}

/// Where the variables of the compiler's own begin: behind these, and not in the first 128 bytes.
pub fn own_begin(variables: &[Variable]) -> Result<u32, AllocError>
    ensures { IfOk result (λ n. n ≡ own_low variables.now) }
{
    let mut most: u32 = 128;
    let mut i = variables.len();
    while i > 0 {
        let end = end_of(variables[i - 1])?;
        most = end.max(most);
        i -= 1;
    }
    rounded(most)
}

/// Whether two lists of types are equal, number by number.
fn same_types(a: &[TyId], b: &[TyId]) -> bool
    ensures { result ≡ same_numbers (map (λ t. t.index) a.now) (map (λ t. t.index) b.now) }
{
    if a.len() != b.len() {
        return false;
    }
    for i in 0..a.len() {
        if a[i].index != b[i].index {
            return false;
        }
    }
    true
}

/// Whether two lists of numbers are equal.
fn same_values(a: &[i128], b: &[i128]) -> bool
    ensures { result ≡ same_ints a.now b.now }
{
    if a.len() != b.len() {
        return false;
    }
    for i in 0..a.len() {
        if a[i] != b[i] {
            return false;
        }
    }
    true
}

/// Whether two instances are equal.
fn same(a: &Inst, b: &Inst) -> bool
    ensures { result ≡ same_instance (instance a.now) (instance b.now) }
{
    a.proc.index == b.proc.index
        && same_types(&a.types, &b.types)
        && same_values(&a.numbers, &b.numbers)
}

/// The position of the first procedure that is an instance, and behind all where there is none.
pub fn position(procedures: &[Procedure], inst: &Inst) -> usize
    ensures { result ≡ position_from 0 (map procedure procedures.now) (instance inst.now) }
{
    for (i, p) in procedures.iter().enumerate() {
        if same(&p.inst, inst) {
            return i;
        }
    }
    procedures.len()
}

/// The positions of the procedures that a procedure needs.
pub fn needed(
    alloc: Global,
    procedures: &[Procedure],
    needs: &[Need],
) -> Result<Vec<u32>, AllocError>
    ensures { IfOk result (λ v. v.items ≡ positions (map procedure procedures.now) (map shown_need needs.now)) }
{
    let mut all = Vec::new(alloc);
    for need in needs {
        all.push(counted(position(procedures, &need.inst))?)?;
    }
    Ok(all)
}
