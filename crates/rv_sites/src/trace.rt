//! The line that tells a call of an allocator.

ghost use Rattle.std.specs.Prelude.{◌≡◌, ◌++◌, IfOk, OnOk, string_bytes};
ghost use Rattle.rv_sites.specs.Trace.{procedure_text, mode_text as text_of_mode, request_text, old_text, old_size_text, trace_text, call_of};

use crate::sites::{ProcedureName, Sites};
use odc_text::outcome::CallEvent;
use std::alloc::{AllocError, Global};

/// Appends the name of the procedure at an address, or the address where no procedure is listed there.
fn push_procedure(
    line: &mut Vec<u8>,
    alloc: Global,
    names: &[ProcedureName],
    address: u64,
) -> Result<(), AllocError>
    ensures { OnOk result (line.new.items ≡ line.old.items ++ procedure_text names.now address) }
{
    for name in names {
        if name.entry == address {
            return line.extend_from_slice(name.name.as_bytes());
        }
    }
    line.extend_from_slice(format!(in alloc; "0x{address:x}")?.as_bytes())
}

/// The name of a mode of allocator calls, or its number.
fn mode_name(alloc: Global, mode: i64) -> Result<String, AllocError>
    ensures { IfOk result (λ text. string_bytes text ≡ text_of_mode mode) }
{
    match mode {
        0 => String::from_str(alloc, "Alloc"),
        1 => String::from_str(alloc, "Free"),
        2 => String::from_str(alloc, "Free_All"),
        3 => String::from_str(alloc, "Resize"),
        4 => String::from_str(alloc, "Query_Features"),
        5 => String::from_str(alloc, "Query_Info"),
        _ => format!(in alloc; "{mode}"),
    }
}

/// What a call asks for, as the line tells it.
fn request(alloc: Global, e: &CallEvent) -> Result<String, AllocError>
    ensures { IfOk result (λ text. string_bytes text ≡ request_text (call_of e.now)) }
{
    let mode_text = mode_name(alloc, e.mode)?;
    let mode = mode_text.as_str();
    let given = e.given;
    let size = e.size;
    let align = e.align;
    format!(in alloc; " data=0x{given:x} {mode} size={size} align={align}")
}

/// The address of the old memory, as the line tells it.
fn old_address(alloc: Global, address: u64) -> Result<String, AllocError>
    ensures { IfOk result (λ text. string_bytes text ≡ old_text address) }
{
    format!(in alloc; " old=0x{address:x}")
}

/// The size of the old memory, as the line tells it.
fn old_size(alloc: Global, size: i64) -> Result<String, AllocError>
    ensures { IfOk result (λ text. string_bytes text ≡ old_size_text size) }
{
    format!(in alloc; " old_size={size}")
}

/// The line of a call, with its newline. Fails only where memory is out.
pub fn trace_line(alloc: Global, e: &CallEvent, s: &Sites) -> Result<Vec<u8>, AllocError>
    ensures { IfOk result (λ line. line.items ≡ trace_text s.now.names.items (call_of e.now)) }
{
    let asked = request(alloc, e)?;
    let old = old_address(alloc, e.old)?;
    let size = old_size(alloc, e.old_size)?;
    let mut line = Vec::from_slice(alloc, b"alloc ")?;
    push_procedure(&mut line, alloc, &s.names, e.procedure)?;
    line.extend_from_slice(asked.as_bytes())?;
    line.extend_from_slice(old.as_bytes())?;
    line.extend_from_slice(size.as_bytes())?;
    line.push(b'\n')?;
    Ok(line)
}
