//! The bytes of the two sections.

ghost use Rattle.std.specs.Prelude.{◌≡◌, ◌^◌, ◌<◌, ◌++◌, length, All, OnOk, IfOk};
ghost use Rattle.std.specs.List.{flat_map};
ghost use Rattle.rv_sites.specs.Numbers.{le32, le64};
ghost use Rattle.rv_sites.specs.Sections.{text_bytes, check_bytes, name_bytes, sites_bytes as bytes_of_sites, calls_bytes as bytes_of_calls, IsShortText, IsShortName, IsSiteOf, IsListing};
ghost use Rattle.rv_sites.specs.Listed.{listed};

use crate::sites::{ByteString, ProcedureName, Site, Sites};
use std::alloc::{AllocError, Global};

fn push_u32(out: &mut Vec<u8>, number: u32) -> Result<(), AllocError>
    ensures { OnOk result (out.new.items ≡ out.old.items ++ le32 number) }
{
    out.extend_from_slice(&number.to_le_bytes())
}

fn push_u64(out: &mut Vec<u8>, number: u64) -> Result<(), AllocError>
    ensures { OnOk result (out.new.items ≡ out.old.items ++ le64 number) }
{
    out.extend_from_slice(&number.to_le_bytes())
}

fn push_text(out: &mut Vec<u8>, text: &[u8]) -> Result<(), AllocError>
    requires { length text.now < 2 ^ 32 }
    ensures { OnOk result (out.new.items ≡ out.old.items ++ text_bytes text.now) }
{
    push_u32(out, text.len() as u32)?;
    out.extend_from_slice(text)
}

fn push_paths(out: &mut Vec<u8>, paths: &[ByteString]) -> Result<(), AllocError>
    requires few { length paths.now < 2 ^ 32 }
    requires short { All IsShortText paths.now }
    ensures { OnOk result (out.new.items ≡ out.old.items ++ (le32 (length paths.now) ++ flat_map text_bytes paths.now)) }
{
    push_u32(out, paths.len() as u32)?;
    for path in paths {
        push_text(out, path.as_bytes())?;
    }
    Ok(())
}

fn push_site(out: &mut Vec<u8>, site: &Site) -> Result<(), AllocError>
    ensures { OnOk result (out.new.items ≡ out.old.items ++ check_bytes site.now) }
{
    let (check, at) = *site;
    push_u32(out, at.file.number)?;
    push_u32(out, at.line)?;
    push_u32(out, at.column)?;
    push_u32(out, u32::from(check.number()))
}

fn push_checks(out: &mut Vec<u8>, checks: &[Site]) -> Result<(), AllocError>
    requires { length checks.now < 2 ^ 32 }
    ensures { OnOk result (out.new.items ≡ out.old.items ++ (le32 (length checks.now) ++ flat_map check_bytes checks.now)) }
{
    push_u32(out, checks.len() as u32)?;
    for site in checks {
        push_site(out, site)?;
    }
    Ok(())
}

fn push_name(out: &mut Vec<u8>, name: &ProcedureName) -> Result<(), AllocError>
    requires { IsShortName name.now }
    ensures { OnOk result (out.new.items ≡ out.old.items ++ name_bytes name.now) }
{
    push_u64(out, name.entry)?;
    push_text(out, name.name.as_bytes())
}

fn push_names(out: &mut Vec<u8>, names: &[ProcedureName]) -> Result<(), AllocError>
    requires few { length names.now < 2 ^ 32 }
    requires short { All IsShortName names.now }
    ensures { OnOk result (out.new.items ≡ out.old.items ++ (le32 (length names.now) ++ flat_map name_bytes names.now)) }
{
    push_u32(out, names.len() as u32)?;
    for name in names {
        push_name(out, name)?;
    }
    Ok(())
}

fn push_calls(out: &mut Vec<u8>, calls: &[u64]) -> Result<(), AllocError>
    requires { length calls.now < 2 ^ 32 }
    ensures { OnOk result (out.new.items ≡ out.old.items ++ (le32 (length calls.now) ++ flat_map le64 calls.now)) }
{
    push_u32(out, calls.len() as u32)?;
    for call in calls {
        push_u64(out, *call)?;
    }
    Ok(())
}

/// The bytes of `.odin.sites`. Fails only where memory is out.
pub fn sites_bytes(alloc: Global, s: &Sites) -> Result<Vec<u8>, AllocError>
    requires { IsListing (listed s.now) }
    ensures { IfOk result (λ out. out.items ≡ bytes_of_sites (listed s.now)) }
{
    let mut out = Vec::new(alloc);
    push_paths(&mut out, &s.paths)?;
    push_checks(&mut out, &s.checks)?;
    Ok(out)
}

/// The bytes of `.odin.calls`. Fails only where memory is out.
pub fn calls_bytes(alloc: Global, s: &Sites) -> Result<Vec<u8>, AllocError>
    requires { IsListing (listed s.now) }
    ensures { IfOk result (λ out. out.items ≡ bytes_of_calls (listed s.now)) }
{
    let mut out = Vec::new(alloc);
    push_names(&mut out, &s.names)?;
    push_calls(&mut out, &s.calls)?;
    Ok(out)
}
