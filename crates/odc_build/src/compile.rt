//! From a typed program to the file of its executable.

ghost use Rattle.std.specs.Prelude.{◌≡◌, IfOk};
ghost use Rattle.odc_typed.specs.View.{program};
ghost use Rattle.odc_typed.specs.Well.{IsWell};
ghost use Rattle.odc_build.specs.Files.{CanList};
ghost use Rattle.odc_build.specs.Kept.{IsWithin, IsBuilt, IsMade};
ghost use Rattle.odc_build.specs.Linking.{IsImageOf};

use elf_file::write::write_elf;
use odc_context::context::pass_context;
use odc_lower::lower::lower;
use odc_text::path::PathText;
use odc_typed::tree::Program;
use rv_emit::image::emit;
use rv_link::link::{Store, link};
use rv_sites::image::Image;
use rv_sites::sites::ByteString;
use std::alloc::{AllocError, Global};

/// Copies of the bytes of paths.
fn bytes_of(alloc: Global, paths: &[PathText]) -> Result<Vec<ByteString>, AllocError>
    ensures { IfOk result (λ list. list.items ≡ paths.now) }
{
    let mut list = Vec::with_capacity(alloc, paths.len())?;
    for path in paths {
        list.push(ByteString::copied(alloc, path.as_str().as_bytes())?)?;
    }
    Ok(list)
}

/// The image of a program, through core code, mid code and blocks.
fn image(alloc: Global, p: &Program) -> Result<Image, AllocError>
    requires well { IsWell (program p.now) }
    requires within { IsWithin (program p.now) }
    requires lists { CanList (program p.now) p.now.paths.items }
    ensures { IfOk result (IsImageOf (program p.now) p.now.paths.items) }
{
    let core = pass_context(alloc, p)?;
    let mid = lower(alloc, &core)?;
    let blocks = emit(alloc, &mid)?;
    let paths = bytes_of(alloc, &p.paths)?;
    let store = Store {
        bytes: mid.store,
        size: mid.store_size,
    };
    Ok(link(alloc, &blocks, paths, store)?)
}

/// The bytes of the ELF-64 file of a program. They denote an image whose run on the machine keeps the source run
/// on every input of bytes, and follows it: addresses of the source are read by their places, procedures by their
/// first instructions. The image lists the program's paths and procedures, each in the program's order. Fails only
/// where memory is out.
pub fn compile(alloc: Global, p: &Program) -> Result<Vec<u8>, AllocError>
    requires well { IsWell (program p.now) }
    requires within { IsWithin (program p.now) }
    requires lists { CanList (program p.now) p.now.paths.items }
    ensures built { IfOk result (λ bytes. IsBuilt (program p.now) p.now.paths.items bytes.items) }
    ensures made { IfOk result (λ bytes. IsMade (program p.now) bytes.items) }
{
    let image = image(alloc, p)?;
    Ok(write_elf(alloc, &image)?)
}
