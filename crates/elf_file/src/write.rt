//! The file of an image.

ghost use Rattle.std.specs.Prelude.{◌≡◌, ◌+◌, ◌≤◌, ◌<◌, ◌^◌, ◌++◌, length, None, IfOk, OnOk};
ghost use Rattle.std.specs.List.{flat_map};
ghost use Rattle.rv_sites.specs.Numbers.{le16, le32, le64};
ghost use Rattle.rv_sites.specs.Sections.{IsListing, sites_bytes as bytes_of_sites, calls_bytes as bytes_of_calls};
ghost use Rattle.rv_sites.specs.Listed.{listed};
ghost use Rattle.elf_file.specs.Rules.{Denotes, refused};
ghost use Rattle.elf_file.specs.Written as written;
ghost use Rattle.elf_file.specs.Written.{CanWrite, image_of};

use rv_sites::image::Image;
use rv_sites::layout::{
    HEAP_SIZE, HEAP_START, STACK_SIZE, STACK_START, STORE_START, TEMP_SIZE, TEMP_START, TEXT_START,
};
use rv_sites::section::write::{calls_bytes, sites_bytes};
use std::alloc::{AllocError, Global};

/// The flags of a range that may be read and executed.
const READ_EXECUTE: u32 = 5;

/// The flags of a range that may be read and written.
const READ_WRITE: u32 = 6;

/// A range that is loaded begins at a multiple of this number in the file and in memory.
const PAGE: usize = 4096;

/// The names of the sections, each with its ending zero.
const NAMES: [u8; 35] = *b"\0.odin.sites\0.odin.calls\0.shstrtab\0";

fn push_halves(out: &mut Vec<u8>, numbers: &[u16]) -> Result<(), AllocError>
    ensures { OnOk result (out.new.items ≡ out.old.items ++ flat_map le16 numbers.now) }
{
    for number in numbers {
        out.extend_from_slice(&number.to_le_bytes())?;
    }
    Ok(())
}

fn push_words(out: &mut Vec<u8>, numbers: &[u32]) -> Result<(), AllocError>
    ensures { OnOk result (out.new.items ≡ out.old.items ++ flat_map le32 numbers.now) }
{
    for number in numbers {
        out.extend_from_slice(&number.to_le_bytes())?;
    }
    Ok(())
}

fn push_longs(out: &mut Vec<u8>, numbers: &[u64]) -> Result<(), AllocError>
    ensures { OnOk result (out.new.items ≡ out.old.items ++ flat_map le64 numbers.now) }
{
    for number in numbers {
        out.extend_from_slice(&number.to_le_bytes())?;
    }
    Ok(())
}

/// The first multiple of a number from another one on.
fn up_to(unit: usize, number: usize) -> usize
    requires some { 0 < unit }
    requires fits { number + unit < 2 ^ 64 }
    ensures { result ≡ written.up_to unit number }
{
    (number + (unit - 1)) / unit * unit
}

/// Appends zeros up to the next multiple of a number.
#[tactic(auto, unfolding(crate::specs::Written::padded))]
fn pad(out: &mut Vec<u8>, unit: usize) -> Result<(), AllocError>
    requires some { 0 < unit }
    requires few { unit ≤ 4096 }
    ensures { OnOk result (out.new.items ≡ written.padded unit out.old.items) }
{
    let end = up_to(unit, out.len());
    out.resize(end, 0)
}

/// Appends the header of the file.
fn push_header(out: &mut Vec<u8>, entry: u64, sections: u64) -> Result<(), AllocError>
    ensures { OnOk result (out.new.items ≡ out.old.items ++ written.header entry sections) }
{
    out.extend_from_slice(b"\x7fELF\x02\x01\x01\0\0\0\0\0\0\0\0\0")?;
    push_halves(out, &[2, 243])?;
    push_words(out, &[1])?;
    push_longs(out, &[entry, 64, sections])?;
    push_words(out, &[0])?;
    push_halves(out, &[64, 56, 5, 64, 4, 3])
}

/// A range of memory that is loaded: its flags, where its bytes begin in the file, its first address, how many
/// bytes there are in the file, and how many in memory.
#[derive(Clone, Copy)]
struct Segment {
    flags: u32,
    offset: u64,
    address: u64,
    given: u64,
    size: u64,
}

fn push_program_header(out: &mut Vec<u8>, s: Segment) -> Result<(), AllocError>
    ensures { OnOk result (out.new.items ≡ out.old.items ++ written.program_header s.flags s.offset s.address s.given s.size) }
{
    push_words(out, &[1, s.flags])?;
    push_longs(
        out,
        &[s.offset, s.address, s.address, s.given, s.size, 4096],
    )
}

/// Appends the header of memory that begins with zeros alone.
fn push_empty(out: &mut Vec<u8>, offset: u64, address: u64, size: u64) -> Result<(), AllocError>
    ensures { OnOk result (out.new.items ≡ out.old.items ++ written.program_header 6 offset address 0 size) }
{
    let memory = Segment {
        flags: READ_WRITE,
        offset,
        address,
        given: 0,
        size,
    };
    push_program_header(out, memory)
}

/// Appends the headers of the five ranges; the bytes of the store begin at this offset.
fn push_program_headers(out: &mut Vec<u8>, i: &Image, store: u64) -> Result<(), AllocError>
    requires store { store ≡ written.store_offset i.now }
    ensures { OnOk result (out.new.items ≡ out.old.items ++ written.program_headers i.now) }
{
    let size = i.text.len() as u64;
    let text = Segment {
        flags: READ_EXECUTE,
        offset: PAGE as u64,
        address: TEXT_START,
        given: size,
        size,
    };
    let data = Segment {
        flags: READ_WRITE,
        offset: store,
        address: STORE_START,
        given: i.store.len() as u64,
        size: i.store_size,
    };
    push_program_header(out, text)?;
    push_program_header(out, data)?;
    push_empty(out, store, HEAP_START, HEAP_SIZE)?;
    push_empty(out, store, TEMP_START, TEMP_SIZE)?;
    push_empty(out, store, STACK_START, STACK_SIZE)
}

/// Appends the text and the store, each at the next page.
fn push_parts(out: &mut Vec<u8>, i: &Image) -> Result<(), AllocError>
    ensures { OnOk result (out.new.items ≡ written.parts_behind out.old.items i.now.text.items i.now.store.items) }
{
    pad(out, PAGE)?;
    out.extend_from_slice(&i.text)?;
    pad(out, PAGE)?;
    out.extend_from_slice(&i.store)?;
    pad(out, 8)
}

/// The sections, one behind the other, and where the second and the third begin.
#[derive(Drop)]
struct Sections {
    bytes: Vec<u8>,
    sites_size: usize,
    calls: usize,
    calls_size: usize,
    names: usize,
}

/// The sections of an image.
fn sections_of(alloc: Global, i: &Image) -> Result<Sections, AllocError>
    requires { IsListing (listed i.now.sites) }
    ensures bytes { IfOk result (λ s. s.bytes.items ≡ written.sections i.now) }
    ensures sites { IfOk result (λ s. s.sites_size ≡ length (bytes_of_sites (listed i.now.sites))) }
    ensures calls { IfOk result (λ s. s.calls ≡ length (written.sites_front i.now)) }
    ensures calls_size { IfOk result (λ s. s.calls_size ≡ length (bytes_of_calls (listed i.now.sites))) }
    ensures names { IfOk result (λ s. s.names ≡ length (written.calls_front i.now)) }
{
    let mut bytes = sites_bytes(alloc, &i.sites)?;
    let sites_size = bytes.len();
    pad(&mut bytes, 8)?;
    let calls = bytes.len();
    let list = calls_bytes(alloc, &i.sites)?;
    let calls_size = list.len();
    bytes.extend_from_slice(&list)?;
    pad(&mut bytes, 8)?;
    let names = bytes.len();
    bytes.extend_from_slice(&NAMES)?;
    pad(&mut bytes, 8)?;
    Ok(Sections {
        bytes,
        sites_size,
        calls,
        calls_size,
        names,
    })
}

/// A section: where its name begins among the names, its type, where its bytes begin in the file, how many there
/// are, and what addresses are multiples of.
#[derive(Clone, Copy)]
struct SectionHeader {
    name: u32,
    kind: u32,
    offset: u64,
    size: u64,
    unit: u64,
}

fn push_section_header(out: &mut Vec<u8>, s: SectionHeader) -> Result<(), AllocError>
    ensures { OnOk result (out.new.items ≡ out.old.items ++ written.section_header s.name s.kind s.offset s.size s.unit) }
{
    push_words(out, &[s.name, s.kind])?;
    push_longs(out, &[0, 0, s.offset, s.size])?;
    push_words(out, &[0, 0])?;
    push_longs(out, &[s.unit, 0])
}

/// Appends the headers of the sections, of which the first begins at this offset.
fn push_section_headers(
    out: &mut Vec<u8>,
    i: &Image,
    s: &Sections,
    first: u64,
) -> Result<(), AllocError>
    requires fits { first + length s.now.bytes.items < 2 ^ 64 }
    requires first { first ≡ written.sites_offset i.now }
    requires bytes { s.now.bytes.items ≡ written.sections i.now }
    requires sites { s.now.sites_size ≡ length (bytes_of_sites (listed i.now.sites)) }
    requires calls { s.now.calls ≡ length (written.sites_front i.now) }
    requires calls_size { s.now.calls_size ≡ length (bytes_of_calls (listed i.now.sites)) }
    requires names { s.now.names ≡ length (written.calls_front i.now) }
    ensures { OnOk result (out.new.items ≡ out.old.items ++ written.section_headers i.now) }
{
    let none = SectionHeader {
        name: 0,
        kind: 0,
        offset: 0,
        size: 0,
        unit: 0,
    };
    let sites = SectionHeader {
        name: 1,
        kind: 1,
        offset: first,
        size: s.sites_size as u64,
        unit: 1,
    };
    let calls = SectionHeader {
        name: 13,
        kind: 1,
        offset: first + s.calls as u64,
        size: s.calls_size as u64,
        unit: 1,
    };
    let names = SectionHeader {
        name: 25,
        kind: 3,
        offset: first + s.names as u64,
        size: NAMES.len() as u64,
        unit: 1,
    };
    push_section_header(out, none)?;
    push_section_header(out, sites)?;
    push_section_header(out, calls)?;
    push_section_header(out, names)
}

/// The file of an image: it denotes that image, and all nine rules take it. Fails only where memory is out.
pub fn write_elf(alloc: Global, i: &Image) -> Result<Vec<u8>, AllocError>
    requires { CanWrite i.now }
    ensures bytes { IfOk result (λ out. out.items ≡ written.file i.now) }
    ensures accepted { IfOk result (λ out. refused out.items ≡ None) }
    ensures denotes { IfOk result (λ out. Denotes out.items (image_of i.now)) }
{
    let store = up_to(PAGE, PAGE + i.text.len());
    let first = up_to(8, store + i.store.len());
    let sections = sections_of(alloc, i)?;
    let headers = first + sections.bytes.len();
    let mut out = Vec::new(alloc);
    push_header(&mut out, i.entry, headers as u64)?;
    push_program_headers(&mut out, i, store as u64)?;
    push_parts(&mut out, i)?;
    out.extend_from_slice(&sections.bytes)?;
    push_section_headers(&mut out, i, &sections, first as u64)?;
    Ok(out)
}
