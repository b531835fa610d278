//! Files that denote an image, files that break a rule, and the file of an image.

ghost use Rattle.std.specs.Prelude.{IfOk};
ghost use Rattle.elf_file.specs.Written.{CanWrite};

use crate::read::read_elf;
use crate::write::write_elf;
use odc_text::check::Check;
use odc_text::place::{FileId, Place};
use rv_sites::image::Image;
use rv_sites::sites::{ByteString, ProcedureName, Sites};
use std::alloc::{AllocError, Global};
use std::test::Fail;

// One range of four bytes at 0x10000, which may be read and executed, and no sections.
const FILE: [u8; 124] =
    *b"\x7fELF\x02\x01\x01\0\0\0\0\0\0\0\0\0\x02\0\xf3\0\x01\0\0\0\0\0\x01\0\0\0\0\0\x40\0\0\0\0\0\0\0\0\0\0\0\0\0\0\0\0\0\0\0\x40\0\x38\0\x01\0\x40\0\0\0\0\0\x01\0\0\0\x05\0\0\0\x78\0\0\0\0\0\0\0\0\0\x01\0\0\0\0\0\0\0\x01\0\0\0\0\0\x04\0\0\0\0\0\0\0\x04\0\0\0\0\0\0\0\0\x10\0\0\0\0\0\0\x73\0\0\0";

fn breaks(bytes: &[u8], rule: u8, offset: u64) -> bool {
    match read_elf(bytes) {
        Ok(_) => false,
        Err(e) => e.rule == rule && e.offset == offset,
    }
}

#[test]
fn a_file_denotes_its_ranges(rt: HostRuntime) -> Result<(), Fail> {
    let view = read_elf(&FILE).map_err(|_| "refused")?;
    assert_eq!(rt; view.entry, 0x10000);
    let [range] = view.ranges.as_slice() else {
        return Err(Fail::from("not one range"));
    };
    assert_eq!(rt; range.start, 0x10000);
    assert_eq!(rt; range.size, 4);
    assert!(rt; range.readable);
    assert!(rt; !range.writable);
    assert!(rt; range.executable);
    assert_eq!(rt; range.bytes, b"\x73\0\0\0".as_slice());
    Ok(())
}

#[test]
fn each_rule_is_told_at_its_offset(rt: HostRuntime) {
    assert!(rt;
        breaks(&FILE[..63], 1, 63),
        "63 bytes that begin with the magic"
    );
    assert!(rt; breaks(&[], 1, 0));
    assert!(rt; breaks(&FILE[..64], 6, 32));
    assert!(rt; breaks(&FILE[..123], 7, 64));
    for (at, byte, rule, offset) in [
        (0, 0, 1, 0),
        (3, b'f', 1, 3),
        (4, 1, 2, 4),
        (5, 2, 2, 5),
        (6, 0, 2, 6),
        (16, 3, 3, 16),
        (18, 62, 4, 18),
        (52, 63, 5, 52),
        (54, 57, 5, 54),
        (56, 0, 5, 56),
        (56, 17, 5, 56),
        (32, 0x45, 6, 32),
        (96, 5, 7, 64),
        (72, 0x79, 7, 64),
        (82, 0, 7, 64),
        (24, 2, 8, 24),
        (24, 4, 8, 24),
        (68, 6, 8, 24),
        (40, 0x7d, 9, 40),
    ] {
        let mut file = FILE;
        let at: usize = at;
        if at < file.len() {
            file[at] = byte;
        }
        assert!(rt; breaks(&file, rule, offset), "byte {at} as {byte}");
    }
}

#[test]
fn a_header_of_another_type_is_skipped(rt: HostRuntime) {
    let mut file = FILE;
    file[64] = 2;
    assert!(rt; breaks(&file, 8, 24), "no range is left");
}

// A text of two instructions, a store of three bytes in sixteen, a path, a stack check at 3:9 in it, a
// procedure, and a call.
fn image(alloc: Global) -> Result<Image, AllocError>
    ensures { IfOk result (λ i. CanWrite i) }
{
    let at = Place {
        file: FileId { number: 0 },
        line: 3,
        column: 9,
    };
    let main = ProcedureName {
        entry: 0x10004,
        name: ByteString::copied(alloc, b"main.main")?,
    };
    let path = ByteString::copied(alloc, b"a.odin")?;
    let sites = Sites {
        paths: vec![in alloc; path]?,
        checks: vec![in alloc; (Check::Stack, at)]?,
        names: vec![in alloc; main]?,
        calls: vec![in alloc; 0x10004]?,
    };
    Ok(Image {
        text: Vec::from_slice(alloc, b"\x93\x08\xd0\x05\x73\0\0\0")?,
        store: Vec::from_slice(alloc, b"\x01\x02\x03")?,
        store_size: 16,
        entry: 0x10000,
        sites,
    })
}

fn part(bytes: &[u8], from: usize, to: usize) -> &[u8] {
    if from <= to && to <= bytes.len() {
        &bytes[from..to]
    } else {
        &[]
    }
}

fn are_zero(bytes: &[u8], from: usize, to: usize) -> bool {
    part(bytes, from, to).len() == to.saturating_sub(from)
        && part(bytes, from, to).iter().all(|byte| *byte == 0)
}

const HEADER: [u8; 64] =
    *b"\x7fELF\x02\x01\x01\0\0\0\0\0\0\0\0\0\x02\0\xf3\0\x01\0\0\0\0\0\x01\0\0\0\0\0\x40\0\0\0\0\0\0\0\x80\x20\0\0\0\0\0\0\0\0\0\0\x40\0\x38\0\x05\0\x40\0\x04\0\x03\0";

const TEXT_HEADER: [u8; 56] =
    *b"\x01\0\0\0\x05\0\0\0\0\x10\0\0\0\0\0\0\0\0\x01\0\0\0\0\0\0\0\x01\0\0\0\0\0\x08\0\0\0\0\0\0\0\x08\0\0\0\0\0\0\0\0\x10\0\0\0\0\0\0";

const STORE_HEADER: [u8; 56] =
    *b"\x01\0\0\0\x06\0\0\0\0\x20\0\0\0\0\0\0\0\0\0\x50\0\0\0\0\0\0\0\x50\0\0\0\0\x03\0\0\0\0\0\0\0\x10\0\0\0\0\0\0\0\0\x10\0\0\0\0\0\0";

const HEAP_HEADER: [u8; 56] =
    *b"\x01\0\0\0\x06\0\0\0\0\x20\0\0\0\0\0\0\0\0\0\x60\0\0\0\0\0\0\0\x60\0\0\0\0\0\0\0\0\0\0\0\0\0\0\0\x01\0\0\0\0\0\x10\0\0\0\0\0\0";

const TEMP_HEADER: [u8; 56] =
    *b"\x01\0\0\0\x06\0\0\0\0\x20\0\0\0\0\0\0\0\0\0\x68\0\0\0\0\0\0\0\x68\0\0\0\0\0\0\0\0\0\0\0\0\0\0\x10\0\0\0\0\0\0\x10\0\0\0\0\0\0";

const STACK_HEADER: [u8; 56] =
    *b"\x01\0\0\0\x06\0\0\0\0\x20\0\0\0\0\0\0\0\0\0\x78\0\0\0\0\0\0\0\x78\0\0\0\0\0\0\0\0\0\0\0\0\0\0\0\x08\0\0\0\0\0\x10\0\0\0\0\0\0";

const SITES_HEADER: [u8; 64] =
    *b"\x01\0\0\0\x01\0\0\0\0\0\0\0\0\0\0\0\0\0\0\0\0\0\0\0\x08\x20\0\0\0\0\0\0\x22\0\0\0\0\0\0\0\0\0\0\0\0\0\0\0\x01\0\0\0\0\0\0\0\0\0\0\0\0\0\0\0";

const CALLS_HEADER: [u8; 64] =
    *b"\x0d\0\0\0\x01\0\0\0\0\0\0\0\0\0\0\0\0\0\0\0\0\0\0\0\x30\x20\0\0\0\0\0\0\x25\0\0\0\0\0\0\0\0\0\0\0\0\0\0\0\x01\0\0\0\0\0\0\0\0\0\0\0\0\0\0\0";

const NAMES_HEADER: [u8; 64] =
    *b"\x19\0\0\0\x03\0\0\0\0\0\0\0\0\0\0\0\0\0\0\0\0\0\0\0\x58\x20\0\0\0\0\0\0\x23\0\0\0\0\0\0\0\0\0\0\0\0\0\0\0\x01\0\0\0\0\0\0\0\0\0\0\0\0\0\0\0";

#[test]
fn headers_stand_as_in_the_manual(rt: HostRuntime) -> Result<(), Fail> {
    let alloc = rt.alloc();
    let file = write_elf(alloc, &image(alloc)?)?;
    assert_eq!(rt; file.len(), 8576);
    assert_eq!(rt; part(&file, 0, 64), HEADER.as_slice());
    assert_eq!(rt; part(&file, 64, 120), TEXT_HEADER.as_slice());
    assert_eq!(rt; part(&file, 120, 176), STORE_HEADER.as_slice());
    assert_eq!(rt; part(&file, 176, 232), HEAP_HEADER.as_slice());
    assert_eq!(rt; part(&file, 232, 288), TEMP_HEADER.as_slice());
    assert_eq!(rt; part(&file, 288, 344), STACK_HEADER.as_slice());
    assert!(rt; are_zero(&file, 8320, 8384), "the first section header");
    assert_eq!(rt; part(&file, 8384, 8448), SITES_HEADER.as_slice());
    assert_eq!(rt; part(&file, 8448, 8512), CALLS_HEADER.as_slice());
    assert_eq!(rt; part(&file, 8512, 8576), NAMES_HEADER.as_slice());
    Ok(())
}

#[test]
fn parts_stand_at_their_offsets(rt: HostRuntime) -> Result<(), Fail> {
    let alloc = rt.alloc();
    let file = write_elf(alloc, &image(alloc)?)?;
    assert!(rt; are_zero(&file, 344, 4096));
    assert_eq!(rt;
        part(&file, 4096, 4104),
        b"\x93\x08\xd0\x05\x73\0\0\0".as_slice()
    );
    assert!(rt; are_zero(&file, 4104, 8192));
    assert_eq!(rt; part(&file, 8192, 8195), b"\x01\x02\x03".as_slice());
    assert!(rt; are_zero(&file, 8195, 8200));
    assert_eq!(rt;
        part(&file, 8200, 8240),
        b"\x01\0\0\0\x06\0\0\0a.odin\x01\0\0\0\0\0\0\0\x03\0\0\0\x09\0\0\0\x06\0\0\0\0\0\0\0\0\0".as_slice()
    );
    assert_eq!(rt;
        part(&file, 8240, 8280),
        b"\x01\0\0\0\x04\0\x01\0\0\0\0\0\x09\0\0\0main.main\x01\0\0\0\x04\0\x01\0\0\0\0\0\0\0\0".as_slice()
    );
    assert_eq!(rt;
        part(&file, 8280, 8320),
        b"\0.odin.sites\0.odin.calls\0.shstrtab\0\0\0\0\0\0".as_slice()
    );
    Ok(())
}

#[test]
fn what_is_written_is_read(rt: HostRuntime) -> Result<(), Fail> {
    let alloc = rt.alloc();
    let file = write_elf(alloc, &image(alloc)?)?;
    let view = read_elf(&file).map_err(|_| "refused")?;
    assert_eq!(rt; view.entry, 0x10000);
    assert_eq!(rt; view.ranges.len(), 5);
    let sites = view.sites.to_sites(alloc)?;
    assert_eq!(rt; sites.checks.len(), 1);
    assert_eq!(rt; sites.calls.as_slice(), [0x10004].as_slice());
    Ok(())
}
