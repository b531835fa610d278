//! The built-in names, and the texts of the library.

use odc_builtins::{
    Builtin, Home, LibraryPackage, Member, MemberKind, Predeclared, Refusal, built_in, known_in,
    library, library_package, member_kind, member_of, name, predeclared_as, refused_as,
    refused_for,
};

/// The checksum of ISO 3309 (CRC-32) over bytes, as zlib and `gzip` compute it.
fn checksum(bytes: &[u8]) -> u32 {
    let mut remainder = 0xffff_ffffu32;
    for byte in bytes {
        remainder ^= *byte as u32;
        for _ in 0..8 {
            remainder = if remainder & 1 == 1 {
                (remainder >> 1) ^ 0xedb8_8320
            } else {
                remainder >> 1
            };
        }
    }
    !remainder
}

#[test]
fn texts_are_whole(rt: HostRuntime) {
    // The checksum's own check value.
    assert_eq!(rt; checksum(b"123456789"), 0xcbf4_3926);
    for (path, length, sum) in [
        ("base:runtime", 4304usize, 0x2de8_b9afu32),
        ("core:mem", 416, 0xa33f_f972),
    ] {
        match library(path) {
            Some(text) => {
                assert_eq!(rt; text.len(), length, "{path}");
                assert_eq!(rt; checksum(text.as_bytes()), sum, "{path}");
            }
            None => panic!(rt; "{path}"),
        }
    }
}

#[test]
fn every_name_of_the_table_is_known(rt: HostRuntime) {
    for text in [
        "len",
        "cap",
        "raw_data",
        "size_of",
        "align_of",
        "offset_of",
        "min",
        "max",
        "abs",
        "copy",
        "assert",
        "panic",
        "clear",
        "pop",
        "ordered_remove",
        "unordered_remove",
        "heap_region",
        "temp_region",
        "byte_slice",
        "new",
        "make",
        "append",
        "reserve",
        "resize",
        "delete",
        "free",
        "free_all",
    ] {
        match built_in(text) {
            Some(b) => assert_eq!(rt; name(b), text),
            None => panic!(rt),
        }
    }
    for text in [
        "",
        "le",
        "lenn",
        "Len",
        "heap_alloc",
        "runtime.heap_region",
        "println",
        "temp",
    ] {
        assert!(rt; built_in(text).is_none());
    }
}

#[test]
fn regions_belong_to_the_runtime(rt: HostRuntime) {
    assert!(rt; matches!(known_in(Builtin::HeapRegion), Home::Runtime));
    assert!(rt; matches!(known_in(Builtin::TempRegion), Home::Runtime));
    assert!(rt; matches!(known_in(Builtin::ByteSlice), Home::Runtime));
    assert!(rt; matches!(known_in(Builtin::Make), Home::Everywhere));
}

#[test]
fn two_packages_have_no_text(rt: HostRuntime) {
    assert!(rt; matches!(library_package("core:fmt"), Some(LibraryPackage::Fmt)));
    assert!(rt; matches!(library_package("core:os"), Some(LibraryPackage::Os)));
    assert!(rt; library("core:fmt").is_none());
    assert!(rt; library("core:os").is_none());
    assert!(rt; library_package("core:thread").is_none());
    assert!(rt; library_package("core:").is_none());
    assert!(rt; library("runtime").is_none());
}

#[test]
fn names_of_the_universe_are_known(rt: HostRuntime) {
    assert!(rt; matches!(predeclared_as("byte"), Some(Predeclared::Byte)));
    assert!(rt; matches!(predeclared_as("nil"), Some(Predeclared::Nil)));
    assert!(rt; predeclared_as("f32").is_none());
    for (name, want) in [
        ("f32", Some(Refusal::Float)),
        ("quaternion256", Some(Refusal::Float)),
        ("any", Some(Refusal::TypeInfo)),
        ("uintptr", Some(Refusal::Address)),
        ("u16be", Some(Refusal::Integer)),
        ("b64", Some(Refusal::Integer)),
        ("soa_zip", Some(Refusal::Soa)),
        ("i8le", None),
        ("int", None),
    ] {
        assert!(rt; refused_as(name).map(|n| refused_for(n)) == want);
    }
}

#[test]
fn members_belong_to_their_package(rt: HostRuntime) {
    assert!(rt;
        matches!(
            member_of(LibraryPackage::Fmt, "println"),
            Some(Member::Println)
        )
    );
    assert!(rt; member_of(LibraryPackage::Os, "println").is_none());
    assert!(rt; member_of(LibraryPackage::Fmt, "Error").is_none());
    assert!(rt; member_of(LibraryPackage::Runtime, "read").is_none());
    let stderr = member_of(LibraryPackage::Os, "stderr").map(|m| member_kind(m));
    assert!(rt; stderr == Some(MemberKind::Descriptor { number: 2 }));
}
