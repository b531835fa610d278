//! The bytes of the sections, and lines of allocator calls.

use crate::image::{RANGES, Range};
use crate::section::view::SitesView;
use crate::section::write::{calls_bytes, sites_bytes};
use crate::sites::{ByteString, ProcedureName, Sites};
use crate::trace::trace_line;
use arrayvec::ArrayVec;
use odc_text::check::Check;
use odc_text::outcome::CallEvent;
use odc_text::place::{FileId, Place};
use std::alloc::{AllocError, Global};
use std::test::Fail;

// One path, a stack check at 3:9 in it, one procedure at 0x10028, and one call at 0x10100.
const SITES: [u8; 34] =
    *b"\x01\0\0\0\x06\0\0\0a.odin\x01\0\0\0\0\0\0\0\x03\0\0\0\x09\0\0\0\x06\0\0\0";

const CALLS: [u8; 37] =
    *b"\x01\0\0\0\x28\0\x01\0\0\0\0\0\x09\0\0\0main.main\x01\0\0\0\0\x01\x01\0\0\0\0\0";

fn listed(alloc: Global) -> Result<Sites, AllocError> {
    let path = ByteString::copied(alloc, b"a.odin")?;
    let name = ByteString::copied(alloc, b"main.main")?;
    let at = Place {
        file: FileId { number: 0 },
        line: 3,
        column: 9,
    };
    let main = ProcedureName {
        entry: 0x10028,
        name,
    };
    Ok(Sites {
        paths: vec![in alloc; path]?,
        checks: vec![in alloc; (Check::Stack, at)]?,
        names: vec![in alloc; main]?,
        calls: vec![in alloc; 0x10100]?,
    })
}

#[test]
fn sections_are_read_as_they_stand(rt: HostRuntime) -> Result<(), Fail> {
    let alloc = rt.alloc();
    let view = SitesView::new(&SITES, &CALLS).ok_or("no sections")?;
    let sites = view.to_sites(alloc)?;
    let [path] = sites.paths.as_slice() else {
        return Err(Fail::from("not one path"));
    };
    assert_eq!(rt; path.as_bytes(), b"a.odin".as_slice());
    let [(check, at)] = sites.checks.as_slice() else {
        return Err(Fail::from("not one site"));
    };
    assert!(rt; matches!(*check, Check::Stack));
    assert_eq!(rt; at.file.number, 0);
    assert_eq!(rt; at.line, 3);
    assert_eq!(rt; at.column, 9);
    let [main] = sites.names.as_slice() else {
        return Err(Fail::from("not one procedure"));
    };
    assert_eq!(rt; main.entry, 0x10028);
    assert_eq!(rt; main.name.as_bytes(), b"main.main".as_slice());
    let [call] = sites.calls.as_slice() else {
        return Err(Fail::from("not one call"));
    };
    assert_eq!(rt; *call, 0x10100);
    Ok(())
}

#[test]
fn what_is_no_section_is_not_read(rt: HostRuntime) -> Result<(), Fail> {
    for size in 0..SITES.len() {
        assert!(rt; SitesView::new(&SITES[..size], &CALLS).is_none());
    }
    for size in 0..CALLS.len() {
        assert!(rt; SitesView::new(&SITES, &CALLS[..size]).is_none());
    }
    let mut wrong = SITES;
    wrong[30] = 10;
    assert!(rt; SitesView::new(&wrong, &CALLS).is_none(), "no tenth check");
    wrong[30] = 0;
    assert!(rt; SitesView::new(&wrong, &CALLS).is_none(), "no check 0");
    wrong[30] = 9;
    assert!(rt; SitesView::new(&wrong, &CALLS).is_some());
    wrong[18] = 1;
    assert!(rt; SitesView::new(&wrong, &CALLS).is_none(), "no second path");
    Ok(())
}

#[test]
fn sections_are_written_lowest_byte_first(rt: HostRuntime) -> Result<(), Fail> {
    let alloc = rt.alloc();
    let path = ByteString::copied(alloc, b"a.odin")?;
    let name = ByteString::copied(alloc, b"main.main")?;
    let at = Place {
        file: FileId { number: 0 },
        line: 3,
        column: 9,
    };
    let main = ProcedureName {
        entry: 0x10028,
        name,
    };
    let sites = Sites {
        paths: vec![in alloc; path]?,
        checks: vec![in alloc; (Check::Stack, at)]?,
        names: vec![in alloc; main]?,
        calls: vec![in alloc; 0x10100]?,
    };
    let first = sites_bytes(alloc, &sites)?;
    assert_eq!(rt; first.as_slice(), SITES.as_slice());
    let second = calls_bytes(alloc, &sites)?;
    assert_eq!(rt; second.as_slice(), CALLS.as_slice());
    Ok(())
}

fn event(mode: i64, procedure: u64) -> CallEvent {
    CallEvent {
        procedure,
        given: 0,
        mode,
        size: 16,
        align: 8,
        old: 0x6000_0010,
        old_size: -1,
    }
}

#[test]
fn a_call_has_its_line(rt: HostRuntime) -> Result<(), Fail> {
    let alloc = rt.alloc();
    let sites = listed(alloc)?;
    let known = trace_line(alloc, &event(0, 0x10028), &sites)?;
    assert_eq!(rt;
        known.as_slice(),
        b"alloc main.main data=0x0 Alloc size=16 align=8 old=0x60000010 old_size=-1\n".as_slice()
    );
    let unknown = trace_line(alloc, &event(6, 0xabc), &sites)?;
    assert_eq!(rt;
        unknown.as_slice(),
        b"alloc 0xabc data=0x0 6 size=16 align=8 old=0x60000010 old_size=-1\n".as_slice()
    );
    let negative = trace_line(alloc, &event(-2, 0), &sites)?;
    assert_eq!(rt;
        negative.as_slice(),
        b"alloc 0x0 data=0x0 -2 size=16 align=8 old=0x60000010 old_size=-1\n".as_slice()
    );
    Ok(())
}

#[test]
fn ranges_are_kept_in_order(rt: HostRuntime) -> Result<(), Fail> {
    let mut ranges: ArrayVec<Range<'_>, RANGES> = ArrayVec::new();
    assert!(rt; ranges.is_empty());
    ranges.push(Range {
        start: 0x10000,
        size: 34,
        readable: true,
        writable: false,
        executable: true,
        bytes: &SITES,
    });
    let [range] = ranges.as_slice() else {
        return Err(Fail::from("not one range"));
    };
    assert_eq!(rt; range.bytes.len(), 34);
    Ok(())
}
