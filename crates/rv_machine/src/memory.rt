//! Memory: ranges of bytes, each with what it allows.

ghost use Rattle.std.specs.Prelude.{◌≡◌, ℕ, ◌+◌, ◌-◌, ◌*◌, ◌^◌, ◌≤◌, ◌<◌, ◌⊎◌, List, map, All, IfOk, IfSome, length, OnErr, MatchOption, option_map, Some, None, true, false, if◌then◌else◌, position, slice_range};
ghost use Rattle.std.specs.Int.{w8, w16, w32, w64, from_le_bytes};
ghost use Rattle.rv_table.specs.State.{allows, covers, loaded, overwritten, filled, stored, store_bytes};
ghost use Rattle.rv_table.specs.Run.{area_of};
ghost use Rattle.rv_table.specs.Areas.{shape, IsApartFrom, AreApart};
ghost use Rattle.rv_machine.specs.Memory.{Holds};
ghost use Rattle.rv_machine.specs.Text.{IsFixedAt};
ghost use Rattle.odc_io.specs.Counts.{Rose};
ghost use Rattle.odc_io.specs.Streams.{shrunk, ReadsNext, AtEnd};
ghost use Rattle.rv_machine.specs.Image.{range_of, BytesFit};
ghost use Rattle.rv_machine.specs.Turns.{IsEnded, Received, Fetched};

use crate::image::Range;
use crate::text::Text;
use odc_io::{Failed, Source};
use rv_table::effect::{Access, StoreKind};
use rv_table::inst::Inst;
use std::alloc::{AllocError, Global};
use std::marker::Model;

// How many bytes are read from a source at once.
const PIECE: usize = 4096;

// Reads into the piece, but not more than so many bytes.
fn read_piece<S: Source>(input: &mut S, piece: &mut [u8], limit: usize) -> Result<usize, Failed>
    requires room { 0 < length piece.old }
    requires some { 0 < limit }
    ensures within { IfOk result (λ n. (n ≤ limit) × (n ≤ length piece.new)) }
    ensures bytes { IfOk result (λ n. ReadsNext (S.rest input.old) piece.new n) }
    ensures taken { IfOk result (λ n. S.rest input.new ≡ shrunk (S.rest input.old) n) }
    ensures end { IfOk result (λ n. n ≡ 0 → AtEnd (S.rest input.old)) }
    ensures err { OnErr result (S.rest input.new ≡ S.rest input.old) }
    ensures counted { S.faults input.old ≤ S.faults input.new }
    ensures cause { OnErr result (Rose (S.faults input.old) (S.faults input.new)) }
{
    let part = piece.len().min(limit);
    input.read(&mut piece[..part])
}

/// A range of memory.
#[derive(Drop)]
pub struct Region {
    start: u64,
    readable: bool,
    writable: bool,
    executable: bool,
    bytes: Vec<u8>,
}

impl Model for Region {
    ghost use Rattle.rv_table.specs.State.{Area};

    ghost Value = { Area };

    ghost view = { λ r. record { start = r.start; readable = r.readable; writable = r.writable; executable = r.executable; bytes = r.bytes.items } };
}

impl Region {
    fn load(alloc: Global, range: &Range) -> Result<Region, AllocError>
        requires { BytesFit range.now }
        ensures { IfOk result (λ r. r ≡ area_of (range_of range.now)) }
    {
        let size = range.size as usize;
        let mut bytes = Vec::with_capacity(alloc, size)?;
        bytes.extend_from_slice(&range.bytes)?;
        bytes.resize(size, 0)?;
        Ok(Region {
            start: range.start,
            readable: range.readable,
            writable: range.writable,
            executable: range.executable,
            bytes,
        })
    }

    pub fn allows(&self, access: Access) -> bool
        ensures { result ≡ allows access self.now }
    {
        match access {
            Access::Read => self.readable,
            Access::Write => self.writable,
            Access::Execute => self.executable,
        }
    }

    fn covers(&self, access: Access, address: u64, size: usize) -> bool
        ensures { result ≡ covers access address size self.now }
    {
        self.allows(access)
            && self.start <= address
            && size <= self.bytes.len()
            && address - self.start <= (self.bytes.len() - size) as u64
    }

    // The other range begins where this one ends, or later.
    fn ends_before(&self, other: &Region) -> bool
        ensures { result ≡ true → self.now.start + length self.now.bytes ≤ other.now.start }
    {
        self.start <= other.start && self.bytes.len() as u64 <= other.start - self.start
    }

    // The two have no address in common.
    fn is_apart(&self, other: &Region) -> bool
        ensures { result ≡ true → (self.now.start + length self.now.bytes ≤ other.now.start) ⊎ (other.now.start + length other.now.bytes ≤ self.now.start) }
    {
        self.ends_before(other) || other.ends_before(self)
    }

    fn load_1(&self, address: u64) -> u8
        requires start { self.now.start ≤ address }
        requires end { address + 1 ≤ self.now.start + length self.now.bytes }
        ensures { result ≡ from_le_bytes w8 (slice_range self.now.bytes (address - self.now.start) (address - self.now.start + 1)) }
    {
        let at = (address - self.start) as usize;
        let mut word = [0; 1];
        word.copy_from_slice(&self.bytes[at..at + 1]);
        u8::from_le_bytes(word)
    }

    fn load_2(&self, address: u64) -> u16
        requires start { self.now.start ≤ address }
        requires end { address + 2 ≤ self.now.start + length self.now.bytes }
        ensures { result ≡ from_le_bytes w16 (slice_range self.now.bytes (address - self.now.start) (address - self.now.start + 2)) }
    {
        let at = (address - self.start) as usize;
        let mut word = [0; 2];
        word.copy_from_slice(&self.bytes[at..at + 2]);
        u16::from_le_bytes(word)
    }

    pub fn load_4(&self, address: u64) -> u32
        requires start { self.now.start ≤ address }
        requires end { address + 4 ≤ self.now.start + length self.now.bytes }
        ensures { result ≡ from_le_bytes w32 (slice_range self.now.bytes (address - self.now.start) (address - self.now.start + 4)) }
    {
        let at = (address - self.start) as usize;
        let mut word = [0; 4];
        word.copy_from_slice(&self.bytes[at..at + 4]);
        u32::from_le_bytes(word)
    }

    fn load_8(&self, address: u64) -> u64
        requires start { self.now.start ≤ address }
        requires end { address + 8 ≤ self.now.start + length self.now.bytes }
        ensures { result ≡ from_le_bytes w64 (slice_range self.now.bytes (address - self.now.start) (address - self.now.start + 8)) }
    {
        let at = (address - self.start) as usize;
        let mut word = [0; 8];
        word.copy_from_slice(&self.bytes[at..at + 8]);
        u64::from_le_bytes(word)
    }

    fn overwrite_at(&mut self, at: usize, bytes: &[u8])
        requires { at + length bytes.now ≤ length self.old.bytes }
        ensures is { self.new ≡ overwritten self.old (self.old.start + at) bytes.now }
        ensures shape { shape self.new ≡ shape self.old }
    {
        self.bytes[at..at + bytes.len()].copy_from_slice(bytes);
    }

    fn overwrite(&mut self, address: u64, bytes: &[u8])
        requires start { self.old.start ≤ address }
        requires end { address + length bytes.now ≤ self.old.start + length self.old.bytes }
        ensures is { self.new ≡ overwritten self.old address bytes.now }
        ensures shape { shape self.new ≡ shape self.old }
    {
        let at = (address - self.start) as usize;
        self.overwrite_at(at, bytes);
    }

    fn bytes(&self, address: u64, size: usize) -> &[u8]
        requires start { self.now.start ≤ address }
        requires end { address + size ≤ self.now.start + length self.now.bytes }
        ensures { result.now ≡ slice_range self.now.bytes (address - self.now.start) (address - self.now.start + size) }
    {
        let at = (address - self.start) as usize;
        &self.bytes[at..at + size]
    }

    // Fills a buffer from a source, up to the source's end.
    fn read_from<S: Source>(
        &mut self,
        address: u64,
        size: usize,
        input: &mut S,
        ended: &mut bool,
    ) -> Result<usize, Failed>
        requires start { self.old.start ≤ address }
        requires end { address + size ≤ self.old.start + length self.old.bytes }
        requires over { IsEnded ended.old (S.rest input.old) }
        ensures is { Received address size self.old self.new (S.rest input.old) (S.rest input.new) ended.old ended.new result }
        ensures shape { shape self.new ≡ shape self.old }
        ensures over { IsEnded ended.new (S.rest input.new) }
        ensures counted { S.faults input.old ≤ S.faults input.new }
        ensures cause { OnErr result (Rose (S.faults input.old) (S.faults input.new)) }
    {
        let at = (address - self.start) as usize;
        let mut count = 0;
        while count < size && !*ended {
            let mut piece = [0; PIECE];
            let taken = read_piece(input, &mut piece, size - count)?;
            self.overwrite_at(at + count, &piece[..taken]);
            count += taken;
            *ended = taken == 0;
        }
        Ok(count)
    }
}

// The first range that covers these bytes and allows the access.
pub fn find(regions: &[Region], access: Access, address: u64, size: usize) -> Option<usize>
    ensures { result ≡ position (covers access address size) regions.now }
{
    regions
        .iter()
        .position(|region| region.covers(access, address, size))
}

// The range has no address in common with any of the others.
fn is_apart_from(region: &Region, others: &[Region]) -> bool
    ensures { result ≡ true → IsApartFrom (shape region.now) (map shape others.now) }
{
    for other in others {
        if !region.is_apart(other) {
            return false;
        }
    }
    true
}

// No two ranges have an address in common.
fn are_apart(regions: &[Region]) -> bool
    ensures { result ≡ true → AreApart (map shape regions.now) }
{
    let mut at = regions.len();
    while at > 0 {
        at -= 1;
        if !is_apart_from(&regions[at], &regions[at + 1..]) {
            return false;
        }
    }
    true
}

// Where the first text that may not be written begins, and how many words it has.
fn fixed_text(ranges: &Vec<Range>) -> (u64, usize)
    ensures { 4 * result.1 < 2 ^ 64 }
{
    for range in ranges {
        if range.executable && !range.writable {
            return (range.start, range.bytes.len() / 4);
        }
    }
    (0, 0)
}

/// The ranges of a machine.
#[derive(Drop)]
pub struct Memory {
    regions: Vec<Region>,
    // No two ranges have an address in common.
    apart: bool,
    // The range of the last access, which the next is likely to lie in.
    recent: usize,
    text: Text,
}

impl Model for Memory {
    ghost use Rattle.std.specs.Prelude.{List};
    ghost use Rattle.rv_table.specs.State.{Area};
    ghost use Rattle.rv_machine.specs.Text.{Keeps};

    ghost Value = { List Area };

    ghost view = { λ m. m.regions.items };

    ghost invariant = { λ m. Keeps m.regions.items m.apart m.text.start m.text.entries.items };
}

impl Memory {
    /// The ranges with their bytes, and 0 up to their sizes.
    pub fn load(alloc: Global, ranges: &Vec<Range>) -> Result<Memory, AllocError>
        requires { All BytesFit ranges.now.items }
        ensures { IfOk result (λ m. m ≡ map area_of (map range_of ranges.now.items)) }
    {
        let mut regions = Vec::with_capacity(alloc, ranges.len())?;
        for range in ranges {
            regions.push(Region::load(alloc, range)?)?;
        }
        let apart = are_apart(&regions);
        let (start, count) = fixed_text(ranges);
        let text = Text::decode(alloc, &regions, start, count)?;
        Ok(Memory {
            regions,
            apart,
            recent: 0,
            text,
        })
    }

    // The first range that covers these bytes and allows the access.
    fn find(&self, access: Access, address: u64, size: usize) -> Option<usize>
        ensures { result ≡ position (covers access address size) self.now }
    {
        find(&self.regions, access, address, size)
    }

    // The same, where the range of the last access is tried first.
    #[inline(always)]
    fn locate(&mut self, access: Access, address: u64, size: usize) -> Option<usize>
        requires { 0 < size }
        ensures is { result ≡ position (covers access address size) self.old }
        ensures same { self.new ≡ self.old }
    {
        let recent = self.recent;
        if self.apart
            && recent < self.regions.len()
            && self.regions[recent].covers(access, address, size)
        {
            return Some(recent);
        }
        let i = self.find(access, address, size)?;
        self.recent = i;
        Some(i)
    }

    // The range at an index that was found.
    fn region(&self, access: Access, address: u64, size: usize, i: usize) -> &Region
        requires { Some i ≡ position (covers access address size) self.now }
        ensures { Holds self.now access address size result.now }
    {
        &self.regions[i]
    }

    /// The value of the byte, where one range covers it and may be read.
    #[inline(always)]
    pub fn load_1(&mut self, address: u64) -> Option<u8>
        ensures value { result ≡ option_map (from_le_bytes w8) (loaded self.old Access.Read address 1) }
        ensures same { self.new ≡ self.old }
    {
        let i = self.locate(Access::Read, address, 1)?;
        Some(self.region(Access::Read, address, 1, i).load_1(address))
    }

    /// The value of 2 bytes, where one range covers them and may be read.
    #[inline(always)]
    pub fn load_2(&mut self, address: u64) -> Option<u16>
        ensures value { result ≡ option_map (from_le_bytes w16) (loaded self.old Access.Read address 2) }
        ensures same { self.new ≡ self.old }
    {
        let i = self.locate(Access::Read, address, 2)?;
        Some(self.region(Access::Read, address, 2, i).load_2(address))
    }

    /// The value of 4 bytes, where one range covers them and may be read.
    #[inline(always)]
    pub fn load_4(&mut self, address: u64) -> Option<u32>
        ensures value { result ≡ option_map (from_le_bytes w32) (loaded self.old Access.Read address 4) }
        ensures same { self.new ≡ self.old }
    {
        let i = self.locate(Access::Read, address, 4)?;
        Some(self.region(Access::Read, address, 4, i).load_4(address))
    }

    /// The value of 8 bytes, where one range covers them and may be read.
    #[inline(always)]
    pub fn load_8(&mut self, address: u64) -> Option<u64>
        ensures value { result ≡ option_map (from_le_bytes w64) (loaded self.old Access.Read address 8) }
        ensures same { self.new ≡ self.old }
    {
        let i = self.locate(Access::Read, address, 8)?;
        Some(self.region(Access::Read, address, 8, i).load_8(address))
    }

    /// The word of an instruction, where one range covers it and may be executed.
    pub fn word(&self, address: u64) -> Option<u32>
        ensures { result ≡ option_map (from_le_bytes w32) (loaded self.now Access.Execute address 4) }
    {
        let i = self.find(Access::Execute, address, 4)?;
        Some(self.region(Access::Execute, address, 4, i).load_4(address))
    }

    /// The instruction at the address, where it was decoded at load.
    pub fn decoded(&self, address: u64) -> Option<Inst>
        ensures { IfSome result (λ inst. IsFixedAt self.now address inst) }
    {
        self.text.at(address)
    }

    /// Puts bytes at the start of a buffer, where one range covers the buffer and may be written;
    /// else says false.
    #[inline(always)]
    pub fn fill(&mut self, address: u64, size: usize, bytes: &[u8]) -> bool
        requires fits { length bytes.now ≤ size }
        requires some { 0 < size }
        ensures is { filled self.old address size bytes.now ≡ (if result then Some self.new else None) }
        ensures kept { result ≡ false → self.new ≡ self.old }
    {
        let Some(i) = self.locate(Access::Write, address, size) else {
            return false;
        };
        let region = &mut self.regions[i];
        region.overwrite(address, bytes);
        true
    }

    /// The bytes there, where one range covers them and allows the access.
    pub fn bytes(&self, access: Access, address: u64, size: usize) -> Option<&[u8]>
        ensures { MatchOption result (loaded self.now access address size ≡ None) (λ bytes. loaded self.now access address size ≡ Some bytes.now) }
    {
        let i = self.find(access, address, size)?;
        Some(self.region(access, address, size, i).bytes(address, size))
    }

    /// Fills a buffer from a source, up to the source's end, and counts the bytes; `None` where no
    /// range that may be written covers the buffer.
    pub fn read_from<S: Source>(
        &mut self,
        address: u64,
        size: usize,
        input: &mut S,
        ended: &mut bool,
    ) -> Result<Option<usize>, Failed>
        requires over { IsEnded ended.old (S.rest input.old) }
        ensures is { Fetched address size self.old self.new (S.rest input.old) (S.rest input.new) ended.old ended.new result }
        ensures over { IsEnded ended.new (S.rest input.new) }
        ensures counted { S.faults input.old ≤ S.faults input.new }
        ensures cause { OnErr result (Rose (S.faults input.old) (S.faults input.new)) }
    {
        let Some(i) = self.find(Access::Write, address, size) else {
            return Ok(None);
        };
        let region = &mut self.regions[i];
        match region.read_from(address, size, input, ended) {
            Ok(count) => Ok(Some(count)),
            Err(Failed) => Err(Failed),
        }
    }

    /// Stores the low bytes of a value, where one range covers them and may be written; else says
    /// false.
    #[inline(always)]
    pub fn store(&mut self, address: u64, kind: StoreKind, value: u64) -> bool
        ensures is { stored self.old address (store_bytes kind value) ≡ (if result then Some self.new else None) }
        ensures kept { result ≡ false → self.new ≡ self.old }
    {
        match kind {
            StoreKind::Byte => self.fill(address, 1, &((value % 0x100) as u8).to_le_bytes()),
            StoreKind::Half => self.fill(address, 2, &((value % 0x1_0000) as u16).to_le_bytes()),
            StoreKind::Word => self.fill(
                address,
                4,
                &((value % 0x1_0000_0000) as u32).to_le_bytes(),
            ),
            StoreKind::Double => self.fill(address, 8, &value.to_le_bytes()),
        }
    }
}
