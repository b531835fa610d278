// Runs of whole programs, whose words are those of another assembler (LLVM's) and whose results were
// computed apart.
ghost use Rattle.std.specs.Prelude.{◌≡◌, ◌≤◌, All, IfOk, length, vec_len};
ghost use Rattle.rv_machine.specs.Image.{BytesFit};

use crate::image::{ImageView, Range};
use crate::machine::Machine;
use crate::stop::Stop;
use odc_io::{MemSink, MemSource};
use odc_text::check::Check;
use odc_text::place::{FileId, Place};
use rv_table::effect::Event;
use std::alloc::{AllocError, Global};
use std::test::Fail;

pub const BEFORE: [u32; 5] = [0x500002b7, 0x500013b7, 0x31028313, 0x0002b503, 0x0082b583];

pub const AFTER: [u32; 12] = [
    0x00c3b023, 0x01028293, 0x00838393, 0xfe6294e3, 0x00100513, 0x500015b7, 0x18800613, 0x04000893,
    0x00000073, 0x00000513, 0x05d00893, 0x00000073,
];

const EDGES: [u64; 7] = [
    0x0000000000000000,
    0x0000000000000001,
    0xffffffffffffffff,
    0x8000000000000000,
    0x7fffffffffffffff,
    0x0000000080000000,
    0x00000000ffffffff,
];
// An instruction on x10 and x11 that gives x12, and a checksum (64-bit FNV-1a) of the 49 results, computed apart.
pub const CASES: [(u32, u64); 77] = [
    (0x00b50633, 0x97ad9a9249312c4a), // add x12, x10, x11
    (0x40b50633, 0x4b4ca5c1feef059e), // sub x12, x10, x11
    (0x00b51633, 0x68d57257dabddf77), // sll x12, x10, x11
    (0x00b52633, 0x133dbd70348a1764), // slt x12, x10, x11
    (0x00b53633, 0x63c4df90978b4ae4), // sltu x12, x10, x11
    (0x00b54633, 0xaee11b1b2e896995), // xor x12, x10, x11
    (0x00b55633, 0x6a6559d1c59ce894), // srl x12, x10, x11
    (0x40b55633, 0xea31bb3a160c5784), // sra x12, x10, x11
    (0x00b56633, 0xb798497a98003ea0), // or x12, x10, x11
    (0x00b57633, 0xa582cd24c0a334d0), // and x12, x10, x11
    (0x02b50633, 0xcd6991f062aff680), // mul x12, x10, x11
    (0x02b51633, 0xbf28ddc74795934d), // mulh x12, x10, x11
    (0x02b52633, 0x039fcc5e380a6b31), // mulhsu x12, x10, x11
    (0x02b53633, 0xec2f265a8594427c), // mulhu x12, x10, x11
    (0x02b54633, 0x49261d6b75e28354), // div x12, x10, x11
    (0x02b55633, 0xb44c7235d7204f62), // divu x12, x10, x11
    (0x02b56633, 0x8ec7eb3550283408), // rem x12, x10, x11
    (0x02b57633, 0xd50b44c9314ea09d), // remu x12, x10, x11
    (0x00b5063b, 0x69ee3336d73b664e), // addw x12, x10, x11
    (0x40b5063b, 0x11a1c2c74c51d2de), // subw x12, x10, x11
    (0x00b5163b, 0x4458b04ceaa8610b), // sllw x12, x10, x11
    (0x00b5563b, 0x647115dcb486e644), // srlw x12, x10, x11
    (0x40b5563b, 0xbc041669dd36abb4), // sraw x12, x10, x11
    (0x02b5063b, 0xb9bb2055db7cb375), // mulw x12, x10, x11
    (0x02b5463b, 0x06764e3218d07f74), // divw x12, x10, x11
    (0x02b5563b, 0x4bab1ea0f41cc4f9), // divuw x12, x10, x11
    (0x02b5663b, 0x717aea5cd25dd434), // remw x12, x10, x11
    (0x02b5763b, 0xd6b36ee7ff8586b5), // remuw x12, x10, x11
    (0x00050613, 0x1e947a77e87ae338), // addi x12, x10, 0
    (0xfff50613, 0x1ccbff40337ab42c), // addi x12, x10, -1
    (0x80050613, 0x8b5199219146bb84), // addi x12, x10, -2048
    (0x7ff50613, 0x643d446d074721e9), // addi x12, x10, 2047
    (0x00052613, 0x3412ab24a4bf40e5), // slti x12, x10, 0
    (0xfff52613, 0xc6111d157e4052a4), // slti x12, x10, -1
    (0x80052613, 0xc6111d157e4052a4), // slti x12, x10, -2048
    (0x7ff52613, 0xd6b9017c78cf2205), // slti x12, x10, 2047
    (0x00053613, 0x854a12c5d39e57c5), // sltiu x12, x10, 0
    (0xfff53613, 0xf94808f812529b25), // sltiu x12, x10, -1
    (0x80053613, 0xf94808f812529b25), // sltiu x12, x10, -2048
    (0x7ff53613, 0x27f0691da7ae38e5), // sltiu x12, x10, 2047
    (0x00054613, 0x1e947a77e87ae338), // xori x12, x10, 0
    (0xfff54613, 0x281466657e5d9388), // xori x12, x10, -1
    (0x80054613, 0xf26ac25236f01346), // xori x12, x10, -2048
    (0x7ff54613, 0xef5c7c3c47be5c6a), // xori x12, x10, 2047
    (0x00056613, 0x1e947a77e87ae338), // ori x12, x10, 0
    (0xfff56613, 0x0cf94affe79e98bd), // ori x12, x10, -1
    (0x80056613, 0xddbcb7518aa39b64), // ori x12, x10, -2048
    (0x7ff56613, 0x472f0b603b99e7f1), // ori x12, x10, 2047
    (0x00057613, 0x854a12c5d39e57c5), // andi x12, x10, 0
    (0xfff57613, 0x1e947a77e87ae338), // andi x12, x10, -1
    (0x80057613, 0x9c9f614a26712013), // andi x12, x10, -2048
    (0x7ff57613, 0xedb0de2a462f063a), // andi x12, x10, 2047
    (0x0005061b, 0x223dd774cf5a76c0), // addiw x12, x10, 0
    (0xfff5061b, 0x23d0ee545d23eb30), // addiw x12, x10, -1
    (0x8005061b, 0xd44d542476aea5c8), // addiw x12, x10, -2048
    (0x7ff5061b, 0x7393ce1e7d539f5c), // addiw x12, x10, 2047
    (0x00051613, 0x1e947a77e87ae338), // slli x12, x10, 0
    (0x00151613, 0x6912eea2d7b15aba), // slli x12, x10, 1
    (0x02051613, 0xee7ebf278d20cb00), // slli x12, x10, 32
    (0x03f51613, 0x69392472e86ba7c5), // slli x12, x10, 63
    (0x00055613, 0x1e947a77e87ae338), // srli x12, x10, 0
    (0x00155613, 0x9e920808fdf7c6d9), // srli x12, x10, 1
    (0x02055613, 0x135f99575fd0784d), // srli x12, x10, 32
    (0x03f55613, 0x3412ab24a4bf40e5), // srli x12, x10, 63
    (0x40055613, 0x1e947a77e87ae338), // srai x12, x10, 0
    (0x40155613, 0xe325e09a7e6e01d9), // srai x12, x10, 1
    (0x42055613, 0xb11175fa272a1ed5), // srai x12, x10, 32
    (0x43f55613, 0xf32e33ac72b1b355), // srai x12, x10, 63
    (0x0005161b, 0x223dd774cf5a76c0), // slliw x12, x10, 0
    (0x0015161b, 0x7d74af0b713b0a1e), // slliw x12, x10, 1
    (0x01f5161b, 0x0213e467ff156e55), // slliw x12, x10, 31
    (0x0005561b, 0x223dd774cf5a76c0), // srliw x12, x10, 0
    (0x0015561b, 0x91e28cd0abf2c951), // srliw x12, x10, 1
    (0x01f5561b, 0x056a4aff0f63a325), // srliw x12, x10, 31
    (0x4005561b, 0x223dd774cf5a76c0), // sraiw x12, x10, 0
    (0x4015561b, 0xbf8278981cfff4e1), // sraiw x12, x10, 1
    (0x41f5561b, 0x38a382011a7b9be5), // sraiw x12, x10, 31
];

const DATA: u64 = 0x5000_0000;

const TEXT: u64 = 0x1_0000;

const DATA_SIZE: u64 = 0x2000;

fn text(alloc: Global, words: &[u32]) -> Result<Range, AllocError>
    ensures { IfOk result BytesFit }
{
    let mut bytes = Vec::new(alloc);
    for word in words {
        bytes.extend_from_slice(&word.to_le_bytes())?;
    }
    Ok(Range {
        start: TEXT,
        size: bytes.len() as u64,
        readable: true,
        writable: false,
        executable: true,
        bytes,
    })
}

fn data(alloc: Global, start: u64, bytes: &[u8]) -> Result<Range, AllocError>
    requires { length bytes.now ≤ 0x2000 }
    ensures { IfOk result BytesFit }
{
    Ok(Range {
        start,
        size: DATA_SIZE,
        readable: true,
        writable: true,
        executable: false,
        bytes: Vec::from_slice(alloc, bytes)?,
    })
}

pub fn image(alloc: Global, words: &[u32], bytes: &[u8]) -> Result<ImageView, AllocError>
    requires { length bytes.now ≤ 0x2000 }
    ensures { IfOk result (λ v. All BytesFit v.ranges.items) }
{
    let mut ranges = Vec::new(alloc);
    ranges.push(text(alloc, words)?)?;
    ranges.push(data(alloc, DATA, bytes)?)?;
    Ok(ImageView {
        ranges,
        entry: TEXT,
        sites: Vec::new(alloc),
        calls: Vec::new(alloc),
    })
}

// How a run of at most so many steps ends, and what it gives.
pub fn run(
    alloc: Global,
    view: &ImageView,
    steps: u64,
    input: &[u8],
) -> Result<(Stop, Vec<u8>), AllocError>
    requires { All BytesFit view.now.ranges.items }
{
    let mut machine = Machine::load(alloc, view, false)?;
    let mut source = MemSource::new(Vec::from_slice(alloc, input)?, Vec::new(alloc));
    let mut out = MemSink::new(alloc, 4096, Vec::new(alloc))?;
    let mut err = MemSink::new(alloc, 4096, Vec::new(alloc))?;
    let stop = machine.run(steps, &mut source, &mut out, &mut err);
    Ok((stop, Vec::from_slice(alloc, &out.written)?))
}

fn checksum(bytes: &[u8]) -> u64 {
    let mut sum: u64 = 0xcbf2_9ce4_8422_2325;
    for byte in bytes {
        sum = (sum ^ u64::from(*byte)).wrapping_mul(0x100_0000_01b3);
    }
    sum
}

pub fn pairs(alloc: Global) -> Result<Vec<u8>, AllocError> {
    let mut bytes = Vec::new(alloc);
    for a in EDGES {
        for b in EDGES {
            bytes.extend_from_slice(&a.to_le_bytes())?;
            bytes.extend_from_slice(&b.to_le_bytes())?;
        }
    }
    Ok(bytes)
}

#[test]
fn arithmetic_at_the_edges(rt: HostRuntime) -> Result<(), Fail> {
    let alloc = rt.alloc();
    let edges = pairs(alloc)?;
    assert!(rt; edges.len() <= 0x2000);
    for (word, want) in CASES {
        let mut words = Vec::from_slice(alloc, &BEFORE)?;
        words.push(word)?;
        words.extend_from_slice(&AFTER)?;
        let view = image(alloc, &words, &edges)?;
        let (stop, out) = run(alloc, &view, 1000, &[])?;
        assert!(rt; matches!(stop, Stop::Exited { code: 0 }));
        assert_eq!(rt; checksum(&out), want, "{word:08x}");
    }
    Ok(())
}

#[test]
fn loads_extend_and_need_not_be_aligned(rt: HostRuntime) -> Result<(), Fail> {
    let alloc = rt.alloc();
    let words = [
        0x500002b7, 0x00128303, 0x1062b023, 0x00129303, 0x1062b423, 0x0012a303, 0x1062b823,
        0x0012b303, 0x1062bc23, 0x0012c303, 0x1262b023, 0x0012d303, 0x1262b423, 0x0012e303,
        0x1262b823, 0x00100513, 0x10028593, 0x03800613, 0x04000893, 0x00000073, 0x05d00893,
        0x12c00513, 0x00000073,
    ];
    let view = image(
        alloc,
        &words,
        &[0x11, 0x80, 0x91, 0xa2, 0xb3, 0xc4, 0xd5, 0xe6, 0xf7, 0x08],
    )?;
    let (stop, out) = run(alloc, &view, 100, &[])?;
    assert!(rt; matches!(stop, Stop::Exited { code: 44 }));
    let want: [u8; 56] = [
        0x80, 0xff, 0xff, 0xff, 0xff, 0xff, 0xff, 0xff, 0x80, 0x91, 0xff, 0xff, 0xff, 0xff, 0xff,
        0xff, 0x80, 0x91, 0xa2, 0xb3, 0xff, 0xff, 0xff, 0xff, 0x80, 0x91, 0xa2, 0xb3, 0xc4, 0xd5,
        0xe6, 0xf7, 0x80, 0x00, 0x00, 0x00, 0x00, 0x00, 0x00, 0x00, 0x80, 0x91, 0x00, 0x00, 0x00,
        0x00, 0x00, 0x00, 0x80, 0x91, 0xa2, 0xb3, 0x00, 0x00, 0x00, 0x00,
    ];
    assert_eq!(rt; out.as_slice(), want.as_slice());
    Ok(())
}

#[test]
fn a_buffer_outside_every_range_traps(rt: HostRuntime) -> Result<(), Fail> {
    let alloc = rt.alloc();
    let view = image(
        alloc,
        &[0x04000893, 0x00100513, 0x00800613, 0x00000073],
        &[],
    )?;
    let (stop, out) = run(alloc, &view, 100, &[])?;
    assert!(rt; matches!(stop, Stop::Trapped { pc: 0x1000c }));
    assert!(rt; out.is_empty());
    Ok(())
}

#[test]
fn a_word_in_no_row_traps(rt: HostRuntime) -> Result<(), Fail> {
    let alloc = rt.alloc();
    let view = image(alloc, &[0], &[])?;
    let (stop, _) = run(alloc, &view, 100, &[])?;
    assert!(rt; matches!(stop, Stop::Trapped { pc: 0x10000 }));
    Ok(())
}

#[test]
fn a_jump_to_half_a_word_traps(rt: HostRuntime) -> Result<(), Fail> {
    let alloc = rt.alloc();
    let view = image(alloc, &[0x0060006f], &[])?;
    let (stop, _) = run(alloc, &view, 100, &[])?;
    assert!(rt; matches!(stop, Stop::Trapped { pc: 0x10000 }));
    Ok(())
}

#[test]
fn a_store_across_two_ranges_traps(rt: HostRuntime) -> Result<(), Fail> {
    let alloc = rt.alloc();
    let mut view = image(
        alloc,
        &[0x500022b7, 0xffc28293, 0x0052a023, 0x0052b023],
        &[],
    )?;
    view.ranges.push(data(alloc, DATA + DATA_SIZE, &[])?)?;
    let (stop, _) = run(alloc, &view, 100, &[])?;
    assert!(rt; matches!(stop, Stop::Trapped { pc: 0x1000c }));
    Ok(())
}

#[test]
fn the_input_is_echoed_to_its_end(rt: HostRuntime) -> Result<(), Fail> {
    let alloc = rt.alloc();
    let words = [
        0x00000513, 0x500005b7, 0x00300613, 0x03f00893, 0x00000073, 0x00050e63, 0x00050613,
        0x00100513, 0x04000893, 0x00000073, 0xfd9ff06f, 0x00000013, 0x00060513, 0x05d00893,
        0x00000073,
    ];
    let view = image(alloc, &words, &[])?;
    let (stop, out) = run(alloc, &view, 1000, b"odin_rv")?;
    assert!(rt; matches!(stop, Stop::Exited { code: 3 }));
    assert_eq!(rt; out.as_slice(), b"odin_rv".as_slice());
    Ok(())
}

#[test]
fn checks_at_listed_sites(rt: HostRuntime) -> Result<(), Fail> {
    let alloc = rt.alloc();
    let site = Place {
        file: FileId { number: 0 },
        line: 4,
        column: 38,
    };
    let mut view = image(alloc, &[0x00300513, 0x00100593, 0x00100073], &[])?;
    view.sites.push((Check::Index, site))?;
    view.sites.push((Check::Division, site))?;
    let (stop, _) = run(alloc, &view, 100, &[])?;
    assert!(rt;
        matches!(
            stop,
            Stop::Checked {
                check: Check::Division,
                at: Place {
                    line: 4,
                    column: 38,
                    ..
                }
            }
        )
    );
    let mut other = image(alloc, &[0x00400513, 0x00100593, 0x00100073], &[])?;
    other.sites.push((Check::Index, site))?;
    other.sites.push((Check::Division, site))?;
    let (stop, _) = run(alloc, &other, 100, &[])?;
    assert!(rt; matches!(stop, Stop::Trapped { pc: 0x10008 }));
    Ok(())
}

#[test]
fn an_endless_loop_takes_all_steps(rt: HostRuntime) -> Result<(), Fail> {
    let alloc = rt.alloc();
    let view = image(alloc, &[0x0000006f], &[])?;
    let (stop, _) = run(alloc, &view, 1000, &[])?;
    assert!(rt; matches!(stop, Stop::StepsOut));
    let (stop, _) = run(alloc, &view, 0, &[])?;
    assert!(rt; matches!(stop, Stop::StepsOut));
    Ok(())
}

#[test]
fn a_listed_jump_by_x5_is_an_event(rt: HostRuntime) -> Result<(), Fail> {
    let alloc = rt.alloc();
    let mut view = image(
        alloc,
        &[0x000102b7, 0x00d28293, 0x00700513, 0x000280e7, 0x00128067],
        &[],
    )?;
    view.calls.push(0x1_000c)?;
    let mut machine = Machine::load(alloc, &view, false)?;
    for _ in 0..3 {
        assert!(rt; matches!(machine.step(), Event::Next));
    }
    // The target is x5 with bit 0 cleared, this instruction itself; the second time x5 is the same.
    assert!(rt; matches!(machine.step(), Event::AllocCall));
    assert!(rt; matches!(machine.step(), Event::AllocCall));
    Ok(())
}

#[test]
fn faults_end_a_run(rt: HostRuntime) -> Result<(), Fail> {
    let alloc = rt.alloc();
    let view = image(
        alloc,
        &[
            0x500005b7, 0x00200613, 0x00100513, 0x04000893, 0x00000073, 0x00200513, 0x00000073,
            0x00300513, 0x00000073, 0x40a00533, 0x05d00893, 0x00000073,
        ],
        b"ab",
    )?;
    for call in 1..3 {
        let mut machine = Machine::load(alloc, &view, false)?;
        let mut source = MemSource::new(Vec::new(alloc), Vec::new(alloc));
        let mut out = MemSink::new(alloc, 8, vec![in alloc; call]?)?;
        let mut err = MemSink::new(alloc, 8, vec![in alloc; 1]?)?;
        let stop = machine.run(100, &mut source, &mut out, &mut err);
        assert!(rt; matches!(stop, Stop::WriteFault));
        assert_eq!(rt; out.written.len(), if call == 1 { 0 } else { 2 });
        assert_eq!(rt; err.written.len(), 0);
    }
    let words = [
        0x00000513, 0x500005b7, 0x00300613, 0x03f00893, 0x00000073, 0x00050e63, 0x00050613,
        0x00100513, 0x04000893, 0x00000073, 0xfd9ff06f, 0x00000013, 0x00060513, 0x05d00893,
        0x00000073,
    ];
    let view = image(alloc, &words, &[])?;
    let mut machine = Machine::load(alloc, &view, false)?;
    let mut source = MemSource::new(Vec::from_slice(alloc, b"odin_rv")?, vec![in alloc; 2]?);
    let mut out = MemSink::new(alloc, 8, Vec::new(alloc))?;
    let mut err = MemSink::new(alloc, 8, Vec::new(alloc))?;
    let stop = machine.run(100, &mut source, &mut out, &mut err);
    assert!(rt; matches!(stop, Stop::ReadFault));
    assert_eq!(rt; out.written.as_slice(), b"odi".as_slice());
    Ok(())
}

#[test]
fn another_descriptor_answers_minus_nine(rt: HostRuntime) -> Result<(), Fail> {
    let alloc = rt.alloc();
    let view = image(
        alloc,
        &[
            0x500005b7, 0x00200613, 0x00100513, 0x04000893, 0x00000073, 0x00200513, 0x00000073,
            0x00300513, 0x00000073, 0x40a00533, 0x05d00893, 0x00000073,
        ],
        b"ab",
    )?;
    let (stop, out) = run(alloc, &view, 100, &[])?;
    assert!(rt; matches!(stop, Stop::Exited { code: 9 }));
    assert_eq!(rt; out.as_slice(), b"ab".as_slice());
    Ok(())
}
