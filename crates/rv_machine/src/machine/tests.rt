// The machine beside its plain body: `step` decodes each word anew, `run` carries out decoded text.
ghost use Rattle.std.specs.Prelude.{◌≡◌, ◌+◌, ◌*◌, ◌≤◌, All, IfOk, length, vec_len};
ghost use Rattle.rv_machine.specs.Image.{BytesFit};

use crate::image::{ImageView, Range};
use crate::machine::Machine;
use crate::stop::Stop;
use crate::tests::{AFTER, BEFORE, CASES, image, pairs, run};
use odc_io::{MemSink, MemSource};
use rv_table::effect::Event;
use std::alloc::{AllocError, Global};
use std::test::Fail;

const EXIT_7: [u32; 3] = [0x00700513, 0x05d00893, 0x00000073];

const EXIT_9: [u32; 3] = [0x00900513, 0x05d00893, 0x00000073];

// A range of text, which begins with so many bytes of 0.
fn text(
    alloc: Global,
    start: u64,
    zeros: u8,
    words: &[u32],
    writable: bool,
) -> Result<Range, AllocError>
    ensures { IfOk result BytesFit }
{
    let mut bytes = Vec::new(alloc);
    for _ in 0..zeros {
        bytes.push(0)?;
    }
    for word in words {
        bytes.extend_from_slice(&word.to_le_bytes())?;
    }
    Ok(Range {
        start,
        size: bytes.len() as u64,
        readable: true,
        writable,
        executable: true,
        bytes,
    })
}

fn image_of(alloc: Global, text: Range, entry: u64) -> Result<ImageView, AllocError>
    requires { BytesFit text }
    ensures { IfOk result (λ v. All BytesFit v.ranges.items) }
{
    let mut ranges = Vec::new(alloc);
    ranges.push(text)?;
    Ok(ImageView {
        ranges,
        entry,
        sites: Vec::new(alloc),
        calls: Vec::new(alloc),
    })
}

// So many instructions more; false where the run ends before.
fn runs_on(alloc: Global, machine: &mut Machine, steps: u64) -> Result<bool, AllocError> {
    let mut input = MemSource::new(Vec::new(alloc), Vec::new(alloc));
    let mut out = MemSink::new(alloc, 0, Vec::new(alloc))?;
    let mut err = MemSink::new(alloc, 0, Vec::new(alloc))?;
    let stop = machine.run(steps, &mut input, &mut out, &mut err);
    Ok(matches!(stop, Stop::StepsOut))
}

// The registers and the program counter are the same.
fn agree(machine: &Machine, plain: &Machine) -> bool {
    for number in 0..32u8 {
        if machine.hart.read(number) != plain.hart.read(number) {
            return false;
        }
    }
    machine.hart.pc() == plain.hart.pc()
}

// Carries out an image by both, up to the first ECALL, EBREAK or trap, but at most so many steps: by
// `step`, by `run` one at a time, and by `run` at once. Says how many; None where they differ.
fn compared(alloc: Global, view: &ImageView, steps: u64) -> Result<Option<u64>, AllocError>
    requires { All BytesFit view.now.ranges.items }
{
    let mut plain = Machine::load(alloc, view, false)?;
    let mut machine = Machine::load(alloc, view, false)?;
    let mut done = steps;
    for step in 0..steps {
        if !matches!(plain.step(), Event::Next | Event::AllocCall) {
            done = step;
            break;
        }
        if !runs_on(alloc, &mut machine, 1)? || !agree(&machine, &plain) {
            return Ok(None);
        }
    }
    let mut whole = Machine::load(alloc, view, false)?;
    let same = runs_on(alloc, &mut whole, done)? && agree(&whole, &plain);
    Ok(if same { Some(done) } else { None })
}

#[test]
fn decoded_text_runs_as_the_plain_body_does(rt: HostRuntime) -> Result<(), Fail> {
    let alloc = rt.alloc();
    let edges = pairs(alloc)?;
    assert!(rt; edges.len() <= 0x2000);
    for (word, _) in CASES {
        let mut words = Vec::from_slice(alloc, &BEFORE)?;
        words.push(word)?;
        words.extend_from_slice(&AFTER)?;
        let view = image(alloc, &words, &edges)?;
        assert_eq!(rt; compared(alloc, &view, 1000)?, Some(350), "{word:08x}");
    }
    Ok(())
}

#[test]
fn text_that_may_be_written_is_read_anew(rt: HostRuntime) -> Result<(), Fail> {
    let alloc = rt.alloc();
    // On its second turn the loop adds 40, by a word that its first turn put over the one that adds 1.
    let words = [
        0x000102b7, 0x0282a303, 0x00200393, 0x00150513, 0x0062a623, 0xfff38393, 0xfe039ae3,
        0x05d00893, 0x00000073, 0x00000000, 0x02850513,
    ];
    let view = image_of(alloc, text(alloc, 0x1_0000, 0, &words, true)?, 0x1_0000)?;
    let (stop, _) = run(alloc, &view, 100, &[])?;
    assert!(rt; matches!(stop, Stop::Exited { code: 41 }));
    assert_eq!(rt; compared(alloc, &view, 100)?, Some(12));
    Ok(())
}

#[test]
fn a_store_into_text_traps(rt: HostRuntime) -> Result<(), Fail> {
    let alloc = rt.alloc();
    let words = [0x000102b7, 0x0002a023];
    let view = image_of(alloc, text(alloc, 0x1_0000, 0, &words, false)?, 0x1_0000)?;
    let (stop, _) = run(alloc, &view, 100, &[])?;
    assert!(rt; matches!(stop, Stop::Trapped { pc: 0x1_0004 }));
    assert_eq!(rt; compared(alloc, &view, 100)?, Some(1));
    Ok(())
}

#[test]
fn text_may_begin_anywhere(rt: HostRuntime) -> Result<(), Fail> {
    let alloc = rt.alloc();
    for (start, zeros) in [(0x1_0002, 0), (0x1_0000, 2), (0x1_0001, 4), (0x1_0003, 1)] {
        let range = text(alloc, start, zeros, &EXIT_7, false)?;
        let view = image_of(alloc, range, start + u64::from(zeros))?;
        let (stop, _) = run(alloc, &view, 100, &[])?;
        assert!(rt;
            matches!(stop, Stop::Exited { code: 7 }),
            "{start}, {zeros}"
        );
        assert_eq!(rt; compared(alloc, &view, 100)?, Some(2));
    }
    Ok(())
}

#[test]
fn text_may_end_within_a_word(rt: HostRuntime) -> Result<(), Fail> {
    let alloc = rt.alloc();
    // Behind the text stand zeros, which make its last two bytes the word of addi x10, x0, 0.
    let mut range = text(alloc, 0x1_0000, 0, &[0x00700513, 0x00000513], false)?;
    range.bytes.truncate(6);
    range.size = 12;
    let view = image_of(alloc, range, 0x1_0000)?;
    let (stop, _) = run(alloc, &view, 100, &[])?;
    assert!(rt; matches!(stop, Stop::Trapped { pc: 0x1_0008 }));
    assert_eq!(rt; compared(alloc, &view, 100)?, Some(2));
    Ok(())
}

#[test]
fn the_first_of_two_ranges_is_fetched(rt: HostRuntime) -> Result<(), Fail> {
    let alloc = rt.alloc();
    let first = text(alloc, 0x1_0000, 0, &EXIT_9, true)?;
    let mut view = image_of(alloc, first, 0x1_0000)?;
    view.ranges.push(text(alloc, 0x1_0000, 0, &EXIT_7, false)?)?;
    let (stop, _) = run(alloc, &view, 100, &[])?;
    assert!(rt; matches!(stop, Stop::Exited { code: 9 }));
    assert_eq!(rt; compared(alloc, &view, 100)?, Some(2));
    Ok(())
}

#[test]
fn a_jump_by_x5_goes_on(rt: HostRuntime) -> Result<(), Fail> {
    let alloc = rt.alloc();
    let words = [
        0x000102b7, 0x00c280e7, 0x00000000, 0x00700513, 0x05d00893, 0x00000073,
    ];
    let mut view = image_of(alloc, text(alloc, 0x1_0000, 0, &words, false)?, 0x1_0000)?;
    assert_eq!(rt; compared(alloc, &view, 100)?, Some(4));
    view.calls.push(0x1_0004)?;
    assert_eq!(rt; compared(alloc, &view, 100)?, Some(4));
    let (stop, _) = run(alloc, &view, 100, &[])?;
    assert!(rt; matches!(stop, Stop::Exited { code: 7 }));
    Ok(())
}
