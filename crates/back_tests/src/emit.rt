//! A program of two procedures, and the words of its text by the formats of the RISC-V manual.

ghost use Rattle.std.specs.Prelude.{◌≡◌, [], ◌∷◌, IfOk};
ghost use Rattle.odc_mid.specs.Tree.{Whole};
ghost use Rattle.odc_mid.specs.View.{proc, program};
ghost use Rattle.odc_mid.specs.Well.{IsWell, IsWellProc, parameters_of};

use odc_mid::tree::{MidProcedure, MidProgram, MidStep};
use odc_text::check::Check;
use odc_text::place::{FileId, Place};
use rv_emit::image::{emit, image};
use rv_emit::limits::{have_slots, is_short};
use rv_emit::unlinked::HoleKind;
use std::alloc::{AllocError, Global};
use std::test::Fail;

/// The stack, the call of `main` at 0x10258, and the exit.
const START: [u32; 10] = [
    0x00100113, 0x01f11113, 0x00010337, 0x12c30313, 0x12c30313, 0x00030313, 0x000300e7, 0x00000513,
    0x05d00893, 0x00000073,
];

/// The entry of `main`: its stack check, which has site 1, the frame of 32 bytes, the return address.
const ENTRY: [u32; 17] = [
    0x78000337, 0x01030313, 0x01030313, 0x00030313, 0x00617e63, 0x00600513, 0x000005b7, 0x00058593,
    0x00058593, 0x00158593, 0x00100073, 0x00000337, 0x01030313, 0x01030313, 0x00030313, 0x40610133,
    0x00113023,
];

/// The word 42 into the slot of the temporary 0, at 24 in the frame.
const CONST: [u32; 16] = [
    0x00000337, 0x00030313, 0x00030313, 0x00030313, 0x00b31313, 0x00030313, 0x00b31313, 0x00030313,
    0x00b31313, 0x02a30313, 0x000003b7, 0x00c38393, 0x00c38393, 0x00038393, 0x002383b3, 0x0063b023,
];

/// The check `index` of the temporary 0, which has site 2.
const CHECK: [u32; 13] = [
    0x00000337, 0x00c30313, 0x00c30313, 0x00030313, 0x00230333, 0x00033303, 0x00031e63, 0x00100513,
    0x000005b7, 0x00158593, 0x00158593, 0x00058593, 0x00100073,
];

/// The call of the procedure at 0x10028 with the temporary 0, whose answer goes to the temporary 1.
const CALL: [u32; 32] = [
    0x00000337, 0x00430313, 0x00430313, 0x00030313, 0x40610333, 0x780003b7, 0x00038393, 0x00038393,
    0x00038393, 0x00010413, 0x00737663, 0x00100413, 0x01f41413, 0x00000337, 0x00c30313, 0x00c30313,
    0x00030313, 0x00230333, 0x00033303, 0xff840413, 0x00643023, 0x00010337, 0x01430313, 0x01430313,
    0x00030313, 0x000300e7, 0x000003b7, 0x00838393, 0x00838393, 0x00038393, 0x002383b3, 0x00a3b023,
];

/// The branch by the temporary 1 to the last step, whose code stands 92 bytes behind the jump.
const BRANCH: [u32; 14] = [
    0x00000337, 0x00830313, 0x00830313, 0x00030313, 0x00230333, 0x00033303, 0x02030063, 0x00000317,
    0x000003b7, 0x02e38393, 0x02e38393, 0x00038393, 0x00730333, 0x00030067,
];

/// The answer in `a0`, the frame given up, and back.
const RETURN: [u32; 13] = [
    0x00000537, 0x00850513, 0x00850513, 0x00050513, 0x00250533, 0x00053503, 0x00013083, 0x00000337,
    0x01030313, 0x01030313, 0x00030313, 0x00610133, 0x00008067,
];

/// A place in the first file.
fn place(line: u32, column: u32) -> Place {
    let file = FileId { number: 0 };
    Place { file, line, column }
}

/// A procedure of one parameter that calls an allocator by it.
fn asking(alloc: Global) -> Result<MidProcedure, AllocError>
    ensures parameters { IfOk result (λ q. q.parameters ≡ 1) }
    ensures well { IfOk result (λ q. (w : Whole) → parameters_of w.procedures ≡ 1 ∷ 0 ∷ [] → IsWellProc w (proc q)) }
{
    let name = String::from_str(alloc, "asking")?;
    let arguments = Vec::from_slice(alloc, &[0, 0, 0, 0, 0, 0])?;
    let ask = MidStep::CallValue {
        to: 1,
        target: 0,
        arguments,
        marked: true,
    };
    let steps = vec![in alloc; ask, MidStep::Return { value: 1 }]?;
    Ok(MidProcedure {
        name,
        at: place(1, 11),
        parameters: 1,
        variables: Vec::new(alloc),
        frame: 32,
        temporaries: 2,
        steps,
    })
}

/// A procedure that checks a word, calls the first procedure with it, and answers that answer or 7.
fn checking(alloc: Global) -> Result<MidProcedure, AllocError>
    ensures parameters { IfOk result (λ q. q.parameters ≡ 0) }
    ensures well { IfOk result (λ q. (w : Whole) → parameters_of w.procedures ≡ 1 ∷ 0 ∷ [] → IsWellProc w (proc q)) }
{
    let name = String::from_str(alloc, "checking")?;
    let check = MidStep::Check {
        condition: 0,
        check: Check::Index,
        at: place(5, 9),
    };
    let arguments = Vec::from_slice(alloc, &[0])?;
    let call = MidStep::Call {
        to: 1,
        procedure: 0,
        arguments,
    };
    let branch = MidStep::Branch {
        condition: 1,
        label: 5,
    };
    let steps = vec![in alloc;
        MidStep::Const { to: 0, word: 42 },
        check,
        call,
        branch,
        MidStep::Const { to: 1, word: 7 },
        MidStep::Return { value: 1 },
    ]?;
    Ok(MidProcedure {
        name,
        at: place(4, 9),
        parameters: 0,
        variables: Vec::new(alloc),
        frame: 32,
        temporaries: 2,
        steps,
    })
}

/// Both procedures; the second is called first.
fn both(alloc: Global) -> Result<MidProgram, AllocError>
    ensures { IfOk result (λ p. IsWell (program p)) }
{
    let procedures = vec![in alloc; asking(alloc)?, checking(alloc)?]?;
    Ok(MidProgram {
        procedures,
        addresses: Vec::new(alloc),
        store: Vec::new(alloc),
        store_size: 0,
        main: 1,
        paths: Vec::new(alloc),
    })
}

/// Whether these words stand in a text from a word on.
fn holds(text: &[u8], from: u16, words: &[u32]) -> bool {
    let mut rest = text.iter().skip(4 * usize::from(from));
    for word in words {
        for byte in word.to_le_bytes() {
            if rest.next() != Some(&byte) {
                return false;
            }
        }
    }
    true
}

#[test]
fn a_text_has_the_words_of_the_manual(rt: HostRuntime) -> Result<(), Fail> {
    let alloc = rt.alloc();
    let p = both(alloc)?;
    assert!(rt; have_slots(&p));
    assert!(rt; is_short(&p));
    let image = image(alloc, &p)?;
    assert_eq!(rt; image.text.len(), 4 * 271);
    assert!(rt; holds(&image.text, 0, &START));
    assert!(rt; holds(&image.text, 150, &ENTRY));
    assert!(rt; holds(&image.text, 167, &CONST));
    assert!(rt; holds(&image.text, 183, &CHECK));
    assert!(rt; holds(&image.text, 196, &CALL));
    assert!(rt; holds(&image.text, 228, &BRANCH));
    assert!(rt; holds(&image.text, 258, &RETURN));
    Ok(())
}

#[test]
fn checks_have_sites_and_allocators_have_calls(rt: HostRuntime) -> Result<(), Fail> {
    let alloc = rt.alloc();
    let p = both(alloc)?;
    assert!(rt; have_slots(&p));
    assert!(rt; is_short(&p));
    let image = image(alloc, &p)?;
    let wants = [(6, place(1, 11)), (6, place(4, 9)), (1, place(5, 9))];
    assert_eq!(rt; image.sites.len(), wants.len());
    for (site, want) in image.sites.iter().zip(wants) {
        assert_eq!(rt; site.0.number(), want.0);
        assert!(rt; site.1 == want.1);
    }
    assert_eq!(rt; image.calls.as_slice(), [0x10208].as_slice());
    assert!(rt; holds(&image.text, 130, &[0x000280e7]));
    Ok(())
}

#[test]
fn blocks_have_holes_in_order(rt: HostRuntime) -> Result<(), Fail> {
    let alloc = rt.alloc();
    let p = both(alloc)?;
    assert!(rt; have_slots(&p));
    assert!(rt; is_short(&p));
    let b = emit(alloc, &p)?;
    assert_eq!(rt; b.list.len(), 2);
    assert_eq!(rt; b.main, 1);
    let block = &b.list[1];
    assert_eq!(rt; block.name.as_str(), "checking");
    assert_eq!(rt; block.code.len(), 121);
    // The stack check at 6, the check of the second step at 33 + 8, the call of the third at 46 + 21.
    let wants: [u32; 3] = [6, 41, 67];
    assert_eq!(rt; block.holes.len(), wants.len());
    for (hole, want) in block.holes.iter().zip(wants) {
        assert_eq!(rt; hole.at, want);
    }
    assert!(rt; matches!(block.holes[2].kind, HoleKind::Procedure));
    assert_eq!(rt; b.list[0].calls.as_slice(), [120].as_slice());
    Ok(())
}

#[test]
fn a_frame_without_room_has_no_slots(rt: HostRuntime) -> Result<(), Fail> {
    let alloc = rt.alloc();
    let mut p = both(alloc)?;
    assert!(rt; p.procedures.len() > 1);
    p.procedures[1].temporaries = 3;
    assert!(rt; !have_slots(&p));
    Ok(())
}
