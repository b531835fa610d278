// The line and the number of each status.
use odc_text::check::Check;
use odc_text::code::{Code, Fault};
use odc_text::place::{FileId, Place};
use odc_tool::status::{Status, exit_number, status_line};
use std::test::Fail;

fn told(rt: &HostRuntime, s: Status, line: &str, number: u8) -> Result<bool, Fail> {
    let text = status_line(rt.alloc(), &s, b"sub/f.odin", "frob")?;
    Ok(text.as_slice() == line.as_bytes() && exit_number(&s) == number)
}

#[test]
fn each_status_has_its_line_and_number(rt: HostRuntime) -> Result<(), Fail> {
    let at = Place {
        file: FileId { number: 0 },
        line: 3,
        column: 14,
    };
    let fault = Fault {
        code: Code::N00,
        at,
    };
    let check = Check::Index;
    assert!(rt; told(&rt, Status::Done, "", 0)?);
    assert!(rt; told(&rt, Status::Exited { code: 77 }, "", 77)?);
    let line = "sub/f.odin:3:14: N00 not in this profile\n";
    assert!(rt; told(&rt, Status::Refused { fault }, line, 1)?);
    assert!(rt;
        told(
            &rt,
            Status::Usage { word: 1 },
            "odin_rv: bad word frob\n",
            2
        )?
    );
    let line = "sub/f.odin:3:14: stopped: index\n";
    assert!(rt; told(&rt, Status::Stopped { check, at }, line, 3)?);
    let line = "odin_rv: stopped after 1000000000 steps\n";
    assert!(rt; told(&rt, Status::StepsOut { steps: 1000000000 }, line, 4)?);
    assert!(rt;
        told(
            &rt,
            Status::Trapped { pc: 0x8000abc0 },
            "odin_rv: trap at 0x8000abc0\n",
            5
        )?
    );
    assert!(rt; told(&rt, Status::Strayed { at }, "sub/f.odin:3:14: strayed\n", 6)?);
    let line = "odin_rv: bad image, rule 12 at 4096\n";
    assert!(rt;
        told(
            &rt,
            Status::BadImage {
                rule: 12,
                offset: 4096
            },
            line,
            7
        )?
    );
    assert!(rt; told(&rt, Status::FolderFault, "odin_rv: folder fault\n", 8)?);
    assert!(rt; told(&rt, Status::ReadFault, "odin_rv: read fault\n", 9)?);
    assert!(rt; told(&rt, Status::WriteFault, "odin_rv: write fault\n", 10)?);
    assert!(rt; told(&rt, Status::Memory, "odin_rv: no memory\n", 11)?);
    let line = "odin_rv: stopped after 0 turns\n";
    assert!(rt; told(&rt, Status::TurnsOut { turns: 0 }, line, 12)?);
    Ok(())
}
