// What no clause says: that memory isn't claimed to be short while it is ample, and each command at
// work, from its words to its bytes and its number.
use odc_io::{MemFile, MemFolder, MemSink, MemSource};
use odc_tool::run::run_tool;
use odc_tool::status::{Status, exit_number};
use std::alloc::{AllocError, Global};
use std::test::Fail;

/// A folder `d` whose only file is a `main.odin` of this text.
fn folder_of(alloc: Global, text: &[u8], fail: Vec<u64>) -> Result<MemFolder, AllocError> {
    let files = vec![in alloc;
        MemFile {
            path: String::from_str(alloc, "d/main.odin")?,
            bytes: Vec::from_slice(alloc, text)?,
        },
    ]?;
    Ok(MemFolder::new(files, fail))
}

fn words_of(alloc: Global, all: &[&str]) -> Result<Vec<String>, AllocError> {
    let mut words = Vec::new(alloc);
    for word in all {
        words.push(String::from_str(alloc, word)?)?;
    }
    Ok(words)
}

/// Carries out a command on a folder and two outputs, with no input.
fn carried_out(
    alloc: Global,
    all: &[&str],
    folder: &mut MemFolder,
    out: &mut MemSink,
    err: &mut MemSink,
) -> Result<Status, AllocError> {
    let words = words_of(alloc, all)?;
    let mut input = MemSource::new(Vec::new(alloc), Vec::new(alloc));
    let mut image = Vec::new(alloc);
    Ok(run_tool(alloc, &words, folder, &mut input, out, err, &mut image))
}

/// Whether the command gives exactly these outputs and this number, and writes no image.
fn gives(
    alloc: Global,
    all: &[&str],
    text: &[u8],
    out: &[u8],
    err: &[u8],
    number: u8,
) -> Result<bool, AllocError> {
    let mut folder = folder_of(alloc, text, Vec::new(alloc))?;
    let mut written = MemSink::new(alloc, 1000, Vec::new(alloc))?;
    let mut told = MemSink::new(alloc, 1000, Vec::new(alloc))?;
    let status = carried_out(alloc, all, &mut folder, &mut written, &mut told)?;
    Ok(
        written.written.as_slice() == out
            && told.written.as_slice() == err
            && exit_number(&status) == number,
    )
}

/// Whether the text prints this, and ends with 0.
fn prints(alloc: Global, text: &[u8], out: &[u8]) -> Result<bool, AllocError> {
    gives(alloc, &["run", "d"], text, out, b"", 0)
}

/// Whether the text is refused as none of the profile.
fn is_refused(alloc: Global, text: &[u8]) -> Result<bool, AllocError> {
    let line = b"main.odin:1:1: N00 not in this profile\n";
    gives(alloc, &["run", "d"], text, b"", line, 1)
}

#[test]
fn a_number_is_printed(rt: HostRuntime) -> Result<(), Fail> {
    let text = b"package main\nimport \"core:fmt\"\nmain :: proc() {\n\tfmt.println(7)\n}\n";
    assert!(rt; prints(rt.alloc(), text, b"7\n")?);
    let text =
        b"package main\nimport \"core:fmt\"\nmain :: proc() {\n\tfmt.println(999999999)\n}\n";
    assert!(rt; prints(rt.alloc(), text, b"999999999\n")?);
    Ok(())
}

#[test]
fn lines_are_printed_in_order(rt: HostRuntime) -> Result<(), Fail> {
    let text =
        b"package main\nimport \"core:fmt\"\nmain :: proc() {\n\tfmt.println(1, 22, 333)\n\tfmt.println(0)\n}\n";
    assert!(rt; prints(rt.alloc(), text, b"1 22 333\n0\n")?);
    Ok(())
}

/// A whole text around the lines of `main`.
fn text_of(alloc: Global, lines: &[u8]) -> Result<Vec<u8>, AllocError> {
    let mut text = Vec::from_slice(
        alloc,
        b"package main\nimport \"core:fmt\"\nmain :: proc() {\n",
    )?;
    text.extend_from_slice(lines)?;
    text.extend_from_slice(b"}\n")?;
    Ok(text)
}

/// Whether `main` of these lines prints this, and ends with 0.
fn lines_print(alloc: Global, lines: &[u8], out: &[u8]) -> Result<bool, AllocError> {
    prints(alloc, &text_of(alloc, lines)?, out)
}

#[test]
fn variables_are_declared_and_assigned(rt: HostRuntime) -> Result<(), Fail> {
    let lines = b"\ta := 9\n\tb := a * a - 2\n\ta = b * b\n\tfmt.println(a, b + 1, 7)\n";
    assert!(rt; lines_print(rt.alloc(), lines, b"6241 80 7\n")?);
    Ok(())
}

#[test]
fn products_wrap_in_64_bits(rt: HostRuntime) -> Result<(), Fail> {
    let lines = b"\ta := 999999999\n\tfmt.println(a * a * a)\n";
    assert!(rt; lines_print(rt.alloc(), lines, b"8515845249265065471\n")?);
    Ok(())
}

#[test]
fn a_negative_result_has_its_sign(rt: HostRuntime) -> Result<(), Fail> {
    let lines = b"\ta := 0\n\tfmt.println(a - 1)\n\tfmt.println(1 - 3)\n";
    assert!(rt; lines_print(rt.alloc(), lines, b"-1\n-2\n")?);
    Ok(())
}

#[test]
fn the_least_int_is_printed(rt: HostRuntime) -> Result<(), Fail> {
    let lines = b"\ta := 256\n\tb := a * a * a * a * a * a * a * 128\n\tfmt.println(0 - b, b)\n";
    let least = b"-9223372036854775808 -9223372036854775808\n";
    assert!(rt; lines_print(rt.alloc(), lines, least)?);
    Ok(())
}

#[test]
fn sums_are_nested_to_the_left(rt: HostRuntime) -> Result<(), Fail> {
    let lines = b"\ta := 7\n\tfmt.println(a - 2 - 1, a - 2 + 1, 2 - 1 - a)\n";
    assert!(rt; lines_print(rt.alloc(), lines, b"4 6 -6\n")?);
    Ok(())
}

#[test]
fn a_redeclared_name_is_refused(rt: HostRuntime) -> Result<(), Fail> {
    let alloc = rt.alloc();
    assert!(rt; is_refused(alloc, &text_of(alloc, b"\ta := 1\n\ta := 2\n")?)?);
    assert!(rt; is_refused(alloc, &text_of(alloc, b"\tfmt.println(a)\n")?)?);
    Ok(())
}

/// A line that declares `a` as 1, and one that prints a sum of so many products of so many factors.
fn sum_text(alloc: Global, muls: usize, factors: usize) -> Result<Vec<u8>, AllocError> {
    let mut lines = Vec::from_slice(alloc, b"\ta := 1\n\tfmt.println(")?;
    for mul in 0..muls {
        if mul != 0 {
            lines.extend_from_slice(b" + ")?;
        }
        for factor in 0..factors {
            if factor != 0 {
                lines.extend_from_slice(b" * ")?;
            }
            lines.extend_from_slice(b"a")?;
        }
    }
    lines.extend_from_slice(b")\n")?;
    text_of(alloc, &lines)
}

#[test]
fn eight_products_of_eight_factors_are_taken(rt: HostRuntime) -> Result<(), Fail> {
    let alloc = rt.alloc();
    assert!(rt; prints(alloc, &sum_text(alloc, 8, 8)?, b"8\n")?);
    assert!(rt; is_refused(alloc, &sum_text(alloc, 9, 8)?)?);
    assert!(rt; is_refused(alloc, &sum_text(alloc, 8, 9)?)?);
    Ok(())
}

#[test]
fn twenty_six_names_are_taken(rt: HostRuntime) -> Result<(), Fail> {
    let alloc = rt.alloc();
    let mut lines = Vec::new(alloc);
    for letter in b'a'..=b'z' {
        lines.extend_from_slice(b"\t")?;
        lines.push(letter)?;
        lines.extend_from_slice(b" := 7\n")?;
    }
    lines.extend_from_slice(b"\tz = 8\n\tfmt.println(a, y, z)\n")?;
    assert!(rt; prints(alloc, &text_of(alloc, &lines)?, b"7 7 8\n")?);
    Ok(())
}

/// A text of 16,384 bytes, and as many more: `a` is set to 1 again and again, and at last to a
/// number of three digits, and as many more.
fn long_text(alloc: Global, more: usize) -> Result<Vec<u8>, AllocError> {
    let mut lines = Vec::from_slice(alloc, b"\ta := 1\n")?;
    for _ in 0..2331 {
        lines.extend_from_slice(b"\ta = 1\n")?;
    }
    lines.extend_from_slice(b"\ta = 123")?;
    for _ in 0..more {
        lines.extend_from_slice(b"0")?;
    }
    lines.extend_from_slice(b"\n")?;
    text_of(alloc, &lines)
}

#[test]
fn texts_of_16_384_bytes_are_taken(rt: HostRuntime) -> Result<(), Fail> {
    let alloc = rt.alloc();
    let text = long_text(alloc, 0)?;
    assert_eq!(rt; text.len(), 16384);
    assert!(rt; prints(alloc, &text, b"")?);
    assert!(rt; is_refused(alloc, &long_text(alloc, 1)?)?);
    Ok(())
}

/// A whole text of procedures and the lines of `main`.
fn text_with(alloc: Global, procedures: &[u8], lines: &[u8]) -> Result<Vec<u8>, AllocError> {
    let mut text = Vec::from_slice(alloc, b"package main\nimport \"core:fmt\"\n")?;
    text.extend_from_slice(procedures)?;
    text.extend_from_slice(b"main :: proc() {\n")?;
    text.extend_from_slice(lines)?;
    text.extend_from_slice(b"}\n")?;
    Ok(text)
}

/// Whether the text prints this, is stopped by a check that this line tells, and ends with 3.
fn stops(alloc: Global, text: &[u8], out: &[u8], line: &[u8]) -> Result<bool, AllocError> {
    gives(alloc, &["run", "d"], text, out, line, 3)
}

#[test]
fn a_loop_finds_the_greatest_divisor(rt: HostRuntime) -> Result<(), Fail> {
    let alloc = rt.alloc();
    let gcd =
        b"F :: proc(a: int, b: int) -> int {\n\tc := a\n\td := b\n\tfor 0 < d {\n\t\te := c % d\n\t\tc = d\n\t\td = e\n\t}\n\treturn c\n}\n";
    let text = text_with(alloc, gcd, b"\ta := 84\n\tfmt.println(F(a, 36))\n")?;
    assert!(rt; prints(alloc, &text, b"12\n")?);
    Ok(())
}

#[test]
fn a_zero_divisor_stops_at_its_operator(rt: HostRuntime) -> Result<(), Fail> {
    let alloc = rt.alloc();
    let text = text_of(
        alloc,
        b"\ta := 7\n\tb := 0\n\tfmt.println(a)\n\tfmt.println(a / b)\n",
    )?;
    let line = b"main.odin:7:16: stopped: division\n";
    assert!(rt; stops(alloc, &text, b"7\n", line)?);
    let text = text_of(alloc, b"\ta := 7\n\tb := 0\n\tfmt.println(a % b)\n")?;
    assert!(rt; stops(alloc, &text, b"", b"main.odin:6:16: stopped: division\n")?);
    Ok(())
}

#[test]
fn endless_calls_stop_at_the_stack(rt: HostRuntime) -> Result<(), Fail> {
    let alloc = rt.alloc();
    let endless = b"F :: proc(a: int) -> int {\n\treturn F(a)\n}\n";
    let text = text_with(alloc, endless, b"\tfmt.println(F(1))\n")?;
    assert!(rt; stops(alloc, &text, b"", b"main.odin:3:6: stopped: stack\n")?);
    Ok(())
}

// The frame of D: 256, three variables of 136 bytes, 400 for the first line, 272 for the declaration, 400
// for each assignment, and 704 for the answer, rounded up to 802,048; that of `main` is 800. So 167 frames
// of D have room in 128 MiB.
#[test]
fn the_stack_has_room_for_so_many_frames(rt: HostRuntime) -> Result<(), Fail> {
    let alloc = rt.alloc();
    let mut deep = Vec::from_slice(
        alloc,
        b"D :: proc(n: int) -> int {\n\tfmt.println(n)\n\ta := 1\n",
    )?;
    for _ in 0..2000 {
        deep.extend_from_slice(b"\ta = 1\n")?;
    }
    deep.extend_from_slice(b"\treturn D(n + 1)\n}\n")?;
    let text = text_with(alloc, &deep, b"\tfmt.println(D(1))\n")?;
    let mut depths = String::new(alloc);
    for depth in 1..168u64 {
        depths.push_str(format!(in alloc; "{depth}\n")?.as_str())?;
    }
    let line = b"main.odin:3:6: stopped: stack\n";
    assert!(rt; stops(alloc, &text, depths.as_bytes(), line)?);
    Ok(())
}

#[test]
fn quotients_are_cut_toward_zero(rt: HostRuntime) -> Result<(), Fail> {
    let alloc = rt.alloc();
    let lines =
        b"\ta := 0 - 7\n\tb := 3\n\tc := 0 - b\n\tfmt.println(a / b, a % b, a / c, a % c, b / c)\n";
    assert!(rt; lines_print(alloc, lines, b"-2 -1 2 -1 -1\n")?);
    let lines =
        b"\ta := 256\n\tb := a * a * a * a * a * a * a * 128\n\tc := 0 - 1\n\tfmt.println(b / c, b % c)\n";
    assert!(rt; lines_print(alloc, lines, b"-9223372036854775808 0\n")?);
    Ok(())
}

#[test]
fn conditions_choose(rt: HostRuntime) -> Result<(), Fail> {
    let alloc = rt.alloc();
    let lines =
        b"\ta := 1\n\tif a < 2 {\n\t\tfmt.println(1)\n\t}\n\tif a == 2 {\n\t\tfmt.println(2)\n\t}\n\tif 1 + 1 == 2 {\n\t\tfmt.println(3)\n\t}\n\tif 3 < 2 {\n\t\tfmt.println(4)\n\t}\n";
    assert!(rt; lines_print(alloc, lines, b"1\n3\n")?);
    Ok(())
}

#[test]
fn operands_and_arguments_go_from_left_to_right(rt: HostRuntime) -> Result<(), Fail> {
    let alloc = rt.alloc();
    let told =
        b"T :: proc(a: int) -> int {\n\tfmt.println(a)\n\treturn a\n}\nS :: proc(a: int, b: int) -> int {\n\treturn a - b\n}\n";
    let text = text_with(alloc, told, b"\tfmt.println(T(5) - T(3), S(T(9), T(4)))\n")?;
    assert!(rt; prints(alloc, &text, b"5\n3\n9\n4\n2 5\n")?);
    Ok(())
}

#[test]
fn procedures_call_one_another(rt: HostRuntime) -> Result<(), Fail> {
    let alloc = rt.alloc();
    let both =
        b"E :: proc(n: int) -> int {\n\tr := 1\n\tif 0 < n {\n\t\tr = O(n - 1)\n\t}\n\treturn r\n}\nO :: proc(n: int) -> int {\n\tr := 0\n\tif 0 < n {\n\t\tr = E(n - 1)\n\t}\n\treturn r\n}\n";
    let text = text_with(alloc, both, b"\tfmt.println(E(7), E(10), O(7))\n")?;
    assert!(rt; prints(alloc, &text, b"0 1 1\n")?);
    Ok(())
}

#[test]
fn a_loop_goes_on_until_the_steps_are_out(rt: HostRuntime) -> Result<(), Fail> {
    let alloc = rt.alloc();
    let text = text_of(alloc, b"\ta := 1\n\tfor a == 1 {\n\t}\n")?;
    let line = b"odin_rv: stopped after 1000 steps\n";
    assert!(rt; gives(alloc, &["run", "d", "--steps", "1000"], &text, b"", line, 4)?);
    let line = b"odin_rv: stopped after 0 steps\n";
    assert!(rt; gives(alloc, &["run", "d", "--steps", "0"], &text, b"", line, 4)?);
    Ok(())
}

#[test]
fn steps_are_given_once(rt: HostRuntime) -> Result<(), Fail> {
    let alloc = rt.alloc();
    let text = text_of(alloc, b"\tfmt.println(7)\n")?;
    let all = ["run", "d", "--steps", "1", "--steps", "2"];
    assert!(rt; gives(alloc, &all, &text, b"", b"odin_rv: bad word --steps\n", 2)?);
    let all = ["run", "d", "--steps", "100000"];
    assert!(rt; gives(alloc, &all, &text, b"7\n", b"", 0)?);
    Ok(())
}

#[test]
fn an_empty_main_is_silent(rt: HostRuntime) -> Result<(), Fail> {
    let text = b"package main\nimport \"core:fmt\"\nmain :: proc() {\n}\n";
    assert!(rt; prints(rt.alloc(), text, b"")?);
    Ok(())
}

#[test]
fn other_words_are_no_command(rt: HostRuntime) -> Result<(), Fail> {
    let alloc = rt.alloc();
    let text = b"package main\nimport \"core:fmt\"\nmain :: proc() {\n}\n";
    let missing = b"odin_rv: bad word \n";
    assert!(rt; gives(alloc, &["run"], text, b"", missing, 2)?);
    assert!(rt; gives(alloc, &["frob"], text, b"", b"odin_rv: bad word frob\n", 2)?);
    assert!(rt;
        gives(
            alloc,
            &["run", "d", "x"],
            text,
            b"",
            b"odin_rv: bad word x\n",
            2
        )?
    );
    let mut folder = folder_of(alloc, text, Vec::new(alloc))?;
    let mut out = MemSink::new(alloc, 99, Vec::new(alloc))?;
    let mut err = MemSink::new(alloc, 99, Vec::new(alloc))?;
    let status = carried_out(alloc, &["run"], &mut folder, &mut out, &mut err)?;
    assert!(rt; matches!(status, Status::Usage { word: 1 }));
    let status = carried_out(alloc, &["frob"], &mut folder, &mut out, &mut err)?;
    assert!(rt; matches!(status, Status::Usage { word: 0 }));
    let status = carried_out(alloc, &["run", "d", "x"], &mut folder, &mut out, &mut err)?;
    assert!(rt; matches!(status, Status::Usage { word: 2 }));
    Ok(())
}

#[test]
fn texts_just_outside_the_grammar_are_refused(rt: HostRuntime) -> Result<(), Fail> {
    let alloc = rt.alloc();
    let text = b"package  main\nimport \"core:fmt\"\nmain :: proc() {\n}\n";
    assert!(rt; is_refused(alloc, text)?);
    let text = b"package main\r\nimport \"core:fmt\"\r\nmain :: proc() {\r\n}\r\n";
    assert!(rt; is_refused(alloc, text)?);
    let text = b"package main\nimport \"core:fmt\"\nmain :: proc() {\n}";
    assert!(rt; is_refused(alloc, text)?);
    let text =
        b"package main\nimport \"core:fmt\"\nmain :: proc() {\n\tfmt.println(1000000000)\n}\n";
    assert!(rt; is_refused(alloc, text)?);
    let text = b"package main\nimport \"core:fmt\"\nmain :: proc() {\n\tfmt.println(07)\n}\n";
    assert!(rt; is_refused(alloc, text)?);
    let text = b"package main\nimport \"core:fmt\"\nmain :: proc() {\n\tfmt.print(7)\n}\n";
    assert!(rt; is_refused(alloc, text)?);
    let text = b"package main\nimport \"core:fmt\"\nmain :: proc() {\n\tfmt.println(\xff)\n}\n";
    assert!(rt; is_refused(alloc, text)?);
    Ok(())
}

#[test]
fn a_folder_without_sources_is_refused(rt: HostRuntime) -> Result<(), Fail> {
    let alloc = rt.alloc();
    let text = b"package main\nimport \"core:fmt\"\nmain :: proc() {\n}\n";
    let line = b"e:0:0: S01 no .odin file here\n";
    assert!(rt; gives(alloc, &["run", "e"], text, b"", line, 1)?);
    Ok(())
}

/// The list of one failing call.
fn only(alloc: Global, call: u64) -> Result<Vec<u64>, AllocError> {
    Ok(vec![in alloc; call]?)
}

/// Runs two lines on an output that fails at one call: the status, the output and the errors.
fn with_failing_output(alloc: Global, call: u64) -> Result<(Status, MemSink, MemSink), AllocError> {
    let text =
        b"package main\nimport \"core:fmt\"\nmain :: proc() {\n\tfmt.println(1, 22, 333)\n\tfmt.println(0)\n}\n";
    let mut folder = folder_of(alloc, text, Vec::new(alloc))?;
    let mut out = MemSink::new(alloc, 99, only(alloc, call)?)?;
    let mut err = MemSink::new(alloc, 99, Vec::new(alloc))?;
    let status = carried_out(alloc, &["run", "d"], &mut folder, &mut out, &mut err)?;
    Ok((status, out, err))
}

// Each of the four numbers is written with its separator by one call.
#[test]
fn a_failing_output_is_told_at_each_of_its_calls(rt: HostRuntime) -> Result<(), Fail> {
    for call in 1..5u64 {
        let (status, out, err) = with_failing_output(rt.alloc(), call)?;
        assert!(rt; matches!(status, Status::WriteFault));
        assert!(rt; b"1 22 333\n0\n".starts_with(out.written.as_slice()));
        assert_eq!(rt; out.faults, 1);
        assert_eq!(rt;
            err.written.as_slice(),
            b"odin_rv: write fault\n".as_slice()
        );
    }
    let (status, out, err) = with_failing_output(rt.alloc(), 5)?;
    assert!(rt; matches!(status, Status::Exited { code: 0 }));
    assert_eq!(rt; out.written.as_slice(), b"1 22 333\n0\n".as_slice());
    assert!(rt; err.written.is_empty());
    Ok(())
}

#[test]
fn a_failing_error_output_is_told_by_the_number(rt: HostRuntime) -> Result<(), Fail> {
    let alloc = rt.alloc();
    let text = b"package main\nimport \"core:fmt\"\nmain :: proc() {\n\tfmt.print(7)\n}\n";
    let mut folder = folder_of(alloc, text, Vec::new(alloc))?;
    let mut out = MemSink::new(alloc, 99, Vec::new(alloc))?;
    let mut err = MemSink::new(alloc, 99, only(alloc, 1)?)?;
    let status = carried_out(alloc, &["run", "d"], &mut folder, &mut out, &mut err)?;
    assert!(rt; matches!(status, Status::WriteFault));
    Ok(())
}

#[test]
fn a_failing_folder_is_told(rt: HostRuntime) -> Result<(), Fail> {
    let alloc = rt.alloc();
    let text = b"package main\nimport \"core:fmt\"\nmain :: proc() {\n\tfmt.println(7)\n}\n";
    for call in 1..3u64 {
        let mut folder = folder_of(alloc, text, only(alloc, call)?)?;
        let mut out = MemSink::new(alloc, 99, Vec::new(alloc))?;
        let mut err = MemSink::new(alloc, 99, Vec::new(alloc))?;
        let status = carried_out(alloc, &["run", "d"], &mut folder, &mut out, &mut err)?;
        assert!(rt; matches!(status, Status::FolderFault));
        assert!(rt; out.written.is_empty());
        assert_eq!(rt;
            err.written.as_slice(),
            b"odin_rv: folder fault\n".as_slice()
        );
    }
    Ok(())
}
