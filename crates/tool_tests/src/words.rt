// Words that are commands, and words that aren't.
use odc_tool::words::{Command, read_command};
use std::test::Fail;

fn read(rt: &HostRuntime, text: &str) -> Result<Result<(usize, u64), usize>, Fail> {
    let mut words = Vec::new(rt.alloc());
    for word in text.split_whitespace() {
        words.push(String::from_str(rt.alloc(), word)?)?;
    }
    Ok(match read_command(&words) {
        Ok(Command::Run { dir, steps: given }) => Ok((dir.len(), given)),
        Ok(Command::Exec { file, steps: given }) => Ok((100 + file.len(), given)),
        Ok(Command::Build { dir, file }) => Ok((1000 + dir.len(), file.len() as u64)),
        Err(word) => Err(word),
    })
}

#[test]
fn words_are_read_up_to_the_first_bad_one(rt: HostRuntime) -> Result<(), Fail> {
    assert_eq!(rt; read(&rt, "run examples/first")?, Ok((14, 1_000_000_000)));
    assert_eq!(rt; read(&rt, "run")?, Err(1));
    assert_eq!(rt; read(&rt, "frob")?, Err(0));
    assert_eq!(rt; read(&rt, "run d x")?, Err(2));
    assert_eq!(rt; read(&rt, "")?, Err(0));
    assert_eq!(rt; read(&rt, "frob d x")?, Err(0));
    Ok(())
}

#[test]
fn steps_are_one_to_twenty_digits_once(rt: HostRuntime) -> Result<(), Fail> {
    assert_eq!(rt; read(&rt, "run d --steps 0")?, Ok((1, 0)));
    assert_eq!(rt; read(&rt, "run d --steps 1000")?, Ok((1, 1000)));
    assert_eq!(rt; read(&rt, "run --steps --steps 007")?, Ok((7, 7)));
    let most = read(&rt, "run d --steps 18446744073709551615")?;
    assert_eq!(rt; most, Ok((1, 18_446_744_073_709_551_615)));
    assert_eq!(rt; read(&rt, "run d --steps 18446744073709551616")?, Err(3));
    assert_eq!(rt; read(&rt, "run d --steps 000000000000000000001")?, Err(3));
    assert_eq!(rt;
        read(&rt, "run d --steps 00000000000000000001")?,
        Ok((1, 1))
    );
    assert_eq!(rt; read(&rt, "run d --steps +1")?, Err(3));
    assert_eq!(rt; read(&rt, "run d --steps 1x")?, Err(3));
    assert_eq!(rt; read(&rt, "run d --steps")?, Err(3));
    assert_eq!(rt; read(&rt, "run d --steps 1 --steps 2")?, Err(4));
    assert_eq!(rt; read(&rt, "run d --trace")?, Err(2));
    Ok(())
}

#[test]
fn files_are_made_and_carried_out(rt: HostRuntime) -> Result<(), Fail> {
    assert_eq!(rt; read(&rt, "exec f")?, Ok((101, 1_000_000_000)));
    assert_eq!(rt; read(&rt, "exec f --steps 12")?, Ok((101, 12)));
    assert_eq!(rt; read(&rt, "build dir file")?, Ok((1003, 4)));
    assert_eq!(rt; read(&rt, "exec")?, Err(1));
    assert_eq!(rt; read(&rt, "exec f --steps")?, Err(3));
    assert_eq!(rt; read(&rt, "exec f x")?, Err(2));
    assert_eq!(rt; read(&rt, "build")?, Err(1));
    assert_eq!(rt; read(&rt, "build d")?, Err(2));
    assert_eq!(rt; read(&rt, "build d f --steps 1")?, Err(3));
    Ok(())
}
