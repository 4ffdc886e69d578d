ghost use Rattle.std.specs.Prelude.{◌≡◌, OnOk};

use q_base::{ListOf, NoMemory, Str};
use sql_tokens::{Splitter, Took};
use std::alloc::Global;
use std::test::Fail;

/// Each part of a script, with what would cut it elsewhere, and at last a backslash line without its
/// line feed.
const SCRIPT: &str =
    "  -- a ; line; '\r\n /* b /* ; ' */ \" */ ;SELECT 'a;''b', \"c;\"\"d\" - /* ; */ -1;\r\n/*/ ; */ \\x 'y; -- z\n\u{e9}\u{1d11e}\0/ \\;;--\n\\last; no feed";

const COMMANDS: [&str; 4] = [
    "SELECT 'a;''b', \"c;\"\"d\" - /* ; */ -1",
    "\r\n/*/ ; */ \\x 'y; -- z",
    "\u{e9}\u{1d11e}\0/ \\",
    "--\n\\last; no feed",
];

/// The commands that are whole, and why there are no more.
fn drain(splitter: &mut Splitter, commands: &mut ListOf<Str>) -> Result<Took, NoMemory>
    ensures { OnOk result (splitter.new.over ≡ splitter.old.over) }
{
    for _turn in 0..99 {
        match splitter.take()? {
            Took::Command(command) => commands.push(command)?,
            took => return Ok(took),
        }
    }
    Ok(Took::NotYet)
}

/// Gives the commands of a script that comes in pieces of one size, and why there are no more.
fn run(
    alloc: Global,
    commands: &mut ListOf<Str>,
    script: &[u8],
    size: usize,
) -> Result<Took, NoMemory> {
    let mut splitter = Splitter::new(alloc);
    if size > 0 {
        for piece in script.chunks(size) {
            splitter.feed(piece)?;
            let _took = drain(&mut splitter, commands)?;
        }
    }
    splitter.end();
    drain(&mut splitter, commands)
}

fn are_the_commands(commands: &[Str]) -> bool {
    for (index, wanted) in COMMANDS.iter().enumerate() {
        if commands
            .get(index)
            .is_none_or(|command| command.as_str() != *wanted)
        {
            return false;
        }
    }
    commands.len() == COMMANDS.len()
}

#[test]
fn any_pieces_give_the_same_commands(rt: HostRuntime) -> Result<(), Fail> {
    for size in 1..SCRIPT.len() + 1 {
        let mut commands = ListOf::new(rt.alloc());
        let took = run(rt.alloc(), &mut commands, SCRIPT.as_bytes(), size)?;
        assert!(rt; matches!(took, Took::Over), "{size}");
        assert!(rt; are_the_commands(commands.as_slice()), "{size}");
    }
    Ok(())
}

/// How many commands a text has, in pieces of one size, and why there are no more.
fn counted(alloc: Global, text: &[u8], size: usize) -> Result<(usize, Took), NoMemory> {
    let mut commands = ListOf::new(alloc);
    let took = run(alloc, &mut commands, text, size)?;
    Ok((commands.as_slice().len(), took))
}

#[test]
fn a_text_that_decides_ends_the_commands(rt: HostRuntime) -> Result<(), Fail> {
    let found = counted(rt.alloc(), b"a;-- \xff\n;b", 1)?;
    assert!(rt; matches!(found, (1, Took::NotText)));
    Ok(())
}

#[test]
fn a_long_text_ends_the_commands(rt: HostRuntime) -> Result<(), Fail> {
    let mut long = vec![in rt.alloc(); b'\xff'; (1 << 20) + 1]?;
    let found = counted(rt.alloc(), long.as_slice(), 4096)?;
    assert!(rt; matches!(found, (_, Took::TooLong)));
    long.fill(b'a');
    long.pop();
    let found = counted(rt.alloc(), long.as_slice(), 4096)?;
    assert!(rt; matches!(found, (1, Took::Over)));
    Ok(())
}
