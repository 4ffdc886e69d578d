use q_base::{NoMemory, Stop, Str};
use savepoints::{Block, Transaction};
use std::alloc::Global;
use std::test::Fail;

/// Sets a savepoint, and gives the SQLSTATE where it is refused.
fn set(
    alloc: Global,
    block: &mut Transaction<u32>,
    name: &str,
    mark: u32,
) -> Result<&'static str, NoMemory> {
    match block.savepoint(Str::from_text(alloc, name)?, mark) {
        Ok(()) => Ok(""),
        Err(Stop::Sql(error)) => Ok(error.code.sqlstate()),
        Err(Stop::NoMemory) => Err(NoMemory),
    }
}

/// Whether a block takes the savepoints `a`, `b` and `a`.
fn takes_three(alloc: Global, block: &mut Transaction<u32>) -> Result<bool, NoMemory> {
    let first = set(alloc, block, "a", 1)?;
    let second = set(alloc, block, "b", 2)?;
    let third = set(alloc, block, "a", 3)?;
    Ok(first.is_empty() && second.is_empty() && third.is_empty())
}

/// Whether each step back gives its level and mark.
fn goes_back(block: &mut Transaction<u32>) -> bool {
    let newest = block.rollback_to("a") == Some((3, 3));
    let released = block.release("b").ok() == Some(2);
    block.fail();
    newest && released && block.rollback_to("a") == Some((1, 1))
}

fn ends(block: &mut Transaction<u32>) -> bool {
    let open = block.status() == Block::Active && block.depth() == 1;
    open && block.finish() == Some(10) && block.status() == Block::Idle
}

#[test]
fn savepoints_nest_in_a_block(rt: HostRuntime) -> Result<(), Fail> {
    let mut block = Transaction::new(rt.alloc(), 2)?;
    assert_eq!(rt; set(rt.alloc(), &mut block, "a", 1)?, "25P01");
    assert!(rt; block.begin(10));
    assert!(rt; takes_three(rt.alloc(), &mut block)?);
    assert!(rt; goes_back(&mut block));
    assert!(rt; ends(&mut block));
    Ok(())
}
