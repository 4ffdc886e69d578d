use plan_invalid::Marks;
use q_base::{IdList, NoMemory, ObjId};
use std::alloc::Global;
use std::test::Fail;

fn ids(alloc: Global) -> Result<IdList, NoMemory> {
    let mut ids = IdList::new(alloc);
    ids.push(ObjId(7))?;
    ids.push(ObjId(3))?;
    Ok(ids)
}

// One source watches the objects 3 and 7, and a later one takes the slot of a removed one.
#[test]
fn marks_follow_changes(rt: HostRuntime) -> Result<(), Fail> {
    let uses = ids(rt.alloc())?;
    let mut marks = Marks::new(rt.alloc());
    let first = marks.add_source()?;
    assert!(rt; marks.is_marked(first));
    marks.watch(first, &uses)?;
    marks.hit(ObjId(5));
    assert!(rt; !marks.is_marked(first));
    marks.hit(ObjId(3));
    assert!(rt; marks.is_marked(first));
    marks.remove(first);
    let second = marks.add_source()?;
    marks.watch(second, &uses)?;
    assert!(rt; marks.is_marked(first) && !marks.is_marked(second));
    Ok(())
}
