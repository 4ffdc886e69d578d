ghost use Rattle.std.specs.Prelude.{◌≡◌};

use crate::report::{Failed, report};
use plan_invalid::{Marks, SourceId};
use q_base::{IdList, NoMemory, ObjId};
use std::alloc::Global;
use std::time::CpuClock;

/// Adds sources that watch two objects each, changes each object, asks for each mark, and removes the
/// sources.
pub fn run(rt: &HostRuntime, count: u32) -> Result<(), Failed> {
    let mut marks = Marks::new(rt.alloc());
    let start = rt.thread_cpu_time()?;
    let sources = add(rt.alloc(), &mut marks, count)?;
    report(rt, "add_source+watch", count, start)?;
    let start = rt.thread_cpu_time()?;
    hit(&mut marks, count);
    report(rt, "hit", count, start)?;
    let start = rt.thread_cpu_time()?;
    let marked = count_marked(&marks, sources.as_slice());
    report(rt, "is_marked", marked, start)?;
    let start = rt.thread_cpu_time()?;
    remove(&mut marks, sources.as_slice());
    report(rt, "remove", count, start)
}

/// Each source watches an object of its own and one that it shares with the next.
fn add(alloc: Global, marks: &mut Marks, count: u32) -> Result<Vec<SourceId>, NoMemory>
    requires { marks.old.given ≡ 0 }
{
    let mut sources = Vec::new(alloc);
    for number in 0..count {
        let source = marks.add_source()?;
        let mut uses = IdList::new(alloc);
        uses.push(ObjId(number))?;
        uses.push(ObjId(number.saturating_add(1)))?;
        marks.watch(source, &uses)?;
        sources.push(source)?;
    }
    Ok(sources)
}

fn hit(marks: &mut Marks, count: u32) {
    for number in 0..count {
        marks.hit(ObjId(number));
    }
}

fn count_marked(marks: &Marks, sources: &[SourceId]) -> u32 {
    let mut marked = 0u32;
    for source in sources {
        if marks.is_marked(*source) {
            marked = marked.wrapping_add(1);
        }
    }
    marked
}

fn remove(marks: &mut Marks, sources: &[SourceId]) {
    for source in sources {
        marks.remove(*source);
    }
}
