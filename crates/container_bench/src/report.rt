use q_base::{NoMemory, Stop};
use std::alloc::{AllocError, AllocFailed};
use std::io;
use std::time::{CpuClock, Duration};

/// Why nothing was measured, or not all.
#[derive(Clone, Copy, Debug, PartialEq, Eq)]
pub enum Failed {
    /// The words name no container, or no count.
    Words,
    /// Memory was refused, or the clock or the output failed.
    Other,
}

impl From<io::Error> for Failed {
    fn from(_: io::Error) -> Failed {
        Failed::Other
    }
}

impl From<AllocError> for Failed {
    fn from(_: AllocError) -> Failed {
        Failed::Other
    }
}

impl<T: Drop> From<AllocFailed<T>> for Failed {
    fn from(_: AllocFailed<T>) -> Failed {
        Failed::Other
    }
}

impl From<NoMemory> for Failed {
    fn from(_: NoMemory) -> Failed {
        Failed::Other
    }
}

impl From<Stop> for Failed {
    fn from(_: Stop) -> Failed {
        Failed::Other
    }
}

/// Prints an operation's name, how often it was done, and the processor's time since `start`: seconds,
/// and nanoseconds past them.
pub fn report(rt: &HostRuntime, operation: &str, done: u32, start: Duration) -> Result<(), Failed> {
    let spent = rt.thread_cpu_time()?.saturating_sub(start);
    let seconds = spent.as_secs();
    let nanos = spent.subsec_nanos();
    println!(rt; "{operation} {done} {seconds} {nanos}")?;
    Ok(())
}

/// A number below 2^31 that follows no order as `number` counts up, and is another for each number
/// below that bound.
pub fn scattered(number: u32) -> u32 {
    number.wrapping_mul(2_654_435_761) % 2_147_483_648
}
