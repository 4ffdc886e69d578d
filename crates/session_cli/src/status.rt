/// How the program ended; the numbers are its exit status.
#[derive(Clone, Copy, Debug, PartialEq, Eq)]
pub enum Status {
    /// Every command of the script was run.
    Done = 0,
    /// Memory was refused.
    NoMemory = 1,
    /// The words are none that the program takes.
    Usage = 2,
    /// A command was refused, and the run was to stop there.
    Stopped = 3,
    /// The source failed.
    ReadFault = 4,
    /// The sink failed.
    WriteFault = 5,
    /// The next command isn't UTF-8.
    NotText = 6,
    /// The next command or the script is too long.
    TooLong = 7,
}
