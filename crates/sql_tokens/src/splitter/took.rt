use q_base::Str;

/// What a splitter gives.
#[derive(Debug, Drop)]
pub enum Took {
    /// The text of the next command, without its cut.
    Command(Str),
    /// No further command is whole yet.
    NotYet,
    /// The script is over, and no further command is in it.
    Over,
    /// The next text isn't UTF-8.
    NotText,
    /// The next text has more than 2^20 bytes, or the script more than 2^30.
    TooLong,
}
