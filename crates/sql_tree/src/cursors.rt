use crate::Statement;
use q_base::Str;

/// Which of DECLARE's options are written, each once or several times.
#[derive(Clone, Copy, Debug, PartialEq, Eq)]
pub struct CursorOptions {
    pub scroll: bool,
    pub no_scroll: bool,
    pub insensitive: bool,
    pub asensitive: bool,
}

/// DECLARE.
#[derive(Drop)]
pub struct DeclareTree {
    pub name: Str,
    pub options: CursorOptions,
    /// WITH HOLD is written.
    pub hold: bool,
    /// The query, always a `Statement::Select`.
    pub query: Statement,
}

/// Where FETCH and MOVE go (PostgreSQL's manual, "FETCH"). Numbers are within 2147483647 on either side of 0.
#[derive(Clone, Copy, Debug, PartialEq, Eq)]
pub enum Motion {
    /// NEXT, or no direction at all.
    Next,
    Prior,
    First,
    Last,
    Absolute(i32),
    Relative(i32),
    Count(i32),
    All,
    Forward(Option<i32>),
    ForwardAll,
    Backward(Option<i32>),
    BackwardAll,
}

/// FETCH and MOVE.
#[derive(Drop)]
pub struct FetchTree {
    pub motion: Motion,
    pub cursor: Str,
}
