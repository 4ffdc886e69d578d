ghost use Rattle.std.specs.Prelude.{◌≡◌};
ghost use Rattle.portals.specs.Courses as spec;

use sql_tree::Motion;

/// Where FETCH and MOVE go, with the several spellings of one motion as one (PostgreSQL's manual, "FETCH"). Counts
/// are of rows; `None` is ALL.
#[derive(Clone, Copy, Debug, PartialEq, Eq)]
pub(crate) enum Course {
    /// The row stood on.
    Stay,
    /// The next rows.
    Forward(Option<u64>),
    /// The rows before, the nearest first.
    Backward(Option<u64>),
    /// The row of a place, counted from 1.
    To(u64),
    /// The row of a place, counted back from the last row, which is 1.
    FromEnd(u64),
    /// The row so many rows on.
    Ahead(u64),
    /// The row so many rows back.
    Behind(u64),
}

/// What a motion means.
pub(crate) fn course_of(motion: Motion) -> Course
    ensures { result ≡ spec.course_of motion }
{
    match motion {
        Motion::Next | Motion::Forward(None) => Course::Forward(Some(1)),
        Motion::Prior | Motion::Backward(None) => Course::Backward(Some(1)),
        Motion::First => Course::To(1),
        Motion::Last => Course::FromEnd(1),
        Motion::Absolute(n) => absolute(i64::from(n)),
        Motion::Relative(n) => relative(i64::from(n)),
        Motion::Count(n) | Motion::Forward(Some(n)) => counted(i64::from(n)),
        Motion::Backward(Some(n)) => counted(-i64::from(n)),
        Motion::All | Motion::ForwardAll => Course::Forward(None),
        Motion::BackwardAll => Course::Backward(None),
    }
}

// The row of place n; a negative n counts back from the last row.
fn absolute(n: i64) -> Course
    ensures { result ≡ spec.absolute n }
{
    if n < 0 {
        Course::FromEnd(n.unsigned_abs())
    } else {
        Course::To(n.unsigned_abs())
    }
}

// The row n rows on; a negative n goes back.
fn relative(n: i64) -> Course
    ensures { result ≡ spec.relative n }
{
    if n < 0 {
        Course::Behind(n.unsigned_abs())
    } else if n == 0 {
        Course::Stay
    } else {
        Course::Ahead(n.unsigned_abs())
    }
}

// The next n rows; a negative n goes back.
fn counted(n: i64) -> Course
    ensures { result ≡ spec.counted n }
{
    if n < 0 {
        Course::Backward(Some(n.unsigned_abs()))
    } else if n == 0 {
        Course::Stay
    } else {
        Course::Forward(Some(n.unsigned_abs()))
    }
}
