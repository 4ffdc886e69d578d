ghost use Rattle.std.specs.Prelude.{◌≡◌, ◌++◌, OnOk};
ghost use Rattle.result_text.specs.Tags as spec;

use crate::append::{append, append_number};
use q_base::NoMemory;
use std::alloc::Global;

/// The kinds of objects that tags name.
#[derive(Clone, Copy, Debug, PartialEq, Eq)]
pub enum TagKind {
    Schema,
    Table,
    View,
    Index,
}

/// The tag that a command prints when it is done (PostgreSQL's manual, "Message Formats",
/// CommandComplete), and those of portal lines, which are this project's own.
#[derive(Clone, Copy, Debug, PartialEq, Eq)]
pub enum Tag {
    Prepare,
    Deallocate,
    DeallocateAll,
    DiscardPlans,
    DiscardTemp,
    DeclareCursor,
    CloseCursor,
    CloseCursorAll,
    /// With the number of rows.
    Move,
    Begin,
    StartTransaction,
    Commit,
    /// ROLLBACK, and ROLLBACK TO.
    Rollback,
    Savepoint,
    Release,
    Set,
    Reset,
    /// With the number of rows.
    Insert,
    /// With the number of rows.
    Update,
    /// With the number of rows.
    Delete,
    Create(TagKind),
    Alter(TagKind),
    Drop(TagKind),
    Truncate,
    Analyze,
    Parse,
    Bind,
    /// A portal gave as many rows as it was asked for.
    Suspended,
    /// A portal gave all rows that were left.
    Complete,
    End,
    Sync,
}

/// Appends the line of a tag; `count` stands in those alone that have the number of rows.
#[tactic(auto, unfolding(crate::specs::Tags::tag_line))]
pub fn tag_text(alloc: Global, tag: Tag, count: u64, out: &mut Vec<u8>) -> Result<(), NoMemory>
    ensures { OnOk result (out.new.items ≡ out.old.items ++ spec.tag_line tag count) }
{
    append(words(tag), out)?;
    append(behind_words(tag), out)?;
    if has_count(tag) {
        append_number(alloc, count, out)?;
    }
    append(b"\n", out)
}

/// The words that a tag begins with.
fn words(tag: Tag) -> &'static [u8]
    ensures { result.now ≡ spec.words tag }
{
    match tag {
        Tag::Prepare => b"PREPARE",
        Tag::Deallocate => b"DEALLOCATE",
        Tag::DeallocateAll => b"DEALLOCATE ALL",
        Tag::DiscardPlans => b"DISCARD PLANS",
        Tag::DiscardTemp => b"DISCARD TEMP",
        Tag::DeclareCursor => b"DECLARE CURSOR",
        Tag::CloseCursor => b"CLOSE CURSOR",
        Tag::CloseCursorAll => b"CLOSE CURSOR ALL",
        Tag::Move => b"MOVE ",
        Tag::Begin => b"BEGIN",
        Tag::StartTransaction => b"START TRANSACTION",
        Tag::Commit => b"COMMIT",
        Tag::Rollback => b"ROLLBACK",
        Tag::Savepoint => b"SAVEPOINT",
        Tag::Release => b"RELEASE",
        Tag::Set => b"SET",
        Tag::Reset => b"RESET",
        Tag::Insert => b"INSERT 0 ",
        Tag::Update => b"UPDATE ",
        Tag::Delete => b"DELETE ",
        Tag::Create(_) => b"CREATE ",
        Tag::Alter(_) => b"ALTER ",
        Tag::Drop(_) => b"DROP ",
        Tag::Truncate => b"TRUNCATE TABLE",
        Tag::Analyze => b"ANALYZE",
        Tag::Parse => b"PARSE",
        Tag::Bind => b"BIND",
        Tag::Suspended => b"SUSPENDED",
        Tag::Complete => b"COMPLETE",
        Tag::End => b"END",
        Tag::Sync => b"SYNC",
    }
}

/// The kind behind the words of CREATE, ALTER and DROP.
fn behind_words(tag: Tag) -> &'static [u8]
    ensures { result.now ≡ spec.behind_words tag }
{
    match tag {
        Tag::Create(kind) | Tag::Alter(kind) | Tag::Drop(kind) => kind_word(kind),
        _ => b"",
    }
}

fn kind_word(kind: TagKind) -> &'static [u8]
    ensures { result.now ≡ spec.kind_word kind }
{
    match kind {
        TagKind::Schema => b"SCHEMA",
        TagKind::Table => b"TABLE",
        TagKind::View => b"VIEW",
        TagKind::Index => b"INDEX",
    }
}

fn has_count(tag: Tag) -> bool
    ensures { result ≡ spec.has_count tag }
{
    matches!(tag, Tag::Move | Tag::Insert | Tag::Update | Tag::Delete)
}
