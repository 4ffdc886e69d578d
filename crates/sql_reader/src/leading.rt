//! The words with which commands begin.

ghost use Rattle.std.specs.Prelude.{◌≡◌};
ghost use Rattle.sql_reader.specs.Leading as spec;

use q_base::Table;

/// The leading words of commands on prepared statements, cursors, transactions and settings.
#[derive(Clone, Copy)]
pub(crate) enum SessionWord {
    Prepare,
    Execute,
    Explain,
    Deallocate,
    Discard,
    Declare,
    Fetch,
    Move,
    Close,
    Begin,
    Start,
    /// COMMIT and END.
    Commit,
    Rollback,
    Abort,
    Savepoint,
    Release,
    Set,
    Reset,
    Show,
}

/// The leading words of commands on the catalog.
#[derive(Clone, Copy)]
pub(crate) enum CatalogWord {
    Create,
    Drop,
    Alter,
    Truncate,
    Analyze,
}

/// A word with which a command begins.
#[derive(Clone, Copy)]
pub(crate) enum Keyword {
    /// SELECT, INSERT, UPDATE and DELETE.
    Statement,
    Session(SessionWord),
    Catalog(CatalogWord),
}

const LEADING_WORDS: [(&str, Keyword); 29] = [
    ("abort", Keyword::Session(SessionWord::Abort)),
    ("alter", Keyword::Catalog(CatalogWord::Alter)),
    ("analyze", Keyword::Catalog(CatalogWord::Analyze)),
    ("begin", Keyword::Session(SessionWord::Begin)),
    ("close", Keyword::Session(SessionWord::Close)),
    ("commit", Keyword::Session(SessionWord::Commit)),
    ("create", Keyword::Catalog(CatalogWord::Create)),
    ("deallocate", Keyword::Session(SessionWord::Deallocate)),
    ("declare", Keyword::Session(SessionWord::Declare)),
    ("delete", Keyword::Statement),
    ("discard", Keyword::Session(SessionWord::Discard)),
    ("drop", Keyword::Catalog(CatalogWord::Drop)),
    ("end", Keyword::Session(SessionWord::Commit)),
    ("execute", Keyword::Session(SessionWord::Execute)),
    ("explain", Keyword::Session(SessionWord::Explain)),
    ("fetch", Keyword::Session(SessionWord::Fetch)),
    ("insert", Keyword::Statement),
    ("move", Keyword::Session(SessionWord::Move)),
    ("prepare", Keyword::Session(SessionWord::Prepare)),
    ("release", Keyword::Session(SessionWord::Release)),
    ("reset", Keyword::Session(SessionWord::Reset)),
    ("rollback", Keyword::Session(SessionWord::Rollback)),
    ("savepoint", Keyword::Session(SessionWord::Savepoint)),
    ("select", Keyword::Statement),
    ("set", Keyword::Session(SessionWord::Set)),
    ("show", Keyword::Session(SessionWord::Show)),
    ("start", Keyword::Session(SessionWord::Start)),
    ("truncate", Keyword::Catalog(CatalogWord::Truncate)),
    ("update", Keyword::Statement),
];

/// The keyword that a word is at the head of a command.
pub(crate) fn keyword_of(word: &str) -> Option<Keyword>
    ensures { result ≡ spec.keyword_of word.now }
{
    let table: Table<'_, &str, Keyword, 29> = Table::new(&LEADING_WORDS);
    table.find(&word).copied()
}
