use crate::shared::{first_read, read, repeat};
use q_base::{Code, Stop};
use sql_tree::{Command, SchemaCommand, Statement};
use std::alloc::{AllocError, Global};
use std::test::Fail;

/// A command for each leading word and each backslash line, and the variants of its tree.
const READ: [(&str, &str); 41] = [
    ("SELECT 7", "Select"),
    ("insert INTO t VALUES (1)", "Insert"),
    ("UPDATE t SET a = 1", "Update"),
    ("DELETE FROM t", "Delete"),
    ("DELETE FROM t WHERE CURRENT OF c", "Positioned"),
    ("PREPARE p AS SELECT 7", "Prepare"),
    ("EXECUTE p", "Execute"),
    ("EXPLAIN SELECT 7", "Explain"),
    ("EXPLAIN EXECUTE p", "ExplainExecute"),
    ("DEALLOCATE p", "Deallocate"),
    ("DISCARD PLANS", "DiscardPlans"),
    ("DECLARE c CURSOR FOR SELECT 7", "Declare"),
    ("FETCH c", "Fetch"),
    ("MOVE c", "Move"),
    ("CLOSE c", "Close"),
    ("BEGIN", "Begin"),
    ("START TRANSACTION", "StartTransaction"),
    ("COMMIT", "Commit"),
    ("END", "Commit"),
    ("ROLLBACK", "Rollback"),
    ("ABORT", "Rollback"),
    ("SAVEPOINT s", "Savepoint"),
    ("RELEASE s", "Release"),
    ("SET a TO b", "Set"),
    ("RESET a", "Reset"),
    ("SHOW a", "Show"),
    ("CREATE SCHEMA s", "CreateSchema"),
    ("CREATE TABLE t (a int)", "CreateTable"),
    ("CREATE TEMP TABLE t (a int)", "CreateTempTable"),
    ("CREATE INDEX i ON t (a)", "CreateIndex"),
    ("CREATE VIEW v AS SELECT 7", "CreateView"),
    ("DROP TABLE t", "Drop"),
    ("DROP SCHEMA s", "DropSchema"),
    ("ALTER TABLE t RENAME TO u", "AlterTable"),
    ("ALTER SCHEMA s RENAME TO t", "RenameSchema"),
    ("TRUNCATE t", "Truncate"),
    ("ANALYZE", "Analyze"),
    ("\\prepared", "ShowPrepared"),
    ("\\cursors", "ShowCursors"),
    ("\\parse p AS SELECT 7", "Parse"),
    ("\\sync", "Sync"),
];

/// Texts that are no command.
const REFUSED: [&str; 14] = [
    "",
    "VACUUM",
    "p",
    "\"begin\"",
    "'BEGIN'",
    "7",
    "(SELECT 7)",
    "BEGIN BEGIN",
    "SELECT 7 )",
    "DELETE FROM t WHERE a = 1 b",
    "TRUNCATE t CASCADE",
    "\\",
    "\\begin",
    "\\sync \\sync",
];

fn statement_variant(statement: &Statement) -> &'static str {
    match statement {
        Statement::Select(_) => "Select",
        Statement::ViewSelect(_) => "ViewSelect",
        Statement::Insert(_) => "Insert",
        Statement::Update(_) => "Update",
        Statement::Delete(_) => "Delete",
    }
}

fn schema_variant(schema: &SchemaCommand) -> &'static str {
    match schema {
        SchemaCommand::Create(_) => "CreateSchema",
        SchemaCommand::Drop(_) => "DropSchema",
        SchemaCommand::Rename(_, _) => "RenameSchema",
    }
}

fn variant_of(command: &Command) -> &'static str {
    match command {
        Command::Statement(statement) => statement_variant(statement),
        Command::Positioned(_) => "Positioned",
        Command::Prepare(_) => "Prepare",
        Command::Execute(_) => "Execute",
        Command::Explain(_) => "Explain",
        Command::ExplainExecute(_) => "ExplainExecute",
        Command::Deallocate(_) => "Deallocate",
        Command::DiscardPlans => "DiscardPlans",
        Command::Declare(_) => "Declare",
        Command::Fetch(_) => "Fetch",
        Command::Move(_) => "Move",
        Command::Close(_) => "Close",
        Command::Begin => "Begin",
        Command::StartTransaction => "StartTransaction",
        Command::Commit => "Commit",
        Command::Rollback => "Rollback",
        Command::Savepoint(_) => "Savepoint",
        Command::Release(_) => "Release",
        Command::Set(_) => "Set",
        Command::Reset(_) => "Reset",
        Command::Show(_) => "Show",
        Command::Schema(schema) => schema_variant(schema),
        Command::CreateTable(_) => "CreateTable",
        Command::CreateTempTable(_) => "CreateTempTable",
        Command::CreateIndex(_) => "CreateIndex",
        Command::CreateView(_) => "CreateView",
        Command::Drop(_) => "Drop",
        Command::AlterTable(_) => "AlterTable",
        Command::Truncate(_) => "Truncate",
        Command::Analyze(_) => "Analyze",
        Command::ShowPrepared => "ShowPrepared",
        Command::ShowCursors => "ShowCursors",
        Command::Parse(_) => "Parse",
        Command::Sync => "Sync",
        _ => "other",
    }
}

/// The code of the text's refusal, if it is refused.
fn code_of(alloc: Global, text: &str) -> Result<Option<Code>, AllocError> {
    match read(alloc, text) {
        Ok(_) => Ok(None),
        Err(Stop::Sql(error)) => Ok(Some(error.code)),
        Err(Stop::NoMemory) => Err(AllocError),
    }
}

/// A text, then `depth` parentheses around a number.
fn nested(alloc: Global, text: &str, depth: usize) -> Result<String, AllocError> {
    let mut out = String::from_str(alloc, text)?;
    repeat(&mut out, "(", depth)?;
    out.push('7')?;
    repeat(&mut out, ")", depth)?;
    Ok(out)
}

fn variant_read(alloc: Global, text: &str) -> Result<&'static str, Stop> {
    let command = read(alloc, text)?;
    Ok(variant_of(&command))
}

#[test]
fn commands_are_told_apart_by_their_first_token(rt: HostRuntime) -> Result<(), Fail> {
    for (text, variant) in &READ {
        assert_eq!(rt; variant_read(rt.alloc(), text)?, *variant, "at {text}");
    }
    Ok(())
}

#[test]
fn other_texts_are_refused(rt: HostRuntime) -> Result<(), Fail> {
    assert_eq!(rt; first_read(rt.alloc(), &REFUSED)?, None);
    Ok(())
}

/// The code of the refusal of a nested text, if it is refused.
fn nested_code(alloc: Global, text: &str, depth: usize) -> Result<Option<Code>, AllocError> {
    let nested = nested(alloc, text, depth)?;
    code_of(alloc, nested.as_str())
}

#[test]
fn loads_past_200_are_refused_before_the_grammar(rt: HostRuntime) -> Result<(), Fail> {
    assert!(rt; nested_code(rt.alloc(), "SELECT ", 199)?.is_none());
    for text in ["SELECT ", "VACUUM "] {
        let code = nested_code(rt.alloc(), text, 200)?;
        assert!(rt; code == Some(Code::StackDepthExceeded));
    }
    Ok(())
}
