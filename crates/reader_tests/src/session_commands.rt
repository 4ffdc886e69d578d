use crate::shared::{append, first_read, read};
use q_base::{SetValue, SettingList, Stop};
use sql_tree::{
    Command, CursorOptions, DeclareTree, ExecuteTree, Expr, Literal, Motion, PrepareTree, SetTree,
    Statement,
};
use std::alloc::{AllocError, Global};
use std::test::Fail;

/// Commands, and their trees as `show` writes them.
const READ: [(&str, &str); 71] = [
    ("PREPARE p AS SELECT 7", "Prepare p () select"),
    (
        "prepare Prepare (int4, \"Text\", x) as delete from t",
        "Prepare prepare (int4 Text x ) delete",
    ),
    ("EXECUTE p", "Execute p ()"),
    ("EXECUTE p (1, - 2, 'x', $3)", "Execute p (1 -2 'x' $3 )"),
    ("EXPLAIN INSERT INTO t VALUES (1)", "Explain insert"),
    ("EXPLAIN UPDATE t SET a = 1", "Explain update"),
    ("EXPLAIN EXECUTE execute (1)", "ExplainExecute execute (1 )"),
    ("DEALLOCATE p", "Deallocate p"),
    ("DEALLOCATE PREPARE p", "Deallocate p"),
    ("DEALLOCATE prepare", "Deallocate prepare"),
    ("DEALLOCATE PREPARE prepare", "Deallocate prepare"),
    ("DEALLOCATE ALL", "DeallocateAll"),
    ("DEALLOCATE PREPARE ALL", "DeallocateAll"),
    ("DISCARD PLANS", "DiscardPlans"),
    ("DISCARD TEMP", "DiscardTemp"),
    ("DISCARD TEMPORARY", "DiscardTemp"),
    ("DECLARE c CURSOR FOR SELECT 7", "Declare c select"),
    (
        "DECLARE c ASENSITIVE NO SCROLL INSENSITIVE SCROLL NO SCROLL CURSOR WITH HOLD FOR SELECT 7",
        "Declare c scroll no-scroll insensitive asensitive hold select",
    ),
    (
        "DECLARE no NO SCROLL CURSOR WITHOUT HOLD FOR SELECT 7",
        "Declare no no-scroll select",
    ),
    ("FETCH c", "Fetch Next c"),
    ("FETCH FROM c", "Fetch Next c"),
    ("FETCH next IN c", "Fetch Next c"),
    ("FETCH \"next\"", "Fetch Next next"),
    ("FETCH FROM next", "Fetch Next next"),
    ("FETCH PRIOR c", "Fetch Prior c"),
    ("FETCH FIRST FROM c", "Fetch First c"),
    ("MOVE LAST c", "Move Last c"),
    ("FETCH ABSOLUTE -3 c", "Fetch Absolute(-3) c"),
    ("FETCH RELATIVE 0 IN c", "Fetch Relative(0) c"),
    ("FETCH 002147483647 c", "Fetch Count(2147483647) c"),
    ("MOVE - 2147483647 c", "Move Count(-2147483647) c"),
    ("FETCH ALL c", "Fetch All c"),
    ("FETCH FORWARD c", "Fetch Forward(None) c"),
    ("FETCH FORWARD 5 c", "Fetch Forward(Some(5)) c"),
    ("FETCH FORWARD ALL FROM c", "Fetch ForwardAll c"),
    ("FETCH BACKWARD prior", "Fetch Backward(None) prior"),
    ("FETCH BACKWARD -1 c", "Fetch Backward(Some(-1)) c"),
    ("MOVE BACKWARD ALL c", "Move BackwardAll c"),
    ("CLOSE c", "Close c"),
    ("CLOSE ALL", "CloseAll"),
    ("BEGIN", "Begin"),
    ("BEGIN WORK", "Begin"),
    ("START TRANSACTION", "StartTransaction"),
    ("COMMIT WORK", "Commit"),
    ("END TRANSACTION", "Commit"),
    ("ROLLBACK", "Rollback"),
    ("ABORT TRANSACTION", "Rollback"),
    ("ROLLBACK TO s", "RollbackTo s"),
    ("ROLLBACK WORK TO SAVEPOINT s", "RollbackTo s"),
    ("ROLLBACK TO savepoint", "RollbackTo savepoint"),
    ("SAVEPOINT savepoint", "Savepoint savepoint"),
    ("RELEASE SAVEPOINT s", "Release s"),
    ("RELEASE savepoint", "Release savepoint"),
    ("RELEASE SAVEPOINT savepoint", "Release savepoint"),
    ("SET a TO DEFAULT", "Set a default"),
    (
        "SET a = b, \"On\", 'c d', - 07, 8, on, True, FALSE",
        "Set a b On c d #-07 #8 on true false",
    ),
    ("SET SESSION a = b", "Set a b"),
    ("SET LOCAL a TO b", "Set local a b"),
    ("SET session TO b", "Set session b"),
    ("SET local = 1", "Set local #1"),
    ("SET LOCAL session = session", "Set local session session"),
    ("SET SESSION local = 1", "Set local #1"),
    ("RESET a", "Reset a"),
    ("SHOW show", "Show show"),
    ("\\prepared", "ShowPrepared"),
    ("\\cursors", "ShowCursors"),
    ("\\parse p (int) AS SELECT $1", "Parse p (int ) select"),
    ("\\bind a p (1)", "Bind a p (1 )"),
    ("\\run a 2147483647", "Run a 2147483647"),
    ("\\end a", "EndPortal a"),
    ("\\sync", "Sync"),
];

/// Texts that are no command, most of them just missing one.
const REFUSED: [&str; 62] = [
    "PREPARE p SELECT 7",
    "PREPARE p () AS SELECT 7",
    "PREPARE p (int AS SELECT 7",
    "PREPARE p AS EXECUTE q",
    "PREPARE p AS",
    "PREPARE all AS SELECT 7",
    "EXECUTE",
    "EXECUTE p ()",
    "EXECUTE p (1,)",
    "EXECUTE p (1",
    "EXECUTE p 1",
    "EXPLAIN EXECUTE",
    "EXPLAIN PREPARE p AS SELECT 7",
    "DEALLOCATE",
    "DEALLOCATE p q",
    "DEALLOCATE \"prepare\" p",
    "DISCARD ALL",
    "DISCARD \"plans\"",
    "DECLARE CURSOR FOR SELECT 7",
    "DECLARE c NO CURSOR FOR SELECT 7",
    "DECLARE c CURSOR SCROLL FOR SELECT 7",
    "DECLARE c CURSOR WITH FOR SELECT 7",
    "DECLARE c CURSOR HOLD FOR SELECT 7",
    "DECLARE c CURSOR SELECT 7",
    "DECLARE c CURSOR FOR DELETE FROM t",
    "FETCH",
    "FETCH next",
    "FETCH \"next\" c",
    "FETCH FROM next c",
    "FETCH 2147483648 c",
    "FETCH -2147483648 c",
    "FETCH 99999999999999999999 c",
    "FETCH - c",
    "FETCH ABSOLUTE c",
    "FETCH RELATIVE ALL c",
    "FETCH FORWARD NEXT c",
    "MOVE ALL",
    "CLOSE",
    "CLOSE ALL c",
    "BEGIN WORK TRANSACTION",
    "BEGIN \"work\"",
    "START",
    "START WORK",
    "ABORT TO s",
    "ROLLBACK TO",
    "ROLLBACK SAVEPOINT s",
    "SAVEPOINT SAVEPOINT s",
    "RELEASE",
    "SET a b",
    "SET a TO",
    "SET a TO DEFAULT, b",
    "SET a TO b,",
    "SET a TO all",
    "SET a = -b",
    "SET on = 1",
    "SET SESSION LOCAL a = 1",
    "SHOW ALL",
    "\\Prepared",
    "\\prepared p",
    "\\bind a",
    "\\run a -1",
    "\\run a 2147483648",
];

fn show_statement(out: &mut String, statement: &Statement) -> Result<(), AllocError> {
    out.push_str(match statement {
        Statement::Select(_) => "select",
        Statement::ViewSelect(_) => "view",
        Statement::Insert(_) => "insert",
        Statement::Update(_) => "update",
        Statement::Delete(_) => "delete",
    })
}

fn show_prepare(out: &mut String, tree: &PrepareTree) -> Result<(), AllocError> {
    append(out, tree.name.as_str(), " (")?;
    for name in tree.types.as_slice() {
        append(out, name.as_str(), " ")?;
    }
    out.push_str(") ")?;
    show_statement(out, &tree.statement)
}

fn show_quoted(out: &mut String, text: &str) -> Result<(), AllocError> {
    append(out, "'", text)?;
    out.push('\'')
}

fn show_argument(out: &mut String, expr: &Expr) -> Result<(), AllocError> {
    match expr {
        Expr::Literal(Literal::Number(number)) => {
            let sign = if number.negative { "-" } else { "" };
            append(out, sign, number.digits.as_str())
        }
        Expr::Literal(Literal::Text(text)) => show_quoted(out, text.as_str()),
        Expr::Param(digits) => append(out, "$", digits.as_str()),
        _ => out.push('?'),
    }
}

fn show_execute(out: &mut String, tree: &ExecuteTree) -> Result<(), AllocError> {
    append(out, tree.name.as_str(), " (")?;
    for argument in tree.arguments.as_slice() {
        show_argument(out, argument)?;
        out.push(' ')?;
    }
    out.push(')')
}

fn show_where(out: &mut String, holds: bool, text: &str) -> Result<(), AllocError> {
    if holds { out.push_str(text) } else { Ok(()) }
}

fn show_options(out: &mut String, options: &CursorOptions) -> Result<(), AllocError> {
    show_where(out, options.scroll, " scroll")?;
    show_where(out, options.no_scroll, " no-scroll")?;
    show_where(out, options.insensitive, " insensitive")?;
    show_where(out, options.asensitive, " asensitive")
}

fn show_declare(out: &mut String, tree: &DeclareTree) -> Result<(), AllocError> {
    out.push_str(tree.name.as_str())?;
    show_options(out, &tree.options)?;
    show_where(out, tree.hold, " hold")?;
    out.push(' ')?;
    show_statement(out, &tree.query)
}

fn show_values(out: &mut String, values: &SettingList) -> Result<(), AllocError> {
    for value in values.as_slice() {
        append(
            out,
            if value.number { " #" } else { " " },
            value.text.as_str(),
        )?;
    }
    Ok(())
}

fn show_set(out: &mut String, tree: &SetTree) -> Result<(), AllocError> {
    out.push_str(if tree.local { "local " } else { "" })?;
    out.push_str(tree.name.as_str())?;
    match &tree.value {
        SetValue::Default => out.push_str(" default"),
        SetValue::List(values) => show_values(out, values),
    }
}

fn motion_text(alloc: Global, motion: Motion, cursor: &str) -> Result<String, AllocError> {
    format!(in alloc; "{motion:?} {cursor}")
}

/// The name of a command's variant, and what stands behind it but for trees of several parts.
fn name_of(command: &Command) -> (&'static str, &str) {
    match command {
        Command::Prepare(_) => ("Prepare", ""),
        Command::Execute(_) => ("Execute", ""),
        Command::Explain(_) => ("Explain", ""),
        Command::ExplainExecute(_) => ("ExplainExecute", ""),
        Command::Deallocate(name) => ("Deallocate", name.as_str()),
        Command::DeallocateAll => ("DeallocateAll", ""),
        Command::DiscardPlans => ("DiscardPlans", ""),
        Command::DiscardTemp => ("DiscardTemp", ""),
        Command::Declare(_) => ("Declare", ""),
        Command::Fetch(_) => ("Fetch", ""),
        Command::Move(_) => ("Move", ""),
        Command::Close(name) => ("Close", name.as_str()),
        Command::CloseAll => ("CloseAll", ""),
        Command::Begin => ("Begin", ""),
        Command::StartTransaction => ("StartTransaction", ""),
        Command::Commit => ("Commit", ""),
        Command::Rollback => ("Rollback", ""),
        Command::RollbackTo(name) => ("RollbackTo", name.as_str()),
        Command::Savepoint(name) => ("Savepoint", name.as_str()),
        Command::Release(name) => ("Release", name.as_str()),
        Command::Set(_) => ("Set", ""),
        Command::Reset(name) => ("Reset", name.as_str()),
        Command::Show(name) => ("Show", name.as_str()),
        Command::ShowPrepared => ("ShowPrepared", ""),
        Command::ShowCursors => ("ShowCursors", ""),
        Command::Parse(_) => ("Parse", ""),
        Command::Bind(tree) => ("Bind", tree.portal.as_str()),
        Command::Run(tree) => ("Run", tree.portal.as_str()),
        Command::EndPortal(name) => ("EndPortal", name.as_str()),
        Command::Sync => ("Sync", ""),
        _ => ("other", ""),
    }
}

/// Writes the parts of a command's tree, each behind a blank.
fn show_parts(alloc: Global, out: &mut String, command: &Command) -> Result<(), AllocError> {
    out.push(' ')?;
    match command {
        Command::Prepare(tree) | Command::Parse(tree) => show_prepare(out, tree),
        Command::Execute(tree) | Command::ExplainExecute(tree) => show_execute(out, tree),
        Command::Bind(tree) => show_execute(out, &tree.execute),
        Command::Explain(statement) => show_statement(out, statement),
        Command::Declare(tree) => show_declare(out, tree),
        Command::Set(tree) => show_set(out, tree),
        Command::Run(tree) => out.push_str(tree.count.to_string(alloc)?.as_str()),
        Command::Fetch(tree) | Command::Move(tree) => {
            out.push_str(motion_text(alloc, tree.motion, tree.cursor.as_str())?.as_str())
        }
        _ => Ok(()),
    }
}

fn show_front(out: &mut String, variant: &str, name: &str) -> Result<(), AllocError> {
    out.push_str(variant)?;
    if name.is_empty() {
        return Ok(());
    }
    append(out, " ", name)
}

/// Writes the command that a text spells.
fn show_text(alloc: Global, out: &mut String, text: &str) -> Result<(), Stop> {
    let command = read(alloc, text)?;
    let (variant, name) = name_of(&command);
    show_front(out, variant, name)?;
    show_parts(alloc, out, &command)?;
    Ok(())
}

fn shown(alloc: Global, text: &str) -> Result<String, Stop> {
    let mut out = String::new(alloc);
    show_text(alloc, &mut out, text)?;
    Ok(out)
}

#[test]
fn commands_are_read(rt: HostRuntime) -> Result<(), Fail> {
    for (text, tree) in &READ {
        assert_eq!(rt; shown(rt.alloc(), text)?.trim_end(), *tree, "at {text}");
    }
    Ok(())
}

#[test]
fn other_texts_are_refused(rt: HostRuntime) -> Result<(), Fail> {
    assert_eq!(rt; first_read(rt.alloc(), &REFUSED)?, None);
    Ok(())
}
