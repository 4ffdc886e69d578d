use crate::{
    AlterTree, BindTree, DeclareTree, DropTree, ExecuteTree, FetchTree, IndexTree, PositionedTree,
    PrepareTree, QName, RunTree, SchemaCommand, Statement, TableTree, TempTableTree, ViewTree,
};
use q_base::{SetValue, Str};

/// SET; `local` says that LOCAL is written.
#[derive(Drop)]
pub struct SetTree {
    pub name: Str,
    pub local: bool,
    pub value: SetValue,
}

/// A command of a script.
#[derive(Drop)]
pub enum Command {
    Statement(Statement),
    /// UPDATE or DELETE with WHERE CURRENT OF.
    Positioned(PositionedTree),
    Prepare(PrepareTree),
    Execute(ExecuteTree),
    Explain(Statement),
    ExplainExecute(ExecuteTree),
    Deallocate(Str),
    DeallocateAll,
    DiscardPlans,
    DiscardTemp,
    Declare(DeclareTree),
    Fetch(FetchTree),
    Move(FetchTree),
    Close(Str),
    CloseAll,
    Begin,
    StartTransaction,
    /// COMMIT or END.
    Commit,
    /// ROLLBACK or ABORT.
    Rollback,
    RollbackTo(Str),
    Savepoint(Str),
    Release(Str),
    Set(SetTree),
    Reset(Str),
    Show(Str),
    Schema(SchemaCommand),
    CreateTable(TableTree),
    CreateTempTable(TempTableTree),
    CreateIndex(IndexTree),
    CreateView(ViewTree),
    Drop(DropTree),
    AlterTable(AlterTree),
    Truncate(QName),
    /// ANALYZE of a table, or of all.
    Analyze(Option<QName>),
    /// The line `\prepared`.
    ShowPrepared,
    /// The line `\cursors`.
    ShowCursors,
    /// The line `\parse`.
    Parse(PrepareTree),
    /// The line `\bind`.
    Bind(BindTree),
    /// The line `\run`.
    Run(RunTree),
    /// The line `\end`, with the portal.
    EndPortal(Str),
    /// The line `\sync`.
    Sync,
}
