ghost use Rattle.std.specs.Prelude.{◌≡◌, [], ◌∷◌, IfOk};
ghost use Rattle.q_base.specs.Stops.{StopsBy};
ghost use Rattle.cat_names.specs.Lookup as name;

use cat_names::written;
use q_base::{Args, Code, ListOf, NoMemory, SqlError, Stop, Str, refusal_naming_two};
use sql_tree::QName;
use std::alloc::Global;

/// The refusal of a code whose text names `first`, `second` and `third`.
pub(crate) fn refusal_naming_three(
    alloc: Global,
    code: Code,
    first: &str,
    second: &str,
    third: &str,
) -> Stop
    ensures { StopsBy (λ e. e ≡ record { code = code; args = first.now ∷ second.now ∷ third.now ∷ [] }) result }
{
    match three_arguments(alloc, first, second, third) {
        Ok(args) => Stop::Sql(SqlError { code, args }),
        Err(NoMemory) => Stop::NoMemory,
    }
}

fn three_arguments(alloc: Global, first: &str, second: &str, third: &str) -> Result<Args, NoMemory>
    ensures { IfOk result (λ args. args ≡ first.now ∷ second.now ∷ third.now ∷ []) }
{
    let mut args = ListOf::new(alloc);
    args.push(Str::from_text(alloc, first)?)?;
    args.push(Str::from_text(alloc, second)?)?;
    args.push(Str::from_text(alloc, third)?)?;
    Ok(args)
}

/// The refusal of a code whose text names `first`, and then an object as it was written.
pub(crate) fn refusal_naming_in(alloc: Global, code: Code, first: &str, table: &QName) -> Stop
    ensures { StopsBy (λ e. e ≡ record { code = code; args = first.now ∷ name.written table.now ∷ [] }) result }
{
    match written(alloc, table) {
        Ok(text) => refusal_naming_two(alloc, code, first, text.as_str()),
        Err(NoMemory) => Stop::NoMemory,
    }
}

/// 55006: a portal that a query of this session holds open uses the table (PostgreSQL's CheckTableNotInUse in
/// tablecmds.c).
pub fn used_actively(alloc: Global, command: &str, table: &QName) -> Stop
    ensures { StopsBy (λ e. e ≡ record { code = Code.ObjectInUse; args = command.now ∷ name.written table.now ∷ [] }) result }
{
    refusal_naming_in(alloc, Code::ObjectInUse, command, table)
}

/// 42703 of a command that names a table.
pub(crate) fn no_such_column(alloc: Global, column: &str, table: &QName) -> Stop
    ensures { StopsBy (λ e. e ≡ record { code = Code.UnknownRelationColumn; args = column.now ∷ name.written table.now ∷ [] }) result }
{
    refusal_naming_in(alloc, Code::UnknownRelationColumn, column, table)
}
