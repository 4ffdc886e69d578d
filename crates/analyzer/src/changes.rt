//! INSERT, UPDATE and DELETE.

ghost use Rattle.std.specs.Prelude.{◌≡◌, [], IfOk};
ghost use Rattle.q_value.specs.Answers.{Answers};
ghost use Rattle.expr_analysis.specs.Analysis.{Does};
ghost use Rattle.expr_analysis.specs.Sights.{sight};
ghost use Rattle.analyzer.specs.Changes as spec;

use crate::assignments::{
    Changed, NewColumn, NewColumnList, assigned, check_listed, check_set, first_columns,
    named_columns,
};
use crate::clauses::condition;
use crate::outputs::{Outputs, select_list};
use crate::queries::check_last;
use expr_analysis::{Allowed, Scope, ScopeItem, State, no_items};
use q_base::{Code, ListOf, NoMemory, Stop, refusal};
use query_tree::{Assignment, AssignmentList, CondList, TargetList, ValuesList};
use sql_tree::{
    Assignment as SetClause, DeleteTree, Expr, InsertTree, NameList, NewRow, NewValue, OutputItem,
    UpdateTree,
};
use std::alloc::Global;

/// No aggregate and no arithmetic stands in WHERE and RETURNING of a change.
fn change_place() -> Allowed
    ensures { result ≡ spec.change_place }
{
    Allowed {
        aggregates: false,
        arithmetic: false,
        in_aggregate: false,
    }
}

/// The changed table as expressions see it.
fn scope_of(items: &[ScopeItem]) -> Scope<'_>
    ensures { sight result ≡ spec.scope_of items.now }
{
    Scope {
        first: 0,
        items,
        width: 0,
    }
}

/// What stands behind RETURNING.
#[tactic(auto, unfolding(crate::specs::Changes::returning_list))]
fn returning_list(
    alloc: Global,
    state: &mut State,
    items: &[ScopeItem],
    written: &[OutputItem],
) -> Result<Outputs, Stop>
    ensures { Does (spec.returning_list items.now written.now state.old) result state.new }
{
    let outputs = select_list(
        alloc,
        state,
        scope_of(items),
        change_place(),
        false,
        written,
    )?;
    match check_last(alloc, state, outputs.as_slice().len()) {
        Ok(()) => Ok(outputs),
        Err(stop) => {
            drop(outputs);
            Err(stop)
        }
    }
}

fn where_conds(
    alloc: Global,
    state: &mut State,
    items: &[ScopeItem],
    written: &Option<Expr>,
) -> Result<CondList, Stop>
    ensures { Does (spec.where_conds items.now written.now state.old) result state.new }
{
    condition(
        alloc,
        state,
        scope_of(items),
        change_place(),
        "WHERE",
        written,
    )
}

/// The columns that VALUES gives: 42703 and 42701 in the written list, and then 42601 where the tuples are of
/// different lengths, or have more values than columns, or fewer than a written list.
#[tactic(auto, unfolding(crate::specs::Changes::given_columns))]
pub(crate) fn given_columns(
    alloc: Global,
    changed: &Changed,
    written: &InsertTree,
) -> Result<NewColumnList, Stop>
    ensures { Answers (spec.given_columns changed.now written.now) result }
{
    let names = written.columns.as_slice();
    check_listed(alloc, changed, names)?;
    let columns = changed.columns.as_slice();
    let rows = written.rows.as_slice();
    if names.is_empty() {
        check_lengths(alloc, rows, columns.len(), false)?;
        Ok(first_columns(alloc, columns, length_of(rows))?)
    } else {
        check_lengths(alloc, rows, names.len(), true)?;
        Ok(named_columns(alloc, columns, names)?)
    }
}

/// How long the tuples are, by the first of them.
fn length_of(rows: &[NewRow]) -> usize
    ensures { result ≡ spec.length_of rows.now }
{
    match rows {
        [row, ..] => row.as_slice().len(),
        [] => 0,
    }
}

#[tactic(auto, unfolding(crate::specs::Changes::check_lengths))]
fn check_lengths(alloc: Global, rows: &[NewRow], columns: usize, listed: bool) -> Result<(), Stop>
    ensures { Answers (spec.check_lengths rows.now columns listed) result }
{
    let length = length_of(rows);
    if is_even(rows, length) && fits(length, columns, listed) {
        Ok(())
    } else {
        Err(refusal(alloc, Code::SyntaxError))
    }
}

fn is_even(rows: &[NewRow], length: usize) -> bool
    ensures { result ≡ spec.is_even length rows.now }
{
    for row in rows {
        if row.as_slice().len() != length {
            return false;
        }
    }
    true
}

fn fits(length: usize, columns: usize, listed: bool) -> bool
    ensures { result ≡ spec.fits length columns listed }
{
    if listed {
        length == columns
    } else {
        length <= columns
    }
}

/// The tuples and RETURNING of an INSERT, analysed.
#[derive(Drop)]
pub struct InsertParts {
    pub rows: ValuesList,
    pub returning: Outputs,
}

#[tactic(auto, unfolding(crate::specs::Changes::read_insert))]
pub(crate) fn read_insert(
    alloc: Global,
    state: &mut State,
    items: &[ScopeItem],
    columns: &[NewColumn],
    written: &InsertTree,
) -> Result<InsertParts, Stop>
    ensures { Does (spec.read_insert items.now columns.now written.now state.old) result state.new }
{
    let rows = read_rows(alloc, state, columns, written.rows.as_slice())?;
    let returning = returning_list(alloc, state, items, written.returning.as_slice())?;
    Ok(InsertParts { rows, returning })
}

fn read_rows(
    alloc: Global,
    state: &mut State,
    columns: &[NewColumn],
    written: &[NewRow],
) -> Result<ValuesList, Stop>
    ensures { Does (spec.rows_from columns.now [] written.now state.old) result state.new }
{
    let mut found = ListOf::new(alloc);
    for row in written {
        found.push(read_row(alloc, state, columns, row.as_slice())?)?;
    }
    Ok(found)
}

/// The values of a tuple, which see no column.
fn read_row(
    alloc: Global,
    state: &mut State,
    columns: &[NewColumn],
    written: &[NewValue],
) -> Result<TargetList, Stop>
    ensures { Does (spec.row_from [] columns.now written.now state.old) result state.new }
{
    let mut found = ListOf::new(alloc);
    let mut rest = columns;
    for value in written {
        let [column, others @ ..] = rest else {
            return Ok(found);
        };
        found.push(assigned(alloc, state, no_items(), column, value)?)?;
        rest = others;
    }
    Ok(found)
}

/// The columns that SET gives.
#[tactic(auto, unfolding(crate::specs::Changes::set_columns))]
pub(crate) fn set_columns(
    alloc: Global,
    changed: &Changed,
    written: &[SetClause],
) -> Result<NewColumnList, Stop>
    ensures { Answers (spec.set_columns changed.now written.now) result }
{
    let names = set_names(alloc, written)?;
    let checked = check_set(alloc, changed, names.as_slice());
    let columns = named_columns(alloc, changed.columns.as_slice(), names.as_slice());
    drop(names);
    checked?;
    Ok(columns?)
}

fn set_names(alloc: Global, written: &[SetClause]) -> Result<NameList, NoMemory>
    ensures { IfOk result (λ names. names ≡ spec.set_names written.now) }
{
    let mut names = ListOf::new(alloc);
    for clause in written {
        names.push(clause.column.copy(alloc)?)?;
    }
    Ok(names)
}

/// SET, WHERE and RETURNING of an UPDATE, analysed.
#[derive(Drop)]
pub struct UpdateParts {
    pub assignments: AssignmentList,
    pub conds: CondList,
    pub returning: Outputs,
}

#[tactic(auto, unfolding(crate::specs::Changes::read_update))]
pub(crate) fn read_update(
    alloc: Global,
    state: &mut State,
    items: &[ScopeItem],
    columns: &[NewColumn],
    written: &UpdateTree,
) -> Result<UpdateParts, Stop>
    ensures { Does (spec.read_update items.now columns.now written.now state.old) result state.new }
{
    let assignments = read_set(alloc, state, items, columns, written.assignments.as_slice())?;
    let conds = where_conds(alloc, state, items, &written.condition)?;
    let returning = returning_list(alloc, state, items, written.returning.as_slice())?;
    Ok(UpdateParts {
        assignments,
        conds,
        returning,
    })
}

fn read_set(
    alloc: Global,
    state: &mut State,
    items: &[ScopeItem],
    columns: &[NewColumn],
    written: &[SetClause],
) -> Result<AssignmentList, Stop>
    ensures { Does (spec.set_from items.now [] columns.now written.now state.old) result state.new }
{
    let mut found = ListOf::new(alloc);
    let mut rest = columns;
    for clause in written {
        let [column, others @ ..] = rest else {
            return Ok(found);
        };
        let value = assigned(alloc, state, scope_of(items), column, &clause.value)?;
        found.push(Assignment {
            column: column.column,
            value,
        })?;
        rest = others;
    }
    Ok(found)
}

/// WHERE and RETURNING of a DELETE, analysed.
#[derive(Drop)]
pub struct DeleteParts {
    pub conds: CondList,
    pub returning: Outputs,
}

#[tactic(auto, unfolding(crate::specs::Changes::read_delete))]
pub(crate) fn read_delete(
    alloc: Global,
    state: &mut State,
    items: &[ScopeItem],
    written: &DeleteTree,
) -> Result<DeleteParts, Stop>
    ensures { Does (spec.read_delete items.now written.now state.old) result state.new }
{
    let conds = where_conds(alloc, state, items, &written.condition)?;
    let returning = returning_list(alloc, state, items, written.returning.as_slice())?;
    Ok(DeleteParts { conds, returning })
}
