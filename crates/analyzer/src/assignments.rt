//! What INSERT and UPDATE give columns.

ghost use Rattle.std.specs.Prelude.{◌≡◌, [], map, take, IfOk};
ghost use Rattle.std.specs.Option.{option_copied};
ghost use Rattle.q_base.specs.Stops.{StopsBy};
ghost use Rattle.q_value.specs.Answers.{Answers};
ghost use Rattle.expr_analysis.specs.Analysis.{Does};
ghost use Rattle.expr_analysis.specs.Sights.{sight};
ghost use Rattle.analyzer.specs.Assignments as spec;

use crate::naming::{Names, object_of};
use crate::relations::scope_item;
use cat_core::{Catalog, Column, Def, Entry, TableDef};
use cat_names::{refusal_of, written as written_name};
use expr_analysis::{
    Allowed, Scope, ScopeItem, State, give, is_assignable, operand, refusal_naming_three,
};
use q_base::{Code, ListOf, NoMemory, Stop, Str, refusal, refusal_naming, refusal_naming_two};
use q_value::{SqlType, Value};
use query_tree::{AssignedColumn, AssignedColumnList, Assignment, AssignmentList, Target};
use sql_tree::{Expr, NewValue, QName};
use std::alloc::Global;

/// A column of the changed table, with its name and its default.
#[derive(Drop)]
pub struct NewColumn {
    pub column: AssignedColumn,
    pub name: Str,
    /// A value of the column's type, null where none is declared.
    pub default: Value,
}

/// Columns of the changed table.
pub(crate) type NewColumnList = ListOf<NewColumn>;

/// The table that a statement changes.
#[derive(Drop)]
pub struct Changed {
    /// The table as an item.
    pub items: [ScopeItem; 1],
    /// The name as it was written, for refusals.
    pub written: Str,
    pub columns: NewColumnList,
}

/// The table of an INSERT, UPDATE or DELETE: 42P01 where its name means no object, 42809 where that is no table.
pub(crate) fn changed_table(
    alloc: Global,
    names: Names<'_>,
    catalog: &Catalog,
    written: &QName,
) -> Result<Changed, Stop> {
    let id = object_of(alloc, names, catalog, 0, written)?;
    match catalog.entry(id) {
        Some(entry) => changed_entry(alloc, entry, written),
        None => Err(refusal_of(alloc, Code::UnknownRelation, written)),
    }
}

fn changed_entry(alloc: Global, entry: &Entry, written: &QName) -> Result<Changed, Stop> {
    match &entry.def {
        Def::Table(table) => Ok(changed_of(alloc, entry, table, written)?),
        Def::View(_) | Def::Index(_) => Err(refusal_of(alloc, Code::NotATable, written)),
    }
}

fn changed_of(
    alloc: Global,
    entry: &Entry,
    table: &TableDef,
    written: &QName,
) -> Result<Changed, NoMemory> {
    let columns = new_columns(alloc, table.columns.as_slice())?;
    let name = written_name(alloc, written)?;
    Ok(Changed {
        items: [scope_item(alloc, entry, &written.name, &None, &[])?],
        written: name,
        columns,
    })
}

fn new_columns(alloc: Global, columns: &[Column]) -> Result<NewColumnList, NoMemory>
    ensures { IfOk result (λ found. found ≡ map spec.new_column columns.now) }
{
    let mut found = ListOf::new(alloc);
    for column in columns {
        found.push(new_column(alloc, column)?)?;
    }
    Ok(found)
}

fn new_column(alloc: Global, column: &Column) -> Result<NewColumn, NoMemory>
    ensures { IfOk result (λ found. found ≡ spec.new_column column.now) }
{
    let name = column.name.copy(alloc)?;
    Ok(NewColumn {
        column: AssignedColumn {
            id: column.id,
            kind: column.kind,
        },
        name,
        default: default_of(alloc, column)?,
    })
}

fn default_of(alloc: Global, column: &Column) -> Result<Value, NoMemory>
    ensures { IfOk result (λ value. value ≡ spec.default_of column.now.default_value) }
{
    match &column.default_value {
        Some(value) => value.copy(alloc),
        None => Ok(Value::Null),
    }
}

fn copied_column(alloc: Global, column: &NewColumn) -> Result<NewColumn, NoMemory>
    ensures { IfOk result (λ copy. copy ≡ column.now) }
{
    let name = column.name.copy(alloc)?;
    Ok(NewColumn {
        column: column.column,
        name,
        default: column.default.copy(alloc)?,
    })
}

/// The first columns, no more than `count`.
pub(crate) fn first_columns(
    alloc: Global,
    columns: &[NewColumn],
    count: usize,
) -> Result<NewColumnList, NoMemory>
    ensures { IfOk result (λ found. found ≡ take count columns.now) }
{
    copied_columns(alloc, front(columns, count))
}

#[tactic(auto, using(std::proofs::lemmas::List::take_all))]
fn front(columns: &[NewColumn], count: usize) -> &[NewColumn]
    ensures { result.now ≡ take count columns.now }
{
    if count < columns.len() {
        &columns[..count]
    } else {
        columns
    }
}

fn copied_columns(alloc: Global, columns: &[NewColumn]) -> Result<NewColumnList, NoMemory>
    ensures { IfOk result (λ found. found ≡ columns.now) }
{
    let mut found = ListOf::new(alloc);
    for column in columns {
        found.push(copied_column(alloc, column)?)?;
    }
    Ok(found)
}

/// The columns of the names, of which `check_known` has refused none.
pub(crate) fn named_columns(
    alloc: Global,
    columns: &[NewColumn],
    names: &[Str],
) -> Result<NewColumnList, NoMemory>
    ensures { IfOk result (λ found. found ≡ spec.named_from columns.now [] names.now) }
{
    let mut found = ListOf::new(alloc);
    for name in names {
        if let Some(column) = column_named(columns, name.as_str()) {
            found.push(copied_column(alloc, column)?)?;
        }
    }
    Ok(found)
}

fn column_named<'a>(columns: &'a [NewColumn], name: &str) -> Option<&'a NewColumn>
    ensures { option_copied result ≡ spec.column_named name.now columns.now }
{
    for column in columns {
        if column.name.as_str() == name {
            return Some(column);
        }
    }
    None
}

/// The first name that the table has no column of is 42703.
pub(crate) fn check_known(alloc: Global, changed: &Changed, names: &[Str]) -> Result<(), Stop>
    ensures { Answers (spec.check_known changed.now names.now) result }
{
    for name in names {
        if column_named(changed.columns.as_slice(), name.as_str()).is_none() {
            let table = changed.written.as_str();
            let code = Code::UnknownRelationColumn;
            return Err(refusal_naming_two(alloc, code, name.as_str(), table));
        }
    }
    Ok(())
}

/// The columns of an INSERT's list: 42703, and then 42701 for a name that stands twice.
#[tactic(auto, unfolding(crate::specs::Assignments::check_listed))]
pub(crate) fn check_listed(alloc: Global, changed: &Changed, names: &[Str]) -> Result<(), Stop>
    ensures { Answers (spec.check_listed changed.now names.now) result }
{
    check_known(alloc, changed, names)?;
    match repeated(names) {
        Some(name) => Err(refusal_naming(alloc, Code::ColumnSpecifiedTwice, name.as_str())),
        None => Ok(()),
    }
}

/// The columns of an UPDATE's SET: 42703, and then 42601 for a name that stands twice.
#[tactic(auto, unfolding(crate::specs::Assignments::check_set))]
pub(crate) fn check_set(alloc: Global, changed: &Changed, names: &[Str]) -> Result<(), Stop>
    ensures { Answers (spec.check_set changed.now names.now) result }
{
    check_known(alloc, changed, names)?;
    match repeated(names) {
        Some(_) => Err(refusal(alloc, Code::SyntaxError)),
        None => Ok(()),
    }
}

/// The first name that stands before already.
fn repeated(names: &[Str]) -> Option<&Str>
    ensures { option_copied result ≡ spec.repeated_from [] names.now }
{
    for place in 0..names.len() {
        if stands_in(&names[..place], names[place].as_str()) {
            return Some(&names[place]);
        }
    }
    None
}

fn stands_in(names: &[Str], name: &str) -> bool
    ensures { result ≡ spec.stands_in name.now names.now }
{
    for other in names {
        if other.as_str() == name {
            return true;
        }
    }
    false
}

/// The ids and types of columns.
pub(crate) fn assigned_columns(
    alloc: Global,
    columns: &[NewColumn],
) -> Result<AssignedColumnList, NoMemory>
    ensures { IfOk result (λ found. found ≡ spec.assigned_columns columns.now) }
{
    let mut found = ListOf::new(alloc);
    for column in columns {
        found.push(column.column)?;
    }
    Ok(found)
}

/// The defaults of the columns that aren't given.
pub(crate) fn other_defaults(
    alloc: Global,
    columns: &[NewColumn],
    given: &[NewColumn],
) -> Result<AssignmentList, NoMemory>
    ensures { IfOk result (λ found. found ≡ spec.defaults_from given.now [] columns.now) }
{
    let mut found = ListOf::new(alloc);
    for column in columns {
        if !is_given(given, column) {
            found.push(default_assignment(alloc, column)?)?;
        }
    }
    Ok(found)
}

fn is_given(given: &[NewColumn], column: &NewColumn) -> bool
    ensures { result ≡ spec.is_given column.now given.now }
{
    for other in given {
        if other.column.id.0 == column.column.id.0 {
            return true;
        }
    }
    false
}

fn default_assignment(alloc: Global, column: &NewColumn) -> Result<Assignment, NoMemory>
    ensures { IfOk result (λ found. found ≡ spec.default_assignment column.now) }
{
    Ok(Assignment {
        column: column.column,
        value: default_target(alloc, column)?,
    })
}

/// A column's default as a constant.
fn default_target(alloc: Global, column: &NewColumn) -> Result<Target, NoMemory>
    ensures { IfOk result (λ found. found ≡ spec.default_target column.now) }
{
    Ok(Target::Const(column.column.kind, column.default.copy(alloc)?))
}

/// Arithmetic stands in VALUES and SET.
fn value_place() -> Allowed
    ensures { result ≡ spec.value_place }
{
    Allowed {
        aggregates: false,
        arithmetic: true,
        in_aggregate: false,
    }
}

/// What a column is given: 42804 where a value of the type isn't assigned to the column. A parameter takes the
/// column's type.
pub(crate) fn assigned(
    alloc: Global,
    state: &mut State,
    scope: Scope<'_>,
    column: &NewColumn,
    written: &NewValue,
) -> Result<Target, Stop>
    ensures { Does (spec.assigned (sight scope.entry) column.now written.now state.old) result state.new }
{
    match written {
        NewValue::Default => Ok(default_target(alloc, column)?),
        NewValue::Expr(written) => assigned_expr(alloc, state, scope, column, written),
    }
}

#[tactic(auto, unfolding(crate::specs::Assignments::assigned_expr))]
fn assigned_expr(
    alloc: Global,
    state: &mut State,
    scope: Scope<'_>,
    column: &NewColumn,
    written: &Expr,
) -> Result<Target, Stop>
    ensures { Does (spec.assigned_expr (sight scope.entry) column.now written.now state.old) result state.new }
{
    let node = operand(alloc, state, scope, value_place(), written)?;
    let target = give(alloc, state, node, column.column.kind)?;
    let found = target.kind();
    if is_assignable(found, column.column.kind) {
        Ok(target)
    } else {
        drop(target);
        Err(not_assignable(alloc, column, found))
    }
}

fn not_assignable(alloc: Global, column: &NewColumn, found: SqlType) -> Stop
    ensures { StopsBy (λ e. e ≡ spec.not_assignable column.now found) result }
{
    let name = column.name.as_str();
    let code = Code::ColumnTypeMismatch;
    refusal_naming_three(alloc, code, name, column.column.kind.name(), found.name())
}
