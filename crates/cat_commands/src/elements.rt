ghost use Rattle.std.specs.Prelude.{◌≡◌, [], IfOk};
ghost use Rattle.q_value.specs.Answers.{Answers};
ghost use Rattle.cat_commands.specs.Elements as spec;

use crate::defaults::default_of;
use crate::keys::is_in_primary;
use crate::limits::{MOST_COLUMNS, check_within};
use crate::names::check_unrepeated;
use crate::types::column_type;
use cat_core::{Column, ColumnList};
use q_base::{ColId, ListOf, NoMemory, Stop};
use sql_tree::{ColumnDef, NameList, Nullability, TableElement};
use std::alloc::Global;

/// The names of the columns that a command defines, in order: 54000 with over 128 of them, 42701 for one that stood before,
/// 42704 for a type.
#[tactic(auto, unfolding(crate::specs::Elements::checked_names))]
pub(crate) fn checked_names(alloc: Global, elements: &[TableElement]) -> Result<NameList, Stop>
    ensures { Answers (spec.checked_names elements.now) result }
{
    let names = names_of(alloc, elements)?;
    check_within(alloc, MOST_COLUMNS, names.as_slice().len())?;
    check_unrepeated(alloc, names.as_slice())?;
    check_types(alloc, elements)?;
    Ok(names)
}

fn names_of(alloc: Global, elements: &[TableElement]) -> Result<NameList, NoMemory>
    ensures { IfOk result (λ names. names ≡ spec.names_of elements.now) }
{
    let mut names = ListOf::new(alloc);
    for element in elements {
        if let TableElement::Column(column) = element {
            names.push(column.name.copy(alloc)?)?;
        }
    }
    Ok(names)
}

fn check_types(alloc: Global, elements: &[TableElement]) -> Result<(), Stop>
    ensures { Answers (spec.typed elements.now) result }
{
    for element in elements {
        if let TableElement::Column(column) = element {
            column_type(alloc, column.type_name.as_str())?;
        }
    }
    Ok(())
}

/// The columns that a command defines, with the ids from 0 on.
pub(crate) fn columns_of(alloc: Global, elements: &[TableElement]) -> Result<ColumnList, Stop>
    ensures { Answers (spec.columns_from elements.now [] elements.now) result }
{
    let mut columns = ListOf::new(alloc);
    let mut next = 0u32;
    for element in elements {
        if let TableElement::Column(written) = element {
            let primary = is_in_primary(elements, written.name.as_str());
            columns.push(column_of(alloc, ColId(next), written, primary)?)?;
            next = next.saturating_add(1);
        }
    }
    Ok(columns)
}

/// A column as its definition says; 42704 for its type, and the refusals of its default.
#[tactic(auto, unfolding(crate::specs::Elements::column_of))]
pub(crate) fn column_of(
    alloc: Global,
    id: ColId,
    written: &ColumnDef,
    primary: bool,
) -> Result<Column, Stop>
    ensures { Answers (spec.column_of id written.now primary) result }
{
    let kind = column_type(alloc, written.type_name.as_str())?;
    let default_value = default_of(alloc, &written.default, written.name.as_str(), kind)?;
    Ok(Column {
        id,
        name: written.name.copy(alloc)?,
        kind,
        not_null: primary || forbids_null(written.nullability),
        default_value,
    })
}

fn forbids_null(nullability: Nullability) -> bool
    ensures { result ≡ spec.forbids_null nullability }
{
    match nullability {
        Nullability::NotNull => true,
        Nullability::Null | Nullability::Unsaid => false,
    }
}
