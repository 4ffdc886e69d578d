ghost use Rattle.std.specs.Prelude.{◌≡◌, ◌++◌, false, IfOk, OnOk};
ghost use Rattle.q_value.specs.Answers.{Answers};
ghost use Rattle.cat_commands.specs.Keys as spec;

use crate::limits::{MOST_KEY_COLUMNS, check_within};
use crate::names::{check_unrepeated, is_named};
use cat_names::refusal_of;
use q_base::{Code, ListOf, NoMemory, Stop, Str, refusal_naming};
use query_tree::Copies;
use sql_tree::{ColumnDef, KeyConstraint, KeyKind, NameList, QName, TableElement};
use std::alloc::Global;

/// The keys of a table, in the order as written.
pub(crate) type KeyConstraintList = ListOf<KeyConstraint>;

/// Tells whether a primary key names the column.
pub(crate) fn is_in_primary(elements: &[TableElement], name: &str) -> bool
    ensures { result ≡ spec.is_in_primary name.now elements.now }
{
    for element in elements {
        if makes_primary(element, name) {
            return true;
        }
    }
    false
}

fn makes_primary(element: &TableElement, name: &str) -> bool
    ensures { result ≡ spec.makes_primary name.now element.now }
{
    match element {
        TableElement::Column(column) => {
            column.name.as_str() == name && has_primary(column.keys.as_slice())
        }
        TableElement::Key(key) => is_primary(key.kind) && is_named(key.columns.as_slice(), name),
    }
}

fn has_primary(kinds: &[KeyKind]) -> bool
    ensures { result ≡ spec.has_primary kinds.now }
{
    for kind in kinds {
        if is_primary(*kind) {
            return true;
        }
    }
    false
}

pub(crate) fn is_primary(kind: KeyKind) -> bool
    ensures { result ≡ spec.is_primary kind }
{
    match kind {
        KeyKind::Primary => true,
        KeyKind::Unique => false,
    }
}

/// The keys of a new table with columns of these names: 42P16 with two primary keys, 42703, 42701, and 54000 for more than
/// 8 columns.
#[tactic(auto, unfolding(crate::specs::Keys::checked_keys))]
pub(crate) fn checked_keys(
    alloc: Global,
    table: &QName,
    elements: &[TableElement],
    columns: &[Str],
) -> Result<KeyConstraintList, Stop>
    ensures { Answers (spec.checked_keys table.now elements.now columns.now) result }
{
    let keys = keys_of(alloc, elements)?;
    check_keys(alloc, table, keys.as_slice(), columns)?;
    Ok(keys)
}

#[tactic(auto, unfolding(crate::specs::Keys::check_keys))]
fn check_keys(
    alloc: Global,
    table: &QName,
    keys: &[KeyConstraint],
    columns: &[Str],
) -> Result<(), Stop>
    ensures { Answers (spec.check_keys table.now keys.now columns.now) result }
{
    check_primary(alloc, table, keys)?;
    check_known(alloc, keys, columns)?;
    check_once(alloc, keys)?;
    check_lengths(alloc, keys)
}

fn keys_of(alloc: Global, elements: &[TableElement]) -> Result<KeyConstraintList, NoMemory>
    ensures { IfOk result (λ keys. keys ≡ spec.keys_of elements.now) }
{
    let mut keys = ListOf::new(alloc);
    for element in elements {
        add_keys(alloc, &mut keys, element)?;
    }
    Ok(keys)
}

fn add_keys(
    alloc: Global,
    keys: &mut KeyConstraintList,
    element: &TableElement,
) -> Result<(), NoMemory>
    ensures { OnOk result (keys.new ≡ keys.old ++ spec.keys_in element.now) }
{
    match element {
        TableElement::Column(column) => add_column_keys(alloc, keys, column),
        TableElement::Key(key) => add_key(alloc, keys, key.kind, &key.columns),
    }
}

fn add_key(
    alloc: Global,
    keys: &mut KeyConstraintList,
    kind: KeyKind,
    columns: &NameList,
) -> Result<(), NoMemory>
    ensures { OnOk result (keys.new ≡ keys.old ++ spec.key_on kind columns.now) }
{
    let columns = columns.copy(alloc)?;
    keys.push(KeyConstraint { kind, columns })
}

fn add_column_keys(
    alloc: Global,
    keys: &mut KeyConstraintList,
    column: &ColumnDef,
) -> Result<(), NoMemory>
    ensures { OnOk result (keys.new ≡ keys.old ++ spec.column_keys column.now.name column.now.keys) }
{
    for kind in column.keys.as_slice() {
        keys.push(key_of_one(alloc, *kind, &column.name)?)?;
    }
    Ok(())
}

fn key_of_one(alloc: Global, kind: KeyKind, name: &Str) -> Result<KeyConstraint, NoMemory>
    ensures { IfOk result (λ key. key ≡ spec.key_of_one kind name.now) }
{
    let mut columns = ListOf::new(alloc);
    columns.push(name.copy(alloc)?)?;
    Ok(KeyConstraint { kind, columns })
}

fn check_primary(alloc: Global, table: &QName, keys: &[KeyConstraint]) -> Result<(), Stop>
    ensures { Answers (spec.one_primary table.now keys.now) result }
{
    if has_two_primary(keys) {
        return Err(refusal_of(alloc, Code::TwoPrimaryKeys, table));
    }
    Ok(())
}

fn has_two_primary(keys: &[KeyConstraint]) -> bool
    ensures { result ≡ spec.has_two_primary false keys.now }
{
    let mut found = false;
    for key in keys {
        if is_primary(key.kind) {
            if found {
                return true;
            }
            found = true;
        }
    }
    false
}

fn check_known(alloc: Global, keys: &[KeyConstraint], columns: &[Str]) -> Result<(), Stop>
    ensures { Answers (spec.known columns.now keys.now) result }
{
    for key in keys {
        check_columns(alloc, key.columns.as_slice(), columns)?;
    }
    Ok(())
}

/// 42703 for the first name that no column has.
pub(crate) fn check_columns(alloc: Global, names: &[Str], columns: &[Str]) -> Result<(), Stop>
    ensures { Answers (spec.known_columns columns.now names.now) result }
{
    for name in names {
        if !is_named(columns, name.as_str()) {
            return Err(refusal_naming(alloc, Code::UnknownColumn, name.as_str()));
        }
    }
    Ok(())
}

fn check_once(alloc: Global, keys: &[KeyConstraint]) -> Result<(), Stop>
    ensures { Answers (spec.once keys.now) result }
{
    for key in keys {
        check_unrepeated(alloc, key.columns.as_slice())?;
    }
    Ok(())
}

fn check_lengths(alloc: Global, keys: &[KeyConstraint]) -> Result<(), Stop>
    ensures { Answers (spec.short keys.now) result }
{
    for key in keys {
        check_within(alloc, MOST_KEY_COLUMNS, key.columns.as_slice().len())?;
    }
    Ok(())
}
