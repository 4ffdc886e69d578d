use crate::shared::{append, first_read, read, show_names};
use q_base::{Stop, Str};
use sql_tree::{
    AlterAction, ColumnDef, Command, IndexTree, KeyConstraint, KeyKind, Literal, Nullability,
    ObjectKind, OnCommit, QName, SchemaCommand, Statement, TableElement, TableTree, ViewTree,
};
use std::alloc::{AllocError, Global};
use std::test::Fail;

/// Commands that make or drop something, and what is read of each: names as they are, then flags and lists.
const READ: [(&str, &str); 25] = [
    ("CREATE SCHEMA \"Select\"", "create schema Select"),
    (
        "CREATE TABLE s.\"T\"\"\" (A Integer, \"primary\" \"Int\", key key)",
        "create table s.T\" (a integer, primary Int, key key)",
    ),
    (
        "create table t (a int not null default -1 primary key unique)",
        "create table t (a int notnull =-1 primary unique)",
    ),
    (
        "create table t (a text unique default 'x' null primary key, b int unique)",
        "create table t (a text null ='x unique primary, b int unique)",
    ),
    (
        "create table t (a int default null, b int default true, c int default false, d int default 7)",
        "create table t (a int =NULL, b int =TRUE, c int =FALSE, d int =7)",
    ),
    (
        "create table t (primary key (a, b), a int, unique (\"c\"))",
        "create table t ([primary a b], a int, [unique c])",
    ),
    (
        "create table temp (unique (temp))",
        "create table temp ([unique temp])",
    ),
    (
        "CREATE TEMP TABLE t (a int)",
        "create temp preserve t (a int)",
    ),
    (
        "create temporary table s.t (a int) on commit preserve rows",
        "create temp preserve s.t (a int)",
    ),
    (
        "create temp table t (a int) on commit delete rows",
        "create temp delete t (a int)",
    ),
    (
        "create temp table t (a int) on commit drop",
        "create temp drop t (a int)",
    ),
    (
        "CREATE INDEX index ON view (a)",
        "create index index view a",
    ),
    (
        "create unique index i on s.t (a, b)",
        "create unique i s.t a b",
    ),
    ("CREATE VIEW view AS SELECT 1", "create view view as 1"),
    (
        "create or replace view s.v (a, b) as select x, y from t",
        "replace view s.v a b as 2",
    ),
    ("DROP SCHEMA schema", "drop schema schema"),
    ("drop table s.t cascade", "drop table cascade s.t"),
    ("drop table cascade", "drop table cascade"),
    ("DROP VIEW restrict RESTRICT", "drop view restrict"),
    ("drop index i", "drop index i"),
    ("TRUNCATE t", "truncate t"),
    ("truncate table \"table\"", "truncate table"),
    ("ANALYZE", "analyze"),
    ("analyze s.analyze", "analyze s.analyze"),
    (
        "ALTER SCHEMA rename RENAME TO schema",
        "alter schema rename schema",
    ),
];

/// What stands behind ALTER TABLE t, and what is read of it.
const ALTERED: [(&str, &str); 30] = [
    ("ADD COLUMN a int default -2 null", "add a int null =-2"),
    ("add a int not null", "add a int notnull"),
    ("add column int", "add column int"),
    ("add column int int", "add int int"),
    ("add column int default 'x'", "add column int ='x"),
    ("add \"column\" int", "add column int"),
    ("DROP COLUMN a", "drop a"),
    ("drop column", "drop column"),
    ("drop column column", "drop column"),
    ("RENAME COLUMN a TO b", "rename a b"),
    ("rename column to b", "rename column b"),
    ("rename \"to\" to r", "rename to r"),
    ("RENAME TO r", "renamed r"),
    ("SET SCHEMA s", "set schema s"),
    ("ALTER COLUMN a TYPE bigint", "type a bigint"),
    ("alter a set data type bigint", "type a bigint"),
    ("alter column type int", "type column int"),
    ("alter column type type", "type column type"),
    ("alter column type type int", "type type int"),
    ("alter column type drop", "type column drop"),
    ("alter column drop type drop", "type drop drop"),
    ("ALTER COLUMN a SET DEFAULT 'x'", "default a 'x"),
    ("alter column set default -3", "default column -3"),
    ("alter column type set default true", "default type TRUE"),
    ("alter a drop default", "nodefault a"),
    ("alter column drop default", "nodefault column"),
    ("alter column drop drop default", "nodefault drop"),
    ("ALTER COLUMN a SET NOT NULL", "notnull a"),
    ("alter column drop not null", "null column"),
    ("alter column type drop not null", "null type"),
];

/// Texts that are no commands.
const REFUSED: [&str; 52] = [
    "create schema s.t",
    "create table t ()",
    "create table t (a)",
    "create table t (a int,)",
    "create table t (a int) on commit drop",
    "create table t (primary int)",
    "create table t (a int null null)",
    "create table t (a int null default 1 not null)",
    "create table t (a int default 1 default 1)",
    "create table t (a int primary key unique primary key)",
    "create table t (a int primary)",
    "create table t (a int default b)",
    "create table t (a int default - - 1)",
    "create table t (a int default -'x')",
    "create table t (a int default 1 + 1)",
    "create table t (primary key a)",
    "create table t (unique ())",
    "create temp view v as select 1",
    "create temp table t (a int) on commit preserve",
    "create temp table t (a int) on commit drop rows",
    "create temp table t (a int) on delete rows",
    "create index on t (a)",
    "create index s.i on t (a)",
    "create index i on t (a desc)",
    "create unique table t (a int)",
    "create or replace table t (a int)",
    "create replace view v as select 1",
    "create view v () as select 1",
    "create view v as delete from t",
    "drop schema s cascade",
    "drop table t, u",
    "drop table t cascade restrict",
    "truncate",
    "truncate t cascade",
    "analyze select",
    "analyze s.",
    "alter schema s to r",
    "alter table t",
    "alter view t rename to r",
    "alter table t add a int not null null",
    "alter table t add column a int primary key",
    "alter table t add a int unique",
    "alter table t add column column int int",
    "alter table t drop column a cascade",
    "alter table t rename column to",
    "alter table t rename to s.r",
    "alter table t alter column drop",
    "alter table t alter column type int int",
    "alter table t alter \"column\" a type int",
    "alter table t alter a set type int",
    "alter table t alter a set default b",
    "alter table t alter a drop null",
];

fn show_relation(out: &mut String, before: &str, name: &QName) -> Result<(), AllocError> {
    out.push_str(before)?;
    if let Some(schema) = &name.schema {
        append(out, schema.as_str(), ".")?;
    }
    out.push_str(name.name.as_str())
}

fn show_literal(out: &mut String, before: &str, literal: &Literal) -> Result<(), AllocError> {
    out.push_str(before)?;
    match literal {
        Literal::Number(number) => append(
            out,
            if number.negative { "-" } else { "" },
            number.digits.as_str(),
        ),
        Literal::Text(text) => append(out, "'", text.as_str()),
        Literal::Null => out.push_str("NULL"),
        Literal::Bool(truth) => out.push_str(if *truth { "TRUE" } else { "FALSE" }),
    }
}

fn key_word(kind: KeyKind) -> &'static str {
    match kind {
        KeyKind::Primary => "primary",
        KeyKind::Unique => "unique",
    }
}

fn nullability_word(nullability: Nullability) -> &'static str {
    match nullability {
        Nullability::Unsaid => "",
        Nullability::Null => " null",
        Nullability::NotNull => " notnull",
    }
}

fn show_default(out: &mut String, value: &Option<Literal>) -> Result<(), AllocError> {
    match value {
        Some(value) => show_literal(out, " =", value),
        None => Ok(()),
    }
}

fn show_keys(out: &mut String, keys: &[KeyKind]) -> Result<(), AllocError> {
    for kind in keys {
        append(out, " ", key_word(*kind))?;
    }
    Ok(())
}

fn show_column(out: &mut String, def: &ColumnDef) -> Result<(), AllocError> {
    show_two(out, "", &def.name, &def.type_name)?;
    out.push_str(nullability_word(def.nullability))?;
    show_default(out, &def.default)?;
    show_keys(out, def.keys.as_slice())
}

fn show_key(out: &mut String, key: &KeyConstraint) -> Result<(), AllocError> {
    append(out, "[", key_word(key.kind))?;
    show_names(out, key.columns.as_slice())?;
    out.push(']')
}

fn show_element(out: &mut String, element: &TableElement) -> Result<(), AllocError> {
    match element {
        TableElement::Column(def) => show_column(out, def),
        TableElement::Key(key) => show_key(out, key),
    }
}

fn show_table(out: &mut String, before: &str, tree: &TableTree) -> Result<(), AllocError> {
    show_relation(out, before, &tree.name)?;
    for (index, element) in tree.elements.as_slice().iter().enumerate() {
        out.push_str(if index == 0 { " (" } else { ", " })?;
        show_element(out, element)?;
    }
    out.push(')')
}

fn show_two(out: &mut String, before: &str, first: &Str, second: &Str) -> Result<(), AllocError> {
    append(out, before, first.as_str())?;
    append(out, " ", second.as_str())
}

fn show_added(out: &mut String, def: &ColumnDef) -> Result<(), AllocError> {
    out.push_str("add ")?;
    show_column(out, def)
}

fn show_new_default(out: &mut String, column: &Str, value: &Literal) -> Result<(), AllocError> {
    append(out, "default ", column.as_str())?;
    show_literal(out, " ", value)
}

fn show_action(out: &mut String, action: &AlterAction) -> Result<(), AllocError> {
    match action {
        AlterAction::AddColumn(def) => show_added(out, def),
        AlterAction::DropColumn(column) => append(out, "drop ", column.as_str()),
        AlterAction::RenameColumn(column, new) => show_two(out, "rename ", column, new),
        AlterAction::RenameTo(new) => append(out, "renamed ", new.as_str()),
        AlterAction::SetSchema(schema) => append(out, "set schema ", schema.as_str()),
        AlterAction::SetType(column, name) => show_two(out, "type ", column, name),
        AlterAction::SetDefault(column, value) => show_new_default(out, column, value),
        AlterAction::DropDefault(column) => append(out, "nodefault ", column.as_str()),
        AlterAction::SetNotNull(column) => append(out, "notnull ", column.as_str()),
        AlterAction::DropNotNull(column) => append(out, "null ", column.as_str()),
    }
}

fn show_schema(out: &mut String, command: &SchemaCommand) -> Result<(), AllocError> {
    match command {
        SchemaCommand::Create(name) => append(out, "create schema ", name.as_str()),
        SchemaCommand::Drop(name) => append(out, "drop schema ", name.as_str()),
        SchemaCommand::Rename(old, new) => show_two(out, "alter schema ", old, new),
    }
}

fn words_of_drop(kind: ObjectKind, cascade: bool) -> &'static str {
    match (kind, cascade) {
        (ObjectKind::Table, false) => "drop table ",
        (ObjectKind::Table, true) => "drop table cascade ",
        (ObjectKind::View, false) => "drop view ",
        (ObjectKind::View, true) => "drop view cascade ",
        (ObjectKind::Index, false) => "drop index ",
        (ObjectKind::Index, true) => "drop index cascade ",
    }
}

fn words_of_temp(ends: OnCommit) -> &'static str {
    match ends {
        OnCommit::Preserve => "create temp preserve ",
        OnCommit::Delete => "create temp delete ",
        OnCommit::Drop => "create temp drop ",
    }
}

/// Writes the query as the count of its outputs.
fn show_query(out: &mut String, query: &Statement) -> Result<(), AllocError> {
    match query {
        Statement::ViewSelect(select) => match select.core.outputs.as_slice().len() {
            1 => out.push_str(" as 1"),
            2 => out.push_str(" as 2"),
            _ => out.push_str(" as"),
        },
        _ => out.push_str(" as another statement"),
    }
}

fn show_index(out: &mut String, tree: &IndexTree) -> Result<(), AllocError> {
    let words = if tree.unique {
        "create unique "
    } else {
        "create index "
    };
    append(out, words, tree.name.as_str())?;
    show_relation(out, " ", &tree.table)?;
    show_names(out, tree.columns.as_slice())
}

fn show_view(out: &mut String, tree: &ViewTree) -> Result<(), AllocError> {
    let words = if tree.replace {
        "replace view "
    } else {
        "create view "
    };
    show_relation(out, words, &tree.name)?;
    show_names(out, tree.columns.as_slice())?;
    show_query(out, &tree.query)
}

fn show(out: &mut String, command: &Command) -> Result<(), AllocError> {
    match command {
        Command::Schema(inner) => show_schema(out, inner),
        Command::CreateTable(tree) => show_table(out, "create table ", tree),
        Command::CreateTempTable(tree) => {
            show_table(out, words_of_temp(tree.on_commit), &tree.table)
        }
        Command::CreateIndex(tree) => show_index(out, tree),
        Command::CreateView(tree) => show_view(out, tree),
        Command::Drop(tree) => {
            show_relation(out, words_of_drop(tree.kind, tree.cascade), &tree.name)
        }
        Command::AlterTable(tree) => show_action(out, &tree.action),
        Command::Truncate(name) => show_relation(out, "truncate ", name),
        Command::Analyze(None) => out.push_str("analyze"),
        Command::Analyze(Some(name)) => show_relation(out, "analyze ", name),
        _ => out.push_str("another command"),
    }
}

/// Writes the command that a text spells.
fn show_text(alloc: Global, out: &mut String, text: &str) -> Result<(), Stop> {
    let command = read(alloc, text)?;
    show(out, &command)?;
    Ok(())
}

fn shown(alloc: Global, text: &str) -> Result<String, Stop> {
    let mut out = String::new(alloc);
    show_text(alloc, &mut out, text)?;
    Ok(out)
}

#[test]
fn commands_are_read(rt: HostRuntime) -> Result<(), Fail> {
    for (text, tree) in &READ {
        assert_eq!(rt; shown(rt.alloc(), text)?.as_str(), *tree, "at {text}");
    }
    Ok(())
}

fn altered(alloc: Global, text: &str) -> Result<String, AllocError> {
    let mut whole = String::from_str(alloc, "alter table t ")?;
    whole.push_str(text)?;
    Ok(whole)
}

#[test]
fn changes_of_tables_are_read(rt: HostRuntime) -> Result<(), Fail> {
    for (text, tree) in &ALTERED {
        let whole = altered(rt.alloc(), text)?;
        assert_eq!(rt;
            shown(rt.alloc(), whole.as_str())?.as_str(),
            *tree,
            "at {text}"
        );
    }
    Ok(())
}

#[test]
fn other_texts_are_refused(rt: HostRuntime) -> Result<(), Fail> {
    assert_eq!(rt; first_read(rt.alloc(), &REFUSED)?, None);
    Ok(())
}
