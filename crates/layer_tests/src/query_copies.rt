use q_base::{ColId, IdList, ListOf, NoMemory, ObjId, Str};
use q_value::{SqlType, Value};
use query_tree::{
    Aggregate, AggregateList, AggregatePlace, ArithmeticOp, AssignedColumn, Assignment,
    ColumnPlace, CompareOp, CondList, Copies, Item, ItemList, Query, Relation, ResultColumn,
    ResultType, SortKey, SortKeyList, Target, TargetList, direct,
};
use sqlite_items::{Boxed, Items};
use std::alloc::Global;
use std::test::Fail;

fn named(name: Str) -> Option<ResultColumn> {
    Some(ResultColumn {
        name,
        kind: SqlType::Int4,
    })
}

fn columns(alloc: Global) -> Result<ListOf<Option<ResultColumn>>, NoMemory> {
    let mut columns = ListOf::new(alloc);
    columns.push(None)?;
    columns.push(named(Str::from_text(alloc, "b")?))?;
    Ok(columns)
}

fn relation(alloc: Global, id: u32) -> Result<Relation, NoMemory> {
    Ok(Relation {
        id: ObjId(id),
        name: Str::from_text(alloc, "t")?,
        alias: Some(Str::from_text(alloc, "x")?),
        columns: columns(alloc)?,
        on_conds: 0,
    })
}

fn column() -> Target {
    Target::Column(
        SqlType::Int4,
        ColumnPlace {
            item: 0,
            column: ColId(1),
            place: 1,
        },
    )
}

fn count() -> Target {
    Target::Aggregate(
        SqlType::Int8,
        AggregatePlace {
            number: 0,
            place: 6,
        },
    )
}

fn both(alloc: Global) -> Result<Target, NoMemory> {
    let is_null = Target::IsNull(Boxed::new(alloc, count())?, false);
    let mut both = Items::new(alloc);
    both.push(less(alloc)?)?;
    both.push(is_null)?;
    Ok(Target::And(both))
}

fn either(alloc: Global) -> Result<Target, NoMemory> {
    let mut either = Items::new(alloc);
    either.push(both(alloc)?)?;
    either.push(Target::Const(SqlType::Bool, Value::Bool(true)))?;
    Ok(Target::Or(either))
}

/// A condition with each form of targets: `NOT (- b + 7 < $1 AND count(*) IS NULL OR true)`.
fn condition(alloc: Global) -> Result<Target, NoMemory> {
    Ok(Target::Not(Boxed::new(alloc, either(alloc)?)?))
}

fn minus(alloc: Global) -> Result<Target, NoMemory> {
    let inner = Boxed::new(alloc, column())?;
    Ok(Target::Negate(SqlType::Int4, inner))
}

fn sum(alloc: Global) -> Result<Target, NoMemory> {
    let minus = Boxed::new(alloc, minus(alloc)?)?;
    let seven = Boxed::new(alloc, Target::Const(SqlType::Int4, Value::Int4(7)))?;
    Ok(Target::Arithmetic(ArithmeticOp::Add, SqlType::Int4, minus, seven))
}

fn less(alloc: Global) -> Result<Target, NoMemory> {
    let sum = Boxed::new(alloc, sum(alloc)?)?;
    let param = Boxed::new(alloc, Target::Param(SqlType::Int8, 1))?;
    Ok(Target::Compare(CompareOp::Less, sum, param))
}

fn empty(alloc: Global) -> Query {
    Query {
        items: Items::new(alloc),
        conds: ListOf::new(alloc),
        targets: ListOf::new(alloc),
        grouped: true,
        keys: ListOf::new(alloc),
        aggregates: ListOf::new(alloc),
        aggregate_calls: 1,
        having: ListOf::new(alloc),
        distinct: true,
        order: ListOf::new(alloc),
        limit: None,
        offset: Some(Target::Param(SqlType::Int8, 2)),
    }
}

#[derive(Clone, Copy)]
enum Form {
    Table,
    View,
    Derived,
}

fn item(alloc: Global, form: Form, id: u32) -> Result<Item, NoMemory> {
    let relation = relation(alloc, id)?;
    match form {
        Form::Table => Ok(Item::Table(relation)),
        Form::View => Ok(Item::View(relation)),
        Form::Derived => Ok(Item::Derived(relation, Boxed::new(alloc, empty(alloc))?)),
    }
}

const ITEMS: [(Form, u32); 4] = [
    (Form::Table, 7),
    (Form::View, 3),
    (Form::Derived, 5),
    (Form::Table, 3),
];

fn items(alloc: Global) -> Result<ItemList, NoMemory> {
    let mut items = Items::new(alloc);
    for (form, id) in &ITEMS {
        items.push(item(alloc, *form, *id)?)?;
    }
    Ok(items)
}

fn conds(alloc: Global) -> Result<CondList, NoMemory> {
    let mut conds = ListOf::new(alloc);
    conds.push(condition(alloc)?)?;
    Ok(conds)
}

fn aggregates(alloc: Global) -> Result<AggregateList, NoMemory> {
    let mut aggregates = ListOf::new(alloc);
    aggregates.push(Aggregate::CountRows)?;
    aggregates.push(Aggregate::Max(column()))?;
    Ok(aggregates)
}

fn key() -> SortKey {
    SortKey {
        target: column(),
        desc: true,
        nulls_first: false,
    }
}

fn order(alloc: Global) -> Result<SortKeyList, NoMemory> {
    let mut order = ListOf::new(alloc);
    order.push(key())?;
    Ok(order)
}

fn sample(alloc: Global) -> Result<Query, NoMemory> {
    Ok(Query {
        items: items(alloc)?,
        conds: conds(alloc)?,
        aggregates: aggregates(alloc)?,
        order: order(alloc)?,
        ..empty(alloc)
    })
}

fn copied(alloc: Global) -> Result<Query, NoMemory> {
    sample(alloc)?.copy(alloc)
}

#[test]
fn queries_are_copied(rt: HostRuntime) -> Result<(), Fail> {
    let ids = direct(rt.alloc(), &copied(rt.alloc())?)?;
    assert_eq!(rt; ids.as_slice(), [ObjId(3), ObjId(5), ObjId(7)].as_slice());
    Ok(())
}

fn copied_condition(alloc: Global) -> Result<Target, NoMemory> {
    condition(alloc)?.copy(alloc)
}

#[test]
fn conditions_are_copied(rt: HostRuntime) -> Result<(), Fail> {
    let cond = copied_condition(rt.alloc())?;
    assert!(rt; cond.is_fallible() && cond.kind() == SqlType::Bool);
    assert!(rt; !count().is_fallible());
    Ok(())
}

/// The column of a copied assignment.
fn copied_column(alloc: Global, column: AssignedColumn) -> Result<AssignedColumn, NoMemory> {
    let value = self::column();
    Ok(Assignment { column, value }.copy(alloc)?.column)
}

/// How many rows of targets a copy of one has.
fn copied_rows(alloc: Global) -> Result<usize, NoMemory> {
    let mut rows: ListOf<TargetList> = ListOf::new(alloc);
    rows.push(ListOf::new(alloc))?;
    Ok(rows.copy(alloc)?.as_slice().len())
}

#[test]
fn other_values_are_copied(rt: HostRuntime) -> Result<(), Fail> {
    let column = AssignedColumn {
        id: ColId(2),
        kind: SqlType::Int2,
    };
    assert_eq!(rt; copied_column(rt.alloc(), column)?, column);
    assert_eq!(rt; copied_rows(rt.alloc())?, 1);
    let result = ResultType { columns: None };
    assert!(rt; result.copy(rt.alloc())?.columns.is_none());
    Ok(())
}
