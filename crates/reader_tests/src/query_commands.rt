use crate::shared::{append, is_syntax_error};
use q_base::{Stop, Str};
use sql_expr::Cursor;
use sql_reader_query::{
    names, optional_names, parenthesized_names, relation, select, statement, statement_command,
};
use sql_tokens::tokens;
use sql_tree::{
    Assignment, ColumnRef, Command, DeleteTree, Expr, FromChain, FromItem, InsertTree, Join,
    Literal, NameList, NewRow, NewValue, Numeral, OrderItem, OutputItem, PositionedTree, RowCount,
    Select, SelectCore, Statement, UpdateTree,
};
use std::alloc::{AllocError, Global};
use std::test::Fail;

/// Commands, and their trees: each part behind its word, an output name behind `:`, and a key with `+` or
/// `-` for its direction and `<` or `>` for nulls that come first or last.
const SPELT: [(&str, &str); 34] = [
    ("select 1", "select 1"),
    ("SELECT ALL a", "select a"),
    ("select distinct a, b", "select distinct a, b"),
    (
        "select *, t.*, \"S\".b, -1 c, $1 as \"D\"",
        "select *, t.*, S.b, -1:c, $1:D",
    ),
    ("select t . * , t.a", "select t.*, t.a"),
    (
        "select * from s.t x, u as v, w",
        "select * from s.t:x, u:v, w",
    ),
    (
        "select * from a join b on 1 inner join c d on e cross join s.f, g cross join h i",
        "select * from a join b on 1 join c:d on e cross s.f, g cross h:i",
    ),
    ("select a from t where b", "select a from t where b"),
    ("select a where b", "select a where b"),
    (
        "select a group by b, t.c having d",
        "select a group b, t.c having d",
    ),
    ("select a having b", "select a having b"),
    (
        "select a order by b, c asc, t.d desc",
        "select a order b+>, c+>, t.d-<",
    ),
    (
        "select a order by b nulls first, c asc nulls last, d desc nulls last, e desc nulls first",
        "select a order b+<, c+>, d->, e-<",
    ),
    (
        "select nulls order by first nulls first",
        "select nulls order first+<",
    ),
    (
        "select a nulls order by nulls",
        "select a:nulls order nulls+>",
    ),
    ("select a limit 5", "select a limit 5"),
    (
        "select a limit all offset - 2",
        "select a limit null offset -2",
    ),
    (
        "select a offset null limit null",
        "select a limit null offset null",
    ),
    ("select a offset $1", "select a offset $1"),
    (
        "select a offset 00 limit $12",
        "select a limit $12 offset 00",
    ),
    (
        "select a from b where c group by d having e order by f limit 1 offset 2",
        "select a from b where c group d having e order f+> limit 1 offset 2",
    ),
    ("insert into t values (1)", "insert t values (1)"),
    (
        "insert into s.t (a, b) values (1, default), (c), (default)",
        "insert s.t(a, b) values (1, default)(c)(default)",
    ),
    (
        "insert into t(a) values ($1) returning *, a b",
        "insert t(a) values ($1) returning *, a:b",
    ),
    ("update t set a = 1", "update t set a=1"),
    (
        "update s.t set a = default, b = c where d returning t.*",
        "update s.t set a=default, b=c where d returning t.*",
    ),
    ("delete from t", "delete t"),
    (
        "delete from s.t where a returning b as c, *",
        "delete s.t where a returning b:c, *",
    ),
    ("delete from t where current", "delete t where current"),
    ("delete from t where current = of", "delete t where .."),
    ("delete from t where current of c", "delete t at c"),
    (
        "delete from s.t where current of of returning a",
        "delete s.t returning a at of",
    ),
    (
        "update t set a = 1 where CURRENT OF \"C\"",
        "update t set a=1 at C",
    ),
    (
        "update t set a = b, c = default where current of d returning *",
        "update t set a=b, c=default returning * at d",
    ),
];

/// Texts that spell no statement and no positioned change.
const REFUSED: [&str; 69] = [
    "",
    "a",
    "\"select\" 1",
    "truncate t",
    "select",
    "select all",
    "select distinct from t",
    "select all distinct a",
    "select distinct all a",
    "select a,",
    "select , a",
    "select a b c",
    "select a as",
    "select a as from t",
    "select * a",
    "select t.* a",
    "select *.a",
    "select s.t.*",
    "select a from",
    "select a from t where",
    "select a from s.",
    "select a from r.s.t",
    "select a from t,",
    "select a from (b)",
    "select a from t join u",
    "select a from t join u on",
    "select a from t inner u on b",
    "select a from t inner cross join u",
    "select a from t cross u",
    "select a from t cross join u on b",
    "select a where b from t",
    "select a group b",
    "select a group by",
    "select a group by 1",
    "select a group by b.c.d",
    "select a having b group by c",
    "select a order b",
    "select a order by",
    "select a order by b as c",
    "select a order by b asc desc",
    "select a order by b nulls",
    "select a order by b nulls last desc",
    "select a limit",
    "select a limit b",
    "select a limit - - 1",
    "select a limit 1 + 1",
    "select a limit 1 limit 2",
    "select a limit 1 offset 2 limit 3",
    "select a offset 1 offset 2",
    "select a offset 1 limit 2 offset 3",
    "select a offset all",
    "select a limit 1 order by b",
    "insert t values (1)",
    "insert into t (a)",
    "insert into t () values (1)",
    "insert into t (a.b) values (1)",
    "insert into t values ()",
    "insert into t values (1) (2)",
    "insert into t select 1",
    "update t a set b = 1",
    "update t set a = 1,",
    "update t set t.a = 1",
    "update t set a = 1 returning b where c",
    "delete t",
    "delete from t returning",
    "delete from t where current of",
    "delete from t where \"current\" of c",
    "delete from t where not current of c",
    "delete from t where current of c and d",
];

fn show_digits(out: &mut String, number: &Numeral) -> Result<(), AllocError> {
    append(
        out,
        if number.negative { "-" } else { "" },
        number.digits.as_str(),
    )
}

fn show_param(out: &mut String, digits: &Str) -> Result<(), AllocError> {
    append(out, "$", digits.as_str())
}

fn show_name(out: &mut String, front: &Option<Str>, name: &Str) -> Result<(), AllocError> {
    if let Some(front) = front {
        append(out, front.as_str(), ".")?;
    }
    out.push_str(name.as_str())
}

/// Writes an expression that is one token or a column, and two dots for another.
fn show_expr(out: &mut String, expr: &Expr) -> Result<(), AllocError> {
    match expr {
        Expr::Column(column) => show_name(out, &column.item, &column.name),
        Expr::Literal(Literal::Number(number)) => show_digits(out, number),
        Expr::Param(digits) => show_param(out, digits),
        _ => out.push_str(".."),
    }
}

fn show_if_written(out: &mut String, word: &str, expr: &Option<Expr>) -> Result<(), AllocError> {
    match expr {
        Some(expr) => {
            out.push_str(word)?;
            show_expr(out, expr)
        }
        None => Ok(()),
    }
}

fn show_alias(out: &mut String, alias: &Option<Str>) -> Result<(), AllocError> {
    match alias {
        Some(alias) => append(out, ":", alias.as_str()),
        None => Ok(()),
    }
}

/// Writes the word before the first entry of a list, and a comma before another one.
fn separate(out: &mut String, word: &str, index: usize) -> Result<(), AllocError> {
    out.push_str(if index == 0 { word } else { ", " })
}

fn show_output(out: &mut String, output: &OutputItem) -> Result<(), AllocError> {
    match output {
        OutputItem::All => out.push('*'),
        OutputItem::AllOf(item) => append(out, item.as_str(), ".*"),
        OutputItem::Expr(expr, alias) => {
            show_expr(out, expr)?;
            show_alias(out, alias)
        }
    }
}

fn show_outputs(out: &mut String, word: &str, outputs: &[OutputItem]) -> Result<(), AllocError> {
    for (index, output) in outputs.iter().enumerate() {
        separate(out, word, index)?;
        show_output(out, output)?;
    }
    Ok(())
}

fn show_item(out: &mut String, item: &FromItem) -> Result<(), AllocError> {
    show_name(out, &item.relation.schema, &item.relation.name)?;
    show_alias(out, &item.alias)
}

fn show_inner(out: &mut String, item: &FromItem, condition: &Expr) -> Result<(), AllocError> {
    out.push_str(" join ")?;
    show_item(out, item)?;
    out.push_str(" on ")?;
    show_expr(out, condition)
}

fn show_cross(out: &mut String, item: &FromItem) -> Result<(), AllocError> {
    out.push_str(" cross ")?;
    show_item(out, item)
}

fn show_joins(out: &mut String, joins: &[Join]) -> Result<(), AllocError> {
    for join in joins {
        match join {
            Join::Inner(item, condition) => show_inner(out, item, condition)?,
            Join::Cross(item) => show_cross(out, item)?,
        }
    }
    Ok(())
}

fn show_from(out: &mut String, chains: &[FromChain]) -> Result<(), AllocError> {
    for (index, chain) in chains.iter().enumerate() {
        separate(out, " from ", index)?;
        show_item(out, &chain.first)?;
        show_joins(out, chain.joins.as_slice())?;
    }
    Ok(())
}

fn show_columns(out: &mut String, columns: &[ColumnRef]) -> Result<(), AllocError> {
    for (index, column) in columns.iter().enumerate() {
        separate(out, " group ", index)?;
        show_name(out, &column.item, &column.name)?;
    }
    Ok(())
}

fn show_order(out: &mut String, keys: &[OrderItem]) -> Result<(), AllocError> {
    for (index, key) in keys.iter().enumerate() {
        separate(out, " order ", index)?;
        show_expr(out, &key.expr)?;
        out.push(if key.descending { '-' } else { '+' })?;
        out.push(if key.nulls_first { '<' } else { '>' })?;
    }
    Ok(())
}

fn show_count(out: &mut String, word: &str, count: &Option<RowCount>) -> Result<(), AllocError> {
    let Some(count) = count else {
        return Ok(());
    };
    out.push_str(word)?;
    match count {
        RowCount::Number(number) => show_digits(out, number),
        RowCount::Param(digits) => show_param(out, digits),
        RowCount::Null => out.push_str("null"),
    }
}

fn show_core(out: &mut String, core: &SelectCore) -> Result<(), AllocError> {
    out.push_str(if core.distinct {
        "select distinct"
    } else {
        "select"
    })?;
    show_outputs(out, " ", core.outputs.as_slice())?;
    show_from(out, core.from.as_slice())?;
    show_if_written(out, " where ", &core.condition)
}

fn show_select(out: &mut String, query: &Select) -> Result<(), AllocError> {
    show_core(out, &query.core)?;
    show_columns(out, query.grouping.keys.as_slice())?;
    show_if_written(out, " having ", &query.grouping.having)?;
    show_order(out, query.order.as_slice())?;
    show_count(out, " limit ", &query.limits.limit)?;
    show_count(out, " offset ", &query.limits.offset)
}

fn show_value(out: &mut String, value: &NewValue) -> Result<(), AllocError> {
    match value {
        NewValue::Expr(expr) => show_expr(out, expr),
        NewValue::Default => out.push_str("default"),
    }
}

fn show_rows(out: &mut String, rows: &[NewRow]) -> Result<(), AllocError> {
    for row in rows {
        for (index, value) in row.as_slice().iter().enumerate() {
            separate(out, "(", index)?;
            show_value(out, value)?;
        }
        out.push(')')?;
    }
    Ok(())
}

fn show_names(out: &mut String, names: &NameList) -> Result<(), AllocError> {
    for (index, name) in names.as_slice().iter().enumerate() {
        separate(out, "(", index)?;
        out.push_str(name.as_str())?;
    }
    out.push_str(if names.as_slice().is_empty() { "" } else { ")" })
}

fn show_insert(out: &mut String, tree: &InsertTree) -> Result<(), AllocError> {
    out.push_str("insert ")?;
    show_name(out, &tree.table.schema, &tree.table.name)?;
    show_names(out, &tree.columns)?;
    out.push_str(" values ")?;
    show_rows(out, tree.rows.as_slice())?;
    show_outputs(out, " returning ", tree.returning.as_slice())
}

fn show_assignments(out: &mut String, assignments: &[Assignment]) -> Result<(), AllocError> {
    for (index, assignment) in assignments.iter().enumerate() {
        separate(out, " set ", index)?;
        append(out, assignment.column.as_str(), "=")?;
        show_value(out, &assignment.value)?;
    }
    Ok(())
}

fn show_update(out: &mut String, tree: &UpdateTree) -> Result<(), AllocError> {
    out.push_str("update ")?;
    show_name(out, &tree.table.schema, &tree.table.name)?;
    show_assignments(out, tree.assignments.as_slice())?;
    show_if_written(out, " where ", &tree.condition)?;
    show_outputs(out, " returning ", tree.returning.as_slice())
}

fn show_delete(out: &mut String, tree: &DeleteTree) -> Result<(), AllocError> {
    out.push_str("delete ")?;
    show_name(out, &tree.table.schema, &tree.table.name)?;
    show_if_written(out, " where ", &tree.condition)?;
    show_outputs(out, " returning ", tree.returning.as_slice())
}

fn show_statement(out: &mut String, statement: &Statement) -> Result<(), AllocError> {
    match statement {
        Statement::Select(query) => show_select(out, query),
        Statement::Insert(tree) => show_insert(out, tree),
        Statement::Update(tree) => show_update(out, tree),
        Statement::Delete(tree) => show_delete(out, tree),
        Statement::ViewSelect(_) => Ok(()),
    }
}

fn show_positioned(out: &mut String, change: &PositionedTree) -> Result<(), AllocError> {
    show_statement(out, &change.statement)?;
    append(out, " at ", change.cursor.as_str())
}

/// Whether the command is a statement or a positioned change, which is then written.
fn show_command(out: &mut String, command: &Command) -> Result<bool, AllocError> {
    match command {
        Command::Statement(statement) => show_statement(out, statement)?,
        Command::Positioned(change) => show_positioned(out, change)?,
        _ => return Ok(false),
    }
    Ok(true)
}

/// Whether the whole text spells a command, whose tree is then written behind `out`.
fn read(alloc: Global, out: &mut String, text: &str) -> Result<bool, Stop> {
    let tokens = tokens(alloc, text)?;
    let mut cursor = Cursor::new(tokens.as_slice());
    let command = statement_command(alloc, &mut cursor)?;
    Ok(show_command(out, &command)? && cursor.left() == 0)
}

fn is_refused(alloc: Global, text: &str) -> Result<bool, AllocError> {
    let mut out = String::new(alloc);
    match read(alloc, &mut out, text) {
        Ok(spelt) => Ok(!spelt),
        Err(stop) => is_syntax_error(&stop),
    }
}

#[test]
fn statements_are_read_by_their_grammar(rt: HostRuntime) -> Result<(), Fail> {
    for (text, tree) in &SPELT {
        let mut out = String::new(rt.alloc());
        assert!(rt; read(rt.alloc(), &mut out, text)?, "at {text}");
        assert_eq!(rt; out.as_str(), *tree, "at {text}");
    }
    Ok(())
}

#[test]
fn other_texts_are_refused(rt: HostRuntime) -> Result<(), Fail> {
    for text in &REFUSED {
        assert!(rt; is_refused(rt.alloc(), text)?, "at {text}");
    }
    Ok(())
}

fn is_table_t(alloc: Global, cursor: &mut Cursor<'_>) -> Result<bool, Stop> {
    Ok(relation(alloc, cursor)?.name.as_str() == "t")
}

fn count_names(alloc: Global, cursor: &mut Cursor<'_>) -> Result<usize, Stop> {
    Ok(names(alloc, cursor)?.as_slice().len())
}

fn count_in_parentheses(alloc: Global, cursor: &mut Cursor<'_>) -> Result<usize, Stop> {
    Ok(parenthesized_names(alloc, cursor)?.as_slice().len())
}

fn count_optional(alloc: Global, cursor: &mut Cursor<'_>) -> Result<usize, Stop> {
    Ok(optional_names(alloc, cursor)?.as_slice().len())
}

fn count_outputs(alloc: Global, cursor: &mut Cursor<'_>) -> Result<usize, Stop> {
    Ok(select(alloc, cursor)?.core.outputs.as_slice().len())
}

fn is_delete(alloc: Global, cursor: &mut Cursor<'_>) -> Result<bool, Stop> {
    Ok(matches!(statement(alloc, cursor)?, Statement::Delete(_)))
}

#[test]
fn names_are_read_up_to_their_end(rt: HostRuntime) -> Result<(), Fail> {
    let tokens = tokens(rt.alloc(), "s.t a, \"B\", c (d, e) select")?;
    let mut cursor = Cursor::new(tokens.as_slice());
    assert!(rt; is_table_t(rt.alloc(), &mut cursor)?);
    assert_eq!(rt; count_names(rt.alloc(), &mut cursor)?, 3);
    assert_eq!(rt; count_in_parentheses(rt.alloc(), &mut cursor)?, 2);
    assert_eq!(rt; count_optional(rt.alloc(), &mut cursor)?, 0);
    assert_eq!(rt; cursor.left(), 1);
    Ok(())
}

#[test]
fn statements_are_read_up_to_their_end(rt: HostRuntime) -> Result<(), Fail> {
    let tokens = tokens(rt.alloc(), "select f g h delete from i where current of j")?;
    let mut cursor = Cursor::new(tokens.as_slice());
    assert_eq!(rt; count_outputs(rt.alloc(), &mut cursor)?, 1);
    assert_eq!(rt; cursor.left(), 8);
    cursor.skip();
    assert!(rt; is_delete(rt.alloc(), &mut cursor)?);
    assert_eq!(rt; cursor.left(), 2);
    Ok(())
}
