ghost use Rattle.std.specs.Prelude.{◌≡◌, [], map, IfOk, OnOk};
ghost use Rattle.expr_analysis.specs.Analysis.{Does};
ghost use Rattle.expr_analysis.specs.Sights.{sight};
ghost use Rattle.analyzer.specs.Adding.{Adds};
ghost use Rattle.analyzer.specs.Outputs as spec;

use expr_analysis::{Allowed, Node, Scope, ScopeItem, State, give, operand, place_of, typed};
use q_base::{Code, ListOf, NoMemory, Stop, Str, refusal, refusal_naming};
use q_value::SqlType;
use query_tree::{ColumnPlace, ResultColumn, Target};
use sql_tree::{Expr, Literal, OutputItem};
use std::alloc::Global;

/// An output of the select list, with its name.
#[derive(Drop)]
pub struct Output {
    pub target: Target,
    pub name: Str,
}

/// The outputs of a select list, in order.
pub(crate) type Outputs = ListOf<Output>;

/// The select list or, where it isn't `top`, what stands behind RETURNING. The first reading passes over a
/// refused `*`.
pub(crate) fn select_list(
    alloc: Global,
    state: &mut State,
    scope: Scope<'_>,
    place: Allowed,
    top: bool,
    written: &[OutputItem],
) -> Result<Outputs, Stop>
    ensures { Does (spec.outputs_from (sight scope.entry) place top [] written.now state.old) result state.new }
{
    let mut found = ListOf::new(alloc);
    for item in written {
        match item {
            OutputItem::Expr(expr, alias) => {
                found.push(read_output(alloc, state, scope, place, top, expr, alias)?)?;
            }
            OutputItem::All => add_all(alloc, &mut found, state.first, scope)?,
            OutputItem::AllOf(item) => {
                add_all_of(alloc, &mut found, state.first, scope, item.as_str())?;
            }
        }
    }
    Ok(found)
}

/// `*`: the columns of all items in order. Without FROM it is 42601.
#[tactic(auto, unfolding(crate::specs::Outputs::all_columns))]
fn add_all(alloc: Global, found: &mut Outputs, first: bool, scope: Scope<'_>) -> Result<(), Stop>
    ensures { Adds (spec.all_columns first (sight scope.entry) found.old) result found.new }
{
    if scope.items.is_empty() {
        return check_star(alloc, first);
    }
    let mut number = scope.first;
    for item in scope.items {
        add_columns(alloc, found, number, item)?;
        number = number.saturating_add(1);
    }
    Ok(())
}

/// `t.*`: the columns of the item `t`, which is 42P01 where there is none.
#[tactic(auto, unfolding(crate::specs::Outputs::all_columns_of))]
fn add_all_of(
    alloc: Global,
    found: &mut Outputs,
    first: bool,
    scope: Scope<'_>,
    named: &str,
) -> Result<(), Stop>
    ensures { Adds (spec.all_columns_of first (sight scope.entry) named.now found.old) result found.new }
{
    let mut number = scope.first;
    for item in scope.items {
        if item.name.as_str() == named {
            return Ok(add_columns(alloc, found, number, item)?);
        }
        number = number.saturating_add(1);
    }
    check_star_of(alloc, first, named)
}

/// The columns of an item, those that were dropped left out.
fn add_columns(
    alloc: Global,
    found: &mut Outputs,
    number: usize,
    item: &ScopeItem,
) -> Result<(), NoMemory>
    ensures { OnOk result (found.new ≡ spec.with_columns found.old number item.now) }
{
    let mut id = 0_u32;
    for column in item.relation.columns.as_slice() {
        if let Some(column) = column {
            found.push(column_output(alloc, place_of(number, item.offset, id), column)?)?;
        }
        id = id.saturating_add(1);
    }
    Ok(())
}

fn column_output(
    alloc: Global,
    place: ColumnPlace,
    column: &ResultColumn,
) -> Result<Output, NoMemory>
    ensures { IfOk result (λ output. output ≡ spec.column_output place column.now) }
{
    Ok(Output {
        target: Target::Column(column.kind, place),
        name: column.name.copy(alloc)?,
    })
}

/// `*` without FROM is 42601.
fn check_star(alloc: Global, first: bool) -> Result<(), Stop>
    ensures { spec.StarAnswers spec.star_refused first result }
{
    if first {
        Ok(())
    } else {
        Err(refusal(alloc, Code::SyntaxError))
    }
}

/// `t.*` without an item `t` is 42P01.
fn check_star_of(alloc: Global, first: bool, item: &str) -> Result<(), Stop>
    ensures { spec.StarAnswers (spec.star_of_refused item.now) first result }
{
    if first {
        Ok(())
    } else {
        Err(refusal_naming(alloc, Code::MissingFromEntry, item))
    }
}

#[tactic(auto, unfolding(crate::specs::Outputs::read_output))]
fn read_output(
    alloc: Global,
    state: &mut State,
    scope: Scope<'_>,
    place: Allowed,
    top: bool,
    written: &Expr,
    alias: &Option<Str>,
) -> Result<Output, Stop>
    ensures { Does (spec.read_output (sight scope.entry) place top written.now alias.now state.old) result state.new }
{
    let node = operand(alloc, state, scope, place, written)?;
    let target = output_target(alloc, state, top, written, node)?;
    let name = output_name(alloc, written, alias)?;
    Ok(Output { target, name })
}

/// A string, NULL or parameter alone is a text, and in a select list a parameter takes that type.
#[tactic(auto, unfolding(crate::specs::Outputs::output_target))]
fn output_target(
    alloc: Global,
    state: &mut State,
    top: bool,
    written: &Expr,
    node: Node,
) -> Result<Target, Stop>
    ensures { Does (spec.output_target top written.now node state.old) result state.new }
{
    match written {
        Expr::Param(_) if top => give(alloc, state, node, SqlType::Text),
        _ => typed(alloc, node, SqlType::Text),
    }
}

/// The alias; else the name of a column or function; else `bool` for TRUE and FALSE, and `?column?`.
#[tactic(auto, unfolding(crate::specs::Outputs::output_name))]
fn output_name(alloc: Global, written: &Expr, alias: &Option<Str>) -> Result<Str, NoMemory>
    ensures { IfOk result (λ name. name ≡ spec.output_name written.now alias.now) }
{
    if let Some(alias) = alias {
        return alias.copy(alloc);
    }
    match written {
        Expr::Column(column) => column.name.copy(alloc),
        Expr::Call(function, _) => function.copy(alloc),
        Expr::CallStar(function) => function.copy(alloc),
        Expr::Literal(constant) => Str::from_text(alloc, constant_name(constant)),
        _ => Str::from_text(alloc, "?column?"),
    }
}

fn constant_name(constant: &Literal) -> &'static str
    ensures { result.now ≡ spec.constant_name constant.now }
{
    match constant {
        Literal::Bool(_) => "bool",
        Literal::Number(_) | Literal::Text(_) | Literal::Null => "?column?",
    }
}
