ghost use Rattle.std.specs.Prelude.{◌≡◌, [], IfOk, length};
ghost use Rattle.std.specs.Fmt.{decimal};
ghost use Rattle.q_value.specs.Answers.{Answers};
ghost use Rattle.expr_analysis.specs.Analysis.{Does};
ghost use Rattle.expr_analysis.specs.Sights.{sight};
ghost use Rattle.analyzer.specs.Queries as spec;

use crate::clauses::{condition, keys, row_count};
use crate::from_clause::{OnPart, add_conds, query_items, read_on};
use crate::grouping::check_grouped;
use crate::ordering::{check_distinct, sort_keys};
use crate::outputs::{Output, Outputs, select_list};
use crate::relations::ScopeItemList;
use expr_analysis::{Allowed, Known, Scope, State, calls_in_select};
use q_base::{Code, ListOf, NoMemory, Stop, refusal, refusal_naming};
use q_value::TypeList;
use query_tree::{
    AggregateList, CondList, ItemList, Query, ResultColumn, ResultColumnList, SortKeyList, Target,
    TargetList,
};
use sql_tree::{Limits, OrderItem, Select, SelectCore};
use std::alloc::Global;

/// The select list and the conditions of ON and WHERE, analysed.
#[derive(Drop)]
pub struct ListPart {
    pub outputs: Outputs,
    pub on: OnPart,
    pub conds: CondList,
}

/// GROUP BY, HAVING and ORDER BY, analysed.
#[derive(Drop)]
pub struct KeyPart {
    pub keys: TargetList,
    pub having: CondList,
    pub order: SortKeyList,
}

/// LIMIT and OFFSET, analysed.
#[derive(Drop)]
pub struct CutPart {
    pub limit: Option<Target>,
    pub offset: Option<Target>,
}

/// A SELECT, analysed clause by clause.
#[derive(Drop)]
pub struct Parts {
    pub list: ListPart,
    pub key: KeyPart,
    pub cut: CutPart,
}

/// Arithmetic stands in the select list, unless the query is DISTINCT or a view's.
fn list_place(view: bool, distinct: bool) -> Allowed
    ensures { result ≡ spec.list_place view distinct }
{
    Allowed {
        aggregates: true,
        arithmetic: !view && !distinct,
        in_aggregate: false,
    }
}

/// Arithmetic stands in ON and WHERE, unless the query is a view's.
fn where_place(view: bool) -> Allowed
    ensures { result ≡ spec.where_place view }
{
    Allowed {
        aggregates: false,
        arithmetic: !view,
        in_aggregate: false,
    }
}

/// HAVING and ORDER BY.
fn group_place() -> Allowed
    ensures { result ≡ spec.group_place }
{
    Allowed {
        aggregates: true,
        arithmetic: false,
        in_aggregate: false,
    }
}

/// All clauses of a SELECT in the order of their refusals, and in the first reading in that of the text.
#[tactic(auto, unfolding(crate::specs::Queries::read_select))]
pub(crate) fn read_select(
    alloc: Global,
    state: &mut State,
    scope: Scope<'_>,
    view: bool,
    written: &Select,
) -> Result<Parts, Stop>
    ensures { Does (spec.read_select (sight scope.entry) view written.now state.old) result state.new }
{
    let parts = read_parts(alloc, state, scope, view, written)?;
    if let Err(stop) = check_select(alloc, state, scope, written, &parts.list, &parts.key) {
        drop(parts);
        return Err(stop);
    }
    Ok(parts)
}

#[tactic(auto, unfolding(crate::specs::Queries::read_parts))]
fn read_parts(
    alloc: Global,
    state: &mut State,
    scope: Scope<'_>,
    view: bool,
    written: &Select,
) -> Result<Parts, Stop>
    ensures { Does (spec.read_parts (sight scope.entry) view written.now state.old) result state.new }
{
    let list = read_list(alloc, state, scope, view, &written.core)?;
    let key = read_keys(alloc, state, scope, view, written, list.outputs.as_slice())?;
    let cut = read_cut(alloc, state, view, &written.limits)?;
    Ok(Parts { list, key, cut })
}

#[tactic(auto, unfolding(crate::specs::Queries::read_list))]
fn read_list(
    alloc: Global,
    state: &mut State,
    scope: Scope<'_>,
    view: bool,
    written: &SelectCore,
) -> Result<ListPart, Stop>
    ensures { Does (spec.read_list (sight scope.entry) view written.now state.old) result state.new }
{
    let Heads { outputs, on } = read_heads(alloc, state, scope, view, written)?;
    match condition(
        alloc,
        state,
        scope,
        where_place(view),
        "WHERE",
        &written.condition,
    ) {
        Ok(conds) => Ok(ListPart { outputs, on, conds }),
        Err(stop) => {
            drop(outputs);
            drop(on);
            Err(stop)
        }
    }
}

/// The select list and the conditions of ON.
#[derive(Drop)]
pub struct Heads {
    pub outputs: Outputs,
    pub on: OnPart,
}

/// ON is refused before the select list, which comes first in the text.
#[tactic(auto, unfolding(crate::specs::Queries::read_heads))]
fn read_heads(
    alloc: Global,
    state: &mut State,
    scope: Scope<'_>,
    view: bool,
    written: &SelectCore,
) -> Result<Heads, Stop>
    ensures { Does (spec.read_heads (sight scope.entry) view written.now state.old) result state.new }
{
    if state.first {
        let outputs = outputs_of(alloc, state, scope, view, written)?;
        let on = on_of(alloc, state, scope, view, written)?;
        Ok(Heads { outputs, on })
    } else {
        let on = on_of(alloc, state, scope, view, written)?;
        let outputs = outputs_of(alloc, state, scope, view, written)?;
        Ok(Heads { outputs, on })
    }
}

fn outputs_of(
    alloc: Global,
    state: &mut State,
    scope: Scope<'_>,
    view: bool,
    written: &SelectCore,
) -> Result<Outputs, Stop>
    ensures { Does (spec.outputs_of (sight scope.entry) view written.now state.old) result state.new }
{
    let place = list_place(view, written.distinct);
    select_list(alloc, state, scope, place, true, written.outputs.as_slice())
}

fn on_of(
    alloc: Global,
    state: &mut State,
    scope: Scope<'_>,
    view: bool,
    written: &SelectCore,
) -> Result<OnPart, Stop>
    ensures { Does (spec.on_of (sight scope.entry) view written.now state.old) result state.new }
{
    read_on(
        alloc,
        state,
        scope,
        where_place(view),
        written.from.as_slice(),
    )
}

#[tactic(auto, unfolding(crate::specs::Queries::read_keys))]
fn read_keys(
    alloc: Global,
    state: &mut State,
    scope: Scope<'_>,
    view: bool,
    written: &Select,
    outputs: &[Output],
) -> Result<KeyPart, Stop>
    ensures { Does (spec.read_keys (sight scope.entry) view written.now outputs.now state.old) result state.new }
{
    let place = group_place();
    let keys = keys(alloc, scope, written.grouping.keys.as_slice())?;
    let having = condition(
        alloc,
        state,
        scope,
        place,
        "HAVING",
        &written.grouping.having,
    )?;
    let order = order_of(alloc, state, scope, view, outputs, written.order.as_slice())?;
    Ok(KeyPart {
        keys,
        having,
        order,
    })
}

/// ORDER BY, which a view's query doesn't have: 0A000.
#[tactic(auto, unfolding(crate::specs::Queries::order_of))]
fn order_of(
    alloc: Global,
    state: &mut State,
    scope: Scope<'_>,
    view: bool,
    outputs: &[Output],
    written: &[OrderItem],
) -> Result<SortKeyList, Stop>
    ensures { Does (spec.order_of (sight scope.entry) view outputs.now written.now state.old) result state.new }
{
    if view && !written.is_empty() {
        return Err(refusal(alloc, Code::OrderOrLimitInView));
    }
    sort_keys(alloc, state, scope, group_place(), outputs, written)
}

/// LIMIT and OFFSET, which a view's query doesn't have: 0A000.
#[tactic(auto, unfolding(crate::specs::Queries::read_cut))]
fn read_cut(alloc: Global, state: &mut State, view: bool, written: &Limits) -> Result<CutPart, Stop>
    ensures { Does (spec.read_cut view written.now state.old) result state.new }
{
    if view && (written.limit.is_some() || written.offset.is_some()) {
        return Err(refusal(alloc, Code::OrderOrLimitInView));
    }
    let limit = row_count(alloc, state, &written.limit)?;
    let offset = row_count(alloc, state, &written.offset)?;
    Ok(CutPart { limit, offset })
}

/// What is judged after all clauses: the columns of a grouped query (42803), the keys of a DISTINCT query (42P10),
/// the parameters (42P18), and the number of outputs (54000 past 128).
#[tactic(auto, unfolding(crate::specs::Queries::check_select))]
fn check_select(
    alloc: Global,
    state: &State,
    scope: Scope<'_>,
    written: &Select,
    list: &ListPart,
    key: &KeyPart,
) -> Result<(), Stop>
    ensures { Answers (spec.check_select (sight scope.entry) written.now list.now key.now state.now) result }
{
    let outputs = list.outputs.as_slice();
    let order = key.order.as_slice();
    if is_grouped(written, &state.aggregates) {
        let keys = key.keys.as_slice();
        check_grouped(alloc, scope, keys, outputs, key.having.as_slice(), order)?;
    }
    if written.core.distinct {
        check_distinct(alloc, outputs, order)?;
    }
    check_last(alloc, state, outputs.len())
}

/// The parameters, of which each has a type after the first reading (42P18), and the number of outputs (54000 past
/// 128).
#[tactic(auto, unfolding(crate::specs::Queries::check_last))]
pub(crate) fn check_last(alloc: Global, state: &State, outputs: usize) -> Result<(), Stop>
    ensures { Answers (spec.check_last outputs state.now) result }
{
    if !state.first {
        check_params(alloc, state.known.as_slice())?;
    }
    if 128 < outputs {
        return Err(refusal(alloc, Code::LimitExceeded));
    }
    Ok(())
}

/// The least parameter without a type is 42P18.
pub(crate) fn check_params(alloc: Global, known: &[Known]) -> Result<(), Stop>
    ensures { Answers (spec.check_params_from 0 known.now) result }
{
    for place in 0..known.len() {
        match known[place] {
            Known::Typed(_) => {}
            Known::Unused | Known::Untyped => return Err(untyped(alloc, place + 1)),
        }
    }
    Ok(())
}

fn untyped(alloc: Global, number: usize) -> Stop
    ensures { spec.StopsByUntyped number result }
{
    match number.to_string(alloc) {
        Ok(text) => refusal_naming(alloc, Code::UntypedParameter, text.as_str()),
        Err(_) => Stop::NoMemory,
    }
}

/// The types of the parameters, each of which has one.
pub(crate) fn types_of(alloc: Global, known: &[Known]) -> Result<TypeList, NoMemory>
    ensures { IfOk result (λ types. types ≡ spec.types_from [] known.now) }
{
    let mut types = ListOf::new(alloc);
    for fact in known {
        if let Known::Typed(kind) = fact {
            types.push(*kind)?;
        }
    }
    Ok(types)
}

/// The targets of a select list, and the columns of its answer.
#[derive(Drop)]
pub struct Split {
    pub targets: TargetList,
    pub columns: ResultColumnList,
}

pub(crate) fn part_outputs(alloc: Global, outputs: Outputs) -> Result<Split, NoMemory>
    ensures { IfOk result (λ found. found ≡ spec.split_from (record { targets = []; columns = [] }) outputs) }
{
    let mut targets = ListOf::new(alloc);
    let mut columns = ListOf::new(alloc);
    for output in outputs.into_vec() {
        let Output { target, name } = output;
        let kind = target.kind();
        targets.push(target)?;
        columns.push(ResultColumn { name, kind })?;
    }
    Ok(Split { targets, columns })
}

/// A query with the columns of its answer.
#[derive(Drop)]
pub struct Typed {
    pub query: Query,
    pub columns: ResultColumnList,
}

/// The query that the parts make.
#[tactic(auto, unfolding(crate::specs::Queries::query_of))]
pub(crate) fn query_of(
    alloc: Global,
    items: ScopeItemList,
    written: &Select,
    parts: Parts,
    aggregates: AggregateList,
) -> Result<Typed, NoMemory>
    ensures { IfOk result (λ typed. typed ≡ spec.query_of items written.now parts aggregates) }
{
    let Parts { list, key, cut } = parts;
    let ListPart { outputs, on, conds } = list;
    let under = match under_of(alloc, items, on, conds) {
        Ok(under) => under,
        Err(stop) => {
            drop(outputs);
            drop(key);
            drop(cut);
            drop(aggregates);
            return Err(stop);
        }
    };
    match part_outputs(alloc, outputs) {
        Ok(split) => Ok(query_with(written, under, split, key, cut, aggregates)),
        Err(stop) => {
            drop(under);
            drop(key);
            drop(cut);
            drop(aggregates);
            Err(stop)
        }
    }
}

/// The items of a query and its conditions.
#[derive(Drop)]
pub struct Under {
    pub items: ItemList,
    pub conds: CondList,
}

/// The conditions of ON come before those of WHERE.
fn under_of(
    alloc: Global,
    items: ScopeItemList,
    on: OnPart,
    conds: CondList,
) -> Result<Under, NoMemory>
    ensures { IfOk result (λ under. under ≡ spec.under_of items on conds) }
{
    let OnPart {
        conds: mut all,
        counts,
    } = on;
    if let Err(stop) = add_conds(&mut all, conds) {
        drop(all);
        drop(items);
        drop(counts);
        return Err(stop);
    }
    match query_items(alloc, items, counts.as_slice()) {
        Ok(items) => Ok(Under { items, conds: all }),
        Err(stop) => {
            drop(all);
            drop(counts);
            Err(stop)
        }
    }
}

fn query_with(
    written: &Select,
    under: Under,
    split: Split,
    key: KeyPart,
    cut: CutPart,
    aggregates: AggregateList,
) -> Typed
    ensures { result ≡ spec.query_with written.now under key cut aggregates split }
{
    let Under { items, conds } = under;
    let Split { targets, columns } = split;
    let grouped = is_grouped(written, &aggregates);
    let KeyPart {
        keys,
        having,
        order,
    } = key;
    let CutPart { limit, offset } = cut;
    let query = Query {
        items,
        conds,
        targets,
        grouped,
        keys,
        aggregates,
        aggregate_calls: calls_in_select(written),
        having,
        distinct: written.core.distinct,
        order,
        limit,
        offset,
    };
    Typed { query, columns }
}

/// A query with GROUP BY, HAVING or an aggregate.
#[tactic(auto, unfolding(crate::specs::Queries::is_grouped))]
fn is_grouped(written: &Select, aggregates: &AggregateList) -> bool
    ensures { result ≡ spec.is_grouped written.now aggregates.now }
{
    written.grouping.having.is_some()
        || !written.grouping.keys.as_slice().is_empty()
        || !aggregates.as_slice().is_empty()
}
