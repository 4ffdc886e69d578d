ghost use Rattle.std.specs.Prelude.{◌≡◌, ◌+◌, ◌∷◌, [], Some, Ok, OnOk, IfOk};
ghost use Rattle.query_tree.specs.declared.statement.Bound.TheVariants as bound;
ghost use Rattle.std.specs.Option.{option_copied};
ghost use Rattle.expr_analysis.specs.Analysis.{Does};
ghost use Rattle.expr_analysis.specs.Sights.{sight};
ghost use Rattle.analyzer.specs.Changes as changing;
ghost use Rattle.analyzer.specs.Queries as selecting;
ghost use Rattle.analyzer.specs.Statements as spec;

use crate::assignments::{
    Changed, NewColumn, NewColumnList, assigned_columns, changed_table, other_defaults,
};
use crate::changes::{
    DeleteParts, InsertParts, UpdateParts, given_columns, read_delete, read_insert, read_update,
    set_columns,
};
use crate::from_clause::{ids_of, read_items};
use crate::naming::{NameIds, Names};
use crate::outputs::Outputs;
use crate::queries::{Parts, Split, Typed, part_outputs, query_of, read_select, types_of};
use crate::relations::{ScopeItemList, width_of};
use cat_core::Catalog;
use expr_analysis::{KnownList, Scope, ScopeItem, State};
use q_base::{ListOf, NoMemory, ObjId, Stop, Work};
use q_value::{SqlType, TypeList};
use query_tree::{
    Bound, Delete, Insert, Relation, ResultColumnList, ResultType, TargetList, Update,
};
use sql_tree::{DeleteTree, FromChain, InsertTree, Select, Statement, UpdateTree};
use std::alloc::Global;
use std::rc::Rc;
use std::sync::ledger::Ledger;

/// What an analysis gives.
#[derive(Drop)]
pub struct Analysed {
    /// The statement by ids and types.
    pub bound: Rc<Bound>,
    /// What its relation names found, in text order.
    pub ids: NameIds,
    /// The types of the parameters, from `$1` on.
    pub params: TypeList,
    /// The names and types of the answer's columns.
    pub result: ResultType,
}

/// Analyses a statement, or refuses it by its first refusal. `declared` has the types that PREPARE declares,
/// and is `None` exactly outside PREPARE, where no parameter stands (42P02). A parameter without a declared
/// type takes that of its first use (PostgreSQL's manual, "PREPARE"). One analysis is counted in either case.
///
/// Relation names are looked for first, in text order: 42P01, 42809 for an index or, in a change, for another kind
/// than a table, and 42712 for an item's name that an item has. Then the clauses are judged: ON, the select list or
/// the columns and values of a change (42703, 42701, 42601, 42804), WHERE, GROUP BY, HAVING, ORDER BY, LIMIT, OFFSET
/// and RETURNING, by 22003, 22P02, 42601, 42702, 42703, 42725, 42803, 42804, 42883, 42P01, 42P02, 42P10, 0A000 for
/// what isn't supported there, or 54000 past `$64`; then 42803 of a grouped query, 42P10 of DISTINCT, 42P18, and
/// 54000 past 128 columns. This order and the limits are this project's own.
pub fn analyse<L: Ledger>(
    alloc: Global,
    tree: &Statement,
    names: Names<'_>,
    catalog: &Catalog,
    declared: Option<&[SqlType]>,
    work: &mut Work<L>,
) -> Result<Analysed, Stop>
    ensures analysed { (place : spec.Surroundings) × spec.AnalysedAs (spec.statement place (option_copied declared.entry) tree.now) result }
    ensures counted { work.new ≡ record work.old { analyses = work.old.analyses + 1 } }
{
    work.count_analysis();
    match tree {
        Statement::Select(select) => {
            analyse_select(alloc, names, catalog, false, select, declared)
        }
        Statement::ViewSelect(select) => {
            analyse_select(alloc, names, catalog, true, select, declared)
        }
        Statement::Insert(insert) => analyse_insert(alloc, names, catalog, insert, declared),
        Statement::Update(update) => analyse_update(alloc, names, catalog, update, declared),
        Statement::Delete(delete) => analyse_delete(alloc, names, catalog, delete, declared),
    }
}

/// Ends the first reading, which settles the types of the parameters. What it refuses, the second one refuses by
/// the order of refusals.
fn end_first(alloc: Global, state: &mut State)
    ensures { state.new ≡ spec.ended state.old }
{
    state.first = false;
    state.aggregates = ListOf::new(alloc);
}

/// All items of a statement.
fn all_items(items: &[ScopeItem]) -> Scope<'_>
    ensures { sight result ≡ spec.all_items items.now }
{
    Scope {
        first: 0,
        items,
        width: width_of(items),
    }
}

fn analyse_select(
    alloc: Global,
    names: Names<'_>,
    catalog: &Catalog,
    view: bool,
    select: &Select,
    declared: Option<&[SqlType]>,
) -> Result<Analysed, Stop>
    ensures { (place : spec.Surroundings) × spec.AnalysedAs (spec.select place (option_copied declared.entry) view select.now) result }
{
    let found = select_items(alloc, names, catalog, select.core.from.as_slice());
    select_over(alloc, found, view, select, declared)
}

fn select_over(
    alloc: Global,
    found: Result<ScopeItemList, Stop>,
    view: bool,
    select: &Select,
    declared: Option<&[SqlType]>,
) -> Result<Analysed, Stop>
    ensures { spec.Follows (λ items. spec.selected (option_copied declared.entry) items view select.now) found result }
{
    match found {
        Ok(items) => select_items_over(alloc, items, view, select, declared),
        Err(stop) => Err(stop),
    }
}

fn select_items_over(
    alloc: Global,
    items: ScopeItemList,
    view: bool,
    select: &Select,
    declared: Option<&[SqlType]>,
) -> Result<Analysed, Stop>
    ensures { spec.AnalysedAs (spec.selected (option_copied declared.entry) items view select.now) result }
{
    let mut state = State::new(alloc, declared)?;
    let parts = select_parts(alloc, &mut state, items.as_slice(), view, select)?;
    Ok(finish_select(alloc, items, state, select, parts)?)
}

/// The items of a SELECT, of which there are none without FROM.
fn select_items(
    alloc: Global,
    names: Names<'_>,
    catalog: &Catalog,
    from: &[FromChain],
) -> Result<ScopeItemList, Stop>
    ensures { from.now ≡ [] → result ≡ Ok [] }
{
    if from.is_empty() {
        return Ok(ListOf::new(alloc));
    }
    read_items(alloc, names, catalog, from)
}

fn settle_select(
    alloc: Global,
    state: &mut State,
    items: &[ScopeItem],
    view: bool,
    select: &Select,
) -> Result<(), NoMemory>
    ensures { OnOk result (state.new ≡ spec.settled (selecting.read_select (spec.all_items items.now) view select.now) state.old) }
{
    match read_select(alloc, state, all_items(items), view, select) {
        Ok(_) | Err(Stop::Sql(_)) => {
            end_first(alloc, state);
            Ok(())
        }
        Err(Stop::NoMemory) => Err(NoMemory),
    }
}

#[tactic(auto, unfolding(crate::specs::Statements::twice))]
fn select_parts(
    alloc: Global,
    state: &mut State,
    items: &[ScopeItem],
    view: bool,
    select: &Select,
) -> Result<Parts, Stop>
    ensures { Does (spec.twice (selecting.read_select (spec.all_items items.now) view select.now) state.old) result state.new }
{
    if state.first {
        settle_select(alloc, state, items, view, select)?;
    }
    read_select(alloc, state, all_items(items), view, select)
}

fn finish_select(
    alloc: Global,
    items: ScopeItemList,
    state: State,
    select: &Select,
    parts: Parts,
) -> Result<Analysed, NoMemory>
    ensures { IfOk result (λ a. spec.seen a ≡ spec.finished_select items select.now parts state) }
{
    let State {
        known,
        aggregates,
        ..
    } = state;
    match ids_of(alloc, items.as_slice()) {
        Ok(ids) => match query_of(alloc, items, select, parts, aggregates) {
            Ok(typed) => select_analysed(alloc, ids, known, typed),
            Err(stop) => {
                drop(ids);
                Err(stop)
            }
        },
        Err(stop) => {
            drop(items);
            drop(parts);
            drop(aggregates);
            Err(stop)
        }
    }
}

fn select_analysed(
    alloc: Global,
    ids: NameIds,
    known: KnownList,
    typed: Typed,
) -> Result<Analysed, NoMemory>
    ensures { IfOk result (λ a. spec.seen a ≡ spec.found_of (bound.Select typed.query) ids known (Some typed.columns)) }
{
    let Typed { query, columns } = typed;
    complete(alloc, Bound::Select(query), ids, known, Some(columns))
}

/// What an analysis gives, once all is known.
fn complete(
    alloc: Global,
    bound: Bound,
    ids: NameIds,
    known: KnownList,
    columns: Option<ResultColumnList>,
) -> Result<Analysed, NoMemory>
    ensures { IfOk result (λ a. spec.seen a ≡ spec.found_of bound ids known columns) }
{
    match types_of(alloc, known.as_slice()) {
        Ok(params) => analysed_as(alloc, bound, ids, params, columns),
        Err(stop) => {
            drop(bound);
            drop(ids);
            drop(columns);
            Err(stop)
        }
    }
}

fn analysed_as(
    alloc: Global,
    bound: Bound,
    ids: NameIds,
    params: TypeList,
    columns: Option<ResultColumnList>,
) -> Result<Analysed, NoMemory>
    ensures { IfOk result (λ a. spec.seen a ≡ record { bound = bound; ids = ids; params = params; result = record { columns = columns } }) }
{
    match Rc::new(alloc, bound) {
        Ok(bound) => Ok(Analysed {
            bound,
            ids,
            params,
            result: ResultType { columns },
        }),
        Err(failed) => {
            drop(ids);
            drop(columns);
            drop(params);
            Err(NoMemory::from(failed))
        }
    }
}

/// RETURNING, where it is written: its targets and the columns of the answer.
#[derive(Drop)]
pub struct Returned {
    pub targets: TargetList,
    pub columns: Option<ResultColumnList>,
}

/// Without RETURNING a change gives no rows.
#[tactic(auto, unfolding(crate::specs::Statements::returned))]
fn returning_of(alloc: Global, outputs: Outputs) -> Result<Returned, NoMemory>
    ensures { IfOk result (λ found. found ≡ spec.returned outputs) }
{
    if outputs.as_slice().is_empty() {
        drop(outputs);
        return Ok(Returned {
            targets: ListOf::new(alloc),
            columns: None,
        });
    }
    let Split { targets, columns } = part_outputs(alloc, outputs)?;
    Ok(Returned {
        targets,
        columns: Some(columns),
    })
}

/// What an analysis of a change gives.
fn change_analysed(
    alloc: Global,
    bound: Bound,
    id: ObjId,
    known: KnownList,
    columns: Option<ResultColumnList>,
) -> Result<Analysed, NoMemory>
    ensures { IfOk result (λ a. spec.seen a ≡ spec.found_of bound (id ∷ []) known columns) }
{
    match one_id(alloc, id) {
        Ok(ids) => complete(alloc, bound, ids, known, columns),
        Err(stop) => {
            drop(bound);
            drop(columns);
            Err(stop)
        }
    }
}

fn relation_in(items: [ScopeItem; 1]) -> Relation
    ensures { result ≡ spec.relation_in items }
{
    let [item] = items;
    relation_alone(item)
}

fn relation_alone(item: ScopeItem) -> Relation
    ensures { result ≡ item.relation }
{
    let ScopeItem { relation, .. } = item;
    relation
}

fn one_id(alloc: Global, id: ObjId) -> Result<NameIds, NoMemory>
    ensures { IfOk result (λ ids. ids ≡ id ∷ []) }
{
    let mut ids = ListOf::new(alloc);
    ids.push(id)?;
    Ok(ids)
}

fn analyse_insert(
    alloc: Global,
    names: Names<'_>,
    catalog: &Catalog,
    insert: &InsertTree,
    declared: Option<&[SqlType]>,
) -> Result<Analysed, Stop>
    ensures { (place : spec.Surroundings) × spec.AnalysedAs (spec.insert place (option_copied declared.entry) insert.now) result }
{
    let found = changed_table(alloc, names, catalog, &insert.table);
    insert_over(alloc, found, insert, declared)
}

fn insert_over(
    alloc: Global,
    found: Result<Changed, Stop>,
    insert: &InsertTree,
    declared: Option<&[SqlType]>,
) -> Result<Analysed, Stop>
    ensures { spec.Follows (λ changed. spec.inserted (option_copied declared.entry) changed insert.now) found result }
{
    match found {
        Ok(changed) => insert_changed(alloc, changed, insert, declared),
        Err(stop) => Err(stop),
    }
}

fn insert_changed(
    alloc: Global,
    changed: Changed,
    insert: &InsertTree,
    declared: Option<&[SqlType]>,
) -> Result<Analysed, Stop>
    ensures { spec.AnalysedAs (spec.inserted (option_copied declared.entry) changed insert.now) result }
{
    let given = given_columns(alloc, &changed, insert)?;
    let mut state = State::new(alloc, declared)?;
    let parts = insert_parts(alloc, &mut state, &changed.items, given.as_slice(), insert)?;
    Ok(finish_insert(alloc, changed, given, state.known, parts)?)
}

fn settle_insert(
    alloc: Global,
    state: &mut State,
    items: &[ScopeItem],
    given: &[NewColumn],
    insert: &InsertTree,
) -> Result<(), NoMemory>
    ensures { OnOk result (state.new ≡ spec.settled (changing.read_insert items.now given.now insert.now) state.old) }
{
    match read_insert(alloc, state, items, given, insert) {
        Ok(_) | Err(Stop::Sql(_)) => {
            end_first(alloc, state);
            Ok(())
        }
        Err(Stop::NoMemory) => Err(NoMemory),
    }
}

#[tactic(auto, unfolding(crate::specs::Statements::twice))]
fn insert_parts(
    alloc: Global,
    state: &mut State,
    items: &[ScopeItem],
    given: &[NewColumn],
    insert: &InsertTree,
) -> Result<InsertParts, Stop>
    ensures { Does (spec.twice (changing.read_insert items.now given.now insert.now) state.old) result state.new }
{
    if state.first {
        settle_insert(alloc, state, items, given, insert)?;
    }
    read_insert(alloc, state, items, given, insert)
}

fn finish_insert(
    alloc: Global,
    changed: Changed,
    given: NewColumnList,
    known: KnownList,
    parts: InsertParts,
) -> Result<Analysed, NoMemory>
    ensures { IfOk result (λ a. spec.seen a ≡ spec.finished_insert changed given parts known) }
{
    let columns = assigned_columns(alloc, given.as_slice())?;
    let defaults = other_defaults(alloc, changed.columns.as_slice(), given.as_slice())?;
    let InsertParts { rows, returning } = parts;
    let Returned {
        targets,
        columns: answer,
    } = returning_of(alloc, returning)?;
    let Changed { items, written, .. } = changed;
    let table = relation_in(items);
    let id = table.id;
    let bound = Bound::Insert(Insert {
        table,
        written,
        columns,
        rows,
        defaults,
        returning: targets,
    });
    change_analysed(alloc, bound, id, known, answer)
}

fn analyse_update(
    alloc: Global,
    names: Names<'_>,
    catalog: &Catalog,
    update: &UpdateTree,
    declared: Option<&[SqlType]>,
) -> Result<Analysed, Stop>
    ensures { (place : spec.Surroundings) × spec.AnalysedAs (spec.update place (option_copied declared.entry) update.now) result }
{
    let found = changed_table(alloc, names, catalog, &update.table);
    update_over(alloc, found, update, declared)
}

fn update_over(
    alloc: Global,
    found: Result<Changed, Stop>,
    update: &UpdateTree,
    declared: Option<&[SqlType]>,
) -> Result<Analysed, Stop>
    ensures { spec.Follows (λ changed. spec.updated (option_copied declared.entry) changed update.now) found result }
{
    match found {
        Ok(changed) => update_changed(alloc, changed, update, declared),
        Err(stop) => Err(stop),
    }
}

fn update_changed(
    alloc: Global,
    changed: Changed,
    update: &UpdateTree,
    declared: Option<&[SqlType]>,
) -> Result<Analysed, Stop>
    ensures { spec.AnalysedAs (spec.updated (option_copied declared.entry) changed update.now) result }
{
    let columns = set_columns(alloc, &changed, update.assignments.as_slice())?;
    let mut state = State::new(alloc, declared)?;
    let parts = update_parts(
        alloc,
        &mut state,
        &changed.items,
        columns.as_slice(),
        update,
    )?;
    Ok(finish_update(alloc, changed, state.known, parts)?)
}

fn settle_update(
    alloc: Global,
    state: &mut State,
    items: &[ScopeItem],
    columns: &[NewColumn],
    update: &UpdateTree,
) -> Result<(), NoMemory>
    ensures { OnOk result (state.new ≡ spec.settled (changing.read_update items.now columns.now update.now) state.old) }
{
    match read_update(alloc, state, items, columns, update) {
        Ok(_) | Err(Stop::Sql(_)) => {
            end_first(alloc, state);
            Ok(())
        }
        Err(Stop::NoMemory) => Err(NoMemory),
    }
}

#[tactic(auto, unfolding(crate::specs::Statements::twice))]
fn update_parts(
    alloc: Global,
    state: &mut State,
    items: &[ScopeItem],
    columns: &[NewColumn],
    update: &UpdateTree,
) -> Result<UpdateParts, Stop>
    ensures { Does (spec.twice (changing.read_update items.now columns.now update.now) state.old) result state.new }
{
    if state.first {
        settle_update(alloc, state, items, columns, update)?;
    }
    read_update(alloc, state, items, columns, update)
}

fn finish_update(
    alloc: Global,
    changed: Changed,
    known: KnownList,
    parts: UpdateParts,
) -> Result<Analysed, NoMemory>
    ensures { IfOk result (λ a. spec.seen a ≡ spec.finished_update changed parts known) }
{
    let UpdateParts {
        assignments,
        conds,
        returning,
    } = parts;
    let Returned { targets, columns } = returning_of(alloc, returning)?;
    let Changed { items, written, .. } = changed;
    let table = relation_in(items);
    let id = table.id;
    let bound = Bound::Update(Update {
        table,
        written,
        assignments,
        conds,
        returning: targets,
    });
    change_analysed(alloc, bound, id, known, columns)
}

fn analyse_delete(
    alloc: Global,
    names: Names<'_>,
    catalog: &Catalog,
    delete: &DeleteTree,
    declared: Option<&[SqlType]>,
) -> Result<Analysed, Stop>
    ensures { (place : spec.Surroundings) × spec.AnalysedAs (spec.delete place (option_copied declared.entry) delete.now) result }
{
    let found = changed_table(alloc, names, catalog, &delete.table);
    delete_over(alloc, found, delete, declared)
}

fn delete_over(
    alloc: Global,
    found: Result<Changed, Stop>,
    delete: &DeleteTree,
    declared: Option<&[SqlType]>,
) -> Result<Analysed, Stop>
    ensures { spec.Follows (λ changed. spec.deleted (option_copied declared.entry) changed delete.now) found result }
{
    match found {
        Ok(changed) => delete_changed(alloc, changed, delete, declared),
        Err(stop) => Err(stop),
    }
}

fn delete_changed(
    alloc: Global,
    changed: Changed,
    delete: &DeleteTree,
    declared: Option<&[SqlType]>,
) -> Result<Analysed, Stop>
    ensures { spec.AnalysedAs (spec.deleted (option_copied declared.entry) changed delete.now) result }
{
    let mut state = State::new(alloc, declared)?;
    let parts = delete_parts(alloc, &mut state, &changed.items, delete)?;
    Ok(finish_delete(alloc, changed, state.known, parts)?)
}

fn settle_delete(
    alloc: Global,
    state: &mut State,
    items: &[ScopeItem],
    delete: &DeleteTree,
) -> Result<(), NoMemory>
    ensures { OnOk result (state.new ≡ spec.settled (changing.read_delete items.now delete.now) state.old) }
{
    match read_delete(alloc, state, items, delete) {
        Ok(_) | Err(Stop::Sql(_)) => {
            end_first(alloc, state);
            Ok(())
        }
        Err(Stop::NoMemory) => Err(NoMemory),
    }
}

#[tactic(auto, unfolding(crate::specs::Statements::twice))]
fn delete_parts(
    alloc: Global,
    state: &mut State,
    items: &[ScopeItem],
    delete: &DeleteTree,
) -> Result<DeleteParts, Stop>
    ensures { Does (spec.twice (changing.read_delete items.now delete.now) state.old) result state.new }
{
    if state.first {
        settle_delete(alloc, state, items, delete)?;
    }
    read_delete(alloc, state, items, delete)
}

fn finish_delete(
    alloc: Global,
    changed: Changed,
    known: KnownList,
    parts: DeleteParts,
) -> Result<Analysed, NoMemory>
    ensures { IfOk result (λ a. spec.seen a ≡ spec.finished_delete changed parts known) }
{
    let DeleteParts { conds, returning } = parts;
    let Returned { targets, columns } = returning_of(alloc, returning)?;
    let table = relation_in(changed.items);
    let id = table.id;
    let bound = Bound::Delete(Delete {
        table,
        conds,
        returning: targets,
    });
    change_analysed(alloc, bound, id, known, columns)
}
