ghost use Rattle.std.specs.Prelude.{◌≡◌, min};
ghost use Rattle.planner.specs.Scans as spec;

use crate::served::{equal_columns, is_served};
use cat_core::{Def, Entry, EntryList, IndexDef};
use cost_units::{charged, index_scan_cost, rows_in, rows_of, seq_scan_cost, subquery_scan_cost};
use plan_tree::Estimate;
use q_base::{ColId, ListOf, NoMemory, ObjId, Switches};
use q_value::TableStats;
use query_tree::{Cond, SortKey, Target};
use std::alloc::Global;
use std::rc::Rc;

/// A scan of an item, in numbers.
#[derive(Clone, Copy, Debug, PartialEq, Eq)]
pub struct ScanFacts {
    pub cost: u64,
    /// The place among the table's indexes of the one along which it goes.
    pub index: Option<usize>,
    /// A plan whose first scan it is delivers the order of its block.
    pub delivers: bool,
}

/// The least of some scans.
#[derive(Clone, Copy, Debug, PartialEq, Eq)]
pub struct Least {
    pub scan: usize,
    pub cost: u64,
}

/// An item of a block, in numbers.
#[derive(Drop)]
pub struct ItemFacts {
    pub table: ObjId,
    /// The length of its rows.
    pub width: usize,
    /// The rows that its conditions leave.
    pub rows: u64,
    /// All its scans.
    pub scans: Vec<ScanFacts>,
    /// The least of them, by which the item is joined.
    pub least: Least,
    /// The table's indexes.
    pub indexes: EntryList,
}

/// The order that a block wants of an item.
#[derive(Clone, Copy)]
pub struct Wanted<'a> {
    pub keys: &'a [SortKey],
    pub item: usize,
}

/// Tells whether an index goes in the wanted order: its first columns are the keys, ascending with nulls last.
fn delivers(wanted: Wanted<'_>, columns: &[ColId]) -> bool
    ensures { result ≡ spec.delivers wanted.entry.keys.now wanted.entry.item columns.now }
{
    let keys = wanted.keys;
    !keys.is_empty() && goes_by(keys, wanted.item, columns)
}

/// Tells whether the keys are the first columns of an index, in order.
fn goes_by(keys: &[SortKey], item: usize, columns: &[ColId]) -> bool
    ensures { result ≡ spec.goes_by keys.now item columns.now }
{
    for (place, key) in keys.iter().enumerate() {
        let Some(column) = columns.get(place) else {
            return false;
        };
        if !is_key_of(key, item, *column) {
            return false;
        }
    }
    true
}

fn is_key_of(key: &SortKey, item: usize, column: ColId) -> bool
    ensures { result ≡ spec.is_key_of key.now item column }
{
    match &key.target {
        Target::Column(_, place) => {
            place.item == item && place.column == column && !key.desc && !key.nulls_first
        }
        _ => false,
    }
}

/// The rows of which all conditions leave so many: as many as the strictest of them.
fn rows_left(stats: &TableStats, conds: &[Cond]) -> u64
    ensures { result ≡ spec.rows_left stats.now conds.now }
{
    let mut left = rows_in(stats);
    for cond in conds {
        left = smaller(left, rows_of(cond, stats));
    }
    left
}

/// The rows that an index scan finds, by the conditions that it uses.
fn rows_found(stats: &TableStats, conds: &[Cond], columns: &[ColId], equal: usize) -> u64
    ensures { result ≡ spec.rows_found stats.now conds.now columns.now equal }
{
    let mut found = rows_in(stats);
    for cond in conds {
        if is_served(cond, columns, equal) {
            found = smaller(found, rows_of(cond, stats));
        }
    }
    found
}

fn smaller(left: u64, right: u64) -> u64
    ensures { result ≡ min left right }
{
    if left < right { left } else { right }
}

/// A table with its scans: of all its rows, and along each of its indexes.
pub fn table_facts(
    alloc: Global,
    stats: &TableStats,
    indexes: EntryList,
    conds: &[Cond],
    wanted: Wanted<'_>,
    switches: Switches,
) -> Result<ItemFacts, NoMemory> {
    let mut scans = Vec::new(alloc);
    scans.push(seq_scan(stats, conds, switches))?;
    add_index_scans(
        &mut scans,
        indexes.as_slice(),
        stats,
        conds,
        wanted,
        switches,
    )?;
    Ok(ItemFacts {
        table: ObjId(0),
        width: 0,
        rows: rows_left(stats, conds),
        least: least_of(scans.as_slice()),
        scans,
        indexes,
    })
}

fn seq_scan(stats: &TableStats, conds: &[Cond], switches: Switches) -> ScanFacts
    ensures { result ≡ spec.seq_scan stats.now conds.now switches }
{
    let cost = seq_scan_cost(rows_in(stats), conds.len() as u64);
    ScanFacts {
        cost: charged(cost, switches.seqscan),
        index: None,
        delivers: false,
    }
}

fn add_index_scans(
    scans: &mut Vec<ScanFacts>,
    indexes: &[Rc<Entry>],
    stats: &TableStats,
    conds: &[Cond],
    wanted: Wanted<'_>,
    switches: Switches,
) -> Result<(), NoMemory> {
    for (place, entry) in indexes.iter().enumerate() {
        if let Def::Index(index) = &entry.def {
            scans.push(index_scan(place, index, stats, conds, wanted, switches))?;
        }
    }
    Ok(())
}

fn index_scan(
    place: usize,
    index: &IndexDef,
    stats: &TableStats,
    conds: &[Cond],
    wanted: Wanted<'_>,
    switches: Switches,
) -> ScanFacts
    ensures { result ≡ spec.index_scan place index.now.columns stats.now conds.now wanted.entry.keys.now wanted.entry.item switches }
{
    let columns = index.columns.as_slice();
    let found = rows_found(stats, conds, columns, equal_columns(columns, conds));
    let cost = index_scan_cost(rows_in(stats), found, conds.len() as u64);
    ScanFacts {
        cost: charged(cost, switches.indexscan),
        index: Some(place),
        delivers: delivers(wanted, columns),
    }
}

/// A view's own block with its only scan.
pub fn derived_facts(
    alloc: Global,
    input: Estimate,
    conds: &[Cond],
) -> Result<ItemFacts, NoMemory> {
    let stats = TableStats {
        rows: input.rows,
        columns: ListOf::new(alloc),
    };
    let mut scans = Vec::new(alloc);
    scans.push(ScanFacts {
        cost: subquery_scan_cost(input.cost, input.rows, conds.len() as u64),
        index: None,
        delivers: false,
    })?;
    Ok(ItemFacts {
        table: ObjId(0),
        width: 0,
        rows: rows_left(&stats, conds),
        least: least_of(scans.as_slice()),
        scans,
        indexes: ListOf::new(alloc),
    })
}

/// The least scan, the first of equal ones. An item has one at least.
fn least_of(scans: &[ScanFacts]) -> Least
    ensures { result ≡ spec.least_of scans.now }
{
    let mut least = Least {
        scan: 0,
        cost: u64::MAX,
    };
    for (scan, facts) in scans.iter().enumerate() {
        if facts.cost < least.cost {
            least = Least {
                scan,
                cost: facts.cost,
            };
        }
    }
    least
}

/// The place of the least scan that delivers the wanted order, or of the least that doesn't.
pub fn least_start(scans: &[ScanFacts], delivers: bool) -> Option<usize>
    ensures { result ≡ spec.least_start scans.now delivers }
{
    let mut least: Option<usize> = None;
    for (place, scan) in scans.iter().enumerate() {
        if scan.delivers == delivers {
            least = lesser(scans, least, place, scan);
        }
    }
    least
}

/// The lesser of two scans, the earlier of equal ones.
fn lesser(
    scans: &[ScanFacts],
    least: Option<usize>,
    place: usize,
    scan: &ScanFacts,
) -> Option<usize>
    ensures { result ≡ spec.lesser scans.now least place scan.now }
{
    match least {
        Some(earlier) => match scans.get(earlier) {
            Some(least) if least.cost <= scan.cost => Some(earlier),
            _ => Some(place),
        },
        None => Some(place),
    }
}
