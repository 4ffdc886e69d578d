use q_base::{ColList, ListOf, ObjId, Str};
use query_tree::{AggregateList, Bound, CondList, SortKeyList, Target, TargetList};
use sqlite_items::Boxed;
use std::rc::Rc;

/// What a node is thought to cost and to give, as EXPLAIN prints it.
#[derive(Clone, Copy, Debug, PartialEq, Eq)]
pub struct Estimate {
    /// In units of which 400 are one of PostgreSQL's, so that costs are whole numbers.
    pub cost: u64,
    pub rows: u64,
}

/// A scan of one item of a block. Its conditions are evaluated over the item's own row, in which the place of a
/// column is its id.
#[derive(Drop)]
pub struct Scan {
    /// The item's place in FROM of the rewritten query.
    pub item: usize,
    /// The table or view.
    pub table: ObjId,
    /// All conditions of the item, those that an index serves among them.
    pub conds: CondList,
}

/// An end of the range of an index scan: a constant or a parameter.
#[derive(Drop)]
pub struct RangeEnd {
    pub value: Target,
    pub included: bool,
}

/// For each condition of a scan, whether the index serves it.
pub type UsedList = ListOf<bool>;

/// How a scan goes along an index. Each row found is tested by all conditions again.
#[derive(Drop)]
pub struct IndexUse {
    pub index: ObjId,
    /// The name in the catalog.
    pub name: Str,
    /// The columns for which the index was made.
    pub columns: ColList,
    pub used: UsedList,
    /// The values of the index's first columns.
    pub equal: TargetList,
    /// The ends for the column behind those.
    pub low: Option<RangeEnd>,
    pub high: Option<RangeEnd>,
}

/// The columns in which the two sides of a hash join agree: one over the outer row and one over the inner row.
#[derive(Drop)]
pub struct HashKeys {
    pub outer: Target,
    pub inner: Target,
}

/// What an aggregation does.
#[derive(Drop)]
pub struct GroupNode {
    pub keys: TargetList,
    pub aggregates: AggregateList,
    /// Over the row of a group: its first row, and then the values of the aggregates.
    pub having: CondList,
    /// The length of an input row, of which there may be none: a group without rows has as many nulls.
    pub width: usize,
}

/// LIMIT and OFFSET, evaluated over no row.
#[derive(Drop)]
pub struct Cut {
    pub limit: Option<Target>,
    pub offset: Option<Target>,
}

/// A node of a plan. A row of a join is the outer row and then the inner row, and the places of columns in a node's
/// expressions are those of its input's rows.
#[cycle(plan)]
#[derive(Drop)]
pub enum Node {
    /// One row without columns, where the conditions are true.
    Result(Estimate, CondList),
    SeqScan(Estimate, Scan),
    IndexScan(Estimate, Scan, IndexUse),
    /// The rows that a view's block projects.
    SubqueryScan(Estimate, Scan, Boxed<Block>),
    /// The conditions that name items of both sides, and the outer and the inner side.
    NestedLoop(Estimate, CondList, Boxed<Node>, Boxed<Node>),
    /// The same conditions, the keys' among them.
    HashJoin(Estimate, CondList, HashKeys, Boxed<Node>, Boxed<Node>),
    /// The conditions that may fault, in the order of the text.
    Check(Estimate, CondList, Boxed<Node>),
    Aggregate(Estimate, GroupNode, Boxed<Node>),
    /// Of the rows with equal targets the first.
    Unique(Estimate, TargetList, Boxed<Node>),
    Sort(Estimate, SortKeyList, Boxed<Node>),
    /// Only at the top of a statement. It counts projected rows, so that a fault among those that are skipped stands.
    Limit(Estimate, Cut, Boxed<Node>),
    Insert(Estimate),
    /// The scan of the rows that are changed.
    Update(Estimate, Boxed<Node>),
    Delete(Estimate, Boxed<Node>),
}

/// The plan of a query: its rows, and what is given of each.
#[cycle(plan)]
#[derive(Drop)]
pub struct Block {
    pub node: Node,
    /// Evaluated over the node's rows (over its input's, where the node is a Limit).
    pub targets: TargetList,
}

/// The plan of a statement.
#[derive(Drop)]
pub struct Plan {
    /// The rewritten statement, whose items name what the plan's text prints. An INSERT, UPDATE or DELETE is run by
    /// what stands here.
    pub bound: Rc<Bound>,
    /// Of an INSERT, UPDATE or DELETE without targets.
    pub block: Block,
}
