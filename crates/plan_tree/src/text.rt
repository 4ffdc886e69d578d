ghost use Rattle.std.specs.Prelude.{◌≡◌, ◌++◌, OnOk};
ghost use Rattle.plan_tree.specs.Lines as spec;

use crate::append::{append, append_number};
use crate::expressions::{Text, aggregate_texts, append_key, append_target};
use crate::items::{items_within, only_table, relation_at};
use crate::{Estimate, GroupNode, Node, Plan, Scan};
use q_base::NoMemory;
use query_tree::{Aggregate, Bound, CondList, Item, Relation, SortKey, Target};
use std::alloc::Global;

/// Appends the lines that EXPLAIN prints of a plan: one for each node, with its kind, its cost and its rows, and
/// below it, two spaces deeper, one for each of its conditions and keys and then its inputs (after PostgreSQL's
/// EXPLAIN; whole costs are this project's own).
pub fn plan_text(alloc: Global, plan: &Plan, out: &mut Vec<u8>) -> Result<(), NoMemory> {
    let node = &plan.block.node;
    match &*plan.bound {
        Bound::Select(query) => append_node(alloc, query.items.as_slice(), 0, node, out),
        Bound::Insert(insert) => append_change(alloc, &insert.table, node, out),
        Bound::Update(update) => append_change(alloc, &update.table, node, out),
        Bound::Delete(delete) => append_change(alloc, &delete.table, node, out),
    }
}

/// Appends the lines of a statement that changes a table.
fn append_change(
    alloc: Global,
    table: &Relation,
    node: &Node,
    out: &mut Vec<u8>,
) -> Result<(), NoMemory> {
    let items = only_table(alloc, table)?;
    append_node(alloc, items.as_slice(), 0, node, out)
}

/// Appends the lines of a node and then those of the nodes from which it takes its rows.
#[cycle(node)]
fn append_node(
    alloc: Global,
    items: &[Item],
    depth: usize,
    node: &Node,
    out: &mut Vec<u8>,
) -> Result<(), NoMemory> {
    append_own_lines(alloc, items, sorted_groups(node), depth, node, out)?;
    let below = depth.saturating_add(1);
    match node {
        Node::Result(_, _) | Node::SeqScan(_, _) | Node::IndexScan(_, _, _) | Node::Insert(_) => {
            Ok(())
        }
        Node::SubqueryScan(_, scan, block) => {
            let within = items_within(items, scan.item);
            append_node(alloc, within, below, &block.get().node, out)
        }
        Node::NestedLoop(_, _, outer, inner) | Node::HashJoin(_, _, _, outer, inner) => {
            append_node(alloc, items, below, outer.get(), out)?;
            append_node(alloc, items, below, inner.get(), out)
        }
        Node::Check(_, _, input)
        | Node::Aggregate(_, _, input)
        | Node::Unique(_, _, input)
        | Node::Sort(_, _, input)
        | Node::Limit(_, _, input)
        | Node::Update(_, input)
        | Node::Delete(_, input) => append_node(alloc, items, below, input.get(), out),
    }
}

/// Appends the line of a node and those of its conditions and keys.
fn append_own_lines(
    alloc: Global,
    items: &[Item],
    aggregates: &[Aggregate],
    depth: usize,
    node: &Node,
    out: &mut Vec<u8>,
) -> Result<(), NoMemory> {
    append_indent(depth, out)?;
    append_label(items, node, out)?;
    append_estimate(node.estimate(), out)?;
    append_parts(alloc, items, aggregates, depth.saturating_add(1), node, out)
}

/// Appends two spaces for each level.
fn append_indent(depth: usize, out: &mut Vec<u8>) -> Result<(), NoMemory> {
    for _level in 0..depth {
        append(b"  ", out)?;
    }
    Ok(())
}

/// Appends what a node is and what it reads or changes.
fn append_label(items: &[Item], node: &Node, out: &mut Vec<u8>) -> Result<(), NoMemory> {
    match node {
        Node::Result(_, _) => append(b"Result", out),
        Node::SeqScan(_, scan) => append_scan(b"Seq Scan", items, scan, out),
        Node::IndexScan(_, scan, index) => {
            append(b"Index Scan using ", out)?;
            append_scan(index.name.as_str().as_bytes(), items, scan, out)
        }
        Node::SubqueryScan(_, scan, _) => append_scan(b"Subquery Scan", items, scan, out),
        Node::NestedLoop(_, _, _, _) => append(b"Nested Loop", out),
        Node::HashJoin(_, _, _, _, _) => append(b"Hash Join", out),
        Node::Check(_, _, _) => append(b"Check", out),
        Node::Aggregate(_, _, _) => append(b"Aggregate", out),
        Node::Unique(_, _, _) => append(b"Unique", out),
        Node::Sort(_, _, _) => append(b"Sort", out),
        Node::Limit(_, _, _) => append(b"Limit", out),
        Node::Insert(_) => append_changed(b"Insert on ", items, out),
        Node::Update(_, _) => append_changed(b"Update on ", items, out),
        Node::Delete(_, _) => append_changed(b"Delete on ", items, out),
    }
}

/// Appends a scan and the relation that it reads.
fn append_scan(kind: &[u8], items: &[Item], scan: &Scan, out: &mut Vec<u8>) -> Result<(), NoMemory>
    ensures { OnOk result (out.new.items ≡ out.old.items ++ spec.scan_text kind.now items.now scan.now) }
{
    append(kind, out)?;
    append(b" on ", out)?;
    match relation_at(items, scan.item) {
        Some(relation) => append_relation(relation, out),
        None => Ok(()),
    }
}

/// Appends the name of a relation, and its alias where it is another.
fn append_relation(relation: &Relation, out: &mut Vec<u8>) -> Result<(), NoMemory>
    ensures { OnOk result (out.new.items ≡ out.old.items ++ spec.relation_text relation.now) }
{
    append(relation.name.as_str().as_bytes(), out)?;
    match &relation.alias {
        Some(alias) if alias.as_str() != relation.name.as_str() => {
            append(b" ", out)?;
            append(alias.as_str().as_bytes(), out)
        }
        _ => Ok(()),
    }
}

/// Appends a change and the name of the table that is changed.
fn append_changed(kind: &[u8], items: &[Item], out: &mut Vec<u8>) -> Result<(), NoMemory>
    ensures { OnOk result (out.new.items ≡ out.old.items ++ spec.changed_text kind.now items.now) }
{
    append(kind, out)?;
    match relation_at(items, 0) {
        Some(relation) => append(relation.name.as_str().as_bytes(), out),
        None => Ok(()),
    }
}

/// Appends a node's cost and rows, and ends its line.
fn append_estimate(estimate: Estimate, out: &mut Vec<u8>) -> Result<(), NoMemory>
    ensures { OnOk result (out.new.items ≡ out.old.items ++ spec.estimate_text estimate) }
{
    append(b"  (cost=", out)?;
    append_number(estimate.cost, out)?;
    append(b" rows=", out)?;
    append_number(estimate.rows, out)?;
    append(b")\n", out)
}

/// Appends a line for each condition and key of a node.
fn append_parts(
    alloc: Global,
    items: &[Item],
    aggregates: &[Aggregate],
    depth: usize,
    node: &Node,
    out: &mut Vec<u8>,
) -> Result<(), NoMemory> {
    match node {
        Node::Result(_, conds) | Node::Check(_, conds, _) => {
            append_conds(items, depth, b"Filter: ", conds, out)
        }
        Node::SeqScan(_, scan) | Node::SubqueryScan(_, scan, _) => {
            append_conds(items, depth, b"Filter: ", &scan.conds, out)
        }
        Node::IndexScan(_, scan, index) => {
            append_index_conds(
                items,
                depth,
                scan.conds.as_slice(),
                index.used.as_slice(),
                out,
            )
        }
        Node::NestedLoop(_, conds, _, _) | Node::HashJoin(_, conds, _, _, _) => {
            append_conds(items, depth, b"Join Cond: ", conds, out)
        }
        Node::Aggregate(_, group, _) => append_group(alloc, items, depth, group, out),
        Node::Sort(_, keys, _) => {
            append_sort(alloc, items, depth, keys.as_slice(), aggregates, out)
        }
        Node::Unique(_, _, _)
        | Node::Limit(_, _, _)
        | Node::Insert(_)
        | Node::Update(_, _)
        | Node::Delete(_, _) => Ok(()),
    }
}

/// Appends a line for each condition, where there are no aggregates.
fn append_conds(
    items: &[Item],
    depth: usize,
    label: &[u8],
    conds: &CondList,
    out: &mut Vec<u8>,
) -> Result<(), NoMemory> {
    append_lines(items, &[], depth, label, conds.as_slice(), out)
}

/// Appends a line for each expression.
fn append_lines(
    items: &[Item],
    aggregates: &[Text],
    depth: usize,
    label: &[u8],
    targets: &[Target],
    out: &mut Vec<u8>,
) -> Result<(), NoMemory> {
    for target in targets {
        append_line(items, aggregates, depth, label, target, out)?;
    }
    Ok(())
}

fn append_line(
    items: &[Item],
    aggregates: &[Text],
    depth: usize,
    label: &[u8],
    target: &Target,
    out: &mut Vec<u8>,
) -> Result<(), NoMemory> {
    append_indent(depth, out)?;
    append(label, out)?;
    append_target(target, items, aggregates, out)?;
    append(b"\n", out)
}

/// Appends a line for each condition of an index scan: those that the index serves are told apart.
fn append_index_conds(
    items: &[Item],
    depth: usize,
    conds: &[Target],
    used: &[bool],
    out: &mut Vec<u8>,
) -> Result<(), NoMemory> {
    for (cond, is_used) in conds.iter().zip(used) {
        append_line(items, &[], depth, index_label(*is_used), cond, out)?;
    }
    Ok(())
}

fn index_label(is_used: bool) -> &'static [u8]
    ensures { result.now ≡ spec.index_label is_used }
{
    if is_used {
        b"Index Cond: "
    } else {
        b"Filter: "
    }
}

/// Appends the keys of the groups and the conditions on them.
fn append_group(
    alloc: Global,
    items: &[Item],
    depth: usize,
    group: &GroupNode,
    out: &mut Vec<u8>,
) -> Result<(), NoMemory> {
    let texts = aggregate_texts(alloc, items, group.aggregates.as_slice())?;
    append_lines(
        items,
        texts.as_slice(),
        depth,
        b"Group Key: ",
        group.keys.as_slice(),
        out,
    )?;
    append_lines(
        items,
        texts.as_slice(),
        depth,
        b"Filter: ",
        group.having.as_slice(),
        out,
    )
}

/// Appends the keys of a sort.
fn append_sort(
    alloc: Global,
    items: &[Item],
    depth: usize,
    keys: &[SortKey],
    aggregates: &[Aggregate],
    out: &mut Vec<u8>,
) -> Result<(), NoMemory> {
    let texts = aggregate_texts(alloc, items, aggregates)?;
    append_keys(items, texts.as_slice(), depth, keys, out)
}

fn append_keys(
    items: &[Item],
    aggregates: &[Text],
    depth: usize,
    keys: &[SortKey],
    out: &mut Vec<u8>,
) -> Result<(), NoMemory> {
    for key in keys {
        append_indent(depth, out)?;
        append(b"Sort Key: ", out)?;
        append_key(items, aggregates, key, out)?;
        append(b"\n", out)?;
    }
    Ok(())
}

/// The aggregates of the rows that a sort goes over; none at another node.
fn sorted_groups(node: &Node) -> &[Aggregate] {
    match node {
        Node::Sort(_, _, input) => groups_of(input.get()),
        _ => &[],
    }
}

/// The aggregates of the rows that a node gives; none where they aren't groups.
fn groups_of(node: &Node) -> &[Aggregate] {
    match node {
        Node::Aggregate(_, group, _) => group.aggregates.as_slice(),
        Node::Unique(_, _, input) => groups_of(input.get()),
        _ => &[],
    }
}
