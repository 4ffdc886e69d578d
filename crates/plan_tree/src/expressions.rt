ghost use Rattle.std.specs.Prelude.{◌≡◌, [], ◌++◌, map, unwrap_or, codes, OnOk, IfOk};
ghost use Rattle.std.specs.Option.{option_copied};
ghost use Rattle.std.specs.Fmt.{decimal};
ghost use Rattle.plan_tree.specs.Expressions as spec;

use crate::append::{append, append_number};
use crate::items::{called, column_name, relation_at};
use q_base::{ListOf, NoMemory};
use q_value::{Value, value_text};
use query_tree::{Aggregate, ArithmeticOp, ColumnPlace, CompareOp, Item, SortKey, Target};
use std::alloc::Global;

/// A printed text.
pub type Text = ListOf<u8>;

/// Printed texts, such as those of a block's aggregates.
pub type TextList = ListOf<Text>;

/// Appends the text of an expression.
#[cycle(target)]
pub fn append_target(
    target: &Target,
    items: &[Item],
    aggregates: &[Text],
    out: &mut Vec<u8>,
) -> Result<(), NoMemory> {
    match target {
        Target::Const(_, value) => append_value(value, out),
        Target::Param(_, number) => append_param(*number, out),
        Target::Column(_, column) => append_column(items, column, out),
        Target::Aggregate(_, aggregate) => { append_text(aggregates.get(aggregate.number), out) }
        Target::Arithmetic(op, _, left, right) => {
            append(b"(", out)?;
            append_target(left.get(), items, aggregates, out)?;
            append(arithmetic_sign(*op), out)?;
            append_target(right.get(), items, aggregates, out)?;
            append(b")", out)
        }
        Target::Negate(_, operand) => {
            append(b"(- ", out)?;
            append_target(operand.get(), items, aggregates, out)?;
            append(b")", out)
        }
        Target::Compare(op, left, right) => {
            append(b"(", out)?;
            append_target(left.get(), items, aggregates, out)?;
            append(compare_sign(*op), out)?;
            append_target(right.get(), items, aggregates, out)?;
            append(b")", out)
        }
        Target::IsNull(operand, negated) => {
            append(b"(", out)?;
            append_target(operand.get(), items, aggregates, out)?;
            append(null_test(*negated), out)
        }
        Target::Not(operand) => {
            append(b"(NOT ", out)?;
            append_target(operand.get(), items, aggregates, out)?;
            append(b")", out)
        }
        Target::And(operands) => append_joined(
            operands.as_slice(),
            items,
            aggregates,
            b" AND ",
            out,
        ),
        Target::Or(operands) => append_joined(operands.as_slice(), items, aggregates, b" OR ", out),
        Target::In(operand, values) => {
            let mut before: &[u8] = b"((";
            for value in values.as_slice() {
                append(before, out)?;
                append_target(operand.get(), items, aggregates, out)?;
                append(b" = ", out)?;
                append_target(value, items, aggregates, out)?;
                before = b") OR (";
            }
            append(b"))", out)
        }
        Target::Between(operand, low, high) => {
            append(b"((", out)?;
            append_target(operand.get(), items, aggregates, out)?;
            append(b" >= ", out)?;
            append_target(low.get(), items, aggregates, out)?;
            append(b") AND (", out)?;
            append_target(operand.get(), items, aggregates, out)?;
            append(b" <= ", out)?;
            append_target(high.get(), items, aggregates, out)?;
            append(b"))", out)
        }
    }
}

/// Appends operands with a word between two.
#[cycle(target)]
fn append_joined(
    operands: &[Target],
    items: &[Item],
    aggregates: &[Text],
    word: &[u8],
    out: &mut Vec<u8>,
) -> Result<(), NoMemory> {
    let mut before: &[u8] = b"(";
    for operand in operands {
        append(before, out)?;
        append_target(operand, items, aggregates, out)?;
        before = word;
    }
    append(b")", out)
}

fn null_test(negated: bool) -> &'static [u8]
    ensures { result.now ≡ spec.null_test negated }
{
    if negated {
        b" IS NOT NULL)"
    } else {
        b" IS NULL)"
    }
}

fn arithmetic_sign(op: ArithmeticOp) -> &'static [u8]
    ensures { result.now ≡ spec.arithmetic_sign op }
{
    match op {
        ArithmeticOp::Add => b" + ",
        ArithmeticOp::Subtract => b" - ",
        ArithmeticOp::Multiply => b" * ",
        ArithmeticOp::Divide => b" / ",
    }
}

fn compare_sign(op: CompareOp) -> &'static [u8]
    ensures { result.now ≡ spec.compare_sign op }
{
    match op {
        CompareOp::Equal => b" = ",
        CompareOp::NotEqual => b" <> ",
        CompareOp::Less => b" < ",
        CompareOp::LessEqual => b" <= ",
        CompareOp::Greater => b" > ",
        CompareOp::GreaterEqual => b" >= ",
    }
}

/// Appends a constant.
fn append_value(value: &Value, out: &mut Vec<u8>) -> Result<(), NoMemory>
    ensures { OnOk result (out.new.items ≡ out.old.items ++ spec.constant_text value.now) }
{
    match value {
        Value::Null => append(b"NULL", out),
        Value::Bool(true) => append(b"true", out),
        Value::Bool(false) => append(b"false", out),
        Value::Text(text) => append_quoted(text.as_str().as_bytes(), out),
        Value::Int2(_) | Value::Int4(_) | Value::Int8(_) => value_text(value, out),
    }
}

/// Appends a text between quotes, its own quotes doubled.
fn append_quoted(text: &[u8], out: &mut Vec<u8>) -> Result<(), NoMemory>
    ensures { OnOk result (out.new.items ≡ out.old.items ++ (codes "'" ++ spec.doubled text.now ++ codes "'")) }
{
    append(b"'", out)?;
    append_doubled(text, out)?;
    append(b"'", out)
}

fn append_doubled(text: &[u8], out: &mut Vec<u8>) -> Result<(), NoMemory>
    ensures { OnOk result (out.new.items ≡ out.old.items ++ spec.doubled text.now) }
{
    for byte in text {
        append_byte(*byte, out)?;
    }
    Ok(())
}

fn append_byte(byte: u8, out: &mut Vec<u8>) -> Result<(), NoMemory>
    ensures { OnOk result (out.new.items ≡ out.old.items ++ spec.byte_text byte) }
{
    if byte == b'\'' {
        append(b"''", out)
    } else {
        append(&[byte], out)
    }
}

fn append_param(number: u32, out: &mut Vec<u8>) -> Result<(), NoMemory>
    ensures { OnOk result (out.new.items ≡ out.old.items ++ (codes "$" ++ decimal number)) }
{
    append(b"$", out)?;
    append_number(u64::from(number), out)
}

fn append_text(text: Option<&Text>, out: &mut Vec<u8>) -> Result<(), NoMemory>
    ensures { OnOk result (out.new.items ≡ out.old.items ++ unwrap_or (option_copied text.entry) []) }
{
    match text {
        Some(text) => append(text.as_slice(), out),
        None => Ok(()),
    }
}

fn append_column(items: &[Item], column: &ColumnPlace, out: &mut Vec<u8>) -> Result<(), NoMemory>
    ensures { OnOk result (out.new.items ≡ out.old.items ++ spec.column_text items.now column.now) }
{
    let Some(relation) = relation_at(items, column.item) else {
        return Ok(());
    };
    append(called(relation).as_bytes(), out)?;
    append(b".", out)?;
    append(column_name(relation, column.column).as_bytes(), out)
}

/// The texts of a block's aggregates.
pub fn aggregate_texts(
    alloc: Global,
    items: &[Item],
    aggregates: &[Aggregate],
) -> Result<TextList, NoMemory> {
    let mut texts = ListOf::new(alloc);
    for aggregate in aggregates {
        texts.push(aggregate_text(alloc, items, aggregate)?)?;
    }
    Ok(texts)
}

fn aggregate_text(alloc: Global, items: &[Item], aggregate: &Aggregate) -> Result<Text, NoMemory> {
    let mut text = Vec::new(alloc);
    append_aggregate(items, aggregate, &mut text)?;
    Ok(Text::from_vec(text))
}

fn append_aggregate(
    items: &[Item],
    aggregate: &Aggregate,
    out: &mut Vec<u8>,
) -> Result<(), NoMemory> {
    match aggregate {
        Aggregate::CountRows => append(b"count(*)", out),
        Aggregate::Count(argument) => append_call(items, b"count(", argument, out),
        Aggregate::Sum(argument) => append_call(items, b"sum(", argument, out),
        Aggregate::Min(argument) => append_call(items, b"min(", argument, out),
        Aggregate::Max(argument) => append_call(items, b"max(", argument, out),
    }
}

fn append_call(
    items: &[Item],
    before: &[u8],
    argument: &Target,
    out: &mut Vec<u8>,
) -> Result<(), NoMemory> {
    append(before, out)?;
    append_target(argument, items, &[], out)?;
    append(b")", out)
}

/// Appends a key of a sort.
pub fn append_key(
    items: &[Item],
    aggregates: &[Text],
    key: &SortKey,
    out: &mut Vec<u8>,
) -> Result<(), NoMemory> {
    append_target(&key.target, items, aggregates, out)?;
    append(key_suffix(key.desc, key.nulls_first), out)
}

/// How a key goes where it isn't ascending with nulls last, or where its nulls aren't where they are by default.
fn key_suffix(desc: bool, nulls_first: bool) -> &'static [u8]
    ensures { result.now ≡ spec.key_suffix desc nulls_first }
{
    match (desc, nulls_first) {
        (false, false) => b"",
        (false, true) => b" NULLS FIRST",
        (true, true) => b" DESC",
        (true, false) => b" DESC NULLS LAST",
    }
}
