ghost use Rattle.std.specs.Prelude.{◌≡◌, ◌≤◌, [], ◌∷◌, ◌++◌, IfOk, OnOk};
ghost use Rattle.q_value.specs.Feed.{EndsAtFault};

use q_base::{Code, ListOf, NoMemory, Stop, Str, Work};
use q_value::{
    Outcome, OutcomeList, RowFeed, SqlType, Value, compare3, convert, order_values, parse_value,
    value_text,
};
use std::alloc::Global;
use std::cmp::Ordering;
use std::collections::VecDeque;
use std::marker::Brand;
use std::sync::ledger::{Blank, Ledger};
use std::test::Fail;

/// The printed value, or the SQLSTATE.
fn shown(alloc: Global, answer: Result<Value, Stop>) -> Result<Vec<u8>, NoMemory> {
    let mut out = Vec::new(alloc);
    match answer {
        Ok(value) => value_text(&value, &mut out)?,
        Err(Stop::Sql(error)) => out.extend_from_slice(error.code.sqlstate().as_bytes())?,
        Err(Stop::NoMemory) => return Err(NoMemory),
    }
    Ok(out)
}

/// A value as one of another type.
fn converted(alloc: Global, value: Value, kind: SqlType) -> Result<Vec<u8>, NoMemory> {
    shown(alloc, convert(alloc, value, kind))
}

fn text(alloc: Global, text: &str) -> Result<Value, NoMemory> {
    Ok(Value::Text(Str::from_text(alloc, text)?))
}

fn reread(alloc: Global) -> Result<Value, Stop> {
    Ok(parse_value(alloc, " +7\n", SqlType::Int2)?.copy(alloc)?)
}

/// What commands can't write yet; the rest is in `examples/texts_as_values.sql`.
#[test]
fn values_are_read_and_converted(rt: HostRuntime) -> Result<(), Fail> {
    let found = converted(rt.alloc(), reread(rt.alloc())?, SqlType::Int8)?;
    assert_eq!(rt; found.as_slice(), b"7".as_slice());
    let found = converted(rt.alloc(), Value::Int2(-5), SqlType::Text)?;
    assert_eq!(rt; found.as_slice(), b"-5".as_slice());
    Ok(())
}

/// Texts, and types that they are not converted to.
const OTHER: [(&str, SqlType); 3] = [
    ("1", SqlType::Int4),
    ("1", SqlType::Int8),
    ("t", SqlType::Bool),
];

#[test]
fn texts_are_not_converted(rt: HostRuntime) -> Result<(), Fail> {
    for (written, kind) in &OTHER {
        let found = converted(rt.alloc(), text(rt.alloc(), written)?, *kind)?;
        assert_eq!(rt; found.as_slice(), b"42804".as_slice());
    }
    Ok(())
}

fn row_of(alloc: Global, value: Value) -> Result<Outcome, NoMemory>
    ensures { IfOk result (λ outcome. outcome ≡ Outcome.Row (value ∷ [])) }
{
    let mut row = ListOf::new(alloc);
    row.push(value)?;
    Ok(Outcome::Row(row))
}

/// Two rows and a fault.
fn sample(alloc: Global) -> Result<VecDeque<Outcome>, NoMemory>
    ensures { IfOk result (λ left. EndsAtFault left.items) }
{
    let mut left = VecDeque::new(alloc);
    left.push_back(row_of(alloc, Value::Int2(3))?)?;
    left.push_back(row_of(alloc, Value::Null)?)?;
    left.push_back(Outcome::Fault(Code::DivisionByZero))?;
    Ok(left)
}

/// A list as a feed.
#[derive(Drop)]
struct Listed {
    left: VecDeque<Outcome>,
}

impl RowFeed for Listed {
    ghost use Rattle.q_value.specs.Feed.{EndsAtFault};
    ghost use Rattle.std.specs.Prelude.{⊤, refl};

    type Place = ();

    ghost rest = { λ feed _. feed.left.items };

    ghost fits = { λ feed _. EndsAtFault feed.left.items };

    ghost agree = { λ _ _ _. ⊤ };

    fn next<L: Ledger>(
        &mut self,
        _: Global,
        _: &(),
        work: &mut Work<L>,
    ) -> Result<Option<Outcome>, NoMemory> {
        work.count_pull();
        Ok(self.left.pop_front())
    }

    ghost same_rest = { λ _ _ _ _. refl };

    ghost same_fits = { λ _ _ _ _. (λ fits. fits, λ fits. fits) };

    ghost faults_last = { λ _ _ fits. fits };
}

/// The first outcomes of a feed, `most` of them or all.
fn taken<F: RowFeed, L: Ledger>(
    feed: &mut F,
    alloc: Global,
    place: &F::Place,
    most: usize,
    work: &mut Work<L>,
) -> Result<OutcomeList, NoMemory>
    requires { F.fits feed.old place.now }
    ensures fits { OnOk result (F.fits feed.new place.now) }
    ensures rest { IfOk result (λ taken. taken ++ F.rest feed.new place.now ≡ F.rest feed.old place.now) }
{
    let mut taken = ListOf::new(alloc);
    for _turn in 0..most {
        match feed.next(alloc, place, work)? {
            Some(outcome) => taken.push(outcome)?,
            None => return Ok(taken),
        }
    }
    Ok(taken)
}

fn counted<L: Ledger>(alloc: Global, blank: Blank) -> Result<(usize, usize), NoMemory>
    requires name { blank.name ≡ L.name }
    requires parts { blank.parts ≡ L.parts }
    requires three { 3 ≤ blank.parts }
{
    let mut work = Work::<L>::open(blank);
    let mut feed = Listed {
        left: sample(alloc)?,
    };
    let two = taken(&mut feed, alloc, &(), 2, &mut work)?;
    let others = taken(&mut feed, alloc, &(), 9, &mut work)?;
    Ok((two.as_slice().len(), others.as_slice().len()))
}

#[test]
fn a_list_is_a_feed(rt: HostRuntime) -> Result<(), Fail> {
    assert_eq!(rt; counted::<Brand>(rt.alloc(), Blank::new(3))?, (2, 1));
    Ok(())
}

/// Two values, whether the order descends and nulls come first, and how they are ordered then.
const ORDERED: [(Value, Value, bool, bool, Ordering); 3] = [
    (
        Value::Int8(5),
        Value::Int2(10),
        true,
        false,
        Ordering::Greater,
    ),
    (Value::Null, Value::Int2(10), true, false, Ordering::Greater),
    (
        Value::Bool(false),
        Value::Int2(10),
        false,
        true,
        Ordering::Greater,
    ),
];

#[test]
fn values_are_ordered(rt: HostRuntime) {
    for (left, right, descending, nulls_first, expected) in &ORDERED {
        let order = order_values(left, right, *descending, *nulls_first);
        assert!(rt; order == *expected);
    }
}

#[test]
fn values_are_compared(rt: HostRuntime) {
    let order = compare3(&Value::Int8(5), &Value::Int2(10));
    assert_eq!(rt; order, Some(Ordering::Less));
    assert_eq!(rt; Value::Null.kind(), None);
    assert_eq!(rt; Value::Int8(5).kind(), Some(SqlType::Int8));
}
