ghost use Rattle.std.specs.Prelude.{◌≡◌, ◌≤◌};

use q_base::{
    Code, ColId, ColList, IdList, ListOf, NoMemory, ObjId, Stop, Str, Table, Work, refusal,
    refusal_naming, refusal_naming_two,
};
use std::alloc::Global;
use std::marker::Brand;
use std::mem::size_of;
use std::sync::ledger::{Blank, Ledger};
use std::test::Fail;

/// The SQLSTATEs and the texts of PostgreSQL 17, and of this project where PostgreSQL has none.
const TEXTS: [(Code, &str, &str); 14] = [
    (
        Code::CachedPlanChanged,
        "0A000",
        "cached plan must not change result type",
    ),
    (
        Code::ValueOutOfRange,
        "22003",
        "value \"%\" is out of range for type %",
    ),
    (Code::NegativeLimit, "2201W", "LIMIT must not be negative"),
    (
        Code::InvalidTextForType,
        "22P02",
        "invalid input syntax for type %: \"%\"",
    ),
    (
        Code::NullInColumn,
        "23502",
        "null value in column \"%\" of relation \"%\" violates not-null constraint",
    ),
    (
        Code::DuplicateKey,
        "23505",
        "duplicate key value violates unique constraint \"%\"",
    ),
    (
        Code::OnlyInBlock,
        "25P01",
        "% can only be used in transaction blocks",
    ),
    (
        Code::FailedBlock,
        "25P02",
        "current transaction is aborted, commands ignored until end of transaction block",
    ),
    (
        Code::UnknownStatement,
        "26000",
        "prepared statement \"%\" does not exist",
    ),
    (
        Code::ColumnHasDependents,
        "2BP01",
        "cannot drop column % of table % because other objects depend on it",
    ),
    (
        Code::UngroupedColumn,
        "42803",
        "column \"%.%\" must appear in the GROUP BY clause or be used in an aggregate function",
    ),
    (
        Code::UnknownFunction,
        "42883",
        "function %(%) does not exist",
    ),
    (
        Code::RecursiveView,
        "42P17",
        "infinite recursion detected in rules for relation \"%\"",
    ),
    (
        Code::ObjectInUse,
        "55006",
        "cannot % \"%\" because it is being used by active queries in this session",
    ),
];

/// Words as a reader of SQL has them, each with its place.
const WORDS: [(&str, u8); 40] = [
    ("all", 0),
    ("alter", 1),
    ("and", 2),
    ("as", 3),
    ("asc", 4),
    ("begin", 5),
    ("between", 6),
    ("by", 7),
    ("close", 8),
    ("commit", 9),
    ("create", 10),
    ("cursor", 11),
    ("declare", 12),
    ("delete", 13),
    ("desc", 14),
    ("distinct", 15),
    ("drop", 16),
    ("execute", 17),
    ("false", 18),
    ("fetch", 19),
    ("from", 20),
    ("group", 21),
    ("having", 22),
    ("in", 23),
    ("insert", 24),
    ("into", 25),
    ("is", 26),
    ("join", 27),
    ("limit", 28),
    ("move", 29),
    ("not", 30),
    ("null", 31),
    ("on", 32),
    ("or", 33),
    ("order", 34),
    ("prepare", 35),
    ("select", 36),
    ("set", 37),
    ("update", 38),
    ("where", 39),
];

#[derive(Clone, Copy, Debug, PartialEq, Eq, PartialOrd, Ord)]
enum Sort {
    Small,
    Integer,
    Big,
    Text,
}

#[derive(Clone, Copy, Debug, PartialEq, Eq, PartialOrd, Ord)]
enum Act {
    Add,
    Less,
    Equal,
}

/// The sorts at which each act is done, by the act and the sort on its left.
const ACTS: [((Act, Sort), Sort); 12] = [
    ((Act::Add, Sort::Small), Sort::Small),
    ((Act::Add, Sort::Integer), Sort::Integer),
    ((Act::Add, Sort::Big), Sort::Big),
    ((Act::Add, Sort::Text), Sort::Text),
    ((Act::Less, Sort::Small), Sort::Integer),
    ((Act::Less, Sort::Integer), Sort::Integer),
    ((Act::Less, Sort::Big), Sort::Big),
    ((Act::Less, Sort::Text), Sort::Text),
    ((Act::Equal, Sort::Small), Sort::Big),
    ((Act::Equal, Sort::Integer), Sort::Big),
    ((Act::Equal, Sort::Big), Sort::Big),
    ((Act::Equal, Sort::Text), Sort::Text),
];

#[test]
fn codes_have_their_texts(rt: HostRuntime) {
    for (code, sqlstate, template) in TEXTS {
        assert_eq!(rt; code.sqlstate(), sqlstate, "{code:?}");
        assert_eq!(rt; code.template(), template, "{code:?}");
    }
}

#[test]
fn tables_answer_their_rows(rt: HostRuntime) {
    let words = Table::<&str, u8, 40>::new(&WORDS);
    for (word, place) in WORDS {
        assert_eq!(rt; words.find(&word).copied(), Some(place), "at {place}");
    }
    assert_eq!(rt; words.find(&"").copied(), None);
    assert_eq!(rt; words.find(&"selec").copied(), None);
    assert_eq!(rt; words.find(&"zone").copied(), None);
    let acts = Table::<(Act, Sort), Sort, 12>::new(&ACTS);
    assert_eq!(rt;
        acts.find(&(Act::Less, Sort::Small)).copied(),
        Some(Sort::Integer)
    );
    assert_eq!(rt;
        acts.find(&(Act::Equal, Sort::Text)).copied(),
        Some(Sort::Text)
    );
}

#[test]
fn refusals_name_their_arguments(rt: HostRuntime) -> Result<(), Fail> {
    let alloc = rt.alloc();
    let none = arguments_of(alloc, refusal(alloc, Code::SyntaxError))?;
    assert_eq!(rt; none.as_str(), "SyntaxError()");
    let one = arguments_of(alloc, refusal_naming(alloc, Code::UnknownCursor, "c"))?;
    assert_eq!(rt; one.as_str(), "UnknownCursor(c)");
    let two = refusal_naming_two(alloc, Code::NullsStored, "a", "t");
    assert_eq!(rt; arguments_of(alloc, two)?.as_str(), "NullsStored(a,t)");
    Ok(())
}

/// The code of a refusal, and its arguments in parentheses.
fn arguments_of(alloc: Global, stop: Stop) -> Result<String, NoMemory> {
    let Stop::Sql(error) = stop else {
        return Err(NoMemory);
    };
    let mut text = format!(in alloc; "{:?}(", error.code)?;
    let mut comma = "";
    for argument in error.args.as_slice() {
        text.push_str(comma)?;
        text.push_str(argument.as_str())?;
        comma = ",";
    }
    text.push_str(")")?;
    Ok(text)
}

#[test]
fn lists_keep_their_elements(rt: HostRuntime) -> Result<(), Fail> {
    let alloc = rt.alloc();
    let mut ids = IdList::new(alloc);
    for id in [5, 2, 9, 5, 2] {
        ids.push(ObjId(id))?;
    }
    assert_eq!(rt; ids.as_slice(), [ObjId(2), ObjId(5), ObjId(9)].as_slice());
    let mut columns: ColList = ListOf::from_vec(vec![in alloc; ColId(3)]?);
    columns.push(ColId(1))?;
    assert_eq!(rt;
        columns.into_vec().as_slice(),
        [ColId(3), ColId(1)].as_slice()
    );
    let text = Str::from_text(alloc, "as written")?.copy(alloc)?;
    assert_eq!(rt; text.into_string().as_str(), "as written");
    Ok(())
}

#[test]
fn counters_open_and_count(rt: HostRuntime) {
    count_some::<Brand>(Blank::new(3));
    assert_eq!(rt; size_of::<Work<Brand>>(), 0, "the counts take no bytes");
}

fn count_some<L: Ledger>(blank: Blank)
    requires name { blank.name ≡ L.name }
    requires parts { blank.parts ≡ L.parts }
    requires three { 3 ≤ blank.parts }
{
    let mut work = Work::<L>::open(blank);
    count_in(&mut work);
}

fn count_in<L: Ledger>(work: &mut Work<L>)
    requires { work.old ≡ record { analyses = 0; plans = 0; pulls = 0 } }
    ensures { work.new ≡ record { analyses = 1; plans = 2; pulls = 1 } }
{
    work.count_analysis();
    work.count_plan();
    work.count_plan();
    work.count_pull();
}
