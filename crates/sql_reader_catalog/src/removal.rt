//! DROP, TRUNCATE and ANALYZE, each behind that word:
//!
//! ```text
//! drop     = SCHEMA name | (TABLE | VIEW | INDEX) relation [RESTRICT | CASCADE]
//! truncate = [TABLE] relation
//! analyze  = [relation]
//! ```

ghost use Rattle.std.specs.Prelude.{◌≡◌, Some};
ghost use Rattle.sql_expr.specs.Reading.{Reads};
ghost use Rattle.sql_reader_catalog.specs.Removal as spec;

use q_base::{Code, Stop, refusal};
use sql_expr::{Cursor, name, sees_name};
use sql_reader_query::relation;
use sql_tree::{Command, DropTree, ObjectKind, SchemaCommand};
use std::alloc::Global;

/// The command whose leading DROP was read: of a schema, a table, an index or a view (PostgreSQL's manual, DROP SCHEMA,
/// TABLE, INDEX and VIEW). 42601 where the tokens don't go on so.
#[tactic(auto, unfolding(crate::specs::Removal::drop_object))]
pub fn drop_object(alloc: Global, cursor: &mut Cursor<'_>) -> Result<Command, Stop>
    ensures { Reads (spec.drop_object cursor.old) result cursor.new }
{
    if cursor.eat_word("schema") {
        let schema = name(alloc, cursor)?;
        return Ok(Command::Schema(SchemaCommand::Drop(schema)));
    }
    let kind = object_kind(alloc, cursor)?;
    let name = relation(alloc, cursor)?;
    let cascade = eat_cascade(cursor);
    Ok(Command::Drop(DropTree {
        kind,
        name,
        cascade,
    }))
}

#[tactic(auto, unfolding(crate::specs::Removal::object_kind))]
fn object_kind(alloc: Global, cursor: &mut Cursor<'_>) -> Result<ObjectKind, Stop>
    ensures { Reads (spec.object_kind cursor.old) result cursor.new }
{
    if cursor.eat_word("table") {
        Ok(ObjectKind::Table)
    } else if cursor.eat_word("view") {
        Ok(ObjectKind::View)
    } else if cursor.eat_word("index") {
        Ok(ObjectKind::Index)
    } else {
        Err(refusal(alloc, Code::SyntaxError))
    }
}

/// Goes past CASCADE or RESTRICT, if one of them comes next, and says whether it was CASCADE.
fn eat_cascade(cursor: &mut Cursor<'_>) -> bool
    ensures { spec.eat_cascade cursor.old ≡ Some (result, cursor.new) }
{
    if cursor.eat_word("cascade") {
        return true;
    }
    let _restrict = cursor.eat_word("restrict");
    false
}

/// The command whose leading TRUNCATE was read: perhaps TABLE, and a table's name (PostgreSQL's manual, TRUNCATE). 42601
/// where the tokens don't go on so.
#[tactic(auto, unfolding(crate::specs::Removal::truncate))]
pub fn truncate(alloc: Global, cursor: &mut Cursor<'_>) -> Result<Command, Stop>
    ensures { Reads (spec.truncate cursor.old) result cursor.new }
{
    let _table = cursor.eat_word("table");
    Ok(Command::Truncate(relation(alloc, cursor)?))
}

/// The command whose leading ANALYZE was read: of the relation that comes next, or of all where no name does (PostgreSQL's
/// manual, ANALYZE). 42601 where no name stands behind a schema's name and a dot.
#[tactic(auto, unfolding(crate::specs::Removal::analyze))]
pub fn analyze(alloc: Global, cursor: &mut Cursor<'_>) -> Result<Command, Stop>
    ensures { Reads (spec.analyze cursor.old) result cursor.new }
{
    if !sees_name(cursor) {
        return Ok(Command::Analyze(None));
    }
    let table = relation(alloc, cursor)?;
    Ok(Command::Analyze(Some(table)))
}
