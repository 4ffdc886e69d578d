//! Expressions, a function for each line of their grammar:
//!
//! ```text
//! disjunction = conjunction {OR conjunction}
//! conjunction = negation {AND negation}
//! negation    = NOT negation | null_test
//! null_test   = comparison [IS [NOT] NULL]
//! comparison  = membership [(= | <> | < | <= | > | >=) membership]
//! membership  = sum [[NOT] IN "(" list(disjunction) ")" | [NOT] BETWEEN sum AND sum]
//! sum         = product {(+ | -) product}
//! product     = signed {(* | /) signed}
//! signed      = - signed | primary
//! primary     = constant | name ["." name] | name "(" (* | disjunction) ")" | "(" disjunction ")"
//! ```
//!
//! The precedence is that of PostgreSQL (its manual, "Operator Precedence") for the operators that there are.

ghost use Rattle.std.specs.Prelude.{◌≡◌, [], ◌∷◌, IfOk};
ghost use Rattle.sql_expr.specs.Reading.{Reads, taken};
ghost use Rattle.sql_expr.specs.Expressions as spec;

use crate::literals::{eat_digits, literal_of};
use crate::names::name;
use crate::operators::{eat_additive, eat_comparison, eat_multiplicative};
use crate::{Cursor, nodes};
use q_base::{Code, NoMemory, Stop, Str, refusal};
use sql_tokens::{Sign, Token};
use sql_tree::{ColumnRef, Expr, Literal, Numeral};
use sqlite_items::Items;
use std::alloc::Global;

/// The lines of the grammar to which a nested expression leads back.
#[derive(Clone, Copy)]
pub enum Level {
    Whole,
    Negated,
    Signed,
}

/// An expression, the longest that the tokens give without going back behind an operator. 42601 where none
/// comes next.
#[tactic(auto, unfolding(crate::specs::Expressions::expression))]
pub fn expression(alloc: Global, cursor: &mut Cursor<'_>) -> Result<Expr, Stop>
    ensures { Reads (spec.expression cursor.old) result cursor.new }
{
    let depth = cursor.left();
    disjunction(alloc, cursor, depth)
}

/// An expression at a level, within which others are nested no deeper than `depth`.
#[cycle(expr)]
fn nested(alloc: Global, cursor: &mut Cursor<'_>, depth: usize, level: Level) -> Result<Expr, Stop>
    ensures { Reads (spec.nested depth level cursor.old) result cursor.new }
{
    if depth == 0 {
        return Err(refusal(alloc, Code::SyntaxError));
    }
    match level {
        Level::Whole => disjunction(alloc, cursor, depth - 1),
        Level::Negated => negation(alloc, cursor, depth - 1),
        Level::Signed => signed(alloc, cursor, depth - 1),
    }
}

#[tactic(auto, unfolding(crate::specs::Expressions::disjunction))]
#[cycle(expr)]
fn disjunction(alloc: Global, cursor: &mut Cursor<'_>, depth: usize) -> Result<Expr, Stop>
    ensures { Reads (spec.disjunction (spec.nested depth) cursor.old) result cursor.new }
{
    let first = conjunction(alloc, cursor, depth)?;
    if !cursor.eat_word("or") {
        return Ok(first);
    }
    Ok(Expr::Or(disjuncts(alloc, cursor, depth, first)?))
}

/// The operands of OR, of which the first was read with the OR behind it.
#[cycle(expr)]
fn disjuncts(
    alloc: Global,
    cursor: &mut Cursor<'_>,
    depth: usize,
    first: Expr,
) -> Result<Items<Expr>, Stop>
    ensures { Reads (spec.disjuncts (spec.nested depth) first cursor.old) result cursor.new }
{
    let mut operands = Items::new(alloc);
    operands.push(first)?;
    for _turn in 0..cursor.left() {
        operands.push(conjunction(alloc, cursor, depth)?)?;
        if !cursor.eat_word("or") {
            return Ok(operands);
        }
    }
    Err(refusal(alloc, Code::SyntaxError))
}

#[tactic(auto, unfolding(crate::specs::Expressions::conjunction))]
#[cycle(expr)]
fn conjunction(alloc: Global, cursor: &mut Cursor<'_>, depth: usize) -> Result<Expr, Stop>
    ensures { Reads (spec.conjunction (spec.nested depth) cursor.old) result cursor.new }
{
    let first = negation(alloc, cursor, depth)?;
    if !cursor.eat_word("and") {
        return Ok(first);
    }
    Ok(Expr::And(conjuncts(alloc, cursor, depth, first)?))
}

/// The operands of AND, of which the first was read with the AND behind it.
#[cycle(expr)]
fn conjuncts(
    alloc: Global,
    cursor: &mut Cursor<'_>,
    depth: usize,
    first: Expr,
) -> Result<Items<Expr>, Stop>
    ensures { Reads (spec.conjuncts (spec.nested depth) first cursor.old) result cursor.new }
{
    let mut operands = Items::new(alloc);
    operands.push(first)?;
    for _turn in 0..cursor.left() {
        operands.push(negation(alloc, cursor, depth)?)?;
        if !cursor.eat_word("and") {
            return Ok(operands);
        }
    }
    Err(refusal(alloc, Code::SyntaxError))
}

#[tactic(auto, unfolding(crate::specs::Expressions::negation))]
#[cycle(expr)]
fn negation(alloc: Global, cursor: &mut Cursor<'_>, depth: usize) -> Result<Expr, Stop>
    ensures { Reads (spec.negation (spec.nested depth) cursor.old) result cursor.new }
{
    if !cursor.eat_word("not") {
        return null_test(alloc, cursor, depth);
    }
    let operand = nested(alloc, cursor, depth, Level::Negated)?;
    Ok(nodes::not(alloc, operand)?)
}

#[tactic(auto, unfolding(crate::specs::Expressions::null_test))]
#[cycle(expr)]
fn null_test(alloc: Global, cursor: &mut Cursor<'_>, depth: usize) -> Result<Expr, Stop>
    ensures { Reads (spec.null_test (spec.nested depth) cursor.old) result cursor.new }
{
    let operand = comparison(alloc, cursor, depth)?;
    if !cursor.eat_word("is") {
        return Ok(operand);
    }
    let negated = cursor.eat_word("not");
    or_drop!(cursor.expect_word(alloc, "null"), operand);
    Ok(nodes::is_null(alloc, operand, negated)?)
}

#[tactic(auto, unfolding(crate::specs::Expressions::comparison))]
#[cycle(expr)]
fn comparison(alloc: Global, cursor: &mut Cursor<'_>, depth: usize) -> Result<Expr, Stop>
    ensures { Reads (spec.comparison (spec.nested depth) cursor.old) result cursor.new }
{
    let left = membership(alloc, cursor, depth)?;
    let Some(operator) = eat_comparison(cursor) else {
        return Ok(left);
    };
    let right = or_drop!(membership(alloc, cursor, depth), left);
    Ok(nodes::comparison(alloc, operator, left, right)?)
}

#[tactic(auto, unfolding(crate::specs::Expressions::membership))]
#[cycle(expr)]
fn membership(alloc: Global, cursor: &mut Cursor<'_>, depth: usize) -> Result<Expr, Stop>
    ensures { Reads (spec.membership (spec.nested depth) cursor.old) result cursor.new }
{
    let operand = sum(alloc, cursor, depth)?;
    let negated = cursor.eat_word("not");
    if cursor.eat_word("in") {
        in_list(alloc, cursor, depth, operand, negated)
    } else if cursor.eat_word("between") {
        between(alloc, cursor, depth, operand, negated)
    } else if negated {
        drop(operand);
        Err(refusal(alloc, Code::SyntaxError))
    } else {
        Ok(operand)
    }
}

/// The test that stands behind IN.
#[tactic(auto, unfolding(crate::specs::Expressions::in_list))]
#[cycle(expr)]
fn in_list(
    alloc: Global,
    cursor: &mut Cursor<'_>,
    depth: usize,
    operand: Expr,
    negated: bool,
) -> Result<Expr, Stop>
    ensures { Reads (spec.in_list (spec.nested depth) operand negated cursor.old) result cursor.new }
{
    or_drop!(cursor.expect_sign(alloc, Sign::LeftParen), operand);
    let listed = or_drop!(values(alloc, cursor, depth), operand);
    or_drop!(cursor.expect_sign(alloc, Sign::RightParen), operand, listed);
    Ok(nodes::in_list(alloc, operand, listed, negated)?)
}

/// Expressions with commas between them.
#[cycle(expr)]
fn values(alloc: Global, cursor: &mut Cursor<'_>, depth: usize) -> Result<Items<Expr>, Stop>
    ensures { Reads (spec.values (spec.nested depth) cursor.old) result cursor.new }
{
    let mut values = Items::new(alloc);
    for _turn in 0..cursor.left() {
        values.push(nested(alloc, cursor, depth, Level::Whole)?)?;
        if !cursor.eat_sign(Sign::Comma) {
            return Ok(values);
        }
    }
    Err(refusal(alloc, Code::SyntaxError))
}

/// The test that stands behind BETWEEN.
#[tactic(auto, unfolding(crate::specs::Expressions::between))]
#[cycle(expr)]
fn between(
    alloc: Global,
    cursor: &mut Cursor<'_>,
    depth: usize,
    operand: Expr,
    negated: bool,
) -> Result<Expr, Stop>
    ensures { Reads (spec.between (spec.nested depth) operand negated cursor.old) result cursor.new }
{
    let low = or_drop!(sum(alloc, cursor, depth), operand);
    or_drop!(cursor.expect_word(alloc, "and"), operand, low);
    let high = or_drop!(sum(alloc, cursor, depth), operand, low);
    Ok(nodes::between(alloc, operand, low, high, negated)?)
}

#[tactic(auto, unfolding(crate::specs::Expressions::sum))]
#[cycle(expr)]
fn sum(alloc: Global, cursor: &mut Cursor<'_>, depth: usize) -> Result<Expr, Stop>
    ensures { Reads (spec.sum (spec.nested depth) cursor.old) result cursor.new }
{
    let mut left = product(alloc, cursor, depth)?;
    for _turn in 0..cursor.left() {
        let Some(operator) = eat_additive(cursor) else {
            return Ok(left);
        };
        let right = or_drop!(product(alloc, cursor, depth), left);
        left = nodes::arithmetic(alloc, operator, left, right)?;
    }
    Ok(left)
}

#[tactic(auto, unfolding(crate::specs::Expressions::product))]
#[cycle(expr)]
fn product(alloc: Global, cursor: &mut Cursor<'_>, depth: usize) -> Result<Expr, Stop>
    ensures { Reads (spec.product (spec.nested depth) cursor.old) result cursor.new }
{
    let mut left = signed(alloc, cursor, depth)?;
    for _turn in 0..cursor.left() {
        let Some(operator) = eat_multiplicative(cursor) else {
            return Ok(left);
        };
        let right = or_drop!(signed(alloc, cursor, depth), left);
        left = nodes::arithmetic(alloc, operator, left, right)?;
    }
    Ok(left)
}

#[tactic(auto, unfolding(crate::specs::Expressions::signed))]
#[cycle(expr)]
fn signed(alloc: Global, cursor: &mut Cursor<'_>, depth: usize) -> Result<Expr, Stop>
    ensures { Reads (spec.signed (spec.nested depth) cursor.old) result cursor.new }
{
    if !cursor.eat_sign(Sign::Minus) {
        return primary(alloc, cursor, depth);
    }
    if let Some(digits) = eat_digits(cursor) {
        return Ok(negative(digits.copy(alloc)?));
    }
    let operand = nested(alloc, cursor, depth, Level::Signed)?;
    Ok(nodes::minus(alloc, operand)?)
}

/// A number with a minus directly before it.
fn negative(digits: Str) -> Expr
    ensures { result ≡ spec.negative_number digits }
{
    Expr::Literal(Literal::Number(Numeral {
        negative: true,
        digits,
    }))
}

#[tactic(auto, unfolding(crate::specs::Expressions::primary))]
#[cycle(expr)]
fn primary(alloc: Global, cursor: &mut Cursor<'_>, depth: usize) -> Result<Expr, Stop>
    ensures { Reads (spec.primary (spec.nested depth) cursor.old) result cursor.new }
{
    if cursor.eat_sign(Sign::LeftParen) {
        return parenthesized(alloc, cursor, depth);
    }
    match eat_constant(alloc, cursor)? {
        Some(constant) => Ok(constant),
        None => named(alloc, cursor, depth),
    }
}

#[tactic(auto, unfolding(crate::specs::Expressions::parenthesized))]
#[cycle(expr)]
fn parenthesized(alloc: Global, cursor: &mut Cursor<'_>, depth: usize) -> Result<Expr, Stop>
    ensures { Reads (spec.parenthesized (spec.nested depth) cursor.old) result cursor.new }
{
    let inner = nested(alloc, cursor, depth, Level::Whole)?;
    or_drop!(cursor.expect_sign(alloc, Sign::RightParen), inner);
    Ok(inner)
}

#[tactic(auto, unfolding(crate::specs::Expressions::named))]
#[cycle(expr)]
fn named(alloc: Global, cursor: &mut Cursor<'_>, depth: usize) -> Result<Expr, Stop>
    ensures { Reads (spec.named (spec.nested depth) cursor.old) result cursor.new }
{
    let first = name(alloc, cursor)?;
    if cursor.eat_sign(Sign::LeftParen) {
        call(alloc, cursor, depth, first)
    } else {
        column(alloc, cursor, first)
    }
}

/// The call of which the name and the opening parenthesis were read.
#[tactic(auto, unfolding(crate::specs::Expressions::call))]
#[cycle(expr)]
fn call(alloc: Global, cursor: &mut Cursor<'_>, depth: usize, function: Str) -> Result<Expr, Stop>
    ensures { Reads (spec.call (spec.nested depth) function cursor.old) result cursor.new }
{
    if cursor.eat_sign(Sign::Star) {
        cursor.expect_sign(alloc, Sign::RightParen)?;
        return Ok(Expr::CallStar(function));
    }
    let argument = nested(alloc, cursor, depth, Level::Whole)?;
    or_drop!(cursor.expect_sign(alloc, Sign::RightParen), argument);
    Ok(nodes::call(alloc, function, argument)?)
}

/// The column of which the first name was read.
#[tactic(auto, unfolding(crate::specs::Expressions::column))]
fn column(alloc: Global, cursor: &mut Cursor<'_>, first: Str) -> Result<Expr, Stop>
    ensures { Reads (spec.column first cursor.old) result cursor.new }
{
    if !cursor.eat_sign(Sign::Dot) {
        return Ok(Expr::Column(ColumnRef {
            item: None,
            name: first,
        }));
    }
    let second = name(alloc, cursor)?;
    Ok(Expr::Column(ColumnRef {
        item: Some(first),
        name: second,
    }))
}

/// The operand that a token is by itself, but for a name.
fn constant_of(alloc: Global, token: &Token) -> Result<Option<Expr>, NoMemory>
    ensures { IfOk result (λ constant. constant ≡ spec.constant_of token.now) }
{
    match token {
        Token::Param(digits) => Ok(Some(Expr::Param(digits.copy(alloc)?))),
        _ => match literal_of(alloc, token)? {
            Some(literal) => Ok(Some(Expr::Literal(literal))),
            None => Ok(None),
        },
    }
}

/// Goes past an operand that is one token, but for a name, if one comes next.
#[tactic(auto, unfolding(crate::specs::Reading::taken))]
fn eat_constant(alloc: Global, cursor: &mut Cursor<'_>) -> Result<Option<Expr>, Stop>
    ensures { Reads (taken spec.constant_of cursor.old) result cursor.new }
{
    let Some(token) = cursor.peek() else {
        return Ok(None);
    };
    let Some(constant) = constant_of(alloc, token)? else {
        return Ok(None);
    };
    cursor.skip();
    Ok(Some(constant))
}
