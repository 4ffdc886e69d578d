use crate::shared::{append, is_syntax_error};
use q_base::Stop;
use sql_expr::{Cursor, eat_literal, load, numeral, read_expr};
use sql_tokens::tokens;
use sql_tree::{Arithmetic, ColumnRef, Comparison, Expr, Literal};
use std::alloc::{AllocError, Global};
use std::test::Fail;

/// Texts, and how their tree nests: a node is its operator and its operands in parentheses.
const READ: [(&str, &str); 34] = [
    ("a", "a"),
    ("T.\"B\"", "t.B"),
    ("1", "1"),
    ("-1", "-1"),
    ("- 1", "-1"),
    ("- - 1", "(- -1)"),
    ("-a", "(- a)"),
    ("-(1)", "(- 1)"),
    ("a - 1", "(- a 1)"),
    ("a - -1", "(- a -1)"),
    ("a - - - 1", "(- a (- -1))"),
    ("'it''s'", "'it's"),
    ("$12", "$12"),
    ("null", "NULL"),
    ("TRUE", "TRUE"),
    ("\"true\"", "true"),
    ("count(*)", "(count *)"),
    ("sum(a + 1)", "(sum (+ a 1))"),
    ("1 + 2 * 3 - 4 / 5", "(- (+ 1 (* 2 3)) (/ 4 5))"),
    ("(1 + 2) * 3", "(* (+ 1 2) 3)"),
    ("a - b - c", "(- (- a b) c)"),
    ("-a * b", "(* (- a) b)"),
    (
        "a = 1 and b <> 2 and c != 3",
        "(AND (= a 1) (<> b 2) (<> c 3))",
    ),
    ("a or b and c or d", "(OR a (AND b c) d)"),
    ("a and (b and c)", "(AND a (AND b c))"),
    ("(a or b) and c", "(AND (OR a b) c)"),
    ("not a = b", "(NOT (= a b))"),
    ("not not a and b", "(AND (NOT (NOT a)) b)"),
    ("a < b is not null", "(NOTNULL (< a b))"),
    ("a is null or b >= c", "(OR (NULL a) (>= b c))"),
    ("a in (1, b + 2, 'x')", "(IN a 1 (+ b 2) 'x)"),
    ("a not in (1) is null", "(NULL (NOTIN a 1))"),
    ("a between 1 and 2 and b", "(AND (BETWEEN a 1 2) b)"),
    (
        "a not between b - 1 and -2 = c",
        "(= (NOTBETWEEN a (- b 1) -2) c)",
    ),
];

/// Texts at whose first token no expression starts.
const REFUSED: [&str; 5] = ["", "select", "(a", "()", "not"];

/// Texts, and how many of their tokens are the longest expression.
const FRONT: [(&str, usize); 17] = [
    ("a b", 1),
    ("a, b", 1),
    ("a = b = c", 3),
    ("a is null is null", 3),
    ("a = 1 order by b", 3),
    ("f(a)(b)", 4),
    ("1 + )", 1),
    ("a.", 1),
    ("a. select", 1),
    ("count(*", 1),
    ("a in ()", 1),
    ("a between 1 or 2", 1),
    ("a not 1", 1),
    ("a is 1", 1),
    ("1 + 2 * (3 -", 3),
    ("a or b and not", 3),
    ("a = 1 + f(", 5),
];

/// Texts, and their load.
const LOADS: [(&str, u64); 12] = [
    ("", 0),
    ("a", 1),
    (")", 1),
    ("a + b", 2),
    ("a + b - c, d * e", 3),
    ("(a)", 2),
    ("((a))", 3),
    ("(a) + (b)", 3),
    ("- (- (- a))", 6),
    ("not a and not b or not c", 2),
    ("a in (1 + 2 + 3, 4) + 5", 4),
    ("f(\"not\" and 'and')", 2),
];

fn sign_of(operator: Arithmetic) -> &'static str {
    match operator {
        Arithmetic::Add => "+",
        Arithmetic::Subtract => "-",
        Arithmetic::Multiply => "*",
        Arithmetic::Divide => "/",
    }
}

fn comparison_sign(operator: Comparison) -> &'static str {
    match operator {
        Comparison::Equal => "=",
        Comparison::NotEqual => "<>",
        Comparison::Less => "<",
        Comparison::LessEqual => "<=",
        Comparison::Greater => ">",
        Comparison::GreaterEqual => ">=",
    }
}

fn show_literal(out: &mut String, literal: &Literal) -> Result<(), AllocError> {
    match literal {
        Literal::Number(number) => {
            let sign = if number.negative { "-" } else { "" };
            append(out, sign, number.digits.as_str())
        }
        Literal::Text(text) => append(out, "'", text.as_str()),
        Literal::Null => out.push_str("NULL"),
        Literal::Bool(truth) => out.push_str(if *truth { "TRUE" } else { "FALSE" }),
    }
}

fn show_column(out: &mut String, column: &ColumnRef) -> Result<(), AllocError> {
    if let Some(item) = &column.item {
        append(out, item.as_str(), ".")?;
    }
    out.push_str(column.name.as_str())
}

fn begin(out: &mut String, negated: bool, operator: &str) -> Result<(), AllocError> {
    append(out, if negated { "(NOT" } else { "(" }, operator)
}

/// Writes a blank and an operand.
#[cycle(show)]
fn operand(out: &mut String, expr: &Expr) -> Result<(), AllocError> {
    out.push(' ')?;
    show(out, expr)
}

#[cycle(show)]
fn last_operand(out: &mut String, expr: &Expr) -> Result<(), AllocError> {
    operand(out, expr)?;
    out.push(')')
}

#[cycle(show)]
fn operands(out: &mut String, exprs: &[Expr]) -> Result<(), AllocError> {
    for expr in exprs {
        operand(out, expr)?;
    }
    out.push(')')
}

#[cycle(show)]
fn show(out: &mut String, expr: &Expr) -> Result<(), AllocError> {
    match expr {
        Expr::Literal(literal) => show_literal(out, literal),
        Expr::Param(digits) => append(out, "$", digits.as_str()),
        Expr::Column(column) => show_column(out, column),
        Expr::CallStar(function) => {
            begin(out, false, function.as_str())?;
            out.push_str(" *)")
        }
        Expr::Call(function, argument) => {
            begin(out, false, function.as_str())?;
            last_operand(out, argument.get())
        }
        Expr::Minus(inner) => {
            begin(out, false, "-")?;
            last_operand(out, inner.get())
        }
        Expr::Not(inner) => {
            begin(out, true, "")?;
            last_operand(out, inner.get())
        }
        Expr::IsNull(inner, negated) => {
            begin(out, *negated, "NULL")?;
            last_operand(out, inner.get())
        }
        Expr::Arithmetic(operator, left, right) => {
            begin(out, false, sign_of(*operator))?;
            operand(out, left.get())?;
            last_operand(out, right.get())
        }
        Expr::Comparison(operator, left, right) => {
            begin(out, false, comparison_sign(*operator))?;
            operand(out, left.get())?;
            last_operand(out, right.get())
        }
        Expr::InList(inner, values, negated) => {
            begin(out, *negated, "IN")?;
            operand(out, inner.get())?;
            operands(out, values.as_slice())
        }
        Expr::Between(inner, low, high, negated) => {
            begin(out, *negated, "BETWEEN")?;
            operand(out, inner.get())?;
            operand(out, low.get())?;
            last_operand(out, high.get())
        }
        Expr::And(parts) => {
            begin(out, false, "AND")?;
            operands(out, parts.as_slice())
        }
        Expr::Or(parts) => {
            begin(out, false, "OR")?;
            operands(out, parts.as_slice())
        }
    }
}

/// How many of the text's tokens are the expression at its front, whose tree is written behind `out`.
fn read(alloc: Global, out: &mut String, text: &str) -> Result<usize, Stop> {
    let tokens = tokens(alloc, text)?;
    let tokens = tokens.as_slice();
    if load(tokens) > 200 {
        return Ok(0);
    }
    let (expr, end) = read_expr(alloc, tokens, 0)?;
    show(out, &expr)?;
    Ok(end)
}

/// How many of the text's tokens are the expression at its front.
fn count_read(alloc: Global, text: &str) -> Result<usize, Stop> {
    let mut out = String::new(alloc);
    read(alloc, &mut out, text)
}

fn is_refused(alloc: Global, text: &str) -> Result<bool, AllocError> {
    match count_read(alloc, text) {
        Ok(_) => Ok(false),
        Err(stop) => is_syntax_error(&stop),
    }
}

fn count_tokens(alloc: Global, text: &str) -> Result<usize, Stop> {
    Ok(tokens(alloc, text)?.as_slice().len())
}

#[test]
fn expressions_nest_as_their_operators_bind(rt: HostRuntime) -> Result<(), Fail> {
    for (text, tree) in &READ {
        let mut out = String::new(rt.alloc());
        let end = read(rt.alloc(), &mut out, text)?;
        assert_eq!(rt; out.as_str(), *tree, "at {text}");
        assert_eq!(rt; end, count_tokens(rt.alloc(), text)?, "at {text}");
    }
    Ok(())
}

#[test]
fn other_texts_are_refused(rt: HostRuntime) -> Result<(), Fail> {
    for text in &REFUSED {
        assert!(rt; is_refused(rt.alloc(), text)?, "at {text}");
    }
    Ok(())
}

#[test]
fn expressions_are_read_up_to_their_end(rt: HostRuntime) -> Result<(), Fail> {
    for (text, count) in &FRONT {
        assert_eq!(rt; count_read(rt.alloc(), text)?, *count, "at {text}");
    }
    Ok(())
}

fn load_of(alloc: Global, text: &str) -> Result<u64, Stop> {
    let tokens = tokens(alloc, text)?;
    Ok(load(tokens.as_slice()))
}

#[test]
fn loads_are_those_of_the_deepest_token(rt: HostRuntime) -> Result<(), Fail> {
    for (text, expected) in &LOADS {
        assert_eq!(rt; load_of(rt.alloc(), text)?, *expected, "at {text}");
    }
    Ok(())
}

fn is_literal(alloc: Global, cursor: &mut Cursor<'_>) -> Result<bool, Stop> {
    Ok(eat_literal(alloc, cursor)?.is_some())
}

#[test]
fn constants_are_read(rt: HostRuntime) -> Result<(), Fail> {
    let tokens = tokens(rt.alloc(), "- 7 'seven' a")?;
    let mut cursor = Cursor::new(tokens.as_slice());
    let number = numeral(rt.alloc(), &mut cursor)?;
    assert!(rt; number.negative && number.digits.as_str() == "7");
    assert!(rt; is_literal(rt.alloc(), &mut cursor)?);
    assert!(rt; !is_literal(rt.alloc(), &mut cursor)?);
    assert_eq!(rt; cursor.left(), 1);
    Ok(())
}
