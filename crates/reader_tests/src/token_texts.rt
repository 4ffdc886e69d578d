use crate::shared::repeat;
use q_base::{SqlError, Stop};
use sql_tokens::{Sign, Token, tokens};
use std::alloc::{AllocError, Global};
use std::test::Fail;

/// A text, and its tokens or its refusal as `shown` writes them.
const CASES: [(&str, &str); 60] = [
    ("", ""),
    (" \t\n\x0C\r", ""),
    ("select", "word:select"),
    ("SeLeCT _x a1$b", "word:select word:_x word:a1$b"),
    ("Ärger ÄRGER", "word:Ärger word:Ärger"),
    ("x\u{80}é日本 y", "word:x\u{80}é日本 word:y"),
    ("\"Select\"", "quoted:Select"),
    ("\"a\"\"b\"", "quoted:a\"b"),
    ("\"\"\"\"", "quoted:\""),
    ("\"\"", "42601"),
    ("\"a", "42601"),
    ("\"a\"\"", "42601"),
    ("\"a'b--c/*\"", "quoted:a'b--c/*"),
    ("''", "text:"),
    ("'it''s'", "text:it's"),
    ("'a' 'b'", "text:a text:b"),
    ("'a''''b'", "text:a''b"),
    ("'A;\"--/*\n\0é'", "text:A;\"--/*\n\0é"),
    ("'a", "42601"),
    ("'a''", "42601"),
    ("007 12", "number:007 number:12"),
    ("1a", "42601"),
    ("1_", "42601"),
    ("1.5", "number:1 . number:5"),
    ("1é", "number:1 word:é"),
    ("1$2", "number:1 param:2"),
    ("1'a'", "number:1 text:a"),
    ("$1", "param:1"),
    ("$1a", "param:1 word:a"),
    ("$", "42601"),
    ("$a", "42601"),
    ("$ 1", "42601"),
    ("a$1", "word:a$1"),
    (
        "= <> != < <= > >= + - * / ( ) , .",
        "= <> <> < <= > >= + - * / ( ) , .",
    ),
    ("<=>", "<= >"),
    ("<>=", "<> ="),
    ("!", "42601"),
    ("! =", "42601"),
    ("-1", "- number:1"),
    ("a-- b\nc", "word:a word:c"),
    ("a -- b", "word:a"),
    ("--", ""),
    ("a - - b", "word:a - - word:b"),
    ("a/*b*/c", "word:a word:c"),
    ("a/*b/*c*/d*/e", "word:a word:e"),
    ("/*/*/ */*/ x", "word:x"),
    ("/*'\"--*/x", "word:x"),
    ("/*/", "42601"),
    ("/* /* */", "42601"),
    ("*/", "* /"),
    ("\\prepared", "\\prepared"),
    (" /*a*/ --b\n \\Cursors x", "\\Cursors word:x"),
    ("\\", "\\"),
    ("\\1", "\\ number:1"),
    ("\\a--b/*", "\\a - - word:b / *"),
    ("\\a \\b", "42601"),
    ("a \\b", "42601"),
    ("\0", "42601"),
    ("a; b", "42601"),
    ("1a 'b", "42601"),
];

fn sign_text(sign: Sign) -> &'static str {
    match sign {
        Sign::Equal => "=",
        Sign::NotEqual => "<>",
        Sign::Less => "<",
        Sign::LessEqual => "<=",
        Sign::Greater => ">",
        Sign::GreaterEqual => ">=",
        Sign::Plus => "+",
        Sign::Minus => "-",
        Sign::Star => "*",
        Sign::Slash => "/",
        Sign::LeftParen => "(",
        Sign::RightParen => ")",
        Sign::Comma => ",",
        Sign::Dot => ".",
    }
}

fn append(out: &mut String, label: &str, content: &str) -> Result<(), AllocError> {
    if !out.is_empty() {
        out.push_str(" ")?;
    }
    out.push_str(label)?;
    out.push_str(content)
}

fn append_token(out: &mut String, token: &Token) -> Result<(), AllocError> {
    match token {
        Token::Word(name) => append(out, "word:", name.as_str()),
        Token::Quoted(name) => append(out, "quoted:", name.as_str()),
        Token::Text(content) => append(out, "text:", content.as_str()),
        Token::Number(digits) => append(out, "number:", digits.as_str()),
        Token::Param(digits) => append(out, "param:", digits.as_str()),
        Token::Sign(sign) => append(out, sign_text(*sign), ""),
        Token::Backslash(letters) => append(out, "\\", letters.as_str()),
    }
}

fn append_tokens(out: &mut String, tokens: &[Token]) -> Result<(), AllocError> {
    for token in tokens {
        append_token(out, token)?;
    }
    Ok(())
}

fn append_refusal(out: &mut String, error: &SqlError) -> Result<(), AllocError> {
    append(out, error.code.sqlstate(), "")?;
    for argument in error.args.as_slice() {
        append(out, "", argument.as_str())?;
    }
    Ok(())
}

/// Writes the tokens of a text, or the SQLSTATE of its refusal with its arguments.
fn show(alloc: Global, out: &mut String, text: &str) -> Result<(), AllocError> {
    match tokens(alloc, text) {
        Ok(found) => append_tokens(out, found.as_slice()),
        Err(Stop::Sql(error)) => append_refusal(out, &error),
        Err(Stop::NoMemory) => Err(AllocError),
    }
}

fn shown(alloc: Global, text: &str) -> Result<String, AllocError> {
    let mut out = String::new(alloc);
    show(alloc, &mut out, text)?;
    Ok(out)
}

#[test]
fn gives_the_tokens(rt: HostRuntime) -> Result<(), Fail> {
    for (text, wanted) in &CASES {
        assert_eq!(rt; shown(rt.alloc(), text)?.as_str(), *wanted, "at {text}");
    }
    Ok(())
}

/// A text as `head`, `middle` so many times and `tail`, and what `shown` writes of it as another head
/// and another middle so many times.
const LONG_CASES: [(&str, &str, usize, &str, &str, &str); 7] = [
    ("", "A", 63, "", "word:", "a"),
    ("", "A", 64, " 'b", "42622 ", "a"),
    ("x", "é", 31, "", "word:x", "é"),
    ("xy", "é", 31, "", "42622 xy", "é"),
    ("\"", "\"\"", 63, "\"", "quoted:", "\""),
    ("\"", "A", 64, "\"", "42622 ", "A"),
    ("'", "A", 64, "'", "text:", "A"),
];

fn repeated(
    alloc: Global,
    head: &str,
    middle: &str,
    count: usize,
    tail: &str,
) -> Result<String, AllocError> {
    let mut out = String::from_str(alloc, head)?;
    repeat(&mut out, middle, count)?;
    out.push_str(tail)?;
    Ok(out)
}

/// What `shown` writes of a long text.
fn shown_long(
    alloc: Global,
    head: &str,
    middle: &str,
    count: usize,
    tail: &str,
) -> Result<String, AllocError> {
    let text = repeated(alloc, head, middle, count, tail)?;
    shown(alloc, text.as_str())
}

#[test]
fn limits_identifiers(rt: HostRuntime) -> Result<(), Fail> {
    for (head, middle, count, tail, wanted_head, wanted_middle) in &LONG_CASES {
        let found = shown_long(rt.alloc(), head, middle, *count, tail)?;
        let wanted = repeated(rt.alloc(), wanted_head, wanted_middle, *count, "")?;
        assert!(rt; found.as_str() == wanted.as_str(), "at {head}");
    }
    Ok(())
}
