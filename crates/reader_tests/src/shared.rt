//! What several tables are read and written with.

use q_base::{Code, Stop, Str};
use sql_reader::read_command;
use sql_tokens::tokens;
use sql_tree::Command;
use std::alloc::{AllocError, Global};

/// The command that a text spells.
pub fn read(alloc: Global, text: &str) -> Result<Command, Stop> {
    let tokens = tokens(alloc, text)?;
    read_command(alloc, tokens.as_slice())
}

/// Whether a text was refused as none that is spelt.
pub fn is_syntax_error(stop: &Stop) -> Result<bool, AllocError> {
    match stop {
        Stop::Sql(error) => Ok(error.code == Code::SyntaxError),
        Stop::NoMemory => Err(AllocError),
    }
}

fn is_refused(alloc: Global, text: &str) -> Result<bool, AllocError> {
    match read(alloc, text) {
        Ok(_) => Ok(false),
        Err(stop) => is_syntax_error(&stop),
    }
}

/// The first of the texts that is a command, if one is.
pub fn first_read<'a>(alloc: Global, texts: &'a [&'a str]) -> Result<Option<&'a str>, AllocError> {
    for text in texts {
        if !is_refused(alloc, text)? {
            return Ok(Some(text));
        }
    }
    Ok(None)
}

pub fn append(out: &mut String, before: &str, text: &str) -> Result<(), AllocError> {
    out.push_str(before)?;
    out.push_str(text)
}

/// Writes each name behind a blank.
pub fn show_names(out: &mut String, names: &[Str]) -> Result<(), AllocError> {
    for name in names {
        append(out, " ", name.as_str())?;
    }
    Ok(())
}

/// Writes a text so many times.
pub fn repeat(out: &mut String, text: &str, count: usize) -> Result<(), AllocError> {
    for _ in 0..count {
        out.push_str(text)?;
    }
    Ok(())
}
