//! From the bytes of a script to its commands, and from a command's text to its tokens.
#![tactic(auto)]

pub mod laws;
mod lexer;
mod splitter;
mod token;

pub use lexer::tokens;
pub use splitter::{Splitter, Took};
pub use token::{Sign, Token, TokenList};
