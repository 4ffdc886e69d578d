ghost use Rattle.std.specs.Prelude.{◌≡◌, IfOk};
ghost use Rattle.std.specs.String.{string_bytes};

use crate::NoMemory;
use std::alloc::Global;
use std::marker::Model;

/// An owned text, which contracts see as its bytes.
#[derive(Debug, Drop)]
pub struct Str {
    text: String,
}

impl Model for Str {
    ghost use Rattle.std.specs.Prelude.{ℕ, List};
    ghost use Rattle.std.specs.String.{string_bytes};

    ghost Value = { List ℕ };

    ghost view = { λ s. string_bytes s.text };
}

impl Str {
    /// The text of a `String`, without a copy.
    pub fn new(text: String) -> Str
        ensures { result ≡ string_bytes text }
    {
        Str { text }
    }

    /// A copy of the characters of `text`.
    pub fn from_text(alloc: Global, text: &str) -> Result<Str, NoMemory>
        ensures { IfOk result (λ s. s ≡ text.now) }
    {
        Ok(Str::new(String::from_str(alloc, text)?))
    }

    /// The characters, lent.
    pub fn as_str(&self) -> &str
        ensures { result.now ≡ self.now }
    {
        self.text.as_str()
    }

    /// The characters as a `String`, without a copy.
    pub fn into_string(self) -> String
        ensures { string_bytes result ≡ self }
    {
        let Str { text } = self;
        text
    }

    /// A second owner of the same characters.
    pub fn copy(&self, alloc: Global) -> Result<Str, NoMemory>
        ensures { IfOk result (λ s. s ≡ self.now) }
    {
        Str::from_text(alloc, self.as_str())
    }
}
