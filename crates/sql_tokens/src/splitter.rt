//! Cutting a script, however it is fed, into its commands.

ghost use Rattle.std.specs.Prelude.{◌≡◌, ◌+◌, ◌^◌, ◌<◌, ◌≤◌, ◌++◌, [], true, false, length, IfOk, OnOk, OnErr, IfSome, IfNone};
ghost use Rattle.sql_tokens.specs.Places.{content_at};
ghost use Rattle.sql_tokens.specs.Script.{is_blanks};
ghost use Rattle.sql_tokens.specs.FirstText.{IsFirst};
ghost use Rattle.sql_tokens.specs.Splitting.{Input, scan_of, taken_from, IsCommand, without_front, Takes, SameTake, Bounds};

mod place;
mod text;
mod took;

use place::Place;
use q_base::NoMemory;
use std::alloc::Global;
use std::marker::Model;
use text::{Found, Reading, exceeds, find_text, read};
pub use took::Took;

/// Cuts a script into commands while it is fed, piece by piece.
///
/// Strings, quoted identifiers and comments are those of PostgreSQL's manual, "Lexical Structure", with
/// standard strings; a command ends at a `;` as in psql. That a command which begins with a `\` is a line
/// of its own, and the limits, 2^20 bytes of a command and 2^30 of a script, are this project's own.
///
/// Each byte is scanned once, however it is fed. What is kept are the bytes that no take passed.
#[derive(Debug, Drop)]
pub struct Splitter {
    alloc: Global,
    /// How many bytes were passed: texts and their cuts.
    taken: usize,
    buffer: Vec<u8>,
    /// Where the bytes begin that weren't passed.
    begin: usize,
    /// How many of these were scanned, without a cut.
    scanned: usize,
    /// Where they lead to.
    place: Place,
    over: bool,
}

impl Model for Splitter {
    ghost use Rattle.sql_tokens.specs.Splitting.{Input};

    ghost Value = { Input };

    ghost use Rattle.std.specs.Prelude.{drop};
    ghost use Rattle.sql_tokens.specs.FirstText.{IsStanding};

    ghost view = { λ s. record { taken = s.taken; fed = drop s.begin s.buffer.items; over = s.over } };

    ghost invariant = { λ s. IsStanding s.taken s.buffer.items s.begin s.scanned s.place };
}

impl Splitter {
    /// Nothing was fed. It takes no memory.
    pub fn new(alloc: Global) -> Splitter
        ensures { result ≡ record { taken = 0; fed = []; over = false } }
    {
        Splitter {
            alloc,
            taken: 0,
            buffer: Vec::new(alloc),
            begin: 0,
            scanned: 0,
            place: Place::START,
            over: false,
        }
    }

    /// Takes the next bytes of the script, or leaves all as it was where memory is refused.
    pub fn feed(&mut self, piece: &[u8]) -> Result<(), NoMemory>
        requires { self.old.over ≡ false }
        ensures ok { OnOk result (self.new ≡ record self.old { fed = self.old.fed ++ piece.now }) }
        ensures err { OnErr result (self.new ≡ self.old) }
    {
        self.buffer.extend_from_slice(piece)?;
        Ok(())
    }

    /// Says that nothing more will be fed. It takes no memory.
    pub fn end(&mut self)
        ensures { self.new ≡ record self.old { over = true } }
    {
        self.over = true;
    }

    /// The next command, or why there is none now. After `NotText` or `TooLong` each take gives the same.
    pub fn take(&mut self) -> Result<Took, NoMemory>
        ensures ok { IfOk result (λ took. Takes took self.old self.new) }
        ensures err { OnErr result (SameTake self.old self.new) }
        // Memory is taken for a command alone.
        ensures memory { OnErr result (IsCommand (taken_from (scan_of self.old))) }
        ensures bounds { IfOk result (λ took. Bounds took self.old self.new) }
        ensures total { self.new.taken + length self.new.fed ≡ self.old.taken + length self.old.fed }
    {
        loop {
            if let Some(took) = self.pass_text()? {
                return Ok(took);
            }
        }
    }

    /// Passes the first text, if it is no command and has a cut after it; else what a take gives.
    fn pass_text(&mut self) -> Result<Option<Took>, NoMemory>
        ensures some { IfOk result (λ o. IfSome o (λ took. Takes took self.old self.new)) }
        ensures none { IfOk result (λ o. IfNone o (SameTake self.old self.new)) }
        ensures less { IfOk result (λ o. IfNone o (length self.new.fed < length self.old.fed)) }
        ensures err { OnErr result (self.new ≡ self.old) }
        ensures memory { OnErr result (IsCommand (taken_from (scan_of self.old))) }
        ensures bounds { IfOk result (λ o. IfSome o (λ took. Bounds took self.old self.new)) }
        ensures total { self.new.taken + length self.new.fed ≡ self.old.taken + length self.old.fed }
        ensures grows { self.old.taken ≤ self.new.taken }
    {
        let found = self.first_text();
        if exceeds(self.taken, &found) {
            return Ok(Some(Took::TooLong));
        }
        if !found.is_whole(self.over) {
            self.compact();
            return Ok(Some(Took::NotYet));
        }
        let text = &self.fed()[..found.length];
        match read(self.alloc, text, found.place.ends_blank())? {
            Reading::NotText => Ok(Some(Took::NotText)),
            Reading::Blank if found.cut => {
                self.pass(found.size());
                Ok(None)
            }
            Reading::Blank => {
                self.pass(found.size());
                Ok(Some(Took::Over))
            }
            Reading::Command(command) => {
                self.pass(found.size());
                Ok(Some(Took::Command(command)))
            }
        }
    }

    /// The first text, of which only the bytes are scanned that weren't before.
    fn first_text(&mut self) -> Found
        ensures same { self.new ≡ self.old }
        ensures first { IsFirst self.old.fed result.length (content_at result.place) result.cut }
        ensures blank { result.length ≡ 0 → is_blanks (content_at result.place) ≡ true }
    {
        let found = find_text(&self.buffer[self.begin..], self.scanned, self.place);
        self.scanned = found.length;
        self.place = found.place;
        found
    }

    /// The bytes that weren't passed.
    fn fed(&self) -> &[u8]
        ensures { result.now ≡ self.now.fed }
    {
        &self.buffer[self.begin..]
    }

    fn pass(&mut self, count: usize)
        requires fed { count ≤ length self.old.fed }
        requires limit { self.old.taken + count ≤ 2 ^ 30 }
        ensures { self.new ≡ without_front count self.old }
    {
        self.taken += count;
        self.begin += count;
        self.scanned = 0;
        self.place = Place::START;
    }

    /// Lets the bytes go that were passed. Those that stay are of a text that isn't whole, so no byte is
    /// moved twice.
    fn compact(&mut self)
        ensures { self.new ≡ self.old }
    {
        if self.begin > 0 {
            self.buffer.drain(..self.begin);
            self.begin = 0;
        }
    }
}
