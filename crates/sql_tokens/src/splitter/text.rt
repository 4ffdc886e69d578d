ghost use Rattle.std.specs.Prelude.{◌≡◌, ◌+◌, ◌-◌, ◌^◌, ◌<◌, ◌≤◌, Some, None, length, take, slice_index, true, false, IfOk, OnErr, ◌||◌, if◌then◌else◌};
ghost use Rattle.std.specs.Str.{is_utf8};
ghost use Rattle.sql_tokens.specs.Places.{after, depth_of, content_at, place_after};
ghost use Rattle.sql_tokens.specs.FirstText.{IsScanned, IsFirst, exceeds, reading_of};

use crate::splitter::place::Place;
use q_base::{NoMemory, Str};
use std::alloc::Global;

/// The first text of some bytes.
#[derive(Clone, Copy, Debug)]
pub struct Found {
    /// How many bytes it has.
    pub length: usize,
    /// Where it ends.
    pub place: Place,
    /// Whether a cut stands after it.
    pub cut: bool,
}

impl Found {
    /// How many bytes it has with its cut.
    pub fn size(&self) -> usize
        requires { self.now.length < 2 ^ 64 - 1 }
        ensures { result ≡ self.now.length + (if self.now.cut then 1 else 0) }
    {
        self.length + usize::from(self.cut)
    }

    /// Whether no more bytes can come to it.
    pub fn is_whole(&self, over: bool) -> bool
        ensures { result ≡ (self.now.cut || over) }
    {
        self.cut || over
    }
}

/// What a whole text is.
#[derive(Debug, Drop)]
pub enum Reading {
    NotText,
    /// Blanks and ended comments alone.
    Blank,
    Command(Str),
}

/// The first text of `fed`, whose first `scanned` bytes lead to `place`.
pub fn find_text(fed: &[u8], scanned: usize, place: Place) -> Found
    requires { IsScanned fed.now scanned place }
    ensures scanned { IsScanned fed.now result.length result.place }
    ensures first { IsFirst fed.now result.length (content_at result.place) result.cut }
{
    let rest = &fed[scanned..];
    let (count, place) = advance(rest, place);
    Found {
        length: scanned + count,
        place,
        cut: count < rest.len(),
    }
}

/// How many bytes stand before the first cut, and the place after them.
fn advance(bytes: &[u8], start: Place) -> (usize, Place)
    requires { depth_of start + length bytes.now < 2 ^ 64 }
    ensures within { result.0 ≤ length bytes.now }
    ensures place { place_after start (take result.0 bytes.now) ≡ Some result.1 }
    ensures depth { depth_of result.1 ≤ depth_of start + result.0 }
    ensures cut { result.0 < length bytes.now → after result.1 (slice_index bytes.now result.0) ≡ None }
{
    let mut place = start;
    for (count, byte) in bytes.iter().enumerate() {
        match place.after(*byte) {
            Some(next) => place = next,
            None => return (count, place),
        }
    }
    (bytes.len(), place)
}

/// Whether a text of `found`'s length is over the limits of a command and of a script.
pub fn exceeds(taken: usize, found: &Found) -> bool
    requires { taken ≤ 2 ^ 30 }
    ensures { result ≡ exceeds taken found.now.length found.now.cut }
{
    found.length > 1 << 20 || taken + found.size() > 1 << 30
}

/// What the whole text of these bytes is. It is copied only where it is a command.
pub fn read(alloc: Global, bytes: &[u8], blank: bool) -> Result<Reading, NoMemory>
    ensures ok { IfOk result (λ reading. reading ≡ reading_of bytes.now blank) }
    ensures err { OnErr result ((is_utf8 bytes.now ≡ true) × (blank ≡ false)) }
{
    match str::from_utf8(bytes) {
        Err(_) => Ok(Reading::NotText),
        Ok(_) if blank => Ok(Reading::Blank),
        Ok(text) => Ok(Reading::Command(Str::from_text(alloc, text)?)),
    }
}
