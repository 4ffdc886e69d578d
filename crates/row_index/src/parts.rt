ghost use Rattle.std.specs.Prelude.{◌≡◌, ◌<◌, ◌≤◌, true, false, length, OnOk, OnErr};
ghost use Rattle.std.specs.List.{list_all};
ghost use Rattle.std.specs.List.Sorted.{IsPartitionPoint};
ghost use Rattle.row_index.specs.Cuts.{is_before};
ghost use Rattle.row_index.specs.Entries.{AreFilled, IsAscending, joined, joined_with, with_entry, without_entry};

use crate::IndexPlace;
use crate::cut::Cut;
use crate::part::Part;
use crate::stored::{Sought, Stored};
use q_base::NoMemory;
use q_value::laws;
use std::alloc::Global;
use std::marker::Model;

/// Of more parts two are made, each with half of them.
const MOST: usize = 127;

/// Parts one after another, none of them empty, as a part of the level above: blocks make a group, and
/// groups an index.
#[derive(Drop)]
pub(crate) struct Parts<P: Part> {
    parts: Vec<P>,
}

impl<P: Part> Model for Parts<P> {
    ghost use Rattle.std.specs.Prelude.{List};
    ghost use Rattle.row_index.specs.declared.entries.IndexPlace.{IndexPlace};
    ghost use Rattle.row_index.specs.Entries.{AreFilled, IsAscending, joined};

    ghost Value = { List IndexPlace };

    ghost view = { λ all. joined P.entries all.parts.items };

    ghost invariant = { λ all. IsAscending (joined P.entries all.parts.items) × AreFilled P.entries all.parts.items };
}

impl<P: Part> Part for Parts<P> {
    ghost entries = { λ all. all };

    fn empty(alloc: Global) -> Parts<P> {
        Parts {
            parts: Vec::new(alloc),
        }
    }

    fn is_empty(&self) -> bool {
        self.parts.is_empty()
    }

    fn is_long(&self) -> bool {
        self.parts.len() > MOST
    }

    fn lies_before(&self, cut: &Cut<'_>) -> bool {
        laws::orders();
        match self.parts.last() {
            Some(last) => last.lies_before(cut),
            None => true,
        }
    }

    fn first_from(&self, cut: &Cut<'_>) -> Option<&IndexPlace> {
        let parts = self.parts.as_slice();
        match parts.get(part_from(parts, cut)) {
            Some(part) => part.first_from(cut),
            None => None,
        }
    }

    fn add(&mut self, alloc: Global, entry: Stored) -> Result<(), NoMemory> {
        laws::orders();
        let at = part_from(self.parts.as_slice(), &Cut::Entry(&entry.sought()));
        if at < self.parts.len() {
            add_to(alloc, &mut self.parts, at, entry)
        } else if at > 0 {
            add_to(alloc, &mut self.parts, at - 1, entry)
        } else {
            let mut part = P::empty(alloc);
            part.add(alloc, entry)?;
            self.parts.push(part)?;
            Ok(())
        }
    }

    fn remove(&mut self, sought: &Sought<'_>) {
        laws::orders();
        let at = part_from(self.parts.as_slice(), &Cut::Entry(sought));
        if at < self.parts.len() {
            remove_from(&mut self.parts, at, sought);
        }
    }

    fn halve(&mut self) -> Option<Parts<P>> {
        let half = self.parts.len() / 2;
        if half == 0 {
            return None;
        }
        let Ok(parts) = self.parts.split_off(half) else {
            return None;
        };
        Some(Parts { parts })
    }
}

/// How many parts lie before the cut.
fn part_from<P: Part>(parts: &[P], cut: &Cut<'_>) -> usize
    requires ascending { IsAscending (joined P.entries parts.now) }
    requires filled { AreFilled P.entries parts.now }
    ensures within { result ≤ length parts.now }
    ensures parted { IsPartitionPoint (λ part. list_all (is_before cut.now) (P.entries part) ≡ true) (λ part. list_all (is_before cut.now) (P.entries part) ≡ false) parts.now result }
{
    laws::orders();
    parts.partition_point(|part| part.lies_before(cut))
}

/// Puts an entry into a part, and halves the part where it gets long.
fn add_to<P: Part>(
    alloc: Global,
    parts: &mut Vec<P>,
    at: usize,
    entry: Stored,
) -> Result<(), NoMemory>
    requires { at < length parts.old.items }
    ensures ok { OnOk result (joined P.entries parts.new.items ≡ joined_with P.entries (with_entry entry) parts.old.items at) }
    ensures err { OnErr result (parts.new.items ≡ parts.old.items) }
    ensures filled { AreFilled P.entries parts.old.items → AreFilled P.entries parts.new.items }
{
    parts[at].add(alloc, entry)?;
    if parts[at].is_long() {
        divide(alloc, parts, at);
    }
    Ok(())
}

/// Puts the back half of a part behind it. Where memory is refused it stays whole, which costs time alone.
fn divide<P: Part>(alloc: Global, parts: &mut Vec<P>, at: usize)
    requires { at < length parts.old.items }
    ensures same { joined P.entries parts.new.items ≡ joined P.entries parts.old.items }
    ensures filled { AreFilled P.entries parts.old.items → AreFilled P.entries parts.new.items }
{
    if parts.insert(at + 1, P::empty(alloc)).is_err() {
        return;
    }
    match parts[at].halve() {
        Some(back) => parts[at + 1] = back,
        None => {
            let _ = parts.remove(at + 1);
        }
    }
}

/// Takes an entry out of a part, and the part out where it was the last.
fn remove_from<P: Part>(parts: &mut Vec<P>, at: usize, sought: &Sought<'_>)
    requires { at < length parts.old.items }
    ensures changed { joined P.entries parts.new.items ≡ joined_with P.entries (without_entry sought.now) parts.old.items at }
    ensures filled { AreFilled P.entries parts.old.items → AreFilled P.entries parts.new.items }
{
    parts[at].remove(sought);
    if parts[at].is_empty() {
        let _ = parts.remove(at);
    }
}
