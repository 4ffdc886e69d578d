ghost use Rattle.std.specs.Prelude.{◌≡◌, ◌≤◌, ◌∷◌, [], ◌++◌, ◌||◌, reverse, OnOk, OnErr, slice_get, None};
ghost use Rattle.std.specs.Option.{option_copied, option_map};
ghost use Rattle.std.specs.List.{list_any};
ghost use Rattle.row_versions.specs.Versions.{is_open, is_shown, is_needed, kept};

use q_base::NoMemory;
use q_value::Row;
use std::alloc::Global;
use std::marker::Model;

/// What a change did to its slot, which tells how it is taken back.
#[derive(Clone, Copy)]
pub enum Deed {
    Inserted,
    Superseded,
    Ended,
}

/// A row, from the first snapshot that shows it until the first that does not any more.
#[derive(Drop)]
pub struct Version {
    pub row: Row,
    pub from: u64,
    pub until: Option<u64>,
}

impl Version {
    pub fn is_shown(&self, moment: u64) -> bool
        ensures { result ≡ is_shown self.now moment }
    {
        self.from <= moment && self.is_open(moment)
    }

    fn is_open(&self, moment: u64) -> bool
        ensures { result ≡ is_open self.now.until moment }
    {
        match self.until {
            None => true,
            Some(until) => moment < until,
        }
    }

    /// Whether the newest snapshot or one of `pins` shows it.
    pub fn is_needed(&self, newest: u64, pins: &[u64]) -> bool
        ensures { result ≡ is_needed (newest ∷ pins.now) self.now }
    {
        self.is_shown(newest) || self.is_shown_by_any(pins)
    }

    fn is_shown_by_any(&self, pins: &[u64]) -> bool
        ensures { result ≡ list_any (is_shown self.now) pins.now }
    {
        for pin in pins {
            if self.is_shown(*pin) {
                return true;
            }
        }
        false
    }
}

/// The versions of a row. The newest one stands apart, since most rows have no other.
#[derive(Drop)]
pub struct Slot {
    newest: Option<Version>,
    /// In the order in which they were made.
    older: Vec<Version>,
}

impl Model for Slot {
    ghost use Rattle.std.specs.Prelude.{List, ◌++◌, reverse, ◌≡◌, [], None};
    ghost use Rattle.std.specs.Option.{option_to_list};
    ghost use Rattle.row_versions.specs.declared.slot.Version.{Version};

    ghost Value = { List Version };

    ghost view = { λ slot. option_to_list slot.newest ++ reverse slot.older.items };

    ghost invariant = { λ slot. slot.newest ≡ None → slot.older.items ≡ [] };
}

impl Slot {
    ghost use Rattle.row_versions.specs.Versions.{shown_in, with_version, superseded, ended, taken_back, is_settled};

    /// A slot without versions, which takes no memory.
    pub fn empty(alloc: Global) -> Slot
        ensures { result ≡ [] }
    {
        Slot {
            newest: None,
            older: Vec::new(alloc),
        }
    }

    /// A slot with one version.
    pub fn new(alloc: Global, row: Row, moment: u64) -> Slot
        ensures { result ≡ with_version row moment [] }
    {
        Slot {
            newest: Some(Version {
                row,
                from: moment,
                until: None,
            }),
            older: Vec::new(alloc),
        }
    }

    /// The row that a snapshot shows.
    pub fn shown(&self, moment: u64) -> Option<&Row>
        ensures { option_copied result ≡ shown_in self.now moment }
    {
        if let Some(version) = &self.newest {
            if version.is_shown(moment) {
                return Some(&version.row);
            }
        }
        let count = self.older.len();
        for passed in 0..count {
            let version = &self.older[count - 1 - passed];
            if version.is_shown(moment) {
                return Some(&version.row);
            }
        }
        None
    }

    /// The row of a version, counted from 0 at the oldest.
    pub fn version(&self, at: usize) -> Option<&Row>
        ensures { option_copied result ≡ option_map (λ version. version.row) (slice_get (reverse self.now) at) }
    {
        if at < self.older.len() {
            return Some(&self.older[at].row);
        }
        match &self.newest {
            Some(version) if at == self.older.len() => Some(&version.row),
            _ => None,
        }
    }

    /// Whether there is no version but a live one.
    pub fn is_settled(&self) -> bool
        ensures { result ≡ is_settled self.now }
    {
        self.older.is_empty()
            && match &self.newest {
                None => true,
                Some(version) => version.until.is_none(),
            }
    }

    /// Ends the newest version.
    pub fn end(&mut self, moment: u64)
        ensures { self.new ≡ ended moment self.old }
    {
        if let Some(version) = &mut self.newest {
            version.until = Some(moment);
        }
    }

    /// Ends the newest version and puts a newer one after it.
    pub fn supersede(&mut self, row: Row, moment: u64) -> Result<(), NoMemory>
        ensures ok { OnOk result (self.new ≡ superseded row moment self.old) }
        ensures err { OnErr result (self.new ≡ self.old) }
    {
        self.older.reserve(1)?;
        if let Some(mut version) = self.newest.take() {
            version.until = Some(moment);
            self.older.push_reserved(version);
        }
        self.newest = Some(Version {
            row,
            from: moment,
            until: None,
        });
        Ok(())
    }

    /// Takes back the last change.
    pub fn take_back(&mut self, deed: Deed)
        ensures { self.new ≡ taken_back deed self.old }
    {
        match deed {
            Deed::Inserted => self.newest = self.older.pop(),
            Deed::Superseded => {
                self.newest = self.older.pop();
                self.reopen();
            }
            Deed::Ended => self.reopen(),
        }
    }

    fn reopen(&mut self)
        ensures { self.new ≡ taken_back Deed.Ended self.old }
    {
        if let Some(version) = &mut self.newest {
            version.until = None;
        }
    }

    /// Drops the versions that neither the newest snapshot nor one of `pins` shows.
    pub fn prune(&mut self, newest: u64, pins: &[u64])
        ensures { self.new ≡ kept (newest ∷ pins.now) self.old }
    {
        retain_needed(&mut self.older, newest, pins);
        let is_dead = match &self.newest {
            None => false,
            Some(version) => !version.is_needed(newest, pins),
        };
        if is_dead {
            self.newest = self.older.pop();
        }
    }
}

fn retain_needed(versions: &mut Vec<Version>, newest: u64, pins: &[u64])
    ensures { versions.new.items ≡ kept (newest ∷ pins.now) versions.old.items }
{
    versions.retain(|version| version.is_needed(newest, pins));
}
