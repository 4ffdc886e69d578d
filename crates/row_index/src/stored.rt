ghost use Rattle.std.specs.Prelude.{◌≡◌};
ghost use Rattle.row_index.specs.Order.{entry_cmp, entry_of};
ghost use Rattle.row_index.specs.Leads.{key_lead, lead_of_last};

use crate::lead::lead_of;
use crate::order::compare_entry;
use crate::{IndexPlace, Key};
use q_base::SlotId;
use q_value::laws;
use std::cmp::Ordering;
use std::marker::Model;

/// An entry beside the lead of its key, so that a comparison seldom has to fetch the key's values.
#[derive(Drop)]
pub(crate) struct Stored {
    lead: i64,
    entry: IndexPlace,
}

impl Model for Stored {
    ghost use Rattle.std.specs.Prelude.{◌≡◌};
    ghost use Rattle.row_index.specs.declared.entries.IndexPlace.{IndexPlace};
    ghost use Rattle.row_index.specs.Leads.{key_lead};

    ghost Value = { IndexPlace };

    ghost view = { λ stored. stored.entry };

    ghost invariant = { λ stored. stored.lead ≡ key_lead stored.entry.key };
}

impl Stored {
    pub(crate) fn new(entry: IndexPlace) -> Stored
        ensures { result ≡ entry }
    {
        Stored {
            lead: lead_of(entry.key.as_slice()),
            entry,
        }
    }

    pub(crate) fn lead(&self) -> i64
        ensures { result ≡ key_lead self.now.key }
    {
        self.lead
    }

    pub(crate) fn entry(&self) -> &IndexPlace
        ensures { result.now ≡ self.now }
    {
        &self.entry
    }

    /// What finds the entry.
    pub(crate) fn sought(&self) -> Sought<'_>
        ensures { result ≡ self.now }
    {
        Sought {
            lead: self.lead,
            key: &self.entry.key,
            slot: self.entry.slot,
        }
    }
}

/// The entry of a key and a slot, as it is compared with those that are stored.
#[derive(Drop)]
pub(crate) struct Sought<'a> {
    lead: i64,
    key: &'a Key,
    slot: SlotId,
}

impl<'a> Model for Sought<'a> {
    ghost use Rattle.std.specs.Prelude.{◌≡◌};
    ghost use Rattle.row_index.specs.declared.entries.IndexPlace.{IndexPlace};
    ghost use Rattle.row_index.specs.Order.{entry_of};
    ghost use Rattle.row_index.specs.Leads.{key_lead};

    ghost Value = { IndexPlace };

    ghost view = { λ sought. entry_of sought.key.now sought.slot };

    ghost invariant = { λ sought. sought.lead ≡ key_lead sought.key.now };
}

impl<'a> Sought<'a> {
    pub(crate) fn new(key: &'a Key, slot: SlotId) -> Sought<'a>
        ensures { result ≡ entry_of key.now slot }
    {
        Sought {
            lead: lead_of(key.as_slice()),
            key,
            slot,
        }
    }

    /// The order of an entry, whose key has this lead, and the one that is sought.
    #[inline(always)]
    pub(crate) fn order_of(&self, lead: i64, entry: &IndexPlace) -> Ordering
        requires { lead ≡ key_lead entry.now.key }
        ensures { result ≡ entry_cmp entry.now self.now }
    {
        laws::orders();
        let own = self.lead;
        match lead.cmp(&own) {
            Ordering::Equal => compare_entry(entry, self.key, self.slot),
            order => order,
        }
    }
}

/// The lead of the last entry, or of the empty key where there is none.
pub(crate) fn last_lead_of(entries: &[Stored]) -> i64
    ensures { result ≡ lead_of_last entries.now }
{
    match entries.last() {
        Some(last) => last.lead(),
        None => i64::MIN,
    }
}
