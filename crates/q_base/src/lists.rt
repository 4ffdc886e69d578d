ghost use Rattle.std.specs.Prelude.{◌≡◌, [], ◌∷◌, ◌++◌, OnOk, OnErr};

use crate::{ColId, NoMemory, SchemaId, SlotId, Str};
use std::alloc::Global;
use std::marker::Model;

/// A list over one `Vec`, which contracts see as the list of its elements. The list types of the
/// crates above are aliases of it.
#[derive(Debug, Drop)]
pub struct ListOf<T> {
    items: Vec<T>,
}

impl<T> Model for ListOf<T> {
    ghost use Rattle.std.specs.Prelude.{List};
    ghost use Rattle.std.specs.Coded.{coded_list};

    ghost Value = { List T };

    ghost coded = { coded_list T.code };

    ghost view = { λ list. list.items.items };
}

impl<T> ListOf<T> {
    /// The empty list, which takes no memory.
    pub fn new(alloc: Global) -> ListOf<T>
        ensures { result ≡ [] }
    {
        ListOf {
            items: Vec::new(alloc),
        }
    }

    /// The elements of a `Vec`, without a copy.
    pub fn from_vec(items: Vec<T>) -> ListOf<T>
        ensures { result ≡ items.items }
    {
        ListOf { items }
    }

    /// The elements, in order.
    pub fn as_slice(&self) -> &[T]
        ensures { result.now ≡ self.now }
    {
        self.items.as_slice()
    }

    /// The elements as a `Vec`, without a copy.
    pub fn into_vec(self) -> Vec<T>
        ensures { result.items ≡ self }
    {
        let ListOf { items } = self;
        items
    }
}

impl<T: Drop> ListOf<T> {
    /// Appends `item`, or leaves the list as it was where memory is refused.
    pub fn push(&mut self, item: T) -> Result<(), NoMemory>
        ensures ok { OnOk result (self.new ≡ self.old ++ item ∷ []) }
        ensures err { OnErr result (self.new ≡ self.old) }
    {
        self.items.push(item)?;
        Ok(())
    }
}

/// The arguments of an error, in the order in which its text names them.
pub type Args = ListOf<Str>;

/// Schemas in order, such as those of a search path.
pub type SchemaList = ListOf<SchemaId>;

/// Columns of a table.
pub type ColList = ListOf<ColId>;

/// Places of rows.
pub type SlotList = ListOf<SlotId>;
