//! What every layer speaks of: texts, ids, lists, settings, errors, ordered tables and counters.
#![tactic(auto)]

mod code;
mod errors;
mod id_list;
mod ids;
mod lists;
mod settings;
mod table;
mod text;
mod touched;
mod work;

pub use code::Code;
pub use errors::{NoMemory, SqlError, Stop, refusal, refusal_naming, refusal_naming_two};
pub use id_list::IdList;
pub use ids::{ColId, ObjId, SchemaId, SlotId, Stamp};
pub use lists::{Args, ColList, ListOf, SchemaList, SlotList};
pub use settings::{Mode, SetValue, Setting, SettingList, Switches};
pub use table::Table;
pub use text::Str;
pub use touched::Touched;
pub use work::Work;
