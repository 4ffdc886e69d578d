use crate::{ListOf, Str};

/// How plans of prepared statements are chosen (PostgreSQL's manual, plan_cache_mode).
#[derive(Clone, Copy, Debug, PartialEq, Eq)]
pub enum Mode {
    Auto,
    Generic,
    Custom,
}

/// Which plan nodes the planner may take without a penalty: enable_seqscan, enable_indexscan,
/// enable_hashjoin, enable_nestloop and enable_sort (PostgreSQL's manual, "Planner Method Configuration").
#[derive(Clone, Copy, Debug, PartialEq, Eq)]
pub struct Switches {
    pub seqscan: bool,
    pub indexscan: bool,
    pub hashjoin: bool,
    pub nestloop: bool,
    pub sort: bool,
}

/// One value written after SET: its text, and whether it was written as a number. A number's text is
/// its digits as written, with a minus directly before them where it has one.
#[derive(Debug, Drop)]
pub struct Setting {
    pub text: Str,
    pub number: bool,
}

/// The values written after SET, in order.
pub type SettingList = ListOf<Setting>;

/// What SET gives a setting: its default, or a list of values.
#[derive(Debug, Drop)]
pub enum SetValue {
    Default,
    List(SettingList),
}
