//! The choice between a generic and a custom plan for one use of a prepared statement.
#![tactic(auto)]

ghost use Rattle.std.specs.Prelude.{◌≡◌, ◌<◌, ◌^◌};
ghost use Rattle.plan_choice.specs.Choice.{choice, is_generic_cheaper, no_uses, with_custom, with_generic};

use q_base::Mode;

/// How many uses with custom plans are made before the costs decide (PostgreSQL's `choose_custom_plan`
/// in plancache.c).
const CUSTOM_USES_FIRST: u64 = 5;

/// The charge for planning, for each table or view of the query and once more: 1000 times
/// cpu_operator_cost, which is one unit of cost (PostgreSQL's `cached_plan_cost` in plancache.c).
const PLANNING_CHARGE: u128 = 1000;

/// Which kind of plan a use takes.
#[derive(Clone, Copy, Debug, PartialEq, Eq)]
pub enum Choice {
    /// The plan that is kept for all values of the parameters.
    Generic,
    /// A plan made for this use, with the values as constants.
    Custom,
}

/// The uses of a prepared statement so far. A new analysis doesn't reset it.
#[derive(Clone, Copy, Debug, PartialEq, Eq)]
pub struct Tally {
    /// Uses that took a custom plan.
    pub custom_count: u64,
    /// The costs of those plans together, with what their planning was charged: 1000 for each table or
    /// view of the query and once more. The unit of all costs is PostgreSQL's cpu_operator_cost.
    pub custom_sum: u128,
    /// Uses that took the generic plan.
    pub generic_count: u64,
    /// The cost of the generic plan made last, in the same unit, without a charge for planning.
    pub generic_cost: Option<u64>,
}

impl Tally {
    /// No use yet, and no generic plan.
    pub fn new() -> Tally
        ensures { result ≡ no_uses }
    {
        Tally {
            custom_count: 0,
            custom_sum: 0,
            generic_count: 0,
            generic_cost: None,
        }
    }

    /// Counts a use that took a custom plan of this cost, in units of PostgreSQL's cpu_operator_cost, for a
    /// query of this width: the number of its tables and views, once views are pulled up. Only where fewer
    /// than 2^62 such uses were counted, with a sum below 2^126.
    pub fn use_custom(&mut self, cost: u64, width: u32)
        requires few { self.old.custom_count < 2 ^ 62 }
        requires small { self.old.custom_sum < 2 ^ 126 }
        ensures { self.new ≡ with_custom self.old cost width }
    {
        self.custom_count += 1;
        self.custom_sum += cost as u128 + PLANNING_CHARGE * (width as u128 + 1);
    }

    /// Counts a use that took the generic plan. Only where fewer than 2^62 such uses were counted.
    pub fn use_generic(&mut self)
        requires { self.old.generic_count < 2 ^ 62 }
        ensures { self.new ≡ with_generic self.old }
    {
        self.generic_count += 1;
    }

    /// Whether the generic plan's cost isn't known yet or lies below the average custom cost.
    fn is_generic_cheaper(&self) -> bool
        ensures { result ≡ is_generic_cheaper self.now }
    {
        match self.generic_cost {
            None => true,
            Some(cost) => (cost as u128) * (self.custom_count as u128) < self.custom_sum,
        }
    }
}

/// The kind of plan that the next use takes under `mode` (PostgreSQL's `choose_custom_plan` in
/// plancache.c). A statement without parameters always takes its generic plan.
pub fn choose(mode: Mode, has_params: bool, tally: &Tally) -> Choice
    ensures { result ≡ choice mode has_params tally.now }
{
    if !has_params {
        return Choice::Generic;
    }
    match mode {
        Mode::Generic => Choice::Generic,
        Mode::Custom => Choice::Custom,
        Mode::Auto => {
            if tally.custom_count < CUSTOM_USES_FIRST || !tally.is_generic_cheaper() {
                Choice::Custom
            } else {
                Choice::Generic
            }
        }
    }
}
