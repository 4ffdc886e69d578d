ghost use Rattle.std.specs.Prelude.{◌≡◌, ◌++◌, ◌∷◌, [], OnOk};
ghost use Rattle.executor.specs.Checks as spec;
ghost use Rattle.executor.specs.Rest.{Gathers};

use crate::conds::judged;
use crate::found::Found;
use q_base::{Code, NoMemory};
use q_scalar::EvalStop;
use q_value::Value;
use query_tree::Cond;
use sqlite_items::Items;
use std::alloc::Global;
use std::marker::Model;

/// The candidates so far on which conditions that may fault are all true, and the fault to tell, if one faulted.
#[derive(Drop)]
pub(crate) struct Candidates {
    rows: Vec<Found>,
    fault: Option<Code>,
}

impl Model for Candidates {
    ghost use Rattle.executor.specs.Checks.{Tested};

    ghost Value = { Tested };

    ghost view = { λ c. record { rows = c.rows.items; fault = c.fault } };
}

impl Candidates {
    pub(crate) fn new(alloc: Global) -> Candidates
        ensures { result ≡ spec.untested }
    {
        Candidates {
            rows: Vec::new(alloc),
            fault: None,
        }
    }

    /// Tests one more candidate.
    pub(crate) fn add(
        &mut self,
        conds: &[Cond],
        found: Found,
        params: &[Value],
    ) -> Result<(), NoMemory>
        ensures { OnOk result (self.new ≡ spec.with_candidate conds.now params.now found self.old) }
    {
        match judged(conds, found.row.as_slice(), params) {
            Ok(true) => self.rows.push(found)?,
            Ok(false) => {}
            Err(code) => self.fault = Some(worse(self.fault, code)),
        }
        Ok(())
    }

    /// The rows, the last one first, or the fault.
    pub(crate) fn finish(self) -> Result<Items<Found>, EvalStop>
        ensures { Gathers (spec.settled self) result }
    {
        let Candidates { mut rows, fault } = self;
        match fault {
            Some(code) => Err(EvalStop::Fault(code)),
            None => {
                rows.reverse();
                Ok(Items::from_vec(rows))
            }
        }
    }
}

/// Of two faults of candidates the one to tell: 22003 of the narrowest type, and then 22012. Of two that are alike it
/// is the first.
fn worse(first: Option<Code>, second: Code) -> Code
    ensures { result ≡ spec.worse first second }
{
    match first {
        Some(first) if rank_of(first) <= rank_of(second) => first,
        _ => second,
    }
}

fn rank_of(code: Code) -> u8
    ensures { result ≡ spec.rank_of code }
{
    match code {
        Code::SmallintOutOfRange => 0,
        Code::IntegerOutOfRange => 1,
        Code::BigintOutOfRange => 2,
        _ => 3,
    }
}
