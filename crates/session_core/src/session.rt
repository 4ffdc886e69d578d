ghost use Rattle.std.specs.Prelude.{◌≡◌, ◌++◌, ◌+◌, ◌^◌, ◌<◌, ◌≤◌, ℕ, List, IfOk, OnOk, length};
ghost use Rattle.session_core.specs.State.{empty_state};
ghost use Rattle.session_core.specs.Machine.{Step};

use crate::machine::Machine;
use q_base::{Mode, NoMemory, Stop, Work};
use result_text::error_text;
use std::alloc::Global;
use std::marker::Model;
use std::sync::ledger::Ledger;

/// How a command ended; a warning is `Ok`.
#[derive(Clone, Copy, Debug, PartialEq, Eq)]
pub enum Done {
    Ok,
    Refused,
}

/// One session, which contracts see as the state of the session machine and the number of commands
/// that it ran.
#[derive(Drop)]
pub struct Session {
    machine: Machine,
    ran: u64,
}

impl Model for Session {
    ghost use Rattle.session_core.specs.Seen.{Seen};
    ghost use Rattle.std.specs.Coded.{codes};
    ghost use Rattle.query_tree.specs.contracts.query.Item as item;
    ghost use Rattle.query_tree.specs.contracts.target.Target as target;

    ghost Value = { Seen };

    ghost coded = { Prim.hlevel (codes, item.the_row.coded, target.the_row.coded) };

    ghost view = { λ s. record { state = s.machine; ran = s.ran } };
}

impl Session {
    /// A session without statements, whose default of plan_cache_mode is `mode`.
    pub fn new(alloc: Global, mode: Mode) -> Result<Session, NoMemory>
        ensures { IfOk result (λ session. session ≡ record { state = empty_state mode; ran = 0 }) }
    {
        Ok(Session {
            machine: Machine::new(alloc, mode)?,
            ran: 0,
        })
    }

    /// Runs one command: appends its output to `out`, and says whether it was refused.
    ///
    /// `command` is its text without the semicolon, of at most 2^20 bytes, and fewer than 2^30 commands ran
    /// before; both limits are this project's own. After `NoMemory` the session is only dropped.
    pub fn step<L: Ledger>(
        &mut self,
        command: &str,
        out: &mut Vec<u8>,
        work: &mut Work<L>,
    ) -> Result<Done, NoMemory>
        requires size { length command.now ≤ 2 ^ 20 }
        requires few { self.old.ran < 2 ^ 30 }
        ensures step { IfOk result (λ end. (output : List ℕ) × (out.new.items ≡ out.old.items ++ output) × Step self.old.state command.now end output self.new.state) }
        ensures ran { OnOk result (self.new.ran ≡ self.old.ran + 1) }
    {
        self.ran += 1;
        match self.machine.step(command, out, work) {
            Ok(()) => Ok(Done::Ok),
            Err(Stop::Sql(error)) => {
                error_text(&error, out)?;
                Ok(Done::Refused)
            }
            Err(Stop::NoMemory) => Err(NoMemory),
        }
    }
}
