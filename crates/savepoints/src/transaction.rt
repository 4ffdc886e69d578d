ghost use Rattle.std.specs.Prelude.{◌≡◌, ◌-◌, ◌≤◌, [], None, is_some, not, length, take, IfOk, OnErr};
ghost use Rattle.q_value.specs.Answers.{Answers};
ghost use Rattle.savepoints.specs.Blocks as spec;
ghost use Rattle.savepoints.specs.Leads.{LeadsTo};
ghost use Rattle.savepoints.specs.declared.transaction.Block.TheVariants as block;

use q_base::{Code, NoMemory, Stop, Str, refusal, refusal_naming};
use std::alloc::Global;
use std::marker::Model;

/// The most savepoints that a block may have, which is this project's own limit.
const MOST_SAVEPOINTS: usize = 1_024;

/// Whether a transaction block is open, and whether a command of it was refused (PostgreSQL's manual,
/// BEGIN).
#[derive(Clone, Copy, Debug, PartialEq, Eq)]
pub enum Block {
    /// No block: each command is a transaction of its own.
    Idle,
    Active,
    /// Only the end of the block, or a return to a savepoint, is allowed.
    Failed,
}

/// A place in a block to which the block can return, and what its maker wants to find there.
#[derive(Drop)]
pub(crate) struct Savepoint<M: Copy> {
    pub(crate) name: Str,
    pub(crate) mark: M,
}

/// The block of a session and the stack of its savepoints, the newest last: the oldest has level 1, the
/// next one level 2, and so on (PostgreSQL's manual, SAVEPOINT, RELEASE SAVEPOINT and ROLLBACK TO
/// SAVEPOINT).
#[derive(Drop)]
pub struct Transaction<M: Copy> {
    alloc: Global,
    status: Block,
    begun: Option<M>,
    savepoints: Vec<Savepoint<M>>,
}

impl<M: Copy> Model for Transaction<M> {
    ghost use Rattle.savepoints.specs.Blocks.{Blocks, IsProper};

    ghost Value = { Blocks M };

    ghost view = { λ t. record { status = t.status; begun = t.begun; stack = t.savepoints.items } };

    ghost invariant = { λ t. IsProper (record { status = t.status; begun = t.begun; stack = t.savepoints.items }) };
}

impl<M: Copy> Transaction<M> {
    /// No block, with places for `room` savepoints.
    pub fn new(alloc: Global, room: u32) -> Result<Transaction<M>, NoMemory>
        ensures { IfOk result (λ t. t ≡ record { status = block.Idle; begun = None; stack = [] }) }
    {
        Ok(Transaction {
            alloc,
            status: Block::Idle,
            begun: None,
            savepoints: Vec::with_capacity(alloc, room as usize)?,
        })
    }

    /// Whether a block is open, and whether it failed.
    pub fn status(&self) -> Block
        ensures { result ≡ self.now.status }
    {
        self.status
    }

    /// The number of savepoints on the stack.
    pub fn depth(&self) -> u32
        ensures { result ≡ length self.now.stack }
    {
        self.savepoints.len() as u32
    }

    /// Opens a block and keeps `mark` for `finish`. False, and no change, exactly where one is open.
    pub fn begin(&mut self, mark: M) -> bool
        ensures answer { result ≡ not (spec.is_open self.old.status) }
        ensures begun { self.new ≡ spec.begun mark self.old }
    {
        if self.status != Block::Idle {
            return false;
        }
        self.status = Block::Active;
        self.begun = Some(mark);
        true
    }

    /// Notes that a command was refused: an active block is failed from then on, and nothing else changes.
    pub fn fail(&mut self)
        ensures { self.new ≡ record self.old { status = spec.failed self.old.status } }
    {
        if self.status == Block::Active {
            self.status = Block::Failed;
        }
    }

    /// Leaves the block with all its savepoints. Gives the mark with which it was opened, and `None`
    /// exactly where no block is open.
    pub fn finish(&mut self) -> Option<M>
        ensures answer { result ≡ self.old.begun }
        ensures outside { is_some result ≡ spec.is_open self.old.status }
        ensures ended { self.new ≡ record { status = block.Idle; begun = None; stack = [] } }
    {
        self.status = Block::Idle;
        self.savepoints.clear();
        self.begun.take()
    }

    /// Returns to the savepoint of that name, of several to the newest, and gives its level and its mark.
    /// It stays, those made after it go, and a failed block is active again. `None`, and no change,
    /// exactly where no savepoint has the name, as outside a block.
    pub fn rollback_to(&mut self, name: &str) -> Option<(u32, M)>
        ensures answer { result ≡ spec.newest name.now self.old.stack }
        ensures kept { self.new ≡ spec.returned (spec.newest name.now self.old.stack) self.old }
    {
        if self.status == Block::Idle {
            return None;
        }
        let (level, mark) = newest(&self.savepoints, name)?;
        self.savepoints.truncate(level as usize);
        self.status = Block::Active;
        Some((level, mark))
    }

    /// Puts a savepoint on the stack. Refused as 25P01 outside a block, and in one as 54000 exactly where
    /// 1,024 are there, a limit of this project's own.
    pub fn savepoint(&mut self, name: Str, mark: M) -> Result<(), Stop>
        ensures saved { LeadsTo (spec.saved name mark self.old) self.new result }
        ensures kept { OnErr result (self.new ≡ self.old) }
    {
        if self.status == Block::Idle {
            return Err(refusal_naming(self.alloc, Code::OnlyInBlock, "SAVEPOINT"));
        }
        if self.savepoints.len() >= MOST_SAVEPOINTS {
            return Err(refusal(self.alloc, Code::LimitExceeded));
        }
        self.savepoints.push(Savepoint { name, mark })?;
        Ok(())
    }

    /// Drops the newest savepoint of that name and those after it, and answers its level. Refused as
    /// 25P01 outside a block, and as 3B001 where no such savepoint is there.
    pub fn release(&mut self, name: &str) -> Result<u32, Stop>
        ensures answer { Answers (spec.release_level name.now self.old) result }
        ensures released { IfOk result (λ level. self.new ≡ record self.old { stack = take (level - 1) self.old.stack }) }
        ensures kept { OnErr result (self.new ≡ self.old) }
    {
        if self.status == Block::Idle {
            return Err(refusal_naming(self.alloc, Code::OnlyInBlock, "RELEASE SAVEPOINT"));
        }
        match newest(&self.savepoints, name) {
            Some((level, _)) => {
                self.savepoints.truncate((level as usize).saturating_sub(1));
                Ok(level)
            }
            None => Err(refusal_naming(self.alloc, Code::UnknownSavepoint, name)),
        }
    }
}

/// The level and the mark of the newest savepoint of that name.
#[tactic(auto, using(crate::proofs::Stacks::newest_passed, crate::proofs::Stacks::newest_found))]
fn newest<M: Copy>(savepoints: &[Savepoint<M>], name: &str) -> Option<(u32, M)>
    requires { length savepoints.now ≤ 1024 }
    ensures { result ≡ spec.newest name.now savepoints.now }
{
    for index in (0..savepoints.len()).rev() {
        let savepoint = &savepoints[index];
        if savepoint.name.as_str() == name {
            return Some((index as u32 + 1, savepoint.mark));
        }
    }
    None
}
