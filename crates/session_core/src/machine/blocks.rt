//! Transaction blocks and savepoints (PostgreSQL's manual, BEGIN, COMMIT, ROLLBACK, SAVEPOINT, RELEASE SAVEPOINT and
//! ROLLBACK TO SAVEPOINT).

ghost use Rattle.session_core.specs.State.{Does, Unstated};

use super::Machine;
use crate::printed::warned_tag;
use q_base::{Code, Stop, Str, Work, refusal_naming};
use result_text::{Tag, tag_text};
use savepoints::Block;
use std::sync::ledger::Ledger;

impl Machine {
    /// BEGIN and START TRANSACTION. In a block it warns, 25001.
    pub(crate) fn begin(&mut self, start: bool, out: &mut Vec<u8>) -> Result<(), Stop>
        ensures { Does Unstated out.old.items out.new.items self.new result }
    {
        let mark = self.mark();
        if self.block.begin(mark) {
            Ok(tag_text(self.alloc, begin_tag(start), 0, out)?)
        } else {
            let code = Code::AlreadyInTransaction;
            Ok(warned_tag(self.alloc, code, begin_tag(start), out)?)
        }
    }

    /// COMMIT and END. Outside a block it warns, 25P01; a failed block is rolled back. The rows of cursors WITH HOLD
    /// are stored; where one faults COMMIT is refused with that fault, and the block rolled back.
    pub(crate) fn commit<L: Ledger>(
        &mut self,
        out: &mut Vec<u8>,
        work: &mut Work<L>,
    ) -> Result<(), Stop>
        ensures { Does Unstated out.old.items out.new.items self.new result }
    {
        match self.block.status() {
            Block::Idle => {
                let code = Code::NoTransaction;
                Ok(warned_tag(self.alloc, code, Tag::Commit, out)?)
            }
            Block::Failed => {
                self.abandon();
                Ok(tag_text(self.alloc, Tag::Rollback, 0, out)?)
            }
            Block::Active => self.commit_active(out, work),
        }
    }

    fn commit_active<L: Ledger>(
        &mut self,
        out: &mut Vec<u8>,
        work: &mut Work<L>,
    ) -> Result<(), Stop>
        ensures { Does Unstated out.old.items out.new.items self.new result }
    {
        match self.cursors.hold_all(&mut self.stores, work) {
            Ok(()) => {
                let _ = self.block.finish();
                Ok(tag_text(self.alloc, Tag::Commit, 0, out)?)
            }
            Err(stop) => {
                self.abandon();
                Err(stop)
            }
        }
    }

    /// ROLLBACK and ABORT. Outside a block it warns, 25P01.
    pub(crate) fn rollback(&mut self, out: &mut Vec<u8>) -> Result<(), Stop>
        ensures { Does Unstated out.old.items out.new.items self.new result }
    {
        if self.block.status() == Block::Idle {
            let code = Code::NoTransaction;
            Ok(warned_tag(self.alloc, code, Tag::Rollback, out)?)
        } else {
            self.abandon();
            Ok(tag_text(self.alloc, Tag::Rollback, 0, out)?)
        }
    }

    /// Takes back the block, with its cursors.
    fn abandon(&mut self) {
        self.cursors.end_transaction(&mut self.stores);
        if let Some(mark) = self.block.finish() {
            self.return_to(mark);
        }
    }

    /// SAVEPOINT. 25P01 outside a block, 54000 at 1,024.
    pub(crate) fn savepoint(&mut self, name: &Str, out: &mut Vec<u8>) -> Result<(), Stop>
        ensures { Does Unstated out.old.items out.new.items self.new result }
    {
        let mark = self.mark();
        let name = name.copy(self.alloc)?;
        self.block.savepoint(name, mark)?;
        Ok(tag_text(self.alloc, Tag::Savepoint, 0, out)?)
    }

    /// RELEASE. 25P01 outside a block, 3B001 for an unknown name. Cursors of the level go to the one before.
    pub(crate) fn release(&mut self, name: &str, out: &mut Vec<u8>) -> Result<(), Stop>
        ensures { Does Unstated out.old.items out.new.items self.new result }
    {
        let level = self.block.release(name)?;
        self.cursors.release_level(level);
        Ok(tag_text(self.alloc, Tag::Release, 0, out)?)
    }

    /// ROLLBACK TO. 25P01 outside a block, 3B001 for an unknown name. Cursors opened behind the savepoint end.
    pub(crate) fn rollback_to(&mut self, name: &str, out: &mut Vec<u8>) -> Result<(), Stop>
        ensures { Does Unstated out.old.items out.new.items self.new result }
    {
        if self.block.status() == Block::Idle {
            let what = "ROLLBACK TO SAVEPOINT";
            return Err(refusal_naming(self.alloc, Code::OnlyInBlock, what));
        }
        let Some((level, mark)) = self.block.rollback_to(name) else {
            return Err(refusal_naming(self.alloc, Code::UnknownSavepoint, name));
        };
        self.cursors.end_level(level, &mut self.stores);
        self.return_to(mark);
        Ok(tag_text(self.alloc, Tag::Rollback, 0, out)?)
    }
}

fn begin_tag(start: bool) -> Tag {
    if start {
        Tag::StartTransaction
    } else {
        Tag::Begin
    }
}
