//! Cursors: DECLARE, FETCH, MOVE and CLOSE.

ghost use Rattle.session_core.specs.State.{Does, Unstated};

use super::{Held, Machine};
use crate::cursors::{MOST_CURSORS, Opening};
use analyzer::Analysed;
use cat_deps::uses_of;
use executor::Run;
use q_base::{Code, Stop, Work, refusal, refusal_naming};
use q_value::Row;
use query_tree::Bound;
use result_text::{Tag, rows_text, tag_text};
use savepoints::Block;
use sql_tree::{CursorOptions, DeclareTree, FetchTree};
use std::alloc::Global;
use std::rc::Rc;
use std::sync::ledger::Ledger;
use view_rewrite::rewrite;

impl Machine {
    /// DECLARE. 42P11 for options that exclude each other, the refusals of the analysis, 54001 and 54000 of views,
    /// 25P01 outside a block without WITH HOLD, 42P03 for a name that is taken, 54000 at 4,096 cursors. Outside a
    /// block the rows are stored at once, and their fault refuses the command.
    pub(crate) fn declare<L: Ledger>(
        &mut self,
        tree: &DeclareTree,
        out: &mut Vec<u8>,
        work: &mut Work<L>,
    ) -> Result<(), Stop>
        ensures { Does Unstated out.old.items out.new.items self.new result }
    {
        check_options(self.alloc, tree.options)?;
        let found = self.analysed(&tree.query, work)?;
        let rewritten = rewrite(self.alloc, &found.bound, self.defined.catalog())?;
        self.check_declared(tree)?;
        self.open(tree, found, &rewritten, work)?;
        if self.block.status() == Block::Idle
            && let Err(stop) = self.cursors.hold_all(&mut self.stores, work)
        {
            self.cursors.end_transaction(&mut self.stores);
            return Err(stop);
        }
        Ok(tag_text(self.alloc, Tag::DeclareCursor, 0, out)?)
    }

    fn check_declared(&self, tree: &DeclareTree) -> Result<(), Stop> {
        if !tree.hold && self.block.status() == Block::Idle {
            return Err(refusal_naming(self.alloc, Code::OnlyInBlock, "DECLARE CURSOR"));
        }
        let name = tree.name.as_str();
        if self.cursors.contains(name) {
            return Err(refusal_naming(self.alloc, Code::DuplicateCursor, name));
        }
        if MOST_CURSORS <= self.cursors.len() {
            return Err(refusal(self.alloc, Code::LimitExceeded));
        }
        Ok(())
    }

    /// Opens a cursor over the rows of now, without a look at them.
    fn open<L: Ledger>(
        &mut self,
        tree: &DeclareTree,
        found: Analysed,
        rewritten: &Rc<Bound>,
        work: &mut Work<L>,
    ) -> Result<(), Stop> {
        let chosen = self.chosen(rewritten, work)?;
        let uses = uses_of(self.alloc, self.defined.catalog(), found.ids.as_slice())?;
        let Held { snap, pin } = self.held()?;
        let run = Run::start(self.alloc, chosen, Row::new(self.alloc), snap)?;
        let opening = Opening {
            name: tree.name.copy(self.alloc)?,
            scroll: !tree.options.no_scroll,
            hold: tree.hold,
            level: self.block.depth(),
            result: found.result,
            uses,
        };
        self.cursors.declare(self.alloc, opening, run, pin)
    }

    /// FETCH: 34000 for an unknown name, 55000 for a failed cursor and for what NO SCROLL refuses, or the fault of
    /// the rows, after each of which but 34000 the cursor is failed.
    pub(crate) fn fetch<L: Ledger>(
        &mut self,
        tree: &FetchTree,
        out: &mut Vec<u8>,
        work: &mut Work<L>,
    ) -> Result<(), Stop>
        ensures { Does Unstated out.old.items out.new.items self.new result }
    {
        let name = tree.cursor.as_str();
        let rows = self.cursors.fetch(name, tree.motion, &self.stores, work)?;
        match self.cursors.result(name) {
            Some(result) => Ok(rows_text(self.alloc, result, &rows, out)?),
            None => Ok(()),
        }
    }

    /// MOVE: as FETCH, and prints how many rows that gives.
    pub(crate) fn shift<L: Ledger>(
        &mut self,
        tree: &FetchTree,
        out: &mut Vec<u8>,
        work: &mut Work<L>,
    ) -> Result<(), Stop>
        ensures { Does Unstated out.old.items out.new.items self.new result }
    {
        let name = tree.cursor.as_str();
        let count = self.cursors.shift(name, tree.motion, &self.stores, work)?;
        Ok(tag_text(self.alloc, Tag::Move, count, out)?)
    }

    /// CLOSE: 34000 for an unknown name.
    pub(crate) fn close(&mut self, name: &str, out: &mut Vec<u8>) -> Result<(), Stop>
        ensures { Does Unstated out.old.items out.new.items self.new result }
    {
        if !self.cursors.close(name, &mut self.stores) {
            return Err(refusal_naming(self.alloc, Code::UnknownCursor, name));
        }
        Ok(tag_text(self.alloc, Tag::CloseCursor, 0, out)?)
    }

    /// CLOSE ALL.
    pub(crate) fn close_all(&mut self, out: &mut Vec<u8>) -> Result<(), Stop>
        ensures { Does Unstated out.old.items out.new.items self.new result }
    {
        self.cursors.close_all(&mut self.stores);
        Ok(tag_text(self.alloc, Tag::CloseCursorAll, 0, out)?)
    }
}

/// 42P11 for options that exclude each other.
fn check_options(alloc: Global, options: CursorOptions) -> Result<(), Stop> {
    if options.scroll && options.no_scroll {
        return Err(refusal(alloc, Code::ScrollConflict));
    }
    if options.insensitive && options.asensitive {
        return Err(refusal(alloc, Code::SensitivityConflict));
    }
    Ok(())
}
