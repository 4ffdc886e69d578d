//! The session machine: what each command does to the session, and what it prints. A command is a method in the
//! module of its family; a refusal leaves everything as it was but for what the method says.

ghost use Rattle.std.specs.Prelude.{◌≡◌, Ok, IfOk, OnOk, false};
ghost use Rattle.savepoints.specs.Settings.{committed};
ghost use Rattle.session_core.specs.State.{Does, Unstated, empty_state, refused, settled};
ghost use Rattle.session_core.specs.Machine as spec;
ghost use Rattle.session_core.specs.Machine.{Stepped};

mod blocks;
mod catalog;
mod cursors;
mod prepared;
mod queries;
mod rows;
mod settings;
mod shown;
mod tables;

use crate::cursors::Cursors;
use crate::definitions::{Definitions, Given};
use cat_core::Catalog;
use cat_names::effective;
use cat_undo::CatMark;
use executor::{IndexList, Stores};
use q_base::{Code, Mode, NoMemory, ObjId, SchemaList, Stop, Work, refusal};
use row_versions::{HeapMark, Heaps, Pin, Snap};
use savepoints::{Block, SetMark, Settings, Transaction};
pub(crate) use shown::{cursor_row, statement_row};
use sql_reader::read_command;
use sql_tokens::{Token, tokens};
use sql_tree::Command;
use std::alloc::Global;
use std::marker::Model;
use std::sync::ledger::Ledger;

/// How many places for savepoints a session takes at once.
const FIRST_SAVEPOINTS: u32 = 8;

/// A state to which a block or a savepoint may return.
#[derive(Clone, Copy)]
pub struct Mark {
    catalog: CatMark,
    rows: HeapMark,
    settings: SetMark,
}

/// A snapshot and its pin.
#[derive(Drop)]
pub(crate) struct Held {
    pub(crate) snap: Snap,
    pub(crate) pin: Pin,
}

/// All that a session keeps from one command to the next.
#[derive(Drop)]
pub struct Machine {
    pub(crate) alloc: Global,
    pub(crate) defined: Definitions,
    pub(crate) stores: Stores,
    pub(crate) settings: Settings,
    pub(crate) block: Transaction<Mark>,
    pub(crate) cursors: Cursors,
}

impl Model for Machine {
    ghost use Rattle.session_core.specs.State.{State};
    ghost use Rattle.std.specs.Coded.{codes};
    ghost use Rattle.query_tree.specs.contracts.query.Item as item;
    ghost use Rattle.query_tree.specs.contracts.target.Target as target;

    ghost Value = { State };

    ghost coded = { Prim.hlevel (codes, item.the_row.coded, target.the_row.coded) };

    ghost view = { λ m. record { settings = m.settings; block = m.block.status; statements = m.defined } };
}

impl Machine {
    /// The schema public alone, and `mode` as the default of plan_cache_mode.
    pub fn new(alloc: Global, mode: Mode) -> Result<Machine, NoMemory>
        ensures { IfOk result (λ machine. machine ≡ empty_state mode) }
    {
        Ok(Machine {
            alloc,
            defined: Definitions::new(alloc)?,
            stores: Stores {
                heaps: Heaps::new(alloc)?,
                indexes: IndexList::new(alloc),
            },
            settings: Settings::new(alloc, mode)?,
            block: Transaction::new(alloc, FIRST_SAVEPOINTS)?,
            cursors: Cursors::new(alloc),
        })
    }

    /// Reads a command and does what it says. A refusal leaves all as it was but for what a method says, and makes an
    /// active block failed. Outside a block each command is a transaction of its own.
    pub fn step<L: Ledger>(
        &mut self,
        text: &str,
        out: &mut Vec<u8>,
        work: &mut Work<L>,
    ) -> Result<(), Stop>
        ensures { Stepped self.old text.now out.old.items out.new.items self.new result }
    {
        match self.perform(text, out, work) {
            Ok(()) => {
                self.settle()?;
                Ok(())
            }
            Err(Stop::Sql(error)) => {
                self.refuse()?;
                Err(Stop::Sql(error))
            }
            Err(Stop::NoMemory) => Err(Stop::NoMemory),
        }
    }

    /// The end of a command that was refused.
    fn refuse(&mut self) -> Result<(), NoMemory>
        ensures { OnOk result (self.new ≡ settled (refused self.old)) }
    {
        self.block.fail();
        self.settle()
    }

    /// The tokens of the text, the command that they spell, and then what it does.
    fn perform<L: Ledger>(
        &mut self,
        text: &str,
        out: &mut Vec<u8>,
        work: &mut Work<L>,
    ) -> Result<(), Stop>
        ensures { Does (spec.Performed self.old text.now) out.old.items out.new.items self.new result }
    {
        let tokens = tokens(self.alloc, text)?;
        self.perform_tokens(tokens.as_slice(), out, work)
    }

    /// The same of the tokens that a text spells.
    fn perform_tokens<L: Ledger>(
        &mut self,
        tokens: &[Token],
        out: &mut Vec<u8>,
        work: &mut Work<L>,
    ) -> Result<(), Stop>
        ensures { Does (spec.Reads self.old (Ok tokens.now)) out.old.items out.new.items self.new result }
    {
        let command = read_command(self.alloc, tokens)?;
        self.run(command, out, work)
    }

    /// A command of a failed block is refused, 25P02, unless it ends the block, returns to a savepoint or is a line.
    fn run<L: Ledger>(
        &mut self,
        command: Command,
        out: &mut Vec<u8>,
        work: &mut Work<L>,
    ) -> Result<(), Stop>
        ensures { Does (spec.Runs self.old.block self.old command) out.old.items out.new.items self.new result }
    {
        match self.block.status() {
            Block::Idle | Block::Active => self.run_any(command, out, work),
            Block::Failed => {
                let done = self.run_failed(&command, out, work);
                drop(command);
                done
            }
        }
    }

    fn run_failed<L: Ledger>(
        &mut self,
        command: &Command,
        out: &mut Vec<u8>,
        work: &mut Work<L>,
    ) -> Result<(), Stop>
        ensures { Does (spec.PassesTo (spec.passes command.now) self.old command.now) out.old.items out.new.items self.new result }
    {
        match command {
            Command::Commit => self.commit(out, work),
            Command::Rollback => self.rollback(out),
            Command::RollbackTo(name) => self.rollback_to(name.as_str(), out),
            Command::ShowPrepared => self.show_prepared(out),
            Command::ShowCursors => self.show_cursors(out),
            _ => Err(refusal(self.alloc, Code::FailedBlock)),
        }
    }

    /// PREPARE keeps the tree of its statement; the others only look at theirs.
    fn run_any<L: Ledger>(
        &mut self,
        command: Command,
        out: &mut Vec<u8>,
        work: &mut Work<L>,
    ) -> Result<(), Stop>
        ensures { Does (spec.Performs self.old command) out.old.items out.new.items self.new result }
    {
        match command {
            Command::Prepare(tree) => self.prepare(tree, out, work),
            other => {
                let done = self.dispatch(&other, out, work);
                drop(other);
                done
            }
        }
    }

    fn dispatch<L: Ledger>(
        &mut self,
        command: &Command,
        out: &mut Vec<u8>,
        work: &mut Work<L>,
    ) -> Result<(), Stop>
        requires { spec.is_prepare command.now ≡ false }
        ensures { Does (spec.Performs self.old command.now) out.old.items out.new.items self.new result }
    {
        match command {
            Command::Statement(tree) => self.statement(tree, out, work),
            Command::Execute(tree) => self.execute(tree, out, work),
            Command::Set(tree) => self.set(tree, out),
            Command::Reset(name) => self.reset(name.as_str(), out),
            Command::Show(name) => self.show(name.as_str(), out),
            Command::Prepare(_) => Err(Stop::NoMemory),
            _ => self.dispatch_prepared(command, out, work),
        }
    }

    fn dispatch_prepared<L: Ledger>(
        &mut self,
        command: &Command,
        out: &mut Vec<u8>,
        work: &mut Work<L>,
    ) -> Result<(), Stop>
        ensures { Does Unstated out.old.items out.new.items self.new result }
    {
        match command {
            Command::Explain(tree) => self.explain(tree, out, work),
            Command::ExplainExecute(tree) => self.explain_execute(tree, out, work),
            Command::Deallocate(name) => self.deallocate(name.as_str(), out),
            Command::DeallocateAll => self.deallocate_all(out),
            Command::DiscardPlans => self.discard_plans(out),
            Command::ShowPrepared => self.show_prepared(out),
            _ => self.dispatch_cursor(command, out, work),
        }
    }

    fn dispatch_cursor<L: Ledger>(
        &mut self,
        command: &Command,
        out: &mut Vec<u8>,
        work: &mut Work<L>,
    ) -> Result<(), Stop>
        ensures { Does Unstated out.old.items out.new.items self.new result }
    {
        match command {
            Command::Declare(tree) => self.declare(tree, out, work),
            Command::Fetch(tree) => self.fetch(tree, out, work),
            Command::Move(tree) => self.shift(tree, out, work),
            Command::Close(name) => self.close(name.as_str(), out),
            Command::CloseAll => self.close_all(out),
            Command::ShowCursors => self.show_cursors(out),
            Command::Commit => self.commit(out, work),
            _ => self.dispatch_block(command, out, work),
        }
    }

    fn dispatch_block<L: Ledger>(
        &mut self,
        command: &Command,
        out: &mut Vec<u8>,
        work: &mut Work<L>,
    ) -> Result<(), Stop>
        ensures { Does Unstated out.old.items out.new.items self.new result }
    {
        match command {
            Command::Begin => self.begin(false, out),
            Command::StartTransaction => self.begin(true, out),
            Command::Rollback => self.rollback(out),
            Command::RollbackTo(name) => self.rollback_to(name.as_str(), out),
            Command::Savepoint(name) => self.savepoint(name, out),
            Command::Release(name) => self.release(name.as_str(), out),
            _ => self.dispatch_catalog(command, out, work),
        }
    }

    fn dispatch_catalog<L: Ledger>(
        &mut self,
        command: &Command,
        out: &mut Vec<u8>,
        work: &mut Work<L>,
    ) -> Result<(), Stop>
        ensures { Does Unstated out.old.items out.new.items self.new result }
    {
        match command {
            Command::Schema(tree) => self.change_schema(tree, out),
            Command::CreateTable(tree) => self.create_table(tree, out),
            Command::CreateIndex(tree) => self.create_index(tree, out),
            Command::CreateView(tree) => self.create_view(tree, out, work),
            Command::Drop(tree) => self.drop_object(tree, out),
            Command::AlterTable(tree) => self.alter_table(tree, out),
            Command::Truncate(name) => self.truncate(name, out),
            Command::Analyze(name) => self.analyze(name, out),
            _ => Err(refusal(self.alloc, Code::NotBuilt)),
        }
    }

    /// The existing schemas of search_path.
    pub(crate) fn path(&self) -> Result<SchemaList, NoMemory> {
        effective(
            self.alloc,
            self.settings.path(),
            self.defined.catalog().schemas(),
        )
    }

    /// A snapshot of the rows of now.
    pub(crate) fn snapshot(&mut self) -> Result<Snap, NoMemory> {
        if self.stores.heaps.can_advance() {
            Ok(self.stores.heaps.advance())
        } else {
            Err(NoMemory)
        }
    }

    /// A snapshot of the rows of now that stays as it is until its pin is handed back.
    pub(crate) fn held(&mut self) -> Result<Held, NoMemory> {
        if !self.stores.heaps.can_advance() {
            return Err(NoMemory);
        }
        let snap = self.stores.heaps.advance();
        let pin = self.stores.heaps.pin(snap)?;
        Ok(Held { snap, pin })
    }

    /// Names the state of now.
    pub(crate) fn mark(&self) -> Mark {
        Mark {
            catalog: self.defined.mark(),
            rows: self.stores.heaps.mark(),
            settings: self.settings.mark(),
        }
    }

    /// Gives back the rows of a mark, where a command was refused after it had changed some.
    pub(crate) fn undo_rows(&mut self, mark: HeapMark) {
        if self.stores.heaps.can_return(mark) {
            self.stores.heaps.rollback_to(mark);
        }
    }

    /// Gives back the state of a mark. Cursors that are newer than it have ended before.
    pub(crate) fn return_to(&mut self, mark: Mark) {
        self.undo_rows(mark.rows);
        self.defined.rollback_to(mark.catalog);
        if self.settings.stands(mark.settings) {
            self.settings.rollback_to(mark.settings);
        }
    }

    /// Outside a block, the end of a command's transaction: keeps its changes for good, ends what SET LOCAL gave, and
    /// drops what no snapshot shows.
    fn settle(&mut self) -> Result<(), NoMemory>
        ensures { OnOk result (self.new ≡ settled self.old) }
    {
        match self.block.status() {
            Block::Idle => self.settle_idle(),
            Block::Active | Block::Failed => Ok(()),
        }
    }

    fn settle_idle(&mut self) -> Result<(), NoMemory>
        ensures { OnOk result (self.new ≡ record self.old { settings = committed self.old.settings }) }
    {
        self.settle_catalog();
        self.settle_settings();
        self.stores.heaps.forget();
        self.stores.prune(self.alloc)
    }

    fn settle_settings(&mut self)
        ensures { self.new ≡ record self.old { settings = committed self.old.settings } }
    {
        self.settings.commit();
    }

    fn settle_catalog(&mut self)
        ensures { self.new ≡ self.old }
    {
        if self.defined.has_changed() {
            drop_indexes(&mut self.stores, self.defined.catalog());
            self.defined.forget();
        }
    }
}

/// Drops the entries of the indexes that the catalog has no more.
fn drop_indexes(stores: &mut Stores, catalog: &Catalog) {
    for _turn in 0..stores.indexes.as_slice().len() {
        match first_unknown(&stores.indexes, catalog) {
            Some(id) => stores.indexes.remove(id),
            None => return,
        }
    }
}

fn first_unknown(indexes: &IndexList, catalog: &Catalog) -> Option<ObjId> {
    for row in indexes.as_slice() {
        if catalog.entry(row.id).is_none() {
            return Some(row.id);
        }
    }
    None
}

/// The settings that plans and prepared statements read.
pub(crate) fn given_of(settings: &Settings) -> Given<'_> {
    Given {
        path: settings.path(),
        mode: settings.mode(),
        switches: settings.switches(),
    }
}
