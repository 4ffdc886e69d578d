//! SET, RESET and SHOW.

ghost use Rattle.session_core.specs.State.{Does};
ghost use Rattle.session_core.specs.Settings as spec;

use super::Machine;
use crate::printed::{one_text, warned_naming_tag};
use q_base::{Code, SetValue, Stop};
use result_text::{Tag, tag_text};
use savepoints::{Block, SetMark};
use sql_tree::SetTree;

impl Machine {
    /// SET. 42704 for an unknown name, 22023 for a value. SET LOCAL outside a block warns, 25P01, and sets nothing.
    pub(crate) fn set(&mut self, tree: &SetTree, out: &mut Vec<u8>) -> Result<(), Stop>
        ensures { Does (spec.Sets self.old tree.now) out.old.items out.new.items self.new result }
    {
        if tree.local {
            match self.block.status() {
                Block::Idle => self.set_nothing(tree, out),
                Block::Active | Block::Failed => self.set_value(tree, out),
            }
        } else {
            self.set_value(tree, out)
        }
    }

    fn set_value(&mut self, tree: &SetTree, out: &mut Vec<u8>) -> Result<(), Stop>
        ensures { Does (spec.SetsValue self.old tree.now) out.old.items out.new.items self.new result }
    {
        let name = tree.name.as_str();
        match self.settings.set(name, &tree.value, tree.local) {
            Ok(()) => Ok(tag_text(self.alloc, Tag::Set, 0, out)?),
            Err(stop) => Err(stop),
        }
    }

    fn reset_to(&mut self, name: &str, value: &SetValue, out: &mut Vec<u8>) -> Result<(), Stop>
        ensures { Does (spec.ResetsTo self.old name.now value.now) out.old.items out.new.items self.new result }
    {
        match self.settings.set(name, value, false) {
            Ok(()) => Ok(tag_text(self.alloc, Tag::Reset, 0, out)?),
            Err(stop) => Err(stop),
        }
    }

    /// Sets a value and takes it back.
    fn set_nothing(&mut self, tree: &SetTree, out: &mut Vec<u8>) -> Result<(), Stop>
        ensures { Does (spec.SetsNothing self.old tree.now) out.old.items out.new.items self.new result }
    {
        let mark = self.settings.mark();
        let name = tree.name.as_str();
        match self.settings.set(name, &tree.value, tree.local) {
            Ok(()) => self.warn_unset(mark, out),
            Err(stop) => Err(stop),
        }
    }

    /// Takes back what was set since the mark, and warns.
    fn warn_unset(&mut self, mark: SetMark, out: &mut Vec<u8>) -> Result<(), Stop>
        ensures { Does (spec.Unsets self.old mark) out.old.items out.new.items self.new result }
    {
        if self.settings.stands(mark) {
            self.settings.rollback_to(mark);
            let code = Code::OnlyInBlock;
            Ok(warned_naming_tag(self.alloc, code, "SET LOCAL", Tag::Set, out)?)
        } else {
            Err(Stop::NoMemory)
        }
    }

    /// RESET. 42704 for an unknown name.
    pub(crate) fn reset(&mut self, name: &str, out: &mut Vec<u8>) -> Result<(), Stop>
        ensures { Does (spec.Resets self.old name.now) out.old.items out.new.items self.new result }
    {
        let default = SetValue::Default;
        self.reset_to(name, &default, out)
    }

    /// SHOW. 42704 for an unknown name.
    pub(crate) fn show(&mut self, name: &str, out: &mut Vec<u8>) -> Result<(), Stop>
        ensures { Does (spec.Shows self.old name.now) out.old.items out.new.items self.new result }
    {
        let mut value = Vec::new(self.alloc);
        self.show_with(name, &mut value, out)
    }

    fn show_with(&mut self, name: &str, value: &mut Vec<u8>, out: &mut Vec<u8>) -> Result<(), Stop>
        ensures { Does (spec.ShowsAfter self.old value.old.items name.now) out.old.items out.new.items self.new result }
    {
        match self.settings.text(name, value) {
            Ok(()) => Ok(one_text(self.alloc, name, value.as_slice(), out)?),
            Err(stop) => Err(stop),
        }
    }
}
