ghost use Rattle.std.specs.Prelude.{◌≡◌, ◌↔◌, ℕ, ◌≤◌, IsTrue, IfOk, IfErr, OnOk, OnErr, length};
ghost use Rattle.q_base.specs.Stops.{StopsBy};
ghost use Rattle.savepoints.specs.Leads.{LeadsTo};
ghost use Rattle.savepoints.specs.Shown.{shown_after};

use crate::given::{Name, default_path, named, value_given};
use crate::held::{Choices, Held, Replaced};
use crate::shown::{append, append_path, is_on, mode_word, switch_word};
use q_base::{Code, Mode, NoMemory, SetValue, Stop, Str, Switches, refusal_naming};
use std::alloc::Global;
use std::marker::Model;

/// A state of the settings to which a rollback may go back.
#[derive(Clone, Copy)]
pub struct SetMark {
    /// How many changes there were to take back.
    changes: usize,
}

impl Model for SetMark {
    ghost use Rattle.std.specs.Prelude.{ℕ};

    ghost Value = { ℕ };

    ghost view = { λ mark. mark.changes };

    ghost inverse = { λ n. record { changes = n } };
}

/// The settings of a session: search_path, plan_cache_mode, enable_seqscan, enable_indexscan,
/// enable_hashjoin, enable_nestloop and enable_sort. Each has a value of the session, and a current one,
/// which is another only where SET LOCAL gave it for the transaction (PostgreSQL's manual, SET).
#[derive(Drop)]
pub struct Settings {
    alloc: Global,
    default_mode: Mode,
    held: Held,
    /// What the changes replaced, in the order in which they were made.
    log: Vec<Replaced>,
}

impl Model for Settings {
    ghost use Rattle.std.specs.Prelude.{reverse};
    ghost use Rattle.savepoints.specs.Settings.{SettingsState, state_of};

    ghost Value = { SettingsState };

    ghost view = { λ s. state_of s.default_mode s.held (reverse s.log.items) };
}

impl Settings {
    ghost use Rattle.savepoints.specs.Settings as spec;

    /// The settings that a session begins with: search_path `public`, plan_cache_mode as given, all
    /// others on. PostgreSQL's defaults are these too (its manual, "Query Planning"), but for
    /// search_path, which is `"$user", public` there, and for a mode other than `auto`.
    pub fn new(alloc: Global, mode: Mode) -> Result<Settings, NoMemory>
        ensures { IfOk result (λ settings. settings ≡ spec.begun mode) }
    {
        Ok(Settings {
            alloc,
            default_mode: mode,
            held: Held::new(default_path(alloc)?, Choices::new(mode)),
            log: Vec::new(alloc),
        })
    }

    /// Gives a setting a value, which is the current one alone where `local` says so (SET LOCAL), and
    /// else the session's too (SET and RESET).
    ///
    /// search_path takes any list, each value of which names a schema; plan_cache_mode takes `auto`,
    /// `force_generic_plan` and `force_custom_plan` in any case; the others take the texts of booleans
    /// without blanks around, and numbers that are 0 or 1 (PostgreSQL's manual, "Parameter Names and
    /// Values"). Refused as 42704 where the name is unknown, and as 22023 where the setting isn't
    /// search_path and can't have the value, or is given several or an empty list. The text of 22023
    /// names the value, of several the second, and of none the empty text (this project's own).
    pub fn set(&mut self, name: &str, value: &SetValue, local: bool) -> Result<(), Stop>
        ensures set { LeadsTo (spec.set name.now value.now local self.old) self.new result }
        ensures kept { OnErr result (self.new ≡ self.old) }
        ensures marks { OnOk result (spec.KeepsMarks self.old self.new) }
    {
        let Some(setting) = named(name) else {
            return Err(refusal_naming(self.alloc, Code::UnknownSetting, name));
        };
        let given = value_given(self.alloc, name, setting, value, self.default_mode)?;
        self.log.reserve(1)?;
        let replaced = self.held.put(given, local);
        self.log.push_reserved(replaced);
        Ok(())
    }

    /// Appends the current value as SHOW prints it. Refused as 42704 where the name is unknown.
    ///
    /// The names of search_path are joined by `, `. Between quotes, its own doubled, stands each name but
    /// one of small ASCII letters, `_` and digits that begins with no digit, isn't empty and isn't
    /// reserved (PostgreSQL's `quote_identifier` in ruleutils.c). The reserved words are this project's
    /// own, and so are quotes around a number.
    pub fn text(&self, name: &str, out: &mut Vec<u8>) -> Result<(), Stop>
        ensures text { LeadsTo (shown_after out.old.items name.now self.now.values.current) out.new.items result }
        ensures kept { IfErr result (StopsBy (λ _. out.new.items ≡ out.old.items)) }
    {
        let Some(setting) = named(name) else {
            return Err(refusal_naming(self.alloc, Code::UnknownSetting, name));
        };
        match setting {
            Name::SearchPath => append_path(self.path(), out)?,
            Name::PlanCacheMode => append(mode_word(self.mode()).as_bytes(), out)?,
            Name::Switch(switch) => {
                append(switch_word(is_on(switch, self.switches())).as_bytes(), out)?;
            }
        }
        Ok(())
    }

    /// The current search_path, which may name schemas that don't exist.
    pub fn path(&self) -> &[Str]
        ensures { result.now ≡ self.now.values.current.path }
    {
        self.held.path().as_slice()
    }

    /// The current plan_cache_mode.
    pub fn mode(&self) -> Mode
        ensures { result ≡ self.now.values.current.choices.mode }
    {
        self.held.choices().mode
    }

    /// The current values of the other settings.
    pub fn switches(&self) -> Switches
        ensures { result ≡ self.now.values.current.choices.switches }
    {
        self.held.choices().switches
    }

    /// Names the values of now. The mark stands at least until `commit` or a rollback to an earlier one.
    pub fn mark(&self) -> SetMark
        ensures mark { result ≡ length self.now.past }
        ensures stands { spec.Stands self.now result }
        ensures names { spec.values_at self.now result ≡ self.now.values }
    {
        SetMark {
            changes: self.log.len(),
        }
    }

    /// Whether a mark stands: no fewer changes can be taken back than when it was taken.
    pub fn stands(&self, mark: SetMark) -> bool
        ensures { IsTrue result ↔ spec.Stands self.now mark }
    {
        mark.changes <= self.log.len()
    }

    /// Gives back the values of the mark, the session's and the current ones. The mark has to stand: no
    /// fewer changes can be taken back than when it was taken.
    pub fn rollback_to(&mut self, mark: SetMark)
        requires { spec.Stands self.old mark }
        ensures state { self.new ≡ spec.at_mark self.old mark }
        ensures marks { (earlier : ℕ) → earlier ≤ mark → spec.KeepsMark self.old self.new earlier }
    {
        let since = self.log.len() - mark.changes;
        self.undo(since);
    }

    /// Takes back the last changes.
    fn undo(&mut self, count: usize)
        ensures { self.new ≡ spec.back count self.old }
    {
        for _turn in 0..count {
            self.undo_last();
        }
    }

    fn undo_last(&mut self)
        ensures { self.new ≡ spec.back 1 self.old }
    {
        if let Some(replaced) = self.log.pop() {
            self.held.undo(replaced);
        }
    }

    /// Ends the values that SET LOCAL gave, and keeps the changes for good, as COMMIT does.
    pub fn commit(&mut self)
        ensures { self.new ≡ spec.committed self.old }
    {
        self.held.commit();
        self.log.clear();
    }
}
