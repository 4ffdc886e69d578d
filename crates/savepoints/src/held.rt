ghost use Rattle.std.specs.Prelude.{◌≡◌};
ghost use Rattle.savepoints.specs.Choices as choices;

use crate::given::{Choice, Given, Path, Switch};
use q_base::{Mode, Switches};
use std::marker::Model;
use std::mem;

/// The values of the settings other than search_path.
#[derive(Clone, Copy, Debug, PartialEq, Eq)]
pub struct Choices {
    pub mode: Mode,
    pub switches: Switches,
}

impl Choices {
    /// Every setting on, with a mode.
    pub fn new(mode: Mode) -> Choices
        ensures { result ≡ record { mode = mode; switches = choices.all_on } }
    {
        Choices {
            mode,
            switches: Switches {
                seqscan: true,
                indexscan: true,
                hashjoin: true,
                nestloop: true,
                sort: true,
            },
        }
    }

    /// The same but for one value.
    fn with(self, choice: Choice) -> Choices
        ensures { result ≡ choices.with_choice choice self }
    {
        match choice {
            Choice::Mode(mode) => Choices { mode, ..self },
            Choice::Switch(switch, on) => Choices {
                switches: with_switch(self.switches, switch, on),
                ..self
            },
        }
    }
}

fn with_switch(switches: Switches, switch: Switch, on: bool) -> Switches
    ensures { result ≡ choices.with_switch switch on switches }
{
    match switch {
        Switch::Seqscan => Switches {
            seqscan: on,
            ..switches
        },
        Switch::Indexscan => Switches {
            indexscan: on,
            ..switches
        },
        Switch::Hashjoin => Switches {
            hashjoin: on,
            ..switches
        },
        Switch::Nestloop => Switches {
            nestloop: on,
            ..switches
        },
        Switch::Sort => Switches {
            sort: on,
            ..switches
        },
    }
}

/// What a change replaced, the session's value before the current one where both were.
#[derive(Drop)]
pub enum Replaced {
    Paths(Path, Option<Path>),
    LocalPath(Option<Path>),
    Choices(Choices, Choices),
}

/// The session's value of each setting, and the current one.
#[derive(Drop)]
pub struct Held {
    path: Path,
    /// The current search_path, where it was set for the transaction alone.
    local_path: Option<Path>,
    session: Choices,
    current: Choices,
}

impl Model for Held {
    ghost use Rattle.savepoints.specs.Values.{Both, held};

    ghost Value = { Both };

    ghost view = { λ h. held h.path h.local_path h.session h.current };
}

impl Held {
    ghost use Rattle.savepoints.specs.Values as values;

    /// The session's values, each of which is the current one too.
    pub fn new(path: Path, choices: Choices) -> Held
        ensures { result ≡ values.held path None choices choices }
    {
        Held {
            path,
            local_path: None,
            session: choices,
            current: choices,
        }
    }

    /// The current search_path.
    pub fn path(&self) -> &Path
        ensures { result.now ≡ self.now.current.path }
    {
        match &self.local_path {
            Some(path) => path,
            None => &self.path,
        }
    }

    /// The current values of the other settings.
    pub fn choices(&self) -> Choices
        ensures { result ≡ self.now.current.choices }
    {
        self.current
    }

    /// Gives one setting its value, and answers what that replaced.
    pub fn put(&mut self, given: Given, local: bool) -> Replaced
        ensures put { self.new ≡ values.put local given self.old }
        ensures replaced { values.undone result self.new ≡ self.old }
    {
        match given {
            Given::Path(path) => self.put_path(path, local),
            Given::Choice(choice) => self.put_choice(choice, local),
        }
    }

    fn put_path(&mut self, path: Path, local: bool) -> Replaced
        ensures put { self.new ≡ values.put local (Given.Path path) self.old }
        ensures replaced { values.undone result self.new ≡ self.old }
    {
        if local {
            Replaced::LocalPath(mem::replace(&mut self.local_path, Some(path)))
        } else {
            let session = mem::replace(&mut self.path, path);
            Replaced::Paths(session, self.local_path.take())
        }
    }

    fn put_choice(&mut self, choice: Choice, local: bool) -> Replaced
        ensures put { self.new ≡ values.put local (Given.Choice choice) self.old }
        ensures replaced { values.undone result self.new ≡ self.old }
    {
        let replaced = Replaced::Choices(self.session, self.current);
        if !local {
            self.session = self.session.with(choice);
        }
        self.current = self.current.with(choice);
        replaced
    }

    /// Puts back what a change replaced.
    pub fn undo(&mut self, replaced: Replaced)
        ensures { self.new ≡ values.undone replaced self.old }
    {
        match replaced {
            Replaced::Paths(session, local) => {
                self.path = session;
                self.local_path = local;
            }
            Replaced::LocalPath(local) => self.local_path = local,
            Replaced::Choices(session, current) => {
                self.session = session;
                self.current = current;
            }
        }
    }

    /// Gives each setting its session's value.
    pub fn commit(&mut self)
        ensures { self.new ≡ values.committed self.old }
    {
        self.local_path = None;
        self.current = self.session;
    }
}
