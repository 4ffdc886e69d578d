ghost use Rattle.std.specs.Prelude.{◌≡◌, ◌+◌, ◌^◌, ◌<◌, ◌≤◌, ℕ, List, IfOk, IfErr, OnOk, OnErr, MatchResult, length, true, false};
ghost use Rattle.std.specs.Io.KnownBytes.{Appends};
ghost use Rattle.q_io.specs.Faults.{Rose};
ghost use Rattle.session_core.specs.Machine.{Step};
ghost use Rattle.session_cli.specs.declared.output.Halt.TheVariants as halt;
ghost use Rattle.session_cli.specs.declared.running.Turn.TheVariants as turn;
ghost use Rattle.session_cli.specs.declared.status.Status.TheVariants as status;
ghost use Rattle.session_cli.specs.Turns.{TurnsTo, Halts};

use crate::output::{Halt, write_all};
use crate::status::Status;
use q_base::{NoMemory, Work};
use q_io::Sink;
use session_core::{Done, Session};
use sql_tokens::{Splitter, Took};
use std::sync::ledger::Ledger;

/// What is to be done after the whole commands that were read have run.
#[derive(Clone, Copy, Debug, PartialEq, Eq)]
pub enum Turn {
    /// More has to be read.
    More,
    /// The run ended.
    Ended(Status),
}

/// Runs the whole commands that the splitter holds, and writes each output before the next command
/// runs. `out` is a buffer for the outputs.
pub fn run_commands<K: Sink, L: Ledger>(
    session: &mut Session,
    splitter: &mut Splitter,
    stop: bool,
    sink: &mut K,
    out: &mut Vec<u8>,
    work: &mut Work<L>,
) -> Turn
    requires few { session.old.ran ≤ splitter.old.taken }
    ensures turn { TurnsTo result stop splitter.old splitter.new session.old.state session.new.state (K.written sink.old) (K.written sink.new) }
    ensures total { splitter.new.taken + length splitter.new.fed ≡ splitter.old.taken + length splitter.old.fed }
    ensures limit { result ≡ turn.More → splitter.new.taken + length splitter.new.fed ≤ 2 ^ 30 }
    ensures few { result ≡ turn.More → session.new.ran ≤ splitter.new.taken }
    ensures later { K.faults sink.old ≤ K.faults sink.new }
    ensures cause { result ≡ turn.Ended status.WriteFault → Rose (K.faults sink.old) (K.faults sink.new) }
{
    loop {
        let text = match splitter.take() {
            Ok(Took::Command(text)) => text,
            Ok(Took::NotYet) => return Turn::More,
            Ok(Took::Over) => return Turn::Ended(Status::Done),
            Ok(Took::NotText) => return Turn::Ended(Status::NotText),
            Ok(Took::TooLong) => return Turn::Ended(Status::TooLong),
            Err(NoMemory) => return Turn::Ended(Status::NoMemory),
        };
        let end = match run_command(session, text.as_str(), sink, out, work) {
            Ok(end) => end,
            Err(Halt::NoMemory) => return Turn::Ended(Status::NoMemory),
            Err(Halt::WriteFault) => return Turn::Ended(Status::WriteFault),
        };
        if ends_run(stop, end) {
            return Turn::Ended(Status::Stopped);
        }
    }
}

fn ends_run(stop: bool, end: Done) -> bool
    ensures ends { result ≡ true → (stop ≡ true) × (end ≡ Done.Refused) }
    ensures goes_on { result ≡ false → stop ≡ true → end ≡ Done.Ok }
{
    match end {
        Done::Ok => false,
        Done::Refused => stop,
    }
}

fn run_command<K: Sink, L: Ledger>(
    session: &mut Session,
    text: &str,
    sink: &mut K,
    out: &mut Vec<u8>,
    work: &mut Work<L>,
) -> Result<Done, Halt>
    requires size { length text.now ≤ 2 ^ 20 }
    requires few { session.old.ran < 2 ^ 30 }
    ensures ran { IfOk result (λ end. (output : List ℕ) × Step session.old.state text.now end output session.new.state × Appends (K.written sink.old) (K.written sink.new) output) }
    ensures halted { IfErr result (λ halt. Halts halt session.old.state text.now (K.written sink.old) (K.written sink.new)) }
    ensures count { OnOk result (session.new.ran ≡ session.old.ran + 1) }
    ensures later { K.faults sink.old ≤ K.faults sink.new }
    ensures cause { result ≡ Err halt.WriteFault → Rose (K.faults sink.old) (K.faults sink.new) }
{
    out.clear();
    let end = session.step(text, out, work)?;
    match write_all(sink, out.as_slice()) {
        Ok(()) => Ok(end),
        Err(_) => Err(Halt::WriteFault),
    }
}
