ghost use Rattle.std.specs.Prelude.{◌≡◌, ◌≢◌, ◌+◌, ◌≤◌, ◌^◌, ℕ, length, OnOk, OnErr, IfErr, IfSome, Err, false};
ghost use Rattle.std.specs.Io.KnownBytes.{Keeps};
ghost use Rattle.q_io.specs.Faults.{Rose};
ghost use Rattle.session_cli.specs.declared.reading.Unread.TheVariants as unread;
ghost use Rattle.session_cli.specs.declared.status.Status.TheVariants as status;
ghost use Rattle.session_cli.specs.Headline.{Outcome};
ghost use Rattle.session_cli.specs.Turns.{ReadsPiece};

use crate::options::Options;
use crate::running::{Turn, run_commands};
use crate::status::Status;
use q_base::{NoMemory, Work};
use q_io::{Sink, Source};
use session_core::Session;
use sql_tokens::Splitter;
use std::alloc::Global;
use std::sync::ledger::Ledger;

/// The most bytes that one read asks for.
const PIECE: usize = 4096;

/// Why nothing more was read.
#[derive(Clone, Copy, Debug, PartialEq, Eq)]
pub enum Unread {
    NoMemory,
    Fault,
}

impl From<NoMemory> for Unread {
    ghost use Rattle.std.specs.Prelude.{◌≡◌};
    ghost use Rattle.session_cli.specs.declared.reading.Unread.TheVariants as unread;

    ghost from_gives = { λ _ e. e ≡ unread.NoMemory };

    fn from(_: NoMemory) -> Unread {
        Unread::NoMemory
    }
}

/// Runs the commands of the script that the source gives, each as soon as it is whole, and writes
/// its output before more is read.
pub fn run_script<S: Source, K: Sink, L: Ledger>(
    alloc: Global,
    options: Options,
    source: &mut S,
    sink: &mut K,
    work: &mut Work<L>,
) -> Status
    ensures outcome { IfSome (S.left source.old) (λ script. Outcome result options script (S.left source.new) (K.written sink.old) (K.written sink.new)) }
    ensures read_fault { result ≡ status.ReadFault → Rose (S.faults source.old) (S.faults source.new) }
    ensures write_fault { result ≡ status.WriteFault → Rose (K.faults sink.old) (K.faults sink.new) }
    ensures no_usage { result ≢ status.Usage }
{
    let Ok(mut session) = Session::new(alloc, options.mode) else {
        return Status::NoMemory;
    };
    let mut splitter = Splitter::new(alloc);
    let mut out = Vec::new(alloc);
    loop {
        let turn = run_commands(
            &mut session,
            &mut splitter,
            options.stop,
            sink,
            &mut out,
            work,
        );
        match turn {
            Turn::Ended(status) => return status,
            Turn::More => {}
        }
        match read_piece(source, &mut splitter) {
            Ok(()) => {}
            Err(Unread::NoMemory) => return Status::NoMemory,
            Err(Unread::Fault) => return Status::ReadFault,
        }
    }
}

// Reads once, and feeds what was read or says that nothing is left.
fn read_piece<S: Source>(source: &mut S, splitter: &mut Splitter) -> Result<(), Unread>
    requires { splitter.old.over ≡ false }
    ensures read { OnOk result (ReadsPiece (S.left source.old) (S.left source.new) splitter.old splitter.new) }
    ensures kept { result ≡ Err unread.Fault → Keeps (S.left source.old) (S.left source.new) }
    ensures later { S.faults source.old ≤ S.faults source.new }
    ensures cause { result ≡ Err unread.Fault → Rose (S.faults source.old) (S.faults source.new) }
    ensures taken { OnOk result (splitter.new.taken ≡ splitter.old.taken) }
    ensures grows { OnOk result (length splitter.new.fed ≤ length splitter.old.fed + 4096) }
{
    let mut buffer = [0; PIECE];
    let Ok(count) = source.read(&mut buffer) else {
        return Err(Unread::Fault);
    };
    if count == 0 {
        splitter.end();
        return Ok(());
    }
    splitter.feed(&buffer[..count])?;
    Ok(())
}
