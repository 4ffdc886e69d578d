ghost use Rattle.std.specs.Prelude.{◌≡◌, ◌≤◌, ℕ, List, IfOk, IfErr, OnErr, MatchResult, take};
ghost use Rattle.std.specs.Io.KnownBytes.{Appends};
ghost use Rattle.q_io.specs.Faults.{Rose};

use q_base::NoMemory;
use q_io::{Failed, Sink};

/// Why a command ended the run.
#[derive(Clone, Copy, Debug, PartialEq, Eq)]
pub enum Halt {
    NoMemory,
    WriteFault,
}

impl From<NoMemory> for Halt {
    ghost use Rattle.std.specs.Prelude.{◌≡◌};
    ghost use Rattle.session_cli.specs.declared.output.Halt.TheVariants as halt;

    ghost from_gives = { λ _ e. e ≡ halt.NoMemory };

    fn from(_: NoMemory) -> Halt {
        Halt::NoMemory
    }
}

/// Writes all of the bytes, or a front of them where the sink fails.
pub fn write_all<K: Sink>(sink: &mut K, bytes: &[u8]) -> Result<(), Failed>
    ensures written { MatchResult result (λ _. Appends (K.written sink.old) (K.written sink.new) bytes.now) (λ _. (some : ℕ) × Appends (K.written sink.old) (K.written sink.new) (take some bytes.now)) }
    ensures later { K.faults sink.old ≤ K.faults sink.new }
    ensures cause { OnErr result (Rose (K.faults sink.old) (K.faults sink.new)) }
{
    let mut done = 0;
    while done < bytes.len() {
        let (_, rest) = bytes.split_at(done);
        match sink.write(rest) {
            Ok(count) => done += count,
            Err(failed) => return Err(failed),
        }
    }
    Ok(())
}
