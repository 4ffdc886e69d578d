//! Where bytes go.
ghost use Rattle.std.specs.Prelude.{ℕ, ◌<◌, List, length, Option};
ghost use Rattle.std.specs.Io.KnownBytes.{WriteAppends};
ghost use Rattle.q_io.specs.Faults.{HasCause};
ghost use Rattle.q_io.specs.Moves.{TakesSome};

use crate::fault::Failed;

/// Where bytes go, as by POSIX's `write` to a file that blocks. The count of faults is this project's
/// own: by it a caller can blame the sink and nothing else.
pub trait Sink {
    /// The bytes that were written, where the sink tells them.
    ghost written: { Self → Option (List ℕ) };

    /// How often the sink failed. The count never falls, and stays at `u64::MAX`.
    ghost faults: { Self → ℕ };

    /// Appends the first of `bytes`, at least one, and gives their number. Takes no memory.
    ///
    /// # Errors
    ///
    /// [`Failed`] only where the count of faults rose in this call, or stands at its greatest
    /// value. Nothing was appended then. A device that takes no byte has failed.
    fn write(&mut self, bytes: &[u8]) -> Result<usize, Failed>
        requires { 0 < length bytes.now }
        ensures count { TakesSome result bytes.now }
        ensures bytes { WriteAppends (written self.old) (written self.new) result bytes.now }
        ensures cause { HasCause (faults self.old) (faults self.new) result };
}
