//! Where bytes come from.
ghost use Rattle.std.specs.Prelude.{ℕ, ◌<◌, List, length, Option, IfSome};
ghost use Rattle.std.specs.Io.{ReadsAtMost};
ghost use Rattle.std.specs.Io.KnownBytes.{ReadConsumes};
ghost use Rattle.q_io.specs.Faults.{HasCause};
ghost use Rattle.q_io.specs.Moves.{Moves, EndsWhereNoneLeft};

use crate::fault::Failed;

/// Where bytes come from, as from POSIX's `read` of a file that blocks. The count of faults is this
/// project's own: by it a caller can blame the source and nothing else.
pub trait Source {
    /// The bytes that are left, where the source tells them.
    ghost left: { Self → Option (List ℕ) };

    /// How often the source failed. The count never falls, and stays at `u64::MAX`.
    ghost faults: { Self → ℕ };

    /// Moves the first bytes that are left to the front of `buf`, and gives their number, which is
    /// 0 at the end alone. Takes no memory.
    ///
    /// # Errors
    ///
    /// [`Failed`] only where the count of faults rose in this call, or stands at its greatest
    /// value. Nothing was taken then.
    fn read(&mut self, buf: &mut [u8]) -> Result<usize, Failed>
        requires { 0 < length buf.old }
        ensures bound { ReadsAtMost result buf.new }
        ensures bytes { ReadConsumes (left self.old) (left self.new) result buf.new }
        ensures buffer { IfSome (left self.old) (λ bytes. Moves bytes result buf.old buf.new) }
        ensures end { IfSome (left self.old) (λ bytes. EndsWhereNoneLeft bytes result) }
        ensures cause { HasCause (faults self.old) (faults self.new) result };
}
