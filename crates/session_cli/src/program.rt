ghost use Rattle.std.specs.Prelude.{◌≡◌, ◌⊎◌, ◌≤◌, map, IfSome, None};
ghost use Rattle.std.specs.String.{string_bytes};
ghost use Rattle.q_io.specs.Faults.{Rose};
ghost use Rattle.session_cli.specs.declared.status.Status.TheVariants as status;
ghost use Rattle.session_cli.specs.Headline.{Outcome, IsComplete, IsSession, seen};
ghost use Rattle.session_cli.specs.Words.{options_of};

use crate::options::{WordsError, read_words};
use crate::reading::run_script;
use crate::status::Status;
use q_base::Work;
use q_io::{Sink, Source};
use std::alloc::Global;
use std::marker::Brand;
use std::sync::ledger::{Blank, Ledger};

/// All that the program does: runs the script that the source gives by the words after the
/// program's name, and writes what each command answers.
///
/// Where the words are accepted and the source tells its bytes, `outcome` says by status which
/// commands ran and what was written, and `complete` that without faults every command ran.
pub fn session_main<S: Source, K: Sink, L: Ledger>(
    alloc: Global,
    words: &[String],
    source: &mut S,
    sink: &mut K,
    work: &mut Work<L>,
) -> Status
    ensures outcome { IfSome (options_of (map string_bytes words.now)) (λ options. IfSome (S.left source.old) (λ script. Outcome result options script (S.left source.new) (K.written sink.old) (K.written sink.new))) }
    ensures usage { result ≡ status.Usage → options_of (map string_bytes words.now) ≡ None }
    ensures refused { options_of (map string_bytes words.now) ≡ None → (result ≡ status.Usage) ⊎ (result ≡ status.NoMemory) }
    ensures untouched { options_of (map string_bytes words.now) ≡ None → (source.new ≡ source.old) × (sink.new ≡ sink.old) }
    ensures read_fault { result ≡ status.ReadFault → Rose (S.faults source.old) (S.faults source.new) }
    ensures write_fault { result ≡ status.WriteFault → Rose (K.faults sink.old) (K.faults sink.new) }
    ensures complete { IfSome (options_of (map string_bytes words.now)) (λ _. IfSome (S.left source.old) (λ script. (Rose (S.faults source.old) (S.faults source.new) → ⊥) → (Rose (K.faults sink.old) (K.faults sink.new) → ⊥) → IsComplete result script)) }
{
    match read_words(alloc, words) {
        Ok(options) => run_script(alloc, options, source, sink, work),
        Err(WordsError::NoMemory) => Status::NoMemory,
        Err(WordsError::Usage) => Status::Usage,
    }
}

/// [`session_main`] with counters of its own: `session` has all that its clauses say, as one fact.
pub fn start<S: Source, K: Sink>(
    alloc: Global,
    words: &[String],
    source: &mut S,
    sink: &mut K,
) -> Status
    ensures session { IsSession (map string_bytes words.now) (seen S.left S.faults source.old) (seen S.left S.faults source.new) (seen K.written K.faults sink.old) (seen K.written K.faults sink.new) result }
    ensures untouched { options_of (map string_bytes words.now) ≡ None → (source.new ≡ source.old) × (sink.new ≡ sink.old) }
{
    counted::<S, K, Brand>(alloc, words, source, sink, Blank::new(3))
}

fn counted<S: Source, K: Sink, L: Ledger>(
    alloc: Global,
    words: &[String],
    source: &mut S,
    sink: &mut K,
    blank: Blank,
) -> Status
    requires name { blank.name ≡ L.name }
    requires parts { blank.parts ≡ L.parts }
    requires three { 3 ≤ blank.parts }
    ensures session { IsSession (map string_bytes words.now) (seen S.left S.faults source.old) (seen S.left S.faults source.new) (seen K.written K.faults sink.old) (seen K.written K.faults sink.new) result }
    ensures untouched { options_of (map string_bytes words.now) ≡ None → (source.new ≡ source.old) × (sink.new ≡ sink.old) }
{
    let mut work = Work::<L>::open(blank);
    session_main(alloc, words, source, sink, &mut work)
}
