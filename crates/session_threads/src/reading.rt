//! Reads the scripts of the clients that the words name.
ghost use Rattle.std.specs.Prelude.{◌≡◌, ◌≤◌, length, map, string_bytes, None, Ok, IfOk, MatchResult};
ghost use Rattle.session_input.specs.Clients.{clients_reading};
ghost use Rattle.session_input.specs.Reads.{ComesTo};
ghost use Rattle.session_run.specs.Reading.{CountsReads};
ghost use Rattle.session_run.specs.Words as words_spec;
ghost use Rattle.session_run.specs.declared.modes.Mode.TheVariants as mode;
ghost use Rattle.session_threads.specs.Clients.{CanPlayAll};
ghost use Rattle.session_threads.specs.Reading.{AreReadAs, HaveInput};

use ask_history::Script;
use pc_outside::Files;
use pc_terms::Row;
use session_input::{NoInput, read_clients_input};
use session_run::{Ending, Mode, mode_of};
use std::alloc::Global;

// The scripts of the clients of these names, with their texts.
fn read_scripts<F: Files>(
    alloc: Global,
    files: &mut F,
    names: &[String],
) -> Result<Row<Script>, Ending>
    ensures input { MatchResult result
        (λ scripts. ComesTo (F.content files.old) (clients_reading (map string_bytes names.now)) (Ok scripts))
        (λ ended. AreReadAs (F.content files.old) (map string_bytes names.now) None ended) }
    ensures few { IfOk result (λ scripts. length scripts ≤ 32) }
    ensures can { IfOk result CanPlayAll }
    ensures reading { MatchResult result
        (λ scripts. F.faults files.new ≡ F.faults files.old)
        (λ ended. CountsReads ended (F.faults files.old) (F.faults files.new) (F.last_failed files.new)) }
{
    match read_clients_input(alloc, files, names) {
        Ok(scripts) => Ok(scripts),
        Err(NoInput::Refused(why)) => Err(Ending::Refused(why)),
        Err(NoInput::NoMemory) => Err(Ending::NoMemory),
    }
}

/// The scripts of the clients that the words name, or how the run ends without a session.
pub(crate) fn read_clients<F: Files>(
    alloc: Global,
    words: &[String],
    files: &mut F,
) -> Result<Row<Script>, Ending>
    ensures input { MatchResult result
        (λ scripts. (words_spec.mode_of (map string_bytes words.now) ≡ mode.Threads)
        × ComesTo (F.content files.old) (clients_reading (words_spec.clients_of (map string_bytes words.now))) (Ok scripts))
        (λ ended. HaveInput (words_spec.mode_of (map string_bytes words.now)) (F.content files.old) (words_spec.clients_of (map string_bytes words.now)) None ended) }
    ensures few { IfOk result (λ scripts. length scripts ≤ 32) }
    ensures can { IfOk result CanPlayAll }
    ensures reading { MatchResult result
        (λ scripts. F.faults files.new ≡ F.faults files.old)
        (λ ended. CountsReads ended (F.faults files.old) (F.faults files.new) (F.last_failed files.new)) }
{
    match mode_of(words) {
        Mode::Threads => match words {
            [_, clients @ ..] => read_scripts(alloc, files, clients),
            _ => unreachable!(),
        },
        Mode::Alone | Mode::Bad => Err(Ending::Usage),
    }
}
