//! Reads what the words ask for.

ghost use Rattle.std.specs.Prelude.{◌≡◌, ℕ, List, None, Ok, map, string_bytes, IfOk, MatchResult};
ghost use Rattle.schedule_player.specs.Owed.{CanPlayAll};
ghost use Rattle.session_input.specs.Input.{schedule_reading};
ghost use Rattle.session_input.specs.Reads.{ComesTo};
ghost use Rattle.session_run.specs.Reading.{IsReadAs, HasInput, CountsReads};
ghost use Rattle.session_run.specs.Words.{schedule_of};
ghost use Rattle.session_run.specs.Words as words_spec;
ghost use Rattle.session_run.specs.declared.modes.Mode.TheVariants as mode;

use crate::Ending;
use crate::modes::{Mode, mode_of};
use ask_history::Line;
use pc_outside::Files;
use pc_terms::{NoMemory, Row, Text};
use session_input::{NoInput, read_schedule_input};
use std::alloc::Global;

// The lines of a schedule, with their texts.
fn read_schedule<F: Files>(
    alloc: Global,
    files: &mut F,
    schedule: &str,
) -> Result<Row<Line>, Ending>
    ensures input { MatchResult result
        (λ lines. ComesTo (F.content files.old) (schedule_reading schedule.now) (Ok lines))
        (λ ended. IsReadAs (F.content files.old) schedule.now None ended) }
    ensures can { IfOk result CanPlayAll }
    ensures reading { MatchResult result
        (λ lines. F.faults files.new ≡ F.faults files.old)
        (λ ended. CountsReads ended (F.faults files.old) (F.faults files.new) (F.last_failed files.new)) }
{
    let schedule = match Text::new(alloc, schedule) {
        Ok(schedule) => schedule,
        Err(NoMemory {}) => return Err(Ending::NoMemory),
    };
    match read_schedule_input(alloc, files, &schedule) {
        Ok(lines) => Ok(lines),
        Err(NoInput::Refused(why)) => Err(Ending::Refused(why)),
        Err(NoInput::NoMemory) => Err(Ending::NoMemory),
    }
}

/// The lines that the words ask to be played, or how the run ends without a session.
pub fn read_input<F: Files>(
    alloc: Global,
    words: &[String],
    files: &mut F,
) -> Result<Row<Line>, Ending>
    ensures input { MatchResult result
        (λ lines. (words_spec.mode_of (map string_bytes words.now) ≡ mode.Alone)
        × ComesTo (F.content files.old) (schedule_reading (schedule_of (map string_bytes words.now))) (Ok lines))
        (λ ended. HasInput (words_spec.mode_of (map string_bytes words.now)) (F.content files.old) (schedule_of (map string_bytes words.now)) None ended) }
    ensures can { IfOk result CanPlayAll }
    ensures reading { MatchResult result
        (λ lines. F.faults files.new ≡ F.faults files.old)
        (λ ended. CountsReads ended (F.faults files.old) (F.faults files.new) (F.last_failed files.new)) }
{
    match mode_of(words) {
        Mode::Alone => match words {
            [_, schedule] => read_schedule(alloc, files, schedule.as_str()),
            _ => unreachable!(),
        },
        Mode::Threads | Mode::Bad => Err(Ending::Usage),
    }
}
