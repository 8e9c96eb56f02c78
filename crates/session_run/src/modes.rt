ghost use Rattle.std.specs.Prelude.{◌≡◌, map, string_bytes};
ghost use Rattle.session_run.specs.Words as spec;

/// What the words of the command line ask for.
#[derive(Clone, Copy, Debug, PartialEq, Eq)]
pub enum Mode {
    /// A run on one thread.
    Alone,
    /// A run on several threads.
    Threads,
    /// Nothing: the words are none of the program's.
    Bad,
}

fn is_operand(word: &[u8]) -> bool
    ensures { result ≡ spec.is_operand word.now }
{
    match word {
        [b'-' | b'<', ..] | [] => false,
        _ => true,
    }
}

fn are_operands(words: &[String]) -> bool
    ensures { result ≡ spec.are_operands (map string_bytes words.now) }
{
    for word in words {
        if !is_operand(word.as_bytes()) {
            return false;
        }
    }
    !words.is_empty()
}

fn is_step(words: &[String]) -> bool
    ensures { result ≡ spec.is_step (map string_bytes words.now) }
{
    match words {
        [mode, schedule] => mode.as_str() == "step" && is_operand(schedule.as_bytes()),
        _ => false,
    }
}

fn is_replay(words: &[String]) -> bool
    ensures { result ≡ spec.is_replay (map string_bytes words.now) }
{
    match words {
        [mode, clients @ ..] => mode.as_str() == "replay" && are_operands(clients),
        [] => false,
    }
}

/// The mode that the words after the program's name ask for. It takes no memory.
pub fn mode_of(words: &[String]) -> Mode
    ensures { result ≡ spec.mode_of (map string_bytes words.now) }
{
    if is_step(words) {
        Mode::Alone
    } else if is_replay(words) {
        Mode::Threads
    } else {
        Mode::Bad
    }
}
