//! What calls say to a queue.
ghost use Rattle.std.specs.Prelude.{◌≡◌};
ghost use Rattle.ask_history.specs.Sources.{is_mutation};
ghost use Rattle.work_queue.specs.Queue.{mark_of, answer_to, effect_to};
ghost use Rattle.work_queue.specs.Refusal.{too_large, overfull};
ghost use Rattle.work_queue.specs.Reloads.{reloaded_by};

use crate::limits::{Limits, PostRefused, Settling};
use crate::usage::Usage;
use ask_history::{Answer, Call, Effect, Mark};
use pc_terms::Text;

pub fn is_mutation(call: &Call) -> bool
    ensures { result ≡ is_mutation call.now }
{
    matches!(call, Call::Reload(_) | Call::Remove(_))
}

/// The names and texts that a call reloads.
pub fn reloaded(call: &Call) -> &[(Text, Text)]
    ensures { result.now ≡ reloaded_by call.now }
{
    match call {
        Call::Reload(pairs) => pairs.as_slice(),
        _ => &[],
    }
}

/// The length of the first text that is longer than `limit` bytes.
pub fn too_large(limit: u64, pairs: &[(Text, Text)]) -> Option<u64>
    ensures { result ≡ too_large limit pairs.now }
{
    for pair in pairs {
        let len = pair.1.len() as u64;
        if limit < len {
            return Some(len);
        }
    }
    None
}

/// The first limit that this usage is above.
pub fn overfull(limits: Limits, usage: Usage) -> Option<PostRefused>
    ensures { result ≡ overfull limits usage }
{
    if limits.text < usage.text {
        Some(PostRefused::TextFull(usage.text))
    } else if limits.names < usage.names {
        Some(PostRefused::NamesFull(usage.names))
    } else if limits.map < usage.map {
        Some(PostRefused::MapFull(usage.map))
    } else {
        None
    }
}

pub fn mark_of(what: &Settling) -> Mark
    ensures { result ≡ mark_of what.now }
{
    match what {
        Settling::Value(_) => Mark::Done,
        Settling::NoMemory => Mark::NoMemory,
    }
}

/// What is answered to a call that settles, and whether it takes effect.
pub fn outcome(is_cancelled: bool, mutates: bool, what: Settling) -> (Effect, Answer)
    ensures answer { result.1 ≡ answer_to is_cancelled mutates what }
    ensures effect { result.0 ≡ effect_to is_cancelled mutates what }
{
    match what {
        _ if is_cancelled => (Effect::Dropped, Answer::Cancelled),
        Settling::NoMemory => (Effect::Dropped, Answer::NoMemory),
        Settling::Value(_) if mutates => (Effect::Applies, Answer::Done),
        Settling::Value(found) => (Effect::Dropped, found),
    }
}
