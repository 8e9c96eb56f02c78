//! The limits of a session, and calls.
ghost use Rattle.std.specs.Prelude.{◌≡◌, ◌≤◌, length, IfOk, true};
ghost use Rattle.ask_history.specs.Engine.{has_file_names, is_file_name};
ghost use Rattle.work_queue.specs.Reloads.{reloaded_by};

use ask_history::Call;
use pc_terms::{NoMemory, Row, Text};
use std::alloc::Global;
use work_queue::Limits;

pub const ALL: Limits = Limits {
    calls: 65_536,
    text: 268_435_456,
    names: 1_024,
    map: 16_777_216,
    file: 262_144,
};

pub fn reload(alloc: Global, name: &str, text: &str) -> Result<Call, NoMemory>
    requires { is_file_name name.now ≡ true }
    ensures few { IfOk result (λ call. length (reloaded_by call) ≤ 1) }
    ensures names { IfOk result (λ call. has_file_names call ≡ true) }
{
    let mut entries = Row::new(alloc);
    entries.push((Text::new(alloc, name)?, Text::new(alloc, text)?))?;
    Ok(Call::Reload(entries))
}

pub fn type_at(alloc: Global, name: &str, offset: u32) -> Result<Call, NoMemory>
    requires { is_file_name name.now ≡ true }
    ensures few { IfOk result (λ call. length (reloaded_by call) ≤ 1) }
    ensures names { IfOk result (λ call. has_file_names call ≡ true) }
{
    Ok(Call::TypeAt(Text::new(alloc, name)?, offset))
}
