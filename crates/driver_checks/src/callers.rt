//! Calls about the file `a`, and a caller that acts at the gate.
ghost use Rattle.std.specs.Prelude.{◌≡◌, ◌≤◌, length, IfOk, true};
ghost use Rattle.ask_history.specs.Engine.{has_file_names};
ghost use Rattle.work_queue.specs.Reloads.{reloaded_by};

use ask_desk::{Desk, Pass};
use ask_history::Call;
use counting_word::Room;
use pc_outside::Gate;
use pc_terms::{NoMemory, Row, Text};
use std::alloc::Global;
use std::sync::Wait;

/// What a caller does.
#[derive(Clone, Copy, Debug)]
pub enum Deed {
    /// It loads the file.
    Reload,
    /// It takes the file out.
    Remove,
    /// It asks for a tree.
    Type,
    /// It asks for the whole file typed.
    Typed,
    Close,
}

/// The file gets a text of 22 bytes.
pub fn reload(alloc: Global) -> Result<Call, NoMemory>
    ensures few { IfOk result (λ call. length (reloaded_by call) ≤ 1) }
    ensures names { IfOk result (λ call. has_file_names call ≡ true) }
{
    let mut entries = Row::new(alloc);
    let text = Text::new(alloc, "object A { val x = 1 }")?;
    entries.push((Text::new(alloc, "a")?, text))?;
    Ok(Call::Reload(entries))
}

fn removal(alloc: Global) -> Result<Call, NoMemory>
    ensures few { IfOk result (λ call. length (reloaded_by call) ≤ 1) }
    ensures names { IfOk result (λ call. has_file_names call ≡ true) }
{
    let mut names = Row::new(alloc);
    names.push(Text::new(alloc, "a")?)?;
    Ok(Call::Remove(names))
}

/// The tree at the byte 19, which is that of the literal `1`.
pub fn type_at(alloc: Global) -> Result<Call, NoMemory>
    ensures few { IfOk result (λ call. length (reloaded_by call) ≤ 1) }
    ensures names { IfOk result (λ call. has_file_names call ≡ true) }
{
    Ok(Call::TypeAt(Text::new(alloc, "a")?, 19))
}

fn typed(alloc: Global) -> Result<Call, NoMemory>
    ensures few { IfOk result (λ call. length (reloaded_by call) ≤ 1) }
    ensures names { IfOk result (λ call. has_file_names call ≡ true) }
{
    Ok(Call::LoadedTyped(Text::new(alloc, "a")?))
}

/// A caller that does one thing at each safe point of the engine, as long as there is something to do. Out of memory it does
/// nothing.
#[derive(Drop)]
pub struct Caller<'a, B: Room> {
    pub alloc: Global,
    pub desk: &'a Desk<B>,
    pub pass: Pass<B>,
    pub deeds: &'a [Deed],
}

impl<B: Room> Caller<'_, B> {
    /// Does one thing.
    pub fn act<R: Wait>(&mut self, rt: &R, deed: Deed) {
        match deed {
            Deed::Reload => self.post(rt, reload(self.alloc)),
            Deed::Remove => self.post(rt, removal(self.alloc)),
            Deed::Type => self.post(rt, type_at(self.alloc)),
            Deed::Typed => self.post(rt, typed(self.alloc)),
            Deed::Close => {
                self.desk.close(rt, &mut self.pass);
            }
        }
    }

    /// Does one thing after another.
    pub fn act_all<R: Wait>(&mut self, rt: &R, deeds: &[Deed]) {
        for deed in deeds {
            self.act(rt, *deed);
        }
    }

    fn post<R: Wait>(&mut self, rt: &R, call: Result<Call, NoMemory>)
        requires few { IfOk call (λ call. length (reloaded_by call) ≤ 1) }
        requires names { IfOk call (λ call. has_file_names call ≡ true) }
    {
        if let Ok(call) = call {
            let _ = self.desk.post(rt, self.alloc, &mut self.pass, 1, call);
        }
    }
}

impl<B: Room> Gate for Caller<'_, B> {
    fn at_safe_point<R: Wait>(&mut self, rt: &R) {
        if let Some((deed, deeds)) = self.deeds.split_first() {
            self.deeds = deeds;
            self.act(rt, *deed);
        }
    }
}
