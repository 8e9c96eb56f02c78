//! What is left of a session that is shut down.
ghost use Rattle.std.specs.Prelude.{◌≡◌, ℕ, ◌+◌, List, Some, length, map, IfSome};
ghost use Rattle.std.specs.Option.{option_map};
ghost use Rattle.ask_history.specs.declared.script.Script.{Script as Scripted};
ghost use Rattle.counting_word.specs.Calls.{Meets};
ghost use Rattle.report_hub.specs.Hub.{reporters_of};
ghost use Rattle.session_threads.specs.Clients.{scripts_played, answers_played};
ghost use Rattle.session_threads.specs.Left.{IsLeft, IsFateOf, FateFrom, fate_at};
ghost use Rattle.session_threads.specs.Parts.{AllEnded, ShutAt};
ghost use Rattle.session_threads.specs.Passes.{Meeting};
ghost use Rattle.session_threads.specs.Served.{HasServed};
ghost use Rattle.session_threads.specs.Sessions.{RoseIfUnbegun};
ghost use Rattle.pc_outside.specs.Outside.{Rose};

use crate::clients::Played;
use crate::closing::{Ended, meet_all};
use crate::fate::Fate;
use crate::serving::Served;
use ask_desk::{Desk, EnginePass, Pass};
use ask_history::{Answer, Engine, Journal, Script};
use counting_word::Room;
use pc_terms::{Problem, Row};
use report_hub::Hub;
use std::alloc::Global;
use std::sync::Wait;

/// What is left of a session: its journal, what became of its clients, what its checks found, and the hub.
#[derive(Drop)]
pub(crate) struct Left {
    pub(crate) journal: Journal,
    pub(crate) fate: Fate,
    pub(crate) found: Row<Row<Problem>>,
    pub(crate) hub: Hub,
}

// The engine's pass and another then know what either has seen.
fn meet_engine<B: Room>(desk: &Desk<B>, engine: &mut EnginePass<B>, other: &mut Pass<B>)
    ensures { Meets engine.old.pass other.old engine.new.pass other.new }
{
    desk.meet(engine.as_pass(), other);
}

// The scripts of clients and their answers; none where one has no answers, or memory runs out.
fn rows_of<B: Room>(
    alloc: Global,
    clients: Vec<Played<B>>,
) -> Option<(Row<Script>, Row<Row<Answer>>)>
    ensures scripts { IfSome result (λ both. both.0 ≡ scripts_played clients.items) }
    ensures answers { IfSome result (λ both. map Some both.1 ≡ answers_played clients.items) }
{
    let mut scripts = Row::new(alloc);
    let mut rows = Row::new(alloc);
    for client in clients {
        let Played {
            pass: _,
            script,
            answers,
        } = client;
        let Some(answers) = answers else {
            return None;
        };
        if scripts.push(script).is_err() || rows.push(answers).is_err() {
            return None;
        }
    }
    Some((scripts, rows))
}

// What became of clients that played.
fn fate_of<B: Room>(alloc: Global, clients: Vec<Played<B>>) -> Fate
    ensures { IsFateOf clients.items result }
{
    match rows_of(alloc, clients) {
        Some((scripts, answers)) => Fate::Played { scripts, answers },
        None => Fate::CutShort,
    }
}

// A pass meets those of the clients. What became of these.
fn meet_clients<B: Room>(
    alloc: Global,
    desk: &Desk<B>,
    pass: &mut Pass<B>,
    clients: Option<Vec<Played<B>>>,
) -> Fate
    ensures { FateFrom pass.old.seen pass.new.seen (option_map (λ all. all.items) clients) result }
{
    match clients {
        Some(clients) => {
            let mut clients = clients;
            meet_all(desk, pass, &mut clients);
            fate_of(alloc, clients)
        }
        None => Fate::CutShort,
    }
}

// What became of the clients of a session that was shut down at this journal index before they began.
fn fate_at(index: u64) -> Fate
    ensures { result ≡ fate_at index }
{
    if index == 0 {
        Fate::Unbegun
    } else {
        Fate::CutShort
    }
}

/// What is left of a session that was played: all passes meet, and then each of them has seen the whole history.
pub(crate) fn left_played<B: Room, N: Engine>(
    alloc: Global,
    desk: Desk<B>,
    served: Served<B>,
    ended: Ended<B>,
    spare: Pass<B>,
) -> Left
    ensures left { (scripts : List Scripted) → HasServed N.answer_of N.problems_of (length scripts + 2) served.pass.pass served.found → AllEnded scripts ended spare
        → IsLeft N.answer_of N.problems_of scripts served.pass.pass.seen result }
    ensures hub { reporters_of result.hub ≡ reporters_of served.hub }
    ensures counts { (before now : ℕ) → RoseIfUnbegun result.fate before now }
{
    let Served { pass, hub, found } = served;
    let Ended { closing, clients } = ended;
    let mut engine = pass;
    let mut closing = closing;
    let mut spare = spare;
    meet_engine(&desk, &mut engine, &mut closing);
    desk.meet(&mut closing, &mut spare);
    let fate = meet_clients(alloc, &desk, &mut closing, clients);
    let journal = desk.end(engine);
    Left {
        journal,
        fate,
        found,
        hub,
    }
}

/// Shuts a session down that no client began, and gives the journal index of the shutdown.
#[tactic(auto, using(crate::proofs::Leaving::shut_at))]
pub(crate) fn shut_unbegun<B: Room, R: Wait>(rt: &R, desk: &Desk<B>, spare: &mut Pass<B>) -> u64
    ensures shut { ShutAt spare.new result }
{
    let index = desk.close(rt, spare);
    spare.known();
    index
}

/// What is left of a session that no client began, and that the spare pass shut down at this journal index.
pub(crate) fn left_unbegun<B: Room, N: Engine>(
    desk: Desk<B>,
    served: Served<B>,
    spare: Pass<B>,
    index: u64,
) -> Left
    ensures left { (scripts : List Scripted) → HasServed N.answer_of N.problems_of (length scripts + 2) served.pass.pass served.found → ShutAt spare index
        → IsLeft N.answer_of N.problems_of scripts served.pass.pass.seen result }
    ensures hub { reporters_of result.hub ≡ reporters_of served.hub }
    ensures counts { (before now : ℕ) → Rose before now → RoseIfUnbegun result.fate before now }
{
    let Served { pass, hub, found } = served;
    let mut engine = pass;
    let mut spare = spare;
    meet_engine(&desk, &mut engine, &mut spare);
    let journal = desk.end(engine);
    Left {
        journal,
        fate: fate_at(index),
        found,
        hub,
    }
}
