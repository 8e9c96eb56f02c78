//! The clients of a session, each of which plays its script in a thread.
ghost use Rattle.std.specs.Prelude.{◌≡◌, ℕ, map, Some, IfSome};
ghost use Rattle.session_threads.specs.Clients.{IsReady, AreReady, Each, HasPlayed, scripts_played, scripts_to_play};

use ask_desk::{Desk, Pass};
use ask_history::{Answer, Script};
use client_scripts::play;
use counting_word::Room;
use desk_clients::DeskPass;
use pc_terms::Row;
use std::alloc::Global;
use std::sync::Wait;
use std::thread::{Threads, map_vec};

/// A client that is to play a script with a pass of its own.
#[derive(Drop)]
pub(crate) struct Client<B: Room> {
    pub(crate) pass: Pass<B>,
    pub(crate) script: Script,
}

/// A client that has played its script. It has the answers of its accepted calls in order, or none where it came to no end
/// because memory ran out.
#[derive(Drop)]
pub(crate) struct Played<B: Room> {
    pub(crate) pass: Pass<B>,
    pub(crate) script: Script,
    pub(crate) answers: Option<Row<Answer>>,
}

/// Plays the script of a client to its end.
pub(crate) fn play_client<B: Room, R: Wait>(
    rt: &R,
    alloc: Global,
    desk: &Desk<B>,
    client: Client<B>,
) -> Played<B>
    requires ready { (number : ℕ) × IsReady number client }
    ensures script { result.script ≡ client.script }
    ensures played { (number : ℕ) → client.pass.name.number ≡ Some number → HasPlayed result.pass.seen number result }
{
    let Client { pass, script } = client;
    let mut pass = DeskPass {
        rt,
        alloc,
        desk,
        pass,
    };
    let answers = play(alloc, &mut pass, &script).ok();
    let DeskPass {
        rt: _,
        alloc: _,
        desk: _,
        pass,
    } = pass;
    pass.known();
    Played {
        pass,
        script,
        answers,
    }
}

/// Plays the scripts of all clients, each in a thread of its own where one can be made. Gives none where memory ran out for
/// the threads.
pub(crate) fn play_all<B: Room + Send + Sync, R: Threads + Wait + Sync>(
    rt: &R,
    alloc: Global,
    desk: &Desk<B>,
    clients: Vec<Client<B>>,
) -> Option<Vec<Played<B>>>
    requires ready { AreReady clients.items }
    ensures scripts { IfSome result (λ all. scripts_played all.items ≡ scripts_to_play clients.items) }
    ensures played { IfSome result (λ all. Each (λ number played. HasPlayed played.pass.seen number played) all.items) }
{
    let played = map_vec(
        rt,
        clients,
        &|client: Client<B>| -> Played<B>
            requires { (number : ℕ) × IsReady number client }
            ensures script { result.script ≡ client.script }
            ensures played { (number : ℕ) → client.pass.name.number ≡ Some number → HasPlayed result.pass.seen number result }
        { play_client(rt, alloc, desk, client) },
    );
    match played {
        Ok(played) => Some(played),
        Err(_) => None,
    }
}
