//! The clients' part of a session: all play, and then the session is shut down.
ghost use Rattle.std.specs.Prelude.{◌≡◌, length, IfSome};
ghost use Rattle.std.specs.List.{AllZip};
ghost use Rattle.session_threads.specs.Passes.{IsNew, Meeting};
ghost use Rattle.session_threads.specs.Clients.{AreReady, Each, HasPlayed, IsMet, HaveMet, scripts_played, scripts_to_play};
ghost use Rattle.session_threads.specs.Ended.{HaveEnded};

use crate::clients::{Client, Played, play_all};
use ask_desk::{Desk, Pass};
use counting_word::Room;
use std::alloc::Global;
use std::sync::Wait;
use std::thread::Threads;

/// The clients' part of a session that is shut down: the pass that shut it down, and what the clients played. Where memory ran
/// out for their threads there is none of this.
#[derive(Drop)]
pub(crate) struct Ended<B: Room> {
    pub(crate) closing: Pass<B>,
    pub(crate) clients: Option<Vec<Played<B>>>,
}

// A pass and that of a client then know what either has seen.
pub(crate) fn meet_one<B: Room>(desk: &Desk<B>, pass: &mut Pass<B>, client: &mut Played<B>)
    ensures { HaveMet pass.old pass.new client.old client.new }
{
    desk.meet(pass, &mut client.pass);
}

/// A pass meets that of each client, and then knows what each has seen.
pub(crate) fn meet_all<B: Room>(desk: &Desk<B>, pass: &mut Pass<B>, clients: &mut Vec<Played<B>>)
    ensures pass { Meeting pass.old pass.new }
    ensures clients { AllZip (IsMet pass.old.seen pass.new.seen) clients.old.items clients.new.items }
{
    for client in clients.iter_mut() {
        meet_one(desk, pass, client);
    }
}

// All clients play, and then the closing pass meets each of them.
fn play_and_meet<B: Room + Send + Sync, R: Threads + Wait + Sync>(
    rt: &R,
    alloc: Global,
    desk: &Desk<B>,
    closing: &mut Pass<B>,
    clients: Vec<Client<B>>,
) -> Option<Vec<Played<B>>>
    requires ready { AreReady clients.items }
    ensures closing { Meeting closing.old closing.new }
    ensures scripts { IfSome result (λ all. scripts_played all.items ≡ scripts_to_play clients.items) }
    ensures played { IfSome result (λ all. Each (HasPlayed closing.new.seen) all.items) }
{
    match play_all(rt, alloc, desk, clients) {
        Some(played) => {
            let mut played = played;
            meet_all(desk, closing, &mut played);
            Some(played)
        }
        None => None,
    }
}

/// All clients play their scripts. When all have ended, the closing pass meets each of their passes and then shuts the session
/// down, unless a client did.
pub(crate) fn end_clients<B: Room + Send + Sync, R: Threads + Wait + Sync>(
    rt: &R,
    alloc: Global,
    desk: &Desk<B>,
    closing: Pass<B>,
    clients: Vec<Client<B>>,
) -> Ended<B>
    requires ready { AreReady clients.items }
    requires closing { IsNew closing (length clients.items) }
    ensures ended { HaveEnded (length clients.items) result }
    ensures scripts { IfSome result.clients (λ all. scripts_played all.items ≡ scripts_to_play clients.items) }
{
    let mut closing = closing;
    let clients = play_and_meet(rt, alloc, desk, &mut closing, clients);
    closing.known();
    desk.close(rt, &mut closing);
    closing.known();
    Ended { closing, clients }
}
