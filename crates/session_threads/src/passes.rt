//! The passes of a session: one for each client, one that shuts it down, one that is spare, and the engine's.
ghost use Rattle.std.specs.Prelude.{◌≡◌, ◌≤◌, ◌+◌, length, IfOk};
ghost use Rattle.session_threads.specs.Passes.{IsNew, IsEngines};
ghost use Rattle.session_threads.specs.Clients.{AreReady, CanPlayAll, scripts_to_play};

use crate::clients::Client;
use ask_desk::{Desk, EnginePass, Pass};
use ask_history::Script;
use counting_word::Room;
use pc_terms::{NoMemory, Row};
use std::alloc::Global;

/// The passes of a session.
#[derive(Drop)]
pub(crate) struct Passes<B: Room> {
    /// One for each client, with its script, in the order of the scripts.
    pub(crate) clients: Vec<Client<B>>,
    /// It shuts the session down once all clients have ended.
    pub(crate) closing: Pass<B>,
    /// It shuts the session down where no client could begin.
    pub(crate) spare: Pass<B>,
    pub(crate) engine: EnginePass<B>,
}

// A client for each script, in order.
fn clients_of<B: Room>(
    alloc: Global,
    desk: &Desk<B>,
    engine: &mut EnginePass<B>,
    scripts: Row<Script>,
) -> Result<Vec<Client<B>>, NoMemory>
    requires engine { IsEngines engine.old.pass engine.old.made 0 }
    requires few { length scripts ≤ 32 }
    requires can { CanPlayAll scripts }
    ensures engine { IfOk result (λ clients. IsEngines engine.new.pass engine.new.made (length scripts)) }
    ensures scripts { IfOk result (λ clients. scripts_to_play clients.items ≡ scripts) }
    ensures ready { IfOk result (λ clients. AreReady clients.items) }
{
    let scripts = scripts.into_vec();
    let mut clients = Vec::new(alloc);
    clients.reserve(scripts.len())?;
    for script in scripts {
        let pass = desk.new_pass(engine);
        clients.push_reserved(Client { pass, script });
    }
    Ok(clients)
}

impl<B: Room> Passes<B> {
    /// Makes the passes of clients that are to play these scripts.
    pub(crate) fn of(
        alloc: Global,
        desk: &Desk<B>,
        engine: EnginePass<B>,
        scripts: Row<Script>,
    ) -> Result<Passes<B>, NoMemory>
        requires engine { IsEngines engine.pass engine.made 0 }
        requires few { length scripts ≤ 32 }
        requires can { CanPlayAll scripts }
        ensures scripts { IfOk result (λ passes. scripts_to_play passes.clients.items ≡ scripts) }
        ensures ready { IfOk result (λ passes. AreReady passes.clients.items) }
        ensures closing { IfOk result (λ passes. IsNew passes.closing (length scripts)) }
        ensures spare { IfOk result (λ passes. IsNew passes.spare (length scripts + 1)) }
        ensures engine { IfOk result (λ passes. IsEngines passes.engine.pass passes.engine.made (length scripts + 2)) }
    {
        let mut engine = engine;
        let clients = clients_of(alloc, desk, &mut engine, scripts)?;
        let closing = desk.new_pass(&mut engine);
        let spare = desk.new_pass(&mut engine);
        Ok(Passes {
            clients,
            closing,
            spare,
            engine,
        })
    }
}
