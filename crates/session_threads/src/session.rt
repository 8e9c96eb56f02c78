//! A session of clients, from their scripts to what is left of it.
ghost use Rattle.std.specs.Prelude.{◌≡◌, ◌≤◌, length, ◌∷◌, [], Some, IfOk, IfErr, IfSome, ℕ, List};
ghost use Rattle.ask_history.specs.Engine.{fresh_state};
ghost use Rattle.ask_history.specs.Journal.{findings};
ghost use Rattle.ask_history.specs.declared.script.Script.{Script as Scripted};
ghost use Rattle.desk_driver.specs.Drives.{findings_in};
ghost use Rattle.report_hub.specs.Hub.{reporters_of, of_box, IsToldMost, OfEach};
ghost use Rattle.work_queue.specs.Refusal.{IsWithin};
ghost use Rattle.session_threads.specs.Clients.{AreReady, CanPlayAll, scripts_played, scripts_to_play};
ghost use Rattle.session_threads.specs.Ended.{HaveEnded};
ghost use Rattle.session_threads.specs.Left.{IsLeft};
ghost use Rattle.session_threads.specs.Parts.{ArePasses, AreParts, RoseIfRefused};
ghost use Rattle.session_threads.specs.Passes.{IsEngines, IsNew};
ghost use Rattle.session_threads.specs.Served.{HasServed};
ghost use Rattle.session_threads.specs.Sessions.{IsSession, RoseIfUnbegun};
ghost use Rattle.session_threads.specs.declared.fate.Fate.TheVariants as became;

use crate::closing::{Ended, end_clients};
use crate::fate::Fate;
use crate::left::{Left, left_played, left_unbegun, shut_unbegun};
use crate::parts::{ClientsPart, Parts};
use crate::passes::Passes;
use crate::serving::{Served, serve};
use ask_desk::Desk;
use ask_history::{Engine, Journal, Script};
use counting_word::{Opened, Room};
use pc_outside::{Gate, NotBegun, Spawner, beside};
use pc_terms::{NoMemory, Problem, Row};
use report_hub::{Hub, Reporter};
use std::alloc::Global;
use std::marker::Brand;
use std::sync::Wait;
use std::thread::Threads;
use work_queue::Limits;

/// A session that was played: its journal, what became of its clients, and what its checks found; and the reporter.
#[derive(Drop)]
pub(crate) struct Session {
    pub(crate) journal: Journal,
    pub(crate) fate: Fate,
    pub(crate) found: Row<Row<Problem>>,
    pub(crate) reporter: Box<dyn Reporter + Send>,
}

// The desk of a session, and its passes.
fn desk_of<B: Room>(
    alloc: Global,
    opened: Opened,
    limits: Limits,
    scripts: Row<Script>,
) -> Result<(Desk<B>, Passes<B>), NoMemory>
    requires within { IsWithin limits }
    requires table { opened.words.shared.table_id ≡ B.table }
    requires carried { opened.limits ≡ B.limits }
    requires limits { limits ≡ B.limits }
    requires few { length scripts ≤ 32 }
    requires can { CanPlayAll scripts }
    ensures { IfOk result (λ made. ArePasses scripts made.1) }
{
    let (desk, engine) = Desk::<B>::start(alloc, opened, limits)?;
    let passes = Passes::of(alloc, &desk, engine, scripts)?;
    Ok((desk, passes))
}

// Runs a closure.
fn run<A, F: FnOnce() -> A>(f: F) -> A
    requires { F.pre f }
    ensures { F.post f result }
{
    f()
}

// The engine serves beside the clients. Where no thread can be started for them, the spare pass shuts the session down, and
// then the engine serves alone, and finds it shut down.
fn play_parts<
    B: Room + Send + Sync,
    R: Threads + Wait + Sync,
    S: Spawner,
    G: Gate + Send,
    N: Engine + Send,
>(
    rt: &R,
    alloc: Global,
    desk: &Desk<B>,
    passes: Passes<B>,
    engine: &mut N,
    hub: Hub,
    spawner: &mut S,
    gate: &mut G,
) -> Parts<B>
    requires passes { (scripts : List Scripted) × ArePasses scripts passes }
    requires fresh { N.state engine.old ≡ fresh_state }
    ensures parts { (scripts : List Scripted) → ArePasses scripts passes → AreParts N.answer_of N.problems_of scripts result }
    ensures told { OfEach (IsToldMost (of_box told) (of_box (λ z. (Reporter-dyn z).faults z.1)) (findings_in result.served.pass.pass.seen)) (reporters_of hub) (reporters_of result.served.hub) }
    ensures counts { RoseIfRefused result.clients (S.faults spawner.old) (S.faults spawner.new) }
{
    let Passes {
        clients,
        closing,
        spare,
        engine: pass,
    } = passes;
    let mut spare = spare;
    let begun = beside(
        spawner,
        rt,
        || -> Served<B>
            requires { IsEngines pass.pass pass.made pass.made × (N.state engine.now ≡ fresh_state) }
            ensures served { HasServed N.answer_of N.problems_of pass.made result.pass.pass result.found }
            ensures told { OfEach (IsToldMost (of_box told) (of_box (λ z. (Reporter-dyn z).faults z.1)) (findings_in result.pass.pass.seen)) (reporters_of hub) (reporters_of result.hub) }
        { serve(rt, alloc, desk, pass, hub, engine, gate) },
        || -> Ended<B>
            requires { AreReady clients.items × IsNew closing (length clients.items) }
            ensures ended { HaveEnded (length clients.items) result }
            ensures scripts { IfSome result.clients (λ all. scripts_played all.items ≡ scripts_to_play clients.items) }
        { end_clients(rt, alloc, desk, closing, clients) },
    );
    match begun {
        Ok(both) => {
            let (served, ended) = both;
            Parts {
                served,
                clients: ClientsPart::Ended(ended),
                spare,
            }
        }
        Err(back) => {
            let NotBegun { f, g: _ } = back;
            let index = shut_unbegun(rt, desk, &mut spare);
            Parts {
                served: run(f),
                clients: ClientsPart::Unbegun(index),
                spare,
            }
        }
    }
}

// What is left of a session of these parts.
fn left_of<B: Room, N: Engine>(alloc: Global, desk: Desk<B>, parts: Parts<B>) -> Left
    ensures left { (scripts : List Scripted) → AreParts N.answer_of N.problems_of scripts parts → IsLeft N.answer_of N.problems_of scripts parts.served.pass.pass.seen result }
    ensures hub { reporters_of result.hub ≡ reporters_of parts.served.hub }
    ensures counts { (before now : ℕ) → RoseIfRefused parts.clients before now → RoseIfUnbegun result.fate before now }
{
    let Parts {
        served,
        clients,
        spare,
    } = parts;
    match clients {
        ClientsPart::Ended(ended) => left_played::<B, N>(alloc, desk, served, ended, spare),
        ClientsPart::Unbegun(index) => left_unbegun::<B, N>(desk, served, spare, index),
    }
}

// No session began.
fn unopened(alloc: Global, hub: Hub) -> Left
    ensures fate { result.fate ≡ became.Unopened }
    ensures journal { result.journal.events ≡ [] }
    ensures found { result.found ≡ [] }
    ensures hub { reporters_of result.hub ≡ reporters_of hub }
{
    Left {
        journal: Journal {
            events: Row::new(alloc),
        },
        fate: Fate::Unopened,
        found: Row::new(alloc),
        hub,
    }
}

// Plays a session at a desk that is made for it.
fn play_at<
    B: Room + Send + Sync,
    R: Threads + Wait + Sync,
    S: Spawner,
    G: Gate + Send,
    N: Engine + Send,
>(
    rt: &R,
    alloc: Global,
    opened: Opened,
    limits: Limits,
    scripts: Row<Script>,
    engine: &mut N,
    hub: Hub,
    spawner: &mut S,
    gate: &mut G,
) -> Left
    requires within { IsWithin limits }
    requires table { opened.words.shared.table_id ≡ B.table }
    requires carried { opened.limits ≡ B.limits }
    requires limits { limits ≡ B.limits }
    requires few { length scripts ≤ 32 }
    requires can { CanPlayAll scripts }
    requires fresh { N.state engine.old ≡ fresh_state }
    ensures session { IsSession N.answer_of N.problems_of scripts result.fate result.journal.events result.found }
    ensures told { OfEach (IsToldMost (of_box told) (of_box (λ z. (Reporter-dyn z).faults z.1)) (findings N.problems_of result.journal.events)) (reporters_of hub) (reporters_of result.hub) }
    ensures counts { RoseIfUnbegun result.fate (S.faults spawner.old) (S.faults spawner.new) }
{
    let (desk, passes) = match desk_of::<B>(alloc, opened, limits, scripts) {
        Ok(made) => made,
        Err(NoMemory {}) => return unopened(alloc, hub),
    };
    let parts = play_parts(rt, alloc, &desk, passes, engine, hub, spawner, gate);
    left_of::<B, N>(alloc, desk, parts)
}

// Plays a session with a hub. Its desk takes on as much as any may.
fn play_told<R: Threads + Wait + Sync, S: Spawner, G: Gate + Send, N: Engine + Send>(
    rt: &R,
    alloc: Global,
    scripts: Row<Script>,
    engine: &mut N,
    hub: Hub,
    spawner: &mut S,
    gate: &mut G,
) -> Left
    requires few { length scripts ≤ 32 }
    requires can { CanPlayAll scripts }
    requires fresh { N.state engine.old ≡ fresh_state }
    ensures session { IsSession N.answer_of N.problems_of scripts result.fate result.journal.events result.found }
    ensures told { OfEach (IsToldMost (of_box told) (of_box (λ z. (Reporter-dyn z).faults z.1)) (findings N.problems_of result.journal.events)) (reporters_of hub) (reporters_of result.hub) }
    ensures counts { RoseIfUnbegun result.fate (S.faults spawner.old) (S.faults spawner.new) }
{
    let limits = Limits {
        calls: 65_536,
        text: 268_435_456,
        names: 1024,
        map: 16_777_216,
        file: 262_144,
    };
    match Opened::new(alloc, limits) {
        Ok(opened) => play_at::<Brand, R, S, G, N>(
            rt, alloc, opened, limits, scripts, engine, hub, spawner, gate,
        ),
        Err(NoMemory {}) => unopened(alloc, hub),
    }
}

// Nothing was played.
fn nothing(alloc: Global, reporter: Box<dyn Reporter + Send>) -> Session
    ensures fate { result.fate ≡ became.Unopened }
    ensures journal { result.journal.events ≡ [] }
    ensures found { result.found ≡ [] }
    ensures reporter { result.reporter ≡ reporter }
{
    Session {
        journal: Journal {
            events: Row::new(alloc),
        },
        fate: Fate::Unopened,
        found: Row::new(alloc),
        reporter,
    }
}

/// Plays a session of clients with these scripts on threads, with the reporter attached, and gives it back.
pub(crate) fn play_session<R: Threads + Wait + Sync, S: Spawner, G: Gate + Send, N: Engine + Send>(
    rt: &R,
    alloc: Global,
    scripts: Row<Script>,
    engine: &mut N,
    spawner: &mut S,
    gate: &mut G,
    reporter: Box<dyn Reporter + Send>,
) -> Session
    requires few { length scripts ≤ 32 }
    requires can { CanPlayAll scripts }
    requires fresh { N.state engine.old ≡ fresh_state }
    ensures session { IsSession N.answer_of N.problems_of scripts result.fate result.journal.events result.found }
    ensures told { IsToldMost told (λ b. (Reporter-box b).faults b.value) (findings N.problems_of result.journal.events) reporter result.reporter }
    ensures counts { RoseIfUnbegun result.fate (S.faults spawner.old) (S.faults spawner.new) }
{
    let mut hub = match Hub::new(alloc) {
        Ok(hub) => hub,
        Err(NoMemory {}) => return nothing(alloc, reporter),
    };
    let number = match hub.attach(reporter) {
        Ok(number) => number,
        Err(reporter) => return nothing(alloc, reporter),
    };
    let Left {
        journal,
        fate,
        found,
        hub,
    } = play_told(rt, alloc, scripts, engine, hub, spawner, gate);
    let mut hub = hub;
    match hub.detach(number) {
        Some(reporter) => Session {
            journal,
            fate,
            found,
            reporter,
        },
        None => unreachable!(),
    }
}
