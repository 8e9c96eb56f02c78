ghost use Rattle.std.specs.Prelude.{◌≡◌, ◌≤◌, ◌++◌, ◌∷◌, [], length, IfOk, OnOk, IsTrue, true, false};
ghost use Rattle.ask_history.specs.Journal.{accepted, is_settled};
ghost use Rattle.ask_history.specs.Legal.{is_legal};
ghost use Rattle.ask_history.specs.Engine.{has_file_names, is_file_name};
ghost use Rattle.ask_history.specs.declared.calls.Call.TheVariants.{Reload};
ghost use Rattle.ask_history.specs.declared.events.Event.TheVariants.{Accept};
ghost use Rattle.work_queue.specs.Reloads.{reloaded_by};
ghost use Rattle.work_queue.specs.Refusal.{IsWithin};

use ask_history::{Answer, Call, Effect, Event, Mark};
use pc_terms::{MAX_SOURCE_BYTES, NoMemory, Row, Text};
use std::alloc::{AllocError, Global};
use std::fmt::Write;
use std::process::Abort;
use std::test::Fail;
use work_queue::{CancelSeen, Limits, PostRefused, Queue, Settling};

const ALL: Limits = Limits {
    calls: 65_536,
    text: 268_435_456,
    names: 1_024,
    map: 16_777_216,
    file: MAX_SOURCE_BYTES as u64,
};

const A: &str = "object A { val x = 1 }";

const B: &str = "object B { val a = b; val b = 1 }";

fn reload(alloc: Global, name: &str, text: &str) -> Result<Call, NoMemory>
    requires { is_file_name name.now ≡ true }
    ensures is { IfOk result (λ call. call ≡ Reload ((name.now, text.now) ∷ [])) }
    ensures few { IfOk result (λ call. length (reloaded_by call) ≤ 1) }
    ensures names { IfOk result (λ call. has_file_names call ≡ true) }
{
    let mut pairs = Row::new(alloc);
    pairs.push((Text::new(alloc, name)?, Text::new(alloc, text)?))?;
    Ok(Call::Reload(pairs))
}

fn type_at(alloc: Global, name: &str, offset: u32) -> Result<Call, NoMemory>
    requires { is_file_name name.now ≡ true }
    ensures few { IfOk result (λ call. length (reloaded_by call) ≤ 1) }
    ensures names { IfOk result (λ call. has_file_names call ≡ true) }
{
    Ok(Call::TypeAt(Text::new(alloc, name)?, offset))
}

/// An event in words, before its ticket and after it.
fn words_of(event: &Event) -> (&'static str, Option<u64>, &'static str) {
    match event {
        Event::Accept { ticket, .. } => ("accept", Some(*ticket), ""),
        Event::Cancel { ticket } => ("cancel", Some(*ticket), ""),
        Event::Close => ("close", None, ""),
        Event::Settle {
            ticket,
            mark: Mark::Done,
        } => ("settle", Some(*ticket), ""),
        Event::Settle {
            ticket,
            mark: Mark::NoMemory,
        } => ("settle", Some(*ticket), " nomem"),
        Event::Checked { .. } => ("checked", None, ""),
    }
}

fn push_event(shown: &mut String, event: &Event) -> Result<(), AllocError> {
    let (word, ticket, end) = words_of(event);
    shown.push_str(word)?;
    if let Some(ticket) = ticket {
        write!(shown, " {ticket}")?;
    }
    shown.push_str(end)?;
    shown.push_str(", ")?;
    Ok(())
}

/// The journal in words.
fn told(alloc: Global, events: &[Event]) -> Result<String, AllocError> {
    let mut shown = String::new(alloc);
    for event in events {
        push_event(&mut shown, event)?;
    }
    Ok(shown)
}

/// Holds the journal of a queue, in words, against what it must be.
fn agree(rt: &(impl Abort + AllocGlobal), queue: &Queue, words: &str) -> Result<(), Fail> {
    assert_eq!(rt; told(rt.alloc(), queue.journal())?.as_str(), words);
    Ok(())
}

/// Why the second of two reloads is refused.
fn second_refused(
    alloc: Global,
    queue: &mut Queue,
    name: &str,
    text: &str,
) -> Result<Option<PostRefused>, NoMemory>
    requires { is_file_name name.now ≡ true }
{
    let first = reload(alloc, "A.scala", A)?;
    let why = why_refused(queue, first);
    let second = reload(alloc, name, text)?;
    Ok(why.or(why_refused(queue, second)))
}

fn why_refused(queue: &mut Queue, call: Call) -> Option<PostRefused>
    requires few { length (reloaded_by call) ≤ 1 }
    requires names { has_file_names call ≡ true }
{
    match queue.post(0, 1, call) {
        Ok(_) => None,
        Err((why, _)) => Some(why),
    }
}

fn refused(
    alloc: Global,
    limits: Limits,
    name: &str,
    text: &str,
) -> Result<Option<PostRefused>, NoMemory>
    requires within { IsWithin limits }
    requires name { is_file_name name.now ≡ true }
{
    let mut queue = Queue::new(alloc, limits)?;
    second_refused(alloc, &mut queue, name, text)
}

#[test]
fn a_call_past_a_limit_is_refused(rt: HostRuntime) -> Result<(), Fail> {
    let alloc = rt.alloc();
    let text = Limits { text: 30, ..ALL };
    assert_eq!(rt;
        refused(alloc, text, "A.scala", A)?,
        Some(PostRefused::TextFull(44))
    );
    let file = Limits { file: 21, ..ALL };
    assert_eq!(rt;
        refused(alloc, file, "A.scala", A)?,
        Some(PostRefused::TooLarge(22))
    );
    let names = Limits { names: 1, ..ALL };
    assert_eq!(rt;
        refused(alloc, names, "B.scala", B)?,
        Some(PostRefused::NamesFull(2))
    );
    let map = Limits { map: 40, ..ALL };
    assert_eq!(rt;
        refused(alloc, map, "B.scala", B)?,
        Some(PostRefused::MapFull(55))
    );
    assert_eq!(rt; refused(alloc, ALL, "B.scala", B)?, None);
    Ok(())
}

fn post(queue: &mut Queue, tag: u64, call: Call) -> Result<u64, NoMemory>
    requires few { length (reloaded_by call) ≤ 1 }
    requires names { has_file_names call ≡ true }
    ensures ticket { IfOk result (λ ticket. ticket ≡ accepted queue.old.journal) }
    ensures ok { IfOk result (λ ticket. queue.new.journal ≡ queue.old.journal ++ Accept ticket 0 tag call ∷ []) }
    ensures legal { IsTrue (is_legal queue.new.journal) }
{
    match queue.post(0, tag, call) {
        Ok(ticket) => Ok(ticket),
        Err(_) => Err(NoMemory {}),
    }
}

fn ask(alloc: Global, queue: &mut Queue, tag: u64, offset: u32) -> Result<(), NoMemory> {
    let call = type_at(alloc, "A.scala", offset)?;
    post(queue, tag, call)?;
    Ok(())
}

/// Whether a third call is refused, which is an ask at 7.
fn third_refused(alloc: Global, queue: &mut Queue) -> Result<bool, NoMemory> {
    let third = type_at(alloc, "A.scala", 7)?;
    let refused = queue.post(0, 3, third);
    Ok(matches!(
        refused,
        Err((PostRefused::CallsFull(2), Call::TypeAt(_, 7)))
    ))
}

fn fill_with_two(rt: &(impl Abort + AllocGlobal), queue: &mut Queue) -> Result<(), Fail> {
    ask(rt.alloc(), queue, 1, 0)?;
    ask(rt.alloc(), queue, 2, 0)?;
    assert!(rt; third_refused(rt.alloc(), queue)?);
    assert_eq!(rt; queue.accepted(), 2);
    let taken = [queue.take_next(), queue.take_next(), queue.take_next()];
    assert_eq!(rt; taken, [Some(0), Some(1), None]);
    Ok(())
}

#[test]
fn the_third_of_two_calls_is_refused(rt: HostRuntime) -> Result<(), Fail> {
    let mut queue = Queue::new(rt.alloc(), Limits { calls: 2, ..ALL })?;
    fill_with_two(&rt, &mut queue)
}

/// Reloads text A, and settles that.
fn load(alloc: Global, queue: &mut Queue) -> Result<(), NoMemory>
    requires fresh { queue.old.journal ≡ [] }
    ensures settled { OnOk result (is_settled queue.new.journal 0 ≡ true) }
    ensures unsettled { OnOk result (is_settled queue.new.journal 1 ≡ false) }
    ensures count { OnOk result (accepted queue.new.journal ≡ 1) }
{
    let call = reload(alloc, "A.scala", A)?;
    let ticket = post(queue, 1, call)?;
    let (_, _) = queue.settle(ticket, Settling::Value(Answer::NoTree));
    Ok(())
}

/// Loads text A, and asks about it.
fn load_and_ask(alloc: Global, queue: &mut Queue) -> Result<(), NoMemory>
    requires fresh { queue.old.journal ≡ [] }
    ensures settled { OnOk result (is_settled queue.new.journal 0 ≡ true) }
    ensures unsettled { OnOk result (is_settled queue.new.journal 1 ≡ false) }
    ensures count { OnOk result (accepted queue.new.journal ≡ 2) }
    ensures legal { OnOk result (IsTrue (is_legal queue.new.journal)) }
{
    let call = type_at(alloc, "A.scala", 19)?;
    load(alloc, queue)?;
    post(queue, 2, call)?;
    Ok(())
}

fn word_of(answer: Answer) -> &'static str {
    match answer {
        Answer::Cancelled => "cancelled",
        Answer::NoTree => "notree",
        Answer::NoMemory => "nomemory",
        _ => "another answer",
    }
}

fn settle_ask(queue: &mut Queue) -> (Effect, &'static str)
    requires settled { is_settled queue.old.journal 0 ≡ true }
    requires unsettled { is_settled queue.old.journal 1 ≡ false }
    requires count { accepted queue.old.journal ≡ 2 }
    requires legal { IsTrue (is_legal queue.old.journal) }
    ensures count { accepted queue.new.journal ≡ 2 }
{
    let (effect, answer) = queue.settle(1, Settling::Value(Answer::NoTree));
    (effect, word_of(answer))
}

fn cancel_before(rt: &(impl Abort + AllocGlobal), queue: &mut Queue) -> Result<(), Fail>
    requires fresh { queue.old.journal ≡ [] }
{
    load_and_ask(rt.alloc(), queue)?;
    assert_eq!(rt; queue.cancel(1), CancelSeen::Marked(3));
    assert!(rt; queue.is_cancelled(1));
    assert_eq!(rt; settle_ask(queue), (Effect::Dropped, "cancelled"));
    Ok(())
}

fn cancel_after(rt: &(impl Abort + AllocGlobal), queue: &mut Queue) -> Result<(), Fail>
    requires fresh { queue.old.journal ≡ [] }
{
    load_and_ask(rt.alloc(), queue)?;
    assert_eq!(rt; settle_ask(queue), (Effect::Dropped, "notree"));
    assert_eq!(rt; queue.cancel(1), CancelSeen::Late(3));
    Ok(())
}

fn shut_down(rt: &(impl Abort + AllocGlobal), queue: &mut Queue) -> Result<(), Fail>
    requires fresh { queue.old.journal ≡ [] }
{
    load(rt.alloc(), queue)?;
    for tag in 2..=4 {
        ask(rt.alloc(), queue, tag, 19)?;
    }
    let closed = [queue.close(), queue.close()];
    assert_eq!(rt; closed, [5, 5]);
    assert_eq!(rt; queue.take_next(), None);
    let late = type_at(rt.alloc(), "A.scala", 19)?;
    assert_eq!(rt; why_refused(queue, late), Some(PostRefused::Closed(5)));
    Ok(())
}

fn reload_without_memory(rt: &(impl Abort + AllocGlobal), queue: &mut Queue) -> Result<(), Fail>
    requires fresh { queue.old.journal ≡ [] }
{
    let call = reload(rt.alloc(), "A.scala", A)?;
    let ticket = post(queue, 1, call)?;
    let (effect, answer) = queue.settle(ticket, Settling::NoMemory);
    assert_eq!(rt; (effect, word_of(answer)), (Effect::Dropped, "nomemory"));
    Ok(())
}

/// Loads a file, and notes that it was checked.
fn check(alloc: Global, queue: &mut Queue, name: &str, text: &str) -> Result<(), NoMemory>
    requires name { is_file_name name.now ≡ true }
    requires fresh { queue.old.journal ≡ [] }
{
    let call = reload(alloc, name, text)?;
    let file = Text::new(alloc, name)?;
    let ticket = post(queue, 1, call)?;
    let (_, _) = queue.settle(ticket, Settling::Value(Answer::NoTree));
    queue.checked(&file)
}

/// What is done with a new queue.
#[derive(Clone, Copy)]
enum Scene {
    CancelBefore,
    CancelAfter,
    ShutDown,
    NoMemory,
    Check,
}

fn act(rt: &(impl Abort + AllocGlobal), queue: &mut Queue, scene: Scene) -> Result<(), Fail>
    requires fresh { queue.old.journal ≡ [] }
{
    match scene {
        Scene::CancelBefore => cancel_before(rt, queue),
        Scene::CancelAfter => cancel_after(rt, queue),
        Scene::ShutDown => shut_down(rt, queue),
        Scene::NoMemory => reload_without_memory(rt, queue),
        Scene::Check => Ok(check(rt.alloc(), queue, "A.scala", A)?),
    }
}

fn act_and_agree(
    rt: &(impl Abort + AllocGlobal),
    queue: &mut Queue,
    scene: Scene,
    words: &str,
) -> Result<(), Fail>
    requires fresh { queue.old.journal ≡ [] }
{
    act(rt, queue, scene)?;
    agree(rt, queue, words)
}

fn play(rt: &(impl Abort + AllocGlobal), scene: Scene, words: &str) -> Result<(), Fail> {
    let mut queue = Queue::new(rt.alloc(), ALL)?;
    act_and_agree(rt, &mut queue, scene, words)
}

#[test]
fn a_cancelled_ask_is_answered_so(rt: HostRuntime) -> Result<(), Fail> {
    play(
        &rt,
        Scene::CancelBefore,
        "accept 0, settle 0, accept 1, cancel 1, settle 1, ",
    )
}

#[test]
fn a_cancel_after_the_answer_is_late(rt: HostRuntime) -> Result<(), Fail> {
    play(
        &rt,
        Scene::CancelAfter,
        "accept 0, settle 0, accept 1, settle 1, ",
    )
}

#[test]
fn a_shutdown_settles_all_open_calls(rt: HostRuntime) -> Result<(), Fail> {
    play(
        &rt,
        Scene::ShutDown,
        "accept 0, settle 0, accept 1, accept 2, accept 3, close, settle 1, settle 2, settle 3, ",
    )
}

#[test]
fn a_mutation_without_memory_is_dropped(rt: HostRuntime) -> Result<(), Fail> {
    play(&rt, Scene::NoMemory, "accept 0, settle 0 nomem, ")
}

#[test]
fn a_check_is_noted(rt: HostRuntime) -> Result<(), Fail> {
    play(&rt, Scene::Check, "accept 0, settle 0, checked, ")
}
