ghost use Rattle.std.specs.Prelude.{◌≡◌, [], ◌∷◌, ◌++◌, OnOk, OnErr};

use pc_terms::{Failed, NoMemory, Problem, Row, Text};
use report_hub::{Hub, Reporter};
use std::alloc::Global;
use std::process::Abort;
use std::sync::Arc;
use std::sync::atomic::{AtomicU64, Ordering};
use std::test::Fail;

// It writes its name, a digit, at the end of the log: when it is told, and when it is dropped. It
// takes no problems, and fails at one of its calls.
struct Listener {
    name: u64,
    fails_at: u64,
    calls: u64,
    told: Row<(Text, Row<Problem>)>,
    faults: u64,
    alloc: Global,
    log: Arc<AtomicU64>,
}

impl Listener {
    fn keep(&mut self, file: &Text, problems: &Row<Problem>) -> Result<(), NoMemory>
        ensures ok { OnOk result ((self.new.told ≡ self.old.told ++ (file.now, problems.now) ∷ [])
            × (self.new.faults ≡ self.old.faults)) }
        ensures err { OnErr result ((self.new.told ≡ self.old.told) × (self.new.faults ≡ self.old.faults)) }
    {
        if !problems.is_empty() || self.calls == self.fails_at {
            return Err(NoMemory {});
        }
        let file = Text::new(self.alloc, file.as_str())?;
        self.told.push((file, Row::new(self.alloc)))
    }

    fn write(&self) {
        let written = self.log.load(Ordering::SeqCst);
        self.log.store(
            written.wrapping_mul(10).wrapping_add(self.name),
            Ordering::SeqCst,
        );
    }
}

impl Reporter for Listener {
    ghost told = { λ it. it.told };

    ghost faults = { λ it. it.faults };

    fn report(&mut self, file: &Text, problems: &Row<Problem>) -> Result<(), Failed> {
        self.calls = self.calls.wrapping_add(1);
        if self.keep(file, problems).is_err() {
            self.faults = self.faults.saturating_add(1);
            return Err(Failed {});
        }
        self.write();
        Ok(())
    }
}

impl Drop for Listener {
    fn drop(self) {
        self.write();
        let Listener {
            name: _,
            fails_at: _,
            calls: _,
            told: _,
            faults: _,
            alloc: _,
            log: _,
        } = self;
    }
}

fn listening(
    alloc: Global,
    name: u64,
    fails_at: u64,
    log: &Arc<AtomicU64>,
) -> Result<Listener, NoMemory> {
    Ok(Listener {
        name,
        fails_at,
        calls: 0,
        told: Row::new(alloc),
        faults: 0,
        alloc,
        log: log.clone()?,
    })
}

// The number of a reporter that is attached.
fn attached(
    alloc: Global,
    hub: &mut Hub,
    name: u64,
    fails_at: u64,
    log: &Arc<AtomicU64>,
) -> Result<Option<usize>, NoMemory> {
    let listener = Box::new(alloc, listening(alloc, name, fails_at, log)?)?;
    Ok(hub.attach(listener).ok())
}

fn attach_two(
    alloc: Global,
    hub: &mut Hub,
    log: &Arc<AtomicU64>,
) -> Result<[Option<usize>; 2], NoMemory> {
    let first = attached(alloc, hub, 1, 2, log)?;
    let second = attached(alloc, hub, 2, 9, log)?;
    Ok([first, second])
}

fn tell_and_drop(
    rt: &impl Abort,
    mut hub: Hub,
    log: &AtomicU64,
    file: &Text,
    problems: &Row<Problem>,
) {
    for _ in 0..3 {
        hub.tell(file, problems);
    }
    assert_eq!(rt; log.load(Ordering::SeqCst), 12_212);

    let given = hub.detach(0);
    assert!(rt; given.is_some());
    assert!(rt; hub.detach(0).is_none());
    assert!(rt; hub.detach(2).is_none());
    hub.tell(file, problems);
    assert_eq!(rt; log.load(Ordering::SeqCst), 122_122);
    drop(hub);
    assert_eq!(rt; log.load(Ordering::SeqCst), 1_221_222);
    drop(given);
    assert_eq!(rt; log.load(Ordering::SeqCst), 12_212_221);
}

// The first of two reporters fails at the second of three checks: it is told two, and the other one all three.
// It is given back once, and the other one is dropped with the hub.
#[test]
fn a_reporter_fails_once(rt: HostRuntime) -> Result<(), Fail> {
    let alloc = rt.alloc();
    let file = Text::new(alloc, "A.scala")?;
    let problems = Row::new(alloc);
    let log = Arc::new(alloc, AtomicU64::new(0))?;
    let mut hub = Hub::new(alloc)?;
    let numbers = attach_two(alloc, &mut hub, &log)?;
    assert_eq!(rt; numbers, [Some(0), Some(1)]);
    tell_and_drop(&rt, hub, &log, &file, &problems);
    Ok(())
}
