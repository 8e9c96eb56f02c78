//! What the limits of a desk refuse, and what its shutdown refuses.
ghost use Rattle.std.specs.Prelude.{◌≡◌, ◌≤◌, length, IfOk, true};
ghost use Rattle.ask_history.specs.Engine.{has_file_names};
ghost use Rattle.work_queue.specs.Reloads.{reloaded_by};
ghost use Rattle.work_queue.specs.Refusal.{IsWithin};

use crate::calls::{ALL, reload};
use ask_desk::{Desk, Pass};
use ask_history::Call;
use counting_word::{Opened, Room};
use pc_terms::NoMemory;
use std::alloc::Global;
use std::marker::Brand;
use std::process::Abort;
use std::sync::Wait;
use std::test::Fail;
use work_queue::{Limits, PostRefused};

/// Two files, of 22 and 33 bytes.
#[derive(Clone, Copy)]
enum File {
    A,
    B,
}

use File::{A, B};

fn reload_of(alloc: Global, file: File) -> Result<Call, NoMemory>
    ensures few { IfOk result (λ call. length (reloaded_by call) ≤ 1) }
    ensures names { IfOk result (λ call. has_file_names call ≡ true) }
{
    match file {
        File::A => reload(alloc, "A.scala", "object A { val x = 1 }"),
        File::B => reload(alloc, "B.scala", "object B { val a = b; val b = 1 }"),
    }
}

type Refusals = (Option<PostRefused>, Option<PostRefused>);

/// Why the first reload is refused that is, and why one after the shutdown is.
fn refusals<R: Wait>(
    rt: &R,
    alloc: Global,
    limits: Limits,
    reloads: &[File],
) -> Result<Refusals, NoMemory>
    requires { IsWithin limits }
{
    let opened = Opened::new(alloc, limits)?;
    refusals_over::<Brand, R>(rt, alloc, opened, limits, reloads)
}

fn refusals_over<N: Room, R: Wait>(
    rt: &R,
    alloc: Global,
    opened: Opened,
    limits: Limits,
    reloads: &[File],
) -> Result<Refusals, NoMemory>
    requires within { IsWithin limits }
    requires table { opened.words.shared.table_id ≡ N.table }
    requires carried { opened.limits ≡ N.limits }
    requires limits { limits ≡ N.limits }
{
    let (desk, mut engine) = Desk::<N>::start(alloc, opened, limits)?;
    let mut pass = desk.new_pass(&mut engine);
    refusals_at(rt, alloc, &desk, &mut pass, engine.as_pass(), reloads)
}

fn refusals_at<N: Room, R: Wait>(
    rt: &R,
    alloc: Global,
    desk: &Desk<N>,
    pass: &mut Pass<N>,
    behind: &mut Pass<N>,
    reloads: &[File],
) -> Result<Refusals, NoMemory> {
    let first = first_refusal(rt, alloc, desk, pass, reloads)?;
    desk.close(rt, pass);
    let last = first_refusal(rt, alloc, desk, behind, &[A])?;
    Ok((first, last))
}

fn first_refusal<N: Room, R: Wait>(
    rt: &R,
    alloc: Global,
    desk: &Desk<N>,
    pass: &mut Pass<N>,
    reloads: &[File],
) -> Result<Option<PostRefused>, NoMemory> {
    for file in reloads {
        let call = reload_of(alloc, *file)?;
        if let Err((why, _)) = desk.post(rt, alloc, pass, 1, call) {
            return Ok(Some(why));
        }
    }
    Ok(None)
}

/// Holds what is refused of these reloads against what must be, and what is refused after the shutdown.
fn agree<R: Abort + AllocGlobal + Wait>(
    rt: &R,
    limits: Limits,
    reloads: &[File],
    first: Option<PostRefused>,
    last: PostRefused,
) -> Result<(), Fail>
    requires { IsWithin limits }
{
    let (refused, behind) = refusals(rt, rt.alloc(), limits, reloads)?;
    assert_eq!(rt; refused, first);
    assert_eq!(rt; behind, Some(last));
    Ok(())
}

#[test]
fn a_call_past_a_limit_is_refused_and_behind_the_shutdown_as_closed(
    rt: HostRuntime,
) -> Result<(), Fail> {
    let calls = Limits { calls: 2, ..ALL };
    let full = Some(PostRefused::CallsFull(2));
    agree(&rt, calls, &[A, A, A], full, PostRefused::Closed(2))?;
    let text = Limits { text: 30, ..ALL };
    let full = Some(PostRefused::TextFull(44));
    agree(&rt, text, &[A, A], full, PostRefused::Closed(1))?;
    let file = Limits { file: 21, ..ALL };
    let large = Some(PostRefused::TooLarge(22));
    agree(&rt, file, &[A], large, PostRefused::Closed(0))?;
    let names = Limits { names: 1, ..ALL };
    let full = Some(PostRefused::NamesFull(2));
    agree(&rt, names, &[A, B], full, PostRefused::Closed(1))?;
    let map = Limits { map: 40, ..ALL };
    let full = Some(PostRefused::MapFull(55));
    agree(&rt, map, &[A, B], full, PostRefused::Closed(1))?;
    agree(&rt, ALL, &[A, B, A], None, PostRefused::Closed(3))
}
