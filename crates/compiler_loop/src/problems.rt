ghost use Rattle.std.specs.Prelude.{◌≡◌, IfOk};
ghost use Rattle.compiler_loop.specs.LoadedView.{files_of, IsUnchanged};
ghost use Rattle.compiler_loop.specs.ThinProblems.{map_problems, unread_problem};

use crate::loaded::LoadedFiles;
use pc_terms::{Code, NoMemory, Problem, Row, Span, Text};
use std::alloc::Global;

/// The problems of each of the loaded files.
pub fn problems(alloc: Global, loaded: &mut LoadedFiles) -> Result<Row<Problem>, NoMemory>
    ensures problems { IfOk result (λ found. found ≡ map_problems (files_of loaded.old)) }
    ensures files { IsUnchanged loaded.old loaded.new }
{
    let mut found = Row::new(alloc);
    if !loaded.is_thin()? {
        found.push(unread(alloc)?)?;
    }
    Ok(found)
}

fn unread(alloc: Global) -> Result<Problem, NoMemory>
    ensures { IfOk result (λ problem. problem ≡ unread_problem) }
{
    Ok(Problem {
        code: Code::P1,
        span: Span { start: 0, end: 0 },
        text: Text::new(alloc, "not a statement of the profile")?,
    })
}
