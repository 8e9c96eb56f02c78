//! What `for` is rewritten to (SLS 6.19).

ghost use Rattle.std.specs.Prelude.{◌≡◌, IfOk};
ghost use Rattle.source_grammar.specs.Comprehensions as grammar;
ghost use Rattle.tree_lower.specs.Comprehending as spec;
ghost use Rattle.tree_lower.specs.Lowering.{changed};

use crate::copies::hidden;
use crate::placeholders::lambda_param;
use crate::trees::{added, detailed, enclosing, pair, span_in, unlabelled};
use parse_parts::built::{Tall, node};
use parse_parts::stack::Stack;
use parse_parts::steps::alone;
use pc_terms::{NoMemory, Row, Span, Text, TreeKind};
use positioned_trees::Detail;
use std::alloc::Global;

/// `Pat <- Expr {[sep] if Infix}`
#[derive(Debug, Drop)]
pub struct Generator {
    pub pattern: Option<Tall>,
    pub from: Option<Tall>,
    pub guards: Row<Option<Tall>>,
}

fn is_variable(pattern: &Option<Tall>) -> bool
    ensures { result ≡ spec.is_variable_in pattern.now }
{
    match pattern {
        Some(tall) => matches!(tall.tree.kind, TreeKind::Bind) && tall.tree.kids.is_empty(),
        None => false,
    }
}

fn around(a: &Option<Tall>, b: &Option<Tall>) -> Span
    ensures { result ≡ spec.around a.now b.now }
{
    enclosing(span_in(a), span_in(b))
}

fn param_of(pattern: Option<Tall>) -> Option<Tall>
    ensures { result ≡ changed grammar.param_of pattern }
{
    let mut param = pattern?;
    param.tree.kind = TreeKind::Param;
    param.tree.detail = lambda_param(true);
    Some(param)
}

fn function_of(
    alloc: Global,
    pattern: Option<Tall>,
    body: Option<Tall>,
) -> Result<Option<Tall>, NoMemory>
    ensures { IfOk result (λ tall. tall ≡ spec.function_of pattern body) }
{
    let span = around(&pattern, &body);
    let kids = pair(alloc, param_of(pattern), body)?;
    Ok(added(unlabelled(alloc, TreeKind::Function, span, kids)))
}

fn one_case(
    alloc: Global,
    span: Span,
    pattern: Option<Tall>,
    body: Option<Tall>,
) -> Result<Option<Tall>, NoMemory>
    ensures { IfOk result (λ tall. tall ≡ spec.one_case span pattern body) }
{
    let label = Text::new(alloc, "case")?;
    let case = node(
        TreeKind::Case,
        label,
        span,
        span,
        pair(alloc, pattern, body)?,
    );
    Ok(added(detailed(case, Detail::Case { has_guard: false })))
}

fn cases_of(
    alloc: Global,
    pattern: Option<Tall>,
    body: Option<Tall>,
) -> Result<Option<Tall>, NoMemory>
    ensures { IfOk result (λ tall. tall ≡ spec.cases_of pattern body) }
{
    let span = around(&pattern, &body);
    let case = one_case(alloc, span, pattern, body)?;
    let kids = alone(alloc, case)?;
    Ok(added(unlabelled(alloc, TreeKind::CaseFunction, span, kids)))
}

// A variable is the parameter of a function; any other pattern is that of a case.
fn taking(
    alloc: Global,
    pattern: Option<Tall>,
    body: Option<Tall>,
) -> Result<Option<Tall>, NoMemory>
    ensures { IfOk result (λ tall. tall ≡ spec.taking pattern body) }
{
    if is_variable(&pattern) {
        function_of(alloc, pattern, body)
    } else {
        cases_of(alloc, pattern, body)
    }
}

fn added_select(
    alloc: Global,
    receiver: Option<Tall>,
    method: &str,
) -> Result<Option<Tall>, NoMemory>
    ensures { IfOk result (λ tall. tall ≡ spec.added_select receiver method.now) }
{
    let place = span_in(&receiver);
    let label = Text::new(alloc, method)?;
    let kids = alone(alloc, receiver)?;
    Ok(added(node(TreeKind::Select, label, place, place, kids)))
}

fn added_call(
    alloc: Global,
    receiver: Option<Tall>,
    method: &str,
    arg: Option<Tall>,
) -> Result<Option<Tall>, NoMemory>
    ensures { IfOk result (λ tall. tall ≡ spec.added_call receiver method.now arg) }
{
    let span = around(&receiver, &arg);
    let select = added_select(alloc, receiver, method)?;
    let kids = pair(alloc, select, arg)?;
    Ok(added(unlabelled(alloc, TreeKind::Apply, span, kids)))
}

fn copy_of(alloc: Global, pattern: &Option<Tall>) -> Result<Option<Tall>, NoMemory>
    ensures { IfOk result (λ copy. copy ≡ spec.copied pattern.now) }
{
    match pattern {
        None => Ok(None),
        Some(pattern) => Ok(Some(Tall {
            tree: hidden(alloc, &pattern.tree)?,
            height: pattern.height,
        })),
    }
}

fn filtered_once(
    alloc: Global,
    receiver: Option<Tall>,
    pattern: Option<Tall>,
    guard: Option<Tall>,
) -> Result<Option<Tall>, NoMemory>
    ensures { IfOk result (λ tall. tall ≡ spec.filtered_once receiver pattern guard) }
{
    added_call(
        alloc,
        receiver,
        "withFilter",
        taking(alloc, pattern, guard)?,
    )
}

// The later guards, whose patterns are copies.
fn filtered(
    alloc: Global,
    receiver: Option<Tall>,
    copy: &Option<Tall>,
    guards: Stack<Option<Tall>>,
) -> Result<Option<Tall>, NoMemory>
    ensures { IfOk result (λ tall. tall ≡ spec.filtered receiver copy.now guards) }
{
    let mut receiver = receiver;
    let mut guards = guards;
    while let Some(guard) = guards.pop() {
        receiver = filtered_once(alloc, receiver, copy_of(alloc, copy)?, guard)?;
    }
    Ok(receiver)
}

// The pattern stands first in the first guard, or in the body where there is none; all others are copies.
fn calling(
    alloc: Global,
    method: &str,
    generator: Generator,
    body: Option<Tall>,
) -> Result<Option<Tall>, NoMemory>
    ensures { IfOk result (λ tall. tall ≡ spec.calling method.now generator body) }
{
    let Generator {
        pattern,
        from,
        guards,
    } = generator;
    let mut guards = Stack::from_row(guards);
    let Some(guard) = guards.pop() else {
        return added_call(alloc, from, method, taking(alloc, pattern, body)?);
    };
    let copy = copy_of(alloc, &pattern)?;
    let first = filtered_once(alloc, from, pattern, guard)?;
    let receiver = filtered(alloc, first, &copy, guards)?;
    added_call(alloc, receiver, method, taking(alloc, copy, body)?)
}

fn last_method(yields: bool) -> &'static str
    ensures { result.now ≡ grammar.last_method yields }
{
    if yields { "map" } else { "foreach" }
}

fn earlier_method(yields: bool) -> &'static str
    ensures { result.now ≡ grammar.earlier_method yields }
{
    if yields { "flatMap" } else { "foreach" }
}

fn whole(span: Span, tall: Option<Tall>) -> Option<Tall>
    ensures { result ≡ changed (grammar.whole span) tall }
{
    let mut tall = tall?;
    tall.tree.span = span;
    tall.tree.label_span = span;
    tall.tree.opaque = true;
    Some(tall)
}

/// The calls that a `for` with this span stands for.
#[tactic(auto, using(crate::proofs::Generating::one_more, crate::proofs::Generating::all_over))]
pub fn comprehension(
    alloc: Global,
    yields: bool,
    span: Span,
    generators: Row<Generator>,
    body: Option<Tall>,
) -> Result<Option<Tall>, NoMemory>
    ensures { IfOk result (λ now. now ≡ spec.comprehension yields span generators body) }
{
    let mut generators = generators;
    let mut method = last_method(yields);
    let mut tall = body;
    while let Some(generator) = generators.pop() {
        tall = calling(alloc, method, generator, tall)?;
        method = earlier_method(yields);
    }
    Ok(whole(span, tall))
}
