//! Operators and assignments.

ghost use Rattle.std.specs.Prelude.{◌≡◌, IfOk};
ghost use Rattle.tree_lower.specs.Lowering as spec;

use crate::trees::{added, appended, enclosing, pair, span_in, unlabelled};
use parse_parts::built::{Kids, Tall, joined, node};
use parse_parts::steps::alone;
use parse_patterns::names::{is_assignment, is_right};
use parse_patterns::states::Operand;
use pc_terms::{NoMemory, Span, Text, TreeKind};
use positioned_trees::Name;
use std::alloc::Global;

// A method that is written as an operator, of its receiver.
fn operator_select(
    alloc: Global,
    name: Name,
    receiver: Option<Tall>,
) -> Result<Option<Tall>, NoMemory>
    ensures { IfOk result (λ tall. tall ≡ spec.operator_select name receiver) }
{
    let span = enclosing(span_in(&receiver), name.span);
    let kids = alone(alloc, receiver)?;
    Ok(added(node(TreeKind::Select, name.text, name.span, span, kids)))
}

fn called(
    alloc: Global,
    name: Name,
    span: Span,
    receiver: Option<Tall>,
    arg: Option<Tall>,
) -> Result<Option<Tall>, NoMemory>
    ensures { IfOk result (λ tall. tall ≡ spec.called name span receiver arg) }
{
    let select = operator_select(alloc, name, receiver)?;
    let kids = pair(alloc, select, arg)?;
    Ok(unlabelled(alloc, TreeKind::Apply, span, kids))
}

/// `a op b`: a call of a method of `a`, of `b` where it is right associative, or an assignment.
pub fn operation(alloc: Global, name: Name, a: Operand, b: Operand) -> Result<Operand, NoMemory>
    ensures { IfOk result (λ operand. operand ≡ spec.operation name a b) }
{
    let span = Span {
        start: a.span.start,
        end: b.span.end,
    };
    let tall = if is_assignment(name.text.as_str()) {
        let kids = pair(alloc, a.tall, b.tall)?;
        node(TreeKind::OpAssign, name.text, name.span, span, kids)
    } else if is_right(name.text.as_str()) {
        called(alloc, name, span, b.tall, a.tall)?
    } else {
        called(alloc, name, span, a.tall, b.tall)?
    };
    Ok(Operand { tall, span })
}

/// `-x` as `x.unary_-`.
pub fn prefixed(alloc: Global, sign: Name, operand: Operand) -> Result<Operand, NoMemory>
    ensures { IfOk result (λ now. now ≡ spec.prefixed sign operand) }
{
    let span = Span {
        start: sign.span.start,
        end: operand.span.end,
    };
    let mut text = Text::new(alloc, "unary_")?;
    text.push_str(sign.text.as_str())?;
    let kids = alone(alloc, operand.tall)?;
    Ok(Operand {
        tall: node(TreeKind::Select, text, sign.span, span, kids),
        span,
    })
}

fn update_select(alloc: Global, receiver: Option<Tall>) -> Result<Option<Tall>, NoMemory>
    ensures { IfOk result (λ tall. tall ≡ spec.update_select receiver) }
{
    let span = span_in(&receiver);
    let kids = alone(alloc, receiver)?;
    let text = Text::new(alloc, "update")?;
    Ok(added(node(TreeKind::Select, text, span, span, kids)))
}

/// `a(i) = v` as `a.update(i, v)`.
pub fn updated(
    alloc: Global,
    span: Span,
    receiver: Option<Tall>,
    args: Option<Kids>,
    right: Option<Tall>,
) -> Result<Option<Tall>, NoMemory>
    ensures { IfOk result (λ tall. tall ≡ spec.updated span receiver args right) }
{
    let select = update_select(alloc, receiver)?;
    let kids = appended(alone(alloc, select)?, args)?;
    Ok(unlabelled(alloc, TreeKind::Apply, span, joined(kids, right)?))
}
