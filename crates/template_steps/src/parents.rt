//! The parents of templates, and the arguments of the first one.

ghost use Rattle.std.specs.Prelude.{◌≡◌, IfOk};
ghost use Rattle.expr_steps.specs.Braces.{step_braces as expr_braces};
ghost use Rattle.expr_steps.specs.Steps.{step as expr_step};
ghost use Rattle.parse_patterns.specs.Names.{lexeme_with};
ghost use Rattle.template_steps.specs.Templates as spec;

use crate::class_params::goes_on;
use crate::heads::{Head, is_word, with_args, with_parent};
use crate::templates::Tail;
use expr_frames::beside;
use expr_frames::frames::{Emptied, is_no, take_tail};
use expr_steps::braces::step_braces as step_expr_braces;
use expr_steps::operands::type_on;
use expr_steps::steps::{begun as expr_begun, step as step_expr};
use expr_tails::ending::at_tail;
use expr_tails::items::Braces;
use expr_tails::states::{Call, Context, Form, Limit, State as ExprState, Tail as ExprTail};
use expr_tails::symbols::{Symbol, read_symbol};
use expr_tails::types::{is_type, type_begun, type_of};
use parse_parts::states::State as TypeState;
use parse_patterns::states::Operand;
use pc_terms::{NoMemory, Span};
use scan_tokens::{Newline, Token};
use sqlite_items::Boxed;
use std::alloc::Global;

pub fn parent_head(alloc: Global, head: Head, ty: TypeState) -> Result<Option<Head>, NoMemory>
    ensures { IfOk result (λ now. now ≡ spec.parent_head head ty) }
{
    if is_type(&ty) {
        let parent = beside!(head; type_of(alloc, ty));
        Ok(Some(with_parent(head, parent)?))
    } else {
        drop(head);
        drop(ty);
        Ok(None)
    }
}

pub fn mixed_in(alloc: Global, head: Head, token: Token, word: &str) -> Option<Tail>
    ensures { result ≡ spec.mixed_in head (lexeme_with token word.now) }
{
    if is_word(token, word, b"with".as_slice()) {
        Some(Tail::InParent(head, type_begun(alloc)))
    } else {
        drop(head);
        None
    }
}

// An operand without a tree, whose arguments come next.
fn args_begun(alloc: Global, span: Span) -> ExprState
    ensures { result ≡ spec.args_begun span }
{
    let ExprState { frames, context } = expr_begun(alloc, Limit::Expr);
    let operand = Operand { tall: None, span };
    ExprState {
        frames,
        context: at_tail(context, ExprTail::AtPrim(operand, Form::Plain)),
    }
}

fn call_at(head: Head, tail: ExprTail) -> Result<Option<Tail>, NoMemory>
    ensures { IfOk result (λ now. now ≡ spec.call_at head tail) }
{
    match tail {
        ExprTail::AtCall(call) => {
            let Call {
                span: _,
                receiver,
                args,
            } = call;
            drop(receiver);
            Ok(Some(Tail::AtMixins(with_args(head, args)?)))
        }
        tail => {
            drop(head);
            drop(tail);
            Ok(None)
        }
    }
}

// The arguments, where their bracket is closed. Nothing in them may be free.
fn args_at(head: Head, context: Context) -> Result<Option<Tail>, NoMemory>
    ensures { IfOk result (λ now. now ≡ spec.args_at head context) }
{
    if context.free.is_empty() {
        let Emptied { tail, context } = take_tail(context);
        drop(context);
        call_at(head, tail)
    } else {
        drop(head);
        drop(context);
        Ok(None)
    }
}

fn args_boxed(alloc: Global, args: ExprState) -> Result<Boxed<ExprState>, NoMemory>
    ensures { IfOk result (λ now. now ≡ args) }
{
    Ok(Boxed::new(alloc, args)?)
}

fn args_by(alloc: Global, head: Head, args: ExprState) -> Result<Option<Tail>, NoMemory>
    ensures { IfOk result (λ now. now ≡ spec.args_by head args) }
{
    if args.frames.is_empty() {
        let ExprState { frames, context } = args;
        drop(frames);
        args_at(head, context)
    } else {
        let args = beside!(head; args_boxed(alloc, args));
        Ok(Some(Tail::InArgs(head, args)))
    }
}

fn args_on(alloc: Global, head: Head, args: Option<ExprState>) -> Result<Option<Tail>, NoMemory>
    ensures { IfOk result (λ now. now ≡ spec.args_on head args) }
{
    match args {
        Some(args) => args_by(alloc, head, args),
        None => {
            drop(head);
            Ok(None)
        }
    }
}

pub fn args_step(
    alloc: Global,
    head: Head,
    args: ExprState,
    token: Token,
    word: &str,
) -> Result<Option<Tail>, NoMemory>
    ensures { IfOk result (λ now. now ≡ spec.args_on head (expr_step args (lexeme_with token word.now))) }
{
    let args = beside!(head; step_expr(alloc, args, token, word));
    args_on(alloc, head, args)
}

fn opens_args(parents: u32, symbol: Symbol, before: Newline) -> bool
    ensures { result ≡ spec.opens_args parents symbol before }
{
    match symbol {
        Symbol::OpenRound => parents == 0 && is_no(before),
        _ => false,
    }
}

fn behind_parent(
    alloc: Global,
    head: Head,
    ty: TypeState,
    token: Token,
    word: &str,
) -> Result<Option<Tail>, NoMemory>
    ensures { IfOk result (λ now. now ≡ spec.behind_parent head ty (lexeme_with token word.now)) }
{
    let symbol = read_symbol(token.kind, word.as_bytes());
    let opens = opens_args(head.parents, symbol, token.before);
    let parent = beside!(head; type_of(alloc, ty));
    let head = with_parent(head, parent)?;
    if opens {
        args_step(alloc, head, args_begun(alloc, token.span), token, word)
    } else {
        Ok(mixed_in(alloc, head, token, word))
    }
}

pub fn in_parent(
    alloc: Global,
    head: Head,
    ty: TypeState,
    token: Token,
    word: &str,
) -> Result<Option<Tail>, NoMemory>
    ensures { IfOk result (λ now. now ≡ spec.in_parent head ty (lexeme_with token word.now)) }
{
    if goes_on(&ty, token, word) {
        let ty = beside!(head; type_on(alloc, ty, token, word));
        Ok(Some(Tail::InParent(head, ty)))
    } else if is_type(&ty) {
        behind_parent(alloc, head, ty, token, word)
    } else {
        drop(head);
        drop(ty);
        Ok(None)
    }
}

pub fn args_braces(
    alloc: Global,
    head: Head,
    args: ExprState,
    braces: Braces,
) -> Result<Option<Tail>, NoMemory>
    ensures { IfOk result (λ now. now ≡ spec.args_on head (expr_braces args braces)) }
{
    let args = beside!(head; step_expr_braces(alloc, args, braces));
    args_on(alloc, head, args)
}
