//! What names, literals, types, `.` and `[` make of the operand that is read, and what a token decides of it.

ghost use Rattle.std.specs.Prelude.{◌≡◌, IfOk};
ghost use Rattle.expr_steps.specs.Steps as spec;
ghost use Rattle.parse_patterns.specs.Names.{lexeme_with};

use expr_frames::beside;
use expr_frames::frames::{
    Emptied, Left, is_begin, is_no, is_param_limit, may_stand, take_operand, take_tail, takes_args,
};
use expr_frames::heads::with_head;
use expr_tails::ending::{at_tail, signed_at};
use expr_tails::operators::{fits, pushed};
use expr_tails::states::{Begun, Context, Form, HeadKind, Limit, Tail};
use expr_tails::symbols::{Symbol, begins_expr, begins_prim};
use expr_tails::tails::{
    Ready, is_before_operator, is_operand, new_at, new_with_type, select_hole,
};
use expr_tails::types::{is_type, is_type_and_dot, type_begun, type_of};
use parse_parts::built::{joined, no_kids, node};
use parse_parts::read_symbol as read_type_symbol;
use parse_parts::states::State as TypeState;
use parse_parts::steps::{advance as advance_type, alone};
use parse_patterns::states::Operand;
use pc_terms::{NoMemory, Span, Text, TreeKind};
use positioned_trees::Name;
use scan_tokens::{Newline, Token, TokenKind};
use std::alloc::Global;
use tree_lower::{leaf, unlabelled};

/// The name that a token is.
pub fn name_at(alloc: Global, token: Token, word: &str) -> Result<Name, NoMemory>
    ensures { IfOk result (λ now. now ≡ spec.name_of (lexeme_with token word.now)) }
{
    Ok(Name {
        text: Text::new(alloc, word)?,
        span: token.span,
    })
}

// ---- what the next token decides of the tail before it

fn is_number(symbol: Symbol) -> bool
    ensures { result ≡ spec.is_number symbol }
{
    matches!(symbol, Symbol::Number)
}

fn is_id(symbol: Symbol) -> bool
    ensures { result ≡ spec.is_id symbol }
{
    matches!(symbol, Symbol::Id)
}

fn is_minus(name: &Name) -> bool
    ensures { result ≡ spec.is_minus name.now }
{
    name.text.as_str().as_bytes() == b"-".as_slice()
}

fn follows_sign(limit: Limit, symbol: Symbol, before: Newline) -> bool
    ensures { result ≡ spec.follows_sign limit symbol before }
{
    is_no(before) && begins_prim(symbol) && !is_param_limit(limit)
}

// A second sign is a name.
fn signed_by(context: Context, name: Name) -> Context
    ensures { result ≡ spec.signed_by context context.sign name }
{
    let Context {
        heads,
        free,
        operations,
        sign,
        tail,
        limit,
    } = context;
    drop(tail);
    match sign {
        None => Context {
            heads,
            free,
            operations,
            sign: Some(name),
            tail: Tail::Begin,
            limit,
        },
        Some(sign) => Context {
            heads,
            free,
            operations,
            sign: Some(sign),
            tail: Tail::AtName(name, true),
            limit,
        },
    }
}

// A sign is a prefix operator where an operand follows it in its line, the minus of a number, or a name.
fn sign_decided(context: Context, name: Name, symbol: Symbol, before: Newline) -> Context
    ensures { result ≡ spec.sign_decided context name symbol before }
{
    if !follows_sign(context.limit, symbol, before) {
        at_tail(context, Tail::AtName(name, true))
    } else if is_number(symbol) && is_minus(&name) {
        at_tail(context, Tail::AtSign(name))
    } else {
        signed_by(context, name)
    }
}

fn hole_of_new(alloc: Global, start: u32, end: u32, ty: TypeState) -> Result<Tail, NoMemory>
    ensures { IfOk result (λ now. now ≡ spec.hole_of_new start end ty) }
{
    let new = new_at(alloc, new_with_type(alloc, start, ty)?);
    Ok(Tail::AtPrim(select_hole(alloc, new, end)?, Form::Hole))
}

fn new_decided(alloc: Global, start: u32, end: u32, ty: TypeState) -> Result<Tail, NoMemory>
    ensures { IfOk result (λ now. now ≡ spec.new_decided start end ty) }
{
    if is_type(&ty) {
        Ok(Tail::AtNew(new_with_type(alloc, start, ty)?))
    } else if is_type_and_dot(&ty) {
        hole_of_new(alloc, start, end, ty)
    } else {
        Ok(Tail::InNew(start, end, ty))
    }
}

fn dot_decided(
    alloc: Global,
    receiver: Operand,
    point: Span,
    symbol: Symbol,
) -> Result<Tail, NoMemory>
    ensures { IfOk result (λ now. now ≡ spec.dot_decided receiver point symbol) }
{
    if is_id(symbol) {
        Ok(Tail::AtDot(receiver, point))
    } else {
        let hole = select_hole(alloc, receiver, point.end)?;
        Ok(Tail::AtPrim(hole, Form::Hole))
    }
}

fn return_decided(
    alloc: Global,
    context: Context,
    span: Span,
    symbol: Symbol,
    before: Newline,
) -> Result<Context, NoMemory>
    ensures { IfOk result (λ now. now ≡ spec.return_decided context span symbol before) }
{
    if is_no(before) && begins_expr(symbol) {
        with_head(alloc, context, span.start, HeadKind::Return)
    } else {
        Ok(at_tail(context, Tail::AtReturn(span)))
    }
}

// Whether what stands at the tail depends on the token after it. All else is decided already.
fn is_undecided(tail: &Tail) -> bool
    ensures { result ≡ spec.is_undecided tail.now }
{
    matches!(
        tail,
        Tail::AtSign(_) | Tail::InNew(..) | Tail::AtDot(..) | Tail::AtReturn(_)
    )
}

fn decided_at(
    alloc: Global,
    context: Context,
    symbol: Symbol,
    before: Newline,
) -> Result<Context, NoMemory>
    ensures { IfOk result (λ now. now ≡ spec.decided context symbol before) }
{
    let Emptied { tail, context } = take_tail(context);
    match tail {
        Tail::AtSign(name) => Ok(sign_decided(context, name, symbol, before)),
        Tail::InNew(start, end, ty) => {
            let tail = beside!(context; new_decided(alloc, start, end, ty));
            Ok(at_tail(context, tail))
        }
        Tail::AtDot(receiver, point) => {
            let tail = beside!(context; dot_decided(alloc, receiver, point, symbol));
            Ok(at_tail(context, tail))
        }
        Tail::AtReturn(span) => return_decided(alloc, context, span, symbol, before),
        tail => Ok(at_tail(context, tail)),
    }
}

/// The context with the tail that it is where this token follows.
#[inline(always)]
pub fn decided(
    alloc: Global,
    context: Context,
    symbol: Symbol,
    before: Newline,
) -> Result<Context, NoMemory>
    ensures { IfOk result (λ now. now ≡ spec.decided context symbol before) }
{
    if is_undecided(&context.tail) {
        decided_at(alloc, context, symbol, before)
    } else {
        Ok(context)
    }
}

// ---- types

/// A type with one token more, which it admits.
pub fn type_on(
    alloc: Global,
    ty: TypeState,
    token: Token,
    word: &str,
) -> Result<TypeState, NoMemory>
    ensures { IfOk result (λ now. now ≡ spec.type_on ty (lexeme_with token word.now)) }
{
    let symbol = read_type_symbol(token.kind, word.as_bytes());
    advance_type(alloc, ty, symbol, token.span, word)
}

pub fn in_type(alloc: Global, tail: Tail, token: Token, word: &str) -> Result<Tail, NoMemory>
    ensures { IfOk result (λ now. now ≡ spec.in_type tail (lexeme_with token word.now)) }
{
    match tail {
        Tail::InNew(start, _, ty) => {
            let ty = type_on(alloc, ty, token, word)?;
            Ok(Tail::InNew(start, token.span.end, ty))
        }
        Tail::InTypes(begun, ty) => Ok(Tail::InTypes(begun, type_on(alloc, ty, token, word)?)),
        Tail::InTyped(of, ty) => Ok(Tail::InTyped(of, type_on(alloc, ty, token, word)?)),
        tail => Ok(tail),
    }
}

fn with_type(alloc: Global, begun: Begun, ty: TypeState) -> Result<Begun, NoMemory>
    ensures { IfOk result (λ now. now ≡ spec.with_type begun ty) }
{
    Ok(Begun {
        start: begun.start,
        kids: joined(begun.kids, type_of(alloc, ty)?)?,
    })
}

fn applied(alloc: Global, begun: Begun, end: u32) -> Tail
    ensures { result ≡ spec.applied begun end }
{
    let span = Span {
        start: begun.start,
        end,
    };
    let tall = unlabelled(alloc, TreeKind::TypeApply, span, begun.kids);
    Tail::AtPrim(Operand { tall, span }, Form::Plain)
}

// A comma or `]` after a type argument.
pub fn types_on(
    alloc: Global,
    context: Context,
    begun: Begun,
    ty: TypeState,
    symbol: Symbol,
    end: u32,
) -> Result<Option<Context>, NoMemory>
    ensures { IfOk result (λ now. now ≡ spec.types_on context begun ty symbol end) }
{
    match symbol {
        Symbol::Comma => {
            if !is_type(&ty) {
                drop(context);
                drop(ty);
                return Ok(None);
            }
            let begun = beside!(context; with_type(alloc, begun, ty));
            Ok(Some(at_tail(context, Tail::InTypes(begun, type_begun(alloc)))))
        }
        Symbol::CloseSquare => {
            if !is_type(&ty) {
                drop(context);
                drop(ty);
                return Ok(None);
            }
            let begun = beside!(context; with_type(alloc, begun, ty));
            Ok(Some(at_tail(context, applied(alloc, begun, end))))
        }
        _ => {
            drop(context);
            drop(ty);
            Ok(None)
        }
    }
}

// ---- names and operands

fn is_prefix_word(word: &[u8]) -> bool
    ensures { result ≡ spec.is_prefix_word word.now }
{
    matches!(word, b"-" | b"+" | b"!" | b"~")
}

fn is_prefix_name(token: Token, word: &str) -> bool
    ensures { result ≡ spec.is_prefix_name (lexeme_with token word.now) }
{
    !matches!(token.kind, TokenKind::BackId) && is_prefix_word(word.as_bytes())
}

fn named_tail(alloc: Global, token: Token, word: &str) -> Result<Tail, NoMemory>
    ensures { IfOk result (λ now. now ≡ spec.named_tail (lexeme_with token word.now)) }
{
    let name = name_at(alloc, token, word)?;
    if is_prefix_name(token, word) {
        Ok(Tail::AtSign(name))
    } else {
        Ok(Tail::AtName(name, false))
    }
}

fn selected(alloc: Global, receiver: Operand, name: Name) -> Result<Operand, NoMemory>
    ensures { IfOk result (λ now. now ≡ spec.selected receiver name) }
{
    let span = Span {
        start: receiver.span.start,
        end: name.span.end,
    };
    let kids = alone(alloc, receiver.tall)?;
    Ok(Operand {
        tall: node(TreeKind::Select, name.text, name.span, span, kids),
        span,
    })
}

fn super_of(alloc: Global, word: Span, name: Name) -> Operand
    ensures { result ≡ spec.super_of word name }
{
    let span = Span {
        start: word.start,
        end: name.span.end,
    };
    Operand {
        tall: node(TreeKind::Super, name.text, name.span, span, no_kids(alloc)),
        span,
    }
}

fn operated(alloc: Global, context: Context, name: Name) -> Result<Context, NoMemory>
    ensures { IfOk result (λ now. now ≡ spec.operated context name) }
{
    let Context {
        heads,
        free,
        operations,
        sign,
        tail,
        limit,
    } = context;
    let Ready { operand, free } = signed_at(alloc, sign, tail, free)?;
    Ok(Context {
        heads,
        free,
        operations: pushed(alloc, operations, operand, name)?,
        sign: None,
        tail: Tail::Begin,
        limit,
    })
}

fn may_begin_name(context: &Context, before: Newline) -> bool
    ensures { result ≡ spec.may_begin_name context.now before }
{
    if is_param_limit(context.limit) {
        is_begin(&context.tail)
    } else {
        may_stand(context, before)
    }
}

fn may_operate(context: &Context, before: Newline, word: &str) -> bool
    ensures { result ≡ spec.may_operate context.now before word.now }
{
    is_before_operator(&context.tail)
        && is_no(before)
        && !is_param_limit(context.limit)
        && fits(&context.operations, word)
}

fn name_behind(alloc: Global, context: Context, name: Name) -> Result<Option<Context>, NoMemory>
    ensures { IfOk result (λ now. now ≡ spec.name_behind context.tail context name) }
{
    let Emptied { tail, context } = take_tail(context);
    match tail {
        Tail::AtDot(receiver, _) => {
            let operand = beside!(context; selected(alloc, receiver, name));
            Ok(Some(at_tail(context, Tail::AtPrim(operand, Form::Select))))
        }
        Tail::AtSuperDot(word) => {
            let operand = super_of(alloc, word, name);
            Ok(Some(at_tail(context, Tail::AtPrim(operand, Form::Plain))))
        }
        tail => {
            drop(tail);
            drop(context);
            Ok(None)
        }
    }
}

pub fn on_id(
    alloc: Global,
    context: Context,
    token: Token,
    word: &str,
) -> Result<Option<Context>, NoMemory>
    ensures { IfOk result (λ now. now ≡ spec.on_id context (lexeme_with token word.now)) }
{
    if may_begin_name(&context, token.before) {
        let tail = beside!(context; named_tail(alloc, token, word));
        Ok(Some(at_tail(context, tail)))
    } else if may_operate(&context, token.before, word) {
        let name = beside!(context; name_at(alloc, token, word));
        Ok(Some(operated(alloc, context, name)?))
    } else {
        let name = beside!(context; name_at(alloc, token, word));
        name_behind(alloc, context, name)
    }
}

fn literal(alloc: Global, text: Text, span: Span) -> Tail
    ensures { result ≡ spec.literal text span }
{
    let tall = leaf(alloc, TreeKind::Literal, text, span);
    Tail::AtPrim(Operand { tall, span }, Form::Plain)
}

pub fn on_literal(
    alloc: Global,
    context: Context,
    token: Token,
    word: &str,
) -> Result<Option<Context>, NoMemory>
    ensures { IfOk result (λ now. now ≡ spec.on_literal context (lexeme_with token word.now)) }
{
    if may_stand(&context, token.before) {
        let text = beside!(context; Text::new(alloc, word));
        let tail = literal(alloc, text, token.span);
        Ok(Some(at_tail(context, tail)))
    } else {
        drop(context);
        Ok(None)
    }
}

fn negated(alloc: Global, sign: Name, token: Token, word: &str) -> Result<Tail, NoMemory>
    ensures { IfOk result (λ now. now ≡ spec.negated sign (lexeme_with token word.now)) }
{
    let span = Span {
        start: sign.span.start,
        end: token.span.end,
    };
    let mut text = Text::new(alloc, "-")?;
    text.push_str(word)?;
    Ok(literal(alloc, text, span))
}

// A number, maybe after its minus.
pub fn on_number(
    alloc: Global,
    context: Context,
    token: Token,
    word: &str,
) -> Result<Option<Context>, NoMemory>
    ensures { IfOk result (λ now. now ≡ spec.number_at context.tail context (lexeme_with token word.now)) }
{
    let Emptied { tail, context } = take_tail(context);
    match tail {
        Tail::AtSign(sign) => {
            let tail = beside!(context; negated(alloc, sign, token, word));
            Ok(Some(at_tail(context, tail)))
        }
        tail => on_literal(alloc, at_tail(context, tail), token, word),
    }
}

fn eta(alloc: Global, of: Left, end: u32) -> Result<Context, NoMemory>
    ensures { IfOk result (λ now. now ≡ spec.eta of end) }
{
    let Left { operand, context } = of;
    let span = Span {
        start: operand.span.start,
        end,
    };
    let kids = beside!(context; alone(alloc, operand.tall));
    let tall = unlabelled(alloc, TreeKind::Eta, span, kids);
    Ok(at_tail(context, Tail::AtPrim(Operand { tall, span }, Form::Plain)))
}

fn is_new(tail: &Tail) -> bool
    ensures { result ≡ spec.is_new tail.now }
{
    matches!(tail, Tail::AtNew(_))
}

fn takes_underscore(context: &Context, before: Newline) -> bool
    ensures { result ≡ spec.takes_underscore context.now before }
{
    (takes_args(context) || is_new(&context.tail)) && is_no(before)
}

pub fn on_underscore(
    alloc: Global,
    context: Context,
    before: Newline,
    span: Span,
) -> Result<Option<Context>, NoMemory>
    ensures { IfOk result (λ now. now ≡ spec.on_underscore context before span) }
{
    if may_begin_name(&context, before) {
        Ok(Some(at_tail(context, Tail::AtWild(span))))
    } else if takes_underscore(&context, before) {
        let of = take_operand(alloc, context)?;
        Ok(Some(eta(alloc, of, span.end)?))
    } else {
        drop(context);
        Ok(None)
    }
}

fn may_go_on(context: &Context) -> bool
    ensures { result ≡ spec.may_go_on context.now }
{
    is_operand(&context.tail) && !is_param_limit(context.limit)
}

fn dotted(of: Left, span: Span) -> Context
    ensures { result ≡ spec.dotted of span }
{
    let Left { operand, context } = of;
    at_tail(context, Tail::AtDot(operand, span))
}

pub fn on_dot(alloc: Global, context: Context, span: Span) -> Result<Option<Context>, NoMemory>
    ensures { IfOk result (λ now. now ≡ spec.dotted_at context.tail context span) }
{
    let Emptied { tail, context } = take_tail(context);
    match tail {
        Tail::AtSuper(word) => Ok(Some(at_tail(context, Tail::AtSuperDot(word)))),
        tail => {
            let context = at_tail(context, tail);
            if !may_go_on(&context) {
                drop(context);
                return Ok(None);
            }
            Ok(Some(dotted(take_operand(alloc, context)?, span)))
        }
    }
}

fn types_begun(alloc: Global, of: Left) -> Result<Context, NoMemory>
    ensures { IfOk result (λ now. now ≡ spec.types_begun of) }
{
    let Left { operand, context } = of;
    let kids = beside!(context; alone(alloc, operand.tall));
    let begun = Begun {
        start: operand.span.start,
        kids,
    };
    Ok(at_tail(context, Tail::InTypes(begun, type_begun(alloc))))
}

pub fn on_open_square(alloc: Global, context: Context) -> Result<Option<Context>, NoMemory>
    ensures { IfOk result (λ now. now ≡ spec.on_open_square context) }
{
    if !may_go_on(&context) {
        drop(context);
        return Ok(None);
    }
    let of = take_operand(alloc, context)?;
    Ok(Some(types_begun(alloc, of)?))
}
