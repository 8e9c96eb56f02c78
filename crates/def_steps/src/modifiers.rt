//! Modifiers and annotations.

ghost use Rattle.std.specs.Prelude.{◌≡◌, IfOk};
ghost use Rattle.parse_parts.specs.Reading.{is_nil};
ghost use Rattle.def_steps.specs.Modifiers as spec;

use crate::states::{Bracket, Found, Gap, State, Tail};
use expr_frames::frames::{is_near, is_no};
use expr_tails::symbols::{Symbol, Word};
use parse_parts::stack::Stack;
use pc_terms::NoMemory;
use positioned_trees::{Access, Modifiers};
use scan_tokens::{Newline, Token};
use std::alloc::Global;
use tree_lower::no_modifiers;

/// No modifiers.
pub fn nothing_found() -> Found
    ensures { result ≡ spec.nothing_found }
{
    Found {
        modifiers: no_modifiers(),
        is_lazy: false,
        has_access: false,
        any: false,
    }
}

/// Whether what comes next may stand after this newline.
pub fn bridges(gap: Gap, before: Newline) -> bool
    ensures { result ≡ spec.bridges gap before }
{
    match gap {
        Gap::Any => true,
        Gap::Joined => is_no(before),
        Gap::Near => is_near(before),
    }
}

fn with_access(found: Found, access: Access) -> Found
    ensures { result ≡ spec.with_access found access }
{
    if found.has_access {
        return found;
    }
    Found {
        modifiers: Modifiers {
            access,
            ..found.modifiers
        },
        has_access: true,
        any: true,
        ..found
    }
}

fn with_modifier(found: Found, word: Word) -> Found
    ensures { result ≡ spec.with_modifier found word }
{
    match word {
        Word::Final => Found {
            modifiers: Modifiers {
                final_: true,
                ..found.modifiers
            },
            any: true,
            ..found
        },
        Word::Override => Found {
            modifiers: Modifiers {
                override_: true,
                ..found.modifiers
            },
            any: true,
            ..found
        },
        Word::Lazy => Found {
            is_lazy: true,
            any: true,
            ..found
        },
        _ => Found { any: true, ..found },
    }
}

fn is_plain(word: Word) -> bool
    ensures { result ≡ spec.is_plain word }
{
    matches!(
        word,
        Word::Abstract | Word::Final | Word::Sealed | Word::Lazy | Word::Override | Word::Case
    )
}

/// The state with what was found and this tail.
#[inline(always)]
pub fn next(found: Found, tail: Tail) -> Option<State>
    ensures { result ≡ spec.state found tail }
{
    Some(State { found, tail })
}

fn after_plain(found: Found, word: Word) -> Option<State>
    ensures { result ≡ spec.after_plain found word }
{
    if is_plain(word) {
        next(with_modifier(found, word), Tail::AtMods(Gap::Joined))
    } else {
        None
    }
}

fn on_word(found: Found, word: Word, start: u32) -> Option<State>
    ensures { result ≡ spec.on_word found word start }
{
    match word {
        Word::Val => next(found, Tail::AtValue(false, start)),
        Word::Var => next(found, Tail::AtValue(true, start)),
        Word::Def => next(found, Tail::AtDef(start)),
        Word::Type => next(found, Tail::AtType(start)),
        Word::Private => next(found, Tail::AtAccess(Access::Private)),
        Word::Protected => next(found, Tail::AtAccess(Access::Protected)),
        _ => after_plain(found, word),
    }
}

/// Whether a definition can begin with it.
pub fn begins_definition(symbol: Symbol) -> bool
    ensures { result ≡ spec.begins_definition symbol }
{
    match symbol {
        Symbol::At => true,
        Symbol::Word(word) => is_definition_word(word),
        _ => false,
    }
}

fn is_definition_word(word: Word) -> bool
    ensures { result ≡ spec.is_definition_word word }
{
    match word {
        Word::Private | Word::Protected | Word::Val | Word::Var | Word::Def | Word::Type => true,
        _ => is_plain(word),
    }
}

/// Before the next modifier, or the word of the definition.
pub fn at_mods(found: Found, gap: Gap, symbol: Symbol, token: Token) -> Option<State>
    ensures { result ≡ spec.at_mods found gap symbol token.span.start token.before }
{
    if bridges(gap, token.before) {
        on_mod(found, symbol, token.span.start)
    } else {
        None
    }
}

// Annotations stand before all modifiers.
fn on_mod(found: Found, symbol: Symbol, start: u32) -> Option<State>
    ensures { result ≡ spec.on_mod found symbol start }
{
    match symbol {
        Symbol::At => {
            if found.any {
                None
            } else {
                next(found, Tail::AtAt)
            }
        }
        Symbol::Word(word) => on_word(found, word, start),
        _ => None,
    }
}

/// After the path of an annotation.
pub fn at_annotation(
    alloc: Global,
    found: Found,
    symbol: Symbol,
    token: Token,
) -> Result<Option<State>, NoMemory>
    ensures { IfOk result (λ now. now ≡ spec.at_annotation found symbol token.span.start token.before) }
{
    match symbol {
        Symbol::Dot => Ok(next(found, Tail::AtAnnotationDot)),
        Symbol::OpenRound => arguments_opened(alloc, found, token.before),
        _ => Ok(at_mods(found, Gap::Near, symbol, token)),
    }
}

fn arguments_opened(alloc: Global, found: Found, before: Newline) -> Result<Option<State>, NoMemory>
    ensures { IfOk result (λ now. now ≡ spec.arguments_opened found before) }
{
    if !is_no(before) {
        return Ok(None);
    }
    let mut brackets = Stack::new(alloc);
    brackets.push(Bracket::Round)?;
    Ok(next(found, Tail::InArguments(brackets)))
}

fn same_bracket(a: Bracket, b: Bracket) -> bool
    ensures { result ≡ spec.same_bracket a b }
{
    match a {
        Bracket::Round => matches!(b, Bracket::Round),
        Bracket::Square => matches!(b, Bracket::Square),
    }
}

fn all_closed(brackets: &Stack<Bracket>) -> bool
    ensures { result ≡ is_nil brackets.now }
{
    brackets.is_empty()
}

fn arguments_at(found: Found, brackets: Stack<Bracket>) -> Option<State>
    ensures { result ≡ spec.arguments_at found brackets }
{
    if all_closed(&brackets) {
        next(found, Tail::AtMods(Gap::Near))
    } else {
        next(found, Tail::InArguments(brackets))
    }
}

fn closed(found: Found, brackets: Stack<Bracket>, is: Bracket) -> Option<State>
    ensures { result ≡ spec.closed found brackets is }
{
    let mut brackets = brackets;
    match brackets.pop() {
        Some(open) => {
            if same_bracket(open, is) {
                arguments_at(found, brackets)
            } else {
                None
            }
        }
        None => None,
    }
}

/// In the arguments of an annotation, whose brackets match.
pub fn in_arguments(
    found: Found,
    brackets: Stack<Bracket>,
    symbol: Symbol,
) -> Result<Option<State>, NoMemory>
    ensures { IfOk result (λ now. now ≡ spec.in_arguments found brackets symbol) }
{
    match symbol {
        Symbol::OpenRound => with_bracket(found, brackets, Bracket::Round),
        Symbol::OpenSquare => with_bracket(found, brackets, Bracket::Square),
        Symbol::CloseRound => Ok(closed(found, brackets, Bracket::Round)),
        Symbol::CloseSquare => Ok(closed(found, brackets, Bracket::Square)),
        _ => Ok(next(found, Tail::InArguments(brackets))),
    }
}

fn with_bracket(
    found: Found,
    brackets: Stack<Bracket>,
    bracket: Bracket,
) -> Result<Option<State>, NoMemory>
    ensures { IfOk result (λ now. now ≡ spec.with_bracket found brackets bracket) }
{
    let mut brackets = brackets;
    brackets.push(bracket)?;
    Ok(next(found, Tail::InArguments(brackets)))
}

/// After `private` or `protected`.
pub fn at_access(found: Found, access: Access, symbol: Symbol, token: Token) -> Option<State>
    ensures { result ≡ spec.at_access found access symbol token.span.start token.before }
{
    match symbol {
        Symbol::OpenSquare => next(found, Tail::AtAccessOpen(access)),
        _ => at_mods(with_access(found, access), Gap::Joined, symbol, token),
    }
}

/// After the `[` of a qualifier: `this` changes nothing, and a name makes public.
pub fn at_access_open(found: Found, access: Access, symbol: Symbol) -> Option<State>
    ensures { result ≡ spec.at_access_open found access symbol }
{
    match symbol {
        Symbol::Id => next(found, Tail::AtAccessName(Access::Public)),
        Symbol::Word(Word::This) => next(found, Tail::AtAccessName(access)),
        _ => None,
    }
}

/// After the name of a qualifier.
pub fn at_access_name(found: Found, access: Access, symbol: Symbol) -> Option<State>
    ensures { result ≡ spec.at_access_name found access symbol }
{
    match symbol {
        Symbol::CloseSquare => next(with_access(found, access), Tail::AtMods(Gap::Joined)),
        _ => None,
    }
}

/// After the `@` of an annotation, or a `.` in its path.
pub fn at_path(found: Found, symbol: Symbol) -> Option<State>
    ensures { result ≡ spec.at_path found symbol }
{
    match symbol {
        Symbol::Id => next(found, Tail::AtAnnotation),
        _ => None,
    }
}

/// Whether what was read last is part of modifiers.
pub fn is_in_modifiers(tail: &Tail) -> bool
    ensures { result ≡ spec.is_in_modifiers tail.now }
{
    match tail {
        Tail::AtMods(_)
        | Tail::AtAt
        | Tail::AtAnnotation
        | Tail::AtAnnotationDot
        | Tail::InArguments(_)
        | Tail::AtAccess(_)
        | Tail::AtAccessOpen(_)
        | Tail::AtAccessName(_) => true,
        _ => false,
    }
}

/// Whether modifiers may end here, if the newline after them allows it.
pub fn may_end(tail: &Tail) -> bool
    ensures { result ≡ spec.may_end tail.now }
{
    matches!(
        tail,
        Tail::AtMods(_) | Tail::AtAnnotation | Tail::AtAccess(_)
    )
}

fn found_if(holds: bool, found: Found) -> Option<Found>
    ensures { result ≡ spec.found_if holds found }
{
    if holds { Some(found) } else { None }
}

/// The modifiers that end before what stands after this newline, if they can.
pub fn mods_at(state: State, before: Newline) -> Option<Found>
    ensures { result ≡ spec.mods_at state.tail state.found before }
{
    let State { found, tail } = state;
    match tail {
        Tail::AtMods(gap) => found_if(bridges(gap, before), found),
        Tail::AtAnnotation => found_if(is_near(before), found),
        Tail::AtAccess(access) => found_if(is_no(before), with_access(found, access)),
        tail => {
            drop(tail);
            None
        }
    }
}
