//! Which tokens can stand next.

ghost use Rattle.std.specs.Prelude.{◌≡◌};
ghost use Rattle.source_grammar.specs.Newlines.{is_near as is_close};
ghost use Rattle.parse_parts.specs.Steps.{first};
ghost use Rattle.parse_parts.specs.Reading.{is_nil};
ghost use Rattle.parse_patterns.specs.Names.{lexeme_with};
ghost use Rattle.parse_patterns.specs.Steps as spec;
ghost use Rattle.parse_patterns.specs.Symbols.{symbol_of};

use crate::names::{is_bar, is_right, precedence};
use crate::operators::fits;
use crate::states::{Bracket, Current, Earlier, Frame, Infix, Lead, Operation, State, Tail};
use crate::symbols::{Symbol, read_symbol};
use parse_parts::stack::Stack;
use parse_parts::states::{
    Bracket as TypeBracket, Count, Frame as TypeFrame, State as TypeState, Tail as TypeTail,
};
use parse_parts::{Symbol as TypeSymbol, read_symbol as read_type_symbol, steps};
use scan_tokens::{Newline, Token};

fn is_no(before: Newline) -> bool
    ensures { result ≡ spec.is_no before }
{
    matches!(before, Newline::No)
}

fn is_near(before: Newline) -> bool
    ensures { result ≡ is_close before }
{
    !matches!(before, Newline::Blank)
}

/// Whether an operand can end here.
pub fn is_whole(tail: &Tail) -> bool
    ensures { result ≡ spec.is_whole tail.now }
{
    !matches!(tail, Tail::Begin | Tail::AtDot(_))
}

fn is_fresh(chain: &Infix) -> bool
    ensures { result ≡ spec.is_fresh chain.now.binder chain.now.operations }
{
    chain.binder.is_none() && chain.operations.is_empty()
}

fn may_begin(chain: &Infix, earlier: &Option<Earlier>, before: Newline) -> bool
    ensures { result ≡ spec.may_begin chain.now earlier.now before }
{
    if !chain.operations.is_empty() {
        is_near(before)
    } else if chain.binder.is_none() && earlier.is_some() {
        is_no(before)
    } else {
        true
    }
}

fn may_part(frames: &Stack<Frame>) -> bool
    ensures { result ≡ spec.may_part (first frames.now) }
{
    match frames.top() {
        None => false,
        Some(frame) => match frame.bracket {
            Bracket::Group(_) => matches!(frame.count, Count::Zero | Count::One),
            Bracket::Call(..) => true,
        },
    }
}

fn may_empty(frames: &Stack<Frame>) -> bool
    ensures { result ≡ spec.may_empty (first frames.now) }
{
    match frames.top() {
        None => false,
        Some(frame) => matches!(frame.count, Count::Zero),
    }
}

fn may_close(frames: &Stack<Frame>) -> bool
    ensures { result ≡ spec.may_close (first frames.now) }
{
    frames.top().is_some()
}

fn operator_fits(operations: &Stack<Operation>, token: Token, word: &str) -> bool
    ensures { result ≡ spec.operator_fits operations.now (lexeme_with token word.now) }
{
    fits(operations, precedence(word), is_right(word))
}

fn may_end(symbol: Symbol, frames: &Stack<Frame>, token: Token, word: &str) -> bool
    ensures { result ≡ spec.may_end symbol frames.now (lexeme_with token word.now) }
{
    match symbol {
        Symbol::Id => is_bar(token, word) && is_no(token.before),
        Symbol::Comma => may_part(frames),
        Symbol::CloseRound => may_close(frames),
        _ => false,
    }
}

fn may_name(chain: &Infix, earlier: &Option<Earlier>, token: Token, word: &str) -> bool
    ensures { result ≡ spec.may_name chain.now.tail chain.now earlier.now (lexeme_with token word.now) }
{
    match chain.tail {
        Tail::Begin => may_begin(chain, earlier, token.before),
        Tail::AtDot(_) => true,
        _ => is_no(token.before)
            && (is_bar(token, word) || operator_fits(&chain.operations, token, word)),
    }
}

fn may_number(chain: &Infix, earlier: &Option<Earlier>, token: Token, word: &str) -> bool
    ensures { result ≡ spec.may_number chain.now.tail chain.now earlier.now (lexeme_with token word.now) }
{
    match chain.tail {
        Tail::Begin => may_begin(chain, earlier, token.before),
        Tail::AtPath(_, Lead::Minus) => is_no(token.before),
        _ => false,
    }
}

fn may_open(chain: &Infix, earlier: &Option<Earlier>, token: Token, word: &str) -> bool
    ensures { result ≡ spec.may_open chain.now.tail chain.now earlier.now (lexeme_with token word.now) }
{
    match chain.tail {
        Tail::Begin => may_begin(chain, earlier, token.before),
        Tail::AtPath(..) => is_no(token.before),
        _ => false,
    }
}

fn may_close_at(chain: &Infix, earlier: &Option<Earlier>, frames: &Stack<Frame>) -> bool
    ensures { result ≡ spec.may_close_at chain.now.tail chain.now earlier.now frames.now }
{
    match chain.tail {
        Tail::Begin => is_fresh(chain) && earlier.is_none() && may_empty(frames),
        _ => is_whole(&chain.tail) && may_close(frames),
    }
}

fn is_begin(tail: &Tail) -> bool
    ensures { result ≡ spec.is_begin tail.now }
{
    matches!(tail, Tail::Begin)
}

fn is_named(tail: &Tail) -> bool
    ensures { result ≡ spec.is_named tail.now }
{
    matches!(tail, Tail::AtWild(_) | Tail::AtPath(_, Lead::Var))
}

fn is_var_tail(tail: &Tail) -> bool
    ensures { result ≡ spec.is_var_tail tail.now }
{
    matches!(tail, Tail::AtPath(_, Lead::Var))
}

fn admits_infix(
    frames: &Stack<Frame>,
    earlier: &Option<Earlier>,
    chain: &Infix,
    token: Token,
    word: &str,
) -> bool
    ensures { result ≡ spec.admits_infix (symbol_of token.kind word.now) frames.now earlier.now chain.now (lexeme_with token word.now) }
{
    match read_symbol(token.kind, word.as_bytes()) {
        Symbol::Id => may_name(chain, earlier, token, word),
        Symbol::Number => may_number(chain, earlier, token, word),
        Symbol::Literal | Symbol::Underscore => is_begin(&chain.tail)
            && may_begin(chain, earlier, token.before),
        Symbol::Colon => is_named(&chain.tail) && is_fresh(chain),
        Symbol::At => is_var_tail(&chain.tail) && is_fresh(chain) && is_no(token.before),
        Symbol::OpenRound => may_open(chain, earlier, token, word),
        Symbol::CloseRound => may_close_at(chain, earlier, frames),
        Symbol::Comma => is_whole(&chain.tail) && may_part(frames),
        Symbol::Dot => matches!(chain.tail, Tail::AtPath(..)),
        Symbol::Other => false,
    }
}

fn is_alone(frames: &Stack<TypeFrame>) -> bool
    ensures { result ≡ spec.is_alone frames.now }
{
    frames.top().is_some() && frames.peek(1).is_none()
}

fn is_full(frames: &Stack<TypeFrame>) -> bool
    ensures { result ≡ spec.is_full frames.now }
{
    match frames.top() {
        Some(frame) => frames.peek(1).is_none()
            && matches!(frame.bracket, TypeBracket::Round(_))
            && !matches!(frame.count, Count::Zero | Count::One),
        None => false,
    }
}

fn leaves(ty: &TypeState, symbol: TypeSymbol) -> bool
    ensures { result ≡ spec.leaves ty.now symbol }
{
    match symbol {
        TypeSymbol::Arrow => ty.frames.is_empty(),
        TypeSymbol::Comma => is_full(&ty.frames),
        TypeSymbol::CloseRound => is_alone(&ty.frames) && matches!(ty.tail, TypeTail::Begin),
        _ => false,
    }
}

/// Whether the token is one more of a Simple.
pub fn type_goes_on(ty: &TypeState, symbol: TypeSymbol) -> bool
    ensures { result ≡ spec.type_goes_on ty.now symbol }
{
    !leaves(ty, symbol) && steps::admits(ty, symbol)
}

/// Whether what was read of a type is a Simple.
pub fn is_simple(ty: &TypeState) -> bool
    ensures { result ≡ spec.is_simple ty.now }
{
    ty.frames.is_empty() && ty.heads.is_empty() && steps::is_whole(&ty.tail)
}

fn admits_typed(frames: &Stack<Frame>, ty: &TypeState, token: Token, word: &str) -> bool
    ensures { result ≡ spec.admits_typed frames.now ty.now (lexeme_with token word.now) }
{
    type_goes_on(ty, read_type_symbol(token.kind, word.as_bytes()))
        || (is_simple(ty)
            && may_end(
                read_symbol(token.kind, word.as_bytes()),
                frames,
                token,
                word,
            ))
}

/// Whether a token can stand next.
#[tactic(auto, unfolding(crate::specs::Steps::admits))]
pub fn admits(state: &State, token: Token, word: &str) -> bool
    ensures { result ≡ spec.admits state.now (lexeme_with token word.now) }
{
    match &state.current {
        Current::InType(_, ty) => admits_typed(&state.frames, ty, token, word),
        Current::InInfix(chain) => admits_infix(&state.frames, &state.earlier, chain, token, word),
    }
}
