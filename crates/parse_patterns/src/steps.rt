//! What a reader of patterns makes of one token more.

ghost use Rattle.std.specs.Prelude.{◌≡◌, IfOk};
ghost use Rattle.parse_parts.specs.Steps.{from_to, path_term as path_as_term};
ghost use Rattle.parse_parts.specs.Reading.{begun};
ghost use Rattle.parse_patterns.specs.declared.states.Current.TheVariants.{InInfix};
ghost use Rattle.parse_patterns.specs.declared.states.Tail.TheVariants.{AtEnded};
ghost use Rattle.parse_patterns.specs.Names.{lexeme_with};
ghost use Rattle.parse_patterns.specs.Steps as spec;
ghost use Rattle.parse_patterns.specs.Symbols.{symbol_of};

use crate::admitting::type_goes_on;
use crate::names::{is_bar, is_right, lead, precedence};
use crate::operators::pushed;
use crate::patterns::{infix_at, leaf, operand_at, then_later, typed, with_earlier};
use crate::states::{Bracket, Current, Earlier, Frame, Infix, Lead, Operand, State, Tail};
use crate::symbols::{Symbol, read_symbol};
use parse_parts::built::{Kids, Tall, joined, no_kids, node, only};
use parse_parts::read_symbol as read_type_symbol;
use parse_parts::stack::Stack;
use parse_parts::states::{Count, Path, State as TypeState, Tail as TypeTail};
use parse_parts::steps::{advance as advance_type, alone, counted, no_label, path_term};
use pc_terms::{NoMemory, Span, Text, TreeKind};
use positioned_trees::Name;
use scan_tokens::Token;
use std::alloc::Global;

pub fn nothing_yet(alloc: Global) -> Current
    ensures { result ≡ InInfix spec.nothing_yet }
{
    Current::InInfix(Infix {
        binder: None,
        operations: Stack::new(alloc),
        tail: Tail::Begin,
    })
}

fn at_tail(frames: Stack<Frame>, earlier: Option<Earlier>, chain: Infix, tail: Tail) -> State
    ensures { result ≡ spec.at_tail frames earlier chain tail }
{
    State {
        frames,
        earlier,
        current: Current::InInfix(Infix {
            binder: chain.binder,
            operations: chain.operations,
            tail,
        }),
    }
}

fn path_begun(alloc: Global, token: Token, word: &str) -> Result<Path, NoMemory>
    ensures { IfOk result (λ path. path ≡ spec.path_begun (lexeme_with token word.now)) }
{
    Ok(Path {
        start: token.span.start,
        name: Name {
            text: Text::new(alloc, word)?,
            span: token.span,
        },
        qualified: false,
        prefix: no_kids(alloc),
    })
}

fn path_longer(alloc: Global, path: Path, token: Token, word: &str) -> Result<Path, NoMemory>
    ensures { IfOk result (λ now. now ≡ spec.path_longer path (lexeme_with token word.now)) }
{
    Ok(Path {
        start: path.start,
        name: Name {
            text: Text::new(alloc, word)?,
            span: token.span,
        },
        qualified: true,
        prefix: alone(alloc, path_term(path))?,
    })
}

fn operated(
    alloc: Global,
    frames: Stack<Frame>,
    earlier: Option<Earlier>,
    chain: Infix,
    token: Token,
    word: &str,
) -> Result<State, NoMemory>
    ensures { IfOk result (λ now. now ≡ spec.operated frames earlier chain (lexeme_with token word.now)) }
{
    let Infix {
        binder,
        operations,
        tail,
    } = chain;
    let name = Name {
        text: Text::new(alloc, word)?,
        span: token.span,
    };
    let last = operand_at(alloc, tail);
    let operations = pushed(
        alloc,
        operations,
        last,
        name,
        precedence(word),
        is_right(word),
    )?;
    Ok(State {
        frames,
        earlier,
        current: Current::InInfix(Infix {
            binder,
            operations,
            tail: Tail::Begin,
        }),
    })
}

fn barred(
    alloc: Global,
    frames: Stack<Frame>,
    earlier: Option<Earlier>,
    operand: Operand,
) -> Result<State, NoMemory>
    ensures { IfOk result (λ now. now ≡ spec.barred frames earlier operand) }
{
    Ok(State {
        frames,
        earlier: Some(then_later(alloc, earlier, operand)?),
        current: nothing_yet(alloc),
    })
}

fn parted(alloc: Global, frames: Stack<Frame>, tall: Option<Tall>) -> Result<State, NoMemory>
    ensures { IfOk result (λ now. now ≡ spec.parted frames tall) }
{
    let mut frames = frames;
    if let Some(frame) = frames.pop() {
        let kids = joined(frame.kids, tall)?;
        frames.push(Frame {
            bracket: frame.bracket,
            count: counted(frame.count),
            kids,
            earlier: frame.earlier,
            binder: frame.binder,
            operations: frame.operations,
        })?;
    }
    Ok(State {
        frames,
        earlier: None,
        current: nothing_yet(alloc),
    })
}

fn group_tall(alloc: Global, count: Count, kids: Option<Kids>, span: Span) -> Option<Tall>
    ensures { result ≡ spec.group_tall count kids span }
{
    match count {
        Count::One => only(kids),
        _ => node(TreeKind::TuplePat, no_label(alloc), span, span, kids),
    }
}

fn closed_as(alloc: Global, bracket: Bracket, count: Count, kids: Option<Kids>, end: u32) -> Operand
    ensures { result ≡ spec.closed_as bracket count kids end }
{
    match bracket {
        Bracket::Group(start) => {
            let span = Span { start, end };
            Operand {
                tall: group_tall(alloc, count, kids, span),
                span,
            }
        }
        Bracket::Call(start, name) => {
            let span = Span { start, end };
            Operand {
                tall: node(TreeKind::CtorPat, name.text, name.span, span, kids),
                span,
            }
        }
    }
}

fn emptied_as(
    alloc: Global,
    bracket: Bracket,
    kids: Option<Kids>,
    end: u32,
) -> Result<Operand, NoMemory>
    ensures { IfOk result (λ now. now ≡ spec.emptied_as bracket kids end) }
{
    match bracket {
        Bracket::Group(start) => {
            let text = Text::from_ascii(alloc, b"()")?;
            Ok(leaf(alloc, text, Span { start, end }))
        }
        Bracket::Call(start, name) => {
            let span = Span { start, end };
            Ok(Operand {
                tall: node(TreeKind::CtorPat, name.text, name.span, span, kids),
                span,
            })
        }
    }
}

fn closed(
    alloc: Global,
    frames: Stack<Frame>,
    tall: Option<Tall>,
    end: u32,
) -> Result<State, NoMemory>
    ensures { IfOk result (λ now. now ≡ spec.closed frames tall end) }
{
    let mut frames = frames;
    let Some(frame) = frames.pop() else {
        return Ok(State {
            frames,
            earlier: None,
            current: nothing_yet(alloc),
        });
    };
    let kids = joined(frame.kids, tall)?;
    let operand = closed_as(alloc, frame.bracket, counted(frame.count), kids, end);
    Ok(State {
        frames,
        earlier: frame.earlier,
        current: Current::InInfix(Infix {
            binder: frame.binder,
            operations: frame.operations,
            tail: Tail::AtEnded(operand),
        }),
    })
}

fn emptied(alloc: Global, frames: Stack<Frame>, end: u32) -> Result<State, NoMemory>
    ensures { IfOk result (λ now. now ≡ spec.emptied frames end) }
{
    let mut frames = frames;
    let Some(frame) = frames.pop() else {
        return Ok(State {
            frames,
            earlier: None,
            current: nothing_yet(alloc),
        });
    };
    let operand = emptied_as(alloc, frame.bracket, frame.kids, end)?;
    Ok(State {
        frames,
        earlier: frame.earlier,
        current: Current::InInfix(Infix {
            binder: frame.binder,
            operations: frame.operations,
            tail: Tail::AtEnded(operand),
        }),
    })
}

fn ended(
    alloc: Global,
    symbol: Symbol,
    frames: Stack<Frame>,
    earlier: Option<Earlier>,
    operand: Operand,
    token: Token,
    word: &str,
) -> Result<State, NoMemory>
    ensures { IfOk result (λ now. now ≡ spec.ended symbol frames earlier operand (lexeme_with token word.now)) }
{
    match symbol {
        Symbol::Comma => parted(alloc, frames, with_earlier(alloc, earlier, operand)?),
        Symbol::CloseRound => {
            let tall = with_earlier(alloc, earlier, operand)?;
            closed(alloc, frames, tall, token.span.end)
        }
        _ => barred(alloc, frames, earlier, operand),
    }
}

fn named(
    alloc: Global,
    frames: Stack<Frame>,
    earlier: Option<Earlier>,
    chain: Infix,
    token: Token,
    word: &str,
) -> Result<State, NoMemory>
    ensures { IfOk result (λ now. now ≡ spec.named chain.tail frames earlier chain (lexeme_with token word.now)) }
{
    let Infix {
        binder,
        operations,
        tail,
    } = chain;
    let tail = match tail {
        Tail::Begin => Tail::AtPath(path_begun(alloc, token, word)?, lead(token, word)),
        Tail::AtDot(path) => Tail::AtPath(path_longer(alloc, path, token, word)?, Lead::Plain),
        tail => {
            let chain = Infix {
                binder,
                operations,
                tail,
            };
            return if is_bar(token, word) {
                barred(alloc, frames, earlier, infix_at(alloc, chain)?)
            } else {
                operated(alloc, frames, earlier, chain, token, word)
            };
        }
    };
    Ok(State {
        frames,
        earlier,
        current: Current::InInfix(Infix {
            binder,
            operations,
            tail,
        }),
    })
}

fn numbered(alloc: Global, tail: Tail, token: Token, word: &str) -> Result<Operand, NoMemory>
    ensures { IfOk result (λ now. now ≡ spec.numbered tail (lexeme_with token word.now)) }
{
    match tail {
        Tail::AtPath(path, _) => {
            let mut text = Text::new(alloc, "-")?;
            text.push_str(word)?;
            let span = Span {
                start: path.start,
                end: token.span.end,
            };
            Ok(leaf(alloc, text, span))
        }
        tail => {
            drop(tail);
            Ok(leaf(alloc, Text::new(alloc, word)?, token.span))
        }
    }
}

fn type_begun(alloc: Global) -> TypeState
    ensures { result ≡ begun }
{
    TypeState {
        frames: Stack::new(alloc),
        heads: Stack::new(alloc),
        tail: TypeTail::Begin,
    }
}

fn type_from(
    alloc: Global,
    frames: Stack<Frame>,
    earlier: Option<Earlier>,
    chain: Infix,
) -> Result<State, NoMemory>
    ensures { IfOk result (λ now. now ≡ spec.type_from chain.tail frames earlier chain) }
{
    let Infix {
        binder,
        operations,
        tail,
    } = chain;
    let current = match tail {
        Tail::AtWild(span) => {
            let text = Text::new(alloc, "_")?;
            Current::InType(Name { text, span }, type_begun(alloc))
        }
        Tail::AtPath(path, _) => Current::InType(path.name, type_begun(alloc)),
        tail => Current::InInfix(Infix {
            binder,
            operations,
            tail,
        }),
    };
    Ok(State {
        frames,
        earlier,
        current,
    })
}

fn binder_from(alloc: Global, frames: Stack<Frame>, earlier: Option<Earlier>, chain: Infix) -> State
    ensures { result ≡ spec.binder_from chain.tail frames earlier chain }
{
    let Infix {
        binder,
        operations,
        tail,
    } = chain;
    let current = match tail {
        Tail::AtPath(path, _) => Current::InInfix(Infix {
            binder: Some(path.name),
            operations: Stack::new(alloc),
            tail: Tail::Begin,
        }),
        tail => Current::InInfix(Infix {
            binder,
            operations,
            tail,
        }),
    };
    State {
        frames,
        earlier,
        current,
    }
}

fn opened(
    alloc: Global,
    frames: Stack<Frame>,
    earlier: Option<Earlier>,
    chain: Infix,
    start: u32,
) -> Result<State, NoMemory>
    ensures { IfOk result (λ now. now ≡ spec.opened chain.tail frames earlier chain start) }
{
    let Infix {
        binder,
        operations,
        tail,
    } = chain;
    let (bracket, kids) = match tail {
        Tail::AtPath(path, _) => (Bracket::Call(path.start, path.name), path.prefix),
        _tail => (Bracket::Group(start), no_kids(alloc)),
    };
    let mut frames = frames;
    frames.push(Frame {
        bracket,
        count: Count::Zero,
        kids,
        earlier,
        binder,
        operations,
    })?;
    Ok(State {
        frames,
        earlier: None,
        current: nothing_yet(alloc),
    })
}

fn closed_at(
    alloc: Global,
    frames: Stack<Frame>,
    earlier: Option<Earlier>,
    chain: Infix,
    end: u32,
) -> Result<State, NoMemory>
    ensures { IfOk result (λ now. now ≡ spec.closed_at chain.tail frames earlier chain end) }
{
    match chain.tail {
        Tail::Begin => emptied(alloc, frames, end),
        tail => {
            let chain = Infix {
                binder: chain.binder,
                operations: chain.operations,
                tail,
            };
            let operand = infix_at(alloc, chain)?;
            closed(alloc, frames, with_earlier(alloc, earlier, operand)?, end)
        }
    }
}

fn dotted(frames: Stack<Frame>, earlier: Option<Earlier>, chain: Infix) -> State
    ensures { result ≡ spec.dotted chain.tail frames earlier chain }
{
    let Infix {
        binder,
        operations,
        tail,
    } = chain;
    let tail = match tail {
        Tail::AtPath(path, _) => Tail::AtDot(path),
        tail => tail,
    };
    State {
        frames,
        earlier,
        current: Current::InInfix(Infix {
            binder,
            operations,
            tail,
        }),
    }
}

fn numbered_at(
    alloc: Global,
    frames: Stack<Frame>,
    earlier: Option<Earlier>,
    chain: Infix,
    token: Token,
    word: &str,
) -> Result<State, NoMemory>
    ensures { IfOk result (λ now. now ≡ spec.at_tail frames earlier chain (AtEnded (spec.numbered chain.tail (lexeme_with token word.now)))) }
{
    let operand = numbered(alloc, chain.tail, token, word)?;
    Ok(State {
        frames,
        earlier,
        current: Current::InInfix(Infix {
            binder: chain.binder,
            operations: chain.operations,
            tail: Tail::AtEnded(operand),
        }),
    })
}

fn advance_infix(
    alloc: Global,
    frames: Stack<Frame>,
    earlier: Option<Earlier>,
    chain: Infix,
    token: Token,
    word: &str,
) -> Result<State, NoMemory>
    ensures { IfOk result (λ now. now ≡ spec.advanced_infix (symbol_of token.kind word.now) frames earlier chain (lexeme_with token word.now)) }
{
    match read_symbol(token.kind, word.as_bytes()) {
        Symbol::Id => named(alloc, frames, earlier, chain, token, word),
        Symbol::Number => numbered_at(alloc, frames, earlier, chain, token, word),
        Symbol::Literal => {
            let operand = leaf(alloc, Text::new(alloc, word)?, token.span);
            Ok(at_tail(frames, earlier, chain, Tail::AtEnded(operand)))
        }
        Symbol::Underscore => Ok(at_tail(frames, earlier, chain, Tail::AtWild(token.span))),
        Symbol::Colon => type_from(alloc, frames, earlier, chain),
        Symbol::At => Ok(binder_from(alloc, frames, earlier, chain)),
        Symbol::OpenRound => opened(alloc, frames, earlier, chain, token.span.start),
        Symbol::CloseRound => closed_at(alloc, frames, earlier, chain, token.span.end),
        Symbol::Comma => {
            let operand = infix_at(alloc, chain)?;
            parted(alloc, frames, with_earlier(alloc, earlier, operand)?)
        }
        Symbol::Dot => Ok(dotted(frames, earlier, chain)),
        Symbol::Other => Ok(State {
            frames,
            earlier,
            current: Current::InInfix(chain),
        }),
    }
}

fn advance_typed(
    alloc: Global,
    frames: Stack<Frame>,
    earlier: Option<Earlier>,
    name: Name,
    ty: TypeState,
    token: Token,
    word: &str,
) -> Result<State, NoMemory>
    ensures { IfOk result (λ now. now ≡ spec.advanced_typed frames earlier name ty (lexeme_with token word.now)) }
{
    let symbol = read_type_symbol(token.kind, word.as_bytes());
    if type_goes_on(&ty, symbol) {
        let ty = advance_type(alloc, ty, symbol, token.span, word)?;
        return Ok(State {
            frames,
            earlier,
            current: Current::InType(name, ty),
        });
    }
    let operand = typed(alloc, name, ty)?;
    let symbol = read_symbol(token.kind, word.as_bytes());
    ended(alloc, symbol, frames, earlier, operand, token, word)
}

/// The state after a token that can stand next.
#[tactic(auto, unfolding(crate::specs::Steps::advanced))]
pub fn advance(alloc: Global, state: State, token: Token, word: &str) -> Result<State, NoMemory>
    ensures { IfOk result (λ now. now ≡ spec.advanced state (lexeme_with token word.now)) }
{
    let State {
        frames,
        earlier,
        current,
    } = state;
    match current {
        Current::InType(name, ty) => advance_typed(alloc, frames, earlier, name, ty, token, word),
        Current::InInfix(chain) => advance_infix(alloc, frames, earlier, chain, token, word),
    }
}
