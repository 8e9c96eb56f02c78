//! What a reader of types makes of one token more.

ghost use Rattle.std.specs.Prelude.{◌≡◌, [], IfOk};
ghost use Rattle.pc_terms.specs.declared.problems.Span.{Span};
ghost use Rattle.parse_parts.specs.Built as built;
ghost use Rattle.parse_parts.specs.Steps as spec;

use crate::built::{Kids, Tall, joined, no_kids, node, only};
use crate::stack::Stack;
use crate::states::{Bracket, Count, Ended, Frame, Group, Head, Path, State, Tail};
use crate::symbols::Symbol;
use pc_terms::{NoMemory, Span, Text, TreeKind};
use positioned_trees::Name;
use std::alloc::Global;

pub fn counted(count: Count) -> Count
    ensures { result ≡ spec.next count }
{
    match count {
        Count::Zero => Count::One,
        Count::One => Count::Two,
        Count::Two => Count::Three,
        Count::Three | Count::More => Count::More,
    }
}

pub fn no_label(alloc: Global) -> Text
    ensures { result ≡ [] }
{
    Text::from_ascii_vec(Vec::new(alloc))
}

pub fn alone(alloc: Global, tall: Option<Tall>) -> Result<Option<Kids>, NoMemory>
    ensures { IfOk result (λ kids. kids ≡ built.alone tall) }
{
    joined(no_kids(alloc), tall)
}

fn path_type(path: Path) -> Option<Tall>
    ensures { result ≡ spec.path_type path }
{
    let kind = if path.qualified {
        TreeKind::TypeSelect
    } else {
        TreeKind::TypeIdent
    };
    let span = Span {
        start: path.start,
        end: path.name.span.end,
    };
    node(kind, path.name.text, path.name.span, span, path.prefix)
}

pub fn path_term(path: Path) -> Option<Tall>
    ensures { result ≡ spec.path_term path }
{
    let kind = if path.qualified {
        TreeKind::Select
    } else {
        TreeKind::Ident
    };
    let span = Span {
        start: path.start,
        end: path.name.span.end,
    };
    node(kind, path.name.text, path.name.span, span, path.prefix)
}

fn group_tree(alloc: Global, group: Group) -> Option<Tall>
    ensures { result ≡ spec.group_tree group group.count }
{
    match group.count {
        Count::One => only(group.kids),
        Count::Two | Count::Three => node(
            TreeKind::TupleType,
            no_label(alloc),
            group.span,
            group.span,
            group.kids,
        ),
        Count::Zero | Count::More => None,
    }
}

pub fn tail_tree(alloc: Global, tail: Tail) -> Option<Tall>
    ensures { result ≡ spec.tail_tree tail }
{
    match tail {
        Tail::Begin | Tail::AtDot(_) => None,
        Tail::AtPath(path) => path_type(path),
        Tail::AtEnded(ended) => ended.tall,
        Tail::AtGroup(group) => group_tree(alloc, group),
    }
}

pub fn tail_end(tail: &Tail) -> u32
    ensures { result ≡ spec.tail_end tail.now }
{
    match tail {
        Tail::Begin => 0,
        Tail::AtPath(path) | Tail::AtDot(path) => path.name.span.end,
        Tail::AtEnded(ended) => ended.span.end,
        Tail::AtGroup(group) => group.span.end,
    }
}

fn head_at(alloc: Global, tail: Tail) -> Result<Head, NoMemory>
    ensures { IfOk result (λ head. head ≡ spec.head_at tail) }
{
    match tail {
        Tail::AtPath(path) => Ok(Head {
            start: path.start,
            kids: alone(alloc, path_type(path))?,
        }),
        Tail::AtEnded(ended) => Ok(Head {
            start: ended.span.start,
            kids: alone(alloc, ended.tall)?,
        }),
        Tail::AtGroup(group) => Ok(Head {
            start: group.span.start,
            kids: group.kids,
        }),
        Tail::Begin | Tail::AtDot(_) => Ok(Head {
            start: 0,
            kids: None,
        }),
    }
}

fn fun_over(
    alloc: Global,
    head: Head,
    end: u32,
    tall: Option<Tall>,
) -> Result<Option<Tall>, NoMemory>
    ensures { IfOk result (λ tall_now. tall_now ≡ spec.fun_over head end tall) }
{
    let span = Span {
        start: head.start,
        end,
    };
    let kids = joined(head.kids, tall)?;
    Ok(node(TreeKind::FunType, no_label(alloc), span, span, kids))
}

fn settled(
    alloc: Global,
    mut heads: Stack<Head>,
    end: u32,
    mut tall: Option<Tall>,
) -> Result<Option<Tall>, NoMemory>
    ensures { IfOk result (λ tall_now. tall_now ≡ spec.settled heads end tall) }
{
    while let Some(head) = heads.pop() {
        tall = fun_over(alloc, head, end, tall)?;
    }
    Ok(tall)
}

/// The type that ends at a tail.
pub fn type_at(alloc: Global, heads: Stack<Head>, tail: Tail) -> Result<Option<Tall>, NoMemory>
    ensures { IfOk result (λ tall. tall ≡ spec.type_at heads tail) }
{
    let end = tail_end(&tail);
    settled(alloc, heads, end, tail_tree(alloc, tail))
}

pub fn is_whole(tail: &Tail) -> bool
    ensures { result ≡ spec.is_whole tail.now }
{
    match tail {
        Tail::AtPath(_) | Tail::AtEnded(_) => true,
        Tail::AtGroup(group) => matches!(group.count, Count::One | Count::Two | Count::Three),
        Tail::Begin | Tail::AtDot(_) => false,
    }
}

fn may_close_round(state: &State) -> bool
    ensures { result ≡ spec.may_close_round state.now.tail (spec.first state.now.heads) (spec.first state.now.frames) }
{
    let Some(frame) = state.frames.top() else {
        return false
    };
    let round = matches!(frame.bracket, Bracket::Round(_));
    match state.tail {
        Tail::Begin => round && state.heads.top().is_none() && matches!(frame.count, Count::Zero),
        _ => round && is_whole(&state.tail),
    }
}

/// Whether a token can stand next.
pub fn admits(state: &State, symbol: Symbol) -> bool
    ensures { result ≡ spec.admits state.now symbol }
{
    match symbol {
        Symbol::Id => matches!(state.tail, Tail::Begin | Tail::AtDot(_)),
        Symbol::OpenRound => matches!(state.tail, Tail::Begin),
        Symbol::CloseRound => may_close_round(state),
        Symbol::OpenSquare | Symbol::Dot => matches!(state.tail, Tail::AtPath(_)),
        Symbol::CloseSquare => match state.frames.top() {
            Some(frame) => matches!(frame.bracket, Bracket::Square(..)) && is_whole(&state.tail),
            None => false,
        },
        Symbol::Comma => state.frames.top().is_some() && is_whole(&state.tail),
        Symbol::Arrow => !matches!(state.tail, Tail::Begin | Tail::AtDot(_)),
        Symbol::TypeWord => matches!(state.tail, Tail::AtDot(_)),
        Symbol::Other => false,
    }
}

fn named(alloc: Global, state: State, span: Span, word: &str) -> Result<State, NoMemory>
    ensures { IfOk result (λ next. next ≡ spec.at_tail state (spec.named word.now span state.tail)) }
{
    let State {
        frames,
        heads,
        tail,
    } = state;
    let tail = match tail {
        Tail::Begin => Tail::AtPath(Path {
            start: span.start,
            name: Name {
                text: Text::new(alloc, word)?,
                span,
            },
            qualified: false,
            prefix: no_kids(alloc),
        }),
        Tail::AtDot(path) => Tail::AtPath(Path {
            start: path.start,
            name: Name {
                text: Text::new(alloc, word)?,
                span,
            },
            qualified: true,
            prefix: alone(alloc, path_term(path))?,
        }),
        tail => tail,
    };
    Ok(State {
        frames,
        heads,
        tail,
    })
}

fn dotted(state: State) -> State
    ensures { result ≡ spec.at_tail state (spec.dotted state.tail) }
{
    let State {
        frames,
        heads,
        tail,
    } = state;
    let tail = match tail {
        Tail::AtPath(path) => Tail::AtDot(path),
        tail => tail,
    };
    State {
        frames,
        heads,
        tail,
    }
}

fn singled(alloc: Global, state: State, span: Span) -> Result<State, NoMemory>
    ensures { IfOk result (λ next. next ≡ spec.at_tail state (spec.singled span state.tail)) }
{
    let State {
        frames,
        heads,
        tail,
    } = state;
    let tail = match tail {
        Tail::AtDot(path) => {
            let whole = Span {
                start: path.start,
                end: span.end,
            };
            let label = path.name.text.clone()?;
            let label_span = path.name.span;
            let kids = alone(alloc, path_term(path))?;
            Tail::AtEnded(Ended {
                span: whole,
                tall: node(TreeKind::Singleton, label, label_span, whole, kids),
            })
        }
        tail => tail,
    };
    Ok(State {
        frames,
        heads,
        tail,
    })
}

fn round_opened(alloc: Global, state: State, span: Span) -> Result<State, NoMemory>
    ensures { IfOk result (λ next. next ≡ spec.round_opened span state) }
{
    let State {
        frames,
        heads,
        tail: _,
    } = state;
    let mut frames = frames;
    frames.push(Frame {
        bracket: Bracket::Round(span.start),
        count: Count::Zero,
        kids: no_kids(alloc),
        heads,
    })?;
    Ok(State {
        frames,
        heads: Stack::new(alloc),
        tail: Tail::Begin,
    })
}

fn square_opened(alloc: Global, state: State) -> Result<State, NoMemory>
    ensures { IfOk result (λ next. next ≡ spec.square_opened state.frames state.heads state.tail) }
{
    let State {
        frames,
        heads,
        tail,
    } = state;
    let mut frames = frames;
    match tail {
        Tail::AtPath(path) => {
            let name = Name {
                text: path.name.text.clone()?,
                span: path.name.span,
            };
            let bracket = Bracket::Square(path.start, name);
            let kids = alone(alloc, path_type(path))?;
            frames.push(Frame {
                bracket,
                count: Count::Zero,
                kids,
                heads,
            })?;
            Ok(State {
                frames,
                heads: Stack::new(alloc),
                tail: Tail::Begin,
            })
        }
        tail => Ok(State {
            frames,
            heads,
            tail,
        }),
    }
}

fn arrowed(alloc: Global, state: State) -> Result<State, NoMemory>
    ensures { IfOk result (λ next. next ≡ spec.arrowed state) }
{
    let State {
        frames,
        heads,
        tail,
    } = state;
    let mut heads = heads;
    heads.push(head_at(alloc, tail)?)?;
    Ok(State {
        frames,
        heads,
        tail: Tail::Begin,
    })
}

fn parted(alloc: Global, state: State) -> Result<State, NoMemory>
    ensures { IfOk result (λ next. next ≡ spec.parted state.frames state.heads state.tail) }
{
    let State {
        frames,
        heads,
        tail,
    } = state;
    let mut frames = frames;
    if let Some(frame) = frames.pop() {
        let kids = joined(frame.kids, type_at(alloc, heads, tail)?)?;
        frames.push(Frame {
            bracket: frame.bracket,
            count: counted(frame.count),
            kids,
            heads: frame.heads,
        })?;
    }
    Ok(State {
        frames,
        heads: Stack::new(alloc),
        tail: Tail::Begin,
    })
}

fn start_of(bracket: &Bracket) -> u32
    ensures { result ≡ spec.start_of bracket.now }
{
    match bracket {
        Bracket::Round(start) | Bracket::Square(start, _) => *start,
    }
}

fn round_closed(alloc: Global, state: State, end: u32) -> Result<State, NoMemory>
    ensures { IfOk result (λ next. next ≡ spec.round_closed end state.frames state.heads state.tail) }
{
    let State {
        frames,
        heads,
        tail,
    } = state;
    let mut frames = frames;
    let Some(frame) = frames.pop() else {
        return Ok(State {
            frames,
            heads: Stack::new(alloc),
            tail: Tail::Begin,
        });
    };
    let span = Span {
        start: start_of(&frame.bracket),
        end,
    };
    let group = match tail {
        Tail::Begin => Group {
            span,
            count: frame.count,
            kids: frame.kids,
        },
        tail => {
            let kids = joined(frame.kids, type_at(alloc, heads, tail)?)?;
            Group {
                span,
                count: counted(frame.count),
                kids,
            }
        }
    };
    Ok(State {
        frames,
        heads: frame.heads,
        tail: Tail::AtGroup(group),
    })
}

fn applied(bracket: Bracket, end: u32, kids: Option<Kids>) -> Ended
    ensures { result ≡ spec.applied bracket end kids }
{
    match bracket {
        Bracket::Round(start) => Ended {
            span: Span { start, end },
            tall: None,
        },
        Bracket::Square(start, name) => {
            let span = Span { start, end };
            Ended {
                span,
                tall: node(TreeKind::AppliedType, name.text, name.span, span, kids),
            }
        }
    }
}

fn square_closed(alloc: Global, state: State, end: u32) -> Result<State, NoMemory>
    ensures { IfOk result (λ next. next ≡ spec.square_closed end state.frames state.heads state.tail) }
{
    let State {
        frames,
        heads,
        tail,
    } = state;
    let mut frames = frames;
    let Some(frame) = frames.pop() else {
        return Ok(State {
            frames,
            heads: Stack::new(alloc),
            tail: Tail::Begin,
        });
    };
    let kids = joined(frame.kids, type_at(alloc, heads, tail)?)?;
    Ok(State {
        frames,
        heads: frame.heads,
        tail: Tail::AtEnded(applied(frame.bracket, end, kids)),
    })
}

/// The state after a token that can stand next.
#[tactic(auto, unfolding(crate::specs::Steps::advanced))]
pub fn advance(
    alloc: Global,
    state: State,
    symbol: Symbol,
    span: Span,
    word: &str,
) -> Result<State, NoMemory>
    ensures { IfOk result (λ next. next ≡ spec.advanced state symbol span word.now) }
{
    match symbol {
        Symbol::Id => named(alloc, state, span, word),
        Symbol::OpenRound => round_opened(alloc, state, span),
        Symbol::CloseRound => round_closed(alloc, state, span.end),
        Symbol::OpenSquare => square_opened(alloc, state),
        Symbol::CloseSquare => square_closed(alloc, state, span.end),
        Symbol::Comma => parted(alloc, state),
        Symbol::Dot => Ok(dotted(state)),
        Symbol::Arrow => arrowed(alloc, state),
        Symbol::TypeWord => singled(alloc, state, span),
        Symbol::Other => Ok(state),
    }
}
