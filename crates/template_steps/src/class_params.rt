//! The parameters of a class (SLS 5.3).

ghost use Rattle.std.specs.Prelude.{◌≡◌, IfOk};
ghost use Rattle.def_steps.specs.Heads.{goes_on as type_goes_on};
ghost use Rattle.parse_patterns.specs.Names.{lexeme_with};
ghost use Rattle.template_steps.specs.ClassParams as spec;

use def_steps::definitions::{begun as mods_begun, step as step_mods};
use def_steps::modifiers::{may_end, mods_at};
use def_steps::params::{is_plain, one_more};
use def_steps::states::{Found, State as DefState, Tail as DefTail};
use expr_frames::beside;
use expr_steps::operands::{name_at, type_on};
use expr_tails::symbols::{Symbol, Word, read_symbol};
use expr_tails::types::{is_type, type_begun, type_of};
use parse_parts::built::{Kids, Tall, joined, no_kids, node};
use parse_parts::read_symbol as read_type_symbol;
use parse_parts::states::State as TypeState;
use parse_parts::steps::{admits, alone, tail_end};
use pc_terms::{NoMemory, Span, TreeKind};
use positioned_trees::{Detail, Modifiers, Name, ParamKeyword, ParamParts};
use scan_tokens::Token;
use sqlite_items::Boxed;
use std::alloc::Global;
use tree_lower::detailed;

/// What stands before the name of a parameter, and where it starts.
#[derive(Clone, Copy, Debug, PartialEq, Eq)]
pub struct ParamStart {
    pub start: u32,
    pub modifiers: Modifiers,
    pub keyword: ParamKeyword,
}

#[derive(Debug, Drop)]
pub enum ParamTail {
    /// Whether the list can end here.
    Begin(bool),
    /// In its modifiers, of which the first starts here.
    InMods(u32, Boxed<DefState>),
    /// Behind `val` or `var`.
    AtKeyword(ParamStart),
    AtName(ParamStart, Name),
    InType(ParamStart, Name, TypeState),
    /// Behind the `*` of a repeated parameter, which is the last.
    AtStar(Option<Tall>),
}

/// The parameters that were read.
#[derive(Debug, Drop)]
pub struct ParamList {
    pub kids: Option<Kids>,
    pub count: u32,
}

/// The parameters behind one token more.
#[derive(Debug, Drop)]
pub enum Params {
    Open(ParamList, ParamTail),
    Closed(ParamList),
}

pub fn no_params(alloc: Global) -> ParamList
    ensures { result ≡ spec.no_params }
{
    ParamList {
        kids: no_kids(alloc),
        count: 0,
    }
}

fn with_param(list: ParamList, param: Option<Tall>) -> Result<ParamList, NoMemory>
    ensures { IfOk result (λ now. now ≡ spec.with_param list param) }
{
    Ok(ParamList {
        kids: joined(list.kids, param)?,
        count: one_more(list.count),
    })
}

fn param_tree(
    alloc: Global,
    begun: ParamStart,
    name: Name,
    ty: Option<Tall>,
    end: u32,
    repeated: bool,
) -> Result<Option<Tall>, NoMemory>
    ensures { IfOk result (λ now. now ≡ spec.param_tree begun name ty end repeated) }
{
    let span = Span {
        start: begun.start,
        end,
    };
    let detail = Detail::Param(ParamParts {
        modifiers: begun.modifiers,
        keyword: begun.keyword,
        binds: true,
        repeated,
    });
    let kids = alone(alloc, ty)?;
    Ok(detailed(
        node(TreeKind::Param, name.text, name.span, span, kids),
        detail,
    ))
}

fn still_open(list: ParamList, tail: ParamTail) -> Option<Params>
    ensures { result ≡ spec.still_open list tail }
{
    Some(Params::Open(list, tail))
}

fn keyword_read(begun: ParamStart, keyword: ParamKeyword) -> ParamTail
    ensures { result ≡ spec.keyword_read begun keyword }
{
    ParamTail::AtKeyword(ParamStart { keyword, ..begun })
}

// The keyword or name behind the modifiers.
fn behind_mods(
    alloc: Global,
    list: ParamList,
    begun: ParamStart,
    symbol: Symbol,
    token: Token,
    word: &str,
) -> Result<Option<Params>, NoMemory>
    ensures { IfOk result (λ now. now ≡ spec.behind_mods list begun symbol (lexeme_with token word.now)) }
{
    match symbol {
        Symbol::Id => {
            let name = beside!(list; name_at(alloc, token, word));
            Ok(still_open(list, ParamTail::AtName(begun, name)))
        }
        Symbol::Word(Word::Val) => Ok(still_open(list, keyword_read(begun, ParamKeyword::Val))),
        Symbol::Word(Word::Var) => Ok(still_open(list, keyword_read(begun, ParamKeyword::Var))),
        _ => {
            drop(list);
            Ok(None)
        }
    }
}

fn ends_mods(symbol: Symbol) -> bool
    ensures { result ≡ spec.ends_mods symbol }
{
    matches!(
        symbol,
        Symbol::Id | Symbol::Word(Word::Val) | Symbol::Word(Word::Var)
    )
}

// Whether the word of a definition was read behind the modifiers.
fn is_definition_begun(state: &DefState) -> bool
    ensures { result ≡ spec.is_definition_begun state.now }
{
    matches!(state.tail, DefTail::AtDef(_) | DefTail::AtType(_))
}

// A state of modifiers, put where its size does not count.
pub fn boxed(alloc: Global, mods: DefState) -> Result<Boxed<DefState>, NoMemory>
    ensures { IfOk result (λ now. now ≡ mods) }
{
    Ok(Boxed::new(alloc, mods)?)
}

fn mods_on(
    alloc: Global,
    list: ParamList,
    start: u32,
    mods: Option<DefState>,
) -> Result<Option<Params>, NoMemory>
    ensures { IfOk result (λ now. now ≡ spec.mods_on list start mods) }
{
    match mods {
        Some(mods) => {
            if is_definition_begun(&mods) {
                drop(list);
                drop(mods);
                Ok(None)
            } else {
                let mods = beside!(list; boxed(alloc, mods));
                Ok(still_open(list, ParamTail::InMods(start, mods)))
            }
        }
        None => {
            drop(list);
            Ok(None)
        }
    }
}

fn behind_found(
    alloc: Global,
    list: ParamList,
    start: u32,
    found: Option<Found>,
    symbol: Symbol,
    token: Token,
    word: &str,
) -> Result<Option<Params>, NoMemory>
    ensures { IfOk result (λ now. now ≡ spec.behind_found list start found symbol (lexeme_with token word.now)) }
{
    match found {
        Some(found) => {
            let begun = ParamStart {
                start,
                modifiers: found.modifiers,
                keyword: ParamKeyword::Missing,
            };
            behind_mods(alloc, list, begun, symbol, token, word)
        }
        None => {
            drop(list);
            Ok(None)
        }
    }
}

fn in_mods(
    alloc: Global,
    list: ParamList,
    start: u32,
    mods: DefState,
    symbol: Symbol,
    token: Token,
    word: &str,
) -> Result<Option<Params>, NoMemory>
    ensures { IfOk result (λ now. now ≡ spec.in_mods list start mods symbol (lexeme_with token word.now)) }
{
    if ends_mods(symbol) && may_end(&mods.tail) {
        let found = mods_at(mods, token.before);
        behind_found(alloc, list, start, found, symbol, token, word)
    } else {
        let mods = beside!(list; step_mods(alloc, mods, token, word));
        mods_on(alloc, list, start, mods)
    }
}

fn at_begin(
    alloc: Global,
    list: ParamList,
    may_close: bool,
    symbol: Symbol,
    token: Token,
    word: &str,
) -> Result<Option<Params>, NoMemory>
    ensures { IfOk result (λ now. now ≡ spec.at_begin list may_close symbol (lexeme_with token word.now)) }
{
    match symbol {
        Symbol::CloseRound => {
            if may_close {
                Ok(Some(Params::Closed(list)))
            } else {
                drop(list);
                Ok(None)
            }
        }
        _ => in_mods(
            alloc,
            list,
            token.span.start,
            mods_begun(),
            symbol,
            token,
            word,
        ),
    }
}

fn is_star(token: Token, word: &str) -> bool
    ensures { result ≡ spec.is_star (lexeme_with token word.now) }
{
    is_plain(token) && word.as_bytes() == b"*".as_slice()
}

// The parameter that ends with its type, as a tree.
fn typed_param(
    alloc: Global,
    begun: ParamStart,
    name: Name,
    ty: TypeState,
) -> Result<Option<Tall>, NoMemory>
    ensures { IfOk result (λ now. now ≡ spec.typed_param begun name ty) }
{
    let end = tail_end(&ty.tail);
    let tall = type_of(alloc, ty)?;
    param_tree(alloc, begun, name, tall, end, false)
}

fn starred(
    alloc: Global,
    list: ParamList,
    begun: ParamStart,
    name: Name,
    ty: TypeState,
    token: Token,
    word: &str,
) -> Result<Option<Params>, NoMemory>
    ensures { IfOk result (λ now. now ≡ spec.starred list begun name ty (lexeme_with token word.now)) }
{
    if is_star(token, word) {
        let tall = beside!(list; type_of(alloc, ty));
        let param = beside!(list; param_tree(alloc, begun, name, tall, token.span.end, true));
        Ok(still_open(list, ParamTail::AtStar(param)))
    } else {
        drop(list);
        drop(ty);
        Ok(None)
    }
}

fn behind_type(
    alloc: Global,
    list: ParamList,
    begun: ParamStart,
    name: Name,
    ty: TypeState,
    symbol: Symbol,
    token: Token,
    word: &str,
) -> Result<Option<Params>, NoMemory>
    ensures { IfOk result (λ now. now ≡ spec.behind_type list begun name ty symbol (lexeme_with token word.now)) }
{
    match symbol {
        Symbol::Id => starred(alloc, list, begun, name, ty, token, word),
        Symbol::Comma => {
            let param = beside!(list; typed_param(alloc, begun, name, ty));
            let list = with_param(list, param)?;
            Ok(still_open(list, ParamTail::Begin(false)))
        }
        Symbol::CloseRound => {
            let param = beside!(list; typed_param(alloc, begun, name, ty));
            let list = with_param(list, param)?;
            Ok(Some(Params::Closed(list)))
        }
        _ => {
            drop(list);
            drop(ty);
            Ok(None)
        }
    }
}

/// Whether a type goes on with the token.
pub fn goes_on(ty: &TypeState, token: Token, word: &str) -> bool
    ensures { result ≡ type_goes_on ty.now (lexeme_with token word.now) }
{
    admits(ty, read_type_symbol(token.kind, word.as_bytes()))
}

fn in_type(
    alloc: Global,
    list: ParamList,
    begun: ParamStart,
    name: Name,
    ty: TypeState,
    symbol: Symbol,
    token: Token,
    word: &str,
) -> Result<Option<Params>, NoMemory>
    ensures { IfOk result (λ now. now ≡ spec.in_type list begun name ty symbol (lexeme_with token word.now)) }
{
    if goes_on(&ty, token, word) {
        let ty = beside!(list; type_on(alloc, ty, token, word));
        Ok(still_open(list, ParamTail::InType(begun, name, ty)))
    } else if is_type(&ty) {
        behind_type(alloc, list, begun, name, ty, symbol, token, word)
    } else {
        drop(list);
        drop(ty);
        Ok(None)
    }
}

fn at_keyword(
    alloc: Global,
    list: ParamList,
    begun: ParamStart,
    symbol: Symbol,
    token: Token,
    word: &str,
) -> Result<Option<Params>, NoMemory>
    ensures { IfOk result (λ now. now ≡ spec.at_keyword list begun symbol (lexeme_with token word.now)) }
{
    match symbol {
        Symbol::Id => {
            let name = beside!(list; name_at(alloc, token, word));
            Ok(still_open(list, ParamTail::AtName(begun, name)))
        }
        _ => {
            drop(list);
            Ok(None)
        }
    }
}

fn at_name(
    alloc: Global,
    list: ParamList,
    begun: ParamStart,
    name: Name,
    symbol: Symbol,
) -> Option<Params>
    ensures { result ≡ spec.at_name list begun name symbol }
{
    match symbol {
        Symbol::Colon => still_open(list, ParamTail::InType(begun, name, type_begun(alloc))),
        _ => {
            drop(list);
            None
        }
    }
}

fn at_star(list: ParamList, param: Option<Tall>, symbol: Symbol) -> Result<Option<Params>, NoMemory>
    ensures { IfOk result (λ now. now ≡ spec.at_star list param symbol) }
{
    match symbol {
        Symbol::CloseRound => Ok(Some(Params::Closed(with_param(list, param)?))),
        _ => {
            drop(list);
            drop(param);
            Ok(None)
        }
    }
}

/// The parameters behind one token more, if it can stand next.
pub fn step_params(
    alloc: Global,
    list: ParamList,
    tail: ParamTail,
    token: Token,
    word: &str,
) -> Result<Option<Params>, NoMemory>
    ensures { IfOk result (λ now. now ≡ spec.step_params list tail (lexeme_with token word.now)) }
{
    let symbol = read_symbol(token.kind, word.as_bytes());
    match tail {
        ParamTail::Begin(may_close) => at_begin(alloc, list, may_close, symbol, token, word),
        ParamTail::InMods(start, mods) => in_mods(
            alloc,
            list,
            start,
            mods.into_inner(),
            symbol,
            token,
            word,
        ),
        ParamTail::AtKeyword(begun) => at_keyword(alloc, list, begun, symbol, token, word),
        ParamTail::AtName(begun, name) => Ok(at_name(alloc, list, begun, name, symbol)),
        ParamTail::InType(begun, name, ty) => in_type(
            alloc, list, begun, name, ty, symbol, token, word,
        ),
        ParamTail::AtStar(param) => at_star(list, param, symbol),
    }
}
