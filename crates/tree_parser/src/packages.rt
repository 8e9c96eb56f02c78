//! The package clauses that a unit begins with (SLS 9.2).

ghost use Rattle.std.specs.Prelude.{◌≡◌, ◌+◌, ◌*◌, ◌++◌, ◌≤◌, IfOk, length, map, drop, codes};
ghost use Rattle.std.specs.List.{All};
ghost use Rattle.std.specs.Option.{ForSome};
ghost use Rattle.pc_terms.specs.Bytes.{max_source_bytes};
ghost use Rattle.parse_parts.specs.Words.{IsCut};
ghost use Rattle.source_grammar.specs.Brackets as grammar;
ghost use Rattle.source_grammar.specs.Lexemes.{lexeme_of};
ghost use Rattle.source_grammar.specs.Units as units;
ghost use Rattle.expr_tails.specs.Symbols.{symbol_of as symbol_at};
ghost use Rattle.expr_steps.specs.Steps.{name_of};
ghost use Rattle.template_steps.specs.Templates.{is_word};
ghost use Rattle.tree_parser.specs.Packaged as spec;

use expr_steps::operands::name_at;
use expr_tails::symbols::{Symbol, read_symbol};
use parse_parts::built::{Kids, Tall, joined, no_kids, node};
use parse_parts::words::word_in;
use pc_terms::{NoMemory, Row, Span, Text, TreeKind};
use positioned_trees::{Detail, Name};
use scan_tokens::{Newline, Token, TokenKind};
use std::alloc::Global;
use tree_lower::detailed;

/// The clauses, and the number of the token behind them and their separators.
#[derive(Debug, Drop)]
pub struct Packages {
    pub kids: Option<Kids>,
    pub behind: usize,
}

/// A clause without its separator, and the number of the token behind it.
#[derive(Debug, Drop)]
pub struct Clause {
    pub start: u32,
    pub names: Row<Name>,
    pub behind: usize,
}

#[tactic(auto, unfolding(source_grammar::specs::Lexemes::lexeme_of))]
fn symbol_of(text: &str, token: Token) -> Symbol
    requires { IsCut text.now token }
    ensures { result ≡ symbol_at (lexeme_of text.now token).kind (lexeme_of text.now token).word }
{
    read_symbol(token.kind, word_in(text, token).as_bytes())
}

// What stands first.
fn symbol_in(text: &str, tokens: &[Token]) -> Symbol
    requires { All (IsCut text.now) tokens.now }
    ensures { result ≡ spec.symbol_in (map (lexeme_of text.now) tokens.now) }
{
    match tokens {
        [first, ..] => symbol_of(text, *first),
        [] => Symbol::Other,
    }
}

#[tactic(auto, unfolding(source_grammar::specs::Lexemes::lexeme_of))]
fn is_package(text: &str, token: Token) -> bool
    requires { IsCut text.now token }
    ensures { result ≡ is_word (codes "package") (lexeme_of text.now token) }
{
    matches!(token.kind, TokenKind::Word)
        && word_in(text, token).as_bytes() == b"package".as_slice()
}

fn is_id(text: &str, tokens: &[Token]) -> bool
    requires { All (IsCut text.now) tokens.now }
    ensures { result ≡ spec.is_id (map (lexeme_of text.now) tokens.now) }
{
    matches!(symbol_in(text, tokens), Symbol::Id)
}

// A dot, and an identifier behind it.
fn is_step(text: &str, tokens: &[Token]) -> bool
    requires { All (IsCut text.now) tokens.now }
    ensures { result ≡ spec.is_step (map (lexeme_of text.now) tokens.now) }
{
    match tokens {
        [dot, behind @ ..] => {
            matches!(symbol_of(text, *dot), Symbol::Dot) && is_id(text, behind)
        }
        [] => false,
    }
}

#[tactic(auto, unfolding(source_grammar::specs::Lexemes::lexeme_of))]
fn name_in(alloc: Global, text: &str, token: Token) -> Result<Name, NoMemory>
    requires { IsCut text.now token }
    ensures { IfOk result (λ name. name ≡ name_of (lexeme_of text.now token)) }
{
    name_at(alloc, token, word_in(text, token))
}

// The names with those of the further steps of the path behind them.
fn with_steps(
    alloc: Global,
    text: &str,
    names: Row<Name>,
    tokens: &[Token],
) -> Result<Row<Name>, NoMemory>
    requires { All (IsCut text.now) tokens.now }
    ensures is { IfOk result (λ now. now ≡ names ++ spec.names_in (map (lexeme_of text.now) tokens.now)) }
    ensures few { IfOk result (λ now. 2 * length now ≤ 2 * length names + length tokens.now) }
{
    let mut names = names;
    let mut rest = tokens;
    'path: while let [_, name, behind @ ..] = rest {
        if !is_step(text, rest) {
            return Ok(names);
        }
        names.push(name_in(alloc, text, *name)?)?;
        rest = behind;
    }
    Ok(names)
}

// The path that these begin with, where the first of them has the number `at`.
fn path_at(
    alloc: Global,
    text: &str,
    start: u32,
    at: usize,
    tokens: &[Token],
) -> Result<Clause, NoMemory>
    requires cut { All (IsCut text.now) tokens.now }
    requires few { at + length tokens.now ≤ max_source_bytes }
    ensures is { IfOk result (λ clause. clause ≡ spec.path_of start at (map (lexeme_of text.now) tokens.now)) }
    ensures within { IfOk result (λ clause. clause.behind ≤ at + length tokens.now) }
{
    let mut names = Row::new(alloc);
    let [first, rest @ ..] = tokens else {
        return Ok(Clause {
            start,
            names,
            behind: at,
        })
    };
    names.push(name_in(alloc, text, *first)?)?;
    let names = with_steps(alloc, text, names, rest)?;
    let behind = at + 2 * names.len() - 1;
    Ok(Clause {
        start,
        names,
        behind,
    })
}

#[tactic(auto, unfolding(source_grammar::specs::Lexemes::lexeme_of))]
fn is_semicolon(text: &str, token: Token) -> bool
    requires { IsCut text.now token }
    ensures { result ≡ grammar.is_semicolon (lexeme_of text.now token) }
{
    matches!(token.kind, TokenKind::Delimiter) && word_in(text, token).as_bytes() == b";".as_slice()
}

#[tactic(auto, unfolding(source_grammar::specs::Lexemes::lexeme_of))]
fn separates(text: &str, token: Token) -> bool
    requires { IsCut text.now token }
    ensures { result ≡ grammar.separates (lexeme_of text.now token) }
{
    is_semicolon(text, token) || !matches!(token.before, Newline::No)
}

fn begins_apart(text: &str, tokens: &[Token]) -> bool
    requires { All (IsCut text.now) tokens.now }
    ensures { result ≡ units.begins_apart (map (lexeme_of text.now) tokens.now) }
{
    match tokens {
        [first, ..] => separates(text, *first),
        [] => false,
    }
}

// The clause, if a separator stands behind it.
fn parted_clause(text: &str, clause: Clause, behind: &[Token]) -> Option<Clause>
    requires { All (IsCut text.now) behind.now }
    ensures { result ≡ spec.parted_clause clause (map (lexeme_of text.now) behind.now) }
{
    if begins_apart(text, behind) {
        Some(clause)
    } else {
        None
    }
}

// The clause that stands first of these, of which the first has the number `at` among all.
#[tactic(auto, unfolding(source_grammar::specs::Lexemes::lexeme_of))]
fn clause_from(
    alloc: Global,
    text: &str,
    at: usize,
    tokens: &[Token],
) -> Result<Option<Clause>, NoMemory>
    requires cut { All (IsCut text.now) tokens.now }
    requires few { at + length tokens.now ≤ max_source_bytes }
    ensures is { IfOk result (λ clause. clause ≡ spec.clause_from at (map (lexeme_of text.now) tokens.now)) }
    ensures within { IfOk result (λ clause. ForSome clause (λ c. c.behind ≤ at + length tokens.now)) }
{
    let [word, rest @ ..] = tokens else {
        return Ok(None)
    };
    if is_package(text, *word) && is_id(text, rest) {
        Ok(Some(path_at(alloc, text, word.span.start, at + 1, rest)?))
    } else {
        Ok(None)
    }
}

// A clause with a separator behind it.
fn clause_at(
    alloc: Global,
    text: &str,
    tokens: &[Token],
    at: usize,
) -> Result<Option<Clause>, NoMemory>
    requires cut { All (IsCut text.now) tokens.now }
    requires few { length tokens.now ≤ max_source_bytes }
    requires within { at ≤ length tokens.now }
    ensures is { IfOk result (λ clause. clause ≡ spec.clause_at (map (lexeme_of text.now) tokens.now) at) }
    ensures within { IfOk result (λ clause. ForSome clause (λ c. c.behind ≤ length tokens.now)) }
{
    match clause_from(alloc, text, at, &tokens[at..])? {
        Some(clause) => {
            let behind = clause.behind;
            Ok(parted_clause(text, clause, &tokens[behind..]))
        }
        None => Ok(None),
    }
}

// How many semicolons stand first.
fn semicolons(text: &str, tokens: &[Token]) -> usize
    requires { All (IsCut text.now) tokens.now }
    ensures is { result ≡ spec.semicolons (map (lexeme_of text.now) tokens.now) }
    ensures within { result ≤ length tokens.now }
{
    let mut count = 0;
    for token in tokens {
        if !is_semicolon(text, *token) {
            return count;
        }
        count += 1;
    }
    count
}

// The number of the token behind a clause and its separator.
fn behind_clause(text: &str, tokens: &[Token], behind: usize) -> usize
    requires cut { All (IsCut text.now) tokens.now }
    requires within { behind ≤ length tokens.now }
    ensures is { result ≡ behind + spec.semicolons (drop behind (map (lexeme_of text.now) tokens.now)) }
    ensures within { result ≤ length tokens.now }
{
    behind + semicolons(text, &tokens[behind..])
}

fn path_span(names: &Row<Name>) -> Span
    ensures { result ≡ spec.path_span names.now }
{
    match names.as_slice() {
        [first, .., last] => Span {
            start: first.span.start,
            end: last.span.end,
        },
        [only] => only.span,
        [] => Span { start: 0, end: 0 },
    }
}

// The names with dots between them.
fn path_text(alloc: Global, names: &Row<Name>) -> Result<Text, NoMemory>
    ensures { IfOk result (λ text. text ≡ spec.path_text names.now) }
{
    let mut text = Text::new(alloc, "")?;
    let mut is_first = true;
    for name in names.as_slice() {
        if !is_first {
            text.push_str(".")?;
        }
        is_first = false;
        text.push_str(name.text.as_str())?;
    }
    Ok(text)
}

fn package_tree(alloc: Global, clause: Clause) -> Result<Option<Tall>, NoMemory>
    ensures { IfOk result (λ tall. tall ≡ spec.clause_tree clause) }
{
    let place = path_span(&clause.names);
    let label = path_text(alloc, &clause.names)?;
    let span = Span {
        start: clause.start,
        end: place.end,
    };
    let tall = node(TreeKind::Package, label, place, span, no_kids(alloc));
    Ok(detailed(tall, Detail::Package(clause.names)))
}

/// The package clauses that these tokens begin with.
pub fn packages_of(alloc: Global, text: &str, tokens: &[Token]) -> Result<Packages, NoMemory>
    requires cut { All (IsCut text.now) tokens.now }
    requires few { length tokens.now ≤ max_source_bytes }
    ensures is { IfOk result (λ now. now ≡ spec.packages_of (map (lexeme_of text.now) tokens.now)) }
    ensures within { IfOk result (λ now. now.behind ≤ length tokens.now) }
{
    let mut kids = no_kids(alloc);
    let mut at = 0;
    for _count in 0..tokens.len() {
        match clause_at(alloc, text, tokens, at)? {
            Some(clause) => {
                at = behind_clause(text, tokens, clause.behind);
                kids = joined(kids, package_tree(alloc, clause)?)?;
            }
            None => return Ok(Packages { kids, behind: at }),
        }
    }
    Ok(Packages { kids, behind: at })
}
