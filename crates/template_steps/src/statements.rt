//! One statement of a list around which no expression is.

ghost use Rattle.std.specs.Prelude.{◌≡◌, IfOk};
ghost use Rattle.std.specs.Option.{option_map};
ghost use Rattle.parse_patterns.specs.Names.{lexeme_with};
ghost use Rattle.expr_tails.specs.Ending.{is_wild as is_wild_tail};
ghost use Rattle.template_steps.specs.Pieces.{IsPieceOf, part_in, shape_of};
ghost use Rattle.template_steps.specs.Statements as spec;

use crate::class_params::boxed;
use crate::constructors::{is_in_arguments, is_named};
use crate::heads::{Form, Marks, admitted, no_marks};
use crate::pieces::{Body, Contents, Piece, body_shape, body_taken};
use crate::templates::{
    Template, begun as template_begun, form_of, is_template, step as step_template,
    step_body as step_template_body, step_braces as step_template_braces, template_at,
};
use def_steps::declarations::{declaration_at, is_declaration};
use def_steps::definitions::{
    begins_definition, begun as definition_begun, definition_at, is_definition, step as step_def,
    step_braces as step_def_braces,
};
use def_steps::modifiers::{is_in_modifiers, mods_at};
use def_steps::states::{State as DefState, Tail as DefTail};
use expr_steps::braces::step_braces as step_expr_braces;
use expr_steps::steps::{begun as expr_begun, built_at, is_read, step as step_expr};
use expr_tails::ending::is_first;
use expr_tails::items::{Braces, Built, Inside};
use expr_tails::states::{Limit, State as ExprState, Tail as ExprTail};
use expr_tails::symbols::{Symbol, Word, read_symbol};
use import_steps::imports::{
    Import, begun as import_begun, import_at, is_import, step as step_import,
    step_braces as step_selectors,
};
use parse_exprs::items::{Item, braces_shape, braces_taken};
use parse_parts::built::Tall;
use parse_parts::words::word_in;
use pc_terms::{NoMemory, Span};
use positioned_trees::Modifiers;
use scan_tokens::{Newline, Token};
use sqlite_items::Boxed;
use std::alloc::Global;

/// The lists around which no expression is.
#[derive(Clone, Copy, Debug, PartialEq, Eq)]
pub enum ListKind {
    Unit,
    Template,
    /// The block of a `def` without `=`.
    Procedure,
}

/// What was read of a statement.
#[derive(Debug, Drop)]
pub enum Statement {
    Begin,
    Import(Import),
    /// Modifiers, with those that templates alone admit.
    Modified(Marks, Boxed<DefState>),
    Definition(Boxed<DefState>),
    Template(Boxed<Template>),
    Expr(Boxed<ExprState>),
}

// ---- in boxes, since a statement goes from call to call

fn import_by(state: Option<Import>) -> Option<Statement>
    ensures { result ≡ option_map Statement.Import state }
{
    match state {
        Some(import) => Some(Statement::Import(import)),
        None => None,
    }
}

fn definition_by(alloc: Global, state: Option<DefState>) -> Result<Option<Statement>, NoMemory>
    ensures { IfOk result (λ now. now ≡ option_map Statement.Definition state) }
{
    match state {
        Some(state) => Ok(Some(Statement::Definition(boxed(alloc, state)?))),
        None => Ok(None),
    }
}

fn template_by(alloc: Global, template: Option<Template>) -> Result<Option<Statement>, NoMemory>
    ensures { IfOk result (λ now. now ≡ option_map Statement.Template template) }
{
    match template {
        Some(template) => Ok(Some(Statement::Template(Boxed::new(alloc, template)?))),
        None => Ok(None),
    }
}

fn expr_by(alloc: Global, state: Option<ExprState>) -> Result<Option<Statement>, NoMemory>
    ensures { IfOk result (λ now. now ≡ option_map Statement.Expr state) }
{
    match state {
        Some(state) => Ok(Some(Statement::Expr(Boxed::new(alloc, state)?))),
        None => Ok(None),
    }
}

// ---- what is whole

fn is_wild(tail: &ExprTail) -> bool
    ensures { result ≡ is_wild_tail tail.now }
{
    matches!(tail, ExprTail::AtWild(_))
}

// Whether what was read is `_` alone, which no expression binds.
fn is_placeholder(state: &ExprState) -> bool
    ensures { result ≡ spec.is_placeholder state.now }
{
    let context = &state.context;
    is_wild(&context.tail) && context.heads.is_empty() && is_first(context)
}

// Whether nothing in the definition is free.
fn binds_all(state: &DefState) -> bool
    ensures { result ≡ spec.binds_all state.now }
{
    match &state.tail {
        DefTail::InValue(_, right) => !is_placeholder(right.get()),
        DefTail::InMethod(_, right) => !is_placeholder(right.get()),
        DefTail::AtProcedure(built) => built.free.is_empty(),
        _ => true,
    }
}

fn is_declared(kind: ListKind, state: &DefState) -> bool
    ensures { result ≡ spec.is_declared kind state.now }
{
    matches!(kind, ListKind::Template) && is_declaration(state)
}

fn is_whole_definition(kind: ListKind, state: &DefState) -> bool
    ensures { result ≡ spec.is_whole_definition kind state.now }
{
    (is_definition(state) && binds_all(state)) || is_declared(kind, state)
}

/// Whether what was read is a statement of a list of this kind.
pub fn is_whole(kind: ListKind, statement: &Statement) -> bool
    ensures { result ≡ spec.is_whole kind statement.now }
{
    match statement {
        Statement::Begin => false,
        Statement::Modified(..) => false,
        Statement::Import(import) => is_import(import),
        Statement::Definition(state) => is_whole_definition(kind, state.get()),
        Statement::Template(template) => is_template(template.get()),
        Statement::Expr(state) => is_read(state.get()) && !is_placeholder(state.get()),
    }
}

fn tall_of(built: Built) -> Option<Tall>
    ensures { result ≡ built.tall }
{
    let Built { tall, free } = built;
    drop(free);
    tall
}

fn definition_tree(alloc: Global, state: DefState, end: u32) -> Result<Option<Tall>, NoMemory>
    ensures { IfOk result (λ now. now ≡ spec.definition_tree state end) }
{
    if is_declaration(&state) {
        Ok(tall_of(declaration_at(alloc, state, end)?))
    } else {
        Ok(tall_of(definition_at(alloc, state)?))
    }
}

/// The tree of the statement that was read, whose last piece ends here.
pub fn built(alloc: Global, statement: Statement, end: u32) -> Result<Option<Tall>, NoMemory>
    ensures { IfOk result (λ now. now ≡ spec.built statement end) }
{
    match statement {
        Statement::Begin => Ok(None),
        Statement::Modified(_, state) => {
            drop(state);
            Ok(None)
        }
        Statement::Import(import) => Ok(tall_of(import_at(alloc, import)?)),
        Statement::Definition(state) => definition_tree(alloc, state.into_inner(), end),
        Statement::Template(template) => template_at(alloc, template.into_inner(), end),
        Statement::Expr(state) => Ok(tall_of(built_at(alloc, state.into_inner())?)),
    }
}

// ---- modifiers

fn marked_by(symbol: Symbol, marks: Marks) -> Marks
    ensures { result ≡ spec.marked_by symbol marks }
{
    match symbol {
        Symbol::Word(Word::Abstract) => Marks {
            abstract_: true,
            ..marks
        },
        Symbol::Word(Word::Sealed) => Marks {
            sealed_: true,
            ..marks
        },
        Symbol::Word(Word::Case) => Marks {
            case_: true,
            ..marks
        },
        _ => marks,
    }
}

fn marked(marks: Marks, state: &DefState, symbol: Symbol) -> Marks
    ensures { result ≡ spec.marked marks state.now symbol }
{
    if is_in_arguments(&state.tail) {
        marks
    } else {
        marked_by(symbol, marks)
    }
}

fn is_unit(kind: ListKind) -> bool
    ensures { result ≡ spec.is_unit kind }
{
    matches!(kind, ListKind::Unit)
}

fn is_procedure(kind: ListKind) -> bool
    ensures { result ≡ spec.is_procedure kind }
{
    matches!(kind, ListKind::Procedure)
}

// A unit has no definitions but templates.
fn sorted_state(
    alloc: Global,
    kind: ListKind,
    marks: Marks,
    state: DefState,
) -> Result<Option<Statement>, NoMemory>
    ensures { IfOk result (λ now. now ≡ spec.sorted_state kind marks state) }
{
    if is_in_modifiers(&state.tail) {
        Ok(Some(Statement::Modified(marks, boxed(alloc, state)?)))
    } else if is_unit(kind) {
        drop(state);
        Ok(None)
    } else {
        Ok(Some(Statement::Definition(boxed(alloc, state)?)))
    }
}

fn sorted(
    alloc: Global,
    kind: ListKind,
    marks: Marks,
    state: Option<DefState>,
) -> Result<Option<Statement>, NoMemory>
    ensures { IfOk result (λ now. now ≡ spec.sorted kind marks state) }
{
    match state {
        Some(state) => sorted_state(alloc, kind, marks, state),
        None => Ok(None),
    }
}

#[inline(always)]
fn modified_on(
    alloc: Global,
    kind: ListKind,
    marks: Marks,
    state: DefState,
    token: Token,
    word: &str,
) -> Result<Option<Statement>, NoMemory>
    ensures { IfOk result (λ now. now ≡ spec.modified_on kind marks state (lexeme_with token word.now)) }
{
    let marks = marked(marks, &state, read_symbol(token.kind, word.as_bytes()));
    let state = step_def(alloc, state, token, word)?;
    sorted(alloc, kind, marks, state)
}

#[inline(always)]
fn template_behind(
    alloc: Global,
    form: Form,
    marks: Marks,
    state: DefState,
    token: Token,
) -> Result<Option<Statement>, NoMemory>
    ensures { IfOk result (λ now. now ≡ spec.template_behind form marks state token.span.start token.before) }
{
    match mods_at(state, token.before) {
        Some(found) => {
            let modifiers: Modifiers = admitted(form, found, marks);
            let template = template_begun(form, modifiers, token.span.start);
            template_by(alloc, Some(template))
        }
        None => Ok(None),
    }
}

// The word of a template ends modifiers; in the arguments of an annotation it is one token of these.
fn template_form(kind: ListKind, state: &DefState, token: Token, word: &str) -> Option<Form>
    ensures { result ≡ spec.template_form kind state.now (lexeme_with token word.now) }
{
    if is_procedure(kind) || is_in_arguments(&state.tail) {
        None
    } else {
        form_of(token, word)
    }
}

#[inline(always)]
fn behind_modifiers(
    alloc: Global,
    kind: ListKind,
    marks: Marks,
    state: DefState,
    token: Token,
    word: &str,
) -> Result<Option<Statement>, NoMemory>
    ensures { IfOk result (λ now. now ≡ spec.behind_modifiers kind marks state (lexeme_with token word.now)) }
{
    match template_form(kind, &state, token, word) {
        Some(form) => template_behind(alloc, form, marks, state, token),
        None => modified_on(alloc, kind, marks, state, token, word),
    }
}

// ---- the first piece

fn expr_of(
    alloc: Global,
    kind: ListKind,
    token: Token,
    word: &str,
) -> Result<Option<Statement>, NoMemory>
    ensures { IfOk result (λ now. now ≡ spec.expr_of kind (lexeme_with token word.now)) }
{
    if is_unit(kind) {
        Ok(None)
    } else {
        let state = step_expr(alloc, expr_begun(alloc, Limit::Expr), token, word)?;
        expr_by(alloc, state)
    }
}

// Whether the token begins a definition, or modifiers before one.
fn begins_modifiers(kind: ListKind, symbol: Symbol, token: Token, word: &str) -> bool
    ensures { result ≡ spec.begins_modifiers kind symbol (lexeme_with token word.now) }
{
    let state = definition_begun();
    let form = template_form(kind, &state, token, word);
    drop(state);
    begins_definition(symbol) || form.is_some()
}

fn first_by(
    alloc: Global,
    kind: ListKind,
    symbol: Symbol,
    token: Token,
    word: &str,
) -> Result<Option<Statement>, NoMemory>
    ensures { IfOk result (λ now. now ≡ spec.first_by kind symbol (lexeme_with token word.now)) }
{
    if begins_modifiers(kind, symbol, token, word) {
        behind_modifiers(alloc, kind, no_marks(), definition_begun(), token, word)
    } else {
        expr_of(alloc, kind, token, word)
    }
}

#[inline(always)]
fn first_token(
    alloc: Global,
    kind: ListKind,
    token: Token,
    word: &str,
) -> Result<Option<Statement>, NoMemory>
    ensures { IfOk result (λ now. now ≡ spec.first_token kind (lexeme_with token word.now)) }
{
    match read_symbol(token.kind, word.as_bytes()) {
        Symbol::Word(Word::Import) => Ok(Some(Statement::Import(import_begun(
            alloc,
            token.span.start,
        )))),
        symbol => first_by(alloc, kind, symbol, token, word),
    }
}

// ---- one piece more

#[inline(always)]
fn step_token(
    alloc: Global,
    kind: ListKind,
    statement: Statement,
    token: Token,
    word: &str,
) -> Result<Option<Statement>, NoMemory>
    ensures { IfOk result (λ now. now ≡ spec.step_token kind statement (lexeme_with token word.now)) }
{
    match statement {
        Statement::Begin => first_token(alloc, kind, token, word),
        Statement::Import(import) => Ok(import_by(step_import(alloc, import, token, word)?)),
        Statement::Modified(marks, state) => behind_modifiers(
            alloc,
            kind,
            marks,
            state.into_inner(),
            token,
            word,
        ),
        Statement::Definition(state) => {
            let state = step_def(alloc, state.into_inner(), token, word)?;
            definition_by(alloc, state)
        }
        Statement::Template(template) => {
            let template = step_template(alloc, template.into_inner(), token, word)?;
            template_by(alloc, template)
        }
        Statement::Expr(state) => {
            let state = step_expr(alloc, state.into_inner(), token, word)?;
            expr_by(alloc, state)
        }
    }
}

fn braces_first(
    alloc: Global,
    kind: ListKind,
    braces: Braces,
) -> Result<Option<Statement>, NoMemory>
    ensures { IfOk result (λ now. now ≡ spec.braces_first kind braces) }
{
    if is_unit(kind) {
        drop(braces);
        Ok(None)
    } else {
        let state = step_expr_braces(alloc, expr_begun(alloc, Limit::Expr), braces)?;
        expr_by(alloc, state)
    }
}

#[inline(always)]
fn step_pair(
    alloc: Global,
    kind: ListKind,
    statement: Statement,
    braces: Braces,
) -> Result<Option<Statement>, NoMemory>
    ensures { IfOk result (λ now. now ≡ spec.step_pair kind statement braces) }
{
    match statement {
        Statement::Begin => braces_first(alloc, kind, braces),
        Statement::Import(import) => Ok(import_by(step_selectors(import, braces))),
        Statement::Modified(marks, state) => {
            let state = step_def_braces(alloc, state.into_inner(), braces)?;
            sorted(alloc, kind, marks, state)
        }
        Statement::Definition(state) => {
            let state = step_def_braces(alloc, state.into_inner(), braces)?;
            definition_by(alloc, state)
        }
        Statement::Template(template) => {
            let template = step_template_braces(alloc, template.into_inner(), braces)?;
            template_by(alloc, template)
        }
        Statement::Expr(state) => {
            let state = step_expr_braces(alloc, state.into_inner(), braces)?;
            expr_by(alloc, state)
        }
    }
}

fn block_braces(span: Span, before: Newline, block: Built) -> Braces
    ensures { result ≡ spec.block_braces span before block }
{
    Braces {
        span,
        before,
        inside: Inside::Block(block),
        selectors: None,
    }
}

// Whether a block without `=` may stand behind the head that was read.
fn asks_procedure(statement: &Statement) -> bool
    ensures { result ≡ spec.asks_procedure statement.now }
{
    match statement {
        Statement::Definition(state) => is_named(state.get()),
        _ => false,
    }
}

fn procedure_in(
    alloc: Global,
    state: DefState,
    span: Span,
    before: Newline,
    contents: Contents,
) -> Result<Option<Statement>, NoMemory>
    ensures { IfOk result (λ now. now ≡ spec.procedure_in state span before contents) }
{
    match contents {
        Contents::Procedure(Some(block)) => {
            let braces = block_braces(span, before, block);
            let state = step_def_braces(alloc, state, braces)?;
            definition_by(alloc, state)
        }
        contents => {
            drop(state);
            drop(contents);
            Ok(None)
        }
    }
}

fn procedure_of(
    alloc: Global,
    statement: Statement,
    span: Span,
    before: Newline,
    contents: Contents,
) -> Result<Option<Statement>, NoMemory>
    ensures { IfOk result (λ now. now ≡ spec.procedure_of statement span before contents) }
{
    match statement {
        Statement::Definition(state) => procedure_in(
            alloc,
            state.into_inner(),
            span,
            before,
            contents,
        ),
        statement => {
            drop(statement);
            drop(contents);
            Ok(None)
        }
    }
}

fn template_of(
    alloc: Global,
    template: Template,
    before: Newline,
    contents: Contents,
) -> Result<Option<Statement>, NoMemory>
    ensures { IfOk result (λ now. now ≡ spec.template_of template before contents) }
{
    match contents {
        Contents::Template(statements) => {
            let template = step_template_body(alloc, template, before, statements)?;
            template_by(alloc, template)
        }
        contents => {
            drop(template);
            drop(contents);
            Ok(None)
        }
    }
}

fn plain_of(
    alloc: Global,
    kind: ListKind,
    statement: Statement,
    plain: Option<Braces>,
) -> Result<Option<Statement>, NoMemory>
    ensures { IfOk result (λ now. now ≡ spec.plain_of kind statement plain) }
{
    match plain {
        Some(braces) => step_pair(alloc, kind, statement, braces),
        None => {
            drop(statement);
            Ok(None)
        }
    }
}

fn body_in(
    alloc: Global,
    kind: ListKind,
    statement: Statement,
    before: Newline,
    contents: Contents,
    plain: Option<Braces>,
) -> Result<Option<Statement>, NoMemory>
    ensures { IfOk result (λ now. now ≡ spec.body_in kind statement before contents plain) }
{
    match statement {
        Statement::Template(template) => {
            drop(plain);
            template_of(alloc, template.into_inner(), before, contents)
        }
        statement => {
            drop(contents);
            plain_of(alloc, kind, statement, plain)
        }
    }
}

#[inline(always)]
fn step_body(
    alloc: Global,
    kind: ListKind,
    statement: Statement,
    body: Body,
) -> Result<Option<Statement>, NoMemory>
    ensures { IfOk result (λ now. now ≡ spec.step_body kind statement body) }
{
    let Body {
        span,
        before,
        contents,
        plain,
    } = body;
    if asks_procedure(&statement) {
        drop(plain);
        procedure_of(alloc, statement, span, before, contents)
    } else {
        body_in(alloc, kind, statement, before, contents, plain)
    }
}

/// The statement with one piece more, if it can stand next. The shape of the piece stays in its place.
#[tactic(auto, unfolding(source_grammar::specs::Lexemes::lexeme_of))]
#[inline(always)]
pub fn step_taking(
    alloc: Global,
    text: &str,
    kind: ListKind,
    statement: Statement,
    piece: &mut Piece,
) -> Result<Option<Statement>, NoMemory>
    requires { IsPieceOf text.now piece.old }
    ensures is { IfOk result (λ now. now ≡ spec.stepped kind statement (part_in text.now piece.old)) }
    ensures words { IfOk result (λ now. IsPieceOf text.now piece.new) }
{
    match piece {
        Piece::Item(Item::Token(token)) => step_token(
            alloc,
            kind,
            statement,
            *token,
            word_in(text, *token),
        ),
        Piece::Item(Item::Braces(braces)) => step_pair(
            alloc,
            kind,
            statement,
            braces_taken(alloc, braces)?,
        ),
        Piece::Body(body) => step_body(alloc, kind, statement, body_taken(alloc, body)?),
    }
}

/// The same, to find out how far a statement goes: the trees of braces stay where they are.
#[tactic(auto, unfolding(source_grammar::specs::Lexemes::lexeme_of))]
pub fn step_shape(
    alloc: Global,
    text: &str,
    kind: ListKind,
    statement: Statement,
    piece: &Piece,
) -> Result<Option<Statement>, NoMemory>
    requires { IsPieceOf text.now piece.now }
    ensures { IfOk result (λ now. now ≡ spec.stepped kind statement (shape_of (part_in text.now piece.now))) }
{
    match piece {
        Piece::Item(Item::Token(token)) => step_token(
            alloc,
            kind,
            statement,
            *token,
            word_in(text, *token),
        ),
        Piece::Item(Item::Braces(braces)) => step_pair(
            alloc,
            kind,
            statement,
            braces_shape(alloc, braces.get())?,
        ),
        Piece::Body(body) => step_body(alloc, kind, statement, body_shape(alloc, body.get())?),
    }
}
