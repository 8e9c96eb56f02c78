//! What was read of a template before its body.

ghost use Rattle.std.specs.Prelude.{◌≡◌, IfOk};
ghost use Rattle.parse_patterns.specs.Names.{lexeme_with};
ghost use Rattle.template_steps.specs.Heads as spec;
ghost use Rattle.template_steps.specs.Templates.{is_word as is_written};

use crate::class_params::ParamList;
use def_steps::params::one_more;
use def_steps::states::{Found, Method, Named};
use parse_parts::built::{Kids, Tall, joined, node};
use pc_terms::{NoMemory, Span, TreeKind};
use positioned_trees::{Detail, Modifiers, Name, TemplateParts};
use scan_tokens::{Token, TokenKind};
use tree_lower::{appended, detailed, no_modifiers};

/// Which word begins a template.
#[derive(Clone, Copy, Debug, PartialEq, Eq)]
pub enum Form {
    Class,
    Trait,
    Object,
}

/// The modifiers that templates alone admit.
#[derive(Clone, Copy, Debug, PartialEq, Eq)]
pub struct Marks {
    pub abstract_: bool,
    pub sealed_: bool,
    pub case_: bool,
}

/// The head of a template, with its kids so far: type parameters, parameters, the first parent, its arguments, the other parents.
#[derive(Debug, Drop)]
pub struct Head {
    pub start: u32,
    pub name: Name,
    pub kids: Option<Kids>,
    pub type_params: u32,
    pub params: u32,
    pub parents: u32,
    pub args: Option<u32>,
}

pub fn no_marks() -> Marks
    ensures { result ≡ spec.no_marks }
{
    Marks {
        abstract_: false,
        sealed_: false,
        case_: false,
    }
}

/// The modifiers that a template of this form admits (SLS 5.2).
pub fn admitted(form: Form, found: Found, marks: Marks) -> Modifiers
    ensures { result ≡ spec.admitted form found marks }
{
    let none = no_modifiers();
    let modifiers = Modifiers {
        access: found.modifiers.access,
        ..none
    };
    match form {
        Form::Class => Modifiers {
            abstract_: marks.abstract_,
            final_: found.modifiers.final_,
            sealed_: marks.sealed_,
            case_: marks.case_,
            ..modifiers
        },
        Form::Trait => Modifiers {
            sealed_: marks.sealed_,
            ..modifiers
        },
        Form::Object => Modifiers {
            final_: found.modifiers.final_,
            case_: marks.case_,
            ..modifiers
        },
    }
}

/// The head whose name and type parameters were read as those of a method.
pub fn head_of(method: Method) -> Head
    ensures { result ≡ spec.head_of method }
{
    let Method {
        named,
        type_params,
        param_lists,
        is_fresh: _,
    } = method;
    drop(param_lists);
    let Named {
        start,
        name,
        kids,
        has_type: _,
    } = named;
    Head {
        start,
        name,
        kids,
        type_params,
        params: 0,
        parents: 0,
        args: None,
    }
}

/// The head with its parameters.
pub fn with_params(head: Head, list: ParamList) -> Result<Head, NoMemory>
    ensures { IfOk result (λ now. now ≡ spec.with_params head list) }
{
    Ok(Head {
        start: head.start,
        name: head.name,
        kids: appended(head.kids, list.kids)?,
        type_params: head.type_params,
        params: list.count,
        parents: head.parents,
        args: head.args,
    })
}

/// The head with one parent more.
pub fn with_parent(head: Head, parent: Option<Tall>) -> Result<Head, NoMemory>
    ensures { IfOk result (λ now. now ≡ spec.with_parent head parent) }
{
    Ok(Head {
        start: head.start,
        name: head.name,
        kids: joined(head.kids, parent)?,
        type_params: head.type_params,
        params: head.params,
        parents: one_more(head.parents),
        args: head.args,
    })
}

/// Whether the token is this word.
pub fn is_word(token: Token, word: &str, written: &[u8]) -> bool
    ensures { result ≡ is_written written.now (lexeme_with token word.now) }
{
    matches!(token.kind, TokenKind::Word) && word.as_bytes() == written
}

fn count_of(kids: &Option<Kids>) -> u32
    ensures { result ≡ spec.count_of kids.now }
{
    match kids {
        Some(kids) => u32::try_from(kids.trees.len()).unwrap_or(u32::MAX),
        None => 0,
    }
}

/// The head with the arguments of its first parent.
pub fn with_args(head: Head, args: Option<Kids>) -> Result<Head, NoMemory>
    ensures { IfOk result (λ now. now ≡ spec.with_args head args) }
{
    let count = count_of(&args);
    Ok(Head {
        start: head.start,
        name: head.name,
        kids: appended(head.kids, args)?,
        type_params: head.type_params,
        params: head.params,
        parents: head.parents,
        args: Some(count),
    })
}

/// The head with the statements of its body.
pub fn with_statements(head: Head, statements: Option<Kids>) -> Result<Head, NoMemory>
    ensures { IfOk result (λ now. now ≡ spec.with_statements head statements) }
{
    Ok(Head {
        start: head.start,
        name: head.name,
        kids: appended(head.kids, statements)?,
        type_params: head.type_params,
        params: head.params,
        parents: head.parents,
        args: head.args,
    })
}

fn kind_of(form: Form) -> TreeKind
    ensures { result ≡ spec.kind_of form }
{
    match form {
        Form::Class => TreeKind::ClassDef,
        Form::Trait => TreeKind::TraitDef,
        Form::Object => TreeKind::ObjectDef,
    }
}

/// The tree of a template that ends here.
pub fn template_tree(form: Form, modifiers: Modifiers, head: Head, end: u32) -> Option<Tall>
    ensures { result ≡ spec.template_tree form modifiers head end }
{
    let span = Span {
        start: head.start,
        end,
    };
    let detail = Detail::Template(TemplateParts {
        modifiers,
        type_params: head.type_params,
        params: head.params,
        parents: head.parents,
        args: head.args,
    });
    let name = head.name;
    let tall = node(kind_of(form), name.text, name.span, span, head.kids);
    detailed(tall, detail)
}
