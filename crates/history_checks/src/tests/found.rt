//! Answers and problems as rows of tables.

use super::making::{Make, made};
use ask_history::{Answer, MemberInfo, OutlineInfo, ScopeInfo, TreeInfo};
use pc_terms::{Code, NoMemory, Problem, Row, Span, SymKind, SymPath, SymStep, Text, TreeKind, Ty};
use std::alloc::Global;

/// The byte at which a part starts, and the one at which it has ended.
pub type Part = (u32, u32);

/// A step of a path, none of which has a number.
pub struct Step(pub SymKind, pub &'static str);

pub type Path = &'static [Step];

/// A type.
#[derive(Clone, Copy)]
pub enum Type {
    Int,
    Error,
}

pub struct Tree {
    pub kind: TreeKind,
    pub span: Part,
    pub ty: Option<Type>,
    pub sym: Option<Path>,
}

pub struct Member {
    pub name: &'static str,
    pub kind: SymKind,
    pub ty: Type,
    pub owner: Path,
}

/// A name in scope, and what it is bound to.
pub struct Name(pub &'static str, pub Path);

/// A definition with its depth.
pub struct Definition(pub u32, pub TreeKind, pub &'static str, pub Part);

pub struct Finding(pub Code, pub Part, pub &'static str);

pub enum Found {
    Done,
    NoUnit,
    NoTree,
    NoMembers,
    NoLink,
    Unread,
    Cancelled,
    Closed,
    NoMemory,
    Tree(Tree),
    Members(&'static [Member]),
    Scope(&'static [Name]),
    Link(&'static str, Part, Path),
    Outline(&'static [Definition]),
    Typed(&'static [Tree], &'static [Finding]),
}

fn span(part: Part) -> Span {
    Span {
        start: part.0,
        end: part.1,
    }
}

impl Make for Step {
    type Made = SymStep;

    fn make(&self, alloc: Global) -> Result<SymStep, NoMemory> {
        Ok(SymStep {
            kind: self.0,
            name: Text::new(alloc, self.1)?,
            ordinal: 0,
        })
    }
}

fn path(alloc: Global, steps: Path) -> Result<SymPath, NoMemory> {
    Ok(SymPath {
        steps: made(alloc, steps)?,
    })
}

static INT: [Step; 2] = [Step(SymKind::Package, "scala"), Step(SymKind::Class, "Int")];

fn type_of(alloc: Global, ty: Type) -> Result<Ty, NoMemory> {
    match ty {
        Type::Int => Ok(Ty::Class(path(alloc, &INT)?, Row::new(alloc))),
        Type::Error => Ok(Ty::Error),
    }
}

fn type_or_none(alloc: Global, ty: Option<Type>) -> Result<Option<Ty>, NoMemory> {
    match ty {
        Some(ty) => Ok(Some(type_of(alloc, ty)?)),
        None => Ok(None),
    }
}

fn path_or_none(alloc: Global, steps: Option<Path>) -> Result<Option<SymPath>, NoMemory> {
    match steps {
        Some(steps) => Ok(Some(path(alloc, steps)?)),
        None => Ok(None),
    }
}

impl Make for Tree {
    type Made = TreeInfo;

    fn make(&self, alloc: Global) -> Result<TreeInfo, NoMemory> {
        Ok(TreeInfo {
            kind: self.kind,
            span: span(self.span),
            ty: type_or_none(alloc, self.ty)?,
            sym: path_or_none(alloc, self.sym)?,
        })
    }
}

impl Make for Member {
    type Made = MemberInfo;

    fn make(&self, alloc: Global) -> Result<MemberInfo, NoMemory> {
        Ok(MemberInfo {
            name: Text::new(alloc, self.name)?,
            kind: self.kind,
            ty: type_of(alloc, self.ty)?,
            owner: path(alloc, self.owner)?,
        })
    }
}

impl Make for Name {
    type Made = ScopeInfo;

    fn make(&self, alloc: Global) -> Result<ScopeInfo, NoMemory> {
        Ok(ScopeInfo {
            name: Text::new(alloc, self.0)?,
            sym: path(alloc, self.1)?,
        })
    }
}

impl Make for Definition {
    type Made = OutlineInfo;

    fn make(&self, alloc: Global) -> Result<OutlineInfo, NoMemory> {
        Ok(OutlineInfo {
            depth: self.0,
            kind: self.1,
            name: Text::new(alloc, self.2)?,
            span: span(self.3),
        })
    }
}

impl Make for Finding {
    type Made = Problem;

    fn make(&self, alloc: Global) -> Result<Problem, NoMemory> {
        Ok(Problem {
            code: self.0,
            span: span(self.1),
            text: Text::new(alloc, self.2)?,
        })
    }
}

fn link(alloc: Global, file: &str, part: Part, steps: Path) -> Result<Answer, NoMemory> {
    let file = Text::new(alloc, file)?;
    Ok(Answer::Link(file, span(part), path(alloc, steps)?))
}

fn typed(alloc: Global, trees: &[Tree], findings: &[Finding]) -> Result<Answer, NoMemory> {
    let trees = made(alloc, trees)?;
    Ok(Answer::Loaded(trees, made(alloc, findings)?))
}

impl Make for Found {
    type Made = Answer;

    fn make(&self, alloc: Global) -> Result<Answer, NoMemory> {
        match self {
            Found::Done => Ok(Answer::Done),
            Found::NoUnit => Ok(Answer::NoUnit),
            Found::NoTree => Ok(Answer::NoTree),
            Found::NoMembers => Ok(Answer::NoMembers),
            Found::NoLink => Ok(Answer::NoLink),
            Found::Unread => Ok(Answer::Unread),
            Found::Cancelled => Ok(Answer::Cancelled),
            Found::Closed => Ok(Answer::Closed),
            Found::NoMemory => Ok(Answer::NoMemory),
            Found::Tree(tree) => Ok(Answer::Tree(tree.make(alloc)?)),
            Found::Members(members) => Ok(Answer::Members(made(alloc, members)?)),
            Found::Scope(names) => Ok(Answer::Scope(made(alloc, names)?)),
            Found::Link(file, part, steps) => link(alloc, file, *part, steps),
            Found::Outline(definitions) => Ok(Answer::Outline(made(alloc, definitions)?)),
            Found::Typed(trees, findings) => typed(alloc, trees, findings),
        }
    }
}
