//! Sources as trees. A tree's label stands at the byte that is its number in pre-order.

use pc_terms::{NoMemory, Row, Span, Text, TreeKind};
use positioned_trees::{
    Access, Detail, ImportClause, MethodParts, Modifiers, Name, ParamKeyword, ParamParts,
    RightSide, SourceUnit, TemplateParts, Tree, TypeParamParts, ValueParts, Variance,
};
use std::alloc::{AllocError, Global};

/// A tree: the number of trees that it stands in, its kind, its label, and a word that marks it: a modifier, `val` or `var`
/// before a parameter, `dcl` for a definition without a right side.
pub type Node = (u16, TreeKind, &'static str, &'static str);

fn modifiers(mark: &str) -> Modifiers {
    Modifiers {
        abstract_: mark == "abstract",
        final_: mark == "final",
        sealed_: mark == "sealed",
        case_: mark == "case",
        override_: mark == "override",
        access: match mark {
            "private" => Access::Private,
            "protected" => Access::Protected,
            _ => Access::Public,
        },
    }
}

fn names(alloc: Global, path: &str, span: Span) -> Result<Row<Name>, NoMemory> {
    let mut names = Row::new(alloc);
    for part in path.split('.') {
        let text = Text::new(alloc, part)?;
        names.push(Name { text, span })?;
    }
    Ok(names)
}

fn import(alloc: Global, span: Span) -> Result<Row<ImportClause>, NoMemory> {
    let mut clauses = Row::new(alloc);
    clauses.push(ImportClause {
        span,
        qualifier: Row::new(alloc),
        selectors: Row::new(alloc),
    })?;
    Ok(clauses)
}

fn keyword(mark: &str) -> ParamKeyword {
    match mark {
        "val" => ParamKeyword::Val,
        "var" => ParamKeyword::Var,
        _ => ParamKeyword::Missing,
    }
}

fn detail(alloc: Global, node: Node, span: Span) -> Result<Detail, NoMemory> {
    let (_, kind, label, mark) = node;
    let modifiers = modifiers(mark);
    Ok(match kind {
        TreeKind::Package => Detail::Package(names(alloc, label, span)?),
        TreeKind::Import => Detail::Import(import(alloc, span)?),
        TreeKind::ClassDef | TreeKind::TraitDef | TreeKind::ObjectDef => {
            Detail::Template(TemplateParts {
                modifiers,
                type_params: 0,
                params: 0,
                parents: 0,
                args: None,
            })
        }
        TreeKind::ValDef | TreeKind::VarDef | TreeKind::LazyDef => Detail::Value(ValueParts {
            modifiers,
            has_type: true,
            has_right_side: mark != "dcl",
        }),
        TreeKind::DefDef => Detail::Method(MethodParts {
            modifiers,
            type_params: 0,
            param_lists: Row::new(alloc),
            has_type: true,
            right_side: if mark == "dcl" {
                RightSide::Missing
            } else {
                RightSide::Value
            },
        }),
        TreeKind::AliasDef => Detail::Alias(modifiers),
        TreeKind::Param => Detail::Param(ParamParts {
            modifiers,
            keyword: keyword(mark),
            binds: true,
            repeated: false,
        }),
        TreeKind::TypeParam => Detail::TypeParam(TypeParamParts {
            variance: Variance::Invariant,
            has_lower: false,
            has_upper: false,
        }),
        _ => Detail::Plain,
    })
}

fn tree(alloc: Global, node: Node, id: u32, kids: Vec<Tree>) -> Result<Tree, NoMemory> {
    let (_, kind, label, _) = node;
    let span = Span { start: id, end: id };
    Ok(Tree {
        id,
        span,
        opaque: true,
        kind,
        label: Text::new(alloc, label)?,
        label_span: span,
        kids: Row::from_vec(kids),
        detail: detail(alloc, node, span)?,
    })
}

// The trees at the end of the list that stand in more trees than this, the first one first.
fn kids_of(
    alloc: Global,
    open: &mut Vec<(u16, Tree)>,
    depth: u16,
) -> Result<Vec<Tree>, AllocError> {
    let mut kids = Vec::new(alloc);
    for _ in 0..open.len() {
        match open.pop() {
            Some((at, kid)) => {
                if at > depth {
                    kids.push(kid)?;
                } else {
                    open.push((at, kid))?;
                    break;
                }
            }
            None => break,
        }
    }
    Ok(kids)
}

/// The source of its nodes in pre-order, which are taken from the last one on; `None` where there is none.
pub fn source(alloc: Global, nodes: &[Node]) -> Result<Option<SourceUnit>, NoMemory> {
    let mut open = Vec::new(alloc);
    let mut id = u32::try_from(nodes.len()).unwrap_or(0);
    for node in nodes.iter().rev() {
        id = id.saturating_sub(1);
        let kids = kids_of(alloc, &mut open, node.0)?;
        open.push((node.0, tree(alloc, *node, id, kids)?))?;
    }
    Ok(
        open.pop().map(|(_, root)| SourceUnit {
            root,
            problems: Row::new(alloc),
            length: 0,
        }),
    )
}
