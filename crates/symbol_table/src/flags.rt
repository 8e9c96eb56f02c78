//! The flags of definitions.

ghost use Rattle.std.specs.Prelude.{◌≡◌};
ghost use Rattle.symbol_table.specs.Symbols as spec;

use base_types::Flags;
use positioned_trees::{Access, Detail, Modifiers, ParamKeyword, RightSide};

const NO_MODIFIERS: Modifiers = Modifiers {
    abstract_: false,
    final_: false,
    sealed_: false,
    case_: false,
    override_: false,
    access: Access::Public,
};

fn modifiers_of(detail: &Detail) -> Modifiers
    ensures { result ≡ spec.modifiers_of detail.now }
{
    match detail {
        Detail::Template(parts) => parts.modifiers,
        Detail::Value(parts) => parts.modifiers,
        Detail::Method(parts) => parts.modifiers,
        Detail::Alias(modifiers) => *modifiers,
        Detail::Param(parts) => parts.modifiers,
        _ => NO_MODIFIERS,
    }
}

fn is_declaration(detail: &Detail) -> bool
    ensures { result ≡ spec.is_declaration detail.now }
{
    match detail {
        Detail::Value(parts) => !parts.has_right_side,
        Detail::Method(parts) => matches!(parts.right_side, RightSide::Missing),
        _ => false,
    }
}

fn is_hidden_param(outer: &Detail, own: &Detail) -> bool
    ensures { result ≡ spec.is_hidden_param outer.now own.now }
{
    let Detail::Template(outer) = outer else {
        return false;
    };
    let Detail::Param(parts) = own else {
        return false;
    };
    !outer.modifiers.case_ && matches!(parts.keyword, ParamKeyword::Missing)
}

/// The flags of a definition, by the detail of the tree that it stands in and by its own.
pub fn flags_in(in_prelude: bool, outer: &Detail, own: &Detail) -> Flags
    ensures { result ≡ spec.flags_in in_prelude outer.now own.now }
{
    let modifiers = modifiers_of(own);
    let hidden = is_hidden_param(outer, own);
    Flags {
        abstract_: modifiers.abstract_ || is_declaration(own) && !in_prelude,
        final_: modifiers.final_,
        sealed_: modifiers.sealed_,
        case_: modifiers.case_,
        override_: modifiers.override_,
        private_: matches!(modifiers.access, Access::Private) || hidden,
        protected_: matches!(modifiers.access, Access::Protected) && !hidden,
        prelude: in_prelude,
    }
}

/// The flags of what no source writes.
pub fn plain_flags(in_prelude: bool) -> Flags
    ensures { result ≡ spec.plain_flags in_prelude }
{
    flags_in(in_prelude, &Detail::Plain, &Detail::Plain)
}
