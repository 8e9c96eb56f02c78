//! What `parse_type` reads of texts. The trees were worked out from the grammar of the language.

use crate::rows::Kind::Type;
use crate::rows::{Nest, Row, ends_at_400_levels, is_read, read_all};
use std::test::Fail;

// a name, and a name after a path (SLS 3.1, 3.2.1, 3.2.3)
static NAMES: [Row; 10] = [
    ("▮A▮", "0 TypeIdent A ▮A▮"),
    ("val x: ▮Int▮ = 1", "0 TypeIdent Int val x: ▮Int▮ = 1"),
    ("▮::▮", "0 TypeIdent :: ▮::▮"),
    ("▮`a b`▮", "0 TypeIdent a b ▮`a b`▮"),
    ("▮a.B▮", "0 TypeSelect B ▮a.B▮ @ a.▮B▮ [1 Ident a ▮a▮.B]"),
    (
        "▮a . b . C▮ d",
        "0 TypeSelect C ▮a . b . C▮ d @ a . b . ▮C▮ d [\
             1 Select b ▮a . b▮ . C d @ a . ▮b▮ . C d [\
                 2 Ident a ▮a▮ . b . C d]]",
    ),
    (
        "▮a\n.B▮",
        "0 TypeSelect B ▮a\n.B▮ @ a\n.▮B▮ [1 Ident a ▮a▮\n.B]",
    ),
    (
        "▮`a`.`type`▮",
        "0 TypeSelect type ▮`a`.`type`▮ @ `a`.▮`type`▮ [1 Ident a ▮`a`▮.`type`]",
    ),
    ("▮a▮.", "0 TypeIdent a ▮a▮."),
    ("▮a▮.1", "0 TypeIdent a ▮a▮.1"),
];

// the type of a path (SLS 3.2.1)
static SINGLETONS: [Row; 6] = [
    (
        "▮a.type▮",
        "0 Singleton a ▮a.type▮ @ ▮a▮.type [1 Ident a ▮a▮.type]",
    ),
    (
        "▮a.b.type▮",
        "0 Singleton b ▮a.b.type▮ @ a.▮b▮.type [\
             1 Select b ▮a.b▮.type @ a.▮b▮.type [\
                 2 Ident a ▮a▮.b.type]]",
    ),
    (
        "▮a.b.type▮.c",
        "0 Singleton b ▮a.b.type▮.c @ a.▮b▮.type.c [\
             1 Select b ▮a.b▮.type.c @ a.▮b▮.type.c [\
                 2 Ident a ▮a▮.b.type.c]]",
    ),
    (
        "▮a.type▮[B]",
        "0 Singleton a ▮a.type▮[B] @ ▮a▮.type[B] [1 Ident a ▮a▮.type[B]]",
    ),
    (
        "▮a.type => B▮",
        "0 FunType ▮a.type => B▮ [\
             1 Singleton a ▮a.type▮ => B @ ▮a▮.type => B [\
                 2 Ident a ▮a▮.type => B], \
             3 TypeIdent B a.type => ▮B▮]",
    ),
    ("▮▮this.type", "not here"),
];

// a type and its arguments (SLS 3.2.4)
static ARGUMENTS: [Row; 10] = [
    (
        "▮A[B]▮",
        "0 AppliedType A ▮A[B]▮ @ ▮A▮[B] [\
             1 TypeIdent A ▮A▮[B], \
             2 TypeIdent B A[▮B▮]]",
    ),
    (
        "▮A[B, C]▮",
        "0 AppliedType A ▮A[B, C]▮ @ ▮A▮[B, C] [\
             1 TypeIdent A ▮A▮[B, C], \
             2 TypeIdent B A[▮B▮, C], \
             3 TypeIdent C A[B, ▮C▮]]",
    ),
    (
        "▮A[B[C]]▮",
        "0 AppliedType A ▮A[B[C]]▮ @ ▮A▮[B[C]] [\
             1 TypeIdent A ▮A▮[B[C]], \
             2 AppliedType B A[▮B[C]▮] @ A[▮B▮[C]] [\
                 3 TypeIdent B A[▮B▮[C]], \
                 4 TypeIdent C A[B[▮C▮]]]]",
    ),
    (
        "▮a.B[C]▮",
        "0 AppliedType B ▮a.B[C]▮ @ a.▮B▮[C] [\
             1 TypeSelect B ▮a.B▮[C] @ a.▮B▮[C] [\
                 2 Ident a ▮a▮.B[C]], \
             3 TypeIdent C a.B[▮C▮]]",
    ),
    (
        "▮A\n[(B, C) => D]▮",
        "0 AppliedType A ▮A\n[(B, C) => D]▮ @ ▮A▮\n[(B, C) => D] [\
             1 TypeIdent A ▮A▮\n[(B, C) => D], \
             2 FunType A\n[▮(B, C) => D▮] [\
                 3 TypeIdent B A\n[(▮B▮, C) => D], \
                 4 TypeIdent C A\n[(B, ▮C▮) => D], \
                 5 TypeIdent D A\n[(B, C) => ▮D▮]]]",
    ),
    ("▮A▮[]", "0 TypeIdent A ▮A▮[]"),
    ("▮A▮[B", "0 TypeIdent A ▮A▮[B"),
    ("▮A▮[B,]", "0 TypeIdent A ▮A▮[B,]"),
    (
        "▮A[B]▮[C]",
        "0 AppliedType A ▮A[B]▮[C] @ ▮A▮[B][C] [\
             1 TypeIdent A ▮A▮[B][C], \
             2 TypeIdent B A[▮B▮][C]]",
    ),
    (
        "▮A[B]▮.C",
        "0 AppliedType A ▮A[B]▮.C @ ▮A▮[B].C [\
             1 TypeIdent A ▮A▮[B].C, \
             2 TypeIdent B A[▮B▮].C]",
    ),
];

// types in parentheses, and tuples of two and three (SLS 3.2.5)
static PARENTHESES: [Row; 10] = [
    ("▮(A)▮", "0 TypeIdent A (▮A▮)"),
    ("▮((A))▮", "0 TypeIdent A ((▮A▮))"),
    (
        "▮(A, B)▮",
        "0 TupleType ▮(A, B)▮ [1 TypeIdent A (▮A▮, B), 2 TypeIdent B (A, ▮B▮)]",
    ),
    (
        "▮(A, B, C)▮",
        "0 TupleType ▮(A, B, C)▮ [\
             1 TypeIdent A (▮A▮, B, C), \
             2 TypeIdent B (A, ▮B▮, C), \
             3 TypeIdent C (A, B, ▮C▮)]",
    ),
    (
        "▮((A, B), (C))▮",
        "0 TupleType ▮((A, B), (C))▮ [\
             1 TupleType (▮(A, B)▮, (C)) [\
                 2 TypeIdent A ((▮A▮, B), (C)), \
                 3 TypeIdent B ((A, ▮B▮), (C))], \
             4 TypeIdent C ((A, B), (▮C▮))]",
    ),
    ("▮(A, B, C, D)▮", "not here"),
    ("▮()▮ A", "not here"),
    ("▮(A)▮[B]", "0 TypeIdent A (▮A▮)[B]"),
    ("▮(A)▮.B", "0 TypeIdent A (▮A▮).B"),
    ("▮(\nA\n)▮", "0 TypeIdent A (\n▮A▮\n)"),
];

// functions (SLS 3.2.9)
static FUNCTIONS: [Row; 12] = [
    (
        "▮A => B▮",
        "0 FunType ▮A => B▮ [1 TypeIdent A ▮A▮ => B, 2 TypeIdent B A => ▮B▮]",
    ),
    (
        "▮A => B => C▮",
        "0 FunType ▮A => B => C▮ [\
             1 TypeIdent A ▮A▮ => B => C, \
             2 FunType A => ▮B => C▮ [\
                 3 TypeIdent B A => ▮B▮ => C, \
                 4 TypeIdent C A => B => ▮C▮]]",
    ),
    (
        "▮(A => B) => C▮",
        "0 FunType ▮(A => B) => C▮ [\
             1 FunType (▮A => B▮) => C [\
                 2 TypeIdent A (▮A▮ => B) => C, \
                 3 TypeIdent B (A => ▮B▮) => C], \
             4 TypeIdent C (A => B) => ▮C▮]",
    ),
    ("▮() => A▮", "0 FunType ▮() => A▮ [1 TypeIdent A () => ▮A▮]"),
    (
        "▮(A) => B▮",
        "0 FunType ▮(A) => B▮ [\
             1 TypeIdent A (▮A▮) => B, \
             2 TypeIdent B (A) => ▮B▮]",
    ),
    (
        "▮(A, B) => C▮",
        "0 FunType ▮(A, B) => C▮ [\
             1 TypeIdent A (▮A▮, B) => C, \
             2 TypeIdent B (A, ▮B▮) => C, \
             3 TypeIdent C (A, B) => ▮C▮]",
    ),
    (
        "▮((A, B)) => C▮",
        "0 FunType ▮((A, B)) => C▮ [\
             1 TupleType (▮(A, B)▮) => C [\
                 2 TypeIdent A ((▮A▮, B)) => C, \
                 3 TypeIdent B ((A, ▮B▮)) => C], \
             4 TypeIdent C ((A, B)) => ▮C▮]",
    ),
    (
        "▮(A, B, C, D) => E▮",
        "0 FunType ▮(A, B, C, D) => E▮ [\
             1 TypeIdent A (▮A▮, B, C, D) => E, \
             2 TypeIdent B (A, ▮B▮, C, D) => E, \
             3 TypeIdent C (A, B, ▮C▮, D) => E, \
             4 TypeIdent D (A, B, C, ▮D▮) => E, \
             5 TypeIdent E (A, B, C, D) => ▮E▮]",
    ),
    (
        "▮A => (B)▮",
        "0 FunType ▮A => (B)▮ [\
             1 TypeIdent A ▮A▮ => (B), \
             2 TypeIdent B A => (▮B▮)]",
    ),
    (
        "▮A\n=> B▮",
        "0 FunType ▮A\n=> B▮ [1 TypeIdent A ▮A▮\n=> B, 2 TypeIdent B A\n=> ▮B▮]",
    ),
    (
        "▮A \u{21d2} B▮",
        "0 FunType ▮A \u{21d2} B▮ [\
             1 TypeIdent A ▮A▮ \u{21d2} B, \
             2 TypeIdent B A \u{21d2} ▮B▮]",
    ),
    (
        "▮A[B] => c.D▮ {",
        "0 FunType ▮A[B] => c.D▮ { [\
             1 AppliedType A ▮A[B]▮ => c.D { @ ▮A▮[B] => c.D { [\
                 2 TypeIdent A ▮A▮[B] => c.D {, \
                 3 TypeIdent B A[▮B▮] => c.D {], \
             4 TypeSelect D A[B] => ▮c.D▮ { @ A[B] => c.▮D▮ { [\
                 5 Ident c A[B] => ▮c▮.D {]]",
    ),
];

// what may stand after a type is no part of it
static ENDS: [Row; 14] = [
    (
        "class C extends ▮A▮ with B",
        "0 TypeIdent A class C extends ▮A▮ with B",
    ),
    ("new ▮A▮ { }", "0 TypeIdent A new ▮A▮ { }"),
    (
        "type T = ▮A▮\nval x: B = 1",
        "0 TypeIdent A type T = ▮A▮\nval x: B = 1",
    ),
    (
        "def f(x: ▮A▮, y: B): C = 1",
        "0 TypeIdent A def f(x: ▮A▮, y: B): C = 1",
    ),
    (
        "def f(x: A, y: ▮B▮): C = 1",
        "0 TypeIdent B def f(x: A, y: ▮B▮): C = 1",
    ),
    (
        "def f(x: A*): ▮C▮ = 1",
        "0 TypeIdent C def f(x: A*): ▮C▮ = 1",
    ),
    (
        "def f(x: ▮A▮*): C = 1",
        "0 TypeIdent A def f(x: ▮A▮*): C = 1",
    ),
    ("▮A▮ B", "0 TypeIdent A ▮A▮ B"),
    ("▮A▮ #B", "0 TypeIdent A ▮A▮ #B"),
    ("▮A▮ forSome { }", "0 TypeIdent A ▮A▮ forSome { }"),
    ("▮A▮ =>", "0 TypeIdent A ▮A▮ =>"),
    ("▮A▮ => = 1", "0 TypeIdent A ▮A▮ => = 1"),
    (
        "▮(A, B)▮ => [",
        "0 TupleType ▮(A, B)▮ => [ [\
             1 TypeIdent A (▮A▮, B) => [, \
             2 TypeIdent B (A, ▮B▮) => []",
    ),
    (
        "▮A => B▮ => (C",
        "0 FunType ▮A => B▮ => (C [\
             1 TypeIdent A ▮A▮ => B => (C, \
             2 TypeIdent B A => ▮B▮ => (C]",
    ),
];

// the first token that no type admits
static BAD_TOKENS: [Row; 16] = [
    ("▮▮", "not here"),
    ("a ▮▮", "not here"),
    ("▮▮= A", "not here"),
    ("▮▮=> A", "not here"),
    ("▮▮_", "not here"),
    ("▮▮1", "not here"),
    ("▮▮type", "not here"),
    ("▮▮[A]", "not here"),
    ("▮(▮[A])", "not here"),
    ("▮(A, ▮)", "not here"),
    ("▮(A▮ B)", "not here"),
    ("▮(A▮]", "not here"),
    ("▮(A[B▮)", "not here"),
    ("▮(a.type▮.b)", "not here"),
    ("▮() => ▮= 1", "not here"),
    ("▮((A, B, C, D)▮)", "not here"),
];

#[test]
fn names_and_paths(rt: HostRuntime) -> Result<(), Fail> {
    read_all(&rt, Type, &NAMES)
}

#[test]
fn types_of_paths(rt: HostRuntime) -> Result<(), Fail> {
    read_all(&rt, Type, &SINGLETONS)
}

#[test]
fn types_with_arguments(rt: HostRuntime) -> Result<(), Fail> {
    read_all(&rt, Type, &ARGUMENTS)
}

#[test]
fn parentheses_and_tuples(rt: HostRuntime) -> Result<(), Fail> {
    read_all(&rt, Type, &PARENTHESES)
}

#[test]
fn function_types(rt: HostRuntime) -> Result<(), Fail> {
    read_all(&rt, Type, &FUNCTIONS)
}

#[test]
fn a_type_ends_before_what_may_follow_it(rt: HostRuntime) -> Result<(), Fail> {
    read_all(&rt, Type, &ENDS)
}

#[test]
fn where_no_type_begins_the_first_bad_token_is_named(rt: HostRuntime) -> Result<(), Fail> {
    read_all(&rt, Type, &BAD_TOKENS)
}

// each makes a type one level higher
static NESTS: [Nest; 5] = [
    ("A=>", ""),
    ("()=>", ""),
    ("A[", "]"),
    ("(A,", ")"),
    ("a.", ""),
];

#[test]
fn a_type_of_400_levels_is_read_and_one_of_401_is_too_high(rt: HostRuntime) -> Result<(), Fail> {
    ends_at_400_levels(&rt, Type, &NESTS)
}

#[test]
fn parentheses_make_no_type_higher(rt: HostRuntime) -> Result<(), Fail> {
    assert!(rt; is_read(&rt, Type, ("(", ")"), 50000)?);
    Ok(())
}
