//! What `parse_pattern` reads of texts. The trees were worked out from the grammar of the language.

use crate::rows::Kind::Pattern;
use crate::rows::{Nest, Row, ends_at_400_levels, is_read, read_all};
use std::test::Fail;

// variables, `_`, literals and paths (SLS 8.1.1, 8.1.4, 8.1.5)
static SINGLE: [Row; 21] = [
    ("▮_▮", "0 Wild ▮_▮"),
    ("▮x▮", "0 Bind x ▮x▮"),
    ("▮_x▮", "0 Bind _x ▮_x▮"),
    ("▮X▮", "0 StablePat X ▮X▮"),
    ("▮`x`▮", "0 StablePat x ▮`x`▮"),
    ("▮+▮", "0 StablePat + ▮+▮"),
    ("▮a.b▮", "0 StablePat b ▮a.b▮ @ a.▮b▮ [1 Ident a ▮a▮.b]"),
    ("▮a▮.", "0 Bind a ▮a▮."),
    ("▮x▮.type", "0 Bind x ▮x▮.type"),
    ("▮1▮ =>", "0 LitPat 1 ▮1▮ =>"),
    ("▮0x1fL▮", "0 LitPat 0x1fL ▮0x1fL▮"),
    ("▮'a'▮", "0 LitPat 'a' ▮'a'▮"),
    ("▮\"a b\"▮", "0 LitPat \"a b\" ▮\"a b\"▮"),
    ("▮true▮", "0 LitPat true ▮true▮"),
    ("▮null▮", "0 LitPat null ▮null▮"),
    ("▮-1▮", "0 LitPat -1 ▮-1▮"),
    ("▮- 1L▮", "0 LitPat -1L ▮- 1L▮"),
    ("▮-▮\n1", "0 StablePat - ▮-▮\n1"),
    ("▮-▮ 'a'", "0 StablePat - ▮-▮ 'a'"),
    ("▮`-`▮ 1", "0 StablePat - ▮`-`▮ 1"),
    ("▮x▮ 1", "0 Bind x ▮x▮ 1"),
];

// constructor patterns, parentheses and tuples (SLS 8.1.6, 8.1.7)
static BRACKETS: [Row; 19] = [
    ("▮A()▮", "0 CtorPat A ▮A()▮ @ ▮A▮()"),
    ("▮A(b)▮", "0 CtorPat A ▮A(b)▮ @ ▮A▮(b) [1 Bind b A(▮b▮)]"),
    ("▮a(b)▮", "0 CtorPat a ▮a(b)▮ @ ▮a▮(b) [1 Bind b a(▮b▮)]"),
    (
        "▮a.B(c, _, 1, d)▮",
        "0 CtorPat B ▮a.B(c, _, 1, d)▮ @ a.▮B▮(c, _, 1, d) [\
             1 Ident a ▮a▮.B(c, _, 1, d), \
             2 Bind c a.B(▮c▮, _, 1, d), \
             3 Wild a.B(c, ▮_▮, 1, d), \
             4 LitPat 1 a.B(c, _, ▮1▮, d), \
             5 Bind d a.B(c, _, 1, ▮d▮)]",
    ),
    (
        "▮A(b)▮(c)",
        "0 CtorPat A ▮A(b)▮(c) @ ▮A▮(b)(c) [1 Bind b A(▮b▮)(c)]",
    ),
    ("▮A▮(b,)", "0 StablePat A ▮A▮(b,)"),
    ("▮A▮\n(b)", "0 StablePat A ▮A▮\n(b)"),
    ("▮A▮(b", "0 StablePat A ▮A▮(b"),
    ("▮()▮", "0 LitPat () ▮()▮"),
    ("▮(a)▮", "0 Bind a (▮a▮)"),
    ("▮((a))▮", "0 Bind a ((▮a▮))"),
    ("▮(a)▮(b)", "0 Bind a (▮a▮)(b)"),
    ("▮(a)▮.b", "0 Bind a (▮a▮).b"),
    (
        "▮(a, B)▮",
        "0 TuplePat ▮(a, B)▮ [1 Bind a (▮a▮, B), 2 StablePat B (a, ▮B▮)]",
    ),
    (
        "▮(a, b, c)▮",
        "0 TuplePat ▮(a, b, c)▮ [\
             1 Bind a (▮a▮, b, c), \
             2 Bind b (a, ▮b▮, c), \
             3 Bind c (a, b, ▮c▮)]",
    ),
    ("▮(a, b, c▮, d)", "not here"),
    (
        "▮((a, b), ())▮",
        "0 TuplePat ▮((a, b), ())▮ [\
             1 TuplePat (▮(a, b)▮, ()) [\
                 2 Bind a ((▮a▮, b), ()), \
                 3 Bind b ((a, ▮b▮), ())], \
             4 LitPat () ((a, b), ▮()▮)]",
    ),
    (
        "▮(\na\n|\nb\n)▮",
        "0 AltPat (\n▮a\n|\nb▮\n) [\
             1 Bind a (\n▮a▮\n|\nb\n), \
             2 Bind b (\na\n|\n▮b▮\n)]",
    ),
    (
        "▮A(\nb\n,\nc\n)▮",
        "0 CtorPat A ▮A(\nb\n,\nc\n)▮ @ ▮A▮(\nb\n,\nc\n) [\
             1 Bind b A(\n▮b▮\n,\nc\n), \
             2 Bind c A(\nb\n,\n▮c▮\n)]",
    ),
];

// infix patterns are constructor patterns (SLS 8.1.10)
static INFIX: [Row; 15] = [
    (
        "▮a :: b :: Nil▮",
        "0 CtorPat :: ▮a :: b :: Nil▮ @ a ▮::▮ b :: Nil [\
             1 Bind a ▮a▮ :: b :: Nil, \
             2 CtorPat :: a :: ▮b :: Nil▮ @ a :: b ▮::▮ Nil [\
                 3 Bind b a :: ▮b▮ :: Nil, \
                 4 StablePat Nil a :: b :: ▮Nil▮]]",
    ),
    (
        "▮a - b - 1▮",
        "0 CtorPat - ▮a - b - 1▮ @ a - b ▮-▮ 1 [\
             1 CtorPat - ▮a - b▮ - 1 @ a ▮-▮ b - 1 [\
                 2 Bind a ▮a▮ - b - 1, \
                 3 Bind b a - ▮b▮ - 1], \
             4 LitPat 1 a - b - ▮1▮]",
    ),
    (
        "▮a + b * c▮",
        "0 CtorPat + ▮a + b * c▮ @ a ▮+▮ b * c [\
             1 Bind a ▮a▮ + b * c, \
             2 CtorPat * a + ▮b * c▮ @ a + b ▮*▮ c [\
                 3 Bind b a + ▮b▮ * c, \
                 4 Bind c a + b * ▮c▮]]",
    ),
    (
        "▮a * b + c▮",
        "0 CtorPat + ▮a * b + c▮ @ a * b ▮+▮ c [\
             1 CtorPat * ▮a * b▮ + c @ a ▮*▮ b + c [\
                 2 Bind a ▮a▮ * b + c, \
                 3 Bind b a * ▮b▮ + c], \
             4 Bind c a * b + ▮c▮]",
    ),
    (
        "▮(a) :: (b)▮",
        "0 CtorPat :: ▮(a) :: (b)▮ @ (a) ▮::▮ (b) [\
             1 Bind a (▮a▮) :: (b), \
             2 Bind b (a) :: (▮b▮)]",
    ),
    (
        "▮a and `b` or -1▮",
        "0 CtorPat or ▮a and `b` or -1▮ @ a and `b` ▮or▮ -1 [\
             1 CtorPat and ▮a and `b`▮ or -1 @ a ▮and▮ `b` or -1 [\
                 2 Bind a ▮a▮ and `b` or -1, \
                 3 StablePat b a and ▮`b`▮ or -1], \
             4 LitPat -1 a and `b` or ▮-1▮]",
    ),
    (
        "▮a + b▮ +: c",
        "0 CtorPat + ▮a + b▮ +: c @ a ▮+▮ b +: c [\
             1 Bind a ▮a▮ + b +: c, \
             2 Bind b a + ▮b▮ +: c]",
    ),
    (
        "▮a +: b▮ + c",
        "0 CtorPat +: ▮a +: b▮ + c @ a ▮+:▮ b + c [\
             1 Bind a ▮a▮ +: b + c, \
             2 Bind b a +: ▮b▮ + c]",
    ),
    (
        "▮a + b * c▮ +: d",
        "0 CtorPat + ▮a + b * c▮ +: d @ a ▮+▮ b * c +: d [\
             1 Bind a ▮a▮ + b * c +: d, \
             2 CtorPat * a + ▮b * c▮ +: d @ a + b ▮*▮ c +: d [\
                 3 Bind b a + ▮b▮ * c +: d, \
                 4 Bind c a + b * ▮c▮ +: d]]",
    ),
    (
        "▮a + b & c +: d▮",
        "0 CtorPat & ▮a + b & c +: d▮ @ a + b ▮&▮ c +: d [\
             1 CtorPat + ▮a + b▮ & c +: d @ a ▮+▮ b & c +: d [\
                 2 Bind a ▮a▮ + b & c +: d, \
                 3 Bind b a + ▮b▮ & c +: d], \
             4 CtorPat +: a + b & ▮c +: d▮ @ a + b & c ▮+:▮ d [\
                 5 Bind c a + b & ▮c▮ +: d, \
                 6 Bind d a + b & c +: ▮d▮]]",
    ),
    (
        "▮a ::\nb▮",
        "0 CtorPat :: ▮a ::\nb▮ @ a ▮::▮\nb [\
             1 Bind a ▮a▮ ::\nb, \
             2 Bind b a ::\n▮b▮]",
    ),
    ("▮a▮ ::\n\nb", "0 Bind a ▮a▮ ::\n\nb"),
    ("▮a▮\n:: b", "0 Bind a ▮a▮\n:: b"),
    ("▮a▮ ::", "0 Bind a ▮a▮ ::"),
    (
        "▮a `|` b▮",
        "0 CtorPat | ▮a `|` b▮ @ a ▮`|`▮ b [\
             1 Bind a ▮a▮ `|` b, \
             2 Bind b a `|` ▮b▮]",
    ),
];

// `x @ p`, alternatives (SLS 8.1.3, 8.1.11)
static BOUND: [Row; 14] = [
    (
        "▮x @ Some(y)▮",
        "0 Bind x ▮x @ Some(y)▮ @ ▮x▮ @ Some(y) [\
             1 CtorPat Some x @ ▮Some(y)▮ @ x @ ▮Some▮(y) [\
                 2 Bind y x @ Some(▮y▮)]]",
    ),
    (
        "▮x @ a :: b▮",
        "0 Bind x ▮x @ a :: b▮ @ ▮x▮ @ a :: b [\
             1 CtorPat :: x @ ▮a :: b▮ @ x @ a ▮::▮ b [\
                 2 Bind a x @ ▮a▮ :: b, \
                 3 Bind b x @ a :: ▮b▮]]",
    ),
    (
        "▮x @ (y)▮",
        "0 Bind x ▮x @ (y)▮ @ ▮x▮ @ (y) [1 Bind y x @ (▮y▮)]",
    ),
    (
        "▮x @ y▮: A",
        "0 Bind x ▮x @ y▮: A @ ▮x▮ @ y: A [1 Bind y x @ ▮y▮: A]",
    ),
    (
        "▮x @ y▮ @ z",
        "0 Bind x ▮x @ y▮ @ z @ ▮x▮ @ y @ z [1 Bind y x @ ▮y▮ @ z]",
    ),
    ("▮X▮ @ y", "0 StablePat X ▮X▮ @ y"),
    ("▮`x`▮ @ y", "0 StablePat x ▮`x`▮ @ y"),
    ("▮x▮\n@ y", "0 Bind x ▮x▮\n@ y"),
    (
        "▮a | b▮",
        "0 AltPat ▮a | b▮ [1 Bind a ▮a▮ | b, 2 Bind b a | ▮b▮]",
    ),
    (
        "▮A | 1 | x @ _▮ =>",
        "0 AltPat ▮A | 1 | x @ _▮ => [\
             1 StablePat A ▮A▮ | 1 | x @ _ =>, \
             2 LitPat 1 A | ▮1▮ | x @ _ =>, \
             3 Bind x A | 1 | ▮x @ _▮ => @ A | 1 | ▮x▮ @ _ => [\
                 4 Wild A | 1 | x @ ▮_▮ =>]]",
    ),
    (
        "▮a :: b | c▮",
        "0 AltPat ▮a :: b | c▮ [\
             1 CtorPat :: ▮a :: b▮ | c @ a ▮::▮ b | c [\
                 2 Bind a ▮a▮ :: b | c, \
                 3 Bind b a :: ▮b▮ | c], \
             4 Bind c a :: b | ▮c▮]",
    ),
    (
        "▮| | |▮",
        "0 AltPat ▮| | |▮ [1 StablePat | ▮|▮ | |, 2 StablePat | | | ▮|▮]",
    ),
    ("▮a▮ |\nb", "0 Bind a ▮a▮ |\nb"),
    ("▮a▮ | =>", "0 Bind a ▮a▮ | =>"),
];

// `x: T` (SLS 8.1.2)
static TYPED: [Row; 17] = [
    (
        "▮x: T▮",
        "0 TypedPat x ▮x: T▮ @ ▮x▮: T [1 TypeIdent T x: ▮T▮]",
    ),
    (
        "▮_: T▮",
        "0 TypedPat _ ▮_: T▮ @ ▮_▮: T [1 TypeIdent T _: ▮T▮]",
    ),
    ("▮X▮: T", "0 StablePat X ▮X▮: T"),
    ("▮`x`▮: T", "0 StablePat x ▮`x`▮: T"),
    (
        "▮x: T▮ => y",
        "0 TypedPat x ▮x: T▮ => y @ ▮x▮: T => y [1 TypeIdent T x: ▮T▮ => y]",
    ),
    (
        "▮x: a.type▮",
        "0 TypedPat x ▮x: a.type▮ @ ▮x▮: a.type [\
             1 Singleton a x: ▮a.type▮ @ x: ▮a▮.type [\
                 2 Ident a x: ▮a▮.type]]",
    ),
    (
        "▮x: A[B => C]▮ =>",
        "0 TypedPat x ▮x: A[B => C]▮ => @ ▮x▮: A[B => C] => [\
             1 AppliedType A x: ▮A[B => C]▮ => @ x: ▮A▮[B => C] => [\
                 2 TypeIdent A x: ▮A▮[B => C] =>, \
                 3 FunType x: A[▮B => C▮] => [\
                     4 TypeIdent B x: A[▮B▮ => C] =>, \
                     5 TypeIdent C x: A[B => ▮C▮] =>]]]",
    ),
    (
        "▮x: (A => B)▮ =>",
        "0 TypedPat x ▮x: (A => B)▮ => @ ▮x▮: (A => B) => [\
             1 FunType x: (▮A => B▮) => [\
                 2 TypeIdent A x: (▮A▮ => B) =>, \
                 3 TypeIdent B x: (A => ▮B▮) =>]]",
    ),
    (
        "▮x: (A, B)▮ => C",
        "0 TypedPat x ▮x: (A, B)▮ => C @ ▮x▮: (A, B) => C [\
             1 TupleType x: ▮(A, B)▮ => C [\
                 2 TypeIdent A x: (▮A▮, B) => C, \
                 3 TypeIdent B x: (A, ▮B▮) => C]]",
    ),
    ("▮x▮: () => A", "0 Bind x ▮x▮: () => A"),
    ("▮x▮: (A, B, C, D) => E", "0 Bind x ▮x▮: (A, B, C, D) => E"),
    (
        "▮x: (() => A)▮",
        "0 TypedPat x ▮x: (() => A)▮ @ ▮x▮: (() => A) [\
             1 FunType x: (▮() => A▮) [\
                 2 TypeIdent A x: (() => ▮A▮)]]",
    ),
    (
        "▮x: A | _: B▮",
        "0 AltPat ▮x: A | _: B▮ [\
             1 TypedPat x ▮x: A▮ | _: B @ ▮x▮: A | _: B [\
                 2 TypeIdent A x: ▮A▮ | _: B], \
             3 TypedPat _ x: A | ▮_: B▮ @ x: A | ▮_▮: B [\
                 4 TypeIdent B x: A | _: ▮B▮]]",
    ),
    (
        "▮x: | | y▮",
        "0 AltPat ▮x: | | y▮ [\
             1 TypedPat x ▮x: |▮ | y @ ▮x▮: | | y [\
                 2 TypeIdent | x: ▮|▮ | y], \
             3 Bind y x: | | ▮y▮]",
    ),
    (
        "▮(x: A, _)▮",
        "0 TuplePat ▮(x: A, _)▮ [\
             1 TypedPat x (▮x: A▮, _) @ (▮x▮: A, _) [\
                 2 TypeIdent A (x: ▮A▮, _)], \
             3 Wild (x: A, ▮_▮)]",
    ),
    (
        "▮A(x: B)▮",
        "0 CtorPat A ▮A(x: B)▮ @ ▮A▮(x: B) [\
             1 TypedPat x A(▮x: B▮) @ A(▮x▮: B) [\
                 2 TypeIdent B A(x: ▮B▮)]]",
    ),
    (
        "▮x: A▮ :: B",
        "0 TypedPat x ▮x: A▮ :: B @ ▮x▮: A :: B [1 TypeIdent A x: ▮A▮ :: B]",
    ),
];

// the first token that no pattern admits
static BAD_TOKENS: [Row; 18] = [
    ("▮▮", "not here"),
    ("▮▮=> 1", "not here"),
    ("▮▮if", "not here"),
    ("▮▮@ x", "not here"),
    ("▮▮: T", "not here"),
    ("▮▮[A]", "not here"),
    ("▮(▮=>", "not here"),
    ("▮(a▮ 1)", "not here"),
    ("▮(a, ▮)", "not here"),
    ("▮(a @ ▮)", "not here"),
    ("▮(a @ b▮: A)", "not here"),
    ("▮(a: ▮)", "not here"),
    ("▮(a: A▮ => B)", "not here"),
    ("▮(a: (▮))", "not here"),
    ("▮(a: (A, B, C▮, D))", "not here"),
    ("▮(a: A[(B, C, D, E)▮])", "not here"),
    ("▮(a + b▮ +: c)", "not here"),
    ("▮(a: A▮ :: B)", "not here"),
];

#[test]
fn patterns_of_one_name_or_literal(rt: HostRuntime) -> Result<(), Fail> {
    read_all(&rt, Pattern, &SINGLE)
}

#[test]
fn patterns_with_brackets(rt: HostRuntime) -> Result<(), Fail> {
    read_all(&rt, Pattern, &BRACKETS)
}

#[test]
fn infix_patterns(rt: HostRuntime) -> Result<(), Fail> {
    read_all(&rt, Pattern, &INFIX)
}

#[test]
fn bound_patterns_and_alternatives(rt: HostRuntime) -> Result<(), Fail> {
    read_all(&rt, Pattern, &BOUND)
}

#[test]
fn typed_patterns(rt: HostRuntime) -> Result<(), Fail> {
    read_all(&rt, Pattern, &TYPED)
}

#[test]
fn where_no_pattern_begins_the_first_bad_token_is_named(rt: HostRuntime) -> Result<(), Fail> {
    read_all(&rt, Pattern, &BAD_TOKENS)
}

// each makes a pattern one level higher
static NESTS: [Nest; 4] = [("A(", ")"), ("(a,", ")"), ("a::", ""), ("a.", "")];

#[test]
fn a_pattern_of_400_levels_is_read_and_one_of_401_is_too_high(rt: HostRuntime) -> Result<(), Fail> {
    ends_at_400_levels(&rt, Pattern, &NESTS)
}

#[test]
fn parentheses_and_strokes_make_no_pattern_higher(rt: HostRuntime) -> Result<(), Fail> {
    assert!(rt; is_read(&rt, Pattern, ("(", ")"), 50000)?);
    assert!(rt; is_read(&rt, Pattern, ("a|", ""), 50000)?);
    Ok(())
}
