//! What the scanner gives of texts. The expected values were worked out from the rules of the language.

use pc_terms::MAX_SOURCE_BYTES;
use scan_tokens::{Newline, Tokens, scan};
use std::alloc::{AllocError, Global};
use std::process::Abort;
use std::test::Fail;

/// A text; its tokens with their kinds, where ⏎ is before a token at which a newline counts, and ⏎⏎ where a line of
/// white space alone lies before it too; its problems, each in the text between two marks ▮.
type Row = (&'static str, &'static str, &'static str);

// one whole object
static WHOLE: [Row; 1] = [(
    "object D {\n  val c = true\n  val r = if (c)\n    1\n  else 2\n}",
    "Word object | Id D | Delimiter { | Word val | Id c | Sign = | Word true | ⏎ Word val | Id r | Sign = | \
         Word if | Delimiter ( | Id c | Delimiter ) | ⏎ Int 1 | Word else | Int 2 | Delimiter }",
    "",
)];

// white space and comments, which are no tokens (SLS 1.4)
static SPACES: [Row; 13] = [
    ("", "", ""),
    (" \t\r\n\x0c", "", ""),
    (
        "\u{feff}a",
        "Error \u{feff} | Id a",
        "S1 illegal character: ▮\u{feff}▮a",
    ),
    ("//", "", ""),
    ("/**/a", "Id a", ""),
    ("/*/", "Error /*/", "S3 unclosed comment: ▮/*/▮"),
    (
        "/*/*/ */",
        "Error /*/*/ */",
        "S3 unclosed comment: ▮/*/*/ */▮",
    ),
    ("/***/a", "Id a", ""),
    ("/* a /* b */ c */x", "Id x", ""),
    ("/* // */x", "Id x", ""),
    ("// /*\nx", "Id x", ""),
    (
        "x /* y",
        "Id x | Error /* y",
        "S3 unclosed comment: x ▮/* y▮",
    ),
    (
        "/* /* */",
        "Error /* /* */",
        "S3 unclosed comment: ▮/* /* */▮",
    ),
];

// identifiers of letters, digits and operator characters (SLS 1.1)
static IDENTIFIERS: [Row; 11] = [
    ("x_+", "Id x_+", ""),
    ("a+//b", "Id a | Id +", ""),
    ("_+", "Sign _ | Id +", ""),
    ("__+", "Id __+", ""),
    ("x_1+", "Id x_1 | Id +", ""),
    ("x_//y", "Id x_", ""),
    ("x_/*y*/z", "Id x_ | Id z", ""),
    ("x_*/*y*/z", "Id x_* | Id z", ""),
    ("+/*y*/-", "Id + | Id -", ""),
    ("$a1 a$_", "Id $a1 | Id a$_", ""),
    (
        "! % & * + - / < > ? \\ ^ | ~",
        "Id ! | Id % | Id & | Id * | Id + | Id - | Id / | Id < | Id > | Id ? | Id \\ | Id ^ | Id | | Id ~",
        "",
    ),
];

// reserved words and signs, and what is only like them (SLS 1.1)
static RESERVED: [Row; 8] = [
    (
        ": = => <- <: <% >: # @ _",
        "Sign : | Sign = | Sign => | Sign <- | Sign <: | Sign <% | Sign >: | Sign # | Sign @ | Sign _",
        "",
    ),
    (
        "== =>> := <-- ## @@ ::",
        "Id == | Id =>> | Id := | Id <-- | Id ## | Id @@ | Id ::",
        "",
    ),
    (
        "abstract case catch class def do else extends",
        "Word abstract | Word case | Word catch | Word class | Word def | Word do | Word else | Word extends",
        "",
    ),
    (
        "false final finally for forSome if implicit import",
        "Word false | Word final | Word finally | Word for | Word forSome | Word if | Word implicit | Word import",
        "",
    ),
    (
        "lazy macro match new null object override package",
        "Word lazy | Word macro | Word match | Word new | Word null | Word object | Word override | Word package",
        "",
    ),
    (
        "private protected return sealed super this throw trait",
        "Word private | Word protected | Word return | Word sealed | Word super | Word this | Word throw | Word trait",
        "",
    ),
    (
        "true try type val var while with yield",
        "Word true | Word try | Word type | Word val | Word var | Word while | Word with | Word yield",
        "",
    ),
    (
        "forsome Class thiss thi",
        "Id forsome | Id Class | Id thiss | Id thi",
        "",
    ),
];

// letters, operators and illegal characters by their general category
static LETTERS: [Row; 7] = [
    (
        "a \u{21d2} b \u{2190} c",
        "Id a | Sign \u{21d2} | Id b | Sign \u{2190} | Id c",
        "",
    ),
    (
        "\u{21d2}\u{21d2} \u{2190}-",
        "Id \u{21d2}\u{21d2} | Id \u{2190}-",
        "",
    ),
    (
        "\u{e9}t\u{e9} \u{3bb}1 \u{1c5} \u{4e2d} \u{2167} \u{1d4b3}",
        "Id \u{e9}t\u{e9} | Id \u{3bb}1 | Id \u{1c5} | Id \u{4e2d} | Id \u{2167} | Id \u{1d4b3}",
        "",
    ),
    (
        "a\u{2211}b \u{2603} \u{1f600}+",
        "Id a | Id \u{2211} | Id b | Id \u{2603} | Id \u{1f600}+",
        "",
    ),
    (
        "\u{20ac}",
        "Error \u{20ac}",
        "S1 illegal character: ▮\u{20ac}▮",
    ),
    (
        "\u{2b0}\u{663}",
        "Error \u{2b0} | Error \u{663}",
        "S1 illegal character: ▮\u{2b0}▮\u{663}; S1 illegal character: \u{2b0}▮\u{663}▮",
    ),
    (
        "\0\x7f",
        "Error \0 | Error \x7f",
        "S1 illegal character: ▮\0▮\x7f; S1 illegal character: \0▮\x7f▮",
    ),
];

// identifiers between backquotes
static BACKQUOTED: [Row; 6] = [
    ("`a b` `\u{e9}`", "BackId `a b` | BackId `\u{e9}`", ""),
    ("`class`", "BackId `class`", ""),
    ("`ab", "Error ` | Id ab", "S1 illegal character: ▮`▮ab"),
    (
        "``",
        "Error ` | Error `",
        "S1 illegal character: ▮`▮`; S1 illegal character: `▮`▮",
    ),
    (
        "`a\tb`",
        "Error ` | Id a | Id b | Error `",
        "S1 illegal character: ▮`▮a\tb`; S1 illegal character: `a\tb▮`▮",
    ),
    (
        "`a\nb`c`",
        "Error ` | Id a | ⏎ Id b | BackId `c`",
        "S1 illegal character: ▮`▮a\nb`c`",
    ),
];

// delimiters
static DELIMITERS: [Row; 1] = [(
    "a;b,c.d()[]{}",
    "Id a | Delimiter ; | Id b | Delimiter , | Id c | Delimiter . | Id d | Delimiter ( | Delimiter ) | \
         Delimiter [ | Delimiter ] | Delimiter { | Delimiter }",
    "",
)];

// numbers (SLS 1.3.1)
static NUMBERS: [Row; 14] = [
    (
        "0 1 10 0L 1l 0x1F 0X1FL 0xaBl",
        "Int 0 | Int 1 | Int 10 | Long 0L | Long 1l | Int 0x1F | Long 0X1FL | Long 0xaBl",
        "",
    ),
    ("0x", "Error 0x", "S4 bad number or escape: ▮0x▮"),
    ("0xL", "Error 0xL", "S4 bad number or escape: ▮0xL▮"),
    ("0x1G", "Error 0x1G", "S4 bad number or escape: ▮0x1G▮"),
    ("00", "Error 00", "S4 bad number or escape: ▮00▮"),
    ("00L", "Error 00L", "S4 bad number or escape: ▮00L▮"),
    ("1LL", "Error 1LL", "S4 bad number or escape: ▮1LL▮"),
    ("1e5", "Error 1e5", "S4 bad number or escape: ▮1e5▮"),
    ("1.5", "Int 1 | Delimiter . | Int 5", ""),
    ("1_0", "Int 1 | Id _0", ""),
    ("1\u{e9}", "Int 1 | Id \u{e9}", ""),
    ("1x", "Error 1x", "S4 bad number or escape: ▮1x▮"),
    ("007", "Error 007", "S4 bad number or escape: ▮007▮"),
    ("0X1F", "Int 0X1F", ""),
];

// character literals (SLS 1.3.4)
static CHARACTERS: [Row; 18] = [
    ("'ab", "Error ' | Id ab", "S2 unclosed literal: ▮'▮ab"),
    (
        "'a' '\u{e9}' '\u{1f600}' '\"' ' '",
        "Char 'a' | Char '\u{e9}' | Char '\u{1f600}' | Char '\"' | Char ' '",
        "",
    ),
    (
        "''",
        "Error ' | Error '",
        "S2 unclosed literal: ▮'▮'; S2 unclosed literal: '▮'▮",
    ),
    (
        "'''",
        "Error ' | Error ' | Error '",
        "S2 unclosed literal: ▮'▮''; S2 unclosed literal: '▮'▮'; S2 unclosed literal: ''▮'▮",
    ),
    ("'", "Error '", "S2 unclosed literal: ▮'▮"),
    (
        "'a'b'",
        "Char 'a' | Id b | Error '",
        "S2 unclosed literal: 'a'b▮'▮",
    ),
    (
        "'\n'",
        "Error ' | Error '",
        "S2 unclosed literal: ▮'▮\n'; S2 unclosed literal: '\n▮'▮",
    ),
    ("'\\''", "Char '\\''", ""),
    (
        "'\\b''\\t''\\n''\\f''\\r''\\\"''\\\\'",
        "Char '\\b' | Char '\\t' | Char '\\n' | Char '\\f' | Char '\\r' | Char '\\\"' | Char '\\\\'",
        "",
    ),
    (
        "'\\u0041' '\\uu0041'",
        "Char '\\u0041' | Char '\\uu0041'",
        "",
    ),
    ("'\\u0027'", "Char '\\u0027'", ""),
    ("'\\u'", "Char '\\u'", "S4 bad number or escape: '▮\\u▮'"),
    (
        "'\\u00'",
        "Error ' | Id \\ | Id u00 | Error '",
        "S2 unclosed literal: ▮'▮\\u00'; S2 unclosed literal: '\\u00▮'▮",
    ),
    (
        "'\\uu'",
        "Error ' | Id \\ | Id uu | Error '",
        "S2 unclosed literal: ▮'▮\\uu'; S2 unclosed literal: '\\uu▮'▮",
    ),
    ("'\\q'", "Char '\\q'", "S4 bad number or escape: '▮\\q▮'"),
    (
        "'\\\u{e9}'",
        "Char '\\\u{e9}'",
        "S4 bad number or escape: '▮\\\u{e9}▮'",
    ),
    (
        "'\\\n'",
        "Error ' | Id \\ | ⏎ Error '",
        "S2 unclosed literal: ▮'▮\\\n'; S2 unclosed literal: '\\\n▮'▮",
    ),
    ("'\\", "Error ' | Id \\", "S2 unclosed literal: ▮'▮\\"),
];

// strings of one line (SLS 1.3.5)
static LINE_STRINGS: [Row; 13] = [
    ("a+\"b\"", "Id a | Id + | Str \"b\"", ""),
    ("\"\" \"a\"", "Str \"\" | Str \"a\"", ""),
    ("\"a\\\"b\" \"\\\\\"", "Str \"a\\\"b\" | Str \"\\\\\"", ""),
    ("\"a\\\"", "Error \"a\\\"", "S2 unclosed literal: ▮\"a\\\"▮"),
    ("\"\\u0041\\uu0022\"", "Str \"\\u0041\\uu0022\"", ""),
    (
        "\"\\u00\"",
        "Str \"\\u00\"",
        "S4 bad number or escape: \"▮\\u▮00\"",
    ),
    (
        "\"\\uu00g\"",
        "Str \"\\uu00g\"",
        "S4 bad number or escape: \"▮\\u▮u00g\"",
    ),
    (
        "\"\\q\\'\\\u{e9}\"",
        "Str \"\\q\\'\\\u{e9}\"",
        "S4 bad number or escape: \"▮\\q▮\\'\\\u{e9}\"; S4 bad number or escape: \"\\q\\'▮\\\u{e9}▮\"",
    ),
    (
        "\"ab\n1\"",
        "Error \"ab | Int 1 | Error \"",
        "S2 unclosed literal: ▮\"ab▮\n1\"; S2 unclosed literal: \"ab\n1▮\"▮",
    ),
    (
        "\"ab\nc\"",
        "Error \"ab | Error c\"",
        "S2 unclosed literal: ▮\"ab▮\nc\"; S5 interpolated string: \"ab\n▮c\"▮",
    ),
    (
        "\"a\\\nb",
        "Error \"a\\ | Id b",
        "S2 unclosed literal: ▮\"a\\▮\nb",
    ),
    ("\"\\q", "Error \"\\q", "S2 unclosed literal: ▮\"\\q▮"),
    ("\"a\r\"", "Str \"a\r\"", ""),
];

// strings between three quotes (SLS 1.3.5)
static RAW_STRINGS: [Row; 7] = [
    ("\"\"\"a\"\"\"\"", "Str \"\"\"a\"\"\"\"", ""),
    ("\"\"\"\"\"\"", "Str \"\"\"\"\"\"", ""),
    ("\"\"\"\"a\"\"\"", "Str \"\"\"\"a\"\"\"", ""),
    (
        "\"\"\"\"\"",
        "Error \"\"\"\"\"",
        "S2 unclosed literal: ▮\"\"\"\"\"▮",
    ),
    (
        "\"\"\"a\"\"b\n",
        "Error \"\"\"a\"\"b\n",
        "S2 unclosed literal: ▮\"\"\"a\"\"b\n▮",
    ),
    ("\"\"\"\\q\\\"\"\" x", "Str \"\"\"\\q\\\"\"\" | Id x", ""),
    ("\"\"\"a\n\"b\"\"\" c", "Str \"\"\"a\n\"b\"\"\" | Id c", ""),
];

// interpolated strings, which the profile refuses
static INTERPOLATED: [Row; 7] = [
    ("s\"a\"", "Error s\"a\"", "S5 interpolated string: ▮s\"a\"▮"),
    ("s\"a", "Error s\"a", "S5 interpolated string: ▮s\"a▮"),
    (
        "s\"a\nb",
        "Error s\"a | Id b",
        "S5 interpolated string: ▮s\"a▮\nb",
    ),
    (
        "s\"\\q\"",
        "Error s\"\\q\"",
        "S5 interpolated string: ▮s\"\\q\"▮",
    ),
    (
        "s\"\"\"a\"b\"\"\" c",
        "Error s\"\"\"a\"b\"\"\" | Id c",
        "S5 interpolated string: ▮s\"\"\"a\"b\"\"\"▮ c",
    ),
    (
        "s\"\"\"a\nb",
        "Error s\"\"\"a\nb",
        "S5 interpolated string: ▮s\"\"\"a\nb▮",
    ),
    (
        "x_+\"a\"",
        "Error x_+\"a\"",
        "S5 interpolated string: ▮x_+\"a\"▮",
    ),
];

// strings directly after other tokens
static STRINGS_BESIDE: [Row; 5] = [
    ("class\"x\"", "Word class | Str \"x\"", ""),
    ("_\"x\"", "Sign _ | Str \"x\"", ""),
    ("`s`\"a\"", "BackId `s` | Str \"a\"", ""),
    ("s \"a\" 1\"b\"", "Id s | Str \"a\" | Int 1 | Str \"b\"", ""),
    (
        "\u{20ac} \"\\q\" 08",
        "Error \u{20ac} | Str \"\\q\" | Error 08",
        "S1 illegal character: ▮\u{20ac}▮ \"\\q\" 08; S4 bad number or escape: \u{20ac} \"▮\\q▮\" 08; S4 bad \
         number or escape: \u{20ac} \"\\q\" ▮08▮",
    ),
];

// one newline, and a line of white space alone (SLS 1.2)
static NEWLINES: [Row; 13] = [
    ("a\nb", "Id a | ⏎ Id b", ""),
    ("\n\na", "Id a", ""),
    ("a\r\nb", "Id a | ⏎ Id b", ""),
    ("a\r\n\r\nb", "Id a | ⏎⏎ Id b", ""),
    ("a\n \t\r\x0c\nb", "Id a | ⏎⏎ Id b", ""),
    ("a\rb\x0cc", "Id a | Id b | Id c", ""),
    ("a\n\n\nb", "Id a | ⏎⏎ Id b", ""),
    ("a/*\n*/b", "Id a | ⏎ Id b", ""),
    ("a/*\n \n*/b", "Id a | ⏎⏎ Id b", ""),
    ("a\n/**/\nb", "Id a | ⏎ Id b", ""),
    ("a//x\n//y\n b", "Id a | ⏎ Id b", ""),
    ("a//x\n\n//y\n b", "Id a | ⏎⏎ Id b", ""),
    ("a/*\n*/ \n//c\nb", "Id a | ⏎ Id b", ""),
];

// a newline counts after these tokens alone (SLS 1.2)
static ENDS: [Row; 4] = [
    (
        "this\nnull\ntrue\nfalse\nreturn\ntype\n_\nx",
        "Word this | ⏎ Word null | ⏎ Word true | ⏎ Word false | ⏎ Word return | ⏎ Word type | ⏎ Sign _ | ⏎ Id x",
        "",
    ),
    (
        "1\n2L\n'a'\n\"b\"\n`c`\n+\nd",
        "Int 1 | ⏎ Long 2L | ⏎ Char 'a' | ⏎ Str \"b\" | ⏎ BackId `c` | ⏎ Id + | ⏎ Id d",
        "",
    ),
    (
        "{}\n(\n)\nx",
        "Delimiter { | Delimiter } | ⏎ Delimiter ( | Delimiter ) | ⏎ Id x",
        "",
    ),
    (
        "x\n[\n]\nx\n{\nx\n}\nx",
        "Id x | Delimiter [ | Delimiter ] | ⏎ Id x | ⏎ Delimiter { | Id x | Delimiter } | ⏎ Id x",
        "",
    ),
];

// a newline does not count before these tokens, nor after them (SLS 1.2)
static CONTINUES: [Row; 21] = [
    ("a\ncatch\nb", "Id a | Word catch | Id b", ""),
    ("a\nelse\nb", "Id a | Word else | Id b", ""),
    ("a\nextends\nb", "Id a | Word extends | Id b", ""),
    ("a\nfinally\nb", "Id a | Word finally | Id b", ""),
    ("a\nforSome\nb", "Id a | Word forSome | Id b", ""),
    ("a\nmatch\nb", "Id a | Word match | Id b", ""),
    ("a\nwith\nb", "Id a | Word with | Id b", ""),
    ("a\nyield\nb", "Id a | Word yield | Id b", ""),
    ("a\n,\nb", "Id a | Delimiter , | Id b", ""),
    ("a\n.\nb", "Id a | Delimiter . | Id b", ""),
    ("a\n;\nb", "Id a | Delimiter ; | Id b", ""),
    ("a\n:\nb", "Id a | Sign : | Id b", ""),
    ("a\n=\nb", "Id a | Sign = | Id b", ""),
    ("a\n=>\nb", "Id a | Sign => | Id b", ""),
    ("a\n<-\nb", "Id a | Sign <- | Id b", ""),
    ("a\n<:\nb", "Id a | Sign <: | Id b", ""),
    ("a\n<%\nb", "Id a | Sign <% | Id b", ""),
    ("a\n>:\nb", "Id a | Sign >: | Id b", ""),
    ("a\n#\nb", "Id a | Sign # | Id b", ""),
    ("a\n\u{21d2}\nb", "Id a | Sign \u{21d2} | Id b", ""),
    ("a\n\u{2190}\nb", "Id a | Sign \u{2190} | Id b", ""),
];

// a newline counts before these tokens, and not after them (SLS 1.2)
static BEGINS: [Row; 27] = [
    ("a\nabstract\nb", "Id a | ⏎ Word abstract | Id b", ""),
    ("a\nclass\nb", "Id a | ⏎ Word class | Id b", ""),
    ("a\ndef\nb", "Id a | ⏎ Word def | Id b", ""),
    ("a\ndo\nb", "Id a | ⏎ Word do | Id b", ""),
    ("a\nfinal\nb", "Id a | ⏎ Word final | Id b", ""),
    ("a\nfor\nb", "Id a | ⏎ Word for | Id b", ""),
    ("a\nif\nb", "Id a | ⏎ Word if | Id b", ""),
    ("a\nimplicit\nb", "Id a | ⏎ Word implicit | Id b", ""),
    ("a\nimport\nb", "Id a | ⏎ Word import | Id b", ""),
    ("a\nlazy\nb", "Id a | ⏎ Word lazy | Id b", ""),
    ("a\nmacro\nb", "Id a | ⏎ Word macro | Id b", ""),
    ("a\nnew\nb", "Id a | ⏎ Word new | Id b", ""),
    ("a\nobject\nb", "Id a | ⏎ Word object | Id b", ""),
    ("a\noverride\nb", "Id a | ⏎ Word override | Id b", ""),
    ("a\npackage\nb", "Id a | ⏎ Word package | Id b", ""),
    ("a\nprivate\nb", "Id a | ⏎ Word private | Id b", ""),
    ("a\nprotected\nb", "Id a | ⏎ Word protected | Id b", ""),
    ("a\nsealed\nb", "Id a | ⏎ Word sealed | Id b", ""),
    ("a\nsuper\nb", "Id a | ⏎ Word super | Id b", ""),
    ("a\nthrow\nb", "Id a | ⏎ Word throw | Id b", ""),
    ("a\ntrait\nb", "Id a | ⏎ Word trait | Id b", ""),
    ("a\ntry\nb", "Id a | ⏎ Word try | Id b", ""),
    ("a\nval\nb", "Id a | ⏎ Word val | Id b", ""),
    ("a\nvar\nb", "Id a | ⏎ Word var | Id b", ""),
    ("a\nwhile\nb", "Id a | ⏎ Word while | Id b", ""),
    ("a\n@\nb", "Id a | ⏎ Sign @ | Id b", ""),
    (
        "a\n\u{20ac}\nb",
        "Id a | ⏎ Error \u{20ac} | Id b",
        "S1 illegal character: a\n▮\u{20ac}▮\nb",
    ),
];

// no newline counts between `case` and its arrow (SLS 1.2)
static CASES: [Row; 11] = [
    (
        "x\ncase class C\ny",
        "Id x | ⏎ Word case | Word class | Id C | ⏎ Id y",
        "",
    ),
    (
        "x\ncase\nobject C\ny",
        "Id x | ⏎ Word case | Word object | Id C | ⏎ Id y",
        "",
    ),
    ("x\ncase y", "Id x | Word case | Id y", ""),
    ("x\ncase", "Id x | Word case", ""),
    (
        "case a\nif b\n=> c\nd",
        "Word case | Id a | Word if | Id b | Sign => | Id c | ⏎ Id d",
        "",
    ),
    (
        "case a\nb \u{21d2} c\nd",
        "Word case | Id a | Id b | Sign \u{21d2} | Id c | ⏎ Id d",
        "",
    ),
    (
        "case (a => b)\nc => d",
        "Word case | Delimiter ( | Id a | Sign => | Id b | Delimiter ) | Id c | Sign => | Id d",
        "",
    ),
    (
        "case {\na\nb } c\nd => e",
        "Word case | Delimiter { | Id a | ⏎ Id b | Delimiter } | Id c | Id d | Sign => | Id e",
        "",
    ),
    (
        "case case a => b\nc => d\ne",
        "Word case | Word case | Id a | Sign => | Id b | Id c | Sign => | Id d | ⏎ Id e",
        "",
    ),
    ("a => b\nc", "Id a | Sign => | Id b | ⏎ Id c", ""),
    ("case a\nb", "Word case | Id a | Id b", ""),
];

// a newline counts where the innermost bracket is a brace (SLS 1.2)
static BRACKETS: [Row; 13] = [
    (
        "(a\nb)\nc",
        "Delimiter ( | Id a | Id b | Delimiter ) | ⏎ Id c",
        "",
    ),
    (
        "[a\nb]\nc",
        "Delimiter [ | Id a | Id b | Delimiter ] | ⏎ Id c",
        "",
    ),
    (
        "({a\nb}\nc)",
        "Delimiter ( | Delimiter { | Id a | ⏎ Id b | Delimiter } | Id c | Delimiter )",
        "",
    ),
    ("{(a\nb", "Delimiter { | Delimiter ( | Id a | Id b", ""),
    ("{a\nb", "Delimiter { | Id a | ⏎ Id b", ""),
    (
        ")\na]\nb",
        "Delimiter ) | ⏎ Id a | Delimiter ] | ⏎ Id b",
        "",
    ),
    (
        "(a]\nb\n)c\nd",
        "Delimiter ( | Id a | Delimiter ] | Id b | Delimiter ) | Id c | ⏎ Id d",
        "",
    ),
    (
        "({a)\nb}\nc",
        "Delimiter ( | Delimiter { | Id a | Delimiter ) | ⏎ Id b | Delimiter } | Id c",
        "",
    ),
    (
        "{case a}\nb",
        "Delimiter { | Word case | Id a | Delimiter } | ⏎ Id b",
        "",
    ),
    (
        "{case a]\nb",
        "Delimiter { | Word case | Id a | Delimiter ] | ⏎ Id b",
        "",
    ),
    ("case a)\nb", "Word case | Id a | Delimiter ) | ⏎ Id b", ""),
    (
        "case (a]\nb",
        "Word case | Delimiter ( | Id a | Delimiter ] | Id b",
        "",
    ),
    (
        "case (case a)\nb => c\nd",
        "Word case | Delimiter ( | Word case | Id a | Delimiter ) | Id b | Sign => | Id c | ⏎ Id d",
        "",
    ),
];

fn shown_tokens(alloc: Global, found: &Tokens) -> Result<String, AllocError> {
    let mut shown = String::new(alloc);
    for token in found.tokens.as_slice() {
        if !shown.is_empty() {
            shown.push_str(" | ")?;
        }
        match token.before {
            Newline::No => {}
            Newline::One => shown.push_str("⏎ ")?,
            Newline::Blank => shown.push_str("⏎⏎ ")?,
        }
        let kind = token.kind;
        let (start, end) = (token.span.start as usize, token.span.end as usize);
        let word = found.text.as_str().get(start..end).unwrap_or("no token");
        write!(shown, "{kind:?} {word}")?;
    }
    Ok(shown)
}

fn shown_problems(alloc: Global, found: &Tokens) -> Result<String, AllocError> {
    let text = found.text.as_str();
    let mut shown = String::new(alloc);
    for problem in found.problems.as_slice() {
        if !shown.is_empty() {
            shown.push_str("; ")?;
        }
        let (code, message) = (problem.code, problem.text.as_str());
        let (start, end) = (problem.span.start as usize, problem.span.end as usize);
        let front = text.get(..start).unwrap_or("no start");
        let wrong = text.get(start..end).unwrap_or("no problem");
        let back = text.get(end..).unwrap_or("no end");
        write!(shown, "{code:?} {message}: {front}▮{wrong}▮{back}")?;
    }
    Ok(shown)
}

fn agree(rt: &(impl Abort + AllocGlobal), table: &[Row]) -> Result<(), Fail> {
    for (text, tokens, problems) in table {
        assert!(rt; text.len() <= MAX_SOURCE_BYTES);
        let found = scan(rt.alloc(), text)?;
        assert_eq!(rt;
            shown_tokens(rt.alloc(), &found)?.as_str(),
            *tokens,
            "the tokens of {text:?}"
        );
        assert_eq!(rt;
            shown_problems(rt.alloc(), &found)?.as_str(),
            *problems,
            "the problems of {text:?}"
        );
        assert_eq!(rt; found.text.as_str(), *text);
    }
    Ok(())
}

#[test]
fn a_whole_object(rt: HostRuntime) -> Result<(), Fail> {
    agree(&rt, &WHOLE)
}

#[test]
fn white_space_and_comments(rt: HostRuntime) -> Result<(), Fail> {
    agree(&rt, &SPACES)
}

#[test]
fn plain_identifiers(rt: HostRuntime) -> Result<(), Fail> {
    agree(&rt, &IDENTIFIERS)
}

#[test]
fn reserved_words_and_signs(rt: HostRuntime) -> Result<(), Fail> {
    agree(&rt, &RESERVED)
}

#[test]
fn letters_and_operators_outside_ascii(rt: HostRuntime) -> Result<(), Fail> {
    agree(&rt, &LETTERS)
}

#[test]
fn identifiers_between_backquotes(rt: HostRuntime) -> Result<(), Fail> {
    agree(&rt, &BACKQUOTED)
}

#[test]
fn delimiters(rt: HostRuntime) -> Result<(), Fail> {
    agree(&rt, &DELIMITERS)
}

#[test]
fn numbers(rt: HostRuntime) -> Result<(), Fail> {
    agree(&rt, &NUMBERS)
}

#[test]
fn character_literals(rt: HostRuntime) -> Result<(), Fail> {
    agree(&rt, &CHARACTERS)
}

#[test]
fn strings_of_one_line(rt: HostRuntime) -> Result<(), Fail> {
    agree(&rt, &LINE_STRINGS)
}

#[test]
fn strings_between_three_quotes(rt: HostRuntime) -> Result<(), Fail> {
    agree(&rt, &RAW_STRINGS)
}

#[test]
fn interpolated_strings(rt: HostRuntime) -> Result<(), Fail> {
    agree(&rt, &INTERPOLATED)
}

#[test]
fn strings_beside_other_tokens(rt: HostRuntime) -> Result<(), Fail> {
    agree(&rt, &STRINGS_BESIDE)
}

#[test]
fn newlines_between_tokens(rt: HostRuntime) -> Result<(), Fail> {
    agree(&rt, &NEWLINES)
}

#[test]
fn tokens_that_end_a_statement(rt: HostRuntime) -> Result<(), Fail> {
    agree(&rt, &ENDS)
}

#[test]
fn tokens_that_continue_a_statement(rt: HostRuntime) -> Result<(), Fail> {
    agree(&rt, &CONTINUES)
}

#[test]
fn tokens_that_begin_a_statement(rt: HostRuntime) -> Result<(), Fail> {
    agree(&rt, &BEGINS)
}

#[test]
fn newlines_in_cases(rt: HostRuntime) -> Result<(), Fail> {
    agree(&rt, &CASES)
}

#[test]
fn newlines_in_brackets(rt: HostRuntime) -> Result<(), Fail> {
    agree(&rt, &BRACKETS)
}
