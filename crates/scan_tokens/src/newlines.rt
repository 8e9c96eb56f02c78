//! Before which tokens a newline counts (SLS 1.2).

ghost use Rattle.std.specs.Prelude.{◌≡◌, ◌≤◌, List, length, [], false, IfOk};
ghost use Rattle.scan_tokens.specs.Characters.{is_space};
ghost use Rattle.scan_tokens.specs.Newlines as spec;
ghost use Rattle.scan_tokens.specs.Order.{AreInOrder};
ghost use Rattle.scan_tokens.specs.declared.regions.Region.{Region};
ghost use Rattle.scan_tokens.specs.declared.tokens.Newline.TheVariants.{No};

use crate::regions::Regions;
use crate::roles::{Role, can_begin, can_end, is_template, role_at};
use crate::tokens::{Newline, Token};
use pc_terms::{NoMemory, Row};
use std::alloc::Global;

fn is_space(b: u8) -> bool
    ensures { result ≡ is_space b }
{
    b == b' ' || b == b'\t' || b == b'\r' || b == b'\n' || b == 12
}

fn ends_line(bytes: &[u8]) -> bool
    ensures { result ≡ spec.ends_line bytes.now }
{
    let mut left = bytes;
    while let [b, rest @ ..] = left {
        if *b == b'\n' {
            return true;
        }
        if !is_space(*b) {
            return false;
        }
        left = rest;
    }
    false
}

/// The newline that the bytes between two tokens make.
fn newline_in(bytes: &[u8]) -> Newline
    ensures { result ≡ spec.newline_in No bytes.now }
{
    let mut found = Newline::No;
    let mut left = bytes;
    while let [b, rest @ ..] = left {
        if *b == b'\n' {
            if ends_line(rest) {
                return Newline::Blank;
            }
            found = Newline::One;
        }
        left = rest;
    }
    found
}

fn template_follows(text: &[u8], tokens: &[Token], at: u32) -> bool
    requires { AreInOrder (length text.now) at tokens.now }
    ensures { result ≡ spec.template_follows text.now tokens.now }
{
    match tokens {
        [] => false,
        [token, ..] => is_template(role_at(text, token)),
    }
}

/// Whether this is the `case` of a `case class` or `case object`. Of no other role does it matter what follows.
fn case_of_template(role: Role, text: &[u8], tokens: &[Token], at: u32) -> bool
    requires { AreInOrder (length text.now) at tokens.now }
    ensures begins { spec.can_begin role result ≡ spec.can_begin role (spec.template_follows text.now tokens.now) }
    ensures turns { (rs : List Region) → spec.turned role result rs ≡ spec.turned role (spec.template_follows text.now tokens.now) rs }
{
    match role {
        Role::Case => template_follows(text, tokens, at),
        _ => false,
    }
}

/// The tokens of a text, with the newlines that count before them.
pub fn with_newlines(alloc: Global, text: &[u8], tokens: &[Token]) -> Result<Row<Token>, NoMemory>
    requires { AreInOrder (length text.now) 0 tokens.now }
    ensures { IfOk result (λ row. row ≡ spec.marked text.now 0 false [] tokens.now) }
{
    let mut marked = Row::new(alloc);
    let mut regions = Regions::new(alloc);
    let mut end = 0u32;
    let mut ended = false;
    let mut left = tokens;
    while let [token, rest @ ..] = left {
        let role = role_at(text, token);
        let template = case_of_template(role, text, rest, token.span.end);
        let counts = ended && can_begin(role, template) && regions.enable();
        let before = if counts {
            newline_in(&text[end as usize..token.span.start as usize])
        } else {
            Newline::No
        };
        marked.push(Token { before, ..*token })?;
        regions.turn(role, template)?;
        end = token.span.end;
        ended = can_end(role);
        left = rest;
    }
    Ok(marked)
}
