//! The brackets and cases that are open before a token; the innermost says whether newlines count there (SLS 1.2).

ghost use Rattle.std.specs.Prelude.{◌≡◌, [], ◌∷◌, OnOk, MatchOption};
ghost use Rattle.scan_tokens.specs.Newlines as spec;

use crate::roles::{Bracket, Role};
use pc_terms::NoMemory;
use std::alloc::Global;
use std::marker::Model;

#[derive(Clone, Copy, Debug)]
pub enum Region {
    Within(Bracket),
    /// From `case` to its arrow.
    InCase,
}

/// The open regions; contracts see them as a list, the innermost first.
#[derive(Drop)]
pub struct Regions {
    open: Vec<Region>,
}

impl Model for Regions {
    ghost use Rattle.std.specs.Prelude.{List, reverse};
    ghost use Rattle.scan_tokens.specs.declared.regions.Region.{Region};

    ghost Value = { List Region };

    ghost view = { λ r. reverse r.open.items };
}

impl Regions {
    pub fn new(alloc: Global) -> Regions
        ensures { result ≡ [] }
    {
        Regions {
            open: Vec::new(alloc),
        }
    }

    fn push(&mut self, region: Region) -> Result<(), NoMemory>
        ensures { OnOk result (self.new ≡ region ∷ self.old) }
    {
        self.open.push(region)?;
        Ok(())
    }

    fn pop(&mut self) -> Option<Region>
        ensures { MatchOption result ((self.old ≡ []) × (self.new ≡ [])) (λ r. self.old ≡ r ∷ self.new) }
    {
        self.open.pop()
    }

    fn close(&mut self, bracket: Bracket) -> Result<(), NoMemory>
        ensures { OnOk result (self.new ≡ spec.without_bracket bracket (spec.without_cases self.old)) }
    {
        while let Some(region) = self.pop() {
            match region {
                Region::InCase => {}
                Region::Within(open) => {
                    if !same_bracket(open, bracket) {
                        self.push(region)?;
                    }
                    return Ok(());
                }
            }
        }
        Ok(())
    }

    fn close_case(&mut self) -> Result<(), NoMemory>
        ensures { OnOk result (self.new ≡ spec.without_case self.old) }
    {
        match self.pop() {
            None | Some(Region::InCase) => Ok(()),
            Some(region) => self.push(region),
        }
    }

    /// Goes past a token; `template` says that `class` or `object` follows it.
    pub fn turn(&mut self, role: Role, template: bool) -> Result<(), NoMemory>
        ensures { OnOk result (self.new ≡ spec.turned role template self.old) }
    {
        match role {
            Role::Opens(bracket) => self.push(Region::Within(bracket)),
            Role::Closes(bracket) => self.close(bracket),
            Role::Arrow => self.close_case(),
            Role::Case if !template => self.push(Region::InCase),
            _ => Ok(()),
        }
    }

    /// Whether newlines count there.
    pub fn enable(&self) -> bool
        ensures { result ≡ spec.enables self.now }
    {
        match self.open.last() {
            None | Some(Region::Within(Bracket::Curly)) => true,
            Some(_) => false,
        }
    }
}

fn same_bracket(opening: Bracket, closing: Bracket) -> bool
    ensures { result ≡ spec.same_bracket opening closing }
{
    match (opening, closing) {
        (Bracket::Round, Bracket::Round)
        | (Bracket::Square, Bracket::Square)
        | (Bracket::Curly, Bracket::Curly) => true,
        _ => false,
    }
}
