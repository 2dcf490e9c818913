// The tokens of a line that are not read yet.
ghost use Rattle.std.specs.Prelude.{◌≡◌, true, false, IfSome, IfNone, IfOk, IfErr};
ghost use Rattle.py_lines.specs.declared.parts.TokenKind.TheVariants.{Keyword, Sign};
ghost use Rattle.py_expressions.specs.Parsed.{Taken, is_keyword_next, is_sign_next, IsAtFirst, Refused, one_keyword, one_sign, one_name, TakenName};
ghost use Rattle.py_expressions.specs.Reader.{begins_name};

use crate::fault::{Fault, Stop};
use prov_base::{Name, Pos};
use py_lines::{Token, TokenKind};
use std::alloc::Global;

/// The tokens that are not read yet.
#[derive(Drop)]
pub struct Cursor<'a> {
    pub rest: &'a [Token],
}

impl<'a> Cursor<'a> {
    /// The next token is taken where it is this keyword.
    #[tactic(auto, using(crate::proofs::Taking::taken))]
    pub fn take_keyword(&mut self, number: u8) -> Option<Pos>
        ensures taken { IfSome result (λ at. Taken (Keyword number) self.old.rest.now at self.new.rest.now) }
        ensures absent { IfNone result (is_keyword_next number self.old.rest.now ≡ false) }
        ensures kept { IfNone result (self.new.rest.now ≡ self.old.rest.now) }
    {
        let (token, rest) = self.rest.split_first()?;
        match &token.kind {
            TokenKind::Keyword(found) if *found == number => {
                self.rest = rest;
                Some(token.at)
            }
            _ => None,
        }
    }

    /// The next token is taken where it is this sign.
    #[tactic(auto, using(crate::proofs::Taking::taken))]
    pub fn take_sign(&mut self, number: u8) -> Option<Pos>
        ensures taken { IfSome result (λ at. Taken (Sign number) self.old.rest.now at self.new.rest.now) }
        ensures absent { IfNone result (is_sign_next number self.old.rest.now ≡ false) }
        ensures kept { IfNone result (self.new.rest.now ≡ self.old.rest.now) }
    {
        let (token, rest) = self.rest.split_first()?;
        match &token.kind {
            TokenKind::Sign(found) if *found == number => {
                self.rest = rest;
                Some(token.at)
            }
            _ => None,
        }
    }

    /// The next token is this keyword, which is taken.
    #[tactic(auto, using(crate::proofs::Stops::keyword_refused))]
    pub fn keyword(&mut self, number: u8) -> Result<Pos, Stop>
        ensures taken { IfOk result (λ at. Taken (Keyword number) self.old.rest.now at self.new.rest.now) }
        ensures refused { IfErr result (Refused (one_keyword number) 0 self.old.rest.now) }
    {
        match self.take_keyword(number) {
            Some(at) => Ok(at),
            None => Err(self.refuse()),
        }
    }

    /// The next token is this sign, which is taken.
    #[tactic(auto, using(crate::proofs::Stops::sign_refused))]
    pub fn sign(&mut self, number: u8) -> Result<Pos, Stop>
        ensures taken { IfOk result (λ at. Taken (Sign number) self.old.rest.now at self.new.rest.now) }
        ensures refused { IfErr result (Refused (one_sign number) 0 self.old.rest.now) }
    {
        match self.take_sign(number) {
            Some(at) => Ok(at),
            None => Err(self.refuse()),
        }
    }

    /// The next token is taken where it is a name, which is lent.
    #[tactic(auto, using(crate::proofs::Taking::taken_name))]
    fn take_name(&mut self) -> Option<(Pos, &'a Name)>
        ensures taken { IfSome result (λ found. TakenName self.old.rest.now found.0 found.1.now self.new.rest.now) }
        ensures absent { IfNone result (begins_name self.old.rest.now ≡ false) }
        ensures kept { IfNone result (self.new.rest.now ≡ self.old.rest.now) }
    {
        let (token, rest) = self.rest.split_first()?;
        match &token.kind {
            TokenKind::Word(name) => {
                self.rest = rest;
                Some((token.at, name))
            }
            _ => None,
        }
    }

    /// The next token is a name, which is taken.
    #[tactic(auto, using(crate::proofs::Stops::name_refused))]
    pub fn name(&mut self, alloc: Global) -> Result<(Pos, Name), Stop>
        ensures taken { IfOk result (λ found. TakenName self.old.rest.now found.0 found.1 self.new.rest.now) }
        ensures refused { IfErr result (Refused one_name 0 self.old.rest.now) }
    {
        let Some((at, name)) = self.take_name() else {
            return Err(self.refuse());
        };
        let name = Name::of(String::from_str(alloc, name.as_str())?);
        Ok((at, name))
    }

    /// That the grammar has no such token as the next one here.
    pub fn refuse(&self) -> Stop
        ensures { IsAtFirst self.now.rest.now result }
    {
        match self.rest.split_first() {
            None => Stop::End,
            Some((_, behind)) => Stop::Here(Fault::Unexpected(behind.len())),
        }
    }
}
