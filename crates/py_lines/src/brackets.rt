// The brackets that are open in a line.
ghost use Rattle.std.specs.Prelude.{◌≡◌, [], ◌∷◌, Some, None, codes, IfOk, OnOk, MatchBool, option_map};
ghost use Rattle.py_lines.specs.Bracketing as spec;

use prov_base::Pos;
use std::alloc::{AllocError, Global};
use std::marker::Model;

/// An open bracket: the byte that closes it, and its place.
#[derive(Clone, Copy)]
pub struct Bracket {
    pub closed_by: u8,
    pub at: Pos,
}

/// The open brackets, the innermost first.
#[derive(Drop)]
pub struct Brackets {
    outermost_first: Vec<Bracket>,
}

impl Model for Brackets {
    ghost use Rattle.std.specs.Prelude.{List, reverse};
    ghost use Rattle.py_lines.specs.declared.brackets.Bracket.{Bracket};

    ghost Value = { List Bracket };

    ghost view = { λ b. reverse b.outermost_first.items };
}

/// The byte that closes the bracket, where the sign opens one.
fn closing_byte(sign: &[u8]) -> Option<u8>
    ensures { result ≡ spec.closing_byte sign.now }
{
    if sign == b"(".as_slice() {
        Some(b')')
    } else if sign == b"[".as_slice() {
        Some(b']')
    } else if sign == b"{".as_slice() {
        Some(b'}')
    } else {
        None
    }
}

fn is_closing(sign: &[u8]) -> bool
    ensures { result ≡ spec.is_closing sign.now }
{
    sign == b")".as_slice() || sign == b"]".as_slice() || sign == b"}".as_slice()
}

impl Brackets {
    pub fn new(alloc: Global) -> Brackets
        ensures { result ≡ [] }
    {
        Brackets {
            outermost_first: Vec::new(alloc),
        }
    }

    /// No bracket is open.
    pub fn is_empty(&self) -> bool
        ensures { result ≡ spec.is_none_open self.now }
    {
        self.outermost_first.is_empty()
    }

    /// The place of the outermost bracket.
    pub fn first(&self) -> Option<Pos>
        ensures { result ≡ spec.first_open self.now }
    {
        let bracket = self.outermost_first.first()?;
        Some(bracket.at)
    }

    fn push(&mut self, bracket: Bracket) -> Result<(), AllocError>
        ensures { OnOk result (self.new ≡ bracket ∷ self.old) }
    {
        self.outermost_first.push(bracket)?;
        Ok(())
    }

    /// Closes the innermost bracket. `false` where it is another, or none is open.
    fn close(&mut self, sign: &[u8]) -> bool
        ensures { MatchBool result (spec.close sign.now self.old ≡ Some self.new) (spec.close sign.now self.old ≡ None) }
    {
        match self.outermost_first.pop() {
            Some(bracket) => sign == [bracket.closed_by].as_slice(),
            None => false,
        }
    }

    /// Takes a sign that stands at this place. `false` where it is a stray bracket.
    pub fn take(&mut self, sign: &[u8], at: Pos) -> Result<bool, AllocError>
        ensures { IfOk result (λ fits. MatchBool fits (spec.after_sign at sign.now self.old ≡ Some self.new) (spec.after_sign at sign.now self.old ≡ None)) }
    {
        if let Some(closed_by) = closing_byte(sign) {
            self.push(Bracket { closed_by, at })?;
            return Ok(true);
        }
        if is_closing(sign) {
            return Ok(self.close(sign));
        }
        Ok(true)
    }
}
