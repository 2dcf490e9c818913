// Operators, from the conditional down to the sign before an operand: a function for each production, which reads as many
// tokens as it can. `room` is how deep an expression may go here.
ghost use Rattle.std.specs.Prelude.{◌≤◌, ◌<◌, ◌≡◌, IfOk, IfErr, IfSome, IfNone, None, true, ◌==◌};
ghost use Rattle.py_expressions.specs.Reader.{next_level};
ghost use Rattle.py_expressions.specs.Parsed.{Found, Refused, expr_part, or_part, and_part, not_part, cmp_part, sum_part, term_part, unary_part, IsTooDeep, TakenAdd, TakenMul, TakenCmp, add_sign_next, mul_sign_next, one_cmp_sign, cmp_sign_op, cmp_sign_next};
ghost use Rattle.py_expressions.specs.Parsed as spec;
ghost use Rattle.py_expressions.specs.Trees.{expr_tree, or_tree, and_tree, not_tree, cmp_tree, sum_tree, term_tree, unary_tree};

use crate::cursor::Cursor;
use crate::fault::{Fault, Stop};
use crate::part::{Part, binary, choose, compare, logic, unary};
use crate::words::{
    AND, ELSE, EQUAL, FLOOR_DIVIDE, GREATER, GREATER_EQUAL, IF, IN, IS, LESS, LESS_EQUAL, MINUS,
    NOT, OR, PERCENT, PLUS, STAR, UNEQUAL,
};
use prov_base::Pos;
use py_lines::TokenKind;
use py_tree::{BinOp, CmpOp, LogicOp, UnOp};
use std::alloc::Global;

/// How deep an expression of a statement may go: a limit of this implementation, not of the language.
pub const ROOM: u32 = 100;

/// There is room for an expression over this one.
pub fn goes_above(part: &Part, room: u32) -> Result<(), Stop>
    ensures fits { IfOk result (λ _. part.now.height < room) }
    ensures deep { IfErr result (IsTooDeep part.now.height part.now.deepest room) }
{
    if part.height < room {
        Ok(())
    } else {
        Err(Stop::Here(Fault::TooDeep(part.deepest)))
    }
}

/// There is room for an expression that begins here.
pub(crate) fn goes_here(at: Pos, room: u32) -> Result<(), Stop>
    ensures fits { IfOk result (λ _. 0 < room) }
    ensures deep { IfErr result (IsTooDeep 0 at room) }
{
    if 0 < room {
        Ok(())
    } else {
        Err(Stop::Here(Fault::TooDeep(at)))
    }
}

/// The sign before an operand that is written like this operator between two.
fn sign_of(op: BinOp) -> UnOp
    ensures { result ≡ spec.sign_of op }
{
    match op {
        BinOp::Add => UnOp::Plus,
        _ => UnOp::Minus,
    }
}

/// The comparison that a sign is, by its number.
fn cmp_sign(number: u8) -> Option<CmpOp>
    ensures { result ≡ cmp_sign_op number }
{
    match number {
        EQUAL => Some(CmpOp::Eq),
        UNEQUAL => Some(CmpOp::Ne),
        LESS => Some(CmpOp::Lt),
        LESS_EQUAL => Some(CmpOp::Le),
        GREATER => Some(CmpOp::Gt),
        GREATER_EQUAL => Some(CmpOp::Ge),
        _ => None,
    }
}

impl<'a> Cursor<'a> {
    /// `+` or `-`, which is taken where it is the next token.
    fn take_add_sign(&mut self) -> Option<(Pos, BinOp)>
        ensures taken { IfSome result (λ found. TakenAdd self.old.rest.now found.0 found.1 self.new.rest.now) }
        ensures absent { IfNone result (add_sign_next self.old.rest.now ≡ None) }
        ensures kept { IfNone result (self.new.rest.now ≡ self.old.rest.now) }
    {
        if let Some(at) = self.take_sign(PLUS) {
            return Some((at, BinOp::Add));
        }
        let at = self.take_sign(MINUS)?;
        Some((at, BinOp::Sub))
    }

    /// `*`, `//` or `%`, which is taken where it is the next token.
    fn take_mul_sign(&mut self) -> Option<(Pos, BinOp)>
        ensures taken { IfSome result (λ found. TakenMul self.old.rest.now found.0 found.1 self.new.rest.now) }
        ensures absent { IfNone result (mul_sign_next self.old.rest.now ≡ None) }
        ensures kept { IfNone result (self.new.rest.now ≡ self.old.rest.now) }
    {
        if let Some(at) = self.take_sign(STAR) {
            return Some((at, BinOp::Mul));
        }
        if let Some(at) = self.take_sign(FLOOR_DIVIDE) {
            return Some((at, BinOp::FloorDiv));
        }
        let at = self.take_sign(PERCENT)?;
        Some((at, BinOp::Mod))
    }

    /// The next token begins a comparison.
    fn at_comparison(&self) -> bool
        ensures { result ≡ (next_level self.now.rest.now == 4) }
    {
        let Some(token) = self.rest.first() else {
            return false;
        };
        match &token.kind {
            TokenKind::Sign(number) => EQUAL <= *number && *number <= GREATER_EQUAL,
            TokenKind::Keyword(number) => matches!(*number, IN | IS | NOT),
            _ => false,
        }
    }

    /// A comparison of one sign, which is taken where it is the next token.
    #[tactic(auto, using(crate::proofs::Comparisons::cmp_taken))]
    fn take_cmp_sign(&mut self) -> Option<(Pos, CmpOp)>
        ensures taken { IfSome result (λ found. TakenCmp self.old.rest.now found.0 found.1 self.new.rest.now) }
        ensures absent { IfNone result (cmp_sign_next self.old.rest.now ≡ None) }
        ensures kept { IfNone result (self.new.rest.now ≡ self.old.rest.now) }
    {
        let (token, rest) = self.rest.split_first()?;
        let TokenKind::Sign(number) = &token.kind else {
            return None;
        };
        let op = cmp_sign(*number)?;
        self.rest = rest;
        Some((token.at, op))
    }

    /// The comparison that the next tokens are, which is taken.
    #[tactic(auto, using(crate::proofs::Comparisons::cmp_rules))]
    fn comparison(&mut self) -> Result<(Pos, CmpOp), Stop>
        ensures taken { IfOk result (λ found. TakenCmp self.old.rest.now found.0 found.1 self.new.rest.now) }
        ensures refused { IfErr result (Refused one_cmp_sign 0 self.old.rest.now) }
    {
        if let Some(found) = self.take_cmp_sign() {
            return Ok(found);
        }
        if let Some(at) = self.take_keyword(IN) {
            return Ok((at, CmpOp::In));
        }
        if let Some(at) = self.take_keyword(NOT) {
            self.keyword(IN)?;
            return Ok((at, CmpOp::NotIn));
        }
        let Some(at) = self.take_keyword(IS) else {
            return Err(self.refuse());
        };
        match self.take_keyword(NOT) {
            Some(_) => Ok((at, CmpOp::IsNot)),
            None => Ok((at, CmpOp::Is)),
        }
    }

    /// `expr = or ["if" or "else" expr]`
    #[cycle(expression)]
    pub fn expr(&mut self, alloc: Global, room: u32) -> Result<Part, Stop>
        requires { room ≤ 100 }
        ensures found { IfOk result (λ part. Found expr_part expr_tree 7 room self.old.rest.now part self.new.rest.now) }
        ensures refused { IfErr result (Refused expr_part room self.old.rest.now) }
    {
        let chosen = self.or(alloc, room)?;
        let Some(at) = self.take_keyword(IF) else {
            return Ok(chosen);
        };
        goes_above(&chosen, room)?;
        let test = self.or(alloc, room - 1)?;
        self.keyword(ELSE)?;
        let other = self.expr(alloc, room - 1)?;
        let part = choose(alloc, at, test, chosen, other)?;
        Ok(part)
    }

    /// `or = and { "or" and }`
    #[cycle(expression)]
    fn or(&mut self, alloc: Global, room: u32) -> Result<Part, Stop>
        requires { room ≤ 100 }
        ensures found { IfOk result (λ part. Found or_part or_tree 6 room self.old.rest.now part self.new.rest.now) }
        ensures refused { IfErr result (Refused or_part room self.old.rest.now) }
    {
        let mut left = self.and(alloc, room)?;
        while let Some(at) = self.take_keyword(OR) {
            goes_above(&left, room)?;
            let right = self.and(alloc, room - 1)?;
            left = logic(alloc, at, LogicOp::Or, left, right)?;
        }
        Ok(left)
    }

    /// `and = not { "and" not }`
    #[cycle(expression)]
    fn and(&mut self, alloc: Global, room: u32) -> Result<Part, Stop>
        requires { room ≤ 100 }
        ensures found { IfOk result (λ part. Found and_part and_tree 5 room self.old.rest.now part self.new.rest.now) }
        ensures refused { IfErr result (Refused and_part room self.old.rest.now) }
    {
        let mut left = self.not(alloc, room)?;
        while let Some(at) = self.take_keyword(AND) {
            goes_above(&left, room)?;
            let right = self.not(alloc, room - 1)?;
            left = logic(alloc, at, LogicOp::And, left, right)?;
        }
        Ok(left)
    }

    /// `not = "not" not | cmp`
    #[cycle(expression)]
    fn not(&mut self, alloc: Global, room: u32) -> Result<Part, Stop>
        requires { room ≤ 100 }
        ensures found { IfOk result (λ part. Found not_part not_tree 4 room self.old.rest.now part self.new.rest.now) }
        ensures refused { IfErr result (Refused not_part room self.old.rest.now) }
    {
        let Some(at) = self.take_keyword(NOT) else {
            return self.cmp(alloc, room);
        };
        goes_here(at, room)?;
        let operand = self.not(alloc, room - 1)?;
        let part = unary(alloc, at, UnOp::Not, operand)?;
        Ok(part)
    }

    /// `cmp = sum [cmpop sum]`
    #[cycle(expression)]
    fn cmp(&mut self, alloc: Global, room: u32) -> Result<Part, Stop>
        requires { room ≤ 100 }
        ensures found { IfOk result (λ part. Found cmp_part cmp_tree 4 room self.old.rest.now part self.new.rest.now) }
        ensures refused { IfErr result (Refused cmp_part room self.old.rest.now) }
    {
        let left = self.sum(alloc, room)?;
        if !self.at_comparison() {
            return Ok(left);
        }
        goes_above(&left, room)?;
        let (at, op) = self.comparison()?;
        let right = self.sum(alloc, room - 1)?;
        if self.at_comparison() {
            return Err(self.refuse());
        }
        let part = compare(alloc, at, op, left, right)?;
        Ok(part)
    }

    /// `sum = term { ("+" | "-") term }`
    #[cycle(expression)]
    pub fn sum(&mut self, alloc: Global, room: u32) -> Result<Part, Stop>
        requires { room ≤ 100 }
        ensures found { IfOk result (λ part. Found sum_part sum_tree 3 room self.old.rest.now part self.new.rest.now) }
        ensures refused { IfErr result (Refused sum_part room self.old.rest.now) }
    {
        let mut left = self.term(alloc, room)?;
        while let Some((at, op)) = self.take_add_sign() {
            goes_above(&left, room)?;
            let right = self.term(alloc, room - 1)?;
            left = binary(alloc, at, op, left, right)?;
        }
        Ok(left)
    }

    /// `term = unary { ("*" | "//" | "%") unary }`
    #[cycle(expression)]
    fn term(&mut self, alloc: Global, room: u32) -> Result<Part, Stop>
        requires { room ≤ 100 }
        ensures found { IfOk result (λ part. Found term_part term_tree 2 room self.old.rest.now part self.new.rest.now) }
        ensures refused { IfErr result (Refused term_part room self.old.rest.now) }
    {
        let mut left = self.unary(alloc, room)?;
        while let Some((at, op)) = self.take_mul_sign() {
            goes_above(&left, room)?;
            let right = self.unary(alloc, room - 1)?;
            left = binary(alloc, at, op, left, right)?;
        }
        Ok(left)
    }

    /// `unary = ("-" | "+") unary | prim`
    #[cycle(expression)]
    fn unary(&mut self, alloc: Global, room: u32) -> Result<Part, Stop>
        requires { room ≤ 100 }
        ensures found { IfOk result (λ part. Found unary_part unary_tree 1 room self.old.rest.now part self.new.rest.now) }
        ensures refused { IfErr result (Refused unary_part room self.old.rest.now) }
    {
        let Some((at, op)) = self.take_add_sign() else {
            return self.prim(alloc, room);
        };
        goes_here(at, room)?;
        let operand = self.unary(alloc, room - 1)?;
        let part = unary(alloc, at, sign_of(op), operand)?;
        Ok(part)
    }
}
