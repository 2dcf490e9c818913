// Primaries, and what stands in brackets: a function for each production. `room` is how deep an expression may go here.
ghost use Rattle.std.specs.Prelude.{◌≤◌, ◌<◌, ◌≡◌, ◌==◌, suc, max, true, false, IfOk, IfErr};
ghost use Rattle.py_tree.specs.Erasure.{expr_of};
ghost use Rattle.py_tree.specs.Tree.{call_expr, list_expr, dict_expr};
ghost use Rattle.py_expressions.specs.Parsed.{Found, FoundRow, Refused, prim_part, atom_part, exprs_part, is_sign_next, IsMemory};
ghost use Rattle.py_expressions.specs.ParsedRows.{group_deepest, FoundList, FoundRest, FoundItems, FoundPairs, FoundBound, FoundIndex, FoundClosed, FoundTrailer, closed, items_part, group_part, rest_part, index_part, bound_part, pairs_part, trailer_part, group_depth, group_tree, index_form, index_tree, leaf_atom, IsLeaf};
ghost use Rattle.py_expressions.specs.Reader.{next_level, begins_expr, start_class};
ghost use Rattle.py_lines.specs.declared.parts.TokenKind.TheVariants.{Sign};
ghost use Rattle.py_expressions.specs.Trees.{prim_tree, atom_tree, items_tree, pairs_tree};
ghost use Rattle.py_expressions.specs.Depth.{items_depth, index_depth, pairs_depth};
ghost use Rattle.py_expressions.specs.Lies.{deeper_of, items_deepest, index_deepest, pairs_deepest};

use crate::cursor::Cursor;
use crate::fault::Stop;
use crate::operators::{goes_above, goes_here};
use crate::part::{Part, literal};
use crate::rows::{
    Index, PairRow, Row, attribute, call, dict, empty_tuple, grouped, list, subscript, tuple,
    variable,
};
use crate::words::{
    CLOSE_CURLY, CLOSE_ROUND, CLOSE_SQUARE, COLON, COMMA, DOT, FALSE, MINUS, NONE, NOT, OPEN_CURLY,
    OPEN_ROUND, OPEN_SQUARE, PLUS, TRUE,
};
use prov_base::{Name, Pos};
use py_lines::{Token, TokenKind};
use py_tree::Atom;
use std::alloc::Global;

impl<'a> Cursor<'a> {
    /// The next token is this sign.
    pub(crate) fn at_sign(&self, number: u8) -> bool
        ensures { result ≡ is_sign_next number self.now.rest.now }
    {
        let Some(token) = self.rest.first() else {
            return false;
        };
        matches!(&token.kind, TokenKind::Sign(found) if *found == number)
    }

    /// The next token goes on with a primary: `(`, `[` or `.`.
    fn at_trailer(&self) -> bool
        ensures { result ≡ (next_level self.now.rest.now == 1) }
    {
        let Some(token) = self.rest.first() else {
            return false;
        };
        matches!(&token.kind, TokenKind::Sign(OPEN_ROUND | OPEN_SQUARE | DOT))
    }

    /// The next token begins an expression.
    pub fn at_expr(&self) -> bool
        ensures { result ≡ begins_expr self.now.rest.now }
    {
        let Some(token) = self.rest.first() else {
            return false;
        };
        match &token.kind {
            TokenKind::Word(_) | TokenKind::Number(_) | TokenKind::Text(_) => true,
            TokenKind::Keyword(number) => matches!(*number, FALSE | NONE | TRUE | NOT),
            TokenKind::Sign(number) => matches!(
                *number,
                OPEN_ROUND | OPEN_SQUARE | OPEN_CURLY | PLUS | MINUS
            ),
        }
    }

    /// `prim = atom { "(" [expr { "," expr } [","]] ")" | "[" index "]" | "." NAME }`
    #[cycle(expression)]
    pub(crate) fn prim(&mut self, alloc: Global, room: u32) -> Result<Part, Stop>
        requires { room ≤ 100 }
        ensures found { IfOk result (λ part. Found prim_part prim_tree 1 room self.old.rest.now part self.new.rest.now) }
        ensures refused { IfErr result (Refused prim_part room self.old.rest.now) }
    {
        let mut left = self.atom(alloc, room)?;
        while self.at_trailer() {
            goes_above(&left, room)?;
            left = self.trailer(alloc, room - 1, left)?;
        }
        Ok(left)
    }

    /// What goes on with a primary: `"(" [expr { "," expr } [","]] ")" | "[" index "]" | "." NAME`
    #[cycle(expression)]
    fn trailer(&mut self, alloc: Global, room: u32, left: Part) -> Result<Part, Stop>
        requires room_is_low { room ≤ 100 }
        requires left_fits { left.height ≤ room }
        ensures found { IfOk result (λ part. FoundTrailer room self.old.rest.now left part self.new.rest.now) }
        ensures refused { IfErr result (Refused trailer_part room self.old.rest.now) }
    {
        if let Some(at) = self.take_sign(OPEN_ROUND) {
            return self.arguments(alloc, room, at, left);
        }
        if let Some(at) = self.take_sign(OPEN_SQUARE) {
            return self.subscription(alloc, room, at, left);
        }
        let at = self.sign(DOT)?;
        let (_, name) = self.name(alloc)?;
        attribute(alloc, at, left, name)
    }

    /// What is called with the arguments behind the bracket that stands here: `[expr { "," expr } [","]] ")"`
    #[cycle(expression)]
    fn arguments(&mut self, alloc: Global, room: u32, at: Pos, callee: Part) -> Result<Part, Stop>
        requires room_is_low { room ≤ 100 }
        requires callee_fits { callee.height ≤ room }
        ensures found { IfOk result (λ part. FoundClosed (items_part 1) 1 (λ i. call_expr at (expr_of callee.expr.value) (items_tree i)) (λ i. suc (max callee.height (items_depth i))) (λ i. deeper_of callee.height callee.deepest (items_depth i) (items_deepest i)) (λ _. false) room self.old.rest.now part self.new.rest.now) }
        ensures refused { IfErr result (Refused (closed (items_part 1) 1) room self.old.rest.now) }
    {
        let arguments = self.items(alloc, room, at, CLOSE_ROUND)?;
        self.sign(CLOSE_ROUND)?;
        call(alloc, at, callee, arguments)
    }

    /// An object's part behind the bracket that stands here: `index "]"`
    #[cycle(expression)]
    fn subscription(
        &mut self,
        alloc: Global,
        room: u32,
        at: Pos,
        object: Part,
    ) -> Result<Part, Stop>
        requires room_is_low { room ≤ 100 }
        requires object_fits { object.height ≤ room }
        ensures found { IfOk result (λ part. FoundClosed index_part 3 (index_tree at (expr_of object.expr.value)) (λ i. suc (max object.height (index_depth i))) (λ i. deeper_of object.height object.deepest (index_depth i) (index_deepest i)) index_form room self.old.rest.now part self.new.rest.now) }
        ensures refused { IfErr result (Refused (closed index_part 3) room self.old.rest.now) }
    {
        let index = self.index(alloc, room)?;
        self.sign(CLOSE_SQUARE)?;
        subscript(alloc, at, object, index)
    }

    /// `atom = NAME | NUMBER | TEXT | "None" | "True" | "False" | "(" [exprs] ")" | "[" [expr { "," expr } [","]] "]" | "{" .. "}"`
    #[cycle(expression)]
    fn atom(&mut self, alloc: Global, room: u32) -> Result<Part, Stop>
        requires { room ≤ 100 }
        ensures found { IfOk result (λ part. Found atom_part atom_tree 0 room self.old.rest.now part self.new.rest.now) }
        ensures refused { IfErr result (Refused atom_part room self.old.rest.now) }
    {
        if let Some(at) = self.take_sign(OPEN_ROUND) {
            goes_here(at, room)?;
            return self.group(alloc, room - 1, at);
        }
        if let Some(at) = self.take_sign(OPEN_SQUARE) {
            goes_here(at, room)?;
            return self.list(alloc, room - 1, at);
        }
        if let Some(at) = self.take_sign(OPEN_CURLY) {
            goes_here(at, room)?;
            return self.dict(alloc, room - 1, at);
        }
        self.leaf(alloc, room)
    }

    /// `NAME | NUMBER | TEXT | "None" | "True" | "False"`
    fn leaf(&mut self, alloc: Global, room: u32) -> Result<Part, Stop>
        requires not_round { is_sign_next 0 self.old.rest.now ≡ false }
        requires not_square { is_sign_next 2 self.old.rest.now ≡ false }
        requires not_curly { is_sign_next 4 self.old.rest.now ≡ false }
        ensures found { IfOk result (λ part. Found atom_part atom_tree 0 room self.old.rest.now part self.new.rest.now) }
        ensures refused { IfErr result (Refused atom_part room self.old.rest.now) }
    {
        let Some((token, rest)) = self.rest.split_first() else {
            return Err(self.refuse());
        };
        let Some(part) = leaf_of(alloc, token)? else {
            return Err(self.refuse());
        };
        goes_here(token.at, room)?;
        self.rest = rest;
        Ok(part)
    }

    /// What round brackets group, behind the one that stands here: `[exprs] ")"`. A comma makes a tuple of it.
    #[cycle(expression)]
    fn group(&mut self, alloc: Global, room: u32, at: Pos) -> Result<Part, Stop>
        requires { room ≤ 100 }
        ensures found { IfOk result (λ part. FoundClosed group_part 1 (group_tree at) (λ i. suc (group_depth i)) (group_deepest at) (λ _. false) room self.old.rest.now part self.new.rest.now) }
        ensures refused { IfErr result (Refused (closed group_part 1) room self.old.rest.now) }
    {
        if let Some(_) = self.take_sign(CLOSE_ROUND) {
            let part = empty_tuple(alloc, at)?;
            return Ok(part);
        }
        let inner = self.exprs(alloc, room)?;
        self.sign(CLOSE_ROUND)?;
        Ok(grouped(inner))
    }

    /// A list's items behind the bracket that stands here: `[expr { "," expr } [","]] "]"`
    #[cycle(expression)]
    fn list(&mut self, alloc: Global, room: u32, at: Pos) -> Result<Part, Stop>
        requires { room ≤ 100 }
        ensures found { IfOk result (λ part. FoundClosed (items_part 3) 3 (λ i. list_expr at (items_tree i)) (λ i. suc (items_depth i)) (λ i. deeper_of 0 at (items_depth i) (items_deepest i)) (λ _. false) room self.old.rest.now part self.new.rest.now) }
        ensures refused { IfErr result (Refused (closed (items_part 3) 3) room self.old.rest.now) }
    {
        let items = self.items(alloc, room, at, CLOSE_SQUARE)?;
        self.sign(CLOSE_SQUARE)?;
        let part = list(alloc, at, items)?;
        Ok(part)
    }

    /// A dictionary's keys and values behind the bracket that stands here: `pairs "}"`
    #[cycle(expression)]
    fn dict(&mut self, alloc: Global, room: u32, at: Pos) -> Result<Part, Stop>
        requires { room ≤ 100 }
        ensures found { IfOk result (λ part. FoundClosed pairs_part 5 (λ p. dict_expr at (pairs_tree p)) (λ p. suc (pairs_depth p)) (λ p. deeper_of 0 at (pairs_depth p) (pairs_deepest p)) (λ _. false) room self.old.rest.now part self.new.rest.now) }
        ensures refused { IfErr result (Refused (closed pairs_part 5) room self.old.rest.now) }
    {
        let pairs = self.pairs(alloc, room, at)?;
        self.sign(CLOSE_CURLY)?;
        let part = dict(alloc, at, pairs)?;
        Ok(part)
    }

    /// `exprs = expr { "," expr } [","]`
    #[cycle(expression)]
    pub fn exprs(&mut self, alloc: Global, room: u32) -> Result<Part, Stop>
        requires { room ≤ 100 }
        ensures found { IfOk result (λ part. FoundRow room self.old.rest.now part self.new.rest.now) }
        ensures refused { IfErr result (Refused exprs_part room self.old.rest.now) }
    {
        let (part, _) = self.row(alloc, room)?;
        Ok(part)
    }

    /// `exprs = expr { "," expr } [","]`, and whether a comma stands there.
    #[cycle(expression)]
    fn row(&mut self, alloc: Global, room: u32) -> Result<(Part, bool), Stop>
        requires { room ≤ 100 }
        ensures found { IfOk result (λ found. FoundList room self.old.rest.now found.0 found.1 self.new.rest.now) }
        ensures refused { IfErr result (Refused exprs_part room self.old.rest.now) }
    {
        let first = self.expr(alloc, room)?;
        let Some(at) = self.take_sign(COMMA) else {
            return Ok((first, false));
        };
        goes_above(&first, room)?;
        let mut row = Row::new(alloc, at);
        row.push(first)?;
        let row = self.more_items(alloc, room - 1, row)?;
        let part = tuple(alloc, at, row)?;
        Ok((part, true))
    }

    /// A row with what stands behind a comma: `[expr { "," expr } [","]]`
    #[cycle(expression)]
    fn more_items(&mut self, alloc: Global, room: u32, mut row: Row) -> Result<Row, Stop>
        requires room_is_low { room ≤ 100 }
        requires row_fits { row.height ≤ room }
        ensures found { IfOk result (λ more. FoundRest room self.old.rest.now row more self.new.rest.now) }
        ensures refused { IfErr result (Refused rest_part room self.old.rest.now) }
    {
        while self.at_expr() {
            let next = self.expr(alloc, room)?;
            row.push(next)?;
            let Some(_) = self.take_sign(COMMA) else {
                return Ok(row);
            };
        }
        Ok(row)
    }

    /// `[expr { "," expr } [","]]`, up to this closing sign, behind the bracket that stands here.
    #[cycle(expression)]
    fn items(&mut self, alloc: Global, room: u32, at: Pos, closing: u8) -> Result<Row, Stop>
        requires room_is_low { room ≤ 100 }
        requires closes { start_class (Sign closing) ≡ 0 }
        ensures found { IfOk result (λ row. FoundItems closing room at self.old.rest.now row self.new.rest.now) }
        ensures refused { IfErr result (Refused (items_part closing) room self.old.rest.now) }
    {
        let mut row = Row::new(alloc, at);
        if self.at_sign(closing) {
            return Ok(row);
        }
        let first = self.expr(alloc, room)?;
        row.push(first)?;
        match self.take_sign(COMMA) {
            Some(_) => self.more_items(alloc, room, row),
            None => Ok(row),
        }
    }

    /// `index = exprs | [expr] ":" [expr]`
    #[cycle(expression)]
    fn index(&mut self, alloc: Global, room: u32) -> Result<Index, Stop>
        requires { room ≤ 100 }
        ensures found { IfOk result (λ index. FoundIndex room self.old.rest.now index self.new.rest.now) }
        ensures refused { IfErr result (Refused index_part room self.old.rest.now) }
    {
        if let Some(_) = self.take_sign(COLON) {
            let high = self.bound(alloc, room)?;
            return Ok(Index::Slice(None, high));
        }
        let (part, is_tuple) = self.row(alloc, room)?;
        // A tuple is no bound: a `:` behind it is refused as what is no `]`.
        if is_tuple {
            return Ok(Index::One(part));
        }
        let Some(_) = self.take_sign(COLON) else {
            return Ok(Index::One(part));
        };
        let high = self.bound(alloc, room)?;
        Ok(Index::Slice(Some(part), high))
    }

    /// A bound of a slice, which `]` ends: `[expr]`
    #[cycle(expression)]
    fn bound(&mut self, alloc: Global, room: u32) -> Result<Option<Part>, Stop>
        requires { room ≤ 100 }
        ensures found { IfOk result (λ limit. FoundBound room self.old.rest.now limit self.new.rest.now) }
        ensures refused { IfErr result (Refused bound_part room self.old.rest.now) }
    {
        if self.at_sign(CLOSE_SQUARE) {
            return Ok(None);
        }
        let part = self.expr(alloc, room)?;
        Ok(Some(part))
    }

    /// `[expr ":" expr { "," expr ":" expr } [","]]`, up to `}`, behind the bracket that stands here.
    #[cycle(expression)]
    fn pairs(&mut self, alloc: Global, room: u32, at: Pos) -> Result<PairRow, Stop>
        requires { room ≤ 100 }
        ensures found { IfOk result (λ row. FoundPairs room at self.old.rest.now row self.new.rest.now) }
        ensures refused { IfErr result (Refused pairs_part room self.old.rest.now) }
    {
        let mut row = PairRow::new(alloc, at);
        while !self.at_sign(CLOSE_CURLY) {
            let key = self.expr(alloc, room)?;
            self.sign(COLON)?;
            let value = self.expr(alloc, room)?;
            row.push(key, value)?;
            let Some(_) = self.take_sign(COMMA) else {
                return Ok(row);
            };
        }
        Ok(row)
    }
}

/// The atom that a token is alone, if it is one.
fn leaf_of(alloc: Global, token: &Token) -> Result<Option<Part>, Stop>
    ensures found { IfOk result (IsLeaf token.now.at (leaf_atom token.now)) }
    ensures memory { IfErr result IsMemory }
{
    let at = token.at;
    Ok(match &token.kind {
        TokenKind::Word(name) => {
            let name = Name::of(String::from_str(alloc, name.as_str())?);
            Some(variable(alloc, at, name)?)
        }
        TokenKind::Text(bytes) => {
            let bytes = Name::of(String::from_str(alloc, bytes.as_str())?);
            Some(literal(alloc, at, Atom::Text(bytes))?)
        }
        TokenKind::Number(value) if 0 <= *value => Some(literal(alloc, at, Atom::Int(*value))?),
        TokenKind::Keyword(NONE) => Some(literal(alloc, at, Atom::None)?),
        TokenKind::Keyword(TRUE) => Some(literal(alloc, at, Atom::Bool(true))?),
        TokenKind::Keyword(FALSE) => Some(literal(alloc, at, Atom::Bool(false))?),
        _ => None,
    })
}
