// Laws of the grammar of expressions: public functions without a body, whose contracts are the laws.
ghost use Rattle.std.specs.Prelude.{◌≡◌, ◌≤◌};
ghost use Rattle.prov_base.specs.declared.place.Pos.{Pos};
ghost use Rattle.py_expressions.specs.Concrete.{Exprs};
ghost use Rattle.py_expressions.specs.Tokens.{exprs_tokens};
ghost use Rattle.py_expressions.specs.Depth.{exprs_depth};
ghost use Rattle.py_expressions.specs.Lies.{exprs_lies, exprs_deepest, IsReached, IsFirst};

/// The law that tokens spell at most one expression: the grammar of expressions is not ambiguous.
pub fn one_expression()
    ensures { (a b : Exprs) → exprs_tokens a ≡ exprs_tokens b → a ≡ b }
{}

/// The law of the depth of expressions: it is the greatest depth at which one lies that begins at some place, where the first of
/// those begins nothing that begins ahead of it lies as deep.
pub fn depth_is_reached()
    ensures within { (e : Exprs) (at : Pos) → exprs_lies e at ≤ exprs_depth e }
    ensures reached { (e : Exprs) → IsReached (exprs_lies e) (exprs_depth e) }
    ensures first { (e : Exprs) → IsFirst (exprs_tokens e) (exprs_lies e) (exprs_depth e) (exprs_deepest e) }
{}
