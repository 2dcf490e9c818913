// Laws of the table: public functions without a body, whose contracts are the laws.
ghost use Rattle.std.specs.Prelude.{◌≡◌, List};
ghost use Rattle.prov_base.specs.declared.place.Pos.{Pos};
ghost use Rattle.py_lines.specs.declared.parts.Token.{Token};
ghost use Rattle.refused_forms.specs.declared.standing.Standing.{Standing};
ghost use Rattle.refused_forms.specs.RefusedForms.{IsRefusedForm};

use py_expressions::one_expression;

/// The law that a refused form names one place.
pub fn one_place()
    ensures { (s : Standing) (front rest : List Token) (a b : Pos) → IsRefusedForm s front rest a → IsRefusedForm s front rest b → a ≡ b }
{
    one_expression();
}
