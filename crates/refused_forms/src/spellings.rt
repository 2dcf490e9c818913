// What a spelling of tokens tells.
ghost use Rattle.std.specs.Prelude.{◌≡◌};
ghost use Rattle.py_expressions.specs.Spelled.{first_place};
ghost use Rattle.refused_forms.specs.RefusedForms as spec;

use prov_base::Pos;
use py_expressions::Spelled;
use py_lines::Token;

/// The place of the first of these tokens, if there is one.
pub(crate) fn place_of_first(tokens: &[Token]) -> Option<Pos>
    ensures { result ≡ first_place tokens.now }
{
    match tokens.split_first() {
        None => None,
        Some((token, _)) => Some(token.at),
    }
}

/// The place that is named where what is spelled is no target that may stand there.
pub(crate) fn named_place(spelled: Spelled) -> Option<Pos>
    ensures { result ≡ spec.named_place spelled }
{
    match spelled {
        Spelled::Nothing => None,
        Spelled::Target => None,
        Spelled::Field(place) => Some(place),
        Spelled::Wrong(place) => Some(place),
    }
}

/// The place of the wrong part of expressions in a row.
pub(crate) fn wrong_part(spelled: Spelled) -> Option<Pos>
    ensures { result ≡ spec.wrong_part spelled }
{
    match spelled {
        Spelled::Nothing => None,
        Spelled::Target => None,
        Spelled::Field(_) => None,
        Spelled::Wrong(place) => Some(place),
    }
}

/// Whether anything is spelled.
pub(crate) fn spells_some(spelled: Spelled) -> bool
    ensures { result ≡ spec.spells_some spelled }
{
    match spelled {
        Spelled::Nothing => false,
        _ => true,
    }
}

/// Whether targets are spelled.
pub(crate) fn is_right(spelled: Spelled) -> bool
    ensures { result ≡ spec.is_right spelled }
{
    match spelled {
        Spelled::Target => true,
        _ => false,
    }
}

/// The place of what is no single target, by what it spells as one expression and as a row.
pub(crate) fn single_wrong(single: Spelled, row: Spelled, tokens: &[Token]) -> Option<Pos>
    ensures { result ≡ spec.single_wrong single row tokens.now }
{
    match single {
        Spelled::Nothing => {
            if spells_some(row) {
                place_of_first(tokens)
            } else {
                None
            }
        }
        Spelled::Target => None,
        Spelled::Field(_) => None,
        Spelled::Wrong(place) => Some(place),
    }
}
