// A dependence between two statements, and how dependences are ordered.
ghost use Rattle.std.specs.Prelude.{◌≡◌};
ghost use Rattle.slice_edges.specs.Asks.{reason_of};
ghost use Rattle.dep_query.specs.Dependences.{dependence_cmp, kind_by};

use prov_base::Pos;
use slice_edges::Why;

/// Why one statement depends on another. Kinds are ordered as they stand here.
#[derive(Clone, Copy, Debug, PartialEq, Eq, PartialOrd, Ord)]
pub enum Kind {
    /// It reads what the other wrote.
    Data,
    /// The other has it in its suite, or called the activation in which it began.
    Control,
    /// The other ended by a jump or an exception.
    Jump,
    /// It reads a local name that nothing set, and the other is the first that binds the name.
    Name,
}

/// The kind for a reason.
pub(crate) fn kind_of(why: Why) -> Kind
    ensures { result ≡ kind_by (reason_of why) }
{
    match why {
        Why::Data => Kind::Data,
        Why::Control => Kind::Control,
        Why::Jump => Kind::Jump,
        Why::Name => Kind::Name,
    }
}

/// One statement of a script depends on another. Dependences are ordered by the first place, by the second, and by the kind.
#[derive(Clone, Copy, Debug, PartialEq, Eq, PartialOrd, Ord)]
pub struct Dependence {
    /// The place of the statement that depends.
    pub asker: Pos,
    /// The place of the statement on which it depends.
    pub asked: Pos,
    /// Why it does.
    pub kind: Kind,
}

/// The law that dependences are ordered as their lines are.
pub fn order_of_dependences()
    ensures { (a b : Dependence) → ⟦<Dependence as Ord>⟧.cmp a b ≡ dependence_cmp a b }
{}
