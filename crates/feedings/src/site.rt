// Evaluations by place and number.
use prov_base::Pos;
use std::marker::Model;

/// An evaluation: its place, and how many there were at this place up to it and with it.
#[derive(Clone, Copy, Debug, PartialEq, Eq)]
pub struct Site {
    pub at: Pos,
    pub k: usize,
}

/// What is asked of an evaluation.
#[derive(Clone, Copy, Debug)]
pub enum Way {
    /// The evaluations that feed it.
    Sources,
    /// The evaluations that it feeds.
    Effects,
}

/// Evaluations, in the order of their moments.
#[derive(Drop)]
pub struct Sites {
    list: Vec<Site>,
}

impl Model for Sites {
    ghost use Rattle.std.specs.Prelude.{List};
    ghost use Rattle.feedings.specs.declared.site.Site.{Site};

    ghost Value = { List Site };

    ghost view = { λ s. s.list.items };
}

impl Sites {
    ghost use Rattle.std.specs.Prelude.{◌≡◌};

    /// The evaluations of a vector, which is not copied.
    pub(crate) fn of(v: Vec<Site>) -> Sites
        ensures { result ≡ v.items }
    {
        Sites { list: v }
    }

    /// The evaluations, in order.
    pub fn as_slice(&self) -> &[Site]
        ensures { result.now ≡ self.now }
    {
        self.list.as_slice()
    }
}
