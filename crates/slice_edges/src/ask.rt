// Which statement asks for which, and why, each once.
ghost use Rattle.std.specs.Prelude.{◌≡◌, ◌==◌, ◌&&◌, ◌||◌, ℕ, OnOk};
ghost use Rattle.slice_law.specs.Closed.{has};
ghost use Rattle.slice_law.specs.Edges.{Reason, by_jump, from_option};
ghost use Rattle.slice_edges.specs.Asks.{among_by, is_by, is_jump, reason_of, same_reason};

use indexmap::IndexSet;
use prov_base::Memory;
use py_model::How;

/// Why one statement asks for another.
#[derive(Clone, Copy, Debug, PartialEq, Eq, Hash)]
pub enum Why {
    /// It reads what the other wrote.
    Data,
    /// The other has it in its suite, or called the activation in which it began.
    Control,
    /// The other ended by a jump or an exception.
    Jump,
    /// It reads a local name that nothing set, and the other is the first that binds the name.
    Name,
}

/// One statement asks for another, both by number.
#[derive(Clone, Copy, Debug, PartialEq, Eq, Hash)]
pub struct Ask {
    /// Why it asks.
    pub why: Why,
    /// The statement that asks.
    pub asker: u32,
    /// The statement that it asks for.
    pub asked: u32,
}

/// One statement asks for another.
pub(crate) fn put_ask(
    asks: &mut IndexSet<Ask>,
    why: Why,
    asker: u32,
    asked: u32,
) -> Result<(), Memory>
    ensures { OnOk result ((reason : Reason) (s r : ℕ) → among_by asks.new.keys reason s r ≡ ((is_by (reason_of why) asker reason s && (asked == r)) || among_by asks.old.keys reason s r)) }
{
    asks.insert(Ask { why, asker, asked })?;
    Ok(())
}

/// One statement asks for each of these.
pub(crate) fn ask_each(
    asks: &mut IndexSet<Ask>,
    why: Why,
    asker: u32,
    stmts: &[u32],
) -> Result<(), Memory>
    ensures { OnOk result ((reason : Reason) (s r : ℕ) → among_by asks.new.keys reason s r ≡ ((is_by (reason_of why) asker reason s && has r stmts.now) || among_by asks.old.keys reason s r)) }
{
    for stmt in stmts {
        put_ask(asks, why, asker, *stmt)?;
    }
    Ok(())
}

/// One statement asks for another, if there is one.
pub(crate) fn ask_for(
    asks: &mut IndexSet<Ask>,
    why: Why,
    asker: u32,
    asked: Option<u32>,
) -> Result<(), Memory>
    ensures { OnOk result ((reason : Reason) (s r : ℕ) → among_by asks.new.keys reason s r ≡ ((is_by (reason_of why) asker reason s && has r (from_option asked)) || among_by asks.old.keys reason s r)) }
{
    match asked {
        Some(asked) => put_ask(asks, why, asker, asked),
        None => Ok(()),
    }
}

/// One statement, if there is one, asks for another that ended by a jump.
pub(crate) fn ask_jump(
    asks: &mut IndexSet<Ask>,
    how: How,
    asker: Option<u32>,
    asked: u32,
) -> Result<(), Memory>
    ensures { OnOk result ((reason : Reason) (s r : ℕ) → among_by asks.new.keys reason s r
        ≡ ((is_jump how && ((has s (from_option asker) && same_reason by_jump reason) && (asked == r))) || among_by asks.old.keys reason s r)) }
{
    match how {
        How::Normal => Ok(()),
        How::Break | How::Continue | How::Return | How::Raise => match asker {
            Some(asker) => put_ask(asks, Why::Jump, asker, asked),
            None => Ok(()),
        },
    }
}
