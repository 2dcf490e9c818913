// What an operation says besides its accesses: what it prints, the name that it notes, the paths that it opens for writing.
ghost use Rattle.std.specs.Prelude.{◌≡◌, ◌≤◌, ◌<◌, ◌∷◌, ◌++◌, [], length, None, Some, Ok, Option, List, IfErr, OnOk, OnErr, ℕ};
ghost use Rattle.op_work.specs.Work.{Comes, Wrote, AreNamedSayings, is_any, as_is};
ghost use Rattle.op_work.specs.declared.stop.Stop.TheVariants.{Memory as NoMemory};
ghost use Rattle.prov_base.specs.declared.place.Pos.{Pos as OnePos};
ghost use Rattle.py_model.specs.Plan.{Plan, prints, notes, opens};
ghost use Rattle.py_value.specs.Seen.{bytes_of};
ghost use Rattle.py_value.specs.Values.{ValuesView};

use crate::{Stop, Work};
use prov_base::Pos;

impl Work {
    /// These bytes are printed.
    pub fn print(&mut self, bytes: &[u8]) -> Result<(), Stop>
        ensures { Comes is_any as_is (λ table (go : Unit {0} → Plan). prints bytes.now (go tt)) self.old self.new result }
    {
        self.note_print(bytes)
    }

    // What is printed goes behind what was printed before.
    fn note_print(&mut self, bytes: &[u8]) -> Result<(), Stop>
        ensures done { OnOk result (self.new ≡ record self.old { printed = self.old.printed ++ bytes.now }) }
        ensures memory { IfErr result (λ stop. stop ≡ NoMemory) }
        ensures same { OnErr result (self.new ≡ self.old) }
    {
        self.printed.extend_from_slice(bytes)?;
        Ok(())
    }

    /// The name of the function or class at a place is noted, by the number of its text.
    pub fn note(&mut self, place: Pos, name: u32)
        requires first { self.old.note ≡ None }
        requires named { name < length self.old.values.texts }
        ensures { Wrote (λ table. notes place (bytes_of table name)) self.old self.new (Ok tt) }
    {
        self.set_note(place, name)
    }

    // The name is the one that is noted.
    fn set_note(&mut self, place: Pos, name: u32)
        requires named { name < length self.old.values.texts }
        ensures { self.new ≡ record self.old { note = Some (place, name) } }
    {
        sayings_stay();
        self.note = Some((place, name));
    }

    /// The path with this text, by its number, was opened for writing.
    pub fn open(&mut self, path: u32) -> Result<(), Stop>
        requires { path < length self.old.values.texts }
        ensures { Wrote (λ table. opens (bytes_of table path)) self.old self.new result }
    {
        self.note_open(path)
    }

    // The path goes behind those that were opened before.
    fn note_open(&mut self, path: u32) -> Result<(), Stop>
        requires named { path < length self.old.values.texts }
        ensures done { OnOk result (self.new ≡ record self.old { opens = self.old.opens ++ path ∷ [] }) }
        ensures memory { IfErr result (λ stop. stop ≡ NoMemory) }
        ensures same { OnErr result (self.new ≡ self.old) }
    {
        sayings_stay();
        self.opens.push(path)?;
        Ok(())
    }

    /// The bytes that it prints.
    pub fn printed(&self) -> &[u8]
        ensures { result.now ≡ self.now.printed }
    {
        self.printed.as_slice()
    }

    /// The paths that it opened for writing, by the numbers of their texts.
    pub fn opened(&self) -> &[u32]
        ensures opened { result.now ≡ self.now.opens }
        ensures named { AreNamedSayings self.now.values self.now.note result.now }
    {
        self.opens.as_slice()
    }
}

/// The law that what is said stays named as texts come.
pub fn sayings_stay()
    ensures grown { (values table : ValuesView) (note : Option (OnePos × ℕ)) (opened : List ℕ) → length values.texts ≤ length table.texts
        → AreNamedSayings values note opened → AreNamedSayings table note opened }
    ensures opened { (values : ValuesView) (note : Option (OnePos × ℕ)) (opened : List ℕ) (path : ℕ) → path < length values.texts
        → AreNamedSayings values note opened → AreNamedSayings values note (opened ++ path ∷ []) }
    ensures noted { (values : ValuesView) (note : Option (OnePos × ℕ)) (opened : List ℕ) (place : OnePos) (name : ℕ) → name < length values.texts
        → AreNamedSayings values note opened → AreNamedSayings values (Some (place, name)) opened }
{}
