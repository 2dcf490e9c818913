// What a store is without numbers for texts and tuples: the map that the meaning of a script speaks of.
ghost use Rattle.std.specs.Prelude.{◌≡◌, ◌<◌, ◌≤◌, [], ◌∷◌, ◌++◌, None, ℕ, List, Option, Some, length, map};
ghost use Rattle.prov_base.specs.declared.place.Pos.{Pos};
ghost use Rattle.std.specs.Option.{option_map};
ghost use Rattle.py_value.specs.Changes.{after_access, after_accesses};
ghost use Rattle.py_value.specs.Contents.{Contents};
ghost use Rattle.py_value.specs.KeyOf.{normal};
ghost use Rattle.py_value.specs.Named.{IsNamedAccess, IsNamedKind, AreNamedAccesses};
ghost use Rattle.py_value.specs.Seen.{SeenAccess, IsNamedLocation, access_seen, entry_at, entry_is, key_deleted, key_inserted, location_seen, order_at, order_is, sets, updates};
ghost use Rattle.py_value.specs.Values.{ValuesView, AreInterned, Keeps as KeepsNumbers};
ghost use Rattle.py_value.specs.declared.access.Access.{Access as OneAccess};
ghost use Rattle.py_value.specs.declared.access.Kind.{Kind as OneKind};
ghost use Rattle.py_value.specs.declared.access.Location.{Location as OneLocation};
ghost use Rattle.object_store.specs.Below.{AccessesBelow, MapBelow};
ghost use Rattle.object_store.specs.Keyed.{SeenMap, ArePlain, HasFirst, IsKeyed, IsUnder, entries_set, firsts};
ghost use Rattle.object_store.specs.Named.{IsNamedStore, IsNamedHeld};
ghost use Rattle.object_store.specs.Opening.{IsOpening};
ghost use Rattle.object_store.specs.Performing.{AreApart, Does, DoesAll, IsOnly, SuitInTurn, keys_among, kinds_with};
ghost use Rattle.object_store.specs.Room.{AreNamedAccesses as HaveNamedTexts};
ghost use Rattle.object_store.specs.Seen.{held_seen, seen_at, store_seen};
ghost use Rattle.object_store.specs.Store.{StoreView, Held, Notes, Writes, held_at, kinds};

use py_value::{
    equality_is_same, same_contents_same_value, same_place_same_location, tests_are_equality,
};

/// The law that a store is one map over contents: at what a location is without numbers stands what stands at the
/// location, without numbers too; and a write there changes that place alone.
pub fn store_over_contents()
    ensures held { (values : ValuesView) (store : StoreView) (l : OneLocation) → AreInterned values → IsNamedLocation values l
        → (store_seen values store).at (location_seen values l) ≡ option_map (held_seen values) (held_at store l) }
    ensures written { (values : ValuesView) (old new : StoreView) (l : OneLocation) (w : Held) → AreInterned values → IsNamedLocation values l → Writes old new l w
        → (store_seen values new).at (location_seen values l) ≡ Some (held_seen values w) }
    ensures others { (values : ValuesView) (old new : StoreView) (l m : OneLocation) (w : Held) → AreInterned values → IsNamedLocation values m → Writes old new l w
        → (location_seen values m ≡ location_seen values l → ⊥) → (store_seen values new).at (location_seen values m) ≡ (store_seen values old).at (location_seen values m) }
{
    equality_is_same();
    same_place_same_location();
}

/// The law that what the accesses of a plan do to a store is what they do to its map over contents, in any table that has the texts of
/// the plan; and a store that is named stays so.
pub fn plan_over_contents()
    ensures contents { (values table : ValuesView) (plan : List OneAccess) (old new : StoreView) → AreInterned table → KeepsNumbers values.texts table.texts
        → AreNamedAccesses values plan → AreNamedAccesses table plan → IsNamedStore table old → DoesAll values plan old new
        → SuitInTurn (seen_at table old) (map (access_seen table) plan) → seen_at table new ≡ after_accesses (map (access_seen table) plan) (seen_at table old) }
    ensures named { (values table : ValuesView) (plan : List OneAccess) (old new : StoreView) → AreNamedAccesses table plan → IsNamedStore table old
        → DoesAll values plan old new → IsNamedStore table new }
{
    equality_is_same();
    tests_are_equality();
    same_contents_same_value();
    same_place_same_location();
}

/// The law that a store that is named stays so: as an access is done, as an object is made, as a name is noted, and as texts and tuples
/// come. It is so as a run begins.
pub fn named_stays()
    ensures done { (values table : ValuesView) (access : OneAccess) (old new : StoreView) → IsNamedAccess table access → IsNamedStore table old
        → Does values access old new → IsNamedStore table new }
    ensures written { (table : ValuesView) (old new : StoreView) (l : OneLocation) (w : Held) → IsNamedStore table old → IsNamedLocation table l → IsNamedHeld table w
        → Writes old new l w → IsNamedStore table new }
    ensures made { (table : ValuesView) (old new : StoreView) (made : Option OneKind) → IsNamedStore table old → IsNamedKind table made
        → ((l : OneLocation) → held_at new l ≡ held_at old l) → kinds new ≡ kinds_with made (kinds old) → new.names ≡ old.names → IsNamedStore table new }
    ensures noted { (table : ValuesView) (old new : StoreView) (place : Pos) (name : ℕ) → IsNamedStore table old → name < length table.texts
        → new ≡ record old { names = new.names } → Notes old new place name → IsNamedStore table new }
    ensures grown { (values table : ValuesView) (store : StoreView) → KeepsNumbers values.texts table.texts → KeepsNumbers values.tuples table.tuples
        → IsNamedStore values store → IsNamedStore table store }
    ensures plans { (values table : ValuesView) (plan : List OneAccess) → KeepsNumbers values.texts table.texts → KeepsNumbers values.tuples table.tuples
        → AreNamedAccesses values plan → AreNamedAccesses table plan }

    // What `reserve_for` asks of the texts of a plan.
    ensures texts { (values : ValuesView) (plan : List OneAccess) → AreNamedAccesses values plan → HaveNamedTexts values plan }
    ensures opening { (values : ValuesView) (words : List (List ℕ)) (store : StoreView) → IsOpening values words store → IsNamedStore values store }
{
    equality_is_same();
}

/// The law that the keys of orders keep their entries: as an entry is set under its first key, as a key with its entry is inserted, as an
/// entry and its key are taken out, as an order begins with its entries, and as anything else is written.
pub fn keys_have_entries()
    ensures only { (map : SeenMap) (o : ℕ) (key : Contents) → IsKeyed map → HasFirst key (map (entry_at o (normal key)))
        → IsOnly key (keys_among (map (order_at o))) }
    ensures entry_set { (map : SeenMap) (o : ℕ) (key value : Contents) → IsKeyed map → HasFirst key (map (entry_at o (normal key)))
        → IsKeyed (after_access (sets (entry_at o (normal key)) (entry_is (Some (key, value)))) map) }
    ensures inserted { (map : SeenMap) (o : ℕ) (key : Contents) → IsKeyed map → IsUnder key (map (entry_at o (normal key)))
        → IsKeyed (after_access (updates (order_at o) (key_inserted key)) map) }
    ensures deleted { (map : SeenMap) (o : ℕ) (key : Contents) → IsKeyed map
        → IsKeyed (after_accesses (sets (entry_at o (normal key)) (entry_is None) ∷ updates (order_at o) (key_deleted key) ∷ []) map) }
    ensures begun { (map : SeenMap) (o : ℕ) (pairs : List (Contents × Contents)) → IsKeyed map → AreApart (firsts pairs)
        → IsKeyed (after_accesses (sets (order_at o) (order_is (firsts pairs)) ∷ entries_set o pairs) map) }
    ensures plain { (map : SeenMap) (plan : List SeenAccess) → IsKeyed map → ArePlain plan → IsKeyed (after_accesses plan map) }
    ensures opening { (values table : ValuesView) (words : List (List ℕ)) (store : StoreView) → IsOpening values words store → IsKeyed (seen_at table store) }
{
    tests_are_equality();
}

/// The law that plans suit a map: one that writes no entry and no order, one that sets entries, and two that suit one after the other.
pub fn plans_suit()
    ensures plain { (map : SeenMap) (plan : List SeenAccess) → ArePlain plan → SuitInTurn map plan }
    ensures entries { (map : SeenMap) (o : ℕ) (pairs : List (Contents × Contents)) → SuitInTurn map (entries_set o pairs) }
    ensures joined { (map : SeenMap) (plan more : List SeenAccess) → SuitInTurn map plan → SuitInTurn (after_accesses plan map) more
        → SuitInTurn map (plan ++ more) }
    ensures after { (map : SeenMap) (plan more : List SeenAccess) → after_accesses (plan ++ more) map ≡ after_accesses more (after_accesses plan map) }
{}

/// The law that the objects which a map names stay below a number, as a plan is done that names no others, and as the number grows.
pub fn objects_stay_below()
    ensures done { (count : ℕ) (map : SeenMap) (plan : List SeenAccess) → MapBelow count map → AccessesBelow count plan
        → MapBelow count (after_accesses plan map) }
    ensures grown { (count more : ℕ) (map : SeenMap) → count ≤ more → MapBelow count map → MapBelow more map }
    ensures opening { (values table : ValuesView) (words : List (List ℕ)) (store : StoreView) → IsOpening values words store → MapBelow 1 (seen_at table store) }
{
    tests_are_equality();
}
