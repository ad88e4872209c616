//! What the definitions of the first place and the first refusal say.
ghost use Rattle.std.specs.Prelude.{◌≡◌, Bool, None};
ghost use Rattle.toml.specs.Data.{Data};
ghost use Rattle.plan_table.specs.declared.refusals.Part.{Part};
ghost use Rattle.plan_table.specs.First.{TableHolds, IsFirstOf, IsFirstPlace};
ghost use Rattle.plan_table.specs.Formed.{IsFormed};
ghost use Rattle.plan_table.specs.Search.{first_place, table_refusal};

/// The test holds at the place that `first_place` gives, and at none before it. Where it gives no place, the test holds
/// nowhere.
pub fn the_first_place_is_told()
    ensures { (test : Part → Data → Bool) (d : Data) → IsFirstPlace test d (first_place test d) }
{}

/// The refusal that a document's tables give holds, and none before it does: no earlier test holds anywhere, and that
/// test at no earlier place. Where there is no refusal, no test holds anywhere.
pub fn the_first_refusal_is_told()
    ensures { (d : Data) → IsFirstOf (TableHolds d) (table_refusal d) }
{}

/// Of a document whose tables give no refusal, the names of projects and tasks and the files have their forms, and
/// each action has an item.
pub fn what_is_not_refused_is_formed()
    ensures { (d : Data) → table_refusal d ≡ None → IsFormed d }
{}
