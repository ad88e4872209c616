//! What the definition of the answer says.
ghost use Rattle.std.specs.Prelude.{◌≡◌, ℕ, false, None, List, All};
ghost use Rattle.toml.specs.Data.{Data};
ghost use Rattle.plan_table.specs.declared.refusals.Part.{Part};
ghost use Rattle.plan_table.specs.First.{IsFirstOf};
ghost use Rattle.plan_table.specs.Search.{places};
ghost use Rattle.plan_reader.specs.declared.rows.Row.{Row};
ghost use Rattle.plan_reader.specs.First.{TextHolds, refusal_in};
ghost use Rattle.plan_reader.specs.Names.{names_in};
ghost use Rattle.plan_reader.specs.Rows.{holds};
ghost use Rattle.plan_reader.specs.Search.{row_refusal};
ghost use Rattle.plan_reader.specs.Reading.{Answer, Reads};

use ready_work::first_cycle_is_unique;

/// There is one answer to a text at most.
pub fn a_text_has_one_answer()
    ensures { (bytes : List ℕ) (a b : Answer) → Reads bytes a → Reads bytes b → a ≡ b }
{
    first_cycle_is_unique();
}

/// The refusal that a text is answered with holds, and none before it does: no refusal that stands earlier in
/// `PlanRefusal` holds anywhere, and this one at no earlier place. Of a text that is a plan no refusal holds.
pub fn the_answer_is_the_first_refusal()
    ensures { (bytes : List ℕ) (answer : Answer) → Reads bytes answer → IsFirstOf (TextHolds bytes) (refusal_in answer) }
{}

/// The test of a row that refuses nothing holds at no place.
pub fn a_row_that_refuses_nothing_holds_nowhere()
    ensures { (d : Data) (r : Row) → row_refusal d r ≡ None → (p : Part) → All (λ x. holds (names_in d) r p x ≡ false) (places d p) }
{}
