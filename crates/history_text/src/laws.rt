ghost use Rattle.std.specs.Prelude.{ℕ, ◌≡◌, ◌<◌, length};
ghost use Rattle.item_actions.specs.declared.outcomes.Outcome.{Outcome};
ghost use Rattle.resource_lock.specs.declared.marks.Mark.{Mark};
ghost use Rattle.plan_reader.specs.PlanView.{PlanView};
ghost use Rattle.plan_reader.specs.Units.{plan_units};
ghost use Rattle.history_text.specs.Results.{results_text, summary_text};

/// The results text and its summary are the same wherever the marks of the plan's tasks and the outcomes
/// of its units are.
pub fn results_go_by_number()
    ensures results { (p : PlanView) (marks marks' : ℕ → Mark) (outcomes outcomes' : ℕ → Outcome)
        → ((t : ℕ) → t < length p.tasks → marks t ≡ marks' t)
        → ((u : ℕ) → u < length (plan_units p) → outcomes u ≡ outcomes' u)
        → results_text p marks outcomes ≡ results_text p marks' outcomes' }
    ensures summary { (p : PlanView) (marks marks' : ℕ → Mark) (outcomes outcomes' : ℕ → Outcome)
        → ((t : ℕ) → t < length p.tasks → marks t ≡ marks' t)
        → ((u : ℕ) → u < length (plan_units p) → outcomes u ≡ outcomes' u)
        → summary_text p marks outcomes ≡ summary_text p marks' outcomes' }
{}
