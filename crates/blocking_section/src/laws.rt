ghost use Rattle.std.specs.Prelude.{◌≡◌};
ghost use Rattle.worker_notes.specs.Agrees.{Agrees};
ghost use Rattle.coordination.specs.declared.rule.Sight.{Sight};
ghost use Rattle.blocking_section.specs.BlockedView.{BlockedView};
ghost use Rattle.blocking_section.specs.Sections.{IsGivenBackBy};

/// What a pass gave back stays its own while others make entries, as between two questions.
pub fn sections_outlast_others()
    ensures { (s t : Sight) (b : BlockedView) → t.worker ≡ s.worker → Agrees s.worker s.seen t.seen → IsGivenBackBy s b → IsGivenBackBy t b }
{}
