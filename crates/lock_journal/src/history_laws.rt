//! What every run comes to: laws over all lawful histories.
ghost use Rattle.item_actions.specs.declared.outcomes.Outcome.{Outcome};
ghost use Rattle.item_actions.specs.declared.outcomes.Outcome.TheVariants.{NotThere, Number, Skipped as NotRun};
ghost use Rattle.lock_transforms.specs.Allowed.{Allowed, Lawful};
ghost use Rattle.lock_journal.specs.Closings.{closing_of, closings, last_or, outcome_in, where_finished};
ghost use Rattle.lock_transforms.specs.Entry.{Entry, effect, replay, replay_from};
ghost use Rattle.lock_transforms.specs.Table.{has_passed, owned, skipped_waiting};
ghost use Rattle.resource_lock.specs.Change.{can_all, holding_after, make_all, NamesOnly};
ghost use Rattle.resource_lock.specs.Fits.{Fits};
ghost use Rattle.resource_lock.specs.Good.{Good};
ghost use Rattle.resource_lock.specs.GraphView.{GraphView, task_of};
ghost use Rattle.resource_lock.specs.Ranges.{IsActionOf, IsUnitOf, actions_of, is_item};
ghost use Rattle.resource_lock.specs.Shape.{BelongsTo};
ghost use Rattle.resource_lock.specs.StateView.{IsWorkerOf, StateView, holding_of, mark_of};
ghost use Rattle.resource_lock.specs.declared.changes.Change.{Change};
ghost use Rattle.resource_lock.specs.declared.graphs.Retention.TheVariants.{Release, ReleaseAndReacquire, Retain};
ghost use Rattle.resource_lock.specs.declared.ids.WorkerId.{WorkerId};
ghost use Rattle.resource_lock.specs.declared.marks.Mark.TheVariants.{Failed, Passed, Queued, Running, Skipped, Waiting};
ghost use Rattle.resource_lock.specs.declared.marks.MarkId.TheVariants.{Action as ActionOf, Task as TaskOf, Unit as UnitOf};
ghost use Rattle.resource_lock.specs.declared.marks.MarkId.{MarkId};
ghost use Rattle.lock_journal.specs.Answers.{IsHonestWorker, answers};
ghost use Rattle.lock_journal.specs.BookView.{BookView};
ghost use Rattle.lock_journal.specs.ByNumber.{outcome_by};
ghost use Rattle.lock_journal.specs.ClosedBy.{closed_at, closed_by, faults_by, faults_in};
ghost use Rattle.lock_journal.specs.Closing.{IsClosedOnce, IsDone};
ghost use Rattle.lock_journal.specs.Giving.{AreInTurn, GivesTo, IsCutFrom, joined};
ghost use Rattle.lock_journal.specs.InOrder.{outcomes_of_task, units_of_actions};
ghost use Rattle.lock_journal.specs.Marks.{HasEnded, IsEnded};
ghost use Rattle.lock_journal.specs.Outcomes.{AreRanks, mark_by, task_outcome, task_passes, unit_outcome};
ghost use Rattle.lock_journal.specs.Own.{NamesWorkers, NoneOf, SameFor, claimed};
ghost use Rattle.lock_journal.specs.OwnChanges.{after_all, claimed_after, locks_after};
ghost use Rattle.lock_journal.specs.PlainPlans.{NameLocksBelow, WasLawful, with_all};
ghost use Rattle.lock_journal.specs.SegmentView.{SegmentView};
ghost use Rattle.lock_journal.specs.Runs.{GivesClosedOutcomes, ComesTo, IsOrderly};
ghost use Rattle.lock_journal.specs.WorkedRows.{IsWorkedRun, first_run, locks_by_turns, no_tasks, one_task, run_that_fails, run_that_fetches};
ghost use Rattle.lock_journal.specs.WorkedRows.{run_that_reacquires, run_that_releases, start_too_early, two_tasks};
ghost use Rattle.lock_journal.specs.WorkedRows.{all_beside_another, all_by_turns, another_beside_all, first_run_of_all, one_task_of_all, two_projects};
ghost use Rattle.std.specs.List.{All, AllByRecursion, list_all, range_with_len};
ghost use Rattle.std.specs.Prelude.{List, [], drop, length, map, false, true, ◌+◌, ◌++◌, ◌<◌, ◌≤◌, ◌↔◌, ◌≡◌, ◌≢◌, ◌∷◌, ℕ};

/// Where a lawful history brought every task to its end, every action and unit has ended too, marks and outcomes are
/// those of the plan alone, and each task was started or skipped once and each item claimed and closed once.
pub fn every_run_comes_to_its_plan()
    ensures ended { (g : GraphView) (h : List Entry) → Fits g → Lawful g h → All IsEnded (replay g h).tasks → HasEnded (replay g h) }
    ensures plan { (g : GraphView) (h : List Entry) (v : ℕ → Outcome) (rank : ℕ → ℕ) (n : ℕ) → Fits g → AreRanks g rank
        → ((t : ℕ) → t < length g.tasks → rank t < n) → Lawful g h → All IsEnded (replay g h).tasks → GivesClosedOutcomes v h
        → ComesTo g h v n }
    ensures status { (g : GraphView) (h : List Entry) (v : ℕ → Outcome) (rank : ℕ → ℕ) (n : ℕ) → Fits g → AreRanks g rank
        → ((t : ℕ) → t < length g.tasks → rank t < n) → Lawful g h → All IsEnded (replay g h).tasks → GivesClosedOutcomes v h
        → list_all has_passed (replay g h).tasks ≡ list_all (λ t. has_passed (task_outcome g v n t))
        (range_with_len 0 (length g.tasks)) }
    ensures order { (g : GraphView) (h : List Entry) → Fits g → Lawful g h → All IsEnded (replay g h).tasks → IsOrderly g h }
{}

/// A unit that has passed or failed was closed by one entry, whose outcome gave the mark. Any other was never closed.
pub fn closing_entries_give_the_marks()
    ensures once { (g : GraphView) (h : List Entry) (u : ℕ) → Fits g → Lawful g h → IsDone (mark_of (replay g h) (UnitOf u)) → IsClosedOnce g h u }
    ensures never { (g : GraphView) (h : List Entry) (u : ℕ) → Fits g → Lawful g h → mark_of (replay g h) (UnitOf u) ≢ Passed
        → mark_of (replay g h) (UnitOf u) ≢ Failed → closings h u ≡ [] }
{}

/// What a worker has, owns, runs and closed is said by the list that its own last entry ends: entries of others change nothing of it.
pub fn own_entries_say_all()
    ensures state { (g : GraphView) (own later : List Entry) (w : WorkerId) → Lawful g (own ++ later) → NoneOf w later
        → SameFor w (replay g own) (replay g (own ++ later)) }
    ensures closings { (own later : List Entry) (w : WorkerId) → NoneOf w later → closed_by w (own ++ later) ≡ closed_by w own }
{}

/// While a worker runs a task, only its own entries move the task's actions that aren't running, and its units that wait.
pub fn running_tasks_are_left_alone()
    ensures actions { (g : GraphView) (own later : List Entry) (w : WorkerId) (t a : ℕ) → Fits g → Lawful g (own ++ later)
        → NoneOf w later → mark_of (replay g own) (TaskOf t) ≡ Running w → IsActionOf g t a
        → ((v : WorkerId) → mark_of (replay g own) (ActionOf a) ≢ Running v)
        → mark_of (replay g (own ++ later)) (ActionOf a) ≡ mark_of (replay g own) (ActionOf a) }
    ensures units { (g : GraphView) (own later : List Entry) (w : WorkerId) (t a u : ℕ) → Fits g → Lawful g (own ++ later)
        → NoneOf w later → mark_of (replay g own) (TaskOf t) ≡ Running w → IsActionOf g t a → IsUnitOf g a u
        → mark_of (replay g own) (UnitOf u) ≡ Waiting → mark_of (replay g (own ++ later)) (UnitOf u) ≡ Waiting }
{}

/// A lawful history leads to a good state of its graph, in which whoever owns a lock or runs a mark is a worker of the graph.
pub fn lawful_histories_lead_to_good_states()
    ensures good { (g : GraphView) (h : List Entry) → Lawful g h → Good (replay g h) }
    ensures belongs { (g : GraphView) (h : List Entry) → Lawful g h → BelongsTo g (replay g h) }
    ensures workers { (g : GraphView) (h : List Entry) → Lawful g h → NamesWorkers g.workers (replay g h) }
{}

/// A unit that is queued is an item of the graph: fetches are never queued.
pub fn only_items_are_queued()
    ensures item { (g : GraphView) (h : List Entry) (u : ℕ) → Fits g → Lawful g h → mark_of (replay g h) (UnitOf u) ≡ Queued → is_item g u ≡ true }
    ensures within { (g : GraphView) (h : List Entry) (u : ℕ) → Fits g → Lawful g h → mark_of (replay g h) (UnitOf u) ≡ Queued → u < g.units }
{}

/// What a worker's own entry leaves of what it has, owns and runs is said by the entry's changes alone.
pub fn own_changes_say_all()
    ensures holding { (s : StateView) (w : WorkerId) (changes : List Change) → IsWorkerOf s w
        → holding_of (make_all s w changes) w ≡ after_all holding_after (holding_of s w) changes }
    ensures locks { (s : StateView) (w : WorkerId) (changes : List Change) → AllByRecursion (NamesOnly s) changes
        → can_all s w changes ≡ true → owned (make_all s w changes) w ≡ after_all locks_after (owned s w) changes }
    ensures claimed { (s : StateView) (w : WorkerId) (changes : List Change) → AllByRecursion (NamesOnly s) changes
        → can_all s w changes ≡ true → claimed (make_all s w changes) w ≡ after_all (claimed_after w) (claimed s w) changes }
{}

/// Where each worker closed units with their values alone, but for faults and want of memory, the closing entries are the answers.
pub fn honest_workers_give_the_answers()
    ensures { (value : ℕ → Outcome) (h : List Entry) → ((w : WorkerId) → IsHonestWorker value h w) → GivesClosedOutcomes (answers value h) h }
{}

/// The front of a lawful history is lawful, and what has ended there has the same mark ever after.
pub fn histories_go_on()
    ensures front { (g : GraphView) (h later : List Entry) → Lawful g (h ++ later) → Lawful g h }
    ensures marks { (g : GraphView) (h later : List Entry) (m : MarkId) → Lawful g (h ++ later) → IsEnded (mark_of (replay g h) m)
        → mark_of (replay g (h ++ later)) m ≡ mark_of (replay g h) m }
    ensures ended { (g : GraphView) (h later : List Entry) → Lawful g (h ++ later) → All IsEnded (replay g h).tasks
        → All IsEnded (replay g (h ++ later)).tasks }
{}

/// What one entry more at the end changes.
pub fn one_entry_more()
    ensures lawful { (g : GraphView) (h : List Entry) (e : Entry) → Lawful g h → Allowed g (replay g h) e → Lawful g (h ++ e ∷ []) }
    ensures replay { (g : GraphView) (h : List Entry) (e : Entry) → replay g (h ++ e ∷ []) ≡ effect (replay g h) e }
    ensures closings { (h : List Entry) (e : Entry) (u : ℕ) → closings (h ++ e ∷ []) u ≡ closings h u ++ where_finished e.changes (closing_of u e.kind) }
    ensures outcome { (h : List Entry) (e : Entry) (u : ℕ)
        → outcome_in (h ++ e ∷ []) u ≡ last_or (outcome_in h u) (where_finished e.changes (closing_of u e.kind)) }
    ensures closed { (h : List Entry) (e : Entry) (w : WorkerId) → closed_by w (h ++ e ∷ []) ≡ closed_by w h ++ closed_at w e }
    ensures faults { (h : List Entry) (e : Entry) (w : WorkerId) → faults_by w (h ++ e ∷ []) ≡ faults_by w h + faults_in (closed_at w e) }
{}

/// Where no task comes after another, the rank 0 serves for each.
pub fn tasks_without_after_have_rank_zero()
    ensures { (g : GraphView) → All (λ t. t.after ≡ []) g.tasks → AreRanks g (λ t. 0) }
{}

/// The outcomes by the plan follow their rule, however far above a task's rank one begins, and those of a task are what its actions give in order.
pub fn outcomes_follow_their_rule()
    ensures rule { (g : GraphView) (v : ℕ → Outcome) (rank : ℕ → ℕ) (n t : ℕ) → AreRanks g rank → rank t < n
        → task_outcome g v n t ≡ mark_by (list_all (λ p. has_passed (task_outcome g v n p)) (task_of g t).after)
        (task_passes g v t) }
    ensures depth { (g : GraphView) (v : ℕ → Outcome) (rank : ℕ → ℕ) (n m t : ℕ) → AreRanks g rank → rank t < n → rank t < m
        → task_outcome g v n t ≡ task_outcome g v m t }
    ensures in_order { (g : GraphView) (v f : ℕ → Outcome) (n t : ℕ)
        → ((a u : ℕ) → IsActionOf g t a → IsUnitOf g a u → f u ≡ unit_outcome g v n t a u)
        → map f (units_of_actions g (actions_of g t)) ≡ outcomes_of_task g v n t }
{}

/// Skipping the waiting actions before an action leaves that action's mark, so whether it waits may be read as one goes.
pub fn skipping_leaves_later_actions()
    ensures { (g : GraphView) (s : StateView) (w : WorkerId) (first n : ℕ)
        → can_all s w (skipped_waiting g s (range_with_len first n)) ≡ true
        → mark_of (make_all s w (skipped_waiting g s (range_with_len first n))) (ActionOf (first + n)) ≡ mark_of s
        (ActionOf (first + n)) }
{}

/// Histories worked out by hand: a task with one item, the same for all projects, retentions that release the project lock, a fetch, a
/// missing file, and locks taken by turns.
pub fn worked_histories_are_lawful()
    ensures first_run { IsWorkedRun (one_task Retain false 1) first_run (Passed ∷ []) (Number 3 ∷ []) }
    ensures reacquires { IsWorkedRun (one_task ReleaseAndReacquire false 2) run_that_reacquires (Passed ∷ []) (Number 3 ∷ Number 14 ∷ []) }
    ensures releases { IsWorkedRun (one_task Release false 1) run_that_releases (Passed ∷ []) (Number 3 ∷ []) }
    ensures fetches { IsWorkedRun (one_task Retain true 1) run_that_fetches (Passed ∷ []) (Number 14 ∷ Number 3 ∷ []) }
    ensures fails { IsWorkedRun two_tasks run_that_fails (Failed ∷ Skipped ∷ []) (NotThere ∷ NotRun ∷ []) }
    ensures by_turns { Lawful no_tasks locks_by_turns }
    ensures of_all { IsWorkedRun one_task_of_all first_run_of_all (Passed ∷ []) (Number 3 ∷ []) }
    ensures all_by_turns { Lawful two_projects all_by_turns }
{}

/// While a worker owns the all-projects lock no other takes a lock, and none takes it while another owns a lock.
pub fn owners_of_all_projects_own_alone()
    ensures beside { Lawful two_projects all_beside_another → ⊥ }
    ensures another { Lawful two_projects another_beside_all → ⊥ }
{}

/// Where no entry names the all-projects lock, which is the last of a graph's, the history is lawful exactly where it is by the rule
/// of the graph without that lock, in which a lock is kept by its owner alone.
pub fn plain_histories_are_lawful_as_without_all_projects()
    ensures { (g : GraphView) (h : List Entry) → NameLocksBelow g.locks h → Lawful (with_all g) h ↔ WasLawful g h }
{}

/// A task can't start before those that it comes after have passed.
pub fn early_start_is_unlawful()
    ensures { Lawful two_tasks start_too_early → ⊥ }
{}

/// Where a run comes to its plan, the outcome of each unit is that of the plan by the unit's number alone.
pub fn outcomes_go_by_number()
    ensures { (g : GraphView) (h : List Entry) (v : ℕ → Outcome) (n u : ℕ) → Fits g → ComesTo g h v n → u < g.units → outcome_in h u ≡ outcome_by g v n u }
{}

/// Segments that begin where the one before ends, the first with the first entry, and the entries behind them are the whole history, and the
/// state is what they lead to in turn. What a segment has of a history it has of each that goes on from it. What a book gave is such, and the
/// next that it gives begins where this ends.
pub fn segments_are_one_history()
    ensures joined { (h : List Entry) (ss : List SegmentView) → AreInTurn 0 ss → All (IsCutFrom h) ss
        → joined ss ++ drop (length (joined ss)) h ≡ h }
    ensures replay { (g : GraphView) (h : List Entry) (ss : List SegmentView) → AreInTurn 0 ss → All (IsCutFrom h) ss
        → replay_from (replay g (joined ss)) (drop (length (joined ss)) h) ≡ replay g h }
    ensures cut { (h later : List Entry) (s : SegmentView) → s.before + length s.entries ≤ length h → IsCutFrom h s → IsCutFrom (h ++ later) s }
    ensures given { (old new : BookView) (s s' : SegmentView) → GivesTo old new s s' → IsCutFrom new.history s' }
    ensures turn { (old new : BookView) (s s' : SegmentView) → GivesTo old new s s' → old.given ≤ length old.history
        → new.given ≡ s'.before + length s'.entries }
{}
