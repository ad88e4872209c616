//! Actions in pieces.
ghost use Rattle.std.specs.Prelude.{◌≡◌, ◌<◌, ◌+◌, ◌++◌, ◌^◌, ℕ, List, [], length};
ghost use Rattle.item_actions.specs.Value.{act_on};
ghost use Rattle.item_actions.specs.declared.actions.ItemAction.{ItemAction as Action};
ghost use Rattle.item_actions.specs.States.{IsStateOf};

use crate::needle_state::NeedleState;
use crate::numbers::line_ends_in;
use crate::run_state::RunState;
use crate::word_state::WordState;
use crate::{ItemAction, Outcome};
use sha2::{Digest, Sha256};

/// What an action has found in the pieces that came. It takes no memory but its own.
#[derive(Drop)]
pub enum PieceState {
    /// How many line ends there are.
    Lines(u64),
    /// The words.
    Words(WordState),
    /// How many bytes there are.
    Bytes(u64),
    /// The runs of bytes without a line end.
    Longest(RunState),
    /// The needles.
    Count(NeedleState),
    /// The hasher of the bytes.
    Sha256(Sha256),
}

impl PieceState {
    /// The state of the action where no piece came.
    pub fn new(action: &ItemAction) -> PieceState
        ensures { IsStateOf result action.now [] }
    {
        match action {
            ItemAction::Lines => PieceState::Lines(0),
            ItemAction::Words => PieceState::Words(WordState::new()),
            ItemAction::Bytes => PieceState::Bytes(0),
            ItemAction::Longest => PieceState::Longest(RunState::new()),
            ItemAction::Count(needle) => PieceState::Count(NeedleState::new(*needle)),
            ItemAction::Sha256 => PieceState::Sha256(Sha256::new()),
        }
    }

    /// One piece more. After the state of some bytes it is the state of these and the piece behind them.
    pub fn add(&mut self, piece: &[u8])
        ensures { (action : Action) (bytes : List ℕ) → length bytes + length piece.now < 2 ^ 64
            → IsStateOf self.old action bytes → IsStateOf self.new action (bytes ++ piece.now) }
    {
        match self {
            PieceState::Lines(lines) => {
                *lines = lines.saturating_add(line_ends_in(piece));
            }
            PieceState::Words(words) => words.add(piece),
            PieceState::Bytes(bytes) => *bytes = bytes.saturating_add(piece.len() as u64),
            PieceState::Longest(runs) => runs.add(piece),
            PieceState::Count(needles) => needles.add(piece),
            PieceState::Sha256(hasher) => hasher.update(piece),
        }
    }

    /// What the action gives on all the pieces: what it gives on the whole of the bytes.
    pub fn outcome(self) -> Outcome
        ensures { (action : Action) (bytes : List ℕ) → IsStateOf self action bytes → result ≡ act_on action bytes }
    {
        match self {
            PieceState::Lines(number) | PieceState::Bytes(number) => Outcome::Number(number),
            PieceState::Words(words) => Outcome::Number(words.number()),
            PieceState::Longest(runs) => Outcome::Number(runs.number()),
            PieceState::Count(needles) => Outcome::Number(needles.number()),
            PieceState::Sha256(hasher) => Outcome::Digest(hasher.finalize()),
        }
    }
}
