//! Actions on the files of a real folder, which are looked at as they are read.
ghost use Rattle.std.specs.Prelude.{◌≡◌, ◌<◌, ◌≤◌, Some, length, IfOk, IfSome, OnOk};
ghost use Rattle.std.specs.Io.KnownBytes.{Consumes, IsAtEnd};
ghost use Rattle.item_actions.specs.Value.{act_on, value_of, value_on};
ghost use Rattle.file_access.specs.ReadView.{IsAnswer};

use crate::file_bytes::FileBytes;
use crate::files::DeskFail;
use crate::folder_files::open;
use crate::openers::FileOpener;
use crate::retries::Retries;
use item_actions::{ItemAction, MAX_FILE_BYTES, Outcome, PieceState, Text};
use std::io;
use std::io::ErrorKind;

/// What the action gives on the file of this name, as the opener finds it: its value, NotThere or TooLong.
///
/// The file is looked at in pieces of at most 128 KiB, as they are read, in the room of the spare bytes, which are forgotten. Nothing is
/// counted here: the caller counts the fault where it answers Failed.
pub fn act_on_file<O: FileOpener>(
    opener: &O,
    action: &ItemAction,
    name: &Text,
    spare: &mut FileBytes,
) -> Result<Outcome, DeskFail>
    ensures answer { IfOk result IsAnswer }
    ensures known { IfSome (O.known opener.now) (λ files. IfOk result (λ outcome. outcome ≡ value_on files action.now name.now)) }
{
    let mut retries = Retries::new();
    match open(opener, name.as_str(), &mut retries) {
        Ok(mut file) => act_on_open(&mut file, action, spare, &mut retries),
        Err(error) if error.kind() == ErrorKind::NotFound => Ok(Outcome::NotThere),
        Err(error) => Err(error.into()),
    }
}

// What the action gives on an open file from its place on. A byte over the most that a file may have tells that it is too long.
fn act_on_open<F: io::Read>(
    file: &mut F,
    action: &ItemAction,
    piece: &mut FileBytes,
    retries: &mut Retries,
) -> Result<Outcome, DeskFail>
    ensures answer { IfOk result IsAnswer }
    ensures known { IfSome (F.remaining file.old) (λ bytes.
        IfOk result (λ outcome. outcome ≡ value_of (act_on action.now) (Some bytes))) }
{
    let mut state = PieceState::new(action);
    let mut left = MAX_FILE_BYTES + 1;
    'pieces: while left > 0 {
        let count = read_next(file, piece, left, retries)?;
        if count == 0 {
            return Ok(state.outcome());
        }
        state.add(piece.as_bytes());
        left -= count as u64;
    }
    Ok(Outcome::TooLong)
}

// Reads a piece, again where the call was interrupted.
fn read_next<F: io::Read>(
    file: &mut F,
    piece: &mut FileBytes,
    most: u64,
    retries: &mut Retries,
) -> io::Result<usize>
    requires { 0 < most }
    ensures count { IfOk result (λ count. length piece.new ≡ count) }
    ensures most { IfOk result (λ count. count ≤ most) }
    ensures taken { OnOk result (Consumes (F.remaining file.old) (F.remaining file.new) piece.new) }
    ensures end { IfOk result (λ count. count ≡ 0 → IsAtEnd (F.remaining file.new)) }
{
    'again: loop {
        match piece.read_piece(file, most) {
            Err(error) if retries.allow(&error) => {}
            read => return read,
        }
    }
}
