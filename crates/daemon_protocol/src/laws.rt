ghost use Rattle.std.specs.Prelude.{◌≡◌, ◌<◌, ◌≤◌, ◌++◌, ℕ, List, length, take, slice_index};
ghost use Rattle.daemon_protocol.specs.declared.frames.Frame.{Frame};
ghost use Rattle.daemon_protocol.specs.declared.starts.StreamStart.TheVariants.{Whole};
ghost use Rattle.daemon_protocol.specs.Spelling.{spelling, IsValid, FrameFits};
ghost use Rattle.daemon_protocol.specs.StreamStart.{look};

/// The bytes of a valid frame are read as that frame, whatever follows. So each frame has bytes of its own, and
/// no frame's bytes begin with those of another.
pub fn spelled_frames_are_read()
    ensures { (f : Frame) (after : List ℕ) → IsValid f → FrameFits f → look (spelling f ++ after) ≡ Whole f (length (spelling f)) }
{}

/// A frame that is read is valid, and its bytes stand there. So nothing else is read as a frame.
pub fn read_frames_are_spelled()
    ensures { (bytes : List ℕ) (f : Frame) (n : ℕ) → ((i : ℕ) → slice_index bytes i < 256) → look bytes ≡ Whole f n
        → (n ≤ length bytes) × (take n bytes ≡ spelling f) × IsValid f }
{}
