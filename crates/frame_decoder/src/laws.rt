ghost use Rattle.std.specs.Prelude.{◌≡◌, ℕ, List};
ghost use Rattle.daemon_protocol.specs.declared.frames.Frame.{Frame};
ghost use Rattle.frame_decoder.specs.DecoderView.{DecoderView, Reads};

/// A stream has one reading: its frames, and what follows them.
pub fn streams_have_one_reading()
    ensures { (stream : List ℕ) (frames others : List Frame) (r q : DecoderView) → Reads stream frames r → Reads stream others q → (frames ≡ others) × (r ≡ q) }
{}
