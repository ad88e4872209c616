ghost use Rattle.std.specs.Prelude.{◌≡◌};
ghost use Rattle.item_actions.specs.Bytes.{longest};

use memchr::memchr_iter;

/// The greatest length of a piece when the bytes are split at each line end.
pub(crate) fn longest_piece(bytes: &[u8]) -> usize
    ensures { result ≡ longest bytes.now }
{
    let mut best = 0usize;
    let mut from = 0usize;
    for end in memchr_iter(b'\n', bytes) {
        best = best.max(end - from);
        from = end + 1;
    }
    best.max(bytes.len() - from)
}
