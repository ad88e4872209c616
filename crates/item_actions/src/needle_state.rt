//! The state of a count of needles.
ghost use Rattle.std.specs.Prelude.{◌<◌, length};
ghost use Rattle.item_actions.specs.declared.limits.TheConstants.{MAX_NEEDLE_BYTES};

use crate::Needle;
use crate::edge::Edge;

/// The needles in the pieces that came: how many were found, and the last bytes, which may be the front of one more.
#[derive(Drop)]
pub struct NeedleState {
    pub(crate) needle: Needle,
    pub(crate) found: u64,
    pub(crate) tail: Edge,
    ghost short: { length tail < length needle },
    ghost few: { length tail < MAX_NEEDLE_BYTES },
}
