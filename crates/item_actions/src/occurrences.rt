ghost use Rattle.std.specs.Prelude.{◌≡◌, ◌≤◌, length};
ghost use Rattle.item_actions.specs.Bytes.{occurrences};

use crate::counting::count_of_byte;
use crate::needles::Needle;
use crate::places::count_of_places;
use memchr::memmem;

/// How often the needle is found from the left, none overlapping an earlier one.
pub(crate) fn count_of_needle(bytes: &[u8], needle: &Needle) -> usize
    ensures { result ≡ occurrences needle.now bytes.now }
{
    match needle.bytes() {
        [byte] => count_of_byte(bytes, *byte),
        [first, rest @ ..] if !rest.contains(first) => count_of_places(bytes, needle.bytes()),
        several => count_of_several(bytes, several),
    }
}

// How often a needle of these bytes is found from the left, by one search after the other.
fn count_of_several(bytes: &[u8], needle: &[u8]) -> usize
    requires { 1 ≤ length needle.now }
    ensures { result ≡ occurrences needle.now bytes.now }
{
    let mut total = 0usize;
    for _place in memmem::find_iter(bytes, needle) {
        total += 1;
    }
    total
}
