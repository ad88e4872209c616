ghost use Rattle.std.specs.Prelude.{◌≡◌, ◌↔◌, IsTrue};
ghost use Rattle.std.specs.Str.{bytes_eq};
ghost use Rattle.daemon_requirements.specs.RequirementsView.{requirements_view};
ghost use Rattle.daemon_requirements.specs.Rules.{is_same_pair};

use crate::fields::{Pair, RequirementFields};
use item_actions::Text;

/// Whether the fields are equal, each list in the same order.
pub(crate) fn are_same_fields(a: &RequirementFields, b: &RequirementFields) -> bool
    ensures { IsTrue result ↔ (requirements_view a.now ≡ requirements_view b.now) }
{
    is_same_text(&a.executable, &b.executable)
        && a.heap_mb == b.heap_mb
        && are_same_texts(&a.args, &b.args)
        && are_same_pairs(&a.properties, &b.properties)
        && are_same_pairs(&a.variables, &b.variables)
        && a.debug == b.debug
        && a.assertions == b.assertions
        && is_same_text(&a.encoding, &b.encoding)
        && a.keep == b.keep
}

// Whether both lists have the same texts in the same order.
fn are_same_texts(a: &[Text], b: &[Text]) -> bool
    ensures { IsTrue result ↔ (a.now ≡ b.now) }
{
    if a.len() != b.len() {
        return false;
    }
    for place in 0..a.len() {
        if !is_same_text(&a[place], &b[place]) {
            return false;
        }
    }
    true
}

// Whether both lists have the same pairs in the same order.
fn are_same_pairs(a: &[Pair], b: &[Pair]) -> bool
    ensures { IsTrue result ↔ (a.now ≡ b.now) }
{
    if a.len() != b.len() {
        return false;
    }
    for place in 0..a.len() {
        if !is_same_pair(&a[place], &b[place]) {
            return false;
        }
    }
    true
}

/// Whether two pairs have one name and one value, byte for byte.
pub(crate) fn is_same_pair(a: &Pair, b: &Pair) -> bool
    ensures equal { IsTrue result ↔ (a.now ≡ b.now) }
    ensures value { result ≡ is_same_pair a.now b.now }
{
    is_same_text(&a.name, &b.name) && is_same_text(&a.value, &b.value)
}

/// Whether two texts have the same bytes.
pub(crate) fn is_same_text(a: &Text, b: &Text) -> bool
    ensures equal { IsTrue result ↔ (a.now ≡ b.now) }
    ensures value { result ≡ bytes_eq a.now b.now }
{
    a.as_str() == b.as_str()
}
