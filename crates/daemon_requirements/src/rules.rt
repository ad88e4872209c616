//! The rules by which a daemon's fields are compared with those that are asked for.
ghost use Rattle.std.specs.Prelude.{◌≡◌, ◌↔◌, IsTrue};
ghost use Rattle.std.specs.List.{list_any, list_all};
ghost use Rattle.std.specs.Str.{bytes_eq};
ghost use Rattle.daemon_requirements.specs.declared.rules.FieldRule.{FieldRule};
ghost use Rattle.daemon_requirements.specs.Rules.{TextRule, NumberRule, SwitchRule, ArgumentRule, PairRule, KeepRule, is_same_pair};

use crate::equality::{is_same_pair, is_same_text};
use crate::fields::Pair;
use item_actions::{KeepAlive, Text};

/// When a daemon's field serves for the field that is asked for.
#[derive(Clone, Copy)]
pub enum FieldRule {
    /// The two are equal; texts are compared byte for byte.
    Equal,
    /// The daemon's number is at least the one asked for.
    AtLeast,
    /// Each text asked for is among the daemon's; places and repeats don't count.
    Superset,
    /// Each pair asked for is among the daemon's, with its value.
    SameValues,
}

/// The rule of each field, by the field's position.
#[derive(Clone, Copy)]
pub struct FieldTable<const N: usize> {
    pub rules: [FieldRule; N],
}

/// The rules of the fields of `RequirementFields`, in the order in which these are declared.
pub const REQUIREMENT_TABLE: FieldTable<9> = FieldTable {
    rules: [
        FieldRule::Equal,
        FieldRule::AtLeast,
        FieldRule::Superset,
        FieldRule::SameValues,
        FieldRule::SameValues,
        FieldRule::Equal,
        FieldRule::Equal,
        FieldRule::Equal,
        FieldRule::Equal,
    ],
};

// The table's length and rules are tested when the crate is checked.
macro_rules! has_rules {
    ($($position:literal $rule:ident),*) => {
        true $(&& REQUIREMENT_TABLE.rules[$position] as u8 == FieldRule::$rule as u8)*
    };
}

const _: () = prove!(REQUIREMENT_TABLE.rules.len() == 9);

const _: () = prove!(has_rules!(
    0 Equal,
    1 AtLeast,
    2 Superset,
    3 SameValues,
    4 SameValues,
    5 Equal,
    6 Equal,
    7 Equal,
    8 Equal
));

/// A kind of field. A rule that isn't for this kind is met by no values.
pub(crate) trait Field {
    ghost meets: { FieldRule → Self → Self → Type 0 };

    /// Whether this value of a daemon serves for `asked` by the rule.
    fn serves(&self, rule: FieldRule, asked: &Self) -> bool
        ensures { IsTrue result ↔ meets rule self.now asked.now };
}

impl Field for Text {
    ghost meets = { TextRule };

    fn serves(&self, rule: FieldRule, asked: &Text) -> bool {
        match rule {
            FieldRule::Equal => is_same_text(self, asked),
            _ => false,
        }
    }
}

impl Field for u32 {
    ghost meets = { NumberRule };

    fn serves(&self, rule: FieldRule, asked: &u32) -> bool {
        match rule {
            FieldRule::Equal => self == asked,
            FieldRule::AtLeast => self >= asked,
            _ => false,
        }
    }
}

impl Field for bool {
    ghost meets = { SwitchRule };

    fn serves(&self, rule: FieldRule, asked: &bool) -> bool {
        match rule {
            FieldRule::Equal => self == asked,
            _ => false,
        }
    }
}

impl Field for KeepAlive {
    ghost meets = { KeepRule };

    fn serves(&self, rule: FieldRule, asked: &KeepAlive) -> bool {
        match rule {
            FieldRule::Equal => *self == *asked,
            _ => false,
        }
    }
}

impl Field for Vec<Text> {
    ghost meets = { λ rule daemon asked. ArgumentRule rule daemon.items asked.items };

    fn serves(&self, rule: FieldRule, asked: &Vec<Text>) -> bool {
        match rule {
            FieldRule::Superset => has_texts(self, asked),
            _ => false,
        }
    }
}

impl Field for Vec<Pair> {
    ghost meets = { λ rule daemon asked. PairRule rule daemon.items asked.items };

    fn serves(&self, rule: FieldRule, asked: &Vec<Pair>) -> bool {
        match rule {
            FieldRule::SameValues => has_pairs(self, asked),
            _ => false,
        }
    }
}

// Whether each text that is asked stands among the texts.
fn has_texts(texts: &[Text], asked: &[Text]) -> bool
    ensures { result ≡ list_all (λ a. list_any (bytes_eq a) texts.now) asked.now }
{
    asked.iter().all(|wanted| has_text(texts, wanted))
}

// Whether the text stands among the texts.
fn has_text(texts: &[Text], wanted: &Text) -> bool
    ensures { result ≡ list_any (bytes_eq wanted.now) texts.now }
{
    texts.iter().any(|text| is_same_text(wanted, text))
}

// Whether each pair that is asked stands among the pairs.
fn has_pairs(pairs: &[Pair], asked: &[Pair]) -> bool
    ensures { result ≡ list_all (λ a. list_any (is_same_pair a) pairs.now) asked.now }
{
    asked.iter().all(|wanted| has_pair(pairs, wanted))
}

// Whether the pair stands among the pairs.
fn has_pair(pairs: &[Pair], wanted: &Pair) -> bool
    ensures { result ≡ list_any (is_same_pair wanted.now) pairs.now }
{
    pairs.iter().any(|pair| is_same_pair(wanted, pair))
}
