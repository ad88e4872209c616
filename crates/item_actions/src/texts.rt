//! Texts, and why bytes are none.
ghost use Rattle.std.specs.Prelude.{◌≡◌, ◌↔◌, IfOk, OnOk, IsUtf8};
ghost use Rattle.std.specs.Result.{IsErrOf};

use std::alloc::{AllocError, Global};
use std::marker::Model;
use thiserror::Error;

/// Why bytes are no text.
#[derive(Clone, Copy, Debug, Error)]
pub enum TextRefusal {
    /// The bytes aren't UTF-8.
    #[error("the bytes are not UTF-8")]
    NotUtf8,
    /// There was no memory for a copy of the bytes.
    #[error("there is no memory for a copy of the bytes")]
    NoMemory,
}

impl From<AllocError> for TextRefusal {
    ghost use Rattle.item_actions.specs.declared.texts.TextRefusal.TheVariants.{NoMemory};

    ghost from_gives = { λ _ refusal. refusal ≡ NoMemory };

    fn from(_error: AllocError) -> TextRefusal {
        TextRefusal::NoMemory
    }
}

/// Bytes that are UTF-8.
#[derive(Drop)]
pub struct Text {
    text: String,
}

impl Model for Text {
    ghost use Rattle.std.specs.Prelude.{List, ℕ, string_bytes};

    ghost Value = { List ℕ };

    ghost view = { λ t. string_bytes t.text };
}

impl From<String> for Text {
    ghost use Rattle.std.specs.Prelude.{◌≡◌, string_bytes};

    ghost from_gives = { λ string text. text ≡ string_bytes string };

    /// The text of a string, which isn't copied.
    fn from(text: String) -> Text {
        Text { text }
    }
}

impl Text {
    /// A text of these bytes. NotUtf8 comes exactly where they aren't UTF-8.
    pub fn of(alloc: Global, bytes: &[u8]) -> Result<Text, TextRefusal>
        ensures text { IfOk result (λ t. t ≡ bytes.now) }
        ensures utf8 { OnOk result (IsUtf8 bytes.now) }
        ensures not_utf8 { IsErrOf result TextRefusal.NotUtf8 ↔ (¬ IsUtf8 bytes.now) }
    {
        match str::from_utf8(bytes) {
            Ok(text) => Ok(Text::from_str(alloc, text)?),
            Err(_) => Err(TextRefusal::NotUtf8),
        }
    }

    /// A text with the bytes of a `str`.
    pub fn from_str(alloc: Global, text: &str) -> Result<Text, AllocError>
        ensures { IfOk result (λ t. t ≡ text.now) }
    {
        let text = String::from_str(alloc, text)?;
        Ok(Text { text })
    }

    /// The bytes.
    pub fn bytes(&self) -> &[u8]
        ensures { result.now ≡ self.now }
    {
        self.text.as_bytes()
    }

    /// The bytes as a `str`.
    pub fn as_str(&self) -> &str
        ensures { result.now ≡ self.now }
    {
        self.text.as_str()
    }

    /// An equal text.
    pub fn copy(&self, alloc: Global) -> Result<Text, AllocError>
        ensures { IfOk result (λ t. t ≡ self.now) }
    {
        Text::from_str(alloc, self.as_str())
    }
}
