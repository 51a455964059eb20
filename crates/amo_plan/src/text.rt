//! A string that contracts see as the list of its bytes.
ghost use Rattle.std.specs.Prelude.{◌≡◌, IfOk, string_bytes};

use std::alloc::{AllocError, Global};
use std::marker::Model;

/// `Text`: a string that contracts see as the list of its bytes.
///
/// # Examples
///
/// ```
/// use amo_plan::Text;
///
/// let text = Text::from_str(rt.alloc(), "hi")?;
/// assert_eq!(rt; text.as_str(), "hi");
/// let again = Text::new(text.into_string());
/// assert_eq!(rt; again.as_str().len(), 2);
/// ```
#[derive(Debug, Drop)]
pub struct Text {
    text: String,
}

impl Model for Text {
    ghost use Rattle.std.specs.Prelude.{ℕ, List, string_bytes};

    ghost Value = { List ℕ };

    ghost view = { λ t. string_bytes t.text };
}

impl Text {
    /// Returns the text of this string. It takes no memory.
    pub fn new(text: String) -> Text
        ensures { result ≡ string_bytes text }
    {
        Text { text }
    }

    /// Returns a copy of the text.
    ///
    /// # Errors
    ///
    /// `AllocError` if memory is refused.
    pub fn from_str(alloc: Global, text: &str) -> Result<Text, AllocError>
        ensures { IfOk result (λ t. t ≡ text.now) }
    {
        Ok(Text::new(String::from_str(alloc, text)?))
    }

    /// Returns the text as a `str`.
    pub fn as_str(&self) -> &str
        ensures { result.now ≡ self.now }
    {
        self.text.as_str()
    }

    /// Returns the string. It takes no memory.
    pub fn into_string(self) -> String
        ensures { string_bytes result ≡ self }
    {
        let Text { text } = self;
        text
    }
}
