//! Texts as TOML has them.
use std::fmt;
use std::fmt::{Display, Formatter};
use toml_writer::write_string;

/// A text that is shown as a value of TOML.
#[derive(Clone, Copy)]
pub(crate) struct Quoted<'t> {
    /// The text.
    pub(crate) text: &'t str,
}

impl Display for Quoted<'_> {
    ghost use Rattle.std.specs.Prelude.{Some};
    ghost use Rattle.toml_writer.specs.Text.{string_text};

    ghost output = { λ quoted. Some (string_text quoted.text.now) };

    fn fmt<W: fmt::Write>(&self, f: &mut Formatter<W>) -> fmt::Result {
        write_string(f, self.text)
    }
}
