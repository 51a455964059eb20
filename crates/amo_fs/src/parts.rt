//! The parts of a text.
ghost use Rattle.std.specs.Prelude.{◌≡◌, IfOk, map};
ghost use Rattle.amo_fs.specs.Parts.{lines_of, fields_of, options_of};

use std::alloc::{AllocError, Global};

/// Returns the lines of a text.
pub(crate) fn lines_of(alloc: Global, text: &[u8]) -> Result<Vec<&[u8]>, AllocError>
    ensures { IfOk result (λ lines. map (λ line. line.now) lines.items ≡ lines_of text.now) }
{
    text.split(|b| *b == b'\n').collect(alloc)
}

/// Returns the fields of a line, which one blank separates.
pub(crate) fn fields_of(alloc: Global, line: &[u8]) -> Result<Vec<&[u8]>, AllocError>
    ensures { IfOk result (λ fields. map (λ field. field.now) fields.items ≡ fields_of line.now) }
{
    line.split(|b| *b == b' ').collect(alloc)
}

/// Returns the options of a field, which commas separate.
pub(crate) fn options_of(alloc: Global, field: &[u8]) -> Result<Vec<&[u8]>, AllocError>
    ensures { IfOk result (λ options. map (λ option. option.now) options.items ≡ options_of field.now) }
{
    field.split(|b| *b == b',').collect(alloc)
}
