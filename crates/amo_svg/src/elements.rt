//! Writes the elements of a picture.
ghost use Rattle.std.specs.Prelude.{◌≡◌, ◌++◌, OnOk, string_bytes};
ghost use Rattle.amo_svg.specs.Elements.{attribute, two_attributes, text_start, anchored_start, text, anchored_number, number_before, area_start, stroke_start, dotted_start, at_place, area_at, stroke_at, straight};

use std::alloc::AllocError;

/// Appends an attribute, up to its own last quote.
#[tactic(auto, unfolding(crate::specs::Elements::attribute))]
fn push_attribute(out: &mut String, name: &str, value: u128) -> Result<(), AllocError>
    ensures { OnOk result (string_bytes out.new ≡ string_bytes out.old ++ attribute name.now value) }
{
    out.push_str("\" ")?;
    out.push_str(name)?;
    write!(out, "=\"{value}")
}

/// Appends two attributes, and the end of their tag.
#[tactic(auto, unfolding(crate::specs::Elements::two_attributes))]
pub(crate) fn push_two_attributes(
    out: &mut String,
    first: &str,
    a: u128,
    second: &str,
    b: u128,
) -> Result<(), AllocError>
    ensures { OnOk result (string_bytes out.new ≡ string_bytes out.old ++ two_attributes first.now a second.now b) }
{
    push_attribute(out, first, a)?;
    push_attribute(out, second, b)?;
    out.push_str("\">")
}

/// Appends the start of words that begin at a place.
#[tactic(auto, unfolding(crate::specs::Elements::text_start))]
pub(crate) fn push_text_start(
    out: &mut String,
    class: &str,
    x: u128,
    y: u128,
) -> Result<(), AllocError>
    ensures { OnOk result (string_bytes out.new ≡ string_bytes out.old ++ text_start class.now x y) }
{
    out.push_str("<text class=\"")?;
    out.push_str(class)?;
    push_two_attributes(out, "x", x, "y", y)
}

/// Appends the start of words that are anchored at a place by their `end` or their `middle`.
#[tactic(auto, unfolding(crate::specs::Elements::anchored_start))]
pub(crate) fn push_anchored_start(
    out: &mut String,
    anchor: &str,
    class: &str,
    x: u128,
    y: u128,
) -> Result<(), AllocError>
    ensures { OnOk result (string_bytes out.new ≡ string_bytes out.old ++ anchored_start anchor.now class.now x y) }
{
    out.push_str("<text class=\"")?;
    out.push_str(class)?;
    out.push_str("\" text-anchor=\"")?;
    out.push_str(anchor)?;
    push_two_attributes(out, "x", x, "y", y)
}

/// Appends words that begin at a place.
pub(crate) fn push_text(
    out: &mut String,
    class: &str,
    x: u128,
    y: u128,
    words: &str,
) -> Result<(), AllocError>
    ensures { OnOk result (string_bytes out.new ≡ string_bytes out.old ++ text class.now x y words.now) }
{
    push_text_start(out, class, x, y)?;
    out.push_str(words)?;
    out.push_str("</text>\n")
}

/// Appends a number that is anchored at a place by its `end` or its `middle`.
pub(crate) fn push_anchored_number(
    out: &mut String,
    anchor: &str,
    class: &str,
    x: u128,
    y: u128,
    number: u128,
) -> Result<(), AllocError>
    ensures { OnOk result (string_bytes out.new ≡ string_bytes out.old ++ anchored_number anchor.now class.now x y number) }
{
    push_anchored_start(out, anchor, class, x, y)?;
    write!(out, "{number}</text>\n")
}

/// Appends a number that ends at a place.
pub(crate) fn push_number_before(
    out: &mut String,
    class: &str,
    x: u128,
    y: u128,
    number: u128,
) -> Result<(), AllocError>
    ensures { OnOk result (string_bytes out.new ≡ string_bytes out.old ++ number_before class.now x y number) }
{
    push_anchored_number(out, "end", class, x, y, number)
}

/// Appends the start of a filled path.
#[tactic(auto, unfolding(crate::specs::Elements::area_start))]
pub(crate) fn push_area_start(out: &mut String, class: &str) -> Result<(), AllocError>
    ensures { OnOk result (string_bytes out.new ≡ string_bytes out.old ++ area_start class.now) }
{
    out.push_str("<path class=\"")?;
    out.push_str(class)?;
    out.push_str("\" d=\"")
}

/// Appends the start of a line of this width.
#[tactic(auto, unfolding(crate::specs::Elements::stroke_start))]
pub(crate) fn push_stroke_start(
    out: &mut String,
    class: &str,
    width: u128,
) -> Result<(), AllocError>
    ensures { OnOk result (string_bytes out.new ≡ string_bytes out.old ++ stroke_start class.now width) }
{
    out.push_str("<path class=\"l")?;
    out.push_str(class)?;
    push_attribute(out, "stroke-width", width)?;
    out.push_str("\" d=\"")
}

/// Appends the start of a dotted line.
#[tactic(auto, unfolding(crate::specs::Elements::dotted_start))]
pub(crate) fn push_dotted_start(out: &mut String, class: &str) -> Result<(), AllocError>
    ensures { OnOk result (string_bytes out.new ≡ string_bytes out.old ++ dotted_start class.now) }
{
    out.push_str("<path class=\"l")?;
    out.push_str(class)?;
    out.push_str("\" stroke-dasharray=\"1 3\" d=\"")
}

/// Appends a place.
#[tactic(auto, unfolding(crate::specs::Elements::at_place))]
pub(crate) fn push_place(out: &mut String, x: u128, y: u128) -> Result<(), AllocError>
    ensures { OnOk result (string_bytes out.new ≡ string_bytes out.old ++ at_place x y) }
{
    write!(out, "M{x} {y}")
}

/// Appends a filled shape at a place.
pub(crate) fn push_area(
    out: &mut String,
    class: &str,
    x: u128,
    y: u128,
    shape: &str,
) -> Result<(), AllocError>
    ensures { OnOk result (string_bytes out.new ≡ string_bytes out.old ++ area_at class.now x y shape.now) }
{
    push_area_start(out, class)?;
    push_place(out, x, y)?;
    out.push_str(shape)?;
    out.push_str("\"/>\n")
}

/// Appends a shape at a place, drawn by a line of this width.
pub(crate) fn push_stroke(
    out: &mut String,
    class: &str,
    width: u128,
    x: u128,
    y: u128,
    shape: &str,
) -> Result<(), AllocError>
    ensures { OnOk result (string_bytes out.new ≡ string_bytes out.old ++ stroke_at class.now width x y shape.now) }
{
    push_stroke_start(out, class, width)?;
    push_place(out, x, y)?;
    out.push_str(shape)?;
    out.push_str("\"/>\n")
}

/// Appends a straight line of this width from a place: the way is `v`, so far down, or `h`, so far
/// to the right.
pub(crate) fn push_straight(
    out: &mut String,
    class: &str,
    width: u128,
    x: u128,
    y: u128,
    way: &str,
    far: u128,
) -> Result<(), AllocError>
    ensures { OnOk result (string_bytes out.new ≡ string_bytes out.old ++ straight class.now width x y way.now far) }
{
    push_stroke_start(out, class, width)?;
    push_place(out, x, y)?;
    out.push_str(way)?;
    write!(out, "{far}\"/>\n")
}
