//! The elements of SVG that a chart is made of.
ghost use Rattle.std.specs.Prelude.{◌≡◌, ◌++◌, OnOk};
ghost use Rattle.dnp_trace.specs.Charts.{attribute_text, size_text, view_text, octet_escaped, text_escaped, chart_head};

use crate::sheet::Sheet;
use std::alloc::AllocError;

/// How a chart begins.
pub(crate) const OPENING: &str = "<svg xmlns=\"http://www.w3.org/2000/svg\"";

/// What stands before the size that is seen.
pub(crate) const VIEW: &str = " viewBox=\"0 0 ";

/// What is drawn below all.
pub(crate) const BACKGROUND: &str = "<rect width=\"100%\" height=\"100%\" fill=\"#fff\"/>\n";

/// How what is drawn looks.
pub(crate) const STYLE: &str = "\
<style>
text { font: 11px monospace; fill: #222; }
.on { paint-order: stroke; stroke: #fff; stroke-width: 4px; }
.head { font-weight: bold; text-anchor: middle; }
.box { fill: #eef; stroke: #88a; }
.life { stroke: #bbb; stroke-dasharray: 2 3; }
.line { fill: #777; }
.unit { stroke: #226; fill: none; }
.again { stroke: #226; fill: none; stroke-dasharray: 6 3; }
.bad { stroke: #b11; fill: none; }
.end { fill: #b11; }
.still { stroke: #888; fill: none; stroke-dasharray: 2 2; }
</style>
<defs><marker id=\"tip\" viewBox=\"0 0 10 10\" refX=\"10\" refY=\"5\" markerWidth=\"8\" markerHeight=\"8\" orient=\"auto\"><path d=\"M0 1 L10 5 L0 9 z\" fill=\"#226\"/></marker></defs>
";

/// Writes an attribute that is a number.
#[tactic(auto, unfolding(crate::specs::Charts::attribute_text))]
pub(crate) fn attribute(sheet: &mut Sheet, name: &str, value: u32) -> Result<(), AllocError>
    ensures { OnOk result (sheet.new ≡ sheet.old ++ attribute_text name.now value) }
{
    sheet.word(" ")?;
    sheet.word(name)?;
    sheet.word("=\"")?;
    sheet.number(value)?;
    sheet.word("\"")
}

/// Writes an octet of a text, in its escape where XML may read it as something else. What is no character of ASCII is '?'.
fn escaped_octet(sheet: &mut Sheet, octet: u8) -> Result<(), AllocError>
    ensures { OnOk result (sheet.new ≡ sheet.old ++ octet_escaped octet) }
{
    match octet {
        b'<' => sheet.word("&lt;"),
        b'>' => sheet.word("&gt;"),
        b'&' => sheet.word("&amp;"),
        b'"' => sheet.word("&quot;"),
        b'\t' | b'\n' | b' '..=b'~' => sheet.put(&[octet]),
        _ => sheet.word("?"),
    }
}

/// Writes text that XML may read as something else, in its escapes.
pub(crate) fn escaped(sheet: &mut Sheet, text: &[u8]) -> Result<(), AllocError>
    ensures { OnOk result (sheet.new ≡ sheet.old ++ text_escaped text.now) }
{
    for octet in text {
        escaped_octet(sheet, *octet)?;
    }
    Ok(())
}

/// Begins a text.
pub(crate) fn begin_text(
    sheet: &mut Sheet,
    class: &str,
    x: u32,
    y: u32,
    anchor: &str,
) -> Result<(), AllocError> {
    sheet.word("<text class=\"")?;
    sheet.word(class)?;
    sheet.word("\"")?;
    attribute(sheet, "x", x)?;
    attribute(sheet, "y", y)?;
    sheet.word(" text-anchor=\"")?;
    sheet.word(anchor)?;
    sheet.word("\">")
}

/// Draws a straight line.
pub(crate) fn straight(
    sheet: &mut Sheet,
    class: &str,
    from: (u32, u32),
    to: (u32, u32),
    more: &str,
) -> Result<(), AllocError> {
    sheet.word("<line class=\"")?;
    sheet.word(class)?;
    sheet.word("\"")?;
    attribute(sheet, "x1", from.0)?;
    attribute(sheet, "y1", from.1)?;
    attribute(sheet, "x2", to.0)?;
    attribute(sheet, "y2", to.1)?;
    sheet.word(more)?;
    sheet.word("/>\n")
}

/// Writes the size of a chart.
#[tactic(auto, unfolding(crate::specs::Charts::size_text))]
fn put_size(sheet: &mut Sheet, width: u32, height: u32) -> Result<(), AllocError>
    ensures { OnOk result (sheet.new ≡ sheet.old ++ size_text width height) }
{
    attribute(sheet, "width", width)?;
    attribute(sheet, "height", height)?;
    Ok(())
}

/// Writes which part of a chart of this size is seen: all of it.
#[tactic(auto, unfolding(crate::specs::Charts::view_text))]
fn put_view(sheet: &mut Sheet, view: &str, width: u32, height: u32) -> Result<(), AllocError>
    ensures { OnOk result (sheet.new ≡ sheet.old ++ view_text view.now width height) }
{
    sheet.word(view)?;
    sheet.number(width)?;
    sheet.word(" ")?;
    sheet.number(height)?;
    sheet.word("\">\n")?;
    Ok(())
}

/// Begins a chart of this size.
pub(crate) fn begin(sheet: &mut Sheet, width: u32, height: u32) -> Result<(), AllocError>
    ensures { OnOk result (sheet.new ≡ sheet.old ++ chart_head width height) }
{
    sheet.word(OPENING)?;
    put_size(sheet, width, height)?;
    put_view(sheet, VIEW, width, height)?;
    sheet.word(STYLE)?;
    sheet.word(BACKGROUND)?;
    Ok(())
}
