//! Lines of SVG.
use std::alloc::{AllocError, Global};

/// A place in a picture, in pixels from its upper left corner.
#[derive(Clone, Copy)]
pub(crate) struct Spot {
    pub(crate) x: usize,
    pub(crate) y: usize,
}

/// A picture that is being written.
#[derive(Drop)]
pub(crate) struct Svg {
    text: String,
}

/// The classes are those of `Mark::word`, and the names of what a picture has.
const STYLE: &str = "<style>
text { font: 12px monospace; fill: #222 }
.name { font-weight: bold }
.lock { font-size: 11px }
.life { stroke: #bbb }
.dot { fill: #222 }
.shared { fill: #9ecae1 }
.exclusive { fill: #fc9272 }
.upgradable { fill: #fdd49e }
.announced { fill: none; stroke: #636363; stroke-dasharray: 3 2 }
.wait { stroke: #777; stroke-width: 1.2; marker-end: url(#tip) }
.circle { stroke: #222; stroke-width: 2.6; marker-end: url(#tip) }
</style>
<marker id=\"tip\" viewBox=\"0 0 8 8\" refX=\"7\" refY=\"4\" markerWidth=\"9\" markerHeight=\"9\" markerUnits=\"userSpaceOnUse\" orient=\"auto\">
<path d=\"M0 0 L8 4 L0 8 z\" fill=\"#222\"/>
</marker>
<rect width=\"100%\" height=\"100%\" fill=\"#fff\"/>
";

impl Svg {
    /// Begins a picture of this size.
    pub(crate) fn new(alloc: Global, width: usize, height: usize) -> Result<Svg, AllocError> {
        let mut text = String::new(alloc);
        writeln!(
            text,
            "<svg xmlns=\"http://www.w3.org/2000/svg\" width=\"{width}\" height=\"{height}\">"
        )?;
        text.push_str(STYLE)?;
        Ok(Svg { text })
    }

    /// Ends the picture.
    pub(crate) fn finish(mut self) -> Result<String, AllocError> {
        self.text.push_str("</svg>\n")?;
        Ok(self.text)
    }

    /// Draws a rectangle.
    pub(crate) fn rect(
        &mut self,
        class: &str,
        at: Spot,
        width: usize,
        height: usize,
    ) -> Result<(), AllocError> {
        let Spot { x, y } = at;
        writeln!(
            self.text,
            "<rect class=\"{class}\" x=\"{x}\" y=\"{y}\" width=\"{width}\" height=\"{height}\"/>"
        )
    }

    /// Draws a line.
    pub(crate) fn line(&mut self, class: &str, from: Spot, to: Spot) -> Result<(), AllocError> {
        let Spot { x, y } = from;
        write!(self.text, "<line class=\"{class}\" x1=\"{x}\" y1=\"{y}\"")?;
        let Spot { x, y } = to;
        writeln!(self.text, " x2=\"{x}\" y2=\"{y}\"/>")
    }

    /// Draws a dot.
    pub(crate) fn dot(&mut self, at: Spot) -> Result<(), AllocError> {
        let Spot { x, y } = at;
        writeln!(
            self.text,
            "<circle class=\"dot\" cx=\"{x}\" cy=\"{y}\" r=\"3.5\"/>"
        )
    }

    /// Writes words on a line.
    pub(crate) fn text(&mut self, class: &str, at: Spot, words: &str) -> Result<(), AllocError> {
        let Spot { x, y } = at;
        writeln!(
            self.text,
            "<text class=\"{class}\" x=\"{x}\" y=\"{y}\">{words}</text>"
        )
    }

    /// Writes words that run downward.
    pub(crate) fn text_down(
        &mut self,
        class: &str,
        at: Spot,
        words: &str,
    ) -> Result<(), AllocError> {
        let Spot { x, y } = at;
        write!(
            self.text,
            "<text class=\"{class}\" transform=\"translate({x} {y}) rotate(90)\">"
        )?;
        writeln!(self.text, "{words}</text>")
    }
}
