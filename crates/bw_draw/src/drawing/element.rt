//! The elements of an image.

use crate::drawing::length::Length;
use crate::pen::Pen;

/// The distance from the top of a line to its baseline.
pub(crate) const FEET: Length = Length(12);

impl Pen {
    /// Begins an element of a class.
    pub(crate) fn open(&mut self, element: &str, class: &str) {
        self.write(element);
        self.write(" class=\"");
        self.write(class);
    }

    /// Begins a text that stands at a place.
    pub(crate) fn begin(&mut self, class: &str, left: Length, top: Length) {
        self.open("<text", class);
        self.put("\" x=\"", left.0);
        self.put("\" y=\"", (top + FEET).0);
        self.write("\">");
    }

    /// Ends a text.
    pub(crate) fn end(&mut self) {
        self.write("</text>\n");
    }

    /// Writes a text that stands at a place.
    pub(crate) fn text(&mut self, class: &str, left: Length, top: Length, text: &str) {
        self.begin(class, left, top);
        self.write(text);
        self.end();
    }

    /// Writes a box.
    pub(crate) fn rect(
        &mut self,
        class: &str,
        (left, top): (Length, Length),
        (width, height): (Length, Length),
    ) {
        self.open("<rect", class);
        self.put("\" x=\"", left.0);
        self.put("\" y=\"", top.0);
        self.put("\" width=\"", width.0);
        self.put("\" height=\"", height.0);
        self.write("\" rx=\"4\"/>\n");
    }
}
