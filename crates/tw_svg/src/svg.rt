//! The text of a picture.

ghost use Rattle.std.specs.Prelude.{◌≡◌, ◌≢◌, ◌++◌, [], List, OnOk, ℕ, string_bytes};
ghost use Rattle.tw_svg.specs.Escaped.{IsPlain, escaped, escaped_letter, plain_of, title_text};

use crate::outline::Path;
use crate::points::{Points, Spot};
use std::alloc::{AllocError, Global};
use std::marker::Model;

/// Up to this width a picture shrinks with its window; a wider one scrolls.
const PAGE: i64 = 1280;

/// The text of a picture, element by element.
///
/// Contracts see its bytes.
#[derive(Drop)]
pub struct Svg {
    text: String,
}

impl Model for Svg {
    ghost Value = { List ℕ };

    ghost view = { λ svg. string_bytes svg.text };
}

// Adds words with what would end them told otherwise, and without what no XML may have.
fn push_escaped(text: &mut String, words: &str) -> Result<(), AllocError>
    ensures { OnOk result (string_bytes text.new ≡ string_bytes text.old ++ escaped words.now) }
{
    for letter in words.chars() {
        push_letter(text, letter)?;
    }
    Ok(())
}

// Adds a letter of words.
fn push_letter(text: &mut String, letter: char) -> Result<(), AllocError>
    ensures { OnOk result (string_bytes text.new ≡ string_bytes text.old ++ escaped_letter letter) }
{
    match letter {
        '&' => text.push_str("&amp;"),
        '<' => text.push_str("&lt;"),
        '>' => text.push_str("&gt;"),
        '"' => text.push_str("&quot;"),
        '\t' | '\n' | '\r' => text.push(' '),
        '\u{0}'..='\u{1f}' | '\u{fffe}' | '\u{ffff}' => text.push('\u{fffd}'),
        _ => text.push(letter),
    }
}

/// No letter of words that are put into a picture can break it. `"`, `&`, `<` and `>` are written as entities; each
/// other letter is written as one that begins no element, ends no attribute, and may stand in a file (Extensible
/// Markup Language 1.0, 2008). The call does nothing.
pub fn plain_law()
    ensures { (c : ℕ) → c ≢ 34 → c ≢ 38 → c ≢ 60 → c ≢ 62 → IsPlain (plain_of c) }
{}

impl Svg {
    /// No picture.
    pub fn new(alloc: Global) -> Svg
        ensures { result ≡ [] }
    {
        Svg {
            text: String::new(alloc),
        }
    }

    /// Where its memory comes from.
    pub fn allocator(&self) -> Global {
        *self.text.allocator()
    }

    /// The text.
    pub fn as_str(&self) -> &str
        ensures { result.now ≡ self.now }
    {
        self.text.as_str()
    }

    /// Adds another text behind this one.
    pub fn append(&mut self, other: &Svg) -> Result<(), AllocError>
        ensures { OnOk result (self.new ≡ self.old ++ other.now) }
    {
        self.text.push_str(other.as_str())
    }

    /// The head of a file, in points, with its title, its style sheet and the ground.
    pub fn begin(
        &mut self,
        width: i64,
        height: i64,
        title: &str,
        sheet: &str,
    ) -> Result<(), AllocError> {
        let text = &mut self.text;
        text.push_str("<svg xmlns=\"http://www.w3.org/2000/svg\" role=\"img\"")?;
        write!(
            text,
            " width=\"{width}\" height=\"{height}\" viewBox=\"0 0 {width} {height}\""
        )?;
        if width <= PAGE {
            text.push_str(" style=\"max-width:100%;height:auto\"")?;
        }
        text.push_str(">\n<title>")?;
        push_escaped(text, title)?;
        text.push_str("</title>\n<style>")?;
        text.push_str(sheet)?;
        text.push_str("</style>\n<rect class=\"back\" width=\"100%\" height=\"100%\"/>\n")
    }

    /// The end of a file.
    pub fn end(&mut self) -> Result<(), AllocError> {
        self.text.push_str("</svg>\n")
    }

    /// Opens a group of a class.
    pub fn open(&mut self, class: &str) -> Result<(), AllocError> {
        self.text.push_str("<g")?;
        self.push_attribute("class", class)?;
        self.text.push_str(">")
    }

    /// Opens a group that stands so far down.
    pub fn open_moved(&mut self, down: Points) -> Result<(), AllocError> {
        self.text.push_str("<g transform=\"translate(0 ")?;
        down.push_to(&mut self.text)?;
        self.text.push_str(")\">\n")
    }

    /// Closes a group.
    pub fn close(&mut self) -> Result<(), AllocError> {
        self.text.push_str("</g>\n")
    }

    /// What is told of the group that was opened, where one points at it.
    pub fn title(&mut self, words: &str) -> Result<(), AllocError>
        ensures { OnOk result (self.new ≡ self.old ++ title_text words.now) }
    {
        self.text.push_str("<title>")?;
        push_escaped(&mut self.text, words)?;
        self.text.push_str("</title>")
    }

    fn push_attribute(&mut self, name: &str, value: &str) -> Result<(), AllocError> {
        self.text.push_str(" ")?;
        self.text.push_str(name)?;
        self.text.push_str("=\"")?;
        push_escaped(&mut self.text, value)?;
        self.text.push_str("\"")
    }

    fn push_length(&mut self, name: &str, length: Points) -> Result<(), AllocError> {
        self.text.push_str(" ")?;
        self.text.push_str(name)?;
        self.text.push_str("=\"")?;
        length.push_to(&mut self.text)?;
        self.text.push_str("\"")
    }

    // The end of an element: with its title, where it has one.
    fn finish(&mut self, element: &str, title: Option<&str>) -> Result<(), AllocError> {
        let Some(title) = title else {
            return self.text.push_str("/>\n");
        };
        self.text.push_str(">")?;
        self.title(title)?;
        self.text.push_str("</")?;
        self.text.push_str(element)?;
        self.text.push_str(">\n")
    }

    /// Words at a place, of a class, and what is told where one points at them.
    pub fn text(
        &mut self,
        spot: Spot,
        class: &str,
        words: &str,
        title: Option<&str>,
    ) -> Result<(), AllocError> {
        self.turned(spot, 0, class, words, title)
    }

    /// Words that are turned by so many degrees round their place.
    pub fn turned(
        &mut self,
        spot: Spot,
        degrees: i64,
        class: &str,
        words: &str,
        title: Option<&str>,
    ) -> Result<(), AllocError> {
        self.text.push_str("<text")?;
        self.push_length("x", spot.x)?;
        self.push_length("y", spot.y)?;
        if !class.is_empty() {
            self.push_attribute("class", class)?;
        }
        if degrees != 0 {
            self.push_turn(spot, degrees)?;
        }
        self.text.push_str(">")?;
        push_escaped(&mut self.text, words)?;
        if let Some(title) = title {
            self.title(title)?;
        }
        self.text.push_str("</text>\n")
    }

    fn push_turn(&mut self, spot: Spot, degrees: i64) -> Result<(), AllocError> {
        write!(&mut self.text, " transform=\"rotate({degrees} ")?;
        spot.push_to(&mut self.text)?;
        self.text.push_str(")\"")
    }

    /// A rectangle of a class.
    pub fn rect(
        &mut self,
        corner: Spot,
        width: Points,
        height: Points,
        class: &str,
    ) -> Result<(), AllocError> {
        self.text.push_str("<rect")?;
        self.push_attribute("class", class)?;
        self.push_length("x", corner.x)?;
        self.push_length("y", corner.y)?;
        self.push_length("width", width)?;
        self.push_length("height", height)?;
        self.finish("rect", None)
    }

    /// An outline of a class, and what is told where one points at it.
    pub fn path(
        &mut self,
        class: &str,
        path: &Path,
        title: Option<&str>,
    ) -> Result<(), AllocError> {
        self.text.push_str("<path")?;
        self.push_attribute("class", class)?;
        self.push_attribute("d", path.as_str())?;
        self.finish("path", title)
    }

    /// An outline of a class that is drawn this wide, and what is told where one points at it.
    pub fn wide_path(
        &mut self,
        class: &str,
        path: &Path,
        wide: Points,
        title: Option<&str>,
    ) -> Result<(), AllocError> {
        self.text.push_str("<path")?;
        self.push_attribute("class", class)?;
        self.push_attribute("d", path.as_str())?;
        self.push_length("stroke-width", wide)?;
        self.finish("path", title)
    }

    /// A line from place to place, of a class.
    pub fn line(&mut self, from: Spot, to: Spot, class: &str) -> Result<(), AllocError> {
        let mut path = Path::new(self.allocator());
        path.start(from)?;
        path.line(to)?;
        self.path(class, &path, None)
    }
}
