ghost use Rattle.std.specs.Prelude.{◌≡◌, Some, []};
ghost use Rattle.ira_view_page.specs.Page.{Added};
ghost use Rattle.ira_view_page.specs.Printable.{IsPrintable};
ghost use Rattle.ira_view_draw.specs.Escaped.{escaped, escaped_byte};
ghost use Rattle.ira_view_draw.specs.Svg.{attribute_text, class_text, dot_text, down_text, event_name, move_text};
ghost use Rattle.ira_view_draw.specs.Svg.{number_text, once_more_text, square_text, tag_text, words_tag};

use ira_view_page::Page;
use std::alloc::Allocator;

/// The text of a picture: elements, and words between them. It keeps whether a growth was refused.
#[derive(Drop)]
pub(crate) struct Svg<A: Allocator> {
    /// Takes what XML spells as it is.
    pub(crate) page: Page<A>,
}

impl<A: Allocator> Svg<A> {
    /// A text that is empty yet.
    pub(crate) fn new(alloc: A) -> Svg<A>
        ensures { result.page ≡ Some [] }
    {
        Svg {
            page: Page::new(alloc),
        }
    }

    /// Adds words as XML spells them between tags and in attributes.
    pub(crate) fn text(&mut self, words: &[u8])
        ensures { Added self.old.page (escaped words.now) self.new.page }
    {
        for byte in words {
            self.text_byte(*byte);
        }
    }

    fn text_byte(&mut self, byte: u8)
        ensures { Added self.old.page (escaped_byte byte) self.new.page }
    {
        match byte {
            b'&' => self.page.words("&amp;"),
            b'<' => self.page.words("&lt;"),
            b'>' => self.page.words("&gt;"),
            b'"' => self.page.words("&quot;"),
            _ => self.page.show(&[byte]),
        }
    }

    /// Begins the tag of an element, of a class where one is given.
    pub(crate) fn open(&mut self, element: &str, class: &str)
        requires { IsPrintable element.now }
        ensures { Added self.old.page (tag_text element.now class.now) self.new.page }
    {
        self.page.words("<");
        self.page.words(element);
        self.class(class);
    }

    /// Adds the class of an element, where there is one.
    fn class(&mut self, class: &str)
        ensures { Added self.old.page (class_text class.now) self.new.page }
    {
        if !class.is_empty() {
            self.attribute("class", class);
        }
    }

    /// Adds an attribute of these words.
    pub(crate) fn attribute(&mut self, name: &str, value: &str)
        requires { IsPrintable name.now }
        ensures { Added self.old.page (attribute_text name.now value.now) self.new.page }
    {
        self.page.words(" ");
        self.page.words(name);
        self.page.words("=\"");
        self.text(value.as_bytes());
        self.page.words("\"");
    }

    /// Adds an attribute that is a number.
    pub(crate) fn number(&mut self, name: &str, value: u64)
        requires { IsPrintable name.now }
        ensures { Added self.old.page (number_text name.now value) self.new.page }
    {
        self.page.words(" ");
        self.page.words(name);
        self.page.words("=\"");
        self.page.number(value);
        self.page.words("\"");
    }

    /// Adds an attribute that names an event: its node, and its number in the log.
    pub(crate) fn event(&mut self, name: &str, place: usize, position: u32)
        requires { IsPrintable name.now }
        ensures { Added self.old.page (event_name name.now place position) self.new.page }
    {
        self.page.words(" ");
        self.page.words(name);
        self.page.words("=\"");
        self.page.number(place as u64);
        self.page.words(".");
        self.page.number(position as u64);
        self.page.words("\"");
    }

    /// Adds what lines end with, if that is anything.
    pub(crate) fn marker(&mut self, marker: Option<&str>) {
        if let Some(marker) = marker {
            self.page.words(" marker-end=\"url(#");
            self.text(marker.as_bytes());
            self.page.words(")\"");
        }
    }

    /// Begins words at a place.
    pub(crate) fn begin_text(&mut self, class: &str, x: u64, y: u64)
        ensures { Added self.old.page (words_tag class.now x y) self.new.page }
    {
        self.open("text", class);
        self.number("x", x);
        self.number("y", y);
        self.page.words(">");
    }

    /// Begins the path of lines of a class.
    pub(crate) fn begin_lines(&mut self, class: &str) {
        self.open("path", class);
        self.page.words(" d=\"");
    }

    /// Begins a line of a path.
    pub(crate) fn move_to(&mut self, x: u64, y: u64)
        ensures { Added self.old.page (move_text x y) self.new.page }
    {
        self.page.words("M");
        self.page.number(x);
        self.page.words(" ");
        self.page.number(y);
    }

    /// Adds a line along a lane to a path.
    pub(crate) fn along(&mut self, x: u64, y: u64, to: u64) {
        self.move_to(x, y);
        self.page.words("H");
        self.page.number(to);
    }

    /// Adds a line down a column to a path.
    pub(crate) fn down(&mut self, x: u64, y: u64, to: u64)
        ensures { Added self.old.page (down_text x y to) self.new.page }
    {
        self.move_to(x, y);
        self.page.words("V");
        self.page.number(to);
    }

    /// Adds a line to a path of which only its round ends are seen. It has a length, since some renderers draw no other.
    pub(crate) fn dot(&mut self, x: u64, y: u64)
        ensures { Added self.old.page (dot_text x y) self.new.page }
    {
        self.move_to(x, y);
        self.page.words("h.1");
    }

    /// Adds a line to a path that is as long as it is wide, with its middle at a place.
    pub(crate) fn square(&mut self, x: u64, y: u64)
        ensures { Added self.old.page (square_text x y) self.new.page }
    {
        self.move_to(x.saturating_sub(4), y);
        self.page.words("h8");
    }

    /// Draws an element once more, so much lower and paler.
    pub(crate) fn once_more(&mut self, element: &str, below: u64, opacity: &str)
        ensures { Added self.old.page (once_more_text element.now below opacity.now) self.new.page }
    {
        self.page.words("<use");
        self.attribute("href", element);
        self.number("y", below);
        self.attribute("stroke-opacity", opacity);
        self.page.words("/>\n");
    }
}
