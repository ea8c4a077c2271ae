ghost use Rattle.std.specs.Prelude.{◌<◌, ◌∷◌, [], IfOk};
ghost use Rattle.ira_view_page.specs.Page.{Added};
ghost use Rattle.ira_view_page.specs.Printable.{IsPrintable, hex_digit_of};
ghost use Rattle.ira_view_html.specs.HtmlPage.{IsHtmlPage, told_byte, told_text};

use crate::frame::{FOOT, HEAD, MIDDLE};
use crate::script::SCRIPT;
use ira_event::OutOfMemory;
use ira_view_page::{Page, PageText};
use std::alloc::Allocator;

/// Adds the digit of a number below 16.
fn write_digit<A: Allocator>(page: &mut Page<A>, digit: u8)
    requires { digit < 16 }
    ensures { Added page.old (hex_digit_of digit ∷ []) page.new }
{
    let zero = if digit < 10 { b'0' } else { b'a' - 10 };
    page.show(&[zero + digit]);
}

fn write_byte<A: Allocator>(page: &mut Page<A>, byte: u8)
    ensures { Added page.old (told_byte byte) page.new }
{
    match byte {
        b'\n' => page.end(),
        b'<' | b'\x00'..=b'\x1f' | b'\x7f'..=b'\xff' => {
            page.words("\\u00");
            write_digit(page, byte / 16);
            write_digit(page, byte % 16);
        }
        _ => page.show(&[byte]),
    }
}

/// Adds JSON, in which no tag begins.
fn write_told<A: Allocator>(page: &mut Page<A>, json: &[u8])
    ensures { Added page.old (told_text json.now) page.new }
{
    for byte in json {
        write_byte(page, *byte);
    }
}

/// The text of an HTML file that needs no other: a page to move in what happened in a ring, which these JSON Lines tell. In
/// a browser its script draws them.
pub fn html_page<A: Allocator>(alloc: A, json: &[u8]) -> Result<PageText<A>, OutOfMemory>
    ensures { IfOk result (IsHtmlPage json.now) }
{
    let mut page = Page::new(alloc);
    page.words(HEAD);
    write_told(&mut page, json);
    page.words(MIDDLE);
    page.words(SCRIPT);
    page.words(FOOT);
    page.finish()
}
