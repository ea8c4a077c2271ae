//! A page in parts: what a browser reads as its scripts, and what stands in them.

use ira_view_html::html_page;
use std::process::Abort;

/// How often a part stands in a text.
fn count_of(text: &[u8], part: &[u8]) -> usize {
    let mut count = 0usize;
    for i in 0..text.len() {
        if text[i..].starts_with(part) {
            count = count.saturating_add(1);
        }
    }
    count
}

#[test]
fn two_scripts_whatever_is_told(rt: HostRuntime) {
    let json = b"{\"file\":\"</script><script>\xc3\xa9\x7f\"}\n";
    let Ok(page) = html_page(rt.alloc(), json) else {
        rt.abort();
    };
    let text = page.bytes();
    assert_eq!(rt; count_of(text, b"<script"), 2);
    assert_eq!(rt; count_of(text, b"</script>"), 2);
    assert_eq!(rt;
        count_of(
            text,
            b"{\"file\":\"\\u003c/script>\\u003cscript>\\u00c3\\u00a9\\u007f\"}\n"
        ),
        1
    );
}
