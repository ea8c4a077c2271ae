ghost use Rattle.std.specs.Prelude.{◌≡◌, ◌++◌, MatchOption, codes};
ghost use Rattle.ira_event.specs.NextLine.{HasNoLineFeed};

use ira_event::line_end;

/// The first line without its line feed, and what follows that; `None` where there is no line feed.
pub fn split_line(text: &[u8]) -> Option<(&[u8], &[u8])>
    ensures { MatchOption result (HasNoLineFeed text.now)
        (λ parts. (text.now ≡ parts.0.now ++ codes "\n" ++ parts.1.now) × HasNoLineFeed parts.0.now) }
{
    let Some(end) = line_end(text) else {
        return None;
    };
    let (line, rest) = text.split_at(end);
    let (_, after) = rest.split_at(1);
    Some((line, after))
}
