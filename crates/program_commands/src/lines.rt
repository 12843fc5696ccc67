ghost use Rattle.std.specs.Prelude.{◌≡◌, ◌<◌, ◌∷◌, [], length, MatchOption};
ghost use Rattle.std.specs.Str.Lines.{lines};

use command_lines::{line_feed_index, strip_carriage_return};

/// The first line of a text and everything after it, or `None` at the end of the text. A line ends at a line feed, and
/// one carriage return before it is dropped. The last line may lack its line feed.
pub fn first_line(text: &[u8]) -> Option<(&[u8], &[u8])>
    ensures lines { MatchOption result (lines text.now ≡ [])
        (λ p. lines text.now ≡ p.0.now ∷ lines p.1.now) }
    ensures shorter { MatchOption result (text.now ≡ []) (λ p. length p.1.now < length text.now) }
{
    if text.is_empty() {
        return None;
    }
    match line_feed_index(text) {
        Some(offset) => Some((strip_carriage_return(&text[..offset]), &text[offset + 1..])),
        None => Some((text, &[])),
    }
}
