ghost use Rattle.std.specs.Prelude.{◌≡◌, ◌==◌, position};
ghost use Rattle.std.specs.Str.Lines.{strip_carriage_return};

/// The line without a single carriage return at its end.
pub fn strip_carriage_return(line: &[u8]) -> &[u8]
    ensures { result.now ≡ strip_carriage_return line.now }
{
    match line {
        [prefix @ .., b'\r'] => prefix,
        _ => line,
    }
}

/// The index of the first line feed of a text.
/// Promise (Bodies, plans and replies): A line ends where the definition says
/// By: `command_lines::{line_feed_index, strip_carriage_return}`
pub fn line_feed_index(text: &[u8]) -> Option<usize>
    ensures { result ≡ position (λ b. b == 10) text.now }
{
    text.iter().position(|b| *b == b'\n')
}
