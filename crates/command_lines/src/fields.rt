ghost use Rattle.std.specs.Prelude.{◌≡◌, position, option_map};
ghost use Rattle.wf_reader.specs.Job.{is_space};
ghost use Rattle.command_lines.specs.Fields.{at_space, three_fields};

fn space_index(text: &[u8]) -> Option<usize>
    ensures { result ≡ position is_space text.now }
{
    text.iter().position(|b| *b == b' ')
}

/// Splits a text at its first space, which is in neither part.
pub fn at_space(text: &[u8]) -> Option<(&[u8], &[u8])>
    ensures { option_map (λ p. (p.0.now, p.1.now)) result ≡ at_space text.now }
{
    match space_index(text) {
        Some(offset) => Some((&text[..offset], &text[offset + 1..])),
        None => None,
    }
}

/// Splits a text at its first two spaces. The third field is everything after the second one.
pub fn three_fields(text: &[u8]) -> Option<(&[u8], &[u8], &[u8])>
    ensures { option_map (λ f. (f.0.now, f.1.now, f.2.now)) result ≡ three_fields text.now }
{
    match at_space(text) {
        Some((first, rest)) => match at_space(rest) {
            Some((second, third)) => Some((first, second, third)),
            None => None,
        },
        None => None,
    }
}
