ghost use Rattle.std.specs.Prelude.{◌≡◌, ◌<◌};
ghost use Rattle.std.specs.Option.{option_map};
ghost use Rattle.fal_script.specs.Lines.{Cuts, EndsAt};

// The place of the first line feed.
fn line_end(bytes: &[u8]) -> Option<usize>
    ensures { EndsAt bytes.now result }
{
    for (at, b) in bytes.iter().enumerate() {
        if *b == b'\n' {
            return Some(at);
        }
    }
    None
}

/// The first line, and the bytes after its line feed or after all. None where there is no byte left.
pub fn cut(bytes: &[u8]) -> Option<(&[u8], &[u8])>
    ensures { Cuts bytes.now (option_map (λ p. (p.0.now, p.1.now)) result) }
{
    if bytes.is_empty() {
        return None;
    }
    match line_end(bytes) {
        Some(at) => {
            let (line, rest) = bytes.split_at(at);
            let (_, rest) = rest.split_at(1);
            Some((line, rest))
        }
        None => Some(bytes.split_at(bytes.len())),
    }
}
