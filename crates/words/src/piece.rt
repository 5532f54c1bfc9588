// The first piece of a text, and what follows it.
ghost use Rattle.std.specs.Prelude.{◌≡◌, ◌==◌, option_map, position, take};
ghost use Rattle.words.specs.Pieces.{before, beyond};

// What stands before the first `end` and, if there is one, after it.
#[tactic(auto, using(crate::proofs::Pieces::found_or_end, crate::proofs::Pieces::before_within))]
pub fn cut(text: &[u8], end: u8) -> (&[u8], Option<&[u8]>)
    ensures first { result.0.now ≡ take (before end text.now) text.now }
    ensures others { option_map (λ rest. rest.now) result.1 ≡ beyond end text.now }
{
    let at = place(text, end).unwrap_or(text.len());
    (&text[..at], text.get(at + 1..))
}

fn place(text: &[u8], end: u8) -> Option<usize>
    ensures answer { result ≡ position (λ byte. byte == end) text.now }
{
    text.iter().position(|byte| *byte == end)
}
