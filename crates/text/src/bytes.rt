//! Cutting bytes at a mark.
ghost use Rattle.std.specs.Prelude.{◌≡◌, ◌==◌};
ghost use Rattle.std.specs.List.{position};
ghost use Rattle.text.specs.Cuts.{cut_at, held};

// The place of the first `mark`.
pub(crate) fn place(text: &[u8], mark: u8) -> Option<usize>
    ensures { result ≡ position (λ b. b == mark) text.now }
{
    text.iter().position(|b| *b == mark)
}

/// What stands before and after the first `mark`, if there is one.
#[tactic(auto, using(crate::proofs::CutLaws::cut_place, std::proofs::lemmas::List::take_rest))]
pub fn cut(text: &[u8], mark: u8) -> Option<(&[u8], &[u8])>
    ensures { held result ≡ cut_at mark text.now }
{
    let at = place(text, mark)?;
    Some((&text[..at], &text[at + 1..]))
}
