// Lines of octets.
ghost use Rattle.std.specs.Prelude.{◌≡◌, ◌++◌, ◌∷◌, MatchOption};
ghost use Rattle.plain_values.specs.Lines.{IsInLine};

/// A line without its LF, and what stands behind it.
#[derive(Drop)]
pub struct Cut<'t> {
    pub line: &'t [u8],
    pub behind: &'t [u8],
}

/// The first line, where there is one.
pub fn first_line<'t>(text: &'t [u8]) -> Option<Cut<'t>>
    ensures { MatchOption result (IsInLine text.now) (λ cut. (text.now ≡ cut.line.now ++ 10 ∷ cut.behind.now) × IsInLine cut.line.now) }
{
    let place = text.iter().position(|b| *b == b'\n')?;
    Some(Cut {
        line: &text[..place],
        behind: &text[place + 1..],
    })
}
