ghost use Rattle.std.specs.Prelude.{◌≡◌, ◌<◌, [], ◌∷◌, length, IfSome, MatchOption};
ghost use Rattle.histories.specs.Tokens.{blank, tokens};
ghost use Rattle.histories.specs.Letters.{letter_of};

/// What is wrong with a token.
#[derive(Clone, Copy, PartialEq, Eq, Debug)]
pub enum TokenFault {
    /// It is a number that is not below the number of letters.
    NotBelow,
    /// It has another byte than digits.
    NoNumber,
}

/// A blank is a space, a tab or a carriage return.
fn is_blank(byte: u8) -> bool
    ensures { result ≡ blank byte }
{
    matches!(byte, b' ' | b'\t' | b'\r')
}

/// The first token of a text and what stands behind it, or none where there are only blanks.
pub(crate) fn next_token(text: &[u8]) -> Option<(&[u8], &[u8])>
    ensures cut { MatchOption result (tokens text.now ≡ []) (λ p. tokens text.now ≡ p.0.now ∷ tokens p.1.now) }
    ensures shorter { IfSome result (λ p. length p.1.now < length text.now) }
{
    let start = text.iter().position(|byte| !is_blank(*byte))?;
    let text = &text[start..];
    let end = text.iter().position(|byte| is_blank(*byte));
    Some(text.split_at(end.unwrap_or(text.len())))
}

/// The letter that a token writes.
pub(crate) fn read_letter(token: &[u8], letters: u8) -> Result<u8, TokenFault>
    ensures { result ≡ letter_of letters token.now }
{
    let mut value = 0u8;
    for byte in token {
        if !byte.is_ascii_digit() {
            return Err(TokenFault::NoNumber);
        }
        value = value.saturating_mul(10).saturating_add(*byte - b'0');
    }
    if value < letters {
        Ok(value)
    } else {
        Err(TokenFault::NotBelow)
    }
}
