//! The number in front of an answer.
ghost use Rattle.std.specs.{Prelude.{◌≡◌, ◌≤◌, ◌==◌, length}, List.{list_all, position}};
ghost use Rattle.spl_base.specs.Ids.{is_digit};
ghost use Rattle.spl_words.specs.Words.{is_decimal};
ghost use Rattle.spl_explain.specs.Forms.{front, answer_of};

fn all_digits(bytes: &[u8]) -> bool
    ensures { result ≡ list_all is_digit bytes.now }
{
    bytes.iter().all(|b| b.is_ascii_digit())
}

/// Whether bytes are a number without leading zeros.
pub(crate) fn is_decimal(bytes: &[u8]) -> bool
    ensures { result ≡ is_decimal bytes.now }
{
    !bytes.is_empty() && all_digits(bytes) && (bytes.len() == 1 || bytes[0] != b'0')
}

fn place_of_space(bytes: &[u8]) -> Option<usize>
    ensures { result ≡ position (λ b. b == 32) bytes.now }
{
    bytes.iter().position(|b| *b == b' ')
}

/// How many bytes stand before the answer: the number of its line and a space, where there is one.
pub(crate) fn front(line: &[u8]) -> usize
    ensures value { result ≡ front line.now }
    ensures within { result ≤ length line.now }
{
    let Some(place) = place_of_space(line) else {
        return 0;
    };
    if is_decimal(&line[..place]) {
        return place + 1;
    }
    0
}

/// The answer of a line, without the number in front of it.
pub(crate) fn answer_of(line: &[u8]) -> &[u8]
    ensures { result.now ≡ answer_of line.now }
{
    &line[front(line)..]
}
