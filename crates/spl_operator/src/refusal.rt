//! Refusals in words.

// The number of a refusal, where an answer is one.
fn number_in(answer: &[u8]) -> Option<u32> {
    let rest = answer.strip_prefix(b"refused ")?;
    let mut number = 0u32;
    for byte in rest {
        if !byte.is_ascii_digit() {
            break;
        }
        let digit = u32::from(*byte - b'0');
        number = number.saturating_mul(10).saturating_add(digit);
    }
    Some(number)
}

// What a number says (docs/RULES.md, Answers).
fn words_of(number: u32) -> Option<&'static str> {
    match number {
        2 => Some("the node has no such circuit"),
        3 => Some("a rule of definitions is broken"),
        4 => Some("the proposing node isn't a member"),
        5 => Some("the generation isn't above the last one"),
        6 => Some("the node has the circuit already"),
        7 => Some("an act of this node is pending"),
        8 => Some("nothing is proposed"),
        9 => Some("this node has accepted already"),
        10 => Some("this node didn't propose it"),
        11 => Some("the circuit doesn't run here; for disband, it isn't active"),
        12 => Some("the node has abandoned the circuit"),
        13 => Some("a rule of batches is broken"),
        14 => Some("another batch has this id"),
        15 => Some("64 batches are pending here"),
        16 => Some("the circuit can't be purged yet"),
        18 => Some("the message isn't routed"),
        19 => Some("the batch is nowhere here"),
        20 => Some("a circuit of version 1 can't be disbanded"),
        _ => None,
    }
}

/// What an answer says in words, where it is a refusal that has some.
pub(crate) fn refusal_of(answer: &[u8]) -> Option<&'static str> {
    words_of(number_in(answer)?)
}
