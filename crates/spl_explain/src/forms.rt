//! Forms of answers: words that stand for themselves, and fields, which stand for any word.
ghost use Rattle.std.specs.Prelude.{◌≡◌};
ghost use Rattle.spl_words.specs.Words.{split};
ghost use Rattle.spl_explain.specs.Forms.{marks_field, marks_rest, is_field, is_rest, fits_word, matches_form, row_of};

use crate::rows::Row;
use spl_base::is_text;
use spl_words::WordReader;

/// Whether a part that begins so is a field of one word.
pub(crate) fn marks_field(mark: u8) -> bool
    ensures { result ≡ marks_field mark }
{
    mark == b'#' || mark == b'$' || mark == b',' || mark == b'{' || mark == b'!'
}

fn marks_rest(mark: u8) -> bool
    ensures { result ≡ marks_rest mark }
{
    mark == b'*' || mark == b'+'
}

/// Whether a part of a form is a field of one word.
pub(crate) fn is_field(part: &[u8]) -> bool
    ensures { result ≡ is_field part.now }
{
    match part {
        [] => false,
        [mark, ..] => marks_field(*mark),
    }
}

/// Whether a part of a form is a field of all words that are left.
pub(crate) fn is_rest(part: &[u8]) -> bool
    ensures { result ≡ is_rest part.now }
{
    match part {
        [] => false,
        [mark, ..] => marks_rest(*mark),
    }
}

// Whether a word may stand in a part's place.
fn fits_word(part: &[u8], word: &[u8]) -> bool
    ensures { result ≡ fits_word part.now word.now }
{
    is_field(part) || is_text(part, word)
}

// Whether an answer has a form.
fn fits(form: &[u8], answer: &[u8]) -> bool
    ensures { result ≡ matches_form (split 32 form.now) (split 32 answer.now) }
{
    let mut parts = WordReader::new(form, b' ');
    let mut words = WordReader::new(answer, b' ');
    while let Some(part) = parts.next() {
        if is_rest(part) {
            return true;
        }
        let Some(word) = words.next() else {
            return false;
        };
        if !fits_word(part, word) {
            return false;
        }
    }
    words.next().is_none()
}

/// The first row whose form an answer has.
pub(crate) fn row_of(rows: &[Row], answer: &[u8]) -> Option<Row>
    ensures { result ≡ row_of rows.now answer.now }
{
    for row in rows {
        if fits(row.form, answer) {
            return Some(*row);
        }
    }
    None
}
