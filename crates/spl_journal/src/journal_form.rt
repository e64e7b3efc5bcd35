//! How journals are written.
ghost use Rattle.std.specs.{Prelude.{◌≡◌, nat_eq}, List.{find, starts_with}};
ghost use Rattle.spl_journal.specs.Records.{form_in, is_last, is_older};

use spl_base::LONGEST_RECORD;

/// How a journal is written: the number of the form, the bytes with which a journal begins, and how many bytes a record of
/// it has at most.
#[derive(Clone, Copy)]
pub struct JournalForm {
    pub(crate) number: u8,
    pub(crate) magic: [u8; 8],
    pub(crate) longest: usize,
}

/// The form in which journals are made.
pub const WRITTEN: JournalForm = JournalForm {
    number: 2,
    magic: *b"SPLJRN02",
    longest: LONGEST_RECORD,
};

/// How many bytes a record of the first form has at most.
pub const LONGEST_OLD_RECORD: usize = 16_384;

/// The first form. Journals of it are read.
pub const OLD: JournalForm = JournalForm {
    number: 1,
    magic: *b"SPLJRN01",
    longest: LONGEST_OLD_RECORD,
};

/// The forms in which journals are read.
pub const FORMS: [JournalForm; 2] = [WRITTEN, OLD];

impl JournalForm {
    /// Whether it comes before the form in which journals are made.
    pub(crate) fn is_older(&self) -> bool
        ensures { result ≡ is_older self.now }
    {
        self.number < WRITTEN.number
    }

    /// Whether a journal of it with this epoch can't be written again: it is of an older form, and there is no next epoch.
    pub(crate) fn is_last(&self, epoch: u64) -> bool
        ensures { result ≡ is_last self.now epoch }
    {
        self.is_older() && epoch == u64::MAX
    }
}

/// The first of some forms that begins as the bytes do.
fn first_form(forms: &[JournalForm], bytes: &[u8]) -> Option<JournalForm>
    ensures { result ≡ find (λ f. starts_with nat_eq bytes.now f.magic) forms.now }
{
    for form in forms {
        if bytes.starts_with(&form.magic) {
            return Some(*form);
        }
    }
    None
}

/// The form of the journal that begins with these bytes.
pub(crate) fn form_in(bytes: &[u8]) -> Option<JournalForm>
    ensures { result ≡ form_in bytes.now }
{
    first_form(&FORMS, bytes)
}
