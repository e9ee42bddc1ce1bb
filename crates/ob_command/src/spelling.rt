//! Reading single fields in either spelling. What a row may spell in several ways has exactly one
//! spelling in a body text.
ghost use Rattle.std.specs.Prelude.{◌≡◌};
ghost use Rattle.ob_base.specs.Fields.{cause_in, feeder_in, serial_in, unix_second_in};
ghost use Rattle.ob_command.specs.Spellings.{end_as, start_as, is_misspelled, leads_zero, number_as, no_end, IsMomentAs};
ghost use Rattle.ob_command.specs.declared.spelling.Spelling.TheVariants.{Body};

use crate::{CauseCode, FeederNumber, Moment, Serial};
use ob_base::read_unix_second;

/// How the fields of a command are spelled.
#[derive(Clone, Copy)]
pub(crate) enum Spelling {
    /// As in a row or a JSON member: numbers may have leading zeros, and a moment is Unix seconds
    /// or a civil moment. An empty field means no end of a service or an in-service interval, or a
    /// beginning of an in-service interval at 0.
    Free,
    /// As in a body text: numbers have no leading zeros, a moment is Unix seconds, and `-` means no
    /// end of a service or an in-service interval.
    Body,
}

impl Spelling {
    pub(crate) fn read_code(self, text: &[u8]) -> Option<CauseCode>
        ensures { result ≡ number_as self cause_in text.now }
    {
        if self.is_misspelled(text) {
            return None;
        }
        CauseCode::read(text)
    }

    pub(crate) fn read_feeder(self, text: &[u8]) -> Option<FeederNumber>
        ensures { result ≡ number_as self feeder_in text.now }
    {
        if self.is_misspelled(text) {
            return None;
        }
        FeederNumber::read(text)
    }

    pub(crate) fn read_serial(self, text: &[u8]) -> Option<Serial>
        ensures { result ≡ number_as self serial_in text.now }
    {
        if self.is_misspelled(text) {
            return None;
        }
        Serial::read(text)
    }

    pub(crate) fn read_moment(self, text: &[u8]) -> Option<Moment>
        ensures { IsMomentAs self text.now result }
    {
        match self {
            Spelling::Free => Moment::read(text),
            Spelling::Body => read_plain_second(text),
        }
    }

    /// The beginning of an in-service interval from a text; `moment` is the same text read as a
    /// moment. If the text may be empty and is, the beginning is 0.
    pub(crate) fn start_of(self, text: &[u8], moment: Option<Moment>) -> Option<Moment>
        ensures { result ≡ start_as self text.now moment }
    {
        match self {
            Spelling::Free => {
                if text.is_empty() {
                    return Moment::new(0);
                }
                moment
            }
            Spelling::Body => moment,
        }
    }

    /// The end of a service or an in-service interval from a text; `moment` is the same text read
    /// as a moment.
    pub(crate) fn end_of(self, text: &[u8], moment: Option<Moment>) -> Option<Option<Moment>>
        ensures { result ≡ end_as self text.now moment }
    {
        if text == self.no_end() {
            return Some(None);
        }
        match moment {
            Some(moment) => Some(Some(moment)),
            None => None,
        }
    }

    fn no_end(self) -> &'static [u8]
        ensures { result.now ≡ no_end self }
    {
        match self {
            Spelling::Free => b"",
            Spelling::Body => b"-",
        }
    }

    // Whether this is a body text and the number has leading zeros.
    fn is_misspelled(self, text: &[u8]) -> bool
        ensures { result ≡ is_misspelled self text.now }
    {
        match self {
            Spelling::Free => false,
            Spelling::Body => leads_zero(text),
        }
    }
}

// Reads a moment as Unix seconds without leading zeros.
fn read_plain_second(text: &[u8]) -> Option<Moment>
    ensures { result ≡ number_as Body unix_second_in text.now }
{
    if leads_zero(text) {
        return None;
    }
    Moment::new(read_unix_second(text)?)
}

fn leads_zero(text: &[u8]) -> bool
    ensures { result ≡ leads_zero text.now }
{
    text.len() > 1 && text[0] == b'0'
}
