//! The kinds of command, by their names.
ghost use Rattle.std.specs.Prelude.{◌≡◌};
ghost use Rattle.ob_command.specs.Fields.{kind_in};

/// The kinds of command.
#[derive(Clone, Copy)]
pub(crate) enum Kind {
    Cause,
    Bus,
    Section,
    Device,
    Life,
    Connect,
    Revise,
    Switch,
    Correct,
    Withdraw,
    Mark,
    Unmark,
}

impl Kind {
    /// Reads the name of a kind; `None` for any other text.
    pub(crate) fn read(text: &[u8]) -> Option<Self>
        ensures { result ≡ kind_in text.now }
    {
        if text == b"cause".as_slice() {
            Some(Kind::Cause)
        } else if text == b"bus".as_slice() {
            Some(Kind::Bus)
        } else if text == b"section".as_slice() {
            Some(Kind::Section)
        } else if text == b"device".as_slice() {
            Some(Kind::Device)
        } else if text == b"life".as_slice() {
            Some(Kind::Life)
        } else if text == b"connect".as_slice() {
            Some(Kind::Connect)
        } else if text == b"revise".as_slice() {
            Some(Kind::Revise)
        } else if text == b"switch".as_slice() {
            Some(Kind::Switch)
        } else if text == b"correct".as_slice() {
            Some(Kind::Correct)
        } else if text == b"withdraw".as_slice() {
            Some(Kind::Withdraw)
        } else if text == b"mark".as_slice() {
            Some(Kind::Mark)
        } else if text == b"unmark".as_slice() {
            Some(Kind::Unmark)
        } else {
            None
        }
    }
}
