//! Services of customers and in-service intervals of devices in commands.
ghost use Rattle.std.specs.Prelude.{◌≡◌};
ghost use Rattle.ob_base.specs.Life.{life};
ghost use Rattle.ob_command.specs.Commands.{IsEnd, IsService};

use crate::Moment;
use ob_base::{Life, Second};

/// The seconds in which a customer is served or a device is in service: from `since` up to `until`,
/// `until` excluded; without end if `until` is `None`.
#[derive(Clone, Copy)]
pub struct Service {
    pub since: Moment,
    pub until: Option<Moment>,
}

impl Service {
    /// The end as a second; `None` if there is no end.
    pub fn end(self) -> Option<Second>
        ensures value { result ≡ self.until }
        ensures range { IsEnd self.until }
    {
        match self.until {
            Some(until) => Some(until.second()),
            None => None,
        }
    }

    /// The same interval as a `Life`, in seconds.
    pub fn life(self) -> Life
        ensures life { result ≡ life self.since self.until }
        ensures range { IsService self }
    {
        Life {
            since: self.since.second(),
            until: self.end(),
        }
    }
}
