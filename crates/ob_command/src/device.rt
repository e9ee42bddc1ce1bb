//! Devices in commands.
ghost use Rattle.std.specs.Prelude.{◌≡◌};
ghost use Rattle.ob_command.specs.Commands.{IsService};
ghost use Rattle.ob_command.specs.Devices.{device_between, is_plain, plain_end, PlainDevicesEnd};

use crate::{Ends, Service};
use ob_base::{Name, Pos};
use ob_net::Device;

/// A switching device as a command describes it.
#[derive(Clone, Copy)]
pub struct NewDevice {
    pub name: Name,
    pub ends: Ends,
    pub normal: Pos,
    pub life: Service,
}

impl NewDevice {
    /// The device between the nodes with these numbers.
    pub fn between(&self, a: u16, b: u16) -> Device
        ensures device { result ≡ device_between self.now a b }
        ensures range { IsService self.now.life }
    {
        Device {
            name: self.name,
            a,
            b,
            normal: self.normal,
            life: self.life.life(),
        }
    }

    /// Whether the device has the whole life: it is in service from the first second on, without
    /// end.
    pub fn is_plain(&self) -> bool
        ensures { result ≡ is_plain self.now }
    {
        self.life.since.second() == 0 && self.life.until.is_none()
    }
}

/// The end of a plain device's body text, after its normal position.
pub fn plain_end() -> &'static [u8]
    ensures { result.now ≡ plain_end }
{
    b" 0 -"
}

/// States that the body text of a plain device consists of its kind and its fields up to the normal
/// position, joined by one space, and then `plain_end`. This function does nothing when it runs.
pub fn plain_law()
    ensures { PlainDevicesEnd }
{}
