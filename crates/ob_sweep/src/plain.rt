//! Which changes of a switching log are planned by what their device cuts off.
ghost use Rattle.std.specs.Prelude.{◌<◌, IsTrue, length};
ghost use Rattle.ob_sweep.specs.Plain.{IsPlain};

use ob_base::Second;
use ob_net::Net;

/// Whether a device joins two sections, and no in-service interval begins or ends behind `first`
/// and before `end`.
pub fn is_plain(net: &Net, device: u16, first: Second, end: Second) -> bool
    requires device { device < length net.now.network.devices }
    requires some { first < end }
    ensures { IsTrue result → IsPlain net.now.network device first end }
{
    let (a, b) = net.nodes_of(device);
    let joins_sections = net.feeder_of(a).is_some() && net.feeder_of(b).is_some();
    joins_sections && net.next_turn(first, end) == end
}
