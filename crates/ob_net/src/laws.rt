//! The laws of the supply test, for proofs that call them. They do nothing when they run.
ghost use Rattle.std.specs.Prelude.{◌↔◌, ℕ, List, IsTrue};
ghost use Rattle.ob_net.specs.Apart.{ApartLaw};
ghost use Rattle.ob_net.specs.CutOff.{CutOffLaw, JoinedLaw, StaysCutOffLaw, StaysJoinedLaw};
ghost use Rattle.ob_base.specs.declared.Pos.{Pos as APos};
ghost use Rattle.ob_net.specs.declared.net.Device.{Device as ADevice};
ghost use Rattle.ob_net.specs.Network.{Network};
ghost use Rattle.ob_net.specs.Walk.{is_connected, is_supplied, IsSupplied, LeadsTo};

/// States what the supply test of the contracts tests, for each network and all positions: that
/// some walk of closed devices, in either direction and of any length, leads from the node to GRID.
/// The test under it says of two nodes whether some walk over the listed devices joins them.
pub fn walk_law()
    ensures supplied { (net : Network) (positions : List APos) (v : ℕ)
        → IsTrue (is_supplied net positions v) ↔ IsSupplied net positions v }
    ensures connected { (closed : List ADevice) (v w : ℕ)
        → IsTrue (is_connected closed v w) ↔ ((walk : List ℕ) × LeadsTo closed v walk w) }
{}

/// States the law of a set of nodes that closed devices join to no other node but GRID: whether a
/// node of the set is supplied depends on the devices with an end in the set alone, and whether any
/// other node is supplied depends on the other devices alone.
pub fn apart_law()
    ensures { ApartLaw }
{}

/// States what a device cuts off: the nodes that other closed devices connect to an end of it, if
/// neither GRID nor its other end is one of them. They are supplied through the device alone, and no
/// other node's supply depends on its position. They are cut off until another device at one of
/// them is moved.
pub fn cut_off_law()
    ensures supply { CutOffLaw }
    ensures stays { StaysCutOffLaw }
{}

/// States when a device cuts nothing off: where other closed devices connect its two ends, no node's
/// supply depends on its position. They connect them until one of the devices between the nodes of
/// the way is opened.
pub fn joined_law()
    ensures supply { JoinedLaw }
    ensures stays { StaysJoinedLaw }
{}
