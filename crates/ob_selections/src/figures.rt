//! The figures of a selection, and what one customer adds to them.
ghost use Rattle.std.specs.Prelude.{◌≡◌, ℕ, ◌<◌, ◌+◌, ◌*◌, ◌^◌, if◌then◌else◌, length, nat_le, slice_index};
ghost use Rattle.ob_selections.specs.Sums.{at_least};

use ob_index::Counts;

/// The counts of a selection, and what its indices are over.
#[derive(Clone, Copy)]
pub struct Figures {
    /// The counts of its interruptions.
    pub counts: Counts,
    /// The customer-seconds in service of its customers on its days.
    pub served: u64,
    /// The seconds of its days.
    pub length: u64,
}

/// What one customer adds to the figures of a selection.
#[derive(Clone, Copy)]
pub struct Tally {
    /// Sustained interruptions.
    pub sustained: u64,
    /// Seconds of the sustained interruptions.
    pub seconds: u64,
    /// Momentary interruptions.
    pub momentary: u64,
    /// Seconds in service.
    pub served: u64,
}

/// Adds a tally to the figures, once for each of `customers` customers.
pub fn add(figures: &mut Figures, tally: &Tally, customers: u64)
    requires sustained { figures.old.counts.ci + customers * tally.now.sustained < 2 ^ 64 }
    requires seconds { figures.old.counts.csi + customers * tally.now.seconds < 2 ^ 64 }
    requires momentary { figures.old.counts.mi + customers * tally.now.momentary < 2 ^ 64 }
    requires customers { figures.old.counts.cn + customers < 2 ^ 64 }
    requires each { (k : ℕ) → k < 10 → slice_index figures.old.counts.cn_n k + customers < 2 ^ 64 }
    requires served { figures.old.served + customers * tally.now.served < 2 ^ 64 }
    ensures sustained { figures.new.counts.ci ≡ figures.old.counts.ci
        + customers * tally.now.sustained }
    ensures seconds { figures.new.counts.csi ≡ figures.old.counts.csi
        + customers * tally.now.seconds }
    ensures momentary { figures.new.counts.mi ≡ figures.old.counts.mi
        + customers * tally.now.momentary }
    ensures customers { figures.new.counts.cn ≡ figures.old.counts.cn
        + customers * at_least 1 tally.now }
    ensures places { length figures.new.counts.cn_n ≡ length figures.old.counts.cn_n }
    ensures each { (k : ℕ) → k < 10 → slice_index figures.new.counts.cn_n k
        ≡ slice_index figures.old.counts.cn_n k + customers * at_least (1 + k) tally.now }
    ensures served { figures.new.served ≡ figures.old.served + customers * tally.now.served }
    ensures length { figures.new.length ≡ figures.old.length }
{
    figures.counts.ci += customers * tally.sustained;
    figures.counts.csi += customers * tally.seconds;
    figures.counts.mi += customers * tally.momentary;
    figures.served += customers * tally.served;
    if tally.sustained >= 1 {
        figures.counts.cn += customers;
    }
    add_customers(&mut figures.counts.cn_n, tally.sustained, customers);
}

// Adds `customers` customers with `sustained` interruptions each: place k counts customers with 1 +
// k or more.
fn add_customers(places: &mut [u64; 10], sustained: u64, customers: u64)
    requires { (k : ℕ) → k < 10 → slice_index places.old k + customers < 2 ^ 64 }
    ensures places { length places.new ≡ length places.old }
    ensures each { (k : ℕ) → k < 10 → slice_index places.new k
        ≡ slice_index places.old k + (if nat_le (1 + k) sustained then customers else 0) }
{
    for place in 0..10 {
        if sustained > place as u64 {
            places[place] += customers;
        }
    }
}
