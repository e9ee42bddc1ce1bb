//! Services of sections in order, each once with the number of its customers, and running sums.
ghost use Rattle.std.specs.Prelude.{◌≡◌, ◌<◌, ◌≤◌, ◌+◌, ◌*◌, ◌^◌, ℕ, Option, true, false, nat_lt, nat_le, length, take, slice_index_or, IfOk, IfErr};
ghost use Rattle.std.specs.List.{AllWithin};
ghost use Rattle.std.specs.Vec.{vec_capacity};
ghost use Rattle.std.specs.declared.cmp.Ordering.TheVariants.{Less, Greater};
ghost use Rattle.ob_cust.specs.Services.{key, key_cmp, begins_before as is_begun, sum_of, customers_of, AreServices, IsServices, IsBefore, IsBeforeAt};

use crate::{Block, MOST_CUSTOMERS, SectionBlock};
use ob_base::Second;
use std::alloc::{AllocError, Global};
use std::marker::Model;

// Sums over the blocks before a block in its section: the customers, and the first seconds of
// their services.
#[derive(Clone, Copy)]
struct Before {
    customers: u32,
    seconds: u128,
}

/// The services of customers, ordered by section, `since` and then `until`, where a service
/// without end comes first.
#[derive(Drop)]
pub struct Services {
    blocks: Vec<SectionBlock>,
    before: Vec<Before>,
}

impl Model for Services {
    ghost use Rattle.std.specs.Prelude.{min};
    ghost use Rattle.std.specs.Vec.{vec_capacity};
    ghost use Rattle.ob_cust.specs.Services.{ServicesState, IsServices};

    ghost Value = { ServicesState };

    ghost view = { λ s. record {
      blocks = s.blocks.items;
      capacity = min (vec_capacity s.blocks) (vec_capacity s.before);
    } };

    ghost invariant = { λ s. IsServices s.blocks.items s.before.items };
}

impl Services {
    ghost use Rattle.std.specs.Prelude.{◌≡◌, ◌<◌, ◌≤◌, ◌+◌, ◌==◌, ℕ, Option, None, [], length, map, OnOk, if◌then◌else◌};
    ghost use Rattle.std.specs.List.{All, AllPairs};
    ghost use Rattle.std.specs.Option.{option_map_or};
    ghost use Rattle.std.specs.declared.cmp.Ordering.TheVariants.{Less};
    ghost use Rattle.ob_cust.specs.Blocks.{service_cmp, service_of, sum_over_blocks};
    ghost use Rattle.ob_cust.specs.Services.{sum_of, customers_of, since_start};

    /// Makes an empty list of services.
    pub fn new(alloc: Global) -> Services
        ensures { result.blocks ≡ [] }
    {
        Services {
            blocks: Vec::new(alloc),
            before: Vec::new(alloc),
        }
    }

    /// Makes room for the services of this many customers.
    pub fn reserve(&mut self, customers: usize) -> Result<(), AllocError>
        ensures blocks { self.new.blocks ≡ self.old.blocks }
        ensures ok { OnOk result (customers ≤ self.new.capacity) }
        ensures capacity { self.old.capacity ≤ self.new.capacity }
    {
        self.blocks
            .reserve(customers.saturating_sub(self.blocks.len()))?;
        self.before
            .reserve(customers.saturating_sub(self.before.len()))
    }

    /// Counts one more customer with a service.
    pub fn add(&mut self, section: u16, since: Second, until: Option<Second>)
        requires room { customers_of self.old.blocks < self.old.capacity }
        requires few { customers_of self.old.blocks < 100_000 }
        ensures sums { (f : ℕ → ℕ → Option ℕ → ℕ) → sum_of f self.new.blocks
            ≡ sum_of f self.old.blocks + f section since until }
        ensures capacity { self.new.capacity ≡ self.old.capacity }
    {
        match place_of(&self.blocks, section, since, until) {
            Ok(place) => {
                let count = self.blocks[place].block.count + 1;
                recount(&mut self.blocks, &mut self.before, place, count);
            }
            Err(place) => put(
                &mut self.blocks,
                &mut self.before,
                place,
                SectionBlock {
                    section,
                    block: Block {
                        since,
                        until,
                        count: 1,
                    },
                },
            ),
        }
    }

    /// Counts one customer less with a service that is in the list.
    pub fn remove(&mut self, section: u16, since: Second, until: Option<Second>)
        requires there { (f : ℕ → ℕ → Option ℕ → ℕ)
            → f section since until ≤ sum_of f self.old.blocks }
        ensures sums { (f : ℕ → ℕ → Option ℕ → ℕ) → sum_of f self.new.blocks + f section since until
            ≡ sum_of f self.old.blocks }
        ensures capacity { self.new.capacity ≡ self.old.capacity }
    {
        // There is no block of such a service, so there is nothing to remove.
        let Ok(place) = place_of(&self.blocks, section, since, until) else {
            return;
        };
        let count = self.blocks[place].block.count;
        if count > 1 {
            recount(&mut self.blocks, &mut self.before, place, count - 1);
        } else {
            take_out(&mut self.blocks, &mut self.before, place);
        }
    }

    /// Counts one more customer with the service without end that begins at `end`, if `end` is
    /// given.
    pub fn add_end(&mut self, section: u16, end: Option<Second>)
        requires room { customers_of self.old.blocks < self.old.capacity }
        requires few { customers_of self.old.blocks < 100_000 }
        ensures sums { (f : ℕ → ℕ → Option ℕ → ℕ) → sum_of f self.new.blocks
            ≡ sum_of f self.old.blocks + option_map_or (λ since. f section since None) end 0 }
        ensures capacity { self.new.capacity ≡ self.old.capacity }
    {
        if let Some(since) = end {
            self.add(section, since, None);
        }
    }

    /// Counts one customer less with the service without end that begins at `end`, if `end` is
    /// given.
    pub fn remove_end(&mut self, section: u16, end: Option<Second>)
        requires there { (f : ℕ → ℕ → Option ℕ → ℕ)
            → option_map_or (λ since. f section since None) end 0 ≤ sum_of f self.old.blocks }
        ensures sums { (f : ℕ → ℕ → Option ℕ → ℕ) → sum_of f self.new.blocks + option_map_or
            (λ since. f section since None) end 0 ≡ sum_of f self.old.blocks }
        ensures capacity { self.new.capacity ≡ self.old.capacity }
    {
        if let Some(since) = end {
            self.remove(section, since, None);
        }
    }

    /// The services of a section.
    pub fn of_section(&self, section: u16) -> &[SectionBlock]
        ensures of_section { All (λ b. b.section ≡ section) result.now }
        ensures positive { All (λ b. 0 < b.block.count) result.now }
        ensures sums { (f : ℕ → Option ℕ → ℕ) → sum_over_blocks f (map (λ b. b.block) result.now)
            ≡ sum_of (λ s since until. if s == section then f since until else 0) self.now.blocks }
        ensures ordered { AllPairs (λ a b. service_cmp (service_of a.block) (service_of b.block)
            ≡ Less) result.now }
    {
        let first = first_of(&self.blocks, section);
        let end = end_of(&self.blocks, section);
        &self.blocks[first..end]
    }

    /// The seconds from the beginning of each service of the section up to `x`, summed over the
    /// customers.
    pub fn seconds_passed(&self, section: u16, x: Second) -> u128
        ensures { result ≡ sum_of (since_start section x) self.now.blocks }
    {
        let place = begun_before(&self.blocks, section, x);
        if place == 0 {
            return 0;
        }
        let last = self.blocks[place - 1];
        if last.section != section {
            return 0;
        }
        let sums = with_own(self.before[place - 1], last.block);
        sums.customers as u128 * x as u128 - sums.seconds
    }
}

// The place of the block of a service, as `Ok`; if missing, where it would be, as `Err`.
fn place_of(
    blocks: &[SectionBlock],
    section: u16,
    since: Second,
    until: Option<Second>,
) -> Result<usize, usize>
    requires { AreServices blocks.now }
    ensures found { IfOk result (λ p. p < length blocks.now) }
    ensures same { IfOk result (λ p. (d : SectionBlock)
        → key (slice_index_or blocks.now p d) ≡ (section, (since, until))) }
    ensures bound { IfErr result (λ p. p ≤ length blocks.now) }
    ensures below { IfErr result (λ p. AllWithin (λ b. key_cmp (key b) (section, (since, until))
        ≡ Less) blocks.now 0 p) }
    ensures above { IfErr result (λ p. AllWithin (λ b. key_cmp (key b) (section, (since, until))
        ≡ Greater) blocks.now p (length blocks.now)) }
{
    blocks.binary_search_by_key(&(section, (since, until)), |b| {
        (b.section, (b.block.since, b.block.until))
    })
}

// The place of the first block of this section or a later one.
fn first_of(blocks: &[SectionBlock], section: u16) -> usize
    requires { AreServices blocks.now }
    ensures bound { result ≤ length blocks.now }
    ensures below { AllWithin (λ b. b.section < section) blocks.now 0 result }
    ensures above { AllWithin (λ b. section ≤ b.section) blocks.now result (length blocks.now) }
{
    blocks.partition_point(
        |b: &SectionBlock| -> bool
            ensures { result ≡ nat_lt b.now.section section }
        { b.section < section },
    )
}

// The place of the first block of a later section.
fn end_of(blocks: &[SectionBlock], section: u16) -> usize
    requires { AreServices blocks.now }
    ensures bound { result ≤ length blocks.now }
    ensures below { AllWithin (λ b. b.section ≤ section) blocks.now 0 result }
    ensures above { AllWithin (λ b. section < b.section) blocks.now result (length blocks.now) }
{
    blocks.partition_point(
        |b: &SectionBlock| -> bool
            ensures { result ≡ nat_le b.now.section section }
        { b.section <= section },
    )
}

// How many blocks belong to an earlier section, or to this one and begin before `x`.
fn begun_before(blocks: &[SectionBlock], section: u16, x: Second) -> usize
    requires { AreServices blocks.now }
    ensures bound { result ≤ length blocks.now }
    ensures below { AllWithin (λ b. is_begun section x b ≡ true) blocks.now 0 result }
    ensures above { AllWithin (λ b. is_begun section x b ≡ false) blocks.now result
        (length blocks.now) }
{
    blocks.partition_point(
        |b: &SectionBlock| -> bool
            ensures { result ≡ is_begun section x b.now }
        { b.section < section || b.section == section && b.block.since < x },
    )
}

// Changes the count of a block.
fn recount(blocks: &mut Vec<SectionBlock>, before: &mut Vec<Before>, place: usize, count: u32)
    requires services { IsServices blocks.old.items before.old.items }
    requires place { place < length blocks.old.items }
    requires positive { 0 < count }
    requires few { (d : SectionBlock) → customers_of blocks.old.items + count ≤ 100_000 +
        (slice_index_or blocks.old.items place d).block.count }
    ensures services { IsServices blocks.new.items before.new.items }
    ensures sums { (f : ℕ → ℕ → Option ℕ → ℕ) (d : SectionBlock)
        → let b = slice_index_or blocks.old.items place d in sum_of f blocks.new.items +
        b.block.count * f b.section b.block.since b.block.until
        ≡ sum_of f blocks.old.items + count * f b.section b.block.since b.block.until }
    ensures capacity { vec_capacity blocks.new ≡ vec_capacity blocks.old }
    ensures capacity_before { vec_capacity before.new ≡ vec_capacity before.old }
{
    let section = blocks[place].section;
    blocks[place].block.count = count;
    carry(blocks, before, section, place);
}

// Inserts a block at its place.
fn put(blocks: &mut Vec<SectionBlock>, before: &mut Vec<Before>, place: usize, block: SectionBlock)
    requires services { IsServices blocks.old.items before.old.items }
    requires place { place ≤ length blocks.old.items }
    requires below { AllWithin (λ b. key_cmp (key b) (key block) ≡ Less) blocks.old.items 0 place }
    requires above { AllWithin (λ b. key_cmp (key b) (key block) ≡ Greater) blocks.old.items place
        (length blocks.old.items) }
    requires positive { 0 < block.block.count }
    requires few { customers_of blocks.old.items + block.block.count ≤ 100_000 }
    requires room { length blocks.old.items < vec_capacity blocks.old }
    requires room_before { length blocks.old.items < vec_capacity before.old }
    ensures services { IsServices blocks.new.items before.new.items }
    ensures sums { (f : ℕ → ℕ → Option ℕ → ℕ) → sum_of f blocks.new.items
        ≡ sum_of f blocks.old.items + block.block.count * f block.section block.block.since
        block.block.until }
    ensures capacity { vec_capacity blocks.new ≡ vec_capacity blocks.old }
    ensures capacity_before { vec_capacity before.new ≡ vec_capacity before.old }
{
    let none = Before {
        customers: 0,
        seconds: 0,
    };
    match (blocks.insert(place, block), before.insert(place, none)) {
        (Ok(()), Ok(())) => carry(blocks, before, block.section, place),
        // Both lists have room for one more, so `insert` needs no memory.
        _ => unreachable!(),
    }
}

// Removes a block.
fn take_out(blocks: &mut Vec<SectionBlock>, before: &mut Vec<Before>, place: usize)
    requires services { IsServices blocks.old.items before.old.items }
    requires place { place < length blocks.old.items }
    ensures services { IsServices blocks.new.items before.new.items }
    ensures sums { (f : ℕ → ℕ → Option ℕ → ℕ) (d : SectionBlock)
        → let b = slice_index_or blocks.old.items place d in sum_of f blocks.new.items +
        b.block.count * f b.section b.block.since b.block.until ≡ sum_of f blocks.old.items }
    ensures capacity { vec_capacity blocks.new ≡ vec_capacity blocks.old }
    ensures capacity_before { vec_capacity before.new ≡ vec_capacity before.old }
{
    let section = blocks.remove(place).section;
    before.remove(place);
    carry(blocks, before, section, place);
}

// Recomputes the running sums from a place to the end of the section.
fn carry(blocks: &[SectionBlock], before: &mut [Before], section: u16, place: usize)
    requires services { AreServices blocks.now }
    requires len { length before.old ≡ length blocks.now }
    requires front { (k : ℕ) → k < place → k < length blocks.now
        → IsBeforeAt blocks.now before.old k }
    requires from { AllWithin (λ b. section ≤ b.section) blocks.now place (length blocks.now) }
    requires later { (k : ℕ) (d : SectionBlock) → place ≤ k → k < length blocks.now
        → section < (slice_index_or blocks.now k d).section → IsBeforeAt blocks.now before.old k }
    ensures services { IsServices blocks.now before.new }
{
    for at in place..blocks.len() {
        if blocks[at].section != section {
            return;
        }
        before[at] = sums_at(blocks, before, at);
    }
}

// The running sums at a place, from those at the place before it.
fn sums_at(blocks: &[SectionBlock], before: &[Before], at: usize) -> Before
    requires services { AreServices blocks.now }
    requires len { length before.now ≡ length blocks.now }
    requires at { at < length blocks.now }
    requires front { (k : ℕ) → k < at → IsBeforeAt blocks.now before.now k }
    ensures { (d : SectionBlock) → IsBefore (slice_index_or blocks.now at d).section
        (take at blocks.now) result }
{
    if at == 0 || blocks[at - 1].section != blocks[at].section {
        return Before {
            customers: 0,
            seconds: 0,
        };
    }
    with_own(before[at - 1], blocks[at - 1].block)
}

// The running sums with those of a block added.
fn with_own(before: Before, block: Block) -> Before
    requires few { before.customers + block.count ≤ 100_000 }
    requires small { before.seconds + block.count * block.since < 2 ^ 128 }
    ensures customers { result.customers ≡ before.customers + block.count }
    ensures seconds { result.seconds ≡ before.seconds + block.count * block.since }
{
    Before {
        customers: before.customers + block.count,
        seconds: before.seconds + block.count as u128 * block.since as u128,
    }
}
