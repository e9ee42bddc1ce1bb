//! Where the outage intervals of a section before and after a change differ.
ghost use Rattle.std.specs.Prelude.{◌≡◌, ◌++◌, ◌-◌, ◌≤◌, drop, length, take};

use ob_sweep::Run;

/// The comparison of an old and a new list of outage intervals: a common front, what lies between,
/// and a common back.
#[derive(Clone, Copy)]
pub struct Differing<'a> {
    /// The first intervals, which both lists have.
    pub front: &'a [Run],
    /// The intervals of the old list between front and back.
    pub taken: &'a [Run],
    /// The intervals of the new list between front and back.
    pub given: &'a [Run],
    /// The last intervals, which both lists have.
    pub back: &'a [Run],
}

/// Compares an old and a new list of outage intervals.
pub fn compare<'a>(old: &'a [Run], new: &'a [Run]) -> Differing<'a>
    ensures old { old.now ≡ result.front.now ++ (result.taken.now ++ result.back.now) }
    ensures new { new.now ≡ result.front.now ++ (result.given.now ++ result.back.now) }
{
    let (front, old) = old.split_at(common_front(old, new));
    let new = &new[front.len()..];
    let count = common_back(old, new);
    let (taken, back) = old.split_at(old.len() - count);
    Differing {
        front,
        taken,
        given: &new[..new.len() - count],
        back,
    }
}

// How many intervals two lists have in common at the front.
fn common_front(old: &[Run], new: &[Run]) -> usize
    ensures old { result ≤ length old.now }
    ensures new { result ≤ length new.now }
    ensures common { take result old.now ≡ take result new.now }
{
    let most = old.len().min(new.len());
    for count in 0..most {
        if old[count] != new[count] {
            return count;
        }
    }
    most
}

// How many intervals two lists have in common at the back.
fn common_back(old: &[Run], new: &[Run]) -> usize
    ensures old { result ≤ length old.now }
    ensures new { result ≤ length new.now }
    ensures common { drop (length old.now - result) old.now
        ≡ drop (length new.now - result) new.now }
{
    let most = old.len().min(new.len());
    for count in 0..most {
        if old[old.len() - 1 - count] != new[new.len() - 1 - count] {
            return count;
        }
    }
    most
}
