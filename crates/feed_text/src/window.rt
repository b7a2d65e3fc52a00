//! The octets of a source that have been read and not used yet.

ghost use Rattle.std.specs.Prelude.{◌≡◌, ◌<◌, ◌≤◌, ◌+◌, [], take, drop, length, true, false, Ok, Some, IfOk, OnOk, OnErr, IfSome};
ghost use Rattle.outside.specs.Told.{Rose, NeverFalls, in_front};
ghost use Rattle.feed_text.specs.Windows.{Held, SameOctets, IsEmptyRest};

use outside::{Failed, Source};
use rcp_base::NoMemory;
use std::alloc::Global;
use std::marker::Model;

/// A buffer between a source and its reader. Contracts see the octets that it holds, and how many it can hold.
#[derive(Debug, Drop)]
pub struct Window {
    octets: Vec<u8>,
    start: usize,
    end: usize,
}

impl Model for Window {
    ghost use Rattle.std.specs.Prelude.{◌-◌, ◌≤◌, take, drop, length};
    ghost use Rattle.feed_text.specs.Windows.{Held};

    ghost Value = { Held };

    ghost view = { λ w. record { octets = take (w.end - w.start) (drop w.start w.octets.items); size = length w.octets.items } };

    ghost invariant = { λ w. (w.start ≤ w.end) × (w.end ≤ length w.octets.items) };
}

impl Window {
    /// An empty window that can hold so many octets.
    pub fn new(alloc: Global, size: usize) -> Result<Window, NoMemory>
        ensures { IfOk result (λ w. w ≡ record { octets = []; size = size }) }
    {
        let octets = vec![in alloc; 0; size]?;
        Ok(Window {
            octets,
            start: 0,
            end: 0,
        })
    }

    /// What it holds.
    pub fn held(&self) -> &[u8]
        ensures value { result.now ≡ self.now.octets }
        ensures fits { length result.now ≤ self.now.size }
    {
        &self.octets[self.start..self.end]
    }

    /// How many octets it holds.
    pub fn len(&self) -> usize
        ensures value { result ≡ length self.now.octets }
        ensures fits { result ≤ self.now.size }
    {
        self.end - self.start
    }

    /// Lets the first octets go.
    pub fn drop_front(&mut self, count: usize)
        requires { count ≤ length self.old.octets }
        ensures { self.new ≡ record { octets = drop count self.old.octets; size = self.old.size } }
    {
        self.start += count;
    }

    /// Reads further octets, as many as fit and come at once. False at the end of the input.
    pub fn fill<S: Source>(&mut self, source: &mut S) -> Result<bool, Failed>
        requires { length self.old.octets < self.old.size }
        ensures same { SameOctets self.old (S.left source.old) self.new (S.left source.new) }
        ensures size { self.new.size ≡ self.old.size }
        ensures more { result ≡ Ok true → length self.old.octets < length self.new.octets }
        ensures kept { result ≡ Ok false → self.new ≡ self.old }
        ensures end { result ≡ Ok false → IsEmptyRest (S.left source.new) }
        ensures cause { OnErr result (Rose (S.faults source.old) (S.faults source.new)) }
        ensures never_falls { NeverFalls (S.faults source.old) (S.faults source.new) }
    {
        let count = self.end - self.start;
        move_to_front(&mut self.octets, self.start, count);
        self.start = 0;
        self.end = count;
        let more = read_after(&mut self.octets, count, source)?;
        self.end = count + more;
        if more == 0 {
            return Ok(false);
        }
        Ok(true)
    }

    /// Reads until so many octets are there. False where the input ends before.
    pub fn fill_to<S: Source>(&mut self, source: &mut S, count: usize) -> Result<bool, Failed>
        requires { count ≤ self.old.size }
        ensures same { SameOctets self.old (S.left source.old) self.new (S.left source.new) }
        ensures size { self.new.size ≡ self.old.size }
        ensures enough { result ≡ Ok true → count ≤ length self.new.octets }
        ensures end { result ≡ Ok false → IsEmptyRest (S.left source.new) }
        ensures cause { OnErr result (Rose (S.faults source.old) (S.faults source.new)) }
        ensures never_falls { NeverFalls (S.faults source.old) (S.faults source.new) }
    {
        while self.len() < count {
            if !self.fill(source)? {
                return Ok(false);
            }
        }
        Ok(true)
    }
}

/// Moves so many octets from a place on to the front.
fn move_to_front(octets: &mut Vec<u8>, start: usize, count: usize)
    requires { start + count ≤ length octets.old.items }
    ensures front { take count octets.new.items ≡ take count (drop start octets.old.items) }
    ensures len { length octets.new.items ≡ length octets.old.items }
{
    octets.copy_within(start..start + count, 0);
}

/// Reads further octets after the first ones, as many as fit and come at once, and answers how many came.
fn read_after<S: Source>(octets: &mut [u8], count: usize, source: &mut S) -> Result<usize, Failed>
    requires { count < length octets.old }
    ensures within { IfOk result (λ more. count + more ≤ length octets.old) }
    ensures given { IfOk result (λ more. in_front (take count octets.old) (S.left source.old) ≡ in_front (take (count + more) octets.new) (S.left source.new)) }
    ensures kept { take count octets.new ≡ take count octets.old }
    ensures end { result ≡ Ok 0 → IsEmptyRest (S.left source.new) }
    ensures failed { OnErr result (S.left source.new ≡ S.left source.old) }
    ensures cause { OnErr result (Rose (S.faults source.old) (S.faults source.new)) }
    ensures never_falls { NeverFalls (S.faults source.old) (S.faults source.new) }
{
    let (_, free) = octets.split_at_mut(count);
    match source.read(free) {
        Ok(more) => Ok(more),
        Err(failed) => Err(failed),
    }
}
