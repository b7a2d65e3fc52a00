//! Marks on the slots that are tied.

ghost use Rattle.std.specs.Prelude.{◌≡◌, ◌≢◌, ◌<◌, true, false, length, replicate, slice_set, All, AllPairs, IfOk, MatchOption};
ghost use Rattle.rcp_model.specs.Decision.{goes_before};
ghost use Rattle.egress_rank.specs.Egresses.{IsMarked, AreTiedOf};
ghost use Rattle.egress_rank.specs.Standings.{AreRanked, standing};

use decision::{Candidate, goes_before};
use rcp_base::NoMemory;
use std::alloc::Global;
use std::cmp::Reverse;
use std::marker::Model;

/// A mark for each member of a roster. Contracts see the list of marks.
///
/// Beside them it keeps room for a candidate of each member, so that `set` takes no memory.
#[derive(Debug, Drop)]
pub struct Marks {
    marks: Vec<bool>,
    ranked: Vec<Candidate>,
}

impl Model for Marks {
    ghost use Rattle.std.specs.Prelude.{◌≡◌, ◌≤◌, List, Bool, length};
    ghost use Rattle.std.specs.Vec.{vec_capacity};

    ghost Value = { List Bool };

    ghost view = { λ m. m.marks.items };

    ghost invariant = { λ m. length m.marks.items ≤ vec_capacity m.ranked };
}

impl Marks {
    /// Marks for so many members, none of which is marked. `NoMemory` comes where there was no room for them.
    pub fn new(alloc: Global, members: u16) -> Result<Marks, NoMemory>
        ensures { IfOk result (λ marks. marks ≡ replicate members false) }
    {
        let marks = vec![in alloc; false; members as usize]?;
        let ranked = Vec::with_capacity(alloc, members as usize)?;
        Ok(Marks { marks, ranked })
    }

    /// Marks exactly the slots of the candidates that the four filters leave of a list (RFC 4271 sections 9.1.1 and
    /// 9.1.2.2 a to c), and no others. The slots of the list are distinct, and each is a member's.
    ///
    /// It takes no memory. For N candidates it takes about N log N steps, and one for each member.
    pub fn set(&mut self, list: &[Candidate])
        requires distinct { AllPairs (λ a b. a.slot ≢ b.slot) list.now }
        requires members { All (λ a. a.slot < length self.old) list.now }
        ensures marked { AreTiedOf list.now (IsMarked self.new) }
        ensures each_member { length self.new ≡ length self.old }
    {
        self.ranked.clear();
        // There is room for each member, and so for the list.
        let _ = self.ranked.extend_from_slice(list);
        self.ranked.sort_unstable_by_key(standing);
        let marks = self.marks.as_mut_slice();
        unmark_all(marks);
        mark_tied(marks, self.ranked.as_slice());
    }

    /// The marks, one for each member.
    pub fn as_slice(&self) -> &[bool]
        ensures { result.now ≡ self.now }
    {
        self.marks.as_slice()
    }
}

/// What the filters compare of a candidate, in the order of the steps: the least goes first.
type Standing = (Reverse<u32>, u32, u8, u32, u32);

/// What the filters compare of a candidate.
fn standing(candidate: &Candidate) -> Standing
    ensures { result ≡ standing candidate.now }
{
    (
        Reverse(candidate.pref),
        candidate.hops,
        candidate.origin,
        candidate.neighbour,
        candidate.med,
    )
}

/// Marks the slot of a candidate.
fn mark(marks: &mut [bool], candidate: &Candidate)
    requires { candidate.now.slot < length marks.old }
    ensures { marks.new ≡ slice_set marks.old candidate.now.slot true }
{
    marks[candidate.slot.0 as usize] = true;
}

/// Marks none.
fn unmark_all(marks: &mut [bool])
    ensures { marks.new ≡ replicate (length marks.old) false }
{
    for mark in marks {
        *mark = false;
    }
}

/// Marks the slots of the tied ones of a list that is sorted by standing. No other is marked before.
///
/// The last one that was marked goes before a later one by the filters where any does.
fn mark_tied(marks: &mut [bool], ranked: &[Candidate])
    requires ranked { AreRanked ranked.now }
    requires members { All (λ a. a.slot < length marks.old) ranked.now }
    requires unmarked { marks.old ≡ replicate (length marks.old) false }
    ensures { AreTiedOf ranked.now (IsMarked marks.new) }
{
    let mut leader: Option<Candidate> = None;
    for candidate in ranked {
        if is_beaten(&leader, candidate) {
            continue;
        }
        mark(marks, candidate);
        leader = Some(*candidate);
    }
}

/// Whether the leader, where there is one, goes before a candidate.
fn is_beaten(leader: &Option<Candidate>, candidate: &Candidate) -> bool
    ensures { MatchOption leader.now (result ≡ false) (λ leader. result ≡ goes_before leader candidate.now) }
{
    match leader {
        Some(leader) => goes_before(leader, candidate),
        None => false,
    }
}
