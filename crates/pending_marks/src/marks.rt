//! The marks.

ghost use Rattle.std.specs.Prelude.{◌≡◌, true, IfSome, OnOk, OnErr, MatchOption};
ghost use Rattle.std.specs.FinSet as set_of;
ghost use Rattle.std.specs.declared.cmp.Ordering.TheVariants.{Less};
ghost use Rattle.rcp_base.specs.IpPrefix.{prefix_cmp};
ghost use Rattle.rcp_model.specs.Assigned.{IsLeast};
ghost use Rattle.pending_marks.specs.Marks.{no_marks, is_opened, is_marked};

use crate::flags::{first_from, flag, raise_flag, set_flag};
use rcp_base::{NoMemory, Prefix};
use std::alloc::Global;
use std::collections::BTreeMap;
use std::marker::Model;

/// The opened prefixes, and which of them are marked. Contracts see both sets.
///
/// A prefix once opened stays so. No marked prefix is below `low`, so that to mark a prefix, and to take the least one
/// where prefixes are taken as they rise, passes no other twice.
#[derive(Debug, Drop)]
pub struct PendingMarks {
    flags: BTreeMap<Prefix, bool>,
    count: u64,
    low: Option<Prefix>,
}

impl Model for PendingMarks {
    ghost use Rattle.pending_marks.specs.Marks.{MarksOf, marks_code};

    ghost Value = { MarksOf };

    ghost coded = { marks_code };

    ghost use Rattle.pending_marks.specs.Marks.{opened_in, marked_in, AreMarks};

    ghost view = { λ m. record { opened = opened_in m.flags; marked = marked_in m.flags } };

    ghost invariant = { λ m. AreMarks m.flags m.count m.low };
}

impl PendingMarks {
    /// No prefix is opened. It takes no memory.
    pub fn new(alloc: Global) -> PendingMarks
        ensures { result ≡ no_marks }
    {
        PendingMarks {
            flags: BTreeMap::new(alloc),
            count: 0,
            low: None,
        }
    }

    /// Opens a prefix, which isn't marked then. Nothing changes where it is opened already.
    ///
    /// `NoMemory` comes where there was no room, and leaves the marks as they were. It takes about the logarithm of the number of opened
    /// prefixes.
    pub fn open(&mut self, p: Prefix) -> Result<(), NoMemory>
        ensures ok { OnOk result (self.new ≡ record self.old { opened = set_of.insert self.old.opened p }) }
        ensures err { OnErr result (self.new ≡ self.old) }
    {
        if self.flags.contains_key(&p) {
            return Ok(());
        }
        let Ok(_before) = self.flags.insert(p, false) else {
            return Err(NoMemory);
        };
        Ok(())
    }

    /// Whether a prefix is opened.
    pub fn is_opened(&self, p: Prefix) -> bool
        ensures { result ≡ is_opened self.now p }
    {
        self.flags.contains_key(&p)
    }

    /// Marks an opened prefix. Nothing changes where it is marked already. It takes no memory, and one look-up.
    pub fn mark(&mut self, p: Prefix)
        requires { is_opened self.old p ≡ true }
        ensures { self.new ≡ record self.old { marked = set_of.insert self.old.marked p } }
    {
        // There are no more marks than prefixes, which are counted.
        let _opened = self.flags.len();
        if !raise_flag(&mut self.flags, p) {
            return;
        }
        self.count += 1;
        self.low = Some(lower_of(self.low, p));
    }

    /// How many prefixes are marked.
    pub fn count(&self) -> u64
        ensures { result ≡ set_of.len self.now.marked }
    {
        self.count
    }

    /// Whether a prefix is marked.
    pub fn is_marked(&self, p: Prefix) -> bool
        ensures { result ≡ is_marked self.now p }
    {
        flag(&self.flags, p)
    }

    /// The least marked prefix, None exactly where none is marked. It goes over the opened prefixes from the last one that was
    /// taken, or was marked below it.
    pub fn least(&self) -> Option<Prefix>
        ensures { IsLeast (λ p. is_marked self.now p ≡ true) result }
    {
        match self.low {
            Some(low) => first_from(&self.flags, low),
            None => None,
        }
    }

    /// The least marked prefix, which isn't marked then. None exactly where none is marked.
    ///
    /// It takes no memory. It goes over the opened prefixes from the last one that was taken, or was marked below it: all of them
    /// at worst, and each once where all that are marked are taken one after another.
    pub fn take_least(&mut self) -> Option<Prefix>
        ensures least { IsLeast (λ p. is_marked self.old p ≡ true) result }
        ensures taken { MatchOption result (self.new ≡ self.old) (λ p. self.new
            ≡ record self.old { marked = set_of.remove self.old.marked p }) }
    {
        let p = self.least()?;
        set_flag(&mut self.flags, p, false);
        self.count -= 1;
        self.low = Some(p);
        Some(p)
    }
}

/// The lower of a prefix and another, where there is another.
fn lower_of(low: Option<Prefix>, p: Prefix) -> Prefix
    ensures first { IfSome low (λ l. prefix_cmp l result ≡ Less → ⊥) }
    ensures second { prefix_cmp p result ≡ Less → ⊥ }
{
    match low {
        Some(low) if low < p => low,
        _ => p,
    }
}
