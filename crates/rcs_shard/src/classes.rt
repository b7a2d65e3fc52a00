//! Classes of slots: those that reach the same members, for which the same routes are tied.

ghost use Rattle.std.specs.Prelude.{◌≡◌, ℕ, ◌<◌, ◌≤◌, length, true};
ghost use Rattle.rcs_shard.specs.Settling.{class_at, ReachAlike, IsClass, AreClasses};

use cost_rows::View;
use rcp_base::Slot;
use rcp_model::Costs;

/// Finds the class of each slot anew. Where links go both ways, a class is a partition, by its least slot.
pub fn find_classes(view: &View, classes: &mut [Slot])
    requires { length classes.old ≡ length view.now.members }
    ensures { AreClasses view.now classes.new }
{
    for slot in 0..view.members().len() {
        classes[slot] = class_of(view, classes, slot as u16);
    }
}

/// The class of a slot, where those of the slots below it are known: the least slot that it reaches, where that reaches the
/// same members and is its own class. Else the slot itself.
fn class_of(view: &View, classes: &[Slot], slot: u16) -> Slot
    requires { slot < length classes.now }
    ensures low { result ≤ slot }
    ensures own { result < slot → class_at classes.now result ≡ result }
    ensures alike { ReachAlike view.now slot result }
{
    for least in 0..slot {
        if view.cost(Slot(slot), Slot(least)).is_some() {
            if classes[least as usize] == Slot(least) && reach_alike(view, slot, least) {
                return Slot(least);
            }
            return Slot(slot);
        }
    }
    Slot(slot)
}

/// Whether two slots reach the same members.
fn reach_alike(view: &View, a: u16, b: u16) -> bool
    ensures { result ≡ true → ReachAlike view.now a b }
{
    for to in 0..view.members().len() {
        let to = Slot(to as u16);
        if view.cost(Slot(a), to).is_some() != view.cost(Slot(b), to).is_some() {
            return false;
        }
    }
    true
}
