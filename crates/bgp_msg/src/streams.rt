//! Laws over whole streams. Each is the contract of a function that does nothing.

ghost use Rattle.std.specs.Prelude.{◌≡◌, ℕ, Some, List, ◌++◌};
ghost use Rattle.std.specs.List.{concat, AllByRecursion};
ghost use Rattle.rcp_model.specs.Messages.{messages_in, rest_of};
ghost use Rattle.rcp_model.specs.Sessions.{fault_in_front};
ghost use Rattle.bgp_msg.specs.Cutting.{Call, Reads, IsAtEnd, handed_messages, told_faults};

/// However octets are cut into pieces, and whenever `next` is called: those messages are handed out that are the octets'
/// one reading, in their order, and no others. At the end all were handed out, and the header fault that waits is that
/// of the octets' rest, if it has one. So two cuts of the same octets give the same messages and the same fault.
pub fn any_cut()
    ensures so_far { (pieces left : List (List ℕ)) (calls : List Call) (held : List ℕ) → Reads pieces calls held left
        → messages_in (concat pieces) ≡ handed_messages calls ++ messages_in (held ++ concat left) }
    ensures messages { (pieces left : List (List ℕ)) (calls : List Call) (held : List ℕ) → Reads pieces calls held left
        → IsAtEnd held left → handed_messages calls ≡ messages_in (concat pieces) }
    ensures told { (pieces left : List (List ℕ)) (calls : List Call) (held : List ℕ) → Reads pieces calls held left
        → AllByRecursion (λ fault. fault_in_front (rest_of (concat pieces)) ≡ Some fault) (told_faults calls) }
    ensures fault { (pieces left : List (List ℕ)) (calls : List Call) (held : List ℕ) → Reads pieces calls held left
        → IsAtEnd held left → fault_in_front held ≡ fault_in_front (rest_of (concat pieces)) }
    ensures same { (pieces left others left_others : List (List ℕ)) (calls calls_others : List Call) (held held_others : List ℕ)
        → concat pieces ≡ concat others
        → Reads pieces calls held left → IsAtEnd held left
        → Reads others calls_others held_others left_others → IsAtEnd held_others left_others
        → (handed_messages calls ≡ handed_messages calls_others) × (fault_in_front held ≡ fault_in_front held_others) }
{}
