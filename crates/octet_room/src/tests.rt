ghost use Rattle.std.specs.Prelude.{◌≡◌, ◌≤◌, [], ◌∷◌, take};

use super::*;
use std::test::Fail;

/// Two pieces, one after the other.
fn put_both<R: Room>(room: &mut R) -> usize
    requires place { R.is_place room.old 0 }
    requires room { 5 ≤ R.size room.old }
    ensures end { result ≡ 5 }
    ensures octets { take 5 (R.octets room.new) ≡ 1 ∷ 2 ∷ 3 ∷ 4 ∷ 5 ∷ [] }
{
    let at = room.put(0, &[1, 2, 3]);
    room.put(at, &[4, 5])
}

#[test]
fn an_array_keeps_what_stands_after_the_pieces(rt: HostRuntime) {
    let mut array = [9; 7];
    assert_eq!(rt; put_both(&mut array), 5);
    assert_eq!(rt; array, [1, 2, 3, 4, 5, 9, 9]);
}

#[test]
fn a_vector_is_filled_without_being_cleared(rt: HostRuntime) -> Result<(), Fail> {
    let mut vector = Vec::with_capacity(rt.alloc(), 5)?;
    assert_eq!(rt; put_both(&mut vector), 5);
    assert_eq!(rt; vector.as_slice(), [1, 2, 3, 4, 5].as_slice());
    Ok(())
}
