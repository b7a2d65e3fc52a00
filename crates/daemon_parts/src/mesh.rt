//! Mailboxes that the same senders put to.

ghost use Rattle.std.specs.Prelude.{◌≡◌, ◌≤◌, ◌<◌, ◌++◌, ◌∷◌, ℕ, [], length, map, replicate, IfOk, OnOk};
ghost use Rattle.daemon_parts.specs.Meshes.{IsMesh, HasColumn};

use crate::rows::push_at;
use mailbox::{Receiver, Sender, make};
use rcp_base::NoMemory;
use std::alloc::Global;
use std::sync::Wait;

/// The ends of some mailboxes that the same senders put to.
#[derive(Drop)]
pub struct Mesh<M: Drop> {
    /// For each sender its ends, in the order of the mailboxes.
    pub senders: Vec<Vec<Sender<M>>>,
    /// For each mailbox its receiver.
    pub receivers: Vec<Receiver<M>>,
}

/// So many mailboxes, each with so many senders and room for so many messages. Nothing was put or taken.
///
/// `NoMemory` where there is no room for the mailboxes.
pub fn make_mesh<M: Drop, R: Wait>(
    rt: &R,
    alloc: Global,
    boxes: usize,
    senders: u32,
    room: usize,
) -> Result<Mesh<M>, NoMemory>
    requires senders { 1 ≤ senders }
    requires room { 1 ≤ room }
    ensures { IfOk result (λ mesh. IsMesh boxes senders room (map (λ row. row.items) mesh.senders.items) mesh.receivers.items) }
{
    let mut rows = empty_rows(alloc, senders)?;
    let mut receivers = Vec::new(alloc);
    for _ in 0..boxes {
        let (column, receiver) = make(rt, alloc, senders, room)?;
        put_column(&mut rows, column)?;
        receivers.push(receiver)?;
    }
    Ok(Mesh {
        senders: rows,
        receivers,
    })
}

/// So many rows without a value.
fn empty_rows<T: Drop>(alloc: Global, count: u32) -> Result<Vec<Vec<T>>, NoMemory>
    ensures { IfOk result (λ rows. map (λ row. row.items) rows.items ≡ replicate count []) }
{
    let mut rows = Vec::new(alloc);
    for _ in 0..count {
        rows.push(Vec::new(alloc))?;
    }
    Ok(rows)
}

/// Puts the k-th value of a column after those of the k-th row.
fn put_column<T: Drop>(rows: &mut Vec<Vec<T>>, column: Vec<T>) -> Result<(), NoMemory>
    requires { length column.items ≡ length rows.old.items }
    ensures { OnOk result (HasColumn column.items (map (λ row. row.items) rows.old.items) (map (λ row. row.items) rows.new.items)) }
{
    let mut place = 0;
    for value in column {
        push_at(rows, place, value)?;
        place += 1;
    }
    Ok(())
}
