//! The text of the roster.

ghost use Rattle.std.specs.Prelude.{◌≡◌, ◌<◌, ◌++◌, IfOk, OnOk};
ghost use Rattle.feed_make.specs.Feeds.{router_line, roster_text};

use crate::links::ROUTERS;
use crate::network::id_of;
use rcp_base::{Addr, NoMemory, write_addr};
use std::alloc::Global;

const SETTINGS: &[u8; 57] = b"as 65000\nid 10.255.255.254\nshards 8\nhold 90\narea 0.0.0.0\n";

/// The text of the roster, each line with its end.
pub fn roster_text(alloc: Global) -> Result<Vec<u8>, NoMemory>
    ensures { IfOk result (λ text. text.items ≡ roster_text) }
{
    let mut text = Vec::from_slice(alloc, SETTINGS)?;
    for router in 0..ROUTERS {
        add_router(&mut text, router)?;
    }
    Ok(text)
}

/// Adds the line of a router, whose router ID is its BGP Identifier.
fn add_router(text: &mut Vec<u8>, router: u16) -> Result<(), NoMemory>
    requires { router < 400 }
    ensures { OnOk result (text.new.items ≡ text.old.items ++ router_line router) }
{
    let mut out = [0; 15];
    let len = write_addr(Addr(id_of(router)), &mut out);
    text.extend_from_slice(b"router ")?;
    text.extend_from_slice(&out[..len])?;
    text.push(b' ')?;
    text.extend_from_slice(&out[..len])?;
    text.push(b'\n')?;
    Ok(())
}
