//! The message by which a session comes up.

ghost use Rattle.std.specs.Prelude.{◌≡◌, ◌<◌, IfOk};
ghost use Rattle.feed_make.specs.Feeds.{open_message};

use crate::network::id_of;
use rcp_base::NoMemory;
use std::alloc::Global;

/// The OPEN of a router (RFC 4271 section 4.2).
pub fn open_message(alloc: Global, router: u16) -> Result<Vec<u8>, NoMemory>
    requires { router < 400 }
    ensures { IfOk result (λ message. message.items ≡ open_message router) }
{
    let [i0, i1, i2, i3] = id_of(router).to_be_bytes();
    let message = [
        255, 255, 255, 255, 255, 255, 255, 255, 255, 255, 255, 255, 255, 255, 255, 255, 0, 37, 1,
        4, 253, 232, 0, 90, i0, i1, i2, i3, 8, 2, 6, 1, 4, 0, 1, 0, 1,
    ];
    Ok(Vec::from_slice(alloc, &message)?)
}
