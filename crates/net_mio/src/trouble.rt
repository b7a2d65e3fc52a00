// Errors of the system that pass.

use std::io::{Error, ErrorKind};

/// The errors of Linux for a want of memory or of descriptors: ENOMEM, ENFILE, EMFILE and ENOBUFS.
const WANTS: [i32; 4] = [12, 23, 24, 105];

/// Whether a call that failed may work later: it would have waited, a signal came, a peer was gone before it was accepted, or memory or
/// descriptors were wanting.
pub(crate) fn may_pass(error: &Error) -> bool {
    match error.kind() {
        ErrorKind::WouldBlock | ErrorKind::Interrupted | ErrorKind::ConnectionAborted => true,
        _ => match error.raw_os_error() {
            Some(code) => WANTS.contains(&code),
            None => false,
        },
    }
}
