// Calls of the system that neither std nor mio has.

use libc::net::{POLLIN, POLLOUT, SO_RCVBUF, SOL_SOCKET, poll, setsockopt};
use libc::types::pollfd;

// The device that gives nothing to be read, and takes whatever is written.
const NULL_DEVICE: &[u8] = b"/dev/null";

// The system has no more open files (Linux, ENFILE), or no room for a socket (ENOBUFS).
const NO_MORE_FILES: i32 = 23;

const NO_SOCKET_ROOM: i32 = 105;

// How many signals may come between before a wait counts as over.
const MOST_SIGNALS: u32 = 1000;

/// Opens the null device at each standard descriptor that is closed, and tells whether all three
/// are open then. Else the next file or socket would have its number, and lines would go there.
pub fn open_standard_streams() -> bool {
    let standard = [libc::STDIN_FILENO, libc::STDOUT_FILENO, libc::STDERR_FILENO];
    for descriptor in standard {
        // The system gives the lowest that is free, and those below are open by now.
        if is_closed(descriptor) && os::open_update(NULL_DEVICE) != descriptor {
            return false;
        }
    }
    true
}

fn is_closed(descriptor: i32) -> bool {
    libc::lseek(descriptor, 0, libc::SEEK_CUR) < 0 && os::errno() == libc::EBADF
}

/// Whether an error says that the system has no descriptor or no memory for one more connection.
pub fn is_want(error: i32) -> bool {
    matches!(
        error,
        libc::ENOMEM | libc::EMFILE | NO_MORE_FILES | NO_SOCKET_ROOM
    )
}

/// Whether a descriptor has something to be read, for now.
pub fn is_readable(descriptor: i32) -> bool {
    is_ready_within(descriptor, POLLIN, 0)
}

/// Waits until a descriptor takes bytes, or has failed, for so many milliseconds at most, and tells
/// whether it is so.
pub fn is_writable_within(descriptor: i32, milliseconds: i32) -> bool {
    is_ready_within(descriptor, POLLOUT, milliseconds)
}

fn is_ready_within(descriptor: i32, events: i16, milliseconds: i32) -> bool {
    for _attempt in 0..MOST_SIGNALS {
        let mut asked = [pollfd {
            fd: descriptor,
            events,
            revents: 0,
        }];
        let found = poll(&mut asked, milliseconds);
        if found >= 0 {
            return found > 0;
        }
        if os::errno() != libc::EINTR {
            return true;
        }
    }
    false
}

/// Whether a write to a descriptor may have to wait for a reader. What has no place to be moved to
/// is a pipe, a socket or a terminal.
pub fn may_wait(descriptor: i32) -> bool {
    libc::lseek(descriptor, 0, libc::SEEK_CUR) < 0
}

/// Asks for room for so many bytes of datagrams that have come and weren't read. The system gives
/// as much of it as it allows.
pub fn ask_for_room(descriptor: i32, bytes: i32) {
    let mut value = [0u8; 16];
    value[..4].copy_from_slice(&bytes.to_ne_bytes());
    let _status = unsafe { setsockopt(descriptor, SOL_SOCKET, SO_RCVBUF, &value, 4) };
}
