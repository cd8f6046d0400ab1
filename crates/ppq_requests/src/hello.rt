//! The first frame of a client.
ghost use Rattle.std.specs.Prelude.{◌≡◌};
ghost use Rattle.ppq_requests.specs.Hello.{hello_of};

use ppq_script::{Head, Kind, Order};

/// The records and the order that the first frame names, if it is `ppq-serve 1 pair up` or one of the three
/// like it, to the byte.
pub fn read_hello(bytes: &[u8]) -> Option<Head>
    ensures { result ≡ hello_of bytes.now }
{
    if bytes == b"ppq-serve 1 pair up".as_slice() {
        return Some(Head {
            kind: Kind::Pair,
            order: Order::Up,
        });
    }
    if bytes == b"ppq-serve 1 pair down".as_slice() {
        return Some(Head {
            kind: Kind::Pair,
            order: Order::Down,
        });
    }
    if bytes == b"ppq-serve 1 triple up".as_slice() {
        return Some(Head {
            kind: Kind::Triple,
            order: Order::Up,
        });
    }
    if bytes == b"ppq-serve 1 triple down".as_slice() {
        return Some(Head {
            kind: Kind::Triple,
            order: Order::Down,
        });
    }
    None
}
