//! IPv4 networks and addresses as they are written in text.

/// Gives an address as a number, and a network as a pair of a number and a length.
///
/// `v4!(192, 168, 1, 0)` is 192.168.1.0, and `v4!(192, 168, 1, 0; 24)` is 192.168.1.0/24.
macro_rules! v4 {
    ($a:literal, $b:literal, $c:literal, $d:literal) => {
        $a << 24 | $b << 16 | $c << 8 | $d
    };
    ($a:literal, $b:literal, $c:literal, $d:literal; $len:literal) => {
        ($a << 24 | $b << 16 | $c << 8 | $d, $len)
    };
}

pub(crate) use v4;
