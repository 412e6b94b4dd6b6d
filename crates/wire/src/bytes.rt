//! Numbers from bytes, the most significant byte first.
ghost use Rattle.std.specs.Prelude.{◌≡◌, ℕ, ◌+◌, ◌≤◌, length};
ghost use Rattle.wire.specs.Bytes.{be, number_at};

/// A number that a file has in N bytes.
pub trait BigEndian<const N: usize>: Sized {
    ghost value: { Self → ℕ };

    fn from_bytes(bytes: &[u8; N]) -> Self
        ensures { value result ≡ be bytes.now };
}

impl BigEndian<1> for u8 {
    ghost value = { λ n. n };

    fn from_bytes(bytes: &[u8; 1]) -> u8 {
        let [a] = *bytes;
        a
    }
}

impl BigEndian<2> for u16 {
    ghost value = { λ n. n };

    fn from_bytes(bytes: &[u8; 2]) -> u16 {
        let [a, b] = *bytes;
        u16::from_be_bytes([a, b])
    }
}

impl BigEndian<4> for u32 {
    ghost value = { λ n. n };

    fn from_bytes(bytes: &[u8; 4]) -> u32 {
        let [a, b, c, d] = *bytes;
        u32::from_be_bytes([a, b, c, d])
    }
}

/// The number of the N bytes from this place on.
pub fn number_at<T: BigEndian<N>, const N: usize>(bytes: &[u8], place: usize) -> T
    requires { place + N ≤ length bytes.now }
    ensures { T.value result ≡ number_at bytes.now place N }
{
    let Some(own) = bytes[place..].first_chunk() else {
        unreachable!()
    };
    T::from_bytes(own)
}
