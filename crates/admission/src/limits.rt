//! The limits of the fields of lines, streams and calls. Each is at least 1.
ghost use Rattle.std.specs.Prelude.{◌≡◌};
ghost use Rattle.admission.specs.Fields.{fields_within};

use figures::Stream;

pub const LAST_STREAM: u16 = 60_000;

pub const LAST_LINE: u8 = 16;

pub const LATEST_DEADLINE: u32 = 500_000;

pub const MOST_PLACES: u32 = 4_000;

/// Whether each field of the stream keeps its limits; its kind keeps its own. A priority has a lower limit alone: the upper
/// one is that of its type.
pub fn has_fields_within<K>(stream: &Stream<K>) -> bool
    ensures { result ≡ fields_within stream.now }
{
    (1..=LAST_STREAM).contains(&stream.number)
        && 1 <= stream.priority
        && (1..=LAST_LINE).contains(&stream.inbound)
        && (1..=LAST_LINE).contains(&stream.outbound)
        && (1..=LATEST_DEADLINE).contains(&stream.deadline)
}
