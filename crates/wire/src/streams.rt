//! The streams of a plan file.
ghost use Rattle.std.specs.Prelude.{◌≡◌, ℕ, ◌+◌, ◌≤◌, length};
ghost use Rattle.wire.specs.Records.{fields_of, stream_of, with_kind};

use crate::bytes::number_at;
use crate::filed::Filed;
use admission::{TableFault, has_fields_within};
use figures::Stream;

/// How many bytes the fields take that every stream has.
pub const STREAM_BYTES: usize = 9;

/// The stream with this kind in place of its own.
pub fn with_kind<F, K>(stream: &Stream<F>, kind: K) -> Stream<K>
    ensures { result ≡ with_kind (λ _. kind) stream.now }
{
    Stream {
        number: stream.number,
        priority: stream.priority,
        inbound: stream.inbound,
        outbound: stream.outbound,
        deadline: stream.deadline,
        kind,
    }
}

/// The fields that every stream has, without a kind.
fn read_fields(rest: &[u8]) -> Stream<()>
    requires { 9 ≤ length rest.now }
    ensures { result ≡ fields_of rest.now }
{
    Stream {
        number: number_at(rest, 0),
        priority: number_at(rest, 2),
        inbound: number_at(rest, 3),
        outbound: number_at(rest, 4),
        deadline: number_at(rest, 5),
        kind: (),
    }
}

/// A stream of the kind F, from what follows the code: first the fields that every stream has, then those of
/// its kind.
pub fn read_stream<F: Filed>(rest: &[u8]) -> Result<Stream<F>, TableFault>
    requires { length rest.now ≡ 9 + F.LENGTH }
    ensures { result ≡ stream_of F.filed rest.now }
{
    let fields = read_fields(rest);
    if !has_fields_within(&fields) {
        return Err(TableFault::OutsideLimits);
    }
    let kind = F::read(&rest[STREAM_BYTES..])?;
    Ok(with_kind(&fields, kind))
}
