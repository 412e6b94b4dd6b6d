//! The records of a plan file: their shapes, and the values that they hold.
ghost use Rattle.std.specs.Prelude.{◌≡◌, length, Some, None, MatchResult};
ghost use Rattle.wire.specs.Records.{coded, long_of, shape_of, side_of, line_of, values_of, record_of};

use crate::bytes::number_at;
use crate::faults::{FileFault, placed};
use crate::filed::Filed;
use crate::streams::{STREAM_BYTES, read_stream, with_kind};
use crate::walkers::Placed;
use admission::TableFault;
use arrivals::{Bucket, Choice, Message};
use figures::{Line, Side, Stream};

/// The arrival kinds of a plan file.
pub type Kind = Choice<Message, Bucket>;

/// What a record is, by its code and its length.
#[derive(Clone, Copy, PartialEq, Eq, Debug)]
pub enum Shape {
    Hub,
    Line,
    Message,
    Bucket,
    Withdrawal,
    Places,
}

/// What a record says.
#[derive(Clone, Copy, PartialEq, Eq, Debug)]
pub enum Record<K> {
    /// A hub with these switch times.
    Hub { least: u32, most: u32 },
    /// A line under this number.
    Line { number: u8, line: Line },
    /// A stream to be filed.
    Stream(Stream<K>),
    /// The number of a stream to be taken out.
    Withdrawal(u16),
    /// New places for the port of the line with this number.
    Places { number: u8, places: u32 },
}

/// A byte that is no shape's code.
#[derive(Clone, Copy, PartialEq, Eq, Debug)]
pub struct UnknownCode(pub u8);

impl TryFrom<u8> for Shape {
    type Error = UnknownCode;

    ghost try_from_gives = { λ code r. MatchResult r (λ shape. coded code ≡ Some shape) (λ e. (coded code ≡ None) × (e.0 ≡ code)) };

    fn try_from(code: u8) -> Result<Shape, UnknownCode> {
        match code {
            1 => Ok(Shape::Hub),
            2 => Ok(Shape::Line),
            Message::CODE => Ok(Shape::Message),
            Bucket::CODE => Ok(Shape::Bucket),
            5 => Ok(Shape::Withdrawal),
            6 => Ok(Shape::Places),
            _ => Err(UnknownCode(code)),
        }
    }
}

impl Shape {
    /// How many bytes follow the code.
    fn length(&self) -> usize
        ensures { result ≡ long_of self.now }
    {
        match self {
            Shape::Hub => 4,
            Shape::Line => 8,
            Shape::Message => STREAM_BYTES + Message::LENGTH,
            Shape::Bucket => STREAM_BYTES + Bucket::LENGTH,
            Shape::Withdrawal => 2,
            Shape::Places => 3,
        }
    }

    /// The values of a record of this shape, from what follows its code.
    fn values(&self, rest: &[u8]) -> Result<Record<Kind>, TableFault>
        requires { length rest.now ≡ long_of self.now }
        ensures { result ≡ values_of self.now rest.now }
    {
        match self {
            Shape::Hub => Ok(Record::Hub {
                least: u32::from(number_at::<u16, _>(rest, 0)),
                most: u32::from(number_at::<u16, _>(rest, 2)),
            }),
            Shape::Line => read_line(rest),
            Shape::Message => {
                let stream = read_stream::<Message>(rest)?;
                Ok(Record::Stream(with_kind(&stream, Choice::First(stream.kind))))
            }
            Shape::Bucket => {
                let stream = read_stream::<Bucket>(rest)?;
                Ok(Record::Stream(with_kind(&stream, Choice::Second(stream.kind))))
            }
            Shape::Withdrawal => Ok(Record::Withdrawal(number_at(rest, 0))),
            Shape::Places => Ok(Record::Places {
                number: number_at(rest, 0),
                places: u32::from(number_at::<u16, _>(rest, 1)),
            }),
        }
    }
}

/// Not `TryFrom<u8>` for `Side`, which only the crate of `Side` may have; a type around the byte is no plainer.
fn side(byte: u8) -> Option<Side>
    ensures { result ≡ side_of byte }
{
    match byte {
        0 => Some(Side::Inbound),
        1 => Some(Side::Outbound),
        _ => None,
    }
}

fn read_line<K>(rest: &[u8]) -> Result<Record<K>, TableFault>
    requires { length rest.now ≡ 8 }
    ensures { result ≡ line_of rest.now }
{
    let side = side(number_at(rest, 1)).ok_or(TableFault::OutsideLimits)?;
    Ok(Record::Line {
        number: number_at(rest, 0),
        line: Line {
            side,
            cell_time: u32::from(number_at::<u16, _>(rest, 2)),
            propagation: u32::from(number_at::<u16, _>(rest, 4)),
            places: u32::from(number_at::<u16, _>(rest, 6)),
        },
    })
}

impl Placed<'_> {
    /// The record's shape, from its code and its length.
    pub fn shape(&self) -> Result<Shape, FileFault>
        ensures { result ≡ shape_of self.now.at self.now.bytes.now }
    {
        let malformed = FileFault::Malformed(self.at);
        let (code, rest) = self.bytes.split_first().ok_or(malformed)?;
        let shape = Shape::try_from(*code).map_err(|_| malformed)?;
        if rest.len() == shape.length() {
            Ok(shape)
        } else {
            Err(malformed)
        }
    }

    /// What the record says: its shape first, then its values.
    pub fn read(&self) -> Result<Record<Kind>, FileFault>
        ensures { result ≡ record_of self.now.at self.now.bytes.now }
    {
        let shape = self.shape()?;
        placed(self.at, shape.values(&self.bytes[1..]))
    }
}
