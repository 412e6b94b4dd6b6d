//! A listing: the lines of its entries, one after the other.
ghost use Rattle.std.specs.Prelude.{◌≡◌, ◌*◌, ◌^◌, ◌≤◌, true, length, is_ok, nat_le};
ghost use Rattle.listing.specs.Text.{listing_text};
ghost use Rattle.listing.specs.Laid.{Wrote, laid};

use crate::entries::Entry;

/// The buffer is shorter than the text.
#[derive(Clone, Copy, PartialEq, Eq, Debug)]
pub struct NoRoom;

/// How many bytes the listing takes.
pub fn room(entries: &[Entry]) -> usize
    requires { length entries.now ≤ 2 ^ 32 }
    ensures { result ≡ length (listing_text entries.now) }
{
    entries.iter().map(Entry::room).sum()
}

/// Whether the listing takes no more bytes than these.
fn fits(entries: &[Entry], bytes: usize) -> bool
    ensures value { result ≡ nat_le (length (listing_text entries.now)) bytes }
    ensures roomy { 90 * length entries.now ≤ bytes → result ≡ true }
{
    entries
        .iter()
        .try_fold(bytes, |left, entry| left.checked_sub(entry.room()))
        .is_some()
}

/// Writes the lines one after the other, from the start of the slice on, and says how many bytes that were. A loop that
/// keeps the place, since of what a closure writes behind it a proof knows nothing.
fn write_lines(entries: &[Entry], out: &mut [u8]) -> usize
    requires { length (listing_text entries.now) ≤ length out.old }
    ensures count { result ≡ length (listing_text entries.now) }
    ensures after { out.new ≡ laid (listing_text entries.now) out.old }
{
    let mut end = 0;
    for entry in entries {
        end += entry.write(&mut out[end..]);
    }
    end
}

/// Writes the listing at the start of the buffer, and says how many bytes it takes. Where it does not fit, nothing is
/// written; in a buffer of 90 bytes for each entry it does.
pub fn write_listing(entries: &[Entry], out: &mut [u8]) -> Result<usize, NoRoom>
    ensures wrote { Wrote out.old (listing_text entries.now) result out.new }
    ensures roomy { 90 * length entries.now ≤ length out.old → is_ok result ≡ true }
{
    if !fits(entries, out.len()) {
        return Err(NoRoom);
    }
    Ok(write_lines(entries, out))
}
