//! A network as its callers have it: what it keeps is in its type, so that no call asks for it.
ghost use Rattle.std.specs.Prelude.{◌≡◌, true, length};
ghost use Rattle.figures.specs.Tables.{table_kept};
ghost use Rattle.records.specs.Lists.{numbers_differ};
ghost use Rattle.records.specs.Records.{table};
ghost use Rattle.records.specs.States.{all_within};

use records::Records;

mod public;

pub use public::{carry_all, carry_out};

/// That the table passes is no ghost field: it speaks of the kinds' α, and so the type could be named only with a bound on
/// `K`, which callers may not have. The calls that change the table carry it on (`passing`).
#[derive(Drop)]
pub struct Network<'a, K> {
    records: Records<'a, K>,
    ghost kept: { table_kept records.rack (table records) ≡ true },
    ghost differ: { numbers_differ (table records) ≡ true },
    ghost sixteen: { length records.rack.lines ≡ 16 },
    ghost fields: { all_within (table records) ≡ true },
}
