//! A network whose table passes every check.
ghost use Rattle.figures.specs.Tables.{Passing};
ghost use Rattle.records.specs.Records.{table};
ghost use Rattle.planfile.specs.Kinds.{plan_alpha};

use network::Network;
use wire::Kind;

/// That the table passes is truncated: its figures are functions of all streams, and what they are of streams that it
/// lacks is left open.
#[derive(Drop)]
pub struct Admitted<'a> {
    pub network: Network<'a, Kind>,
    ghost passing: { ∥ Passing plan_alpha network.records.rack (table network.records) ∥₁ },
}
