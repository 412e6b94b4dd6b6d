//! Runs of a table's streams in a rack, and what is promised of all of them: theorems, and no code to call.
#![tactic(auto)]

mod theorems;

pub use theorems::{
    deadlines_hold, figures_are_reached, figures_fall, promise_holds, runs_stay, withdrawal_passes,
};
