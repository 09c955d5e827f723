//! The source order of a run: its own steps, releases and effects, put into an order of the source. Each law is the
//! contract of a public function with an empty body; nothing of it runs.
#![tactic(auto)]

pub mod laws;

pub use laws::{
    Placing, items_are_orderable, order_holds, order_is_by_rules, order_of_the_laws,
    plain_runs_have_no_cycle,
};
