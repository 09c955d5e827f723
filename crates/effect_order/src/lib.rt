//! Laws on the order in which accesses to shared cells take effect: what must come before what in a run of compiled
//! code has no cycle, and so the run's steps can be put into an order of the source that shows the same values.
//! Each law is the contract of a public function with an empty body; nothing of it runs.
//!
//! A law about relations names them as the ghost members of a trait, since a clause cannot range over relations.
#![tactic(auto)]

pub mod barriers;
pub mod effects;
pub mod run_order;
pub mod smallest;
pub mod source_order;

pub use barriers::{
    Coded, arrival_before_release, code_keeps, level_never_falls, level_rises_at_release,
    release_after_arrival, rise_shows_release,
};
pub use effects::{
    conflict_is_mutual, items_leave_what_effects_leave, same_place_is_equality,
    same_value_is_equality,
};
pub use run_order::{
    Running, Storied, code_has_no_cycle, effects_have_no_cycle, no_cycle, run_gives_facts,
    waiting_directly_has_no_cycle,
};
pub use smallest::{meeting_meets_premises, one_by_one_meets_premises};
pub use source_order::{
    code_is_sourced, conflicting_order_keeps_values, each_after_what_it_needs,
    legal_by_construction, memory_stays, own_steps_first, reads_show_last_write, run_is_sourced,
    source_order_is_by_rules, takes_everything, waiting_directly_is_sourced,
};
