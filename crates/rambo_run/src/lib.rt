//! Steps, worlds and whole runs, and what holds of every run.
#![tactic(auto)]

mod chronicle;
mod founding;
mod laws;
mod outcome;
mod run;

pub use chronicle::Chronicle;
pub use founding::may_found;
pub use laws::{
    collection_replies_are_fresh, collections_never_fall, decisions_stand,
    first_collections_never_fall, given_sequences_are_proper, later_phases_meet, later_phases_read,
    later_sets_rise, marks_differ, nodes_agree, nodes_are_replayed, one_order_explains,
    one_tag_one_copy, removed_places_are_collected, removed_places_are_told, replies_are_fresh,
    runs_go_on, tags_follow_answers, told_collections_are_whole,
};
pub use outcome::{NodeMap, Outcome};
pub use rambo_node::{Step, StepOf};
pub use run::Run;
