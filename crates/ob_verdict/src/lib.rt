//! What an engine over slots answers and shows, and what that has to do with SQL's meaning.
#![tactic(auto)]

mod indexed;
mod laws;
mod outcome;

pub use indexed::{
    access_answers, access_refused, access_settles, settles_indexed, settles_refused,
};
pub use laws::{
    accepted_laws, alike_tables, bags_are_kept, batches_answer_alike, full_is_lawful, joined_pairs,
    keeps_in_place, moving_laws, order_is_nothing, prints_answer, results_have_selected, seen_laws,
    sessions_are_bagwise, settles_as_step,
};
pub use outcome::Outcome;
