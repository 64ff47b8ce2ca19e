//! What is promised of a whole run, and what follows from that.
#![tactic(auto)]

mod ending;
mod flight;
mod laws;
mod seed;

pub use ending::{Ending, KeptEnding, Report};
pub use flight::FlightSettings;
pub use laws::{
    asks_as_shown, asks_by_kinds, blocks_are_numbered_alike, blocks_are_sealed_alone,
    flown_runs_ask_the_same, kept_blocks_are_sealed_alone, leaves_are_draws, marks_are_held,
    numbers_go_on, one_asks_a_first_part, padded_reruns_ask_the_same, reruns_ask_the_same,
    reruns_show_the_same, runs_answer_as_one, runs_begin_behind_earlier_ones,
    salted_numbers_are_apart, saved_marks_are_held, saved_numbers_are_apart,
    saved_runs_answer_as_one, shows_its_refusal_alone, statements_write_their_own,
    texts_are_pieces, unflown_runs_go_one_by_one, unhindered_runs_are_plain,
    wrong_secrets_are_told,
};
pub use seed::Seed;
