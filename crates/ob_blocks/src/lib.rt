//! Slots in blocks of equal size, and the rows of a pass in the trusted buffer: definitions and lemmas.
#![tactic(auto)]
