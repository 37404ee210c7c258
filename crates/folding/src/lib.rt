// Content lines in a text: folds taken out, put in and passed over. Definitions are in specs/.
#![tactic(auto)]

pub mod unfolding; // unfolding.rt: folds taken out of a text, and the place that a kept byte has in it
pub mod folded; // folded.rt: a content line as it is written
pub mod skip; // skip.rt: a cursor over a text with its folds in place
