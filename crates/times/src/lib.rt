// Dates and times: readers and writers of DATE, TIME, DATE-TIME, DURATION, UTC-OFFSET and PERIOD. See specs/Lib.antt.
#![tactic(auto)]

pub mod date;
pub mod date_time;
pub mod duration;
mod follow;
mod letters;
pub mod offset;
pub mod period;
pub mod time;
mod written;
