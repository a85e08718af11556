//! Schedules: what picks the next step of the array, and the text of a schedule.
#![tactic(auto)]

mod chooser;
mod entries;
mod error;
mod laws;
mod line;
mod recorded;
mod round;
mod seeded;
mod sides;

pub use chooser::{Chooser, Pick};
pub use entries::{read_schedule, write_schedule};
pub use error::ScheduleError;
pub use laws::one_reading;
pub use line::plain_number;
pub use recorded::{Recorded, Standing};
pub use round::Round;
pub use seeded::Seeded;
pub use sides::{High, Low};
