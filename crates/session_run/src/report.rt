use crate::Ending;
use ask_history::Journal;
use report_hub::Reporter;

/// What a run hands back: its status for the system, how it ended, the journal that it kept, which is empty where no session
/// began, and the reporter.
#[derive(Drop)]
pub struct Report {
    pub status: u8,
    pub ending: Ending,
    pub journal: Journal,
    pub reporter: Box<dyn Reporter + Send>,
}
