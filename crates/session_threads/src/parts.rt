use crate::closing::Ended;
use crate::serving::Served;
use ask_desk::Pass;
use counting_word::Room;

/// The clients' part of a session that is shut down.
#[derive(Drop)]
pub(crate) enum ClientsPart<B: Room> {
    Ended(Ended<B>),
    /// No thread could be started. The spare pass shut the session down at this journal index.
    Unbegun(u64),
}

/// The parts of a session that is shut down.
#[derive(Drop)]
pub(crate) struct Parts<B: Room> {
    pub(crate) served: Served<B>,
    pub(crate) clients: ClientsPart<B>,
    pub(crate) spare: Pass<B>,
}
