ghost use Rattle.std.specs.Prelude.{◌≡◌};

use ask_desk::{Desk, Pass, Ticket};
use ask_history::{Answer, Call};
use client_scripts::ClientPass;
use counting_word::Room;
use pc_terms::NoMemory;
use std::alloc::Global;
use std::sync::Wait;
use work_queue::{PostRefused, copied};

/// A pass with the desk that made it.
pub struct DeskPass<'a, B: Room, R> {
    pub rt: &'a R,
    pub alloc: Global,
    pub desk: &'a Desk<B>,
    pub pass: Pass<B>,
}

impl<'a, B: Room, R: Wait> ClientPass for DeskPass<'a, B, R> {
    ghost use Rattle.desk_clients.specs.Seen.{seen_state};

    type Ticket = Ticket<B>;

    ghost state = { λ client. seen_state client.pass };

    ghost number_of = { λ ticket. ticket.ticket };

    fn post(&mut self, tag: u64, call: &Call) -> Result<Ticket<B>, PostRefused> {
        self.pass.known();
        let copy = match copied(self.alloc, call) {
            Ok(copy) => copy,
            Err(NoMemory) => return Err(PostRefused::NoMemory),
        };
        let posted = self
            .desk
            .post(self.rt, self.alloc, &mut self.pass, tag, copy);
        self.pass.known();
        match posted {
            Ok(ticket) => Ok(ticket),
            Err((why, _)) => Err(why),
        }
    }

    fn cancel(&mut self, ticket: &Ticket<B>) {
        self.pass.known();
        self.desk.cancel(self.rt, &mut self.pass, ticket);
        self.pass.known();
    }

    fn receive(&mut self, ticket: Ticket<B>) -> Answer {
        self.pass.known();
        let answer = self.desk.receive(self.rt, &mut self.pass, ticket);
        self.pass.known();
        answer
    }

    fn close(&mut self) {
        self.pass.known();
        self.desk.close(self.rt, &mut self.pass);
        self.pass.known();
    }
}
