//! What became of the calls of a journal, found in one walk along it.

ghost use Rattle.std.specs.Prelude.{◌≡◌, ◌==◌, ◌++◌, ◌∷◌, [], ℕ, List, length, nat_eq, if◌then◌else◌, Some, None, IfOk, OnOk};
ghost use Rattle.std.specs.Option.{option_or};
ghost use Rattle.std.specs.HashMap as hash;
ghost use Rattle.ask_history.specs.declared.events.Event.{Event};
ghost use Rattle.ask_history.specs.Journal.{ticket_of};
ghost use Rattle.ask_history.specs.Indices.{cancel_index, settle_index, close_index};
ghost use Rattle.transcript.specs.Outcomes.{pair_eq, IsTableOf};

use ask_history::Event;
use pc_terms::NoMemory;
use std::alloc::Global;
use std::collections::HashMap;

/// By client and tag the tickets of accepted calls, and by ticket the journal indices of its Cancel and its Settle.
#[derive(Drop)]
pub struct Outcomes {
    pub tickets: HashMap<(u64, u64), u64>,
    pub cancels: HashMap<u64, u64>,
    pub settles: HashMap<u64, u64>,
    pub closed: Option<u64>,
}

// Keeps the first index of a ticket.
fn note_index(indices: &mut HashMap<u64, u64>, ticket: u64, index: u64) -> Result<(), NoMemory>
    ensures { OnOk result ((t : ℕ) → hash.get nat_eq indices.new t ≡ option_or (hash.get nat_eq indices.old t) (if ticket == t then Some index else None)) }
{
    if !indices.contains_key(&ticket) {
        indices.insert(ticket, index)?;
    }
    Ok(())
}

// Keeps the first ticket of a client's tag.
fn note_ticket(
    tickets: &mut HashMap<(u64, u64), u64>,
    client: u64,
    tag: u64,
    ticket: u64,
) -> Result<(), NoMemory>
    ensures { OnOk result ((c k : ℕ) → hash.get pair_eq tickets.new (c, k) ≡ option_or (hash.get pair_eq tickets.old (c, k)) (if pair_eq (client, tag) (c, k) then Some ticket else None)) }
{
    if !tickets.contains_key(&(client, tag)) {
        tickets.insert((client, tag), ticket)?;
    }
    Ok(())
}

impl Outcomes {
    fn new(alloc: Global) -> Outcomes
        ensures { IsTableOf [] result }
    {
        Outcomes {
            tickets: HashMap::new(alloc),
            cancels: HashMap::new(alloc),
            settles: HashMap::new(alloc),
            closed: None,
        }
    }

    fn note(&mut self, index: u64, event: &Event) -> Result<(), NoMemory>
        ensures { OnOk result ((journal : List Event) → index ≡ length journal → IsTableOf journal self.old → IsTableOf (journal ++ event.now ∷ []) self.new) }
    {
        match event {
            Event::Accept {
                ticket,
                client,
                tag,
                call: _,
            } => note_ticket(&mut self.tickets, *client, *tag, *ticket),
            Event::Cancel { ticket } => note_index(&mut self.cancels, *ticket, index),
            Event::Settle { ticket, mark: _ } => note_index(&mut self.settles, *ticket, index),
            Event::Close => {
                if self.closed.is_none() {
                    self.closed = Some(index);
                }
                Ok(())
            }
            Event::Checked { file: _ } => Ok(()),
        }
    }

    pub fn of_journal(alloc: Global, events: &[Event]) -> Result<Outcomes, NoMemory>
        ensures { IfOk result (λ table. IsTableOf events.now table) }
    {
        let mut table = Outcomes::new(alloc);
        for (index, event) in events.iter().enumerate() {
            table.note(index as u64, event)?;
        }
        Ok(table)
    }

    pub fn ticket(&self, client: u64, tag: u64) -> Option<u64>
        ensures { (journal : List Event) → IsTableOf journal self.now → result ≡ ticket_of journal client tag }
    {
        self.tickets.get(&(client, tag)).copied()
    }

    pub fn cancel_index(&self, ticket: u64) -> Option<u64>
        ensures { (journal : List Event) → IsTableOf journal self.now → result ≡ cancel_index journal ticket }
    {
        self.cancels.get(&ticket).copied()
    }

    pub fn settle_index(&self, ticket: u64) -> Option<u64>
        ensures { (journal : List Event) → IsTableOf journal self.now → result ≡ settle_index journal ticket }
    {
        self.settles.get(&ticket).copied()
    }
}
