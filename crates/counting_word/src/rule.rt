//! The rule of the word, and what each kind of step does to a view.
ghost use Rattle.std.specs.Prelude.{ℕ};
ghost use Rattle.counting_word.specs.Rule.{Holds};
ghost use Rattle.counting_word.specs.Views.{first_view, note_of, scribe_of, after_scribe, client_of, after_client, joined, spent};
ghost use Rattle.counting_word.specs.Steps.{Loads, Appends, HandsOut};

use crate::view::{Entry, View};
use atomic_table::{Join, Play, Split, TableRule};
use std::marker::{Brand, PhantomData};

/// The word counts the entries of one history.
pub struct CountingWord;

impl TableRule<u8, View, ()> for CountingWord {
    ghost holds = { λ _. Holds };

    ghost first = { λ _. first_view };
}

/// A look at the word.
pub struct Load;

impl Play<u8, View> for Load {
    ghost then = { Loads };
}

/// The entry that an append puts into the history. Each call picks it.
pub trait Writing {
    ghost use Rattle.counting_word.specs.declared.view.Entry.{Entry};

    ghost entry: { Entry };
}

impl Writing for Brand {
    ghost use Rattle.counting_word.specs.Blank.{blank_entry};

    ghost entry = { blank_entry };
}

/// One entry more.
pub struct Append<W: Writing> {
    of: PhantomData<W>,
}

impl<W: Writing> Play<u8, View> for Append<W> {
    ghost then = { Appends W.entry };
}

/// The ticket whose answer a step hands out. Each call picks it.
pub trait Handing {
    ghost ticket: { ℕ };
}

impl Handing for Brand {
    ghost ticket = { 0 };
}

/// A look at the word that hands out an answer.
pub struct HandOut<T: Handing> {
    of: PhantomData<T>,
}

impl<T: Handing> Play<u8, View> for HandOut<T> {
    ghost then = { HandsOut T.ticket };
}

/// A pass for a client.
pub struct Client;

impl Split<View> for Client {
    ghost left = { after_client };

    ghost right = { client_of };
}

/// A seat that knows what another has seen.
pub struct Note;

impl Split<View> for Note {
    ghost left = { λ view. view };

    ghost right = { note_of };
}

/// The seat that leads between calls.
pub struct Scribe;

impl Split<View> for Scribe {
    ghost left = { after_scribe };

    ghost right = { scribe_of };
}

/// A seat takes in what another has seen.
pub struct Both;

impl Join<View> for Both {
    ghost both = { joined };

    ghost spent = { spent };
}
