ghost use Rattle.std.specs.Prelude.{◌≡◌, [], Some, slice_get, slice_set, OnOk, OnErr, IfOk};
ghost use Rattle.std.specs.Option.{option_and_then};

use ask_history::Answer;
use pc_terms::NoMemory;
use std::alloc::Global;
use std::marker::Model;
use std::mem;

/// What is known of the answer of a ticket.
#[derive(Debug, Drop)]
pub enum Cell {
    /// It is not there yet.
    Empty,
    Set(Answer),
    /// It was handed out.
    Taken,
}

impl Cell {
    ghost use Rattle.response_cell.specs.Cells.{answer_in, after_take};

    // A cell that is not set stays as it is.
    fn take(&mut self) -> Option<Answer>
        ensures answer { result ≡ answer_in self.old }
        ensures cell { self.new ≡ after_take self.old }
    {
        match mem::replace(self, Cell::Taken) {
            Cell::Set(answer) => Some(answer),
            Cell::Empty => {
                *self = Cell::Empty;
                None
            }
            Cell::Taken => None,
        }
    }
}

/// A cell for each ticket below some number. Contracts see the list of the cells, each at its ticket.
#[derive(Debug, Drop)]
pub struct Cells {
    cells: Vec<Cell>,
}

impl Model for Cells {
    ghost use Rattle.std.specs.Prelude.{List};
    ghost use Rattle.response_cell.specs.declared.cells.Cell.{Cell};
    ghost use Rattle.response_cell.specs.contracts.cells.Cell as cell;
    ghost use Rattle.std.specs.Coded.{coded_list};

    ghost Value = { List Cell };

    ghost coded = { coded_list cell.the_row.coded };

    ghost view = { λ all. all.cells.items };
}

impl Cells {
    ghost use Rattle.response_cell.specs.Cells.{answer_in, covered, taken};

    /// No cells.
    pub fn new(alloc: Global) -> Result<Cells, NoMemory>
        ensures { IfOk result (λ cells. cells ≡ []) }
    {
        Ok(Cells {
            cells: Vec::new(alloc),
        })
    }

    /// Makes an empty cell for every ticket up to and with this one that has none.
    pub fn cover(&mut self, ticket: u64) -> Result<(), NoMemory>
        ensures ok { OnOk result (self.new ≡ covered self.old ticket) }
        ensures err { OnErr result (self.new ≡ self.old) }
    {
        let count = (ticket as usize).checked_add(1).ok_or(NoMemory {})?;
        if self.cells.len() < count {
            self.cells.resize_with(count, || Cell::Empty)?;
        }
        Ok(())
    }

    /// Puts the answer into the ticket's cell. It takes no memory.
    pub fn set(&mut self, ticket: u64, answer: Answer)
        requires { slice_get self.old ticket ≡ Some Cell.Empty }
        ensures { self.new ≡ slice_set self.old ticket (Cell.Set answer) }
    {
        self.cells[ticket as usize] = Cell::Set(answer);
    }

    /// The answer of the ticket, which is handed out once. It takes no memory.
    pub fn take(&mut self, ticket: u64) -> Option<Answer>
        ensures answer { result ≡ option_and_then answer_in (slice_get self.old ticket) }
        ensures cells { self.new ≡ taken self.old ticket }
    {
        self.cells.get_mut(ticket as usize)?.take()
    }
}
