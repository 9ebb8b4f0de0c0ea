// Orders on dockets: the docket in hand, and those that are kept.
ghost use Rattle.std.specs.Prelude.{◌≡◌, take};
ghost use Rattle.docket.specs.Lodging.{lodge_of};

use crate::orders::{Change, Order};
use crate::show::{self, Filled, Shown};
use crate::{questions, texts};
use docket::held::HeldBound;
use docket::{Docket, Lodged};

// The docket in hand, and those that are kept under 1 to 7.
#[derive(Clone, Copy)]
pub struct Dockets {
    pub in_hand: Docket,
    pub kept: [Docket; 7],
}

impl Dockets {
    // Fresh dockets.
    pub fn fresh() -> Dockets {
        let docket = Docket::fresh();
        Dockets {
            in_hand: docket,
            kept: [docket; 7],
        }
    }

    // Lodges the text of this size in the docket in hand.
    fn lodge(&mut self, size: usize, text: &[u8]) -> Lodged
        ensures lodged { result ≡ lodge_of self.old.in_hand (take size text.now) }
        ensures docket { self.new.in_hand ≡ (lodge_of self.old.in_hand (take size text.now)).docket }
        ensures kept { self.new.kept ≡ self.old.kept }
    {
        let lodged = self.in_hand.lodge(texts::front(text, size));
        self.in_hand = lodged.docket;
        lodged
    }

    // Keeps the docket in hand at a place.
    fn keep(&mut self, place: usize) {
        if let Some(kept) = self.kept.get_mut(place) {
            *kept = self.in_hand;
        }
    }

    // Takes the docket that is kept at a place in hand.
    fn take(&mut self, place: usize) {
        if let Some(kept) = self.kept.get(place) {
            self.in_hand = *kept;
        }
    }

    // Changes a field of the docket in hand.
    fn set(&mut self, change: Change) {
        let docket = &mut self.in_hand;
        match change {
            Change::Known(known) => docket.known = known,
            Change::Periods(n) => docket.problem.periods = n,
            Change::Outputs(output) => docket.rows = [output; 1536],
            Change::Cost(cost) => docket.held.cost = Some(cost),
            Change::Bound(bound) => docket.held.bound = HeldBound::Number(bound),
        }
    }

    // Carries out the order, where the text has this size, and prints the line of its case.
    pub fn run(&mut self, order: Order<'_>, size: usize, text: &[u8]) {
        match order {
            Order::Lodge(name) => show::print(name, Shown(&self.lodge(size, text))),
            Order::Give => {
                let _ = self.lodge(size, text);
            }
            Order::Ask { size, at, name } => ask(name, self.in_hand, size, at),
            Order::Units { period, most, name } => {
                let taken = questions::ask(self.in_hand, period, most, texts::front(text, size));
                show::print(name, Shown(&taken));
            }
            Order::Fresh => self.in_hand = Docket::fresh(),
            Order::Keep(place) => self.keep(place),
            Order::Take(place) => self.take(place),
            Order::Set(change) => self.set(change),
            _ => {}
        }
    }
}

// Asks for a report in a buffer of so many letters, 160 at most, and prints the line of the case.
fn ask(name: &[u8], docket: Docket, size: usize, at: usize) {
    let mut letters = [0; 160];
    for (place, letter) in letters.iter_mut().zip((b'a'..=b'z').cycle()) {
        *place = letter;
    }
    let size = letters.len().min(size);
    let buffer = &mut letters[..size];
    let answer = docket.report(buffer, at).answer;
    show::print(name, Filled { answer, buffer });
}
