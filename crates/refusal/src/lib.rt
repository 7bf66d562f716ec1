// Every refusal of the library, and the one table of their numbers.
#![tactic(auto)]

ghost use Rattle.std.specs.Prelude.{◌≡◌, Some};
ghost use Rattle.refusal.specs.Table.{file_told, card_told, sheet_told, local_told, dispatch_told, layer_text, refusal_text};
ghost use Rattle.refusal.specs.declared.CardFault.TheVariants.{File};
ghost use Rattle.refusal.specs.declared.SheetFault.TheVariants.{Card};

use std::fmt;

// The layer that refuses.
#[derive(Clone, Copy, PartialEq, Eq, Debug)]
pub enum Layer {
    File,
    Card,
    Sheet,
    Local,
    Dispatch,
}

// What a caller is told: layer, number and place. Places count from 1; 0 stands for none.
// Kept: the number and the two places are the rules' own, and a line prints them so.
#[derive(Clone, Copy, PartialEq, Eq, Debug)]
pub struct Refusal {
    pub layer: Layer,
    pub number: u8,
    pub place: (u32, u32),
}

// A plan file, or the counts of a card or a sheet.
#[derive(Clone, Copy, PartialEq, Eq, Debug)]
pub enum FileFault {
    Stub,
    Counts,
    Layout,
    NoSpace,
}

// A card, with the task.
#[derive(Clone, Copy, PartialEq, Eq, Debug)]
pub enum CardFault {
    File(FileFault),
    Period(u8),
    RunTime(u8),
    LongFrame(u8),
    Boundaries,
}

// A sheet, with interval and task, interval, or task and job.
#[derive(Clone, Copy, PartialEq, Eq, Debug)]
pub enum SheetFault {
    Card(CardFault),
    Rows,
    WideShare(u8, u8),
    Overfull(u8),
    WrongTotal(u8, u32),
}

// A local scheduler.
#[derive(Clone, Copy, PartialEq, Eq, Debug)]
pub enum LocalFault {
    Misfit,
    Over,
}

// A dispatcher.
#[derive(Clone, Copy, PartialEq, Eq, Debug)]
pub enum DispatchFault {
    Empty,
    LastFrame,
    NoTask,
}

impl From<FileFault> for CardFault {
    ghost from_gives = { λ e r. r ≡ File e };

    fn from(fault: FileFault) -> CardFault {
        CardFault::File(fault)
    }
}

impl From<CardFault> for SheetFault {
    ghost from_gives = { λ e r. r ≡ Card e };

    fn from(fault: CardFault) -> SheetFault {
        SheetFault::Card(fault)
    }
}

const fn refused(layer: Layer, number: u8, first: u32, second: u32) -> Refusal
    ensures { result ≡ record { layer = layer; number = number; place = (first, second) } }
{
    Refusal {
        layer,
        number,
        place: (first, second),
    }
}

impl From<FileFault> for Refusal {
    ghost from_gives = { λ e r. r ≡ file_told e };

    fn from(fault: FileFault) -> Refusal {
        match fault {
            FileFault::Stub => refused(Layer::File, 1, 0, 0),
            FileFault::Counts => refused(Layer::File, 2, 0, 0),
            FileFault::Layout => refused(Layer::File, 3, 0, 0),
            FileFault::NoSpace => refused(Layer::File, 4, 0, 0),
        }
    }
}

impl From<CardFault> for Refusal {
    ghost from_gives = { λ e r. r ≡ card_told e };

    fn from(fault: CardFault) -> Refusal {
        match fault {
            CardFault::File(e) => Refusal::from(e),
            CardFault::Period(task) => refused(Layer::Card, 11, u32::from(task), 0),
            CardFault::RunTime(task) => refused(Layer::Card, 12, u32::from(task), 0),
            CardFault::LongFrame(task) => refused(Layer::Card, 13, u32::from(task), 0),
            CardFault::Boundaries => refused(Layer::Card, 14, 0, 0),
        }
    }
}

impl From<SheetFault> for Refusal {
    ghost from_gives = { λ e r. r ≡ sheet_told e };

    fn from(fault: SheetFault) -> Refusal {
        match fault {
            SheetFault::Card(e) => Refusal::from(e),
            SheetFault::Rows => refused(Layer::Sheet, 21, 0, 0),
            SheetFault::WideShare(interval, task) => {
                refused(Layer::Sheet, 22, u32::from(interval), u32::from(task))
            }
            SheetFault::Overfull(interval) => refused(Layer::Sheet, 23, u32::from(interval), 0),
            SheetFault::WrongTotal(task, job) => { refused(Layer::Sheet, 24, u32::from(task), job) }
        }
    }
}

impl From<LocalFault> for Refusal {
    ghost from_gives = { λ e r. r ≡ local_told e };

    fn from(fault: LocalFault) -> Refusal {
        match fault {
            LocalFault::Misfit => refused(Layer::Local, 31, 0, 0),
            LocalFault::Over => refused(Layer::Local, 32, 0, 0),
        }
    }
}

impl From<DispatchFault> for Refusal {
    ghost from_gives = { λ e r. r ≡ dispatch_told e };

    fn from(fault: DispatchFault) -> Refusal {
        match fault {
            DispatchFault::Empty => refused(Layer::Dispatch, 41, 0, 0),
            DispatchFault::LastFrame => refused(Layer::Dispatch, 42, 0, 0),
            DispatchFault::NoTask => refused(Layer::Dispatch, 43, 0, 0),
        }
    }
}

impl fmt::Display for Layer {
    ghost output = { λ l. Some (layer_text l) };

    fn fmt<W: fmt::Write>(&self, f: &mut fmt::Formatter<W>) -> fmt::Result {
        match self {
            Layer::File => write!(f, "file"),
            Layer::Card => write!(f, "card"),
            Layer::Sheet => write!(f, "sheet"),
            Layer::Local => write!(f, "local"),
            Layer::Dispatch => write!(f, "dispatch"),
        }
    }
}

impl fmt::Display for Refusal {
    ghost output = { λ r. Some (refusal_text r) };

    fn fmt<W: fmt::Write>(&self, f: &mut fmt::Formatter<W>) -> fmt::Result {
        write!(
            f,
            "refused {} {} {} {}",
            self.layer, self.number, self.place.0, self.place.1
        )
    }
}
