// The premise layer's rules: one premise, its file and its orders. Here stand its types; the rules over them stand in specs/, section by
// section from document 01, with the set pieces. What the layer above may rely on is stated in specs/Laws.antt, and of the steps in
// `premise_laws`. The crates `premise_file` to `premise_steps` do in code what the rules say.
#![tactic(auto)]

// How many orders a file holds at most, and how many open ones of one retailer.
pub const MOST_ORDERS: usize = 8;

pub const MOST_OF_ONE: usize = 4;

// How many business days an order is counted to wait at most, and how many calendar days end Cancel Pending.
pub const MOST_WAITED: u8 = 21;

pub const MOST_PENDING: u8 = 7;

// The retailer of a premise that is de-energized. A number, as in a record and in a file, of which a damaged book may have any.
pub const NOBODY: u64 = 0;

// The statuses of an order. They are numbers with names, and no enum, since a damaged book can hold any number.
pub const IN_REVIEW: u8 = 1;

pub const PERMIT_PENDING: u8 = 2;

pub const SCHEDULED: u8 = 3;

pub const CANCEL_PENDING: u8 = 4;

pub const COMPLETE: u8 = 5;

pub const CANCELLED: u8 = 6;

pub const UNEXECUTABLE: u8 = 7;

// A count of Retail Business Days: how long an order has waited.
#[derive(Clone, Copy)]
pub struct BusinessDays(pub u8);

// A count of calendar days: how long an order has been in Cancel Pending. A type of its own, so that a wait in calendar days can't be
// given business days.
#[derive(Clone, Copy)]
pub struct CalendarDays(pub u8);

// An order. The widest fields come first, so that no bytes lie between them: an order is copied whole, and odd bytes take longer.
#[derive(Clone, Copy)]
pub struct Order {
    // the submitting retailer, for a drop the gaining one
    pub submitter: u64,
    // that of the last date change that was taken, 0 before the first; it has the type of the field that it comes from
    pub counter: u64,
    pub reference: u32,
    pub requested: u16,
    // the scheduled day, or no day
    pub scheduled: u16,
    pub kind: u8,
    pub status: u8,
    pub waited: BusinessDays,
    pub pending: CalendarDays,
    // whether the retailer that loses the premise has been told, 0 or 1; a number, since in a damaged book it can be another
    pub told: u8,
}

// A premise's file. The first `count` places of `orders` hold its orders, oldest first; the others are zero. Eight places and a count, no
// list: nothing of the book is on a heap, and of a damaged one every place is looked at.
#[derive(Clone, Copy)]
pub struct File {
    pub premise: u64,
    // its retailer, 0 where the premise is de-energized
    pub retailer: u64,
    // the retailer with which the owner has an agreement, 0 where there is none
    pub agreement: u64,
    // the day since which the retailer holds
    pub since: u16,
    // how many business days before its scheduled day an order is in window
    pub window: u8,
    // 1 where the retailer came by a move in that was read on the day since which it holds, else 0; a number for the same reason
    pub entered: u8,
    pub count: usize,
    pub orders: [Order; 8],
}

impl File {
    ghost use Rattle.std.specs.Prelude.{◌≡◌};
    ghost use Rattle.premise.specs.Orders.{held};
    ghost use Rattle.premise.specs.WellKept.{Tidy};

    // Its orders, oldest first.
    pub fn held(&self) -> &[Order]
        requires { Tidy self.now }
        ensures { result.now ≡ held self.now }
    {
        &self.orders[..self.count]
    }
}

// Why a call is refused: a name for each row of document 01's table of refusals, with the rows of document 02's changes 1, 3 and 12.
#[derive(Debug, Clone, Copy, PartialEq, Eq)]
pub enum Refusal {
    ShortBuffer,
    NotWellKept,
    MalformedRecord,
    NoSuchPremise,
    OtherAgreement,
    PremiseHeld,
    BookFull,
    OrderOpen,
    ReferenceHeld,
    DayOutOfRange,
    NoSwitchDate,
    NotFirstIn,
    RetailerShareFull,
    StackFull,
    NoSuchOrder,
    StatusNotTaken,
    CounterNotAbove,
    OrderInWindow,
    NotNextDay,
}

// What a call answers: acceptance, or the row that refuses.
pub type Answer = Result<(), Refusal>;
