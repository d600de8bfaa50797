// Notices on their way out.
ghost use Rattle.std.specs.Prelude.{[], ◌∷◌};
ghost use Rattle.premise.specs.Passes.{cancelling, notice, code_cancel};
ghost use Rattle.premise_notices.specs.Codes.{code_number};
ghost use Rattle.premise_notices.specs.Outboxes.{RoomIn, Sends, DoneToOrder};

use crate::cancelling::as_cancelled;
use crate::notices::{NoticeCode, notice_on};
use premise::Order;
use records::Notice;

// A buffer that is lent, and how many notices stand in it.
#[derive(Drop)]
pub struct Outbox<'a> {
    pub buffer: &'a mut [u8],
    pub sent: usize,
}

impl<'a> Outbox<'a> {
    // Writes a notice behind those that stand in the buffer: the part from there on is lent to the writer.
    pub fn send(&mut self, notice: Notice)
        requires { RoomIn self.old (notice ∷ []) }
        ensures { Sends self.old self.new (notice ∷ []) }
    {
        let at = records::RECORD_LENGTH * self.sent;
        record_bytes::write_notice(&mut self.buffer[at..], notice);
        self.sent += 1;
    }

    // Sends a notice on an order to an addressee, under any number, also under one that no code has.
    pub fn tell_number(&mut self, number: u8, premise: u64, addressee: u64, o: Order)
        requires { RoomIn self.old (notice number premise addressee o ∷ []) }
        ensures { Sends self.old self.new (notice number premise addressee o ∷ []) }
    {
        self.send(notice_on(number, premise, addressee, o));
    }

    // Sends a notice on an order to an addressee.
    pub fn tell(&mut self, code: NoticeCode, premise: u64, addressee: u64, o: Order)
        requires { RoomIn self.old (notice (code_number code) premise addressee o ∷ []) }
        ensures { Sends self.old self.new (notice (code_number code) premise addressee o ∷ []) }
    {
        self.tell_number(code.number(), premise, addressee, o);
    }

    // Sends an order's notice 5, the cancellation, to an addressee.
    pub fn send_cancel(&mut self, premise: u64, addressee: u64, o: Order)
        requires { RoomIn self.old (notice code_cancel premise addressee o ∷ []) }
        ensures { Sends self.old self.new (notice code_cancel premise addressee o ∷ []) }
    {
        self.tell(NoticeCode::Cancel, premise, addressee, o);
    }

    // Cancels an order, with notices to the TDSP and then to an addressee.
    pub fn cancel(&mut self, premise: u64, addressee: u64, o: Order) -> Order
        requires { RoomIn self.old (cancelling premise addressee o).notices }
        ensures { DoneToOrder (cancelling premise addressee o) result self.old self.new }
    {
        let t = as_cancelled(o);
        self.send_cancel(premise, records::TDSP, t);
        self.send_cancel(premise, addressee, t);
        t
    }
}
