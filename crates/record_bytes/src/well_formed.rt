// Whether a record's fields are in range for its kind, and the unused ones zero. The tests of a kind have no branch: they are joined by
// `&`, and no range is asked whether it contains a number.
ghost use Rattle.std.specs.Prelude.{◌≡◌, ◌≤◌};
ghost use Rattle.records.specs.Records.{well_formed, kind_scheduled, kind_reply, order_day, a_retailer};
ghost use Rattle.records.specs.Kinds.{dated_holds};

use days::{LAST_DAY, MOST_WIDTH};
use records::{
    DELETE, ESTABLISH, LAST_COUNTER, LAST_RETAILER, REPLY_ACCEPT, REPLY_REJECT, Record, order_kind,
    record_kind,
};

// Scheduled and meter read use the day, the reference and the premise.
fn dated_holds(fields: Record) -> bool
    ensures { result ≡ dated_holds fields }
{
    (fields.detail == 0)
        & (fields.day <= LAST_DAY)
        & (fields.reference != 0)
        & (fields.premise != 0)
        & (fields.retailer == 0)
}

// Whether a number is a retailer's.
fn is_retailer(number: u64) -> bool
    ensures { result ≡ a_retailer number }
{
    (1 <= number) & (number <= LAST_RETAILER)
}

// The kinds 4 to 9 name a held order. Permit required and unexecutable use the reference and the premise; a cancel the retailer too; a
// cancel reply the detail too.
pub fn named_order_holds(fields: Record) -> bool
    requires { (kind_scheduled ≤ fields.kind) × (fields.kind ≤ kind_reply) }
    ensures { result ≡ well_formed fields }
{
    let kind = fields.kind;
    match kind {
        record_kind::SCHEDULED => dated_holds(fields),
        record_kind::PERMIT..=record_kind::UNEXECUTABLE => {
            (fields.detail == 0)
                & (fields.day == 0)
                & (fields.reference != 0)
                & (fields.premise != 0)
                & (fields.retailer == 0)
        },
        record_kind::READ => dated_holds(fields),
        record_kind::CANCEL => {
            (fields.detail == 0)
                & (fields.day == 0)
                & (fields.reference != 0)
                & (fields.premise != 0)
                & is_retailer(fields.retailer)
        },
        _ => {
            ((REPLY_ACCEPT <= fields.detail) & (fields.detail <= REPLY_REJECT))
                & (fields.day == 0)
                & (fields.reference != 0)
                & (fields.premise != 0)
                & (fields.retailer == 0)
        },
    }
}

// The day of a new order: 0 for a standard switch, which gets the switch date; otherwise a day.
fn order_day_holds(kind: u8, day: u16) -> bool
    ensures { result ≡ order_day kind day }
{
    if kind == order_kind::STANDARD_SWITCH {
        day == 0
    } else {
        day <= LAST_DAY
    }
}

// Dispatch on the record kind: a `match` on its number, with a range for those that name an order, as document 01 names it. A create uses
// the detail, its window, the day, the premise, and a retailer or none; a retire the premise; a new order every field, its detail the
// order kind; a day mark the day; a date change all but the detail, with a counter of 32 bits, which is not 0, in the retailer's place;
// an agreement the premise and the retailer, its detail whether it is established or deleted.
pub fn well_formed(fields: Record) -> bool
    ensures { result ≡ well_formed fields }
{
    let kind = fields.kind;
    match kind {
        record_kind::CREATE => {
            (fields.detail as usize <= MOST_WIDTH)
                & (fields.day <= LAST_DAY)
                & (fields.reference == 0)
                & (fields.premise != 0)
                & (fields.retailer <= LAST_RETAILER)
        },
        record_kind::RETIRE => {
            (fields.detail == 0)
                & (fields.day == 0)
                & (fields.reference == 0)
                & (fields.premise != 0)
                & (fields.retailer == 0)
        },
        record_kind::NEW_ORDER => {
            (order_kind::MOVE_IN <= fields.detail)
                & (fields.detail <= order_kind::MASS_TRANSITION_DROP)
                & order_day_holds(fields.detail, fields.day)
                & (fields.reference != 0)
                & (fields.premise != 0)
                & is_retailer(fields.retailer)
        },
        record_kind::SCHEDULED..=record_kind::REPLY => named_order_holds(fields),
        record_kind::DAY_MARK => {
            (fields.detail == 0)
                & (fields.day <= LAST_DAY)
                & (fields.reference == 0)
                & (fields.premise == 0)
                & (fields.retailer == 0)
        },
        record_kind::DATE_CHANGE => {
            (fields.detail == 0)
                & (fields.day <= LAST_DAY)
                & (fields.reference != 0)
                & (fields.premise != 0)
                & ((1 <= fields.retailer) & (fields.retailer <= LAST_COUNTER))
        },
        record_kind::AGREEMENT => {
            (ESTABLISH <= fields.detail)
                & (fields.detail <= DELETE)
                & (fields.day == 0)
                & (fields.reference == 0)
                & (fields.premise != 0)
                & is_retailer(fields.retailer)
        },
        _ => false,
    }
}
