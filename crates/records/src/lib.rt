// Records and notices. Here stand their types and numbers; what their bytes say stands in specs/, from document 01, "Records", with its
// laws in proofs/. The code stands in `record_bytes`.
#![tactic(auto)]

// The first byte of each field.
pub mod field_at;
pub mod order_kind;
pub mod record_kind;

// The length of a record and of a notice.
pub const RECORD_LENGTH: usize = 24;

// What a cancel reply says. A number, as below: the detail is one byte, which each kind reads in its own way.
pub const REPLY_ACCEPT: u8 = 1;

pub const REPLY_REJECT: u8 = 2;

// What an agreement's record does with it.
pub const ESTABLISH: u8 = 1;

pub const DELETE: u8 = 2;

// Retailers are 1 to this number.
pub const LAST_RETAILER: u64 = 9_999_999_999_999;
// The counters of date changes are 1 to this number.
pub const LAST_COUNTER: u64 = 4_294_967_295;
// The addressee that is the TDSP, the wires company. A number, as a retailer is: the field of the notice holds either.
pub const TDSP: u64 = 0;

// A record's fields, as its bytes give them.
#[derive(Clone, Copy)]
pub struct Record {
    pub kind: u8,
    pub detail: u8,
    pub day: u16,
    pub reference: u32,
    pub premise: u64,
    // the retailer; of a date change its counter
    pub retailer: u64,
}

// A notice. An addressee of 0 is the TDSP.
#[derive(Clone, Copy)]
pub struct Notice {
    pub code: u8,
    pub kind: u8,
    pub day: u16,
    pub reference: u32,
    pub premise: u64,
    pub addressee: u64,
}
