// The first byte of each field of a record. A notice has its code in the place of the kind, its order's kind in that of the detail and
// its addressee in that of the retailer; a date change its counter.
pub const KIND: usize = 0;

pub const DETAIL: usize = 1;

pub const DAY: usize = 2;

pub const REFERENCE: usize = 4;

pub const PREMISE: usize = 8;

pub const RETAILER: usize = 16;
