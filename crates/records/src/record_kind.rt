// The record kinds. Numbers with names, and no enum: the dispatch goes by ranges of them, a form that document 01 names, and the fields
// of a record are what its bytes give, in range or not.
pub const CREATE: u8 = 1;

pub const RETIRE: u8 = 2;

pub const NEW_ORDER: u8 = 3;

pub const SCHEDULED: u8 = 4;

pub const PERMIT: u8 = 5;

pub const UNEXECUTABLE: u8 = 6;

pub const READ: u8 = 7;

pub const CANCEL: u8 = 8;

pub const REPLY: u8 = 9;

pub const DAY_MARK: u8 = 10;

pub const DATE_CHANGE: u8 = 11;

pub const AGREEMENT: u8 = 12;
