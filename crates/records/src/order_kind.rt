// The order kinds. Numbers with names, and no enum: a damaged book holds orders of any number, and a call answers it (row 2).
pub const MOVE_IN: u8 = 1;

pub const MOVE_OUT: u8 = 2;

pub const STANDARD_SWITCH: u8 = 3;

pub const SELF_SELECTED_SWITCH: u8 = 4;

pub const MASS_TRANSITION_DROP: u8 = 5;
