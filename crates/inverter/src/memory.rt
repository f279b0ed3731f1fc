// The memory that a cell of the inverter is lent.
// As many records as the designer has rules.
pub const RECORDS: usize = 8;

// More rules than a reduced list of the inverter has.
pub const LIST_ROOM: usize = 64;
