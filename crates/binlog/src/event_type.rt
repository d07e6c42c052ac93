//! The types of events, as the byte at offset 4 of an event has them. MySQL Source Documentation, "Binlog Event", the
//! page `binary_log::Log_event_type`.

pub const QUERY: u8 = 2;

pub const STOP: u8 = 3;

pub const ROTATE: u8 = 4;

pub const FORMAT_DESCRIPTION: u8 = 15;

pub const XID: u8 = 16;

pub const TABLE_MAP: u8 = 19;

pub const HEARTBEAT: u8 = 27;

pub const IGNORABLE: u8 = 28;

pub const ROWS_QUERY: u8 = 29;

pub const WRITE_ROWS: u8 = 30;

pub const UPDATE_ROWS: u8 = 31;

pub const DELETE_ROWS: u8 = 32;

pub const GTID: u8 = 33;

pub const ANONYMOUS_GTID: u8 = 34;

pub const PREVIOUS_GTIDS: u8 = 35;

pub const XA_PREPARE: u8 = 38;

pub const PARTIAL_UPDATE_ROWS: u8 = 39;

pub const TRANSACTION_PAYLOAD: u8 = 40;
