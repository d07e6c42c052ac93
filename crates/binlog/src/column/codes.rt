//! The codes of column types, as a table map has them. MySQL Source Documentation, "Binlog Event", the page
//! `binary_log::Table_map_event`, and `enum_field_types` of `field_types.h`.
//!
//! ENUM and SET stand there as STRING, and have their code in its metadata, as its real type.

pub(crate) const TINY: u8 = 1;

pub(crate) const SHORT: u8 = 2;

pub(crate) const LONG: u8 = 3;

pub(crate) const FLOAT: u8 = 4;

pub(crate) const DOUBLE: u8 = 5;

pub(crate) const LONGLONG: u8 = 8;

pub(crate) const INT24: u8 = 9;

pub(crate) const DATE: u8 = 10;

pub(crate) const YEAR: u8 = 13;

pub(crate) const VARCHAR: u8 = 15;

pub(crate) const BIT: u8 = 16;

pub(crate) const TIMESTAMP2: u8 = 17;

pub(crate) const DATETIME2: u8 = 18;

pub(crate) const TIME2: u8 = 19;

pub(crate) const NEWDECIMAL: u8 = 246;

pub(crate) const ENUM: u8 = 247;

pub(crate) const SET: u8 = 248;

pub(crate) const BLOB: u8 = 252;

pub(crate) const STRING: u8 = 254;
