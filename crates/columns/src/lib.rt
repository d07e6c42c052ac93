//! The columns of MySQL's tables: their types, and what the cells of a row mean by them.
//!
//! The log says how many bytes a cell takes and no more. A description of the columns, as the server's
//! `information_schema` gives it, says the rest: the type, its sign, its digits. [`Description::read`] reads one.
//! [`DataType::read`] reads the text of a type, and its `Display` writes it. [`TypedValue::read`] gives the value of a cell
//! in a column of a type. [`ColumnType::write_field`] writes the cell of the value that a field of a client's line is, as a
//! server sends it.
//!
//! The types and their texts are those of the MySQL Reference Manual, "Data Types" and "The INFORMATION_SCHEMA COLUMNS
//! Table".
#![tactic(auto)]

mod arguments;
mod character_set;
mod column;
mod column_cell;
mod column_type;
mod data_type;
mod description;
mod escape;
mod fault;
mod field_bytes;
mod field_cell;
pub mod field_laws;
mod fields;
mod hex_digits;
pub mod laws;
mod lines;
mod member;
mod member_lists;
mod member_texts;
mod members;
mod numeral;
mod one_value;
mod padding;
mod plain;
mod seen;
mod shape;
mod sign;
mod table;
mod table_front;
mod text;
mod type_name;
mod typed_value;
mod value;
mod wide;
mod word;
mod written_cell;

pub use arguments::Arguments;
pub use character_set::CharacterSet;
pub use column::{Column, Key};
pub use column_type::{ColumnType, ColumnTypeFault};
pub use data_type::DataType;
pub use description::{Description, DescriptionFault};
pub use escape::{EscapeFault, Escaped, unescape};
pub use fault::TypeFault;
pub use field_bytes::{is_null_field, read_hex_field};
pub use fields::{LineFault, split_field};
pub use member::Member;
pub use member_lists::{EnumMembers, SetMembers};
pub use member_texts::{joined_members, member_at};
pub use plain::Plain;
pub use shape::Shape;
pub use sign::Sign;
pub use table::DescribedTable;
pub use text::Text;
pub use type_name::TypeName;
pub use typed_value::TypedValue;
pub use value::bit::read_bits;
pub use value::choice::{ordinal_width, read_ordinal, read_set, set_width};
pub use value::date::Date;
pub use value::decimal::{Decimal, ZerofilledDecimal};
pub use value::fault::CellFault;
pub use value::field_fault::FieldFault;
pub use value::field_numbers::{read_bits_field, read_ordinal_field, read_set_field};
pub use value::field_reals::{read_double_field, read_float_field};
pub use value::filled::{ZerofilledFixedReal, ZerofilledPlainReal};
pub use value::finite::Real;
pub use value::float::{double_bytes, float_bytes, read_double, read_float};
pub use value::fraction::Fraction;
pub use value::integer::{Integer, IntegerWidth, Zerofilled};
pub use value::moment::Datetime;
pub use value::real::{FixedReal, PlainReal, ShortestReal};
pub use value::scientific::Scientific;
pub use value::span::Time;
pub use value::stamp::Timestamp;
pub use value::tens::Tens;
pub use value::year::Year;
pub use word::after_byte;
pub use written_cell::WrittenCell;
