//! What to do about a fault of the source's messages and events, as messages say it.

use binlog::EventFaultKind;
use greet::GreetFault;

/// The types of events that a setting of the source keeps out of its log (MySQL Source Documentation, `binlog_event.h`).
const PARTIAL_UPDATE: u8 = 39;

const COMPRESSED: u8 = 40;

const TAGGED_GTID: u8 = 42;

const NO_CHECKSUMS: &str =
    "let mrep-proxy read it, or run the source with binlog_checksum = NONE; what was written before that cannot be read then: begin a new database by a first copy (mrep select)";

const NATIVE_PASSWORD: &str =
    "the account has to use mysql_native_password, which MySQL 8.4 loads with loose_mysql_native_password = ON and MySQL 9 does not have";

const NO_SUCH_COLUMN: &str =
    "leave the table out, in a new database with --only for each of the others";

const FULL_ROWS: &str = "the source has to run with binlog_row_image = FULL";

const NO_PARTIAL_UPDATES: &str = "the source has to run with an empty binlog_row_value_options";

const NO_COMPRESSION: &str = "the source has to run with binlog_transaction_compression = OFF";

const NO_TAGS: &str = "GTIDs with tags are not supported: keep gtid_next without a tag";

const GTIDS: &str = "the source has to run with gtid_mode = ON";

/// What to do about an event that is not read, if there is something besides what the fault says.
pub fn event_advice(fault: EventFaultKind) -> Option<&'static str> {
    match fault {
        EventFaultKind::Checksum(_) => Some(NO_CHECKSUMS),
        EventFaultKind::ColumnType(_) => Some(NO_SUCH_COLUMN),
        EventFaultKind::Partial => Some(FULL_ROWS),
        EventFaultKind::TypeCode(PARTIAL_UPDATE) => Some(NO_PARTIAL_UPDATES),
        EventFaultKind::TypeCode(COMPRESSED) => Some(NO_COMPRESSION),
        EventFaultKind::TypeCode(TAGGED_GTID) => Some(NO_TAGS),
        EventFaultKind::Anonymous => Some(GTIDS),
        _ => None,
    }
}

/// What to do about a message that is not read, if there is something besides what the fault says.
pub fn greet_advice(fault: &GreetFault) -> Option<&'static str> {
    match fault {
        GreetFault::Plugin => Some(NATIVE_PASSWORD),
        _ => None,
    }
}
