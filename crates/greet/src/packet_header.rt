//! The first bytes of payloads, by which a message is known. MySQL Source Documentation, "Client/Server Protocol": the
//! pages `Protocol::HandshakeV10`, `OK_Packet`, `EOF_Packet`, `ERR_Packet`, `Protocol::AuthSwitchRequest` and `COM_QUERY`;
//! "Replication Protocol": the page `COM_BINLOG_DUMP_GTID`.

/// The version of the protocol, with which a greeting begins.
pub const VERSION: u8 = 10;

/// An OK. In a binary log stream it stands before each event.
pub const OK: u8 = 0x00;

/// An EOF, and a request to switch the authentication method.
pub const EOF: u8 = 0xfe;

/// An ERR.
pub const ERR: u8 = 0xff;

pub const COM_QUERY: u8 = 0x03;

pub const COM_BINLOG_DUMP_GTID: u8 = 0x1e;
