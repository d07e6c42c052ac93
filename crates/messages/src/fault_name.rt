//! The printed names of faults of packets, messages, events and their order.

use binlog::EventFaultKind;
use gather::GatherFault;
use greet::GreetFault;
use wire::WireFault;

/// The name of a packet fault.
pub fn wire_reason(fault: WireFault) -> &'static str {
    match fault {
        WireFault::Sequence { .. } => "Wire.Sequence",
        WireFault::TooLarge => "Wire.TooLarge",
        WireFault::Memory => "Memory",
        WireFault::Ended => "Wire.Ended",
    }
}

/// The name of an event fault.
pub fn event_reason(fault: EventFaultKind) -> &'static str {
    match fault {
        EventFaultKind::Truncated => "Event.Truncated",
        EventFaultKind::Size => "Event.Size",
        EventFaultKind::FormatVersion => "Event.FormatVersion",
        EventFaultKind::Checksum(_) => "Event.Checksum",
        EventFaultKind::HeaderLengths => "Event.HeaderLengths",
        EventFaultKind::TypeCode(_) => "Event.TypeCode",
        EventFaultKind::Statement => "Event.Statement",
        EventFaultKind::ColumnType(_) => "Event.ColumnType",
        EventFaultKind::Metadata => "Event.Metadata",
        EventFaultKind::Columns => "Event.Columns",
        EventFaultKind::Partial => "Event.Partial",
        EventFaultKind::Number => "Event.Number",
        EventFaultKind::Trailing => "Event.Trailing",
        EventFaultKind::Memory => "Memory",
        EventFaultKind::Anonymous => "Event.Anonymous",
    }
}

/// The name of a message fault.
pub fn greet_reason(fault: &GreetFault) -> &'static str {
    match fault {
        GreetFault::ServerError { .. } => "Greet.ServerError",
        GreetFault::Protocol(_) => "Greet.Protocol",
        GreetFault::Truncated => "Greet.Truncated",
        GreetFault::Capabilities(_) => "Greet.Capabilities",
        GreetFault::Plugin => "Greet.Plugin",
        GreetFault::OldAuth => "Greet.OldAuth",
        GreetFault::Unexpected(_) => "Greet.Unexpected",
        GreetFault::Memory => "Memory",
    }
}

/// The name of a fault of the order of events. Of the fault of an event in it the caller prints the name after `Gather.`.
pub fn gather_reason(fault: &GatherFault) -> &'static str {
    match fault {
        GatherFault::NoFormat => "Gather.NoFormat",
        GatherFault::Misplaced(_) => "Gather.Misplaced",
        GatherFault::UnknownTable(_) => "Gather.UnknownTable",
        GatherFault::Event(_) => "Gather.Event",
        GatherFault::Memory => "Memory",
        GatherFault::Ended => "Gather.Ended",
    }
}
