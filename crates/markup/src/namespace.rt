// The default namespace, the root's only attribute.
pub const XMLNS: [u8; 5] = *b"xmlns";

pub const ICALENDAR: [u8; 36] = *b"urn:ietf:params:xml:ns:icalendar-2.0";
