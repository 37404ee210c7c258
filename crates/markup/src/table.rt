// Tables of element names, each ended by a line feed: value types, and the parts of a rule, in the schema's order.
pub const TYPES: [u8; 111] =
    *b"binary\nboolean\ncal-address\ndate\ndate-time\nduration\nfloat\ninteger\nperiod\nrecur\ntext\ntime\nuri\nutc-offset\nunknown\n";

pub const PARTS: [u8; 109] =
    *b"freq\nuntil\ncount\ninterval\nbysecond\nbyminute\nbyhour\nbyday\nbymonthday\nbyyearday\nbyweekno\nbymonth\nbysetpos\nwkst\n";
