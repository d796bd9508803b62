/// What is wrong with a configuration text.
#[derive(Clone, Copy, Debug, PartialEq, Eq)]
pub enum TextKind {
    /// The text has more than 1,048,576 bytes. The line is 0.
    TooLong,
    /// Outside a comment a byte stands that is neither a tab nor one of 0x20 to 0x7E.
    BadByte,
    /// The line is neither blank nor a section line, a setting or a connection.
    BadLine,
    /// What has to be a name, or an end of a connection, is none.
    BadName,
    /// What stands in the brackets behind a connection is no number of 1 to 65,536.
    BadWidth,
    /// What stands behind the ends and the width of a connection is no list of options: `latency=TIME`, a time of at most
    /// 10^15 ns, and `buffered=COUNT`, a number of 1 to 1,000,000, each at most once.
    BadOption,
    /// A section of this name stands above.
    RepeatedSection,
    /// A setting of this name stands above in the same section, or among the defaults where it is one of them.
    RepeatedSetting,
    /// The 33rd section.
    TooManySections,
    /// The 65th connection.
    TooManyLinks,
}
