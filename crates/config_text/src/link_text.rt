use music_base::{Name, Nanos};

/// A connection, as a text states it: from a port of one application to a port of another, or of the same one. The
/// width, where it is stated, is how many indices it has: 1 to 65,536. The latency, where it is stated, is at most
/// 10^15 ns. `buffered`, where it is stated, is how many blocks the connection keeps: 1 to 1,000,000.
#[derive(Debug, Drop)]
pub struct LinkText {
    pub from_app: Name,
    pub from_port: Name,
    pub to_app: Name,
    pub to_port: Name,
    pub width: Option<u32>,
    pub latency: Option<Nanos>,
    pub buffered: Option<u64>,
}
