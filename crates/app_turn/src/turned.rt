/// What an end answered: a block moved, or there was none, or no room for it.
#[derive(Clone, Copy, Debug, PartialEq, Eq)]
pub enum Turned {
    Acted,
    NotYet,
}
