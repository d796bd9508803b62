use scene_model::Wait;

/// Waits that lead round: each awaited application is the next wait's waiter, and the last one's is the first's.
#[derive(Debug, Drop)]
pub struct Cycle(pub Vec<Wait>);
