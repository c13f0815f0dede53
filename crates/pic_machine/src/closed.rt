/// What is left of a machine whose work is done: the fibers' bodies in order of their numbers, from 1,
/// and the clock's, with the time that it shows.
#[derive(Drop)]
pub struct Closed<B> {
    pub bodies: Vec<B>,
    pub clock: B,
    pub now: u32,
}
