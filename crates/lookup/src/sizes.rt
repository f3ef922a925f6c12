// How many tokens and classes an accepted source has.

#[derive(Clone, Copy)]
pub struct Sizes {
    pub tokens: usize,
    pub classes: usize,
}
