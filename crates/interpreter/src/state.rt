// What a run may use.
#[derive(Drop)]
pub struct Bounds {
    pub budget: u32,
    pub calls: usize,
}
