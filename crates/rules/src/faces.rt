// A face that water passes, inner or drained: the pressure difference over it in millipascals, and its resistance R.
#[derive(Clone, Copy)]
pub struct OpenFace {
    pub difference: i64,
    pub resistance: u64,
}
