// The numbers of a job's first 48 bytes, or of a description that has no bytes: each may be any number.
#[derive(Clone, Copy)]
pub struct Header {
    pub top: u64,
    pub bottom: u64,
    pub elements: usize,
    pub compressibility_points: usize,
    pub conductivity_points: usize,
    pub table_points: usize,
    pub start: u64,
    pub gravity: u64,
    pub top_level: u64,
    pub bottom_level: u64,
    pub end: u64,
    pub budget: u64,
}
