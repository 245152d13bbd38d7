use quantities::{Clock, Face, Head, Outflow, Pressure};

// How many points each curve of a soil has.
#[derive(Clone, Copy)]
pub struct CurveCounts {
    pub compressibility: usize,
    pub conductivity: usize,
}

// What an element's effective stress is read by, beside its solids, its water and the compressibility curve's points: today how many
// points there are.
#[derive(Clone, Copy)]
pub struct Skeleton {
    pub points: usize,
}

// Both curves, point by point. Array places past a count are ignored and kept, here and in a layer.
#[derive(Clone, Copy)]
pub struct Soil {
    pub counts: CurveCounts,
    pub compressibility_void: [u64; 64],
    pub compressibility_stress: [u64; 64],
    pub conductivity_void: [u64; 64],
    pub conductivity: [u64; 64],
}

// The numbers of a layer that no call changes.
#[derive(Clone, Copy)]
pub struct Frame {
    pub top: Face,
    pub bottom: Face,
    pub elements: usize,
    pub table_points: usize,
    pub gravity: u64,
    pub top_level: Head,
    pub bottom_level: Head,
    pub starting_water: u64,
}

// The numbers of a layer that calls change.
#[derive(Clone, Copy)]
pub struct Progress {
    pub load: Pressure,
    pub clock: Clock,
    pub top_outflow: Outflow,
    pub bottom_outflow: Outflow,
}

// A layer but for its soil: its numbers, and its arrays, of which calls change the water.
#[derive(Clone, Copy)]
pub struct Layer {
    pub frame: Frame,
    pub progress: Progress,
    pub solids: [u64; 128],
    pub water: [u64; 128],
    pub table_time: [u64; 64],
    pub table_load: [u64; 64],
}

// A layer on its soil between two calls.
#[derive(Clone, Copy)]
pub struct Record {
    pub soil: Soil,
    pub layer: Layer,
}
