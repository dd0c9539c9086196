//! How sensors are kept.
use arrayvec::ArrayVec;

/// The most sensors that a layer takes up.
pub(crate) const MOST_SENSORS: usize = 16;

/// A source with up to 16 sensors behind its equations. A sensor is an equation that holds one unknown.
#[derive(Drop)]
pub struct Sensors<S> {
    pub(crate) below: S,
    pub(crate) on: ArrayVec<usize, MOST_SENSORS>,
}
