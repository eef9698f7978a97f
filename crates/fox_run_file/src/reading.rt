// What a reader tells of a scan that it opened: how many bytes it has, and the place of the scan after it.
use crate::place::Place;

#[derive(Clone, Copy)]
pub struct Opened {
    pub size: usize,
    pub next: Place,
}
